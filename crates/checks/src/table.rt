// What build refuses.
ghost use Rattle.std.specs.Prelude.{◌≡◌};
ghost use Rattle.rows.specs.Programme.{alphabet_of, programme_of};
ghost use Rattle.checks.specs.Checks.{build_check};

use rows::{Programme, Refusal};

// Refusals 1 to 9. Table and classes are not read.
#[tactic(auto, unfolding(crate::specs::Checks::build_check))]
pub fn check_build(arities: &[u16], programme: Programme) -> Result<(), Refusal>
    ensures { result ≡ build_check (alphabet_of arities.now) (programme_of programme.entry) }
{
    rows::check_alphabet(arities)?;
    rows::check_sizes(programme.row.len(), programme.room()).map_err(Refusal::Row)?;
    rows::check_symbols(arities, programme.row).map_err(Refusal::Row)
}
