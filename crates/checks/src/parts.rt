// What the calls refuse that hand back a part of a lent row.
ghost use Rattle.std.specs.Prelude.{◌≡◌};
ghost use Rattle.rows.specs.Programme.{alphabet_of, programme_of};
ghost use Rattle.checks.specs.Checks.{subtree_check, newer_check};

use crate::given::{check_given, check_kept, check_position};
use rows::{Programme, Refusal};

// Refusals 1 to 10, 62, and 17.
#[tactic(auto, unfolding(crate::specs::Checks::subtree_check))]
pub fn check_subtree(arities: &[u16], programme: Programme, position: usize) -> Result<(), Refusal>
    ensures { result ≡ subtree_check (alphabet_of arities.now) (programme_of programme.entry) position }
{
    let n = programme.row.len();
    check_given(arities, programme, n)?;
    check_position(n, position)
}

// Refusals 1 to 3, 4 to 10 and 62 of the corrected row, 44 to 50 and 102 of the row on record, and 11 to 15.
#[tactic(auto, unfolding(crate::specs::Checks::newer_check))]
pub fn check_newer(
    arities: &[u16],
    corrected: Programme,
    record: Programme,
    pattern: &[u16],
) -> Result<(), Refusal>
    ensures { result ≡ newer_check (alphabet_of arities.now) (programme_of corrected.entry) (programme_of «record».entry) pattern.now }
{
    check_given(arities, corrected, corrected.row.len())?;
    check_kept(arities, record, record.row.len()).map_err(Refusal::OnRecord)?;
    patterns::check_pattern(arities, pattern)
}
