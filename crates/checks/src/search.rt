// What find refuses before it looks for matches (its refusal 19 needs their count), and what the variables call refuses.
ghost use Rattle.std.specs.Prelude.{◌≡◌};
ghost use Rattle.rows.specs.Programme.{alphabet_of, programme_of};
ghost use Rattle.checks.specs.Checks.{search_check, variables_check};

use crate::given::{check_given, check_position};
use rows::{Programme, Refusal};

// Refusals 1 to 10, 62, and 11 to 15.
#[tactic(auto, unfolding(crate::specs::Checks::search_check))]
pub fn check_search(arities: &[u16], programme: Programme, pattern: &[u16]) -> Result<(), Refusal>
    ensures { result ≡ search_check (alphabet_of arities.now) (programme_of programme.entry) pattern.now }
{
    check_given(arities, programme, programme.row.len())?;
    patterns::check_pattern(arities, pattern)
}

// Refusals 1 to 10, 62, 11 to 15, 17, and 19 for an output of `places` places.
#[tactic(auto, unfolding(crate::specs::Checks::variables_check))]
pub fn check_variables(
    arities: &[u16],
    programme: Programme,
    pattern: &[u16],
    position: usize,
    places: usize,
) -> Result<(), Refusal>
    ensures { result ≡ variables_check (alphabet_of arities.now) (programme_of programme.entry) pattern.now position places }
{
    check_search(arities, programme, pattern)?;
    check_position(programme.row.len(), position)?;
    rows::check_room(rows::SPAN_PLACES, places)
}
