// What the plain matcher refuses.
ghost use Rattle.std.specs.Prelude.{◌≡◌};
ghost use Rattle.rows.specs.Programme.{alphabet_of};
ghost use Rattle.checks.specs.Checks.{plain_check};

use crate::given::check_position;
use rows::{Kept, Leaves, Refusal};

// Refusals 1 to 5, 7 to 9, 11 to 15, and 17. Nothing stands beside the row, so 6, 10 and 62 never occur.
#[tactic(auto, unfolding(crate::specs::Checks::plain_check))]
pub fn check_plain(
    arities: &[u16],
    row: &[u16],
    pattern: &[u16],
    position: usize,
) -> Result<(), Refusal>
    ensures { result ≡ plain_check (alphabet_of arities.now) row.now pattern.now position }
{
    rows::check_alphabet(arities)?;
    rows::check_reading(arities, row, Leaves::Symbols, rows::ROW_MOST)
        .map_err(Kept::Misread)
        .map_err(Refusal::Row)?;
    patterns::check_pattern(arities, pattern)?;
    check_position(row.len(), position)
}
