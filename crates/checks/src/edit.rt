// What replace refuses.
ghost use Rattle.std.specs.Prelude.{◌≡◌, ◌+◌, ◌-◌, ◌≤◌, ◌<◌, length, get_or};
ghost use Rattle.rows.specs.Limits.{row_most};
ghost use Rattle.rows.specs.Programme.{alphabet_of, programme_of};
ghost use Rattle.rows.specs.Refusals.{◌then◌, replacement as replacementCheck, position as positionCheck, grown};
ghost use Rattle.checks.specs.Checks.{replace_check};

use crate::given::check_given;
use rows::{Leaves, Programme, Refusal};

// Refusals 24 to 29, 17 and 18, in the row of n symbols with its table, where the shortest buffer has `room` places.
#[tactic(auto, unfolding(rows::specs::Refusals::replacement))]
pub fn check_replacement(
    arities: &[u16],
    table: &[u16],
    n: usize,
    replacement: &[u16],
    position: usize,
    room: usize,
) -> Result<(), Refusal>
    requires { (n ≤ row_most) × (n ≤ length table.now) × (position < n → get_or table.now position 0 ≤ n) }
    ensures { result ≡ (replacementCheck arities.now replacement.now then positionCheck n position then grown (position + length replacement.now + (n - get_or table.now position 0)) room) }
{
    rows::check_reading(arities, replacement, Leaves::Symbols, rows::ROW_MOST).map_err(
        Refusal::Replacement,
    )?;
    edits::check_place(table, room, n, replacement.len(), position)
}

// Refusals 1 to 10, 62, 24 to 29, 17 and 18.
#[tactic(auto, unfolding(crate::specs::Checks::replace_check))]
pub fn check_replace(
    arities: &[u16],
    programme: Programme,
    n: usize,
    replacement: &[u16],
    position: usize,
) -> Result<(), Refusal>
    ensures { result ≡ replace_check (alphabet_of arities.now) (programme_of programme.entry) n replacement.now position }
{
    check_given(arities, programme, n)?;
    check_replacement(
        arities,
        programme.table,
        n,
        replacement,
        position,
        programme.room(),
    )
}
