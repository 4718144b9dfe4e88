// The search: the row's table and classes are built, and the matches are listed.
ghost use Rattle.std.specs.Prelude.{◌-◌, ◌≤◌, length, take, drop};
ghost use Rattle.rows.specs.Limits.{row_most};
ghost use Rattle.seek_text.specs.Pages.{Answered};
ghost use Rattle.seek_text.specs.Inside.{Searched, Printable, numbers_most};

use crate::input::{Lists, read_input};
use rows::{Programme, Refusal};

// The number of the matches, which stand at the front of `positions`, rising, with the row's table at the front of `table`
// and its classes at the front of `classes`; or the first refusal.
fn find_matches(
    arities: &[u16],
    row: &[u16],
    pattern: &[u16],
    table: &mut [u16],
    classes: &mut [u16],
    positions: &mut [u16],
) -> Result<usize, Refusal>
    requires { (row_most ≤ length table.old) × (row_most ≤ length classes.old) × (row_most ≤ length positions.old) }
    ensures { Searched arities.now row.now pattern.now result table.new classes.new positions.new }
{
    sparrowhem::build(arities, row, table, classes)?;
    let programme = Programme {
        row,
        table,
        classes,
    };
    sparrowhem::find(arities, programme, pattern, positions)
}

// The same for three lists that stand one behind the other.
fn find_in(
    numbers: &[u16],
    lists: Lists,
    table: &mut [u16],
    classes: &mut [u16],
    positions: &mut [u16],
) -> Result<usize, Refusal>
    requires { (lists.arities ≤ lists.row) × (lists.row ≤ lists.pattern) × (lists.pattern ≤ length numbers.now) × (row_most ≤ length table.old) × (row_most ≤ length classes.old) × (row_most ≤ length positions.old) }
    ensures { Searched (take lists.arities numbers.now) (take (lists.row - lists.arities) (drop lists.arities numbers.now)) (take (lists.pattern - lists.row) (drop lists.row numbers.now)) result table.new classes.new positions.new }
{
    find_matches(
        &numbers[..lists.arities],
        &numbers[lists.arities..lists.row],
        &numbers[lists.row..lists.pattern],
        table,
        classes,
        positions,
    )
}

// What was found: where arities, row and pattern end in the buffer that holds them, and the number of the matches.
#[derive(Clone, Copy, Debug, PartialEq, Eq)]
pub struct Found {
    pub lists: Lists,
    pub count: usize,
}

// The response to an input: what was found, or why it is refused. The matches stand at the front of `positions`, the row's table at the
// front of `table`, its classes at the front of `classes`, and the three lists at the front of `numbers`.
pub fn answer_input(
    input: &[u8],
    numbers: &mut [u16],
    table: &mut [u16],
    classes: &mut [u16],
    positions: &mut [u16],
) -> Result<Found, Refusal>
    requires { (numbers_most ≤ length numbers.old) × (row_most ≤ length table.old) × (row_most ≤ length classes.old) × (row_most ≤ length positions.old) }
    ensures { Answered input.now result numbers.new positions.new × Printable result numbers.new table.new classes.new positions.new }
{
    let lists = read_input(input, numbers)?;
    let count = find_in(numbers, lists, table, classes, positions)?;
    Ok(Found { lists, count })
}
