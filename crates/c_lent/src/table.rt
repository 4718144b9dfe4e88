// Build on lent bytes. Beside them it keeps one small room, for the alphabet and then for the heads of the classes.
ghost use Rattle.std.specs.Prelude.{◌≡◌, ◌≤◌, ◌<◌, min, length, take, Ok};
ghost use Rattle.rows.specs.Limits.{alphabet_most};
ghost use Rattle.rows.specs.Programme.{alphabet_of, room as places};
ghost use Rattle.classes.specs.Lasts.{Drawers};
ghost use Rattle.wire.specs.Wire.{numbers};
ghost use Rattle.c_lent.specs.Answer.{find_answer};
ghost use Rattle.c_lent.specs.Lent.{lent, numbers_of};
ghost use Rattle.c_lent.specs.Reading.{sizes_check};
ghost use Rattle.c_lent.specs.Calls.{BuiltBytes};

use crate::{Answer, Lent};
use rows::Refusal;

// Build under sizes that are accepted, and an alphabet that is: the first k numbers of `room`. Once the table is filled in the
// alphabet is done with, and the heads of the classes take its place. The answer is the row's length.
// Stays three lists, here and below: two are lent for writing, the row is not.
fn build_under(
    k: usize,
    row: &[u8],
    table: &mut [u8],
    classes: &mut [u8],
    room: &mut [u16],
) -> Result<usize, Refusal>
    requires k_in_bounds { (k ≤ length room.old) × Drawers room.old }
    requires classes_value { sizes_check (alphabet_of (take k room.old)) (length (numbers row.now)) (places (numbers_of (lent row.now table.old classes.old))) ≡ Ok tt }
    ensures { BuiltBytes (alphabet_of (take k room.old)) (lent row.now table.old classes.old) (find_answer result) (lent row.now table.new classes.new) }
{
    rows::check_symbols(&room[..k], row).map_err(Refusal::Row)?;
    tables::fill_ends(&room[..k], row, table);
    classes::fill_over(row, table, classes, room);
    Ok(wire::count(row))
}

// The alphabet is read to a room of N places, which serves it and then the heads of the classes. Not inlined, so that a call that
// takes a small room does not pay for a large one.
#[inline(never)]
fn build_in<const N: usize>(
    arities: &[u8],
    row: &[u8],
    table: &mut [u8],
    classes: &mut [u8],
) -> Result<usize, Refusal>
    requires { (min alphabet_most (length (numbers arities.now)) ≤ N) × (512 < N) × (N ≤ 16384) }
    ensures { BuiltBytes (alphabet_of (numbers arities.now)) (lent row.now table.old classes.old) (find_answer result) (lent row.now table.new classes.new) }
{
    let mut room = [0u16; N];
    let places = Lent {
        row,
        table,
        classes,
    }
    .room();
    crate::alphabet::read_sizes(arities, &mut room, wire::count(row), places)?;
    build_under(wire::count(arities), row, table, classes, &mut room)
}

// Build: the bytes of the row's table at the front of `table` and of its classes at the front of `classes`, later bytes stay; or
// the first refusal, which writes nothing.
pub fn build(arities: &[u8], row: &[u8], table: &mut [u8], classes: &mut [u8]) -> Answer
    ensures { BuiltBytes (alphabet_of (numbers arities.now)) (lent row.now table.old classes.old) result (lent row.now table.new classes.new) }
{
    // Stays a choice among sizes: a const argument can't be computed, and the memory is fixed.
    if wire::count(row) <= classes::SHORT && wire::count(arities) <= classes::FEW {
        return Answer::from(build_in::<{ classes::FEW }>(arities, row, table, classes));
    }
    Answer::from(build_in::<{ classes::MANY }>(arities, row, table, classes))
}
