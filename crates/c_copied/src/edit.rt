// Replace on copies of the lent numbers.
ghost use Rattle.std.specs.Prelude.{◌≡◌, ◌+◌, ◌≤◌, min, length, Ok};
ghost use Rattle.rows.specs.Limits.{alphabet_most, row_most};
ghost use Rattle.rows.specs.Programme.{alphabet_of, room as places};
ghost use Rattle.rows.specs.Refusals.{given};
ghost use Rattle.classes.specs.Lasts.{few_heads};
ghost use Rattle.checks.specs.Checks.{replace_check};
ghost use Rattle.wire.specs.Wire.{numbers};
ghost use Rattle.c_copied.specs.Copies.{Copied, Rooms};
ghost use Rattle.c_lent.specs.Answer.{replace_answer};
ghost use Rattle.c_lent.specs.Lent.{lent, numbers_of};
ghost use Rattle.c_lent.specs.Calls.{ReplacedBytes};
ghost use Rattle.c_lent.specs.Reading.{sizes_check};

use crate::copies::Copies;
use c_lent::{Answer, Lent};
use edits::Buffers;
use rows::{Fault, Refusal};

// Room for a row of fair length with a small replacement in it.
const FAIR: usize = tables::FAIR + 128;

// The replacement in the copies, which begin with the row, its table and its classes. Their bytes are written back as far as one of
// the two rows goes, the old one or the new. The answer is the new length, and the change in length.
fn write_replaced<const N: usize>(
    arities: &[u16],
    row: &mut [u8],
    table: &mut [u8],
    classes: &mut [u8],
    n: usize,
    v: &[u16],
    p: usize,
    copies: &mut Copies<N>,
    room: &mut [u16],
) -> Result<(usize, i32), Refusal>
    requires n_bound { N ≤ row_most }
    requires p_value { replace_check (alphabet_of arities.now) (numbers_of (lent row.old table.old classes.old)) n v.now p ≡ Ok tt }
    requires copied { Copied (numbers_of (lent row.old table.old classes.old)) n copies.old.row copies.old.table copies.old.classes × Rooms n (length v.now) copies.old.row copies.old.table copies.old.classes v.now room.old }
    ensures { ReplacedBytes (alphabet_of arities.now) (lent row.old table.old classes.old) n v.now p (replace_answer result) (lent row.new table.new classes.new) }
{
    let mut changed = Buffers {
        row: &mut copies.row,
        table: &mut copies.table,
        classes: &mut copies.classes,
    };
    let length = edits::replace_beside(arities, &mut changed, n, v, p, room);
    let most = n.max(length);
    wire::encode(&changed.row[..most], row);
    wire::encode(&changed.table[..most], table);
    wire::encode(&changed.classes[..most], classes);
    Ok((length, edits::change(length, n)))
}

// The replacement is copied to `v` and checked, once row, table and classes are found right.
// Stays three buffers: that each of its bytes is under 256 is known of a list that is lent by itself; of three that are fields of a value
// lent as `&mut` the proof of it (`Bytes`, which `AreBytes` asks of each) did not close.
fn replace_by<const N: usize>(
    arities: &[u16],
    row: &mut [u8],
    table: &mut [u8],
    classes: &mut [u8],
    n: usize,
    replacement: &[u8],
    p: usize,
    copies: &mut Copies<N>,
    v: &mut [u16],
    room: &mut [u16],
) -> Result<(usize, i32), Refusal>
    requires n_bound { N ≤ row_most }
    requires n_value { given (alphabet_of arities.now) (numbers_of (lent row.old table.old classes.old)) n ≡ Ok tt }
    requires copied { Copied (numbers_of (lent row.old table.old classes.old)) n copies.old.row copies.old.table copies.old.classes × Rooms n (length (numbers replacement.now)) copies.old.row copies.old.table copies.old.classes v.old room.old }
    ensures { ReplacedBytes (alphabet_of arities.now) (lent row.old table.old classes.old) n (numbers replacement.now) p (replace_answer result) (lent row.new table.new classes.new) }
{
    let m = wire::count(replacement);
    if rows::ROW_MOST < m {
        return Err(Refusal::Replacement(Fault::Long(m)));
    }
    wire::decode(replacement, m, v);
    let places = Lent {
        row,
        table,
        classes,
    }
    .room();
    checks::check_replacement(arities, &copies.table, n, &v[..m], p, places)?;
    write_replaced(arities, row, table, classes, n, &v[..m], p, copies, room)
}

// Row, table and classes are copied to rooms of N places and checked. One room of R places is for what the call keeps beside them.
// It stays a function of its own, so that a call on a short row has no room for a longer one on its stack.
#[inline(never)]
fn replace_in<const N: usize, const R: usize>(
    arities: &[u16],
    row: &mut [u8],
    table: &mut [u8],
    classes: &mut [u8],
    n: usize,
    replacement: &[u8],
    p: usize,
) -> Result<(usize, i32), Refusal>
    requires n_value { sizes_check (alphabet_of arities.now) n (places (numbers_of (lent row.old table.old classes.old))) ≡ Ok tt }
    requires rooms { (R ≤ row_most) × (min row_most (n + length (numbers replacement.now)) ≤ N) × (N ≤ R) × (few_heads ≤ R) }
    ensures { ReplacedBytes (alphabet_of arities.now) (lent row.old table.old classes.old) n (numbers replacement.now) p (replace_answer result) (lent row.new table.new classes.new) }
{
    let mut copies = Copies::<N>::new();
    let mut v = [0u16; N];
    let mut room = [0u16; R];
    copies.copy(
        Lent {
            row,
            table,
            classes,
        },
        n,
    );
    checks::check_beside(arities, copies.programme(n), &mut room).map_err(Refusal::Row)?;
    replace_by(
        arities,
        row,
        table,
        classes,
        n,
        replacement,
        p,
        &mut copies,
        &mut v,
        &mut room,
    )
}

// Rooms for a row that is short with the replacement in it, for one that is of fair length then, or for any. A replacement over its limit
// is refused in any room.
fn replace_sized(
    arities: &[u16],
    row: &mut [u8],
    table: &mut [u8],
    classes: &mut [u8],
    n: usize,
    replacement: &[u8],
    p: usize,
) -> Result<(usize, i32), Refusal>
    requires { sizes_check (alphabet_of arities.now) n (places (numbers_of (lent row.old table.old classes.old))) ≡ Ok tt }
    ensures { ReplacedBytes (alphabet_of arities.now) (lent row.old table.old classes.old) n (numbers replacement.now) p (replace_answer result) (lent row.new table.new classes.new) }
{
    let most = n + wire::count(replacement).min(rows::ROW_MOST);
    // Stays a choice among sizes: a const argument can't be computed, and the memory is fixed.
    if most <= tables::SHORT {
        return replace_in::<{ tables::SHORT }, { classes::FEW }>(
            arities,
            row,
            table,
            classes,
            n,
            replacement,
            p,
        );
    }
    if most <= FAIR {
        return replace_in::<{ FAIR }, { FAIR }>(arities, row, table, classes, n, replacement, p);
    }
    replace_in::<{ rows::ROW_MOST }, { rows::ROW_MOST }>(
        arities,
        row,
        table,
        classes,
        n,
        replacement,
        p,
    )
}

// Room for an alphabet of at most N symbols.
fn replace_under<const N: usize>(
    arities: &[u8],
    row: &mut [u8],
    table: &mut [u8],
    classes: &mut [u8],
    n: usize,
    replacement: &[u8],
    p: usize,
) -> Result<(usize, i32), Refusal>
    requires { (N ≤ alphabet_most) × (min alphabet_most (length (numbers arities.now)) ≤ N) }
    ensures { ReplacedBytes (alphabet_of (numbers arities.now)) (lent row.old table.old classes.old) n (numbers replacement.now) p (replace_answer result) (lent row.new table.new classes.new) }
{
    let mut a = [0u16; N];
    let places = Lent {
        row,
        table,
        classes,
    }
    .room();
    c_lent::read_sizes(arities, &mut a, n, places)?;
    let k = wire::count(arities);
    replace_sized(&a[..k], row, table, classes, n, replacement, p)
}

// Replace: row, table and classes with the subtree at the position replaced, all in place; or the first refusal, which writes
// nothing. Nothing is copied before its size is known to be within the limits.
pub fn replace(
    arities: &[u8],
    row: &mut [u8],
    table: &mut [u8],
    classes: &mut [u8],
    n: usize,
    replacement: &[u8],
    position: usize,
) -> Answer
    ensures { ReplacedBytes (alphabet_of (numbers arities.now)) (lent row.old table.old classes.old) n (numbers replacement.now) position result (lent row.new table.new classes.new) }
{
    // Stays a choice among sizes: a const argument can't be computed, and the memory is fixed.
    if wire::count(arities) <= wire::SMALL {
        return Answer::from(replace_under::<{ wire::SMALL }>(
            arities,
            row,
            table,
            classes,
            n,
            replacement,
            position,
        ));
    }
    Answer::from(replace_under::<{ rows::ALPHABET_MOST }>(
        arities,
        row,
        table,
        classes,
        n,
        replacement,
        position,
    ))
}
