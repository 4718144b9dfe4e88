// Find on copies of the lent numbers.
ghost use Rattle.std.specs.Prelude.{◌≡◌, ◌≤◌, min, length, Ok};
ghost use Rattle.rows.specs.Limits.{alphabet_most, row_most};
ghost use Rattle.rows.specs.Programme.{Alphabet, alphabet_of, programme_of};
ghost use Rattle.rows.specs.Refusals.{given};
ghost use Rattle.patterns.specs.Searchable.{Searchable};
ghost use Rattle.checks.specs.Checks.{search_check};
ghost use Rattle.wire.specs.Wire.{numbers};
ghost use Rattle.c_lent.specs.Answer.{find_answer};
ghost use Rattle.c_lent.specs.Lent.{lent_of, numbers_of};
ghost use Rattle.c_lent.specs.Calls.{FoundBytes};

use crate::copies::{Copies, read_given};
use c_lent::{Answer, Lent};
use rows::{Fault, Programme, Refusal};

// The matches are gathered in `room`, and their bytes written to `out` if it has room for them. The answer is their number.
fn write_found(
    programme: Programme,
    pattern: &[u16],
    room: &mut [u16],
    out: &mut [u8],
) -> Result<usize, Refusal>
    requires { Searchable (programme_of programme) pattern.now × (length programme.row.now ≤ length room.old) }
    ensures { (a : Alphabet) → search_check a (programme_of programme.entry) pattern.now ≡ Ok tt → FoundBytes a (programme_of programme.entry) pattern.now out.old (find_answer result) out.new }
{
    let count = searches::write_matches(programme, pattern, room);
    rows::check_room(count, wire::count(out))?;
    wire::encode(&room[..count], out);
    Ok(count)
}

// The pattern is copied and checked, once row, table and classes are found right.
fn find_pattern(
    arities: &[u16],
    programme: Programme,
    pattern: &[u8],
    room: &mut [u16],
    out: &mut [u8],
) -> Result<usize, Refusal>
    requires { (given (alphabet_of arities.now) (programme_of programme) (length programme.row.now) ≡ Ok tt) × (length programme.row.now ≤ length room.old) }
    ensures { FoundBytes (alphabet_of arities.now) (programme_of programme.entry) (numbers pattern.now) out.old (find_answer result) out.new }
{
    let m = wire::count(pattern);
    if rows::PATTERN_MOST < m {
        return Err(Refusal::Pattern(Fault::Long(m)));
    }
    let mut q = [0u16; rows::PATTERN_MOST];
    wire::decode(pattern, m, &mut q);
    patterns::check_pattern(arities, &q[..m])?;
    write_found(programme, &q[..m], room, out)
}

// The alphabet is read to `a`, a room that is lent for it. The row, its table and its classes are copied to rooms of N places and checked.
// It stays a function of its own, so that a call on a short row has no room for a longer one on its stack.
#[inline(never)]
fn find_in<const N: usize>(
    arities: &[u8],
    lent: Lent,
    pattern: &[u8],
    out: &mut [u8],
    a: &mut [u16],
) -> Result<usize, Refusal>
    requires arities_in_bounds { min alphabet_most (length (numbers arities.now)) ≤ length a.old }
    requires row_in_bounds { (N ≤ row_most) × (min row_most (length (numbers lent.row.now)) ≤ N) }
    ensures { FoundBytes (alphabet_of (numbers arities.now)) (numbers_of (lent_of lent.entry)) (numbers pattern.now) out.old (find_answer result) out.new }
{
    let mut copies = Copies::<N>::new();
    let mut room = [0u16; N];
    read_given(arities, lent, a, &mut copies, &mut room)?;
    let programme = copies.programme(wire::count(lent.row));
    find_pattern(
        &a[..wire::count(arities)],
        programme,
        pattern,
        &mut room,
        out,
    )
}

// Rooms for a short row, for one of fair length, or for any. A row over the limit is refused in the largest.
fn find_sized(
    arities: &[u8],
    lent: Lent,
    pattern: &[u8],
    out: &mut [u8],
    a: &mut [u16],
) -> Result<usize, Refusal>
    requires { min alphabet_most (length (numbers arities.now)) ≤ length a.old }
    ensures { FoundBytes (alphabet_of (numbers arities.now)) (numbers_of (lent_of lent.entry)) (numbers pattern.now) out.old (find_answer result) out.new }
{
    let n = wire::count(lent.row);
    // Stays a choice among sizes: a const argument can't be computed, and the memory is fixed.
    if n <= tables::SHORT {
        return find_in::<{ tables::SHORT }>(arities, lent, pattern, out, a);
    }
    if n <= tables::FAIR {
        return find_in::<{ tables::FAIR }>(arities, lent, pattern, out, a);
    }
    find_in::<{ rows::ROW_MOST }>(arities, lent, pattern, out, a)
}

// Room for an alphabet of at most N symbols.
fn find_under<const N: usize>(
    arities: &[u8],
    lent: Lent,
    pattern: &[u8],
    out: &mut [u8],
) -> Result<usize, Refusal>
    requires { (N ≤ alphabet_most) × (min alphabet_most (length (numbers arities.now)) ≤ N) }
    ensures { FoundBytes (alphabet_of (numbers arities.now)) (numbers_of (lent_of lent.entry)) (numbers pattern.now) out.old (find_answer result) out.new }
{
    let mut a = [0u16; N];
    find_sized(arities, lent, pattern, out, &mut a)
}

// Find: the bytes of the matches' positions at the front of `out`, later bytes stay; or the first refusal, which writes nothing.
// Nothing is copied before its size is known to be within the limits.
pub fn find(arities: &[u8], lent: Lent, pattern: &[u8], out: &mut [u8]) -> Answer
    ensures { FoundBytes (alphabet_of (numbers arities.now)) (numbers_of (lent_of lent.entry)) (numbers pattern.now) out.old result out.new }
{
    // Stays a choice among sizes: a const argument can't be computed, and the memory is fixed.
    if wire::count(arities) <= wire::SMALL {
        return Answer::from(find_under::<{ wire::SMALL }>(arities, lent, pattern, out));
    }
    Answer::from(find_under::<{ rows::ALPHABET_MOST }>(arities, lent, pattern, out))
}
