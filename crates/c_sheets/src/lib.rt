// A sheet of patterns on lent bytes. Row, table and classes are copied, in rooms that are made for the row's size; the patterns, which can be
// many, one after the other.
#![tactic(auto)]

ghost use Rattle.std.specs.Prelude.{◌≡◌, ◌+◌, ◌*◌, ◌≤◌, ◌<◌, min, length, Ok};
ghost use Rattle.rows.specs.Limits.{row_most, pattern_most, sheet_most, result_places};
ghost use Rattle.rows.specs.Programme.{alphabet_of, programme_of};
ghost use Rattle.rows.specs.Buffers.{written};
ghost use Rattle.rows.specs.Refusals.{given};
ghost use Rattle.checks.specs.Checks.{results_check};
ghost use Rattle.sheets.specs.Sheets.{Answered, Answerable};
ghost use Rattle.wire.specs.Wire.{numbers, bytes_of};
ghost use Rattle.c_lent.specs.Answer.{find_answer};
ghost use Rattle.c_lent.specs.Lent.{lent_of, numbers_of};
ghost use Rattle.c_lent.specs.Calls.{SheetBytes};
ghost use Rattle.c_sheets.specs.Sheets.{PutBehind, AnsweredBytes};

use c_copied::{Copies, read_given};
use c_lent::{Answer, Lent};
use rows::{Fault, Programme, Refusal};

// Pattern i, in lent bytes: its positions at the front of `room`, which has room for any, its result at its place in `results`. Answers
// how many positions it has. It is copied to `q`, if it is not too long.
fn answer_pattern(
    arities: &[u16],
    programme: Programme,
    pattern: &[u8],
    q: &mut [u16],
    room: &mut [u16],
    i: usize,
    results: &mut [u16],
) -> usize
    requires { (given (alphabet_of arities.now) (programme_of programme) (length programme.row.now) ≡ Ok tt) × (length (numbers pattern.now) < 65536) × (result_places * i + result_places ≤ length results.old) × (pattern_most ≤ length q.old) × (length programme.row.now ≤ length room.old) }
    ensures { Answered (alphabet_of arities.now) programme.entry.row.now (numbers pattern.now) room.old i results.old result room.new results.new }
{
    let m = wire::count(pattern);
    if rows::PATTERN_MOST < m {
        sheets::write_refusal(Refusal::Pattern(Fault::Long(m)), i, results);
        return 0;
    }
    wire::decode(pattern, m, q);
    match patterns::check_pattern(arities, &q[..m]) {
        Err(r) => {
            sheets::write_refusal(r, i, results);
            0
        }
        Ok(()) => {
            let count = searches::write_matches(programme, &q[..m], room);
            sheets::write_result(0, 0, count, i, results);
            count
        }
    }
}

// The bytes of the numbers behind the first `before` ones of `out`, if they have room.
fn put_behind(list: &[u16], before: usize, out: &mut [u8])
    requires { (before ≤ row_most * sheet_most) × (length list.now ≤ row_most) }
    ensures { PutBehind list.now before out.old out.new }
{
    if before + list.len() <= wire::count(out) {
        wire::encode_behind(list, before, out);
    }
}

// All patterns: the bytes of their positions at the front of `out` if it has room for them, their results at the front of `results`.
// Answers how many positions they have. `room` is for those of one pattern.
fn answer_patterns(
    arities: &[u16],
    programme: Programme,
    patterns: &[u8],
    lengths: &[u16],
    room: &mut [u16],
    out: &mut [u8],
    results: &mut [u16],
) -> usize
    requires { Answerable (alphabet_of arities.now) (programme_of programme) (numbers patterns.now) lengths.now results.old × (length programme.row.now ≤ length room.old) }
    ensures { AnsweredBytes (alphabet_of arities.now) programme.entry.row.now (numbers patterns.now) lengths.now (length lengths.now) out.old results.old result out.new results.new }
{
    let mut q = [0u16; rows::PATTERN_MOST];
    let mut begin = 0;
    let mut count = 0;
    for (i, &length) in lengths.iter().enumerate() {
        let end = begin + usize::from(length);
        let pattern = &patterns[2 * begin..2 * end];
        let more = answer_pattern(arities, programme, pattern, &mut q, room, i, results);
        put_behind(&room[..more], count, out);
        count += more;
        begin = end;
    }
    count
}

// The bytes of positions and results at the fronts of their outputs, if the first has room; else the refusal. The answer is how many
// positions there are. Their bytes are gathered in `gathered`. Only where that is too short are the patterns searched a second time.
fn answer_sheet(
    arities: &[u16],
    programme: Programme,
    patterns: &[u8],
    lengths: &[u16],
    positions: &mut [u8],
    results: &mut [u8],
    room: &mut [u16],
    gathered: &mut [u8],
) -> Result<usize, Refusal>
    requires { (results_check (alphabet_of arities.now) (programme_of programme) (numbers patterns.now) lengths.now (length (numbers results.old)) ≡ Ok tt) × (length programme.row.now ≤ length room.old) }
    ensures { SheetBytes (alphabet_of arities.now) (programme_of programme.entry) (numbers patterns.now) lengths.now positions.old results.old (find_answer result) positions.new results.new }
{
    let n = rows::RESULT_PLACES * lengths.len();
    let mut kept = [0u16; rows::RESULT_PLACES * rows::SHEET_MOST];
    let count = answer_patterns(
        arities, programme, patterns, lengths, room, gathered, &mut kept,
    );
    rows::check_room(count, wire::count(positions))?;
    if wire::count(gathered) < count {
        answer_patterns(
            arities, programme, patterns, lengths, room, positions, &mut kept,
        );
        wire::encode(&kept[..n], results);
        return Ok(count);
    }
    buffers::copy_into(positions, &gathered[..2 * count]);
    wire::encode(&kept[..n], results);
    Ok(count)
}

// The lengths are copied and checked, once row, table and classes are found right.
fn sheet_given(
    arities: &[u16],
    programme: Programme,
    patterns: &[u8],
    lengths: &[u8],
    positions: &mut [u8],
    results: &mut [u8],
    room: &mut [u16],
    gathered: &mut [u8],
) -> Result<usize, Refusal>
    requires { (given (alphabet_of arities.now) (programme_of programme) (length programme.row.now) ≡ Ok tt) × (length programme.row.now ≤ length room.old) }
    ensures { SheetBytes (alphabet_of arities.now) (programme_of programme.entry) (numbers patterns.now) (numbers lengths.now) positions.old results.old (find_answer result) positions.new results.new }
{
    let k = wire::count(lengths);
    if rows::SHEET_MOST < k {
        return Err(Refusal::SheetSize(k));
    }
    let mut l = [0u16; rows::SHEET_MOST];
    wire::decode(lengths, k, &mut l);
    checks::check_results(&l[..k], wire::count(patterns), wire::count(results))?;
    answer_sheet(
        arities,
        programme,
        patterns,
        &l[..k],
        positions,
        results,
        room,
        gathered,
    )
}

// Alphabet, row, table and classes are copied and checked, the row, its table and its classes in rooms of N places. The positions are
// gathered in G bytes. It stays a function of its own, so that a call on a short row has no room for a longer one on its stack.
#[inline(never)]
fn sheet_in<const N: usize, const G: usize>(
    arities: &[u8],
    lent: Lent,
    patterns: &[u8],
    lengths: &[u8],
    positions: &mut [u8],
    results: &mut [u8],
) -> Result<usize, Refusal>
    requires { (N ≤ row_most) × (min row_most (length (numbers lent.row.now)) ≤ N) × (G ≤ 65536) }
    ensures { SheetBytes (alphabet_of (numbers arities.now)) (numbers_of (lent_of lent.entry)) (numbers patterns.now) (numbers lengths.now) positions.old results.old (find_answer result) positions.new results.new }
{
    let mut a = [0u16; rows::ALPHABET_MOST];
    let mut copies = Copies::<N>::new();
    let mut room = [0u16; N];
    let mut gathered = [0u8; G];
    read_given(arities, lent, &mut a, &mut copies, &mut room)?;
    sheet_given(
        &a[..wire::count(arities)],
        copies.programme(wire::count(lent.row)),
        patterns,
        lengths,
        positions,
        results,
        &mut room,
        &mut gathered,
    )
}

// Rooms for the bytes of gathered positions: beside a short row, beside one of fair length, and beside any.
const FEWEST_GATHERED: usize = 2 * tables::FAIR;

const FEW_GATHERED: usize = 2 * tables::MIDDLE;

const GATHERED: usize = 4 * rows::ROW_MOST;

// Sheet: the bytes of the positions of one pattern after the other at the front of `positions`, those of three numbers for each pattern
// at the front of `results`, later bytes stay; or the first refusal, which writes nothing. A row over the limit is refused in the largest
// rooms.
pub fn sheet(
    arities: &[u8],
    lent: Lent,
    patterns: &[u8],
    lengths: &[u8],
    positions: &mut [u8],
    results: &mut [u8],
) -> Answer
    ensures { SheetBytes (alphabet_of (numbers arities.now)) (numbers_of (lent_of lent.entry)) (numbers patterns.now) (numbers lengths.now) positions.old results.old result positions.new results.new }
{
    let n = wire::count(lent.row);
    // Stays a choice among sizes: a const argument can't be computed, and the memory is fixed.
    if n <= tables::SHORT {
        return Answer::from(sheet_in::<{ tables::SHORT }, { FEWEST_GATHERED }>(
            arities, lent, patterns, lengths, positions, results,
        ));
    }
    if n <= tables::FAIR {
        return Answer::from(sheet_in::<{ tables::FAIR }, { FEW_GATHERED }>(
            arities, lent, patterns, lengths, positions, results,
        ));
    }
    Answer::from(sheet_in::<{ rows::ROW_MOST }, { GATHERED }>(
        arities, lent, patterns, lengths, positions, results,
    ))
}
