// A sheet of patterns over a row with its table and its classes: each is answered as find would alone. Its positions stand behind those
// of the patterns before it, and its result behind theirs.
#![tactic(auto)]

ghost use Rattle.std.specs.Prelude.{◌≡◌, [], ◌∷◌, ◌+◌, ◌*◌, ◌≤◌, ◌<◌, length, Ok, Err};
ghost use Rattle.rows.specs.Limits.{result_places};
ghost use Rattle.rows.specs.Programme.{alphabet_of, programme_of};
ghost use Rattle.rows.specs.Buffers.{written};
ghost use Rattle.rows.specs.Refusals.{given};
ghost use Rattle.sheets.specs.Sheets.{Answered, AnsweredTo, Answerable, SheetListed};
ghost use Rattle.sheets.specs.Result.{result_of};
ghost use Rattle.refusal_numbers.specs.Numbers.{number, place};

use rows::{Programme, Refusal};

// The three numbers of pattern i, at their places.
pub fn write_result(refusal: usize, place: usize, count: usize, i: usize, results: &mut [u16])
    requires { (refusal < 65536) × (place < 65536) × (count < 65536) × (result_places * i + result_places ≤ length results.old) }
    ensures { results.new ≡ written results.old (result_places * i) (refusal ∷ place ∷ count ∷ []) }
{
    let at = rows::RESULT_PLACES * i;
    // Stays `as`, here and below: the number fits, as a contract says, and `try_from` would answer an error that no call can give.
    results[at] = refusal as u16;
    results[at + 1] = place as u16;
    results[at + 2] = count as u16;
}

// The result of pattern i where it is refused.
pub fn write_refusal(refusal: Refusal, i: usize, results: &mut [u16])
    requires { (number refusal < 65536) × (place refusal < 65536) × (result_places * i + result_places ≤ length results.old) }
    ensures { results.new ≡ written results.old (result_places * i) (result_of (Err refusal) 0) }
{
    let number = refusal_numbers::number_of(refusal);
    let place = refusal_numbers::place_of(refusal);
    write_result(number, place, 0, i, results);
}

// What is asked by a sheet: the alphabet, the programme that is searched, the patterns, with nothing between them, and their lengths.
#[derive(Clone, Copy)]
struct Sheet<'a> {
    arities: &'a [u16],
    programme: Programme<'a>,
    patterns: &'a [u16],
    lengths: &'a [u16],
}

impl Sheet<'_> {
    // Pattern i: its positions at the front of `out` if it has room for them, its result at its place in `results`. Answers how many
    // positions it has.
    fn answer_pattern(
        &self,
        pattern: &[u16],
        out: &mut [u16],
        i: usize,
        results: &mut [u16],
    ) -> usize
        requires { (given (alphabet_of self.now.arities.now) (programme_of self.now.programme) (length self.now.programme.row.now) ≡ Ok tt) × (length pattern.now < 65536) × (result_places * i + result_places ≤ length results.old) }
        ensures { Answered (alphabet_of self.now.arities.now) self.now.programme.row.now pattern.now out.old i results.old result out.new results.new }
    {
        if let Err(refusal) = patterns::check_pattern(self.arities, pattern) {
            write_refusal(refusal, i, results);
            return 0;
        }
        // The number of the positions, or how many places they need: both count them all.
        let (Ok(count) | Err(count)) = searches::list_matches(self.programme, pattern, out);
        write_result(0, 0, count, i, results);
        count
    }

    // All patterns: their positions at the front of `out` if it has room for them, their results at the front of `results`. Answers how
    // many positions they have.
    fn answer_patterns(&self, out: &mut [u16], results: &mut [u16]) -> usize
        requires { Answerable (alphabet_of self.now.arities.now) (programme_of self.now.programme) self.now.patterns.now self.now.lengths.now results.old }
        ensures { AnsweredTo (alphabet_of self.now.arities.now) self.now.programme.row.now self.now.patterns.now self.now.lengths.now (length self.now.lengths.now) out.old results.old result out.new results.new }
    {
        let mut begin = 0;
        let mut count = 0;
        for (i, &length) in self.lengths.iter().enumerate() {
            let end = begin + usize::from(length);
            let at = count.min(out.len());
            count += self.answer_pattern(&self.patterns[begin..end], &mut out[at..], i, results);
            begin = end;
        }
        count
    }

    // The positions and the results at the fronts of their outputs, if the first has room, and how many positions there are; else nothing
    // is written, and `Err` says how many they are. They are gathered first, in a room of N places, which is not inlined, so that a sheet
    // that needs none does not pay for it. Only where that is too short are the patterns searched a second time.
    #[inline(never)]
    fn answer_in<const N: usize>(
        &self,
        positions: &mut [u16],
        results: &mut [u16],
    ) -> Result<usize, usize>
        requires { Answerable (alphabet_of self.now.arities.now) (programme_of self.now.programme) self.now.patterns.now self.now.lengths.now results.old × (N < 65536) }
        ensures { SheetListed (alphabet_of self.now.arities.now) self.now.programme.row.now self.now.patterns.now self.now.lengths.now positions.old results.old result positions.new results.new }
    {
        let mut room = [0u16; N];
        let mut kept = [0u16; rows::RESULT_PLACES * rows::SHEET_MOST];
        let count = self.answer_patterns(&mut room, &mut kept);
        if positions.len() < count {
            return Err(count);
        }
        if room.len() < count {
            return Ok(self.answer_patterns(positions, results));
        }
        buffers::copy_into(positions, &room[..count]);
        buffers::copy_into(results, &kept[..rows::RESULT_PLACES * self.lengths.len()]);
        Ok(count)
    }
}

// Room for the positions of a sheet over a long row: as many as the longest row has are gathered before room for one more pattern
// gets short.
const GATHERED: usize = 2 * rows::ROW_MOST;

// The same. Only a first output that could be too short makes it necessary to gather the positions before they are written. A
// smaller sheet takes less room: its patterns have at most as many positions as the row has for each of them.
pub fn answer_sheet(
    arities: &[u16],
    programme: Programme,
    patterns: &[u16],
    lengths: &[u16],
    positions: &mut [u16],
    results: &mut [u16],
) -> Result<usize, usize>
    requires { Answerable (alphabet_of arities.now) (programme_of programme) patterns.now lengths.now results.old }
    ensures { SheetListed (alphabet_of arities.now) programme.entry.row.now patterns.now lengths.now positions.old results.old result positions.new results.new }
{
    let sheet = Sheet {
        arities,
        programme,
        patterns,
        lengths,
    };
    let most = programme.row.len() * lengths.len();
    // Stays a choice among sizes: a const argument can't be computed, and the memory is fixed.
    if most <= positions.len() {
        Ok(sheet.answer_patterns(positions, results))
    } else if most <= tables::MIDDLE {
        sheet.answer_in::<{ tables::MIDDLE }>(positions, results)
    } else {
        sheet.answer_in::<GATHERED>(positions, results)
    }
}
