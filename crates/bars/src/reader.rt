// The reader of bar notation: what is refused in the input, and the row that it spells.
ghost use Rattle.std.specs.Prelude.{◌≡◌, List, [], ◌∷◌, ℕ, ◌*◌, ◌≤◌, ◌<◌, min, length, get_or, drop};
ghost use Rattle.rows.specs.Limits.{bars_most};
ghost use Rattle.rows.specs.Buffers.{written};
ghost use Rattle.bars.specs.Bars.{unbarred, closing, rooted, read_check};
ghost use Rattle.bars.specs.Given.{Roomy};

use rows::{BarsFault, Fault, Kept, Refusal};

// Behind the bar that closes the root nothing may stand: refusal 70.
fn check_end(bars: &[u16], i: usize) -> Result<(), Refusal>
    ensures { (A : List ℕ) → result ≡ closing A [] i (drop i bars.now) }
{
    if i < bars.len() {
        return Err(Refusal::Bars(BarsFault::NothingOpen(i)));
    }
    Ok(())
}

// Reads on behind the root, number by number. `lacks` tells of each open node how many children it lacks, the root's number first.
// Stays a list that is lent, with the depth reached beside it: there is no heap, and its size is a const parameter of the caller.
fn check_closing(arities: &[u16], bars: &[u16], lacks: &mut [u8]) -> Result<(), Refusal>
    requires { Roomy arities.now bars.now lacks.old }
    ensures { result ≡ closing arities.now (get_or lacks.old 0 0 ∷ []) 1 (drop 1 bars.now) }
{
    let mut depth: usize = 1;
    // Stays a loop over places: a refusal names the place.
    for i in 1..bars.len() {
        let s = bars[i];
        let left = lacks[depth - 1];
        if s == rows::BAR {
            if 0 < left {
                return Err(Refusal::Bars(BarsFault::Children(i)));
            }
            depth -= 1;
            if depth == 0 {
                return check_end(bars, i + 1);
            }
            continue;
        }
        if left == 0 {
            return Err(Refusal::Bars(BarsFault::Children(i)));
        }
        if arities.len() <= usize::from(s) {
            return Err(Refusal::Row(Kept::Misread(Fault::Stray(i))));
        }
        lacks[depth - 1] = left - 1;
        lacks[depth] = crate::rooms::children_of(arities, s);
        depth += 1;
    }
    Err(Refusal::Bars(BarsFault::Unclosed(bars.len())))
}

// Reads from the start, where no node is open yet.
fn check_rooted(arities: &[u16], bars: &[u16], lacks: &mut [u8]) -> Result<(), Refusal>
    requires { Roomy arities.now bars.now lacks.old }
    ensures { result ≡ rooted arities.now bars.now }
{
    let s = bars[0];
    if s == rows::BAR {
        return Err(Refusal::Bars(BarsFault::NothingOpen(0)));
    }
    if arities.len() <= usize::from(s) {
        return Err(Refusal::Row(Kept::Misread(Fault::Stray(0))));
    }
    lacks[0] = crate::rooms::children_of(arities, s);
    check_closing(arities, bars, lacks)
}

// Refusals 1 to 5, 70, 71, 7, 72 and 19, for a row of so many places. `lacks` has room for as many open nodes as there can be.
#[tactic(auto, unfolding(crate::specs::Bars::read_check))]
pub fn check_read_in(
    arities: &[u16],
    bars: &[u16],
    places: usize,
    lacks: &mut [u8],
) -> Result<(), Refusal>
    requires { min bars_most (length bars.now) ≤ length lacks.old }
    ensures { result ≡ read_check arities.now bars.now places }
{
    rows::check_alphabet(arities)?;
    rows::check_size(bars.len(), rows::BARS_MOST)
        .map_err(Kept::Misread)
        .map_err(Refusal::Row)?;
    check_rooted(arities, bars, lacks)?;
    rows::check_room(bars.len() / 2, places)
}

// The same in room for N open nodes. Not inlined, so that a short input does not pay for a large room.
#[inline(never)]
fn check_read_with<const N: usize>(
    arities: &[u16],
    bars: &[u16],
    places: usize,
) -> Result<(), Refusal>
    requires room { min bars_most (length bars.now) ≤ N }
    requires small { N < 65536 }
    ensures { result ≡ read_check arities.now bars.now places }
{
    let mut lacks = [0u8; N];
    check_read_in(arities, bars, places, &mut lacks)
}

// The same for any input. A shorter one takes less room.
pub fn check_read(arities: &[u16], bars: &[u16], places: usize) -> Result<(), Refusal>
    ensures { result ≡ read_check arities.now bars.now places }
{
    // Stays a choice among sizes: a const argument can't be computed, and the memory is fixed.
    if bars.len() <= crate::rooms::SHORT {
        return check_read_with::<{ crate::rooms::SHORT }>(arities, bars, places);
    }
    if bars.len() <= crate::rooms::MIDDLE {
        return check_read_with::<{ crate::rooms::MIDDLE }>(arities, bars, places);
    }
    check_read_with::<{ rows::BARS_MOST }>(arities, bars, places)
}

// The numbers that are no bars, half of all, are written at the front of `row`. A bar is put there as well, and the next number in its
// place: so the loop has no branch for it.
pub fn copy_symbols(bars: &[u16], row: &mut [u16])
    requires { (2 * length (unbarred bars.now) ≡ length bars.now) × (length (unbarred bars.now) ≤ length row.old) }
    ensures { row.new ≡ written row.old 0 (unbarred bars.now) }
{
    let many = bars.len() / 2;
    let mut n = 0;
    let mut i = 0;
    // Stays a loop by index: it ends with the last symbol, and one test a number is all that is needed.
    while n < many {
        let number = bars[i];
        row[n] = number;
        n += usize::from(number != rows::BAR);
        i += 1;
    }
}
