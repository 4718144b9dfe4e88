// The contents of a file: its entries, and what is refused in them.
ghost use Rattle.std.specs.Prelude.{◌≡◌, map, ◌+◌, ◌*◌, ◌≤◌, ◌<◌, length, drop, get_or, Ok};
ghost use Rattle.rows.specs.Limits.{file_most};
ghost use Rattle.rows.specs.Refusals.{◌then◌};
ghost use Rattle.wire.specs.Wire.{numbers};
ghost use Rattle.catalogue.specs.Reading.{wide, entry_at, entries_of, programme_in};
ghost use Rattle.catalogue.specs.Refusals.{rises, programme_of, placed, rows_fit};

use catalogue::Entry;
use rows::{CatalogueFault, Leaves, Refusal};

// A number of two bytes as a half of one of four.
fn half_at(file: &[u8], i: usize) -> u32
    requires { 2 * i + 1 < length file.now }
    ensures { (result ≡ get_or (numbers file.now) i 0) × (result < 65536) }
{
    u32::from(wire::number_at(file, i))
}

// The number of four bytes whose halves stand at places i and i + 1.
#[tactic(auto, unfolding(catalogue::specs::Reading::wide))]
fn wide_at(file: &[u8], i: usize) -> u32
    requires { 2 * i + 3 < length file.now }
    ensures { result ≡ wide (numbers file.now) i }
{
    half_at(file, i) + 65536 * half_at(file, i + 1)
}

// The k-th entry.
pub fn entry_at(file: &[u8], k: usize) -> Entry
    requires { 16 + 12 * k ≤ length file.now }
    ensures { result ≡ entry_at (numbers file.now) (2 + 6 * k) }
{
    Entry {
        programme: wide_at(file, 2 + 6 * k),
        start: wide_at(file, 4 + 6 * k),
        length: wide_at(file, 6 + 6 * k),
    }
}

// Refusal 67: the numbers of the n programmes rise strictly, so each is at least one more than the one before it.
// Stays beside the writer's: that one reads a list, this one the bytes of a file, and one function would take a closure, a first place and
// a step, and be longer than both.
fn check_rising(file: &[u8], n: usize) -> Result<(), Refusal>
    requires { 4 + 12 * n ≤ length file.now }
    ensures { result ≡ rises 12 4 0 (map programme_of (entries_of n (drop 2 (numbers file.now)))) }
{
    let mut least = 0;
    for k in 0..n {
        // Stays `as`, here and below: a usize has no From of a u32.
        let number = wide_at(file, 2 + 6 * k) as usize;
        if number < least {
            return Err(Refusal::Catalogue(CatalogueFault::NotRising(4 + 12 * k)));
        }
        least = number + 1;
    }
    Ok(())
}

// Refusals 68 and 69: the rows of the n programmes follow each other from byte `first` on, and the last ends the file.
fn check_places(file: &[u8], n: usize, first: usize) -> Result<(), Refusal>
    requires { (4 + 12 * n ≤ length file.now) × (first ≤ length file.now) × (length file.now ≤ file_most) }
    ensures { result ≡ placed (length file.now) 4 first (entries_of n (drop 2 (numbers file.now))) }
{
    let mut next = first;
    for k in 0..n {
        if wide_at(file, 4 + 6 * k) as usize != next {
            return Err(Refusal::Catalogue(CatalogueFault::Misplaced(4 + 12 * k)));
        }
        let end = next + 2 * (wide_at(file, 6 + 6 * k) as usize);
        if file.len() < end {
            return Err(Refusal::Catalogue(CatalogueFault::Misplaced(4 + 12 * k)));
        }
        next = end;
    }
    if next == file.len() {
        Ok(())
    } else {
        Err(Refusal::Catalogue(CatalogueFault::LeftOver(next)))
    }
}

// Refusals 67, 68 and 69.
pub fn check_contents(file: &[u8], n: usize, first: usize) -> Result<(), Refusal>
    requires { (4 + 12 * n ≤ length file.now) × (first ≤ length file.now) × (length file.now ≤ file_most) }
    ensures { result ≡ (rises 12 4 0 (map programme_of (entries_of n (drop 2 (numbers file.now)))) then placed (length file.now) 4 first (entries_of n (drop 2 (numbers file.now)))) }
{
    check_rising(file, n)?;
    check_places(file, n, first)
}

// Refusals 4 to 9: each row is one tree's. The rows are placed right, from byte `first` on.
pub fn check_rows(file: &[u8], arities: &[u16], n: usize, first: usize) -> Result<(), Refusal>
    requires n_in_bounds { (4 + 12 * n ≤ length file.now) × (first ≤ length file.now) × (length file.now ≤ file_most) }
    requires file_value { placed (length file.now) 4 first (entries_of n (drop 2 (numbers file.now))) ≡ Ok tt }
    ensures { result ≡ rows_fit arities.now (map (programme_in file.now) (entries_of n (drop 2 (numbers file.now)))) }
{
    let mut next = first;
    for k in 0..n {
        let number = wide_at(file, 2 + 6 * k);
        let end = next + 2 * (wide_at(file, 6 + 6 * k) as usize);
        rows::check_reading(arities, &file[next..end], Leaves::Symbols, rows::ROW_MOST).map_err(
            |f| Refusal::Programme(number, f),
        )?;
        next = end;
    }
    Ok(())
}
