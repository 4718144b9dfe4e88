// The writer, on copies of the lent numbers.
// Stays of the shape of the reader: each step calls another function of bars, in rooms of other sizes.
ghost use Rattle.std.specs.Prelude.{◌*◌, ◌≤◌, ◌<◌, length};
ghost use Rattle.wire.specs.Wire.{numbers as numbers_of};
ghost use Rattle.c_bars.specs.Calls.{BarsWrittenBytes};
ghost use Rattle.c_bars.specs.Copies.{Written};

use c_lent::Answer;
use rows::{Arities, Fault, Kept, Refusal};

// The bar form of the row is laid out in `numbers`, and its bytes are written to `bars`. `lacks` is for the open nodes. Answers how many
// numbers the form has.
fn write_numbers(
    arities: &[u16],
    row: &[u16],
    numbers: &mut [u16],
    lacks: &mut [u8],
    bars: &mut [u8],
) -> Result<usize, Refusal>
    requires { (2 * length row.now ≤ length numbers.old) × (length row.now ≤ length lacks.old) }
    ensures { Written arities.now row.now bars.old result bars.new }
{
    bars::check_write(arities, row, wire::count(bars))?;
    let n = 2 * row.len();
    bars::write_form(arities, row, numbers, lacks);
    wire::encode(&numbers[..n], bars);
    Ok(n)
}

// The same for a row of at most N symbols, with room for a bar form of M numbers. Not inlined, so that a short row does not pay for a
// large room.
#[inline(never)]
fn write_in<const N: usize, const M: usize>(
    arities: &[u16],
    row: &[u8],
    bars: &mut [u8],
) -> Result<usize, Refusal>
    requires room { (length (numbers_of row.now) ≤ N) × (2 * N ≤ M) }
    requires small { (N < 65536) × (M < 65536) }
    ensures { Written arities.now (numbers_of row.now) bars.old result bars.new }
{
    let mut symbols = [0u16; N];
    let mut numbers = [0u16; M];
    let mut lacks = [0u8; N];
    let n = wire::count(row);
    wire::decode(row, n, &mut symbols);
    write_numbers(arities, &symbols[..n], &mut numbers, &mut lacks, bars)
}

// The same for any row: one that is too long is not copied.
fn write_sized(arities: &[u16], row: &[u8], bars: &mut [u8]) -> Result<usize, Refusal>
    ensures { Written arities.now (numbers_of row.now) bars.old result bars.new }
{
    let n = wire::count(row);
    if rows::ROW_MOST < n {
        rows::check_alphabet(arities)?;
        return Err(Refusal::Row(Kept::Misread(Fault::Long(n))));
    }
    // Stays a choice among sizes: a const argument can't be computed, and the memory is fixed.
    if n <= tables::TINY {
        return write_in::<{ tables::TINY }, { crate::TINY_FORM }>(arities, row, bars);
    }
    if n <= tables::SHORT {
        return write_in::<{ tables::SHORT }, { crate::SHORT_FORM }>(arities, row, bars);
    }
    if n <= tables::FAIR {
        return write_in::<{ tables::FAIR }, { crate::FAIR_FORM }>(arities, row, bars);
    }
    if n <= tables::MIDDLE {
        return write_in::<{ tables::MIDDLE }, { crate::MIDDLE_FORM }>(arities, row, bars);
    }
    write_in::<{ rows::ROW_MOST }, { rows::BARS_MOST }>(arities, row, bars)
}

// The same under an alphabet of at most N symbols, lent as bytes.
fn write_under<const N: usize>(
    arities: &[u8],
    row: &[u8],
    bars: &mut [u8],
) -> Result<usize, Refusal>
    requires room { length (numbers_of arities.now) ≤ N }
    requires small { N < 65536 }
    ensures { Written (numbers_of arities.now) (numbers_of row.now) bars.old result bars.new }
{
    let mut room = [0u16; N];
    let k = wire::count(arities);
    wire::decode(arities, k, &mut room);
    write_sized(&room[..k], row, bars)
}

// The same under any alphabet: one that is too long is not copied.
fn write_bytes(arities: &[u8], row: &[u8], bars: &mut [u8]) -> Result<usize, Refusal>
    ensures { Written (numbers_of arities.now) (numbers_of row.now) bars.old result bars.new }
{
    let k = wire::count(arities);
    if rows::ALPHABET_MOST < k {
        return Err(Refusal::Arities(Arities::Count(k)));
    }
    // Stays a choice among sizes: a const argument can't be computed, and the memory is fixed.
    if k <= wire::SMALL {
        return write_under::<{ wire::SMALL }>(arities, row, bars);
    }
    write_under::<{ rows::ALPHABET_MOST }>(arities, row, bars)
}

// Writes a row in bar notation: the bytes of its bar form at the front of `bars`, later bytes stay; or the first refusal, which writes
// nothing.
pub fn write(arities: &[u8], row: &[u8], bars: &mut [u8]) -> Answer
    ensures { BarsWrittenBytes (numbers_of arities.now) (numbers_of row.now) bars.old result bars.new }
{
    Answer::from(write_bytes(arities, row, bars))
}
