// The reader, on copies of the lent numbers.
ghost use Rattle.std.specs.Prelude.{◌*◌, ◌≤◌, ◌<◌, length};
ghost use Rattle.rows.specs.Limits.{alphabet_most};
ghost use Rattle.wire.specs.Wire.{numbers as numbers_of};
ghost use Rattle.c_bars.specs.Calls.{BarsReadBytes};
ghost use Rattle.c_bars.specs.Copies.{Read};

use c_lent::Answer;
use rows::{Arities, Fault, Kept, Refusal};

// The row that the bars spell is gathered in `symbols`, and its bytes are written to `row`. `lacks` is for the open nodes. Answers how
// many symbols the row has.
fn read_numbers(
    arities: &[u16],
    bars: &[u16],
    lacks: &mut [u8],
    symbols: &mut [u16],
    row: &mut [u8],
) -> Result<usize, Refusal>
    requires { (length bars.now ≤ length lacks.old) × (length bars.now ≤ 2 * length symbols.old) }
    ensures { Read arities.now bars.now row.old result row.new }
{
    bars::check_read_in(arities, bars, wire::count(row), lacks)?;
    let n = bars.len() / 2;
    bars::copy_symbols(bars, symbols);
    wire::encode(&symbols[..n], row);
    Ok(n)
}

// The same for at most N bars, with room for a row of M symbols. Not inlined, so that a few bars do not pay for a large room.
#[inline(never)]
fn read_in<const N: usize, const M: usize>(
    arities: &[u16],
    bars: &[u8],
    row: &mut [u8],
) -> Result<usize, Refusal>
    requires room { (length (numbers_of bars.now) ≤ N) × (N ≤ 2 * M) }
    requires small { (N < 65536) × (M < 65536) }
    ensures { Read arities.now (numbers_of bars.now) row.old result row.new }
{
    let mut numbers = [0u16; N];
    let mut lacks = [0u8; N];
    let mut symbols = [0u16; M];
    let n = wire::count(bars);
    wire::decode(bars, n, &mut numbers);
    read_numbers(arities, &numbers[..n], &mut lacks, &mut symbols, row)
}

// The same for any bars: too many are not copied.
fn read_sized(arities: &[u16], bars: &[u8], row: &mut [u8]) -> Result<usize, Refusal>
    ensures { Read arities.now (numbers_of bars.now) row.old result row.new }
{
    let n = wire::count(bars);
    if rows::BARS_MOST < n {
        rows::check_alphabet(arities)?;
        return Err(Refusal::Row(Kept::Misread(Fault::Long(n))));
    }
    // Stays a choice among sizes: a const argument can't be computed, and the memory is fixed.
    if n <= crate::TINY_FORM {
        return read_in::<{ crate::TINY_FORM }, { tables::TINY }>(arities, bars, row);
    }
    if n <= crate::SHORT_FORM {
        return read_in::<{ crate::SHORT_FORM }, { tables::SHORT }>(arities, bars, row);
    }
    if n <= crate::FAIR_FORM {
        return read_in::<{ crate::FAIR_FORM }, { tables::FAIR }>(arities, bars, row);
    }
    if n <= crate::MIDDLE_FORM {
        return read_in::<{ crate::MIDDLE_FORM }, { tables::MIDDLE }>(arities, bars, row);
    }
    read_in::<{ rows::BARS_MOST }, { rows::ROW_MOST }>(arities, bars, row)
}

// The same under an alphabet of at most N symbols, lent as bytes.
fn read_under<const N: usize>(arities: &[u8], bars: &[u8], row: &mut [u8]) -> Result<usize, Refusal>
    requires room { length (numbers_of arities.now) ≤ N }
    requires small { N < 65536 }
    ensures { Read (numbers_of arities.now) (numbers_of bars.now) row.old result row.new }
{
    let mut room = [0u16; N];
    let k = wire::count(arities);
    wire::decode(arities, k, &mut room);
    read_sized(&room[..k], bars, row)
}

// The same under any alphabet: one that is too long is not copied.
fn read_bytes(arities: &[u8], bars: &[u8], row: &mut [u8]) -> Result<usize, Refusal>
    ensures { Read (numbers_of arities.now) (numbers_of bars.now) row.old result row.new }
{
    let k = wire::count(arities);
    if rows::ALPHABET_MOST < k {
        return Err(Refusal::Arities(Arities::Count(k)));
    }
    // Stays a choice among sizes: a const argument can't be computed, and the memory is fixed.
    if k <= wire::SMALL {
        return read_under::<{ wire::SMALL }>(arities, bars, row);
    }
    read_under::<{ rows::ALPHABET_MOST }>(arities, bars, row)
}

// Reads bars: the bytes of the row that they spell at the front of `row`, later bytes stay; or the first refusal, which writes nothing.
pub fn read(arities: &[u8], bars: &[u8], row: &mut [u8]) -> Answer
    ensures { BarsReadBytes (numbers_of arities.now) (numbers_of bars.now) row.old result row.new }
{
    Answer::from(read_bytes(arities, bars, row))
}
