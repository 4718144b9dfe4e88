// The writer, whose rows are lent as bytes: they are checked where they stand, and copied into the file.
ghost use Rattle.std.specs.Prelude.{◌≡◌, ℕ, ◌≤◌, ◌<◌, length, Err};
ghost use Rattle.rows.specs.Refusals.{◌then◌};
ghost use Rattle.rows.specs.declared.Arities.TheVariants.{Count};
ghost use Rattle.rows.specs.declared.Refusal.TheVariants.{Arities as OfAlphabet};
ghost use Rattle.wire.specs.Wire.{numbers as numbers_of};
ghost use Rattle.catalogue.specs.Refusals.{few};
ghost use Rattle.catalogue_write.specs.Answers.{filed, Writes};
ghost use Rattle.c_catalogue.specs.Calls.{FileWritten};

use crate::CatalogueAnswer;
use rows::{Arities, Refusal};

// Writes the file under an alphabet of at most N symbols. Not inlined, so that a short alphabet does not pay for a large room.
#[inline(never)]
fn write_in<const N: usize>(
    arities: &[u8],
    numbers: &[u32],
    lengths: &[u32],
    rows: &[u8],
    file: &mut [u8],
) -> Result<usize, Refusal>
    requires room { length (numbers_of arities.now) ≤ N }
    requires small { N < 65536 }
    ensures { Writes (numbers_of arities.now) numbers.now lengths.now (numbers_of rows.now) file.old result file.new }
{
    let mut room = [0u16; N];
    let n = wire::count(arities);
    wire::decode(arities, n, &mut room);
    catalogue_write::write_catalogue(&room[..n], numbers, lengths, rows, file)
}

// Refusals 88 and 1, of so many programmes under an alphabet of n symbols, which are too many.
fn refuse_alphabet(programmes: usize, n: usize) -> Result<usize, Refusal>
    ensures { (size : ℕ) → result ≡ filed (few programmes then Err (OfAlphabet (Count n))) size }
{
    catalogue_write::check_few(programmes)?;
    Err(Refusal::Arities(Arities::Count(n)))
}

// Writes the file under whatever alphabet; one that is too long is not read.
fn write_file(
    arities: &[u8],
    numbers: &[u32],
    lengths: &[u32],
    rows: &[u8],
    file: &mut [u8],
) -> Result<usize, Refusal>
    ensures { Writes (numbers_of arities.now) numbers.now lengths.now (numbers_of rows.now) file.old result file.new }
{
    let n = wire::count(arities);
    if rows::ALPHABET_MOST < n {
        return refuse_alphabet(numbers.len(), n);
    }
    // Stays a choice among sizes: a const argument can't be computed, and the memory is fixed.
    if n <= wire::SMALL {
        return write_in::<{ wire::SMALL }>(arities, numbers, lengths, rows, file);
    }
    write_in::<{ rows::ALPHABET_MOST }>(arities, numbers, lengths, rows, file)
}

// Writes the file of a catalogue to the front of `file`, later bytes stay; or answers the first refusal, which writes nothing.
pub fn write(
    arities: &[u8],
    numbers: &[u32],
    lengths: &[u32],
    rows: &[u8],
    file: &mut [u8],
) -> CatalogueAnswer
    ensures { FileWritten (numbers_of arities.now) numbers.now lengths.now (numbers_of rows.now) file.old result file.new }
{
    CatalogueAnswer::from(write_file(arities, numbers, lengths, rows, file))
}
