// The rows of a file and its alphabet, as the numbers that the other calls take.
ghost use Rattle.catalogue.specs.Reading.{arities_in, row_in};
ghost use Rattle.catalogue.specs.Refusals.{alphabet_check, row_check};
ghost use Rattle.catalogue_read.specs.Answers.{Takes};
ghost use Rattle.std.specs.Prelude.{length};

use catalogue::Entry;
use rows::{CatalogueFault, Refusal};

// The arities of a file, at the front of `arities`; later places stay. A refusal writes nothing.
pub fn catalogue_alphabet(file: &[u8], arities: &mut [u16]) -> Result<usize, Refusal>
    ensures { Takes (alphabet_check file.now (length arities.old)) (arities_in file.now) arities.old result arities.new }
{
    crate::head::check_head(file)?;
    let n = crate::head::symbols_in(file);
    rows::check_room(n, arities.len())?;
    let begin = 4 + 12 * crate::head::programmes_in(file);
    wire::widen(&file[begin..begin + n], arities);
    Ok(n)
}

// The row that an entry tells of, at the front of `row`; later places stay. A refusal writes nothing.
pub fn catalogue_row(file: &[u8], entry: Entry, row: &mut [u16]) -> Result<usize, Refusal>
    ensures { Takes (row_check file.now entry (length row.old)) (row_in file.now entry) row.old result row.new }
{
    // Stays `as`, here and below: a usize has no From of a u32.
    let start = entry.start as usize;
    let n = entry.length as usize;
    let end = start + 2 * n;
    if file.len() < end {
        return Err(Refusal::Catalogue(CatalogueFault::Misplaced(start)));
    }
    rows::check_room(n, row.len())?;
    wire::decode(&file[start..end], n, row);
    Ok(n)
}
