// What is refused in numbers, lengths, and rows laid end to end.
ghost use Rattle.std.specs.Prelude.{◌≡◌, ◌≤◌, length};
ghost use Rattle.rows.specs.Limits.{alphabet_most, programmes_most, file_most};
ghost use Rattle.rows.specs.Refusals.{◌then◌};
ghost use Rattle.catalogue.specs.Refusals.{few, file_size, rises, rows_fit, numbered, total, lengths_fit, size_of, given_fits, write_check};
ghost use Rattle.catalogue_write.specs.Laid.{Given};

use rows::{CatalogueFault, Piece, Refusal};

// The programmes that are given: their numbers, the lengths of their rows, and the rows laid end to end, as numbers or their bytes.
#[derive(Clone, Copy)]
pub struct Programmes<'a, E> {
    pub numbers: &'a [u32],
    pub lengths: &'a [u32],
    pub rows: &'a [E],
}

// Refusal 88: at most 256 programmes.
#[tactic(auto, unfolding(catalogue::specs::Refusals::few))]
pub fn check_few(n: usize) -> Result<(), Refusal>
    ensures { result ≡ few n }
{
    if rows::PROGRAMMES_MOST < n {
        return Err(Refusal::Catalogue(CatalogueFault::Programmes(n)));
    }
    Ok(())
}

// Refusal 67: the numbers rise strictly, so each is at least one more than the one before it.
fn check_rising(numbers: &[u32]) -> Result<(), Refusal>
    ensures { result ≡ rises 1 0 0 numbers.now }
{
    let mut least = 0;
    for (k, &number) in numbers.iter().enumerate() {
        // Stays `as`, here and below: a usize has no From of a u32.
        let number = number as usize;
        if number < least {
            return Err(Refusal::Catalogue(CatalogueFault::NotRising(k)));
        }
        least = number + 1;
    }
    Ok(())
}

// The sum of the lengths, which are few enough that it fits.
fn add_up(lengths: &[u32]) -> usize
    requires { length lengths.now ≤ programmes_most }
    ensures { (result ≡ total lengths.now) × (result ≤ 1099511627776) }
{
    let mut sum = 0;
    for &length in lengths {
        sum += length as usize;
    }
    sum
}

// Refusal 68: as many lengths as numbers, which add up to the m symbols of the rows.
#[tactic(auto, unfolding(catalogue::specs::Refusals::lengths_fit))]
fn check_lengths(numbers: &[u32], lengths: &[u32], m: usize) -> Result<(), Refusal>
    requires { length numbers.now ≤ programmes_most }
    ensures { result ≡ lengths_fit numbers.now lengths.now m }
{
    if lengths.len() == numbers.len() {
        if add_up(lengths) == m {
            return Ok(());
        }
    }
    Err(Refusal::Catalogue(CatalogueFault::Misplaced(m)))
}

// The size of the file, for rows of m symbols.
#[tactic(auto, unfolding(catalogue::specs::Refusals::size_of, catalogue::specs::Catalogue::first_row))]
pub fn size_of(arities: &[u16], numbers: &[u32], m: usize) -> usize
    requires { (length arities.now ≤ alphabet_most) × (length numbers.now ≤ programmes_most) × (m ≤ 1099511627776) }
    ensures { result ≡ size_of arities.now numbers.now m }
{
    4 + 12 * numbers.len() + arities.len() + 2 * m
}

// Refusals 68 and 66.
#[tactic(auto, unfolding(catalogue::specs::Refusals::file_size))]
fn check_sizes(arities: &[u16], numbers: &[u32], lengths: &[u32], m: usize) -> Result<(), Refusal>
    requires { (length arities.now ≤ alphabet_most) × (length numbers.now ≤ programmes_most) }
    ensures { result ≡ (lengths_fit numbers.now lengths.now m then file_size (size_of arities.now numbers.now m)) }
{
    check_lengths(numbers, lengths, m)?;
    let size = size_of(arities, numbers, m);
    if rows::FILE_MOST < size {
        return Err(Refusal::Catalogue(CatalogueFault::Long(size)));
    }
    Ok(())
}

// Refusals 88, 1 to 3, 67, 68 and 66.
#[tactic(auto, unfolding(catalogue::specs::Refusals::given_fits))]
fn check_given<E: Piece>(arities: &[u16], given: Programmes<E>) -> Result<(), Refusal>
    ensures { result ≡ given_fits arities.now given.entry.numbers.now given.entry.lengths.now (length (E.numbers given.entry.rows.now)) }
{
    check_few(given.numbers.len())?;
    rows::check_alphabet(arities)?;
    check_rising(given.numbers)?;
    check_sizes(arities, given.numbers, given.lengths, E::count(given.rows))
}

// Refusals 4 to 9: each row is one tree's.
fn check_rows<E: Piece>(arities: &[u16], given: Programmes<E>) -> Result<(), Refusal>
    requires given { Given given.numbers.now given.lengths.now (length (E.numbers given.rows.now)) }
    requires small { length (E.numbers given.rows.now) ≤ file_most }
    ensures { result ≡ rows_fit arities.now (numbered given.entry.numbers.now given.entry.lengths.now (E.numbers given.entry.rows.now)) }
{
    let mut next = 0;
    for (k, &number) in given.numbers.iter().enumerate() {
        let end = next + given.lengths[k] as usize;
        let read = wire::check_part(arities, given.rows, next, end);
        read.map_err(|f| Refusal::Programme(number, f))?;
        next = end;
    }
    Ok(())
}

// All refusals of the writer, for a file of so many places.
#[tactic(auto, unfolding(catalogue::specs::Refusals::write_check))]
pub fn check_write<E: Piece>(
    arities: &[u16],
    given: Programmes<E>,
    places: usize,
) -> Result<(), Refusal>
    ensures { result ≡ write_check arities.now given.entry.numbers.now given.entry.lengths.now (E.numbers given.entry.rows.now) places }
{
    check_given(arities, given)?;
    check_rows(arities, given)?;
    rows::check_room(
        size_of(arities, given.numbers, E::count(given.rows)),
        places,
    )
}
