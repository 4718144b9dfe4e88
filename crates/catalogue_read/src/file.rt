// All checks of a file, in their order.
ghost use Rattle.std.specs.Prelude.{◌≡◌, ◌≤◌, ◌<◌, length, Ok};
ghost use Rattle.catalogue.specs.Reading.{arities_in};
ghost use Rattle.catalogue.specs.Refusals.{head_fits, file_check};
ghost use Rattle.catalogue_read.specs.Behind.{behind_head};

use rows::{Arities, Refusal};

// Refusals 1 to 3, 67 to 69 and 4 to 9, of a file whose head is right, under its arities as numbers.
fn check_under(file: &[u8], arities: &[u16]) -> Result<(), Refusal>
    requires { (head_fits file.now ≡ Ok tt) × (arities.now ≡ arities_in file.now) }
    ensures { result ≡ behind_head file.now }
{
    rows::check_alphabet(arities)?;
    let n = crate::head::programmes_in(file);
    let first = crate::head::first_row_in(file);
    crate::contents::check_contents(file, n, first)?;
    crate::contents::check_rows(file, arities, n, first)
}

// The same, for at most N arities. Not inlined, so that a short alphabet does not pay for a large room.
#[inline(never)]
fn check_in<const N: usize>(file: &[u8], arities: &[u8]) -> Result<(), Refusal>
    requires file { (head_fits file.now ≡ Ok tt) × (arities.now ≡ arities_in file.now) }
    requires room { length arities.now ≤ N }
    requires small { N < 65536 }
    ensures { result ≡ behind_head file.now }
{
    let mut room = [0u16; N];
    wire::widen(arities, &mut room);
    check_under(file, &room[..arities.len()])
}

// The same, with the arities as the file has them: an alphabet that is too long is not read.
fn check_behind(file: &[u8], arities: &[u8]) -> Result<(), Refusal>
    requires { (head_fits file.now ≡ Ok tt) × (arities.now ≡ arities_in file.now) }
    ensures { result ≡ behind_head file.now }
{
    let n = arities.len();
    if rows::ALPHABET_MOST < n {
        return Err(Refusal::Arities(Arities::Count(n)));
    }
    // Stays a choice among sizes: a const argument can't be computed, and the memory is fixed.
    if n <= wire::SMALL {
        return check_in::<{ wire::SMALL }>(file, arities);
    }
    check_in::<{ rows::ALPHABET_MOST }>(file, arities)
}

// All refusals of a file.
#[tactic(auto, unfolding(catalogue::specs::Refusals::file_check))]
pub fn check_file(file: &[u8]) -> Result<(), Refusal>
    ensures { result ≡ file_check file.now }
{
    crate::head::check_head(file)?;
    let begin = 4 + 12 * crate::head::programmes_in(file);
    let end = begin + crate::head::symbols_in(file);
    check_behind(file, &file[begin..end])
}
