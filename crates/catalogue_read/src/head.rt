// The head of a file.
ghost use Rattle.std.specs.Prelude.{◌≡◌, ◌≤◌, ◌<◌, length};
ghost use Rattle.catalogue.specs.Reading.{programmes_in, symbols_in, first_row_in};
ghost use Rattle.catalogue.specs.Refusals.{head_fits};

use rows::{CatalogueFault, Refusal};

// How many programmes the head says.
#[tactic(auto, unfolding(catalogue::specs::Reading::programmes_in))]
pub fn programmes_in(file: &[u8]) -> usize
    requires { 4 ≤ length file.now }
    ensures { (result ≡ programmes_in file.now) × (result < 65536) }
{
    usize::from(wire::number_at(file, 0))
}

// How many symbols the head says.
#[tactic(auto, unfolding(catalogue::specs::Reading::symbols_in))]
pub fn symbols_in(file: &[u8]) -> usize
    requires { 4 ≤ length file.now }
    ensures { (result ≡ symbols_in file.now) × (result < 65536) }
{
    usize::from(wire::number_at(file, 1))
}

// The byte where the first row starts.
#[tactic(auto, unfolding(catalogue::specs::Reading::first_row_in, catalogue::specs::Catalogue::first_row))]
pub fn first_row_in(file: &[u8]) -> usize
    requires { 4 ≤ length file.now }
    ensures { result ≡ first_row_in file.now }
{
    4 + 12 * programmes_in(file) + symbols_in(file)
}

// Refusals 66, 65 and 88.
pub fn check_head(file: &[u8]) -> Result<(), Refusal>
    ensures { result ≡ head_fits file.now }
{
    let size = file.len();
    if rows::FILE_MOST < size {
        return Err(Refusal::Catalogue(CatalogueFault::Long(size)));
    }
    if size < 4 {
        return Err(Refusal::Catalogue(CatalogueFault::Short(size)));
    }
    if size < first_row_in(file) {
        return Err(Refusal::Catalogue(CatalogueFault::Short(size)));
    }
    let n = programmes_in(file);
    if rows::PROGRAMMES_MOST < n {
        return Err(Refusal::Catalogue(CatalogueFault::Programmes(n)));
    }
    Ok(())
}
