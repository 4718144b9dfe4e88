// The reader of a catalogue file: the checks on its bytes, the records of its contents, and its rows and its alphabet as numbers.
#![tactic(auto)]

ghost use Rattle.std.specs.Prelude.{◌≡◌};
ghost use Rattle.catalogue.specs.Refusals.{read_check};
ghost use Rattle.catalogue_read.specs.Answers.{opened, Reads};

use catalogue::Entry;
use rows::Refusal;

mod contents;
mod file;
mod head;
mod numbers;
mod records;

pub use numbers::{catalogue_alphabet, catalogue_row};

// What an opened file holds: how many programmes and symbols.
#[derive(Clone, Copy, Debug, PartialEq, Eq)]
pub struct Opened {
    pub programmes: usize,
    pub symbols: usize,
}

// The answer for a file and so many records.
#[tactic(auto, unfolding(catalogue::specs::Refusals::read_check))]
fn answer(file: &[u8], room: usize) -> Result<Opened, Refusal>
    ensures { result ≡ opened (read_check file.now room) file.now }
{
    file::check_file(file)?;
    let programmes = head::programmes_in(file);
    rows::check_room(programmes, room)?;
    Ok(Opened {
        programmes,
        symbols: head::symbols_in(file),
    })
}

// Reads a file: the entries of its contents at the front of `entries`, later records stay; or the first refusal, which writes
// nothing.
pub fn read_catalogue(file: &[u8], entries: &mut [Entry]) -> Result<Opened, Refusal>
    ensures { Reads file.now entries.old result entries.new }
{
    let opened = answer(file, entries.len())?;
    records::store(entries, file, opened.programmes);
    Ok(opened)
}
