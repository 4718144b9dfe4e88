// Sparrowhem's public calls. None of them asks anything of its caller: faulty input is refused with a number and a place.
#![tactic(auto)]

mod edit;
mod matcher;
mod parts;
mod search;
mod table;

pub use bars::{read_bars, write_bars};
pub use catalogue::Entry;
pub use catalogue_read::{Opened, catalogue_alphabet, catalogue_row, read_catalogue};
pub use catalogue_write::write_catalogue;
pub use edit::replace;
pub use edits::Buffers;
pub use matcher::plain_match;
pub use parts::{Newest, newer, newer_answer, subtree, subtree_answer};
pub use refusal_numbers::{number_of, place_of, programme_of};
pub use rows::{Programme, Refusal};
pub use search::{find, sheet, variables};
pub use table::build;
