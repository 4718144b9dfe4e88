// Find and replace on lent bytes, by copies of their numbers in rooms that are made for the row's size.
#![tactic(auto)]

mod copies;
mod edit;
mod search;

pub use copies::{Copies, read_given};
pub use edit::replace;
pub use search::find;
