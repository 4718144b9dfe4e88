// The text of `seek`: what its input says, what is found, and the lines of the answer, page by page.
#![tactic(auto)]

mod input;
mod pages;
mod search;

pub use input::{INPUT_MOST, Lists, NUMBERS_MOST};
pub use pages::{Page, Told, line_count};
pub use search::{Found, answer_input};
