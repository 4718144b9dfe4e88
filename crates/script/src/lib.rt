// Cases as text: a line of lists is read, and answers are printed.
#![tactic(auto)]

mod input;
mod printing;
mod reading;

pub use input::read_full;
pub use printing::{count, digits, list, number, pair, text, title};
pub use reading::{
    UNSET, byte_at, copy, line_end, list_at, number_at, places, read, room, unset_places,
};
