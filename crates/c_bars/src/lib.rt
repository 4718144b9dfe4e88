// Bar notation for C: the lent numbers are copied, read or written, and the bytes of what comes of it put into the lent buffer.
#![tactic(auto)]

mod reader;
mod writer;

pub use reader::read;
pub use writer::write;

// How many numbers the bar form has of a row that is tiny, short, fair, or of middle length: twice as many as the row.
const TINY_FORM: usize = 2 * tables::TINY;

const SHORT_FORM: usize = 2 * tables::SHORT;

const FAIR_FORM: usize = 2 * tables::FAIR;

const MIDDLE_FORM: usize = 2 * tables::MIDDLE;
