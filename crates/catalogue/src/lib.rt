// The catalogue file: what a catalogue is, what its file is, and what is refused in either. This crate has the meaning and its laws;
// its code is the record that a caller lends for each programme of a file.
#![tactic(auto)]

// An entry of the contents: the programme's number, the byte where its row starts, its length in symbols.
#[repr(C)]
#[derive(Clone, Copy, Debug, PartialEq, Eq)]
pub struct Entry {
    pub programme: u32,
    pub start: u32,
    pub length: u32,
}
