// The calls on a catalogue's file, but for the reader's. The numbers of programmes and the lengths of their rows are taken from a
// case as numbers of 32 bits, and the bytes of a file as the low bytes of its numbers.
ghost use Rattle.std.specs.Prelude.{◌≤◌, length};

use crate::calling::{counted, refusal};
use script::{count, list, list_at, number, number_at, text};
use sparrowhem::{Entry, Refusal};
use std::io;
use std::io::Write;

// What a byte holds that no call has written: the low byte of what a place of numbers holds.
const UNSET: u8 = 190;

// The numbers of a list with 32 bits each, at the front of the room; answers how many. A full room takes no more.
fn widen(numbers: &[u16], room: &mut [u32]) -> usize
    ensures { result ≤ length room.new }
{
    for (place, &number) in room.iter_mut().zip(numbers) {
        *place = u32::from(number);
    }
    numbers.len().min(room.len())
}

// Their low bytes likewise.
fn narrow(numbers: &[u16], room: &mut [u8]) -> usize
    ensures { result ≤ length room.new }
{
    for (place, &number) in room.iter_mut().zip(numbers) {
        // Stays `as`: a remainder fits, and `try_from` would answer an error that no call can give.
        *place = (number % 256) as u8;
    }
    numbers.len().min(room.len())
}

// file ARITIES | NUMBERS | LENGTHS | ROWS | PLACES: there is room for more numbers and lengths than a catalogue may have.
pub fn file(to: &mut impl Write, case: &[u16]) -> io::Result<()> {
    let mut numbers = [0u32; 300];
    let n = widen(list_at(case, 1), &mut numbers);
    let mut lengths = [0u32; 300];
    let m = widen(list_at(case, 2), &mut lengths);
    file_of(to, case, &numbers[..n], &lengths[..m])
}

fn file_of(to: &mut impl Write, case: &[u16], numbers: &[u32], lengths: &[u32]) -> io::Result<()> {
    let mut file = [UNSET; 65536];
    let n = number_at(case, 4).min(65536);
    file_in(to, case, numbers, lengths, &mut file[..n])
}

fn file_in(
    to: &mut impl Write,
    case: &[u16],
    numbers: &[u32],
    lengths: &[u32],
    file: &mut [u8],
) -> io::Result<()> {
    filed(
        to,
        sparrowhem::write_catalogue(list_at(case, 0), numbers, lengths, list_at(case, 3), file),
    )?;
    bytes_or_end(to, file)
}

fn filed(to: &mut impl Write, answer: Result<usize, Refusal>) -> io::Result<()> {
    match answer {
        Err(r) => refused(to, r),
        Ok(n) => count(to, b"bytes", n),
    }
}

// `refused`, number and place, and the programme's number where it is not 0.
fn refused(to: &mut impl Write, r: Refusal) -> io::Result<()> {
    // Stays `as`: a usize has no From of a u32.
    let programme = sparrowhem::programme_of(r) as usize;
    if programme == 0 {
        refusal(to, r)
    } else {
        text(to, b"refused")?;
        number(to, sparrowhem::number_of(r))?;
        number(to, sparrowhem::place_of(r))?;
        count(to, b", programme", programme)
    }
}

// A file's bytes; of a hundred or more, the last nine.
fn bytes_or_end(to: &mut impl Write, xs: &[u8]) -> io::Result<()> {
    let n = xs.len();
    if n < 100 {
        bytes(to, xs)
    } else {
        bytes(to, &xs[n - 9..])
    }
}

fn bytes(to: &mut impl Write, xs: &[u8]) -> io::Result<()> {
    for &x in xs {
        number(to, usize::from(x))?;
    }
    text(to, b"\n")
}

// symbols BYTES | PLACES
pub fn symbols(to: &mut impl Write, case: &[u16], arities: &mut [u16]) -> io::Result<()> {
    let mut file = [0u8; 65536];
    let n = narrow(list_at(case, 0), &mut file);
    counted(
        to,
        b"numbers",
        sparrowhem::catalogue_alphabet(&file[..n], arities),
    )?;
    list(to, arities)
}

// entry BYTES | START LENGTH | PLACES
pub fn entry(to: &mut impl Write, case: &[u16], row: &mut [u16]) -> io::Result<()> {
    let mut file = [0u8; 65536];
    let n = narrow(list_at(case, 0), &mut file);
    counted(
        to,
        b"numbers",
        sparrowhem::catalogue_row(&file[..n], told(list_at(case, 1)), row),
    )?;
    list(to, row)
}

// The entry whose start and length a list has. A row is reached without its programme's number.
fn told(numbers: &[u16]) -> Entry {
    Entry {
        programme: 0,
        start: u32::from(at(numbers, 0)),
        length: u32::from(at(numbers, 1)),
    }
}

// A number of a list; 0 past its end.
fn at(numbers: &[u16], i: usize) -> u16 {
    numbers.get(i).copied().unwrap_or(0)
}
