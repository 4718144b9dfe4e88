// `seek`: an alphabet, a row and a pattern on standard input; the matches, or a refusal, on standard output.
// What it reads and writes is the work of `seek_text`; here the bytes come in and go out.
#![tactic(auto)]

ghost use Rattle.std.specs.Prelude.{◌≤◌, List, ℕ, OnOk, length};
ghost use Rattle.std.specs.Io.KnownBytes.{Appends, Consumes};
ghost use Rattle.seek_print.specs.Inside.{line_most};
ghost use Rattle.seek_text.specs.Seek.{joined, Prints};
ghost use Rattle.seek_text.specs.Pages.{lines_of};
ghost use Rattle.seek_text.specs.Inside.{Printable};

use seek_text::{INPUT_MOST, NUMBERS_MOST, Told};
use std::io;
use std::io::{Read, Write};

// Room for the longest input, and for one byte more, which tells that an input is longer.
const INPUT_ROOM: usize = INPUT_MOST + 1;

// Room for a page.
const PAGE_ROOM: usize = 65536;

// The text of a response goes out, page by page, as long as each page goes out whole.
fn write_text<W: Write>(to: &mut W, told: Told, out: &mut [u8]) -> io::Result<()>
    requires { Printable told.response told.numbers.now told.table.now told.classes.now told.positions.now × (line_most ≤ length out.old) }
    ensures { OnOk result (Appends (W.contents to.old) (W.contents to.new) (joined (lines_of told.entry.response told.entry.numbers.now told.entry.positions.now))) }
{
    let count = seek_text::line_count(told.response);
    let mut first = 0;
    // Stays a loop by index: the page says which line the next one begins with.
    while first < count {
        let page = told.print_page(first, out);
        to.write_all(&out[..page.bytes])?;
        first = page.next;
    }
    Ok(())
}

// The response to an input goes out: what `seek` prints for it.
fn respond<W: Write>(to: &mut W, input: &[u8], out: &mut [u8]) -> io::Result<()>
    requires { line_most ≤ length out.old }
    ensures { OnOk result ((z : List ℕ) × Prints input.now z × Appends (W.contents to.old) (W.contents to.new) z) }
{
    let mut numbers = [0u16; NUMBERS_MOST];
    let mut table = [0u16; rows::ROW_MOST];
    let mut classes = [0u16; rows::ROW_MOST];
    let mut positions = [0u16; rows::ROW_MOST];
    let response = seek_text::answer_input(
        input,
        &mut numbers,
        &mut table,
        &mut classes,
        &mut positions,
    );
    let told = Told {
        response,
        numbers: &numbers,
        table: &table,
        classes: &classes,
        positions: &positions,
    };
    write_text(to, told, out)
}

// What `seek` prints for the bytes that it reads.
fn seek<R: Read, W: Write>(from: &mut R, to: &mut W) -> io::Result<()>
    ensures { OnOk result ((b z : List ℕ) × Consumes (R.remaining from.old) (R.remaining from.new) b × Prints b z × Appends (W.contents to.old) (W.contents to.new) z) }
{
    let mut input = [0u8; INPUT_ROOM];
    let n = script::read_full(from, &mut input);
    let mut out = [0u8; PAGE_ROOM];
    respond(to, &input[..n], &mut out)
}

// If the output takes no more, what was written until then is the front of the text, and the program ends quietly.
fn main(rt: HostRuntime) {
    let _ = seek(&mut rt.stdin(), &mut rt.stdout());
}
