// Runs the cases of the file `stdin`: the worked programmes of docs/SCOPE.md, the sizes at their limits and the refusals. Each is
// one of the public calls, and what it answers and leaves in its buffers is printed.
#![tactic(auto)]

mod calling;
mod filing;
mod posting;
mod replacing;
mod sheet;

use script::{text, title};
use std::io;
use std::io::Write;

// The call that a case's word names, by its third letter: no two words have the same one.
fn call(to: &mut impl Write, letter: u8, case: &[u16], buffer: &mut [u16]) -> io::Result<()> {
    match letter {
        b'i' => calling::build(to, case, buffer),
        b'b' => calling::subtree(to, case),
        b'n' => calling::find(to, case, buffer),
        b'e' => sheet::sheet(to, case, buffer),
        b'r' => calling::variables(to, case, buffer),
        b'p' => replacing::replace(to, case),
        b'w' => calling::newer(to, case),
        b'a' => calling::plain(to, case),
        b'c' => calling::each(to, case),
        b'l' => filing::file(to, case),
        b'm' => filing::symbols(to, case, buffer),
        b't' => filing::entry(to, case, buffer),
        b's' => posting::post(to, case, buffer),
        b'o' => posting::close(to, case, buffer),
        _ => text(to, b"no such call\n"),
    }
}

// A case, with a buffer for the call that wants one: nothing is written in it yet.
fn run(to: &mut impl Write, letter: u8, case: &[u16]) -> io::Result<()> {
    let mut buffer = script::unset_places();
    let n = script::places(case);
    call(to, letter, case, &mut buffer[..n])
}

// The word stands behind two spaces, so that byte 4 is its third letter.
fn read(to: &mut impl Write, line: &[u8]) -> io::Result<()> {
    let mut numbers = script::room();
    let n = script::read(line, &mut numbers);
    run(to, script::byte_at(line, 4), &numbers[..n])
}

// A line that begins with a space is a case, one that begins with # is for the reader alone, and any other is a title.
fn obey(to: &mut impl Write, line: &[u8]) -> io::Result<()> {
    match script::byte_at(line, 0) {
        b' ' => read(to, line),
        b'#' => Ok(()),
        _ => title(to, line),
    }
}

fn lines(to: &mut impl Write, input: &[u8]) -> io::Result<()> {
    let mut at = 0;
    // Stays a loop by index: the next line begins where this one ends.
    while at < input.len() {
        let end = script::line_end(input, at);
        obey(to, &input[at..end])?;
        at = end + 1;
    }
    Ok(())
}

fn main(rt: HostRuntime) -> io::Result<()> {
    let mut input = [0u8; 65536];
    let n = script::read_full(&mut rt.stdin(), &mut input);
    lines(&mut rt.stdout(), &input[..n])
}
