// The input: three lines of numbers, which are the arities, the row and the pattern.
ghost use Rattle.std.specs.Prelude.{◌≤◌, length};
ghost use Rattle.decimal.specs.Inside.{LineRoom};
ghost use Rattle.seek_text.specs.Inside.{InputRead, NextLine, numbers_most};

use decimal::{Cursor, read_line};
use rows::{Refusal, Text};

// The most bytes of an input, and room for its numbers: each takes two bytes.
pub const INPUT_MOST: usize = 65536;

pub const NUMBERS_MOST: usize = 32768;

// Where the arities, the row and the pattern end in a buffer that holds the three, one behind the other.
#[derive(Clone, Copy, Debug, PartialEq, Eq)]
pub struct Lists {
    pub arities: usize,
    pub row: usize,
    pub pattern: usize,
}

// The next line, as `read_line` reads it; a line that is faulty is a refusal of the input.
fn next_line(
    input: &[u8],
    from: Cursor,
    numbers: &mut [u16],
    first: usize,
) -> Result<(usize, Cursor), Refusal>
    requires { LineRoom input.now from numbers.old first }
    ensures { NextLine input.now from numbers.old first result numbers.new }
{
    read_line(input, from, numbers, first).map_err(|k| Refusal::Input(Text::Line(k)))
}

// The three lists of an input, written to the front of a buffer that has room for them, and where they end; or why the input is
// refused.
pub fn read_input(input: &[u8], numbers: &mut [u16]) -> Result<Lists, Refusal>
    requires { numbers_most ≤ length numbers.old }
    ensures { InputRead input.now numbers.old result numbers.new }
{
    if INPUT_MOST < input.len() {
        return Err(Refusal::Input(Text::Bytes));
    }
    let (arities, second) = next_line(input, Cursor { at: 0, line: 1 }, numbers, 0)?;
    let (row, third) = next_line(input, second, numbers, arities)?;
    let (pattern, fourth) = next_line(input, third, numbers, row)?;
    // Nothing may follow the third line.
    if fourth.at < input.len() {
        return Err(Refusal::Input(Text::Line(fourth.line)));
    }
    Ok(Lists {
        arities,
        row,
        pattern,
    })
}
