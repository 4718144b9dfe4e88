// What a case answers: words, numbers and lists, a line each. Where the output takes no more, the error is answered.
ghost use Rattle.std.specs.Prelude.{◌<◌, ◌≤◌, [], ◌∷◌, ◌++◌, OnOk, decimal, length};
ghost use Rattle.std.specs.Io.KnownBytes.{Appends, Keeps};
ghost use Rattle.script.specs.Printed.{number_text, numbers_text};

use std::io;
use std::io::Write;

// A title, before the cases that follow.
pub fn title<W: Write>(to: &mut W, words: &[u8]) -> io::Result<()>
    ensures { OnOk result (Appends (W.contents to.old) (W.contents to.new) (words.now ++ (10 ∷ []))) }
{
    text(to, words)?;
    text(to, b"\n")
}

pub fn text<W: Write>(to: &mut W, words: &[u8]) -> io::Result<()>
    ensures { OnOk result (Appends (W.contents to.old) (W.contents to.new) words.now) }
{
    to.write_all(words)
}

pub fn digits<W: Write>(to: &mut W, n: usize) -> io::Result<()>
    ensures { OnOk result (Appends (W.contents to.old) (W.contents to.new) (decimal n)) }
{
    write!(to, "{n}")
}

// A number, and a space before it.
pub fn number<W: Write>(to: &mut W, n: usize) -> io::Result<()>
    ensures { OnOk result (Appends (W.contents to.old) (W.contents to.new) (number_text n)) }
{
    write!(to, " {n}")
}

// Words and a number.
pub fn count<W: Write>(to: &mut W, words: &[u8], n: usize) -> io::Result<()>
    ensures { OnOk result (Appends (W.contents to.old) (W.contents to.new) (words.now ++ (number_text n ++ (10 ∷ [])))) }
{
    text(to, words)?;
    number(to, n)?;
    text(to, b"\n")
}

// Words and two numbers.
pub fn pair<W: Write>(to: &mut W, words: &[u8], m: usize, n: usize) -> io::Result<()>
    ensures { OnOk result (Appends (W.contents to.old) (W.contents to.new) (words.now ++ (number_text m ++ (number_text n ++ (10 ∷ []))))) }
{
    text(to, words)?;
    number(to, m)?;
    count(to, b"", n)
}

// The numbers of a list. One of a hundred or more is not printed.
pub fn list<W: Write>(to: &mut W, xs: &[u16]) -> io::Result<()>
    ensures short { OnOk result (length xs.now < 100 → Appends (W.contents to.old) (W.contents to.new) (numbers_text xs.now)) }
    ensures long { OnOk result (100 ≤ length xs.now → Keeps (W.contents to.old) (W.contents to.new)) }
{
    if xs.len() < 100 {
        numbers(to, xs)?;
    }
    Ok(())
}

fn numbers<W: Write>(to: &mut W, xs: &[u16]) -> io::Result<()>
    ensures { OnOk result (Appends (W.contents to.old) (W.contents to.new) (numbers_text xs.now)) }
{
    for x in xs {
        number(to, usize::from(*x))?;
    }
    text(to, b"\n")
}
