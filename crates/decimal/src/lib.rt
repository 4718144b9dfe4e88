// Decimal numbers in text, both ways: lines of numbers from 0 to 65535 are read, any number is printed.
#![tactic(auto)]

ghost use Rattle.std.specs.Prelude.{◌≡◌, [], ◌∷◌, ◌++◌, Ok, Err, ℕ, ◌+◌, ◌≤◌, ◌<◌, length, get_or, drop};
ghost use Rattle.rows.specs.Row.{pick};
ghost use Rattle.decimal.specs.Lines.{numeral, number_most};
ghost use Rattle.decimal.specs.Promises.{is_digit};
ghost use Rattle.decimal.specs.Inside.{ends_number, NumberAt, LineAt, LineRoom, Printed, marked_most};
ghost use Rattle.decimal.specs.Printing.{Put};

// The largest number of a line.
const NUMBER_MOST: u32 = 65535;

// Where reading stands: at a byte of the text, in a line that is counted from 1.
#[derive(Clone, Copy)]
pub struct Cursor {
    pub at: usize,
    pub line: usize,
}

// The byte at a position; 0 past the text's end.
fn byte_at(text: &[u8], at: usize) -> u8
    ensures { result ≡ get_or text.now at 0 }
{
    text.get(at).copied().unwrap_or(0)
}

// Does a digit stand there?
fn digit_at(text: &[u8], at: usize) -> bool
    ensures { result ≡ is_digit (get_or text.now at 0) }
{
    (b'0'..=b'9').contains(&byte_at(text, at))
}

// The number n, whose last digit stands before the cursor, with that cursor: a space or a newline ends it. Otherwise its line,
// which is faulty.
fn ended(text: &[u8], next: Cursor, n: u16) -> Result<(u16, Cursor), usize>
    ensures { result ≡ pick (ends_number (get_or text.now next.at 0)) (Ok (n, next)) (Err next.line) }
{
    match byte_at(text, next.at) {
        b' ' | b'\n' => Ok((n, next)),
        _ => Err(next.line),
    }
}

// A number whose digits before the cursor make `first`, which is not 0, and the cursor after it; or its line, which is faulty.
fn digits(text: &[u8], next: Cursor, first: u32) -> Result<(u16, Cursor), usize>
    requires { (0 < first) × (first ≤ number_most) }
    ensures { (start : ℕ) → drop start text.now ≡ numeral first ++ drop next.at text.now → NumberAt text.now (record { at = start; line = next.line }) result }
{
    let line = next.line;
    let mut n = first;
    let mut at = next.at;
    // Stays a loop by index: the place reached, behind the last digit, is part of the answer.
    while digit_at(text, at) {
        n = n * 10 + u32::from(text[at] - b'0');
        if NUMBER_MOST < n {
            return Err(line);
        }
        at += 1;
    }
    // Stays `as`: the number fits, as a contract says, and `try_from` would answer an error that no call can give.
    ended(text, Cursor { at, line }, n as u16)
}

// The number at a cursor and the cursor after it; or its line, which is faulty.
fn number_at(text: &[u8], from: Cursor) -> Result<(u16, Cursor), usize>
    ensures { NumberAt text.now from result }
{
    let at = from.at;
    let line = from.line;
    if digit_at(text, at) {
        let first = text[at];
        let next = Cursor { at: at + 1, line };
        if first == b'0' {
            return ended(text, next, 0);
        }
        return digits(text, next, u32::from(first - b'0'));
    }
    Err(line)
}

// The line of numbers at a cursor. They are written into the buffer from place `first` on. The answer is the place behind its
// last number and the cursor of the next line; or its own number, where it is faulty.
#[tactic(auto, using(crate::proofs::Lining::empty_line, crate::proofs::Lining::sofar_none, crate::proofs::Lining::sofar_more, crate::proofs::Lining::stands_within))]
pub fn read_line(
    text: &[u8],
    from: Cursor,
    out: &mut [u16],
    first: usize,
) -> Result<(usize, Cursor), usize>
    requires { LineRoom text.now from out.old first }
    ensures { LineAt text.now from out.old first result out.new }
{
    let line = from.line;
    let mut at = from.at;
    let mut count = first;
    if byte_at(text, at) == b'\n' {
        return Ok((
            count,
            Cursor {
                at: at + 1,
                line: line + 1,
            },
        ));
    }
    loop {
        // Stays a `let else`: docs/SCOPE.md asks for this form where a number of a line is read.
        let Ok((value, next)) = number_at(text, Cursor { at, line }) else {
            return Err(line);
        };
        out[count] = value;
        count += 1;
        let end = next.at;
        at = end + 1;
        if byte_at(text, end) == b'\n' {
            return Ok((count, Cursor { at, line: line + 1 }));
        }
    }
}

// The digits of a number from a place on, where the buffer has room for them: all but the last, then the last. Answers the
// place behind.
// Stays apart from the printer: the place is memory there, and each digit would wait for the one before.
fn put_digits(out: &mut [u8], at: usize, n: usize) -> usize
    requires { at + length (numeral n) ≤ length out.old }
    ensures { Printed out.old at (numeral n) result out.new }
{
    if n < 10 {
        // Stays `as`, here and below: a digit fits, and `try_from` would answer an error that no call can give.
        out[at] = b'0' + n as u8;
        return at + 1;
    }
    let last = put_digits(out, at, n / 10);
    out[last] = b'0' + (n % 10) as u8;
    last + 1
}

// A lent buffer that is printed into, and the place behind what was printed.
#[derive(Drop)]
pub struct Printer<'a> {
    pub out: &'a mut [u8],
    pub at: usize,
}

impl Printer<'_> {
    // One byte, where the buffer has room for it.
    pub fn put_byte(&mut self, b: u8)
        requires { self.old.at < length self.old.out.now }
        ensures { Put self.old (b ∷ []) self.new }
    {
        self.out[self.at] = b;
        self.at += 1;
    }

    // Bytes, where the buffer has room for them.
    pub fn put_bytes(&mut self, bytes: &[u8])
        requires { self.old.at + length bytes.now ≤ length self.old.out.now }
        ensures { Put self.old bytes.now self.new }
    {
        let end = self.at + bytes.len();
        self.out[self.at..end].copy_from_slice(bytes);
        self.at = end;
    }

    // A mark and a number behind it, where the buffer has room for a mark and the longest number.
    pub fn put_marked(&mut self, mark: u8, n: usize)
        requires { self.old.at + marked_most ≤ length self.old.out.now }
        ensures { Put self.old (mark ∷ numeral n) self.new × (self.new.at ≤ self.old.at + marked_most) }
    {
        self.put_byte(mark);
        self.at = put_digits(self.out, self.at, n);
    }
}
