// A case's line: a word, then lists of numbers with a stroke | between each two. In a list
//     7          is a number, and 7x10 is ten times 7;
//     S and X3   are the subtree mark and the variable 3, which are 65535 and 65283;
//     B          is the bar of bar notation, 65534;
//     P9         is the positions 0 to 8, that is, the classes of a row of which no two subtrees are equal;
//     A, T, E, C are alphabet A and row T of docs/SCOPE.md, the ends of T's subtrees, which are its table, and its classes.
ghost use Rattle.std.specs.Prelude.{◌≡◌, ◌≢◌, ◌<◌, ◌≤◌, ◌-◌, ℕ, get_or, length, min, replicate};
ghost use Rattle.script.specs.Room.{SameRoom};

// Stands for a stroke among the numbers that are read. No case has this number.
const STROKE: u16 = 60000;

// Room for the numbers of a case.
// Stays a function: the programs that read cases take rooms of one size, which stands here alone.
pub fn room() -> [u16; 50000]
    ensures places { 50000 ≡ length result }
    ensures zeros { result ≡ replicate 50000 0 }
{
    [0u16; 50000]
}

// The byte at a position; 0 past the end.
pub fn byte_at(line: &[u8], at: usize) -> u8
    ensures { result ≡ get_or line.now at 0 }
{
    line.get(at).copied().unwrap_or(0)
}

// The numbers that lists make: a lent room, and how many stand at its front. A full room takes no more.
#[derive(Drop)]
struct Numbers<'a> {
    room: &'a mut [u16],
    count: usize,
    ghost fits: { count ≤ length room.now },
}

impl Numbers<'_> {
    // One number more.
    fn push(&mut self, value: u16)
        ensures { SameRoom self.old.room self.new.room }
    {
        if self.count < self.room.len() {
            self.room[self.count] = value;
            self.count += 1;
        }
    }

    // The numbers of a list.
    fn copy(&mut self, list: &[u16])
        ensures { SameRoom self.old.room self.new.room }
    {
        for &value in list {
            self.push(value);
        }
    }

    // The last number again, so that it stands there several times.
    fn repeat(&mut self, times: u16)
        ensures { SameRoom self.old.room self.new.room }
    {
        if self.count == 0 {
            return;
        }
        let value = self.room[self.count - 1];
        for _ in 1..times {
            self.push(value);
        }
    }

    // The numbers below `many`, rising.
    fn rise(&mut self, many: u16)
        ensures { SameRoom self.old.room self.new.room }
    {
        for i in 0..many {
            self.push(i);
        }
    }

    // A named list. Letters of the case's word put nothing.
    fn put_named(&mut self, name: u8)
        ensures { SameRoom self.old.room self.new.room }
    {
        match name {
            b'A' => self.copy(&[0u16, 0, 1, 2, 3]),
            b'T' => self.copy(&[4u16, 3, 0, 0, 2, 1, 3, 0, 0]),
            b'E' => self.copy(&[9u16, 4, 3, 4, 6, 6, 9, 8, 9]),
            b'C' => self.copy(&[0u16, 1, 2, 2, 4, 5, 1, 2, 2]),
            _ => {}
        }
    }

    // A mark with the digits behind it.
    fn put(&mut self, mark: u8, digits: &[u8])
        ensures { SameRoom self.old.room self.new.room }
    {
        match mark {
            b'S' => self.push(65535),
            b'B' => self.push(65534),
            b'X' => self.push(65280u16.wrapping_add(value(digits))),
            b'|' => self.push(STROKE),
            b'x' => self.repeat(value(digits)),
            b'P' => self.rise(value(digits)),
            b' ' => {
                if !digits.is_empty() {
                    self.push(value(digits));
                }
            }
            _ => self.put_named(mark),
        }
    }
}

// The numbers of a list into the room, behind the first ones; answers how many it has then.
pub fn copy(list: &[u16], room: &mut [u16], first: usize) -> usize
    requires { first ≤ length room.old }
    ensures { result ≤ length room.new }
{
    let mut numbers = Numbers { room, count: first };
    numbers.copy(list);
    numbers.count
}

// Where the line ends that stands at a byte of the text.
pub fn line_end(input: &[u8], from: usize) -> usize
    requires { from ≤ length input.now }
    ensures within { (from ≤ result) × (result ≤ length input.now) }
    ensures before { (i : ℕ) → from ≤ i → i < result → get_or input.now i 0 ≢ 10 }
    ensures ended { result < length input.now → get_or input.now result 0 ≡ 10 }
{
    for end in from..input.len() {
        if input[end] == b'\n' {
            return end;
        }
    }
    input.len()
}

// Where the digits end that stand at a byte of the line.
fn digits_end(line: &[u8], from: usize) -> usize
    requires { from ≤ length line.now }
    ensures { (from ≤ result) × (result ≤ length line.now) }
{
    for end in from..line.len() {
        if !line[end].is_ascii_digit() {
            return end;
        }
    }
    line.len()
}

// Ten times n, and a digit. No number of a case is above 65535.
fn with_digit(n: u16, digit: u8) -> u16 {
    if 6553 < n || digit < b'0' {
        return n;
    }
    (n * 10).wrapping_add(u16::from(digit - b'0'))
}

// The number that digits make.
fn value(digits: &[u8]) -> u16 {
    let mut n = 0;
    for &digit in digits {
        n = with_digit(n, digit);
    }
    n
}

// The lists of a line, each stroke as STROKE; answers how many numbers that makes.
pub fn read(line: &[u8], room: &mut [u16]) -> usize
    ensures { result ≤ length room.new }
{
    let mut numbers = Numbers { room, count: 0 };
    let mut at = 0;
    // Stays a loop by index: the next list begins where the digits of this one end.
    while at < line.len() {
        let end = digits_end(line, at + 1);
        numbers.put(line[at], &line[at + 1..end]);
        at = end;
    }
    numbers.count
}

// Where the list ends that stands at a place of a case.
fn list_end(case: &[u16], from: usize) -> usize
    requires { from ≤ length case.now }
    ensures { (from ≤ result) × (result ≤ length case.now) }
{
    for end in from..case.len() {
        if case[end] == STROKE {
            return end;
        }
    }
    case.len()
}

// Where a list begins, which are counted from 0; the end of the case for one that it lacks.
fn list_begin(case: &[u16], which: usize) -> usize
    ensures { result ≤ length case.now }
{
    let mut left = which;
    for (i, &number) in case.iter().enumerate() {
        if left == 0 {
            return i;
        }
        if number == STROKE {
            left -= 1;
        }
    }
    case.len()
}

// A list of a case. One that the case lacks is empty.
pub fn list_at<'a>(case: &'a [u16], which: usize) -> &'a [u16] {
    let begin = list_begin(case, which);
    let end = list_end(case, begin);
    &case[begin..end]
}

// What a place holds that no call has written: a number that no case answers.
pub const UNSET: u16 = 60606;

// A buffer for a table or an output, with nothing written in it.
pub fn unset_places() -> [u16; 16384]
    ensures places { 16384 ≡ length result }
    ensures unset { result ≡ replicate 16384 UNSET }
{
    [UNSET; 16384]
}

// The last number of a case; 0 if it has none.
fn last(case: &[u16]) -> u16
    ensures { result ≡ get_or case.now (length case.now - 1) 0 }
{
    case.last().copied().unwrap_or(0)
}

// How many places the buffer has: the last number of the case.
pub fn places(case: &[u16]) -> usize
    ensures within { result ≤ 16384 }
    ensures told { result ≡ min (get_or case.now (length case.now - 1) 0) 16384 }
{
    usize::from(last(case)).min(16384)
}

// The number at a place of a list; 0 past its end.
fn entry(list: &[u16], i: usize) -> u16
    ensures { result ≡ get_or list.now i 0 }
{
    list.get(i).copied().unwrap_or(0)
}

// A number that stands as a list. Two numbers are added, so that 65535 1 is 65536.
pub fn number_at(case: &[u16], which: usize) -> usize {
    let list = list_at(case, which);
    usize::from(entry(list, 0)) + usize::from(entry(list, 1))
}
