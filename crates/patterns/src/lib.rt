// Patterns: what a number of a pattern stands for, the check of a pattern, and one step of the walk along it over a row with
// its table and its classes; and where a step misses: at which place of the pattern, and at which position of the row.
#![tactic(auto)]

ghost use Rattle.std.specs.Prelude.{◌≡◌, false, ℕ, ◌+◌, ◌-◌, ◌≤◌, ◌<◌, length, get_or, None};
ghost use Rattle.rows.specs.Refusals.{pattern};
ghost use Rattle.patterns.specs.Pattern.{leaf};
ghost use Rattle.patterns.specs.Searchable.{BlankFrom};
ghost use Rattle.patterns.specs.Walk.Outcome.{misses};
ghost use Rattle.patterns.specs.Walk.{same_symbol, agreeing, Alike, steps, Ends, MarksIn, ByClass, met, marked, Meetable, stepped, Stepping};

use rows::{Leaves, Programme, Refusal};

// A mark for each variable.
// Stays `as`: a constant is computed without calls.
pub const MARKS: usize = rows::VARIABLES as usize;

// What a number of a pattern stands for: itself, any subtree, or the subtree of a variable.
#[derive(Clone, Copy, Debug, PartialEq, Eq)]
pub enum Leaf {
    Plain,
    Blank,
    Variable(usize),
}

pub fn leaf_of(s: u16) -> Leaf
    ensures { result ≡ leaf s }
{
    if s == rows::BLANK {
        return Leaf::Blank;
    }
    if rows::is_variable(s) {
        return Leaf::Variable(usize::from(s - rows::FIRST_VARIABLE));
    }
    Leaf::Plain
}

// Refusals 11 to 15: the pattern.
#[tactic(auto, unfolding(rows::specs::Refusals::pattern))]
pub fn check_pattern(arities: &[u16], list: &[u16]) -> Result<(), Refusal>
    ensures { result ≡ pattern arities.now list.now }
{
    rows::check_reading(arities, list, Leaves::Blanks, rows::PATTERN_MOST).map_err(Refusal::Pattern)
}

// How many of the n symbols from a on are the same as those from b on: left at the first that differs.
fn count_singly(row: &[u16], a: usize, b: usize, n: usize) -> usize
    requires { (a + n ≤ length row.now) × (b + n ≤ length row.now) }
    ensures { result ≡ agreeing row.now a b n }
{
    for i in 0..n {
        if row[a + i] != row[b + i] {
            return i;
        }
    }
    n
}

// The symbols that are looked at at once.
const EIGHT: usize = 8;

// Do eight symbols of x from a on differ from those of y from b on? They are looked at without a way out of them, which the
// compiler turns into vector instructions.
fn eight_differ(x: &[u16], a: usize, y: &[u16], b: usize) -> bool
    requires { (a + 8 ≤ length x.now) × (b + 8 ≤ length y.now) }
    ensures { result ≡ false → Alike x.now a y.now b 8 }
{
    let mut differ = false;
    for k in 0..EIGHT {
        if x[a + k] != y[b + k] {
            differ = true;
        }
    }
    differ
}

// How many of the n symbols of x from a on are those of y from b on, in whole eights: left at the first eight that differ.
pub fn count_eights(x: &[u16], a: usize, y: &[u16], b: usize, n: usize) -> usize
    requires { (a + n ≤ length x.now) × (b + n ≤ length y.now) }
    ensures { (result ≤ n) × Alike x.now a y.now b result }
{
    for t in 0..n / EIGHT {
        if eight_differ(x, a + t * EIGHT, y, b + t * EIGHT) {
            return t * EIGHT;
        }
    }
    n / EIGHT * EIGHT
}

// The same as `count_singly`: first in eights, then what is left of them singly.
pub fn count_same(row: &[u16], a: usize, b: usize, n: usize) -> usize
    requires { (a + n ≤ length row.now) × (b + n ≤ length row.now) }
    ensures { result ≡ agreeing row.now a b n }
{
    let i = count_eights(row, a, row, b, n);
    i + count_singly(row, a + i, b + i, n - i)
}

// Variable i at row position j, where a subtree stands up to `end`. At its first place it is marked; at a later one the
// subtree of the first stands again, which the classes tell. Answers where the walk goes on; `None` where another stands there.
fn meet(classes: &[u16], i: usize, j: usize, end: usize, marks: &mut [u16; MARKS]) -> Option<usize>
    requires { Meetable classes.now i j marks.old }
    ensures { (result ≡ met classes.now end j (get_or marks.old i 0)) × (marks.new ≡ marked marks.old i j (get_or marks.old i 0)) }
{
    let mark = usize::from(marks[i]);
    if mark == 0 {
        // Stays `as`: the number fits, as a contract says, and `try_from` would answer an error that no call can give.
        marks[i] = (j + 1) as u16;
        return Some(end);
    }
    if classes[mark - 1] == classes[j] {
        return Some(end);
    }
    None
}

// The number s of the pattern at row position j, where another symbol stands: only S and a variable can fit. Answers where the
// walk goes on; `None` where it misses.
pub fn step(programme: Programme, s: u16, j: usize, marks: &mut [u16; MARKS]) -> Option<usize>
    requires { Ends programme.row.now programme.table.now × ByClass programme.row.now programme.table.now programme.classes.now × MarksIn j marks.old × (j < length programme.row.now) × (same_symbol (get_or programme.row.now j 0) s ≡ false) }
    ensures { (k : ℕ) → Stepping (steps programme.entry.row.now programme.entry.table.now k s j marks.old) marks.old result marks.new }
{
    let end = usize::from(programme.table[j]);
    match leaf_of(s) {
        Leaf::Plain => None,
        Leaf::Blank => Some(end),
        Leaf::Variable(i) => meet(programme.classes, i, j, end, marks),
    }
}

// Where a later place of a variable does not fit at row position j: at the first symbol that differs from those at `first`.
fn differ_at(row: &[u16], table: &[u16], j: usize, first: usize) -> usize
    requires { Ends row.now table.now × (first < j) × (j < length row.now) }
    ensures { result ≡ j + agreeing row.now first j (get_or table.now j 0 - j) }
{
    let size = usize::from(table[j]) - j;
    j + count_same(row, first, j, size)
}

// Where the number s at place k of the pattern does not fit at row position j: that place, and the position of the symbol.
pub fn miss_at(
    programme: Programme,
    k: usize,
    s: u16,
    j: usize,
    marks: &[u16; MARKS],
) -> (usize, usize)
    requires ends { Ends programme.row.now programme.table.now × MarksIn j marks.now × (j < length programme.row.now) × (same_symbol (get_or programme.row.now j 0) s ≡ false) }
    requires marks_value { stepped (steps programme.row.now programme.table.now k s j marks.now) ≡ None }
    ensures { steps programme.entry.row.now programme.entry.table.now k s j marks.now ≡ misses result.0 result.1 }
{
    match leaf_of(s) {
        Leaf::Plain | Leaf::Blank => (k, j),
        Leaf::Variable(i) => {
            let first = usize::from(marks[i]) - 1;
            (k, differ_at(programme.row, programme.table, j, first))
        }
    }
}

// How many numbers of the pattern stand before the S at its end, which fit whatever stands there.
#[tactic(auto, using(crate::proofs::Leaves::blank_before))]
pub fn count_compared(pattern: &[u16]) -> usize
    ensures { BlankFrom pattern.now result }
{
    for k in (0..pattern.len()).rev() {
        if pattern[k] != rows::BLANK {
            return k + 1;
        }
    }
    0
}
