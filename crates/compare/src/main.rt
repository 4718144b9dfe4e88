// The plain matcher against find, and against a sheet of all patterns, with the table and the classes that build leaves: every
// list of one to four numbers below 6, and every row of five to seven; every position. What find refuses, the plain matcher has to
// refuse alike, and so a row that the sheet refuses. The class of every position of every row is compared too, with the first
// position of an equal subtree. The file `stdin` has lists with a stroke between each two: the alphabet, of five symbols, the sheet's
// patterns end to end, their lengths, and each pattern by itself. Some patterns are faulty.
#![tactic(auto)]

ghost use Rattle.std.specs.Prelude.{◌≡◌, ◌≤◌, length};

use script::{count, list_at, number, text, title};
use sparrowhem::{Programme, Refusal};
use std::io;
use std::io::Write;

// How many patterns there are.
const PATTERNS: usize = 14;

// How many positions were tried and how many of them match, how many calls were refused alike, how many classes were compared,
// and how often the two differ.
#[derive(Clone, Copy, Default)]
struct Tally {
    positions: usize,
    matches: usize,
    refused: usize,
    classes: usize,
    apart: usize,
}

fn more(n: usize, yes: bool) -> usize {
    n.wrapping_add(usize::from(yes))
}

impl Tally {
    // A position where the plain matcher says the same as find, or not.
    fn position(mut self, found: bool, same: bool) -> Self {
        self.positions = more(self.positions, true);
        self.matches = more(self.matches, found);
        self.apart = more(self.apart, !same);
        self
    }

    // A call that find refuses.
    fn refusal(mut self, same: bool) -> Self {
        self.refused = more(self.refused, same);
        self.apart = more(self.apart, !same);
        self
    }

    // A position whose class is the one that it has to be, or not.
    fn class(mut self, same: bool) -> Self {
        self.classes = more(self.classes, true);
        self.apart = more(self.apart, !same);
        self
    }
}

// Every position of a row, of which the first n numbers of `out` are the matches.
fn answered(
    arities: &[u16],
    row: &[u16],
    pattern: &[u16],
    out: &[u16],
    n: usize,
    tally: Tally,
) -> Tally {
    let mut sum = tally;
    // Stays a loop over places: each place is asked about.
    for p in 0..row.len() {
        let found = out.iter().take(n).any(|&q| usize::from(q) == p);
        let same = sparrowhem::plain_match(arities, row, pattern, p) == Ok(found);
        sum = sum.position(found, same);
    }
    sum
}

// What find answers, against the plain matcher.
fn judged(
    answer: Result<usize, Refusal>,
    arities: &[u16],
    list: &[u16],
    pattern: &[u16],
    out: &[u16],
    tally: Tally,
) -> Tally {
    match answer {
        Err(r) => tally.refusal(sparrowhem::plain_match(arities, list, pattern, 0) == Err(r)),
        Ok(n) => answered(arities, list, pattern, out, n, tally),
    }
}

// What is kept beside a row of up to seven symbols.
#[derive(Clone, Copy, Default)]
struct Beside {
    table: [u16; 7],
    classes: [u16; 7],
}

impl Beside {
    // The row with it.
    fn programme<'a>(&'a self, row: &'a [u16]) -> Programme<'a> {
        Programme {
            row,
            table: &self.table,
            classes: &self.classes,
        }
    }
}

// What build leaves beside a list of up to seven numbers; `None` if it is no row.
fn built(arities: &[u16], list: &[u16]) -> Option<Beside> {
    let mut beside = Beside::default();
    sparrowhem::build(arities, list, &mut beside.table, &mut beside.classes).ok()?;
    Some(beside)
}

// One list of up to seven numbers with one pattern.
fn compared(arities: &[u16], list: &[u16], pattern: &[u16], tally: Tally) -> Tally {
    let beside = built(arities, list).unwrap_or_default();
    let mut out = [0u16; 7];
    let answer = sparrowhem::find(arities, beside.programme(list), pattern, &mut out);
    judged(answer, arities, list, pattern, &out, tally)
}

// One list with each pattern.
fn patterns(case: &[u16], list: &[u16], tally: Tally) -> Tally {
    let mut sum = tally;
    for i in 0..PATTERNS {
        sum = compared(list_at(case, 0), list, list_at(case, 3 + i), sum);
    }
    sum
}

// Each pattern that the sheet does not refuse, with its part of the positions.
fn parts(case: &[u16], row: &[u16], positions: &[u16], results: &[u16], tally: Tally) -> Tally {
    let mut sum = tally;
    let mut at = 0;
    for i in 0..PATTERNS {
        let n = entry(results, 3 * i + 2);
        let begin = at.min(positions.len());
        if entry(results, 3 * i) == 0 {
            sum = answered(
                list_at(case, 0),
                row,
                list_at(case, 3 + i),
                &positions[begin..],
                n,
                sum,
            );
        }
        at = at.wrapping_add(n);
    }
    sum
}

// One list with the sheet of all patterns.
fn sheet(case: &[u16], list: &[u16], tally: Tally) -> Tally {
    let arities = list_at(case, 0);
    let beside = built(arities, list).unwrap_or_default();
    let mut positions = [0u16; 7 * PATTERNS];
    let mut results = [0u16; 3 * PATTERNS];
    let answer = sparrowhem::sheet(
        arities,
        beside.programme(list),
        list_at(case, 1),
        list_at(case, 2),
        &mut positions,
        &mut results,
    );
    match answer {
        Err(r) => {
            tally.refusal(sparrowhem::plain_match(arities, list, list_at(case, 3), 0) == Err(r))
        }
        Ok(_) => parts(case, list, &positions, &results, tally),
    }
}

// The number at a place; 0 past the end.
fn entry(numbers: &[u16], i: usize) -> usize {
    usize::from(numbers.get(i).copied().unwrap_or(0))
}

// The first position where the symbols from p up to `end` stand. If they are a subtree's, an equal one stands there: no row of a
// tree begins with that of another.
fn first_place(row: &[u16], p: usize, end: usize) -> usize
    requires { (p ≤ end) × (end ≤ length row.now) }
{
    for q in 0..p {
        if row[q..].starts_with(&row[p..end]) {
            return q;
        }
    }
    p
}

// The class of every position of a row with its table.
fn each_class(row: &[u16], table: &[u16], classes: &[u16], tally: Tally) -> Tally {
    let mut sum = tally;
    // Stays a loop over places: each place is asked about.
    for p in 0..row.len() {
        let end = entry(table, p).clamp(p, row.len());
        sum = sum.class(entry(classes, p) == first_place(row, p, end));
    }
    sum
}

// The classes that build leaves, if the list is a row.
fn classed(arities: &[u16], list: &[u16], tally: Tally) -> Tally {
    match built(arities, list) {
        Some(beside) => each_class(list, &beside.table, &beside.classes, tally),
        None => tally,
    }
}

// A short list is tried, and a longer one if it is a row.
fn worth(arities: &[u16], list: &[u16]) -> bool {
    list.len() < 5 || built(arities, list).is_some()
}

fn tried(case: &[u16], list: &[u16], tally: Tally) -> Tally {
    if worth(list_at(case, 0), list) {
        let sum = classed(list_at(case, 0), list, tally);
        return sheet(case, list, patterns(case, list, sum));
    }
    tally
}

// List number `which`: its digits to base 6, the last first.
fn spelt(which: usize) -> [u16; 7]
    ensures { 7 ≡ length result }
{
    let mut list = [0u16; 7];
    let mut left = which;
    for digit in &mut list {
        // Stays `as`: a remainder fits, and `try_from` would answer an error that no call can give.
        *digit = (left % 6) as u16;
        left /= 6;
    }
    list
}

// The first `many` lists, each cut to n numbers.
fn lists_of(case: &[u16], n: usize, many: usize, tally: Tally) -> Tally
    requires { n ≤ 7 }
{
    let mut sum = tally;
    for which in 0..many {
        let list = spelt(which);
        sum = tried(case, &list[0..n], sum);
    }
    sum
}

// The lists of one to seven numbers.
fn all_lists(case: &[u16]) -> Tally {
    let mut sum = Tally::default();
    let all: [usize; 7] = [6, 36, 216, 1296, 7776, 46656, 279936];
    for (i, &many) in all.iter().enumerate() {
        sum = lists_of(case, i + 1, many, sum);
    }
    sum
}

fn compare(to: &mut impl Write, case: &[u16]) -> io::Result<()> {
    let all = all_lists(case);
    text(to, b"positions")?;
    number(to, all.positions)?;
    text(to, b" matches")?;
    number(to, all.matches)?;
    text(to, b" refused")?;
    number(to, all.refused)?;
    text(to, b" classes")?;
    number(to, all.classes)?;
    count(to, b" apart", all.apart)
}

fn read(to: &mut impl Write, line: &[u8]) -> io::Result<()> {
    let mut numbers = script::room();
    let n = script::read(line, &mut numbers);
    compare(to, &numbers[..n])
}

fn main(rt: HostRuntime) -> io::Result<()> {
    let mut out = rt.stdout();
    title(
        &mut out,
        b"plain against find and a sheet, classes against equal subtrees: lists of one to four numbers, rows of five to seven, 14 patterns",
    )?;
    let mut line = [0u8; 4096];
    let n = script::read_full(&mut rt.stdin(), &mut line);
    read(&mut out, &line[..n])
}
