// The public calls, but for replace, sheet and those on catalogue files and bar notation. Each takes its lists from a case, and prints
// what it answers and what it leaves in its buffers, in which nothing is written before.
ghost use Rattle.std.specs.Prelude.{◌≤◌};

use script::{count, list, list_at, number, number_at, pair, text};
use sparrowhem::{Newest, Programme, Refusal};
use std::io;
use std::io::Write;

// The row in list number `first` of a case, with its table and its classes in the two lists behind it.
pub fn programme_at(case: &[u16], first: usize) -> Programme<'_>
    requires { first ≤ 99 }
{
    Programme {
        row: list_at(case, first),
        table: list_at(case, first + 1),
        classes: list_at(case, first + 2),
    }
}

// build ARITIES | ROW | PLACES | PLACES: those of the table, those of the classes.
pub fn build(to: &mut impl Write, case: &[u16], classes: &mut [u16]) -> io::Result<()> {
    let mut table = script::unset_places();
    let n = script::places(list_at(case, 2));
    build_in(to, case, &mut table[..n], classes)
}

fn build_in(
    to: &mut impl Write,
    case: &[u16],
    table: &mut [u16],
    classes: &mut [u16],
) -> io::Result<()> {
    checked(
        to,
        sparrowhem::build(list_at(case, 0), list_at(case, 1), table, classes),
    )?;
    list(to, table)?;
    list(to, classes)
}

// `refused`, number and place.
pub fn refusal(to: &mut impl Write, r: Refusal) -> io::Result<()> {
    pair(
        to,
        b"refused",
        sparrowhem::number_of(r),
        sparrowhem::place_of(r),
    )
}

fn checked(to: &mut impl Write, answer: Result<(), Refusal>) -> io::Result<()> {
    match answer {
        Ok(()) => text(to, b"fine\n"),
        Err(r) => refusal(to, r),
    }
}

// subtree ARITIES | ROW | TABLE | CLASSES | POSITION
pub fn subtree(to: &mut impl Write, case: &[u16]) -> io::Result<()> {
    subtree_answer(to, case)?;
    subtree_part(to, case)
}

fn subtree_answer(to: &mut impl Write, case: &[u16]) -> io::Result<()> {
    placed(
        to,
        sparrowhem::subtree_answer(list_at(case, 0), programme_at(case, 1), number_at(case, 4)),
    )
}

fn subtree_part(to: &mut impl Write, case: &[u16]) -> io::Result<()> {
    list(
        to,
        sparrowhem::subtree(
            list_at(case, 0),
            list_at(case, 1),
            list_at(case, 2),
            list_at(case, 3),
            number_at(case, 4),
        ),
    )
}

fn placed(to: &mut impl Write, answer: Result<(usize, usize), Refusal>) -> io::Result<()> {
    match answer {
        Err(r) => refusal(to, r),
        Ok((begin, end)) => pair(to, b"span", begin, end),
    }
}

// find ARITIES | ROW | TABLE | CLASSES | PATTERN | PLACES
pub fn find(to: &mut impl Write, case: &[u16], out: &mut [u16]) -> io::Result<()> {
    counted(
        to,
        b"matches",
        sparrowhem::find(
            list_at(case, 0),
            programme_at(case, 1),
            list_at(case, 4),
            out,
        ),
    )?;
    list(to, out)
}

// Words and a number, or what is refused.
pub fn counted(
    to: &mut impl Write,
    words: &[u8],
    answer: Result<usize, Refusal>,
) -> io::Result<()> {
    match answer {
        Err(r) => refusal(to, r),
        Ok(n) => count(to, words, n),
    }
}

// variables ARITIES | ROW | TABLE | CLASSES | PATTERN | POSITION | PLACES
pub fn variables(to: &mut impl Write, case: &[u16], out: &mut [u16]) -> io::Result<()> {
    said(
        to,
        b"matched\n",
        b"unmatched\n",
        sparrowhem::variables(
            list_at(case, 0),
            programme_at(case, 1),
            list_at(case, 4),
            number_at(case, 5),
            out,
        ),
    )?;
    list(to, out)
}

// One text or another, or what is refused.
fn said(
    to: &mut impl Write,
    yes: &[u8],
    no: &[u8],
    answer: Result<bool, Refusal>,
) -> io::Result<()> {
    match answer {
        Err(r) => refusal(to, r),
        Ok(true) => text(to, yes),
        Ok(false) => text(to, no),
    }
}

// newer ARITIES | CORRECTED | TABLE | CLASSES | RECORD | TABLE | CLASSES | PATTERN
pub fn newer(to: &mut impl Write, case: &[u16]) -> io::Result<()> {
    newer_answer(to, case)?;
    newer_part(to, case)
}

fn newer_answer(to: &mut impl Write, case: &[u16]) -> io::Result<()> {
    newest(
        to,
        sparrowhem::newer_answer(
            list_at(case, 0),
            programme_at(case, 1),
            programme_at(case, 4),
            list_at(case, 7),
        ),
    )
}

fn newer_part(to: &mut impl Write, case: &[u16]) -> io::Result<()> {
    list(
        to,
        sparrowhem::newer(
            list_at(case, 0),
            list_at(case, 1),
            list_at(case, 2),
            list_at(case, 3),
            list_at(case, 4),
            list_at(case, 5),
            list_at(case, 6),
            list_at(case, 7),
        ),
    )
}

fn newest(to: &mut impl Write, answer: Result<Newest, Refusal>) -> io::Result<()> {
    match answer {
        Ok(Newest::Corrected(begin, end)) => pair(to, b"corrected", begin, end),
        Ok(Newest::OnRecord(begin, end)) => pair(to, b"recorded", begin, end),
        Ok(Newest::Nowhere) => text(to, b"nowhere\n"),
        Err(r) => refusal(to, r),
    }
}

// plain ARITIES | ROW | PATTERN | POSITION
pub fn plain(to: &mut impl Write, case: &[u16]) -> io::Result<()> {
    said(
        to,
        b"yes\n",
        b"no\n",
        sparrowhem::plain_match(
            list_at(case, 0),
            list_at(case, 1),
            list_at(case, 2),
            number_at(case, 3),
        ),
    )
}

// each ARITIES | ROW | PATTERN: the positions where the plain matcher says yes.
pub fn each(to: &mut impl Write, case: &[u16]) -> io::Result<()> {
    each_position(to, list_at(case, 0), list_at(case, 1), list_at(case, 2))
}

fn each_position(
    to: &mut impl Write,
    arities: &[u16],
    row: &[u16],
    pattern: &[u16],
) -> io::Result<()> {
    // Stays a loop over places: each place is asked about.
    for p in 0..row.len() {
        if let Ok(true) = sparrowhem::plain_match(arities, row, pattern, p) {
            number(to, p)?;
        }
    }
    text(to, b"\n")
}
