// sheet ARITIES | ROW | TABLE | CLASSES | PATTERNS | LENGTHS | PLACES | PLACES: those of the positions, those of the results.
use crate::calling::{programme_at, refusal};
use rows::Refusal;
use script::{count, list, list_at, number, number_at, text};
use std::io;
use std::io::Write;

pub fn sheet(to: &mut impl Write, case: &[u16], results: &mut [u16]) -> io::Result<()> {
    let mut positions = [script::UNSET; 65536];
    let n = number_at(case, 6).min(65536);
    sheet_in(to, case, &mut positions[..n], results)
}

fn sheet_in(
    to: &mut impl Write,
    case: &[u16],
    positions: &mut [u16],
    results: &mut [u16],
) -> io::Result<()> {
    answered(
        to,
        sparrowhem::sheet(
            list_at(case, 0),
            programme_at(case, 1),
            list_at(case, 4),
            list_at(case, 5),
            positions,
            results,
        ),
    )?;
    list_or_end(to, positions)?;
    list_or_end(to, results)
}

fn answered(to: &mut impl Write, answer: Result<(usize, usize), Refusal>) -> io::Result<()> {
    match answer {
        Err(r) => refusal(to, r),
        Ok((patterns, n)) => {
            text(to, b"patterns")?;
            number(to, patterns)?;
            count(to, b" matches", n)
        }
    }
}

// A list; of one of a hundred or more, its last nine numbers.
fn list_or_end(to: &mut impl Write, xs: &[u16]) -> io::Result<()> {
    let n = xs.len();
    if n < 100 {
        list(to, xs)
    } else {
        list(to, &xs[n - 9..])
    }
}
