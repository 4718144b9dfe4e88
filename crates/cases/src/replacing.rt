// replace ARITIES | ROW | TABLE | CLASSES | EDIT | EDIT | EDIT
// The edits are made in the same buffers, one after the other, and then the buffers are printed. An edit is
// LENGTH | REPLACEMENT | POSITION | PATTERN: unless the pattern is empty, it is searched for in the row's buffer.
ghost use Rattle.std.specs.Prelude.{◌≤◌};

use crate::calling::{counted, refusal};
use rows::Programme;
use script::{copy, list, list_at, number_at, room};
use sparrowhem::Buffers;
use std::io;
use std::io::Write;

pub fn replace(to: &mut impl Write, case: &[u16]) -> io::Result<()> {
    let mut row = room();
    let r = copy(list_at(case, 1), &mut row, 0);
    let mut table = room();
    let t = copy(list_at(case, 2), &mut table, 0);
    let mut classes = room();
    let c = copy(list_at(case, 3), &mut classes, 0);
    let mut lent = Buffers {
        row: &mut row[..r],
        table: &mut table[..t],
        classes: &mut classes[..c],
    };
    replace_in(to, case, &mut lent)
}

fn replace_in(to: &mut impl Write, case: &[u16], lent: &mut Buffers) -> io::Result<()> {
    edit(to, case, 4, lent)?;
    edit(to, case, 8, lent)?;
    edit(to, case, 12, lent)?;
    list(to, lent.row)?;
    list(to, lent.table)?;
    list(to, lent.classes)
}

// The edit whose length is list number `first`, if the case has it.
fn edit(to: &mut impl Write, case: &[u16], first: usize, lent: &mut Buffers) -> io::Result<()>
    requires { first ≤ 99 }
{
    if !list_at(case, first).is_empty() {
        put(to, case, first, lent)?;
        seek(
            to,
            list_at(case, 0),
            lent.programme(),
            list_at(case, first + 3),
        )?;
    }
    Ok(())
}

// The call itself. The lists from number `first` on are its row length, replacement and position.
fn put(to: &mut impl Write, case: &[u16], first: usize, lent: &mut Buffers) -> io::Result<()>
    requires { first ≤ 99 }
{
    let answer = sparrowhem::replace(
        list_at(case, 0),
        lent,
        number_at(case, first),
        list_at(case, first + 1),
        number_at(case, first + 2),
    );
    match answer {
        Err(r) => refusal(to, r),
        Ok((length, change)) => writeln!(to, "length {length}, change {change}"),
    }
}

// A search of the row's whole buffer, with an output of ten places.
fn seek(
    to: &mut impl Write,
    arities: &[u16],
    programme: Programme,
    pattern: &[u16],
) -> io::Result<()> {
    if !pattern.is_empty() {
        let mut out = [script::UNSET; 10];
        counted(
            to,
            b"matches",
            sparrowhem::find(arities, programme, pattern, &mut out),
        )?;
        list(to, &out)?;
    }
    Ok(())
}
