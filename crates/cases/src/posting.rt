// The calls on bar notation, in which post houses send rows.
use crate::calling::counted;
use script::{list, list_at};
use std::io;
use std::io::Write;

// post ARITIES | BARS | PLACES
pub fn post(to: &mut impl Write, case: &[u16], row: &mut [u16]) -> io::Result<()> {
    counted(
        to,
        b"symbols",
        sparrowhem::read_bars(list_at(case, 0), list_at(case, 1), row),
    )?;
    list(to, row)
}

// close ARITIES | ROW | PLACES
pub fn close(to: &mut impl Write, case: &[u16], bars: &mut [u16]) -> io::Result<()> {
    counted(
        to,
        b"numbers",
        sparrowhem::write_bars(list_at(case, 0), list_at(case, 1), bars),
    )?;
    list(to, bars)
}
