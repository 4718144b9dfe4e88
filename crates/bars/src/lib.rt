// Prefix bar notation: a node's symbol, its children, then a bar that closes it. Read into a row, and written from one.
#![tactic(auto)]

ghost use Rattle.bars.specs.Calls.{ReadsBars, WritesBars};

use rows::Refusal;

mod reader;
mod rooms;
mod writer;

pub use reader::{check_read_in, copy_symbols};
pub use writer::{check_write, write_form};

// Read: the row that the bars spell at the front of `row`, later places stay; or the first refusal, which writes nothing.
pub fn read_bars(arities: &[u16], bars: &[u16], row: &mut [u16]) -> Result<usize, Refusal>
    ensures { ReadsBars arities.now bars.now row.old result row.new }
{
    reader::check_read(arities, bars, row.len())?;
    reader::copy_symbols(bars, row);
    Ok(bars.len() / 2)
}

// Write: the row's bar form at the front of `bars`, later places stay; or the first refusal, which writes nothing.
pub fn write_bars(arities: &[u16], row: &[u16], bars: &mut [u16]) -> Result<usize, Refusal>
    ensures { WritesBars arities.now row.now bars.old result bars.new }
{
    writer::check_write(arities, row, bars.len())?;
    writer::lay_form(arities, row, bars);
    Ok(2 * row.len())
}
