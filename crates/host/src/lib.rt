// The calls for C, as include/sparrowhem.h declares them. Nothing is asked of the caller but what that header
// says: a pointer leads to as many bytes as its count says, and no buffer that is written overlaps another.
#![tactic(auto)]

ghost use Rattle.rows.specs.Programme.{alphabet_of};
ghost use Rattle.wire.specs.Wire.{numbers};
ghost use Rattle.c_lent.specs.Lent.{lent, numbers_of};
ghost use Rattle.c_lent.specs.Calls.{BuiltBytes, FoundBytes, SheetBytes, ReplacedBytes};
ghost use Rattle.c_bars.specs.Calls.{BarsReadBytes, BarsWrittenBytes};
ghost use Rattle.c_catalogue.specs.Calls.{FileRead, FileWritten};

use c_catalogue::CatalogueAnswer;
use c_lent::{Answer, Lent};
use catalogue::Entry;

#[unsafe(no_mangle)]
pub extern "C" fn sparrowhem_build(
    arities: &[u8],
    row: &[u8],
    table: &mut [u8],
    classes: &mut [u8],
) -> Answer
    ensures { BuiltBytes (alphabet_of (numbers arities.now)) (lent row.now table.old classes.old) result (lent row.now table.new classes.new) }
{
    c_lent::build(arities, row, table, classes)
}

#[unsafe(no_mangle)]
pub extern "C" fn sparrowhem_find(
    arities: &[u8],
    row: &[u8],
    table: &[u8],
    classes: &[u8],
    pattern: &[u8],
    out: &mut [u8],
) -> Answer
    ensures { FoundBytes (alphabet_of (numbers arities.now)) (numbers_of (lent row.now table.now classes.now)) (numbers pattern.now) out.old result out.new }
{
    c_copied::find(
        arities,
        Lent {
            row,
            table,
            classes,
        },
        pattern,
        out,
    )
}

#[unsafe(no_mangle)]
pub extern "C" fn sparrowhem_sheet(
    arities: &[u8],
    row: &[u8],
    table: &[u8],
    classes: &[u8],
    patterns: &[u8],
    lengths: &[u8],
    positions: &mut [u8],
    results: &mut [u8],
) -> Answer
    ensures { SheetBytes (alphabet_of (numbers arities.now)) (numbers_of (lent row.now table.now classes.now)) (numbers patterns.now) (numbers lengths.now) positions.old results.old result positions.new results.new }
{
    c_sheets::sheet(
        arities,
        Lent {
            row,
            table,
            classes,
        },
        patterns,
        lengths,
        positions,
        results,
    )
}

#[unsafe(no_mangle)]
pub extern "C" fn sparrowhem_replace(
    arities: &[u8],
    row: &mut [u8],
    table: &mut [u8],
    classes: &mut [u8],
    row_length: u64,
    replacement: &[u8],
    position: u64,
) -> Answer
    ensures { ReplacedBytes (alphabet_of (numbers arities.now)) (lent row.old table.old classes.old) row_length (numbers replacement.now) position result (lent row.new table.new classes.new) }
{
    c_copied::replace(
        arities,
        row,
        table,
        classes,
        // Stays `as`, here and below: a usize has the 64 bits of a u64.
        row_length as usize,
        replacement,
        position as usize,
    )
}

#[unsafe(no_mangle)]
pub extern "C" fn sparrowhem_catalogue_read<'a, 'b>(
    file: &'a [u8],
    entries: &'b mut [Entry],
) -> CatalogueAnswer
    ensures { FileRead file.now entries.old result entries.new }
{
    CatalogueAnswer::from(catalogue_read::read_catalogue(file, entries))
}

#[unsafe(no_mangle)]
pub extern "C" fn sparrowhem_catalogue_write(
    arities: &[u8],
    programmes: &[u32],
    lengths: &[u32],
    rows: &[u8],
    file: &mut [u8],
) -> CatalogueAnswer
    ensures { FileWritten (numbers arities.now) programmes.now lengths.now (numbers rows.now) file.old result file.new }
{
    c_catalogue::write(arities, programmes, lengths, rows, file)
}

#[unsafe(no_mangle)]
pub extern "C" fn sparrowhem_bars_read(arities: &[u8], bars: &[u8], row: &mut [u8]) -> Answer
    ensures { BarsReadBytes (numbers arities.now) (numbers bars.now) row.old result row.new }
{
    c_bars::read(arities, bars, row)
}

#[unsafe(no_mangle)]
pub extern "C" fn sparrowhem_bars_write(arities: &[u8], row: &[u8], bars: &mut [u8]) -> Answer
    ensures { BarsWrittenBytes (numbers arities.now) (numbers row.now) bars.old result bars.new }
{
    c_bars::write(arities, row, bars)
}
