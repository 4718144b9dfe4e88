// The writer of a catalogue file: the checks of what is given, and the file's bytes.
#![tactic(auto)]

ghost use Rattle.std.specs.Prelude.{length};
ghost use Rattle.catalogue_write.specs.Answers.{Writes};

use given::Programmes;
use rows::Refusal;
use wire::Sent;

mod given;
mod layout;

pub use given::check_few;

// Writes the file of a catalogue: numbers, lengths, and the rows laid end to end, as numbers or their bytes. The file stands at the
// front of `file`, later bytes stay; or the first refusal, which writes nothing.
// Stays three lists: callers have them apart, and inside they are one `Programmes`.
pub fn write_catalogue<E: Sent>(
    arities: &[u16],
    numbers: &[u32],
    lengths: &[u32],
    rows: &[E],
    file: &mut [u8],
) -> Result<usize, Refusal>
    ensures { Writes arities.now numbers.now lengths.now (E.Piece.numbers rows.now) file.old result file.new }
{
    let given = Programmes {
        numbers,
        lengths,
        rows,
    };
    given::check_write(arities, given, file.len())?;
    layout::lay_out(arities, given, file);
    Ok(given::size_of(arities, numbers, E::count(rows)))
}
