// Replacing a subtree, in place.
ghost use Rattle.rows.specs.Programme.{alphabet_of};
ghost use Rattle.edits.specs.Buffers.{buffers_of, SameBuffers};
ghost use Rattle.sparrowhem.specs.Edit.{Replacement};

use edits::Buffers;
use rows::Refusal;

// Replace: in the row of the first `row_length` places of its buffer, with its table and its classes, the subtree at the
// position gives way to the replacement: the new length, and the change in length; or the first refusal, which writes nothing.
// All three are changed in place.
pub fn replace(
    arities: &[u16],
    lent: &mut Buffers,
    row_length: usize,
    replacement: &[u16],
    position: usize,
) -> Result<(usize, i32), Refusal>
    ensures same_buffers { SameBuffers lent.old lent.new }
    ensures replacement { Replacement (alphabet_of arities.now) (buffers_of lent.old) row_length replacement.now position result (buffers_of lent.new) }
{
    checks::check_replace(arities, lent.programme(), row_length, replacement, position)?;
    let length = edits::replace_at(arities, lent, row_length, replacement, position);
    Ok((length, edits::change(length, row_length)))
}
