// The writer of bar notation: what is refused in the row, and its bar form.
ghost use Rattle.std.specs.Prelude.{◌≡◌, ◌≤◌, ◌<◌, length};
ghost use Rattle.rows.specs.Buffers.{written};
ghost use Rattle.bars.specs.Bars.{bars_of, write_check};
ghost use Rattle.bars.specs.Given.{Writable};

use rows::{Kept, Leaves, Refusal};

// The bar form of an accepted row is written at the front of `bars`, number by number. `lacks` tells of each open node how many
// children it lacks, the root's number first.
// Stays a list that is lent, with the depth reached beside it: there is no heap, and its size is a const parameter of the caller.
pub fn write_form(arities: &[u16], row: &[u16], bars: &mut [u16], lacks: &mut [u8])
    requires { Writable arities.now row.now bars.old × (length row.now ≤ length lacks.old) }
    ensures { bars.new ≡ written bars.old 0 (bars_of arities.now row.now) }
{
    bars[0] = row[0];
    lacks[0] = crate::rooms::children_of(arities, row[0]);
    let mut depth: usize = 1;
    let mut p = 1;
    // Stays a loop over places: each number is put at its place.
    for at in 1..2 * row.len() {
        let left = lacks[depth - 1];
        if left == 0 {
            bars[at] = rows::BAR;
            depth -= 1;
            continue;
        }
        let s = row[p];
        bars[at] = s;
        lacks[depth - 1] = left - 1;
        lacks[depth] = crate::rooms::children_of(arities, s);
        depth += 1;
        p += 1;
    }
}

// The same in room for N open nodes. Not inlined, so that a short row does not pay for a large room.
#[inline(never)]
fn lay_with<const N: usize>(arities: &[u16], row: &[u16], bars: &mut [u16])
    requires writable { Writable arities.now row.now bars.old }
    requires room { length row.now ≤ N }
    requires small { N < 65536 }
    ensures { bars.new ≡ written bars.old 0 (bars_of arities.now row.now) }
{
    let mut lacks = [0u8; N];
    write_form(arities, row, bars, &mut lacks);
}

// The bar form of an accepted row is written at the front of `bars`. A shorter row takes less room.
pub fn lay_form(arities: &[u16], row: &[u16], bars: &mut [u16])
    requires { Writable arities.now row.now bars.old }
    ensures { bars.new ≡ written bars.old 0 (bars_of arities.now row.now) }
{
    // Stays a choice among sizes: a const argument can't be computed, and the memory is fixed.
    if row.len() <= crate::rooms::SHORT {
        lay_with::<{ crate::rooms::SHORT }>(arities, row, bars);
    } else if row.len() <= crate::rooms::MIDDLE {
        lay_with::<{ crate::rooms::MIDDLE }>(arities, row, bars);
    } else {
        lay_with::<{ rows::ROW_MOST }>(arities, row, bars);
    }
}

// Refusals 1 to 5, 7 to 9 and 19, for a bar form in so many places.
#[tactic(auto, unfolding(crate::specs::Bars::write_check))]
pub fn check_write(arities: &[u16], row: &[u16], places: usize) -> Result<(), Refusal>
    ensures { result ≡ write_check arities.now row.now places }
{
    rows::check_alphabet(arities)?;
    rows::check_reading(arities, row, Leaves::Symbols, rows::ROW_MOST)
        .map_err(Kept::Misread)
        .map_err(Refusal::Row)?;
    rows::check_room(2 * row.len(), places)
}
