// The alphabet, whose bytes every call reads once, and the sizes.
ghost use Rattle.std.specs.Prelude.{◌≡◌, ◌≤◌, min, length};
ghost use Rattle.rows.specs.Limits.{alphabet_most};
ghost use Rattle.rows.specs.Programme.{alphabet_of};
ghost use Rattle.rows.specs.Refusals.{alphabet};
ghost use Rattle.wire.specs.Wire.{numbers};
ghost use Rattle.c_lent.specs.Reading.{sizes_check, Read};

use rows::{Arities, Refusal};

// Refusals 1, 2 and 3; where there is none, the arities stand at the front of `room`.
fn read_alphabet(arities: &[u8], room: &mut [u16]) -> Result<(), Refusal>
    requires { min alphabet_most (length (numbers arities.now)) ≤ length room.old }
    ensures { Read (numbers arities.now) (alphabet (alphabet_of (numbers arities.now))) result room.new }
{
    let k = wire::count(arities);
    if rows::ALPHABET_MOST < k {
        return Err(Refusal::Arities(Arities::Count(k)));
    }
    wire::decode(arities, k, room);
    rows::check_alphabet(&room[..k])
}

// Refusals 1 to 6, for a row of n numbers and buffers with `places` places or more; where there is none, the arities stand at the
// front of `room`.
pub fn read_sizes(arities: &[u8], room: &mut [u16], n: usize, places: usize) -> Result<(), Refusal>
    requires { min alphabet_most (length (numbers arities.now)) ≤ length room.old }
    ensures { Read (numbers arities.now) (sizes_check (alphabet_of (numbers arities.now)) n places) result room.new }
{
    read_alphabet(arities, room)?;
    rows::check_sizes(n, places).map_err(Refusal::Row)
}
