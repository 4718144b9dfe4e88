// Copies of lent numbers.
ghost use Rattle.std.specs.Prelude.{◌≡◌, ◌≤◌, min, length, take, replicate};
ghost use Rattle.rows.specs.Limits.{alphabet_most, row_most};
ghost use Rattle.rows.specs.Programme.{programme, programme_of, room as places};
ghost use Rattle.wire.specs.Wire.{numbers};
ghost use Rattle.c_copied.specs.Copies.{Copied, Read};
ghost use Rattle.c_lent.specs.Lent.{lent_of, numbers_of};

use c_lent::Lent;
use rows::{Programme, Refusal};

// Rooms for a row of at most N symbols, for its table and for its classes.
#[derive(Drop)]
pub struct Copies<const N: usize> {
    pub row: [u16; N],
    pub table: [u16; N],
    pub classes: [u16; N],
}

impl<const N: usize> Copies<N> {
    // Nothing is copied yet: each place is 0.
    pub fn new() -> Self
        ensures { (result.row ≡ replicate N 0) × (result.table ≡ replicate N 0) × (result.classes ≡ replicate N 0) }
    {
        Self {
            row: [0u16; N],
            table: [0u16; N],
            classes: [0u16; N],
        }
    }

    // Copies the first n numbers of each list to the front of its room.
    pub fn copy(&mut self, lent: Lent, n: usize)
        requires { (n ≤ places (numbers_of (lent_of lent))) × (n ≤ N) }
        ensures copied { Copied (numbers_of (lent_of lent.entry)) n self.new.row self.new.table self.new.classes }
        ensures long { (N ≡ length self.new.row) × (N ≡ length self.new.table) × (N ≡ length self.new.classes) }
    {
        wire::decode(lent.row, n, &mut self.row);
        wire::decode(lent.table, n, &mut self.table);
        wire::decode(lent.classes, n, &mut self.classes);
    }

    // The first n places of each room.
    pub fn programme(&self, n: usize) -> Programme<'_>
        requires { n ≤ N }
        ensures { programme_of result ≡ programme (take n self.now.row) (take n self.now.table) (take n self.now.classes) }
    {
        Programme {
            row: &self.row[..n],
            table: &self.table[..n],
            classes: &self.classes[..n],
        }
    }
}

// Refusals 1 to 10, then 62. Where there is none, the alphabet stands at the front of `a`, and the row, its table and its classes, as far
// as the row goes, at the fronts of the copies. `room` is for what the check keeps beside them. Nothing is copied before its size is
// known to be within the limits.
pub fn read_given<const N: usize>(
    arities: &[u8],
    lent: Lent,
    a: &mut [u16],
    copies: &mut Copies<N>,
    room: &mut [u16],
) -> Result<(), Refusal>
    requires arities_in_bounds { min alphabet_most (length (numbers arities.now)) ≤ length a.old }
    requires row_in_bounds { (min row_most (length (numbers lent.row.now)) ≤ N) × (min row_most (length (numbers lent.row.now)) ≤ length room.old) }
    ensures { Read (numbers arities.now) (numbers_of (lent_of lent.entry)) result a.new copies.new.row copies.new.table copies.new.classes }
{
    let n = wire::count(lent.row);
    c_lent::read_sizes(arities, a, n, lent.room())?;
    copies.copy(lent, n);
    let k = wire::count(arities);
    checks::check_beside(&a[..k], copies.programme(n), room).map_err(Refusal::Row)
}
