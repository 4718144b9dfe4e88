// A row, its table and its classes with one subtree replaced, all in place; refusals 17 and 18; the change in length.
#![tactic(auto)]

ghost use Rattle.std.specs.Prelude.{◌≡◌, List, map, ℕ, ◌+◌, ◌-◌, ◌≤◌, ◌<◌, length, take, drop, get_or, pos, ◌-ℤ◌};
ghost use Rattle.rows.specs.Limits.{row_most, freed_symbol, freed_entry, freed_class};
ghost use Rattle.rows.specs.Tree.{ends};
ghost use Rattle.rows.specs.Programme.{programme_of};
ghost use Rattle.rows.specs.Parse.{parse};
ghost use Rattle.rows.specs.Classes.{classes as classesOfRow};
ghost use Rattle.rows.specs.Reading.{Accepted};
ghost use Rattle.rows.specs.Refusals.{◌then◌, position, grown};
ghost use Rattle.rows.specs.Buffers.{written};
ghost use Rattle.tables.specs.Given.{Right};
ghost use Rattle.classes.specs.Lasts.{few_heads};
ghost use Rattle.buffers.specs.Shift.{shifted, spliced};
ghost use Rattle.buffers.specs.Renewed.{renewed};
ghost use Rattle.edits.specs.Moved.{moved, spliced_ends};
ghost use Rattle.edits.specs.Given.{Room, Movable};
ghost use Rattle.edits.specs.Buffers.{buffers_of, SameBuffers};
ghost use Rattle.edits.specs.Replace.{Replaceable, Replacing, Changeable, Changing};

use rows::{Programme, Refusal};

// In a list of n numbers at the front of its buffer the part from p to e gives way to one that ends at `to`.
// Stays a buffer with its length n beside it: the memory is the caller's, and fixed.
#[derive(Clone, Copy, Debug, PartialEq, Eq)]
struct Gap {
    n: usize,
    p: usize,
    e: usize,
    to: usize,
}

impl Gap {
    // How many numbers stand behind the part.
    fn rest(self) -> usize
        requires { self.e ≤ self.n }
        ensures { result ≡ self.n - self.e }
    {
        self.n - self.e
    }

    // How many numbers the list has then.
    fn length(self) -> usize
        requires { (self.e ≤ self.n) × (self.to + (self.n - self.e) ≤ row_most) }
        ensures { result ≡ self.to + (self.n - self.e) }
    {
        self.to + self.rest()
    }
}

// Where a subtree that ended at x ends, once one that ended at e ends at `to`.
fn moved_end(x: u16, e: u16, to: u16) -> u16
    requires { moved e to x < 65536 }
    ensures { result ≡ moved e to x }
{
    if x < e { x } else { x - e + to }
}

// The ends of the subtrees that hold the one at p move as its end moves from e to `to`. Each entry before p is written, also
// one that stays: the compiler makes one pass of that, which takes many entries at a time.
fn move_holders(table: &mut [u16], p: usize, e: u16, to: u16)
    requires { (n : ℕ) × Movable table.old n p e to }
    ensures { table.new ≡ written table.old 0 (map (moved e to) (take p table.old)) }
{
    for x in &mut table[..p] {
        *x = moved_end(*x, e, to);
    }
}

// The entries of the subtrees that hold the one that gives way, and those of the tail behind it, which is moved too. Nothing changes
// where the new subtree ends where the old one does.
fn move_ends(table: &mut [u16], gap: Gap)
    requires { Movable table.old gap.n gap.p gap.e gap.to }
    ensures { table.new ≡ written (written table.old 0 (map (moved gap.e gap.to) (take gap.p table.old))) gap.to (map (shifted gap.e gap.to) (take (gap.n - gap.e) (drop gap.e table.old))) }
{
    if gap.e == gap.to {
        return;
    }
    // Stays `as`, here and below: the number fits, as a contract says, and `try_from` would answer an error that no call can give.
    let e = gap.e as u16;
    let to = gap.to as u16;
    move_holders(table, gap.p, e, to);
    buffers::move_part(table, gap.e, gap.to, gap.rest());
    buffers::shift(table, gap.to, gap.rest(), e, to);
}

// In the row at the front of the buffer a part gives way to `v`; freed places are marked so.
fn replace_symbols(row: &mut [u16], gap: Gap, v: &[u16])
    requires { Room gap.n gap.p gap.e gap.to (length row.old) × (gap.to ≡ gap.p + length v.now) }
    ensures { row.new ≡ renewed row.old gap.n freed_symbol (spliced (take gap.n row.old) gap.p gap.e v.now) }
{
    buffers::move_part(row, gap.e, gap.to, gap.rest());
    buffers::copy_into(&mut row[gap.p..], v);
    buffers::fill(row, gap.length(), gap.n, rows::FREED_SYMBOL);
}

// In the table at the front of the buffer the entries of a subtree give way to those of the row `v`, and the others move; freed
// places are marked so. `standing` has room for the ends of `v`.
fn replace_ends(arities: &[u16], table: &mut [u16], gap: Gap, v: &[u16], standing: &mut [u16])
    requires movable { Movable table.old gap.n gap.p gap.e gap.to × (gap.to ≡ gap.p + length v.now) × (length v.now ≤ length standing.old) }
    requires accepted { Accepted arities.now v.now }
    ensures { table.new ≡ renewed table.old gap.n freed_entry (spliced_ends (take gap.n table.old) gap.p gap.e gap.to (ends gap.p (parse arities.now v.now))) }
{
    move_ends(table, gap);
    tables::fill_beside(arities, v, table, gap.p, standing);
    buffers::fill(table, gap.length(), gap.n, rows::FREED_ENTRY);
}

// In the row of n symbols at the front of its buffer, with its table, the subtree at p gives way to the row `v`. The answer
// is the new length. `standing` has room for the ends of `v`.
fn replace_subtree(
    arities: &[u16],
    row: &mut [u16],
    table: &mut [u16],
    n: usize,
    v: &[u16],
    p: usize,
    standing: &mut [u16],
) -> usize
    requires { Replaceable arities.now row.old table.old n v.now p × (length v.now ≤ length standing.old) }
    ensures { Replacing arities.now row.old table.old n v.now p row.new table.new result }
{
    let e = usize::from(table[p]);
    let to = p + v.len();
    let gap = Gap { n, p, e, to };
    replace_symbols(row, gap, v);
    replace_ends(arities, table, gap, v, standing);
    gap.length()
}

// The classes of the row of m symbols at the front of its buffer, with its table, in a list of which n places were in use;
// freed places are marked so. Any class may change, also far from the place of a replacement, and so all are filled anew. `room` is
// for the heads.
// Stays three lists: row and table are read where the classes are written.
fn renew_classes(
    row: &[u16],
    table: &[u16],
    classes: &mut [u16],
    n: usize,
    m: usize,
    room: &mut [u16],
)
    requires { ((A : List ℕ) × Right A (take m row.now) table.now) × (m ≤ length row.now) × (m ≤ length classes.old) × (n ≤ length classes.old) × (few_heads ≤ length room.old) }
    ensures { (A : List ℕ) → Right A (take m row.now) table.now → classes.new ≡ renewed classes.old n freed_class (classesOfRow A (take m row.now)) }
{
    classes::fill_beside(&row[..m], table, classes, room);
    buffers::fill(classes, m, n, rows::FREED_CLASS);
}

// A row, or the buffer that begins with it, its table and its classes, lent to be changed in place.
#[derive(Drop)]
pub struct Buffers<'a> {
    pub row: &'a mut [u16],
    pub table: &'a mut [u16],
    pub classes: &'a mut [u16],
}

impl Buffers<'_> {
    // What they hold, to be read.
    pub fn programme(&self) -> Programme<'_>
        ensures { programme_of result ≡ buffers_of self.now }
    {
        Programme {
            row: self.row,
            table: self.table,
            classes: self.classes,
        }
    }
}

// In the row of n symbols at the front of its buffer, with its table and its classes, the subtree at p gives way to the row
// `v`. The answer is the new length. `room` is for the ends of `v`, and then for the heads of the classes.
pub fn replace_beside(
    arities: &[u16],
    lent: &mut Buffers,
    n: usize,
    v: &[u16],
    p: usize,
    room: &mut [u16],
) -> usize
    requires { Changeable arities.now (buffers_of lent.old) n v.now p × (length v.now ≤ length room.old) × (few_heads ≤ length room.old) }
    ensures same_buffers { SameBuffers lent.old lent.new }
    ensures changing { Changing arities.now (buffers_of lent.old) n v.now p (buffers_of lent.new) result }
{
    let row = &mut *lent.row;
    let table = &mut *lent.table;
    let classes = &mut *lent.classes;
    let m = replace_subtree(arities, row, table, n, v, p, room);
    renew_classes(row, table, classes, n, m, room);
    m
}

// The same, with a room of N places. It stays a function of its own, so that a small replacement has no large room on its stack.
#[inline(never)]
fn replace_in<const N: usize>(
    arities: &[u16],
    lent: &mut Buffers,
    n: usize,
    v: &[u16],
    p: usize,
) -> usize
    requires changeable { Changeable arities.now (buffers_of lent.old) n v.now p }
    requires room { (length v.now ≤ N) × (few_heads ≤ N) × (N < 65536) }
    ensures same_buffers { SameBuffers lent.old lent.new }
    ensures changing { Changing arities.now (buffers_of lent.old) n v.now p (buffers_of lent.new) result }
{
    let mut room = [0u16; N];
    replace_beside(arities, lent, n, v, p, &mut room)
}

// The same. A shorter replacement takes less room.
pub fn replace_at(arities: &[u16], lent: &mut Buffers, n: usize, v: &[u16], p: usize) -> usize
    requires { Changeable arities.now (buffers_of lent.old) n v.now p × (length v.now ≤ row_most) }
    ensures same_buffers { SameBuffers lent.old lent.new }
    ensures changing { Changing arities.now (buffers_of lent.old) n v.now p (buffers_of lent.new) result }
{
    // Stays a choice among sizes: a const argument can't be computed, and the memory is fixed.
    if n + v.len() <= classes::SHORT {
        replace_in::<{ classes::FEW }>(arities, lent, n, v, p)
    } else if v.len() <= classes::MANY {
        replace_in::<{ classes::MANY }>(arities, lent, n, v, p)
    } else if v.len() <= tables::MIDDLE {
        replace_in::<{ tables::MIDDLE }>(arities, lent, n, v, p)
    } else {
        replace_in::<{ rows::ROW_MOST }>(arities, lent, n, v, p)
    }
}

// Refusals 17 and 18, for a subtree of `size` symbols at position p of a row of n symbols with its table, where the shortest
// buffer has `room` places.
pub fn check_place(
    table: &[u16],
    room: usize,
    n: usize,
    size: usize,
    p: usize,
) -> Result<(), Refusal>
    requires { (n ≤ row_most) × (size ≤ row_most) × (n ≤ length table.now) × (p < n → get_or table.now p 0 ≤ n) }
    ensures { result ≡ (position n p then grown (p + size + (n - get_or table.now p 0)) room) }
{
    if n <= p {
        return Err(Refusal::Position(p));
    }
    let new = p + size + (n - usize::from(table[p]));
    if rows::ROW_MOST.min(room) < new {
        return Err(Refusal::TooLong(new));
    }
    Ok(())
}

// How much longer the new row is than the old one.
pub fn change(new: usize, old: usize) -> i32
    requires { (new ≤ row_most) × (old ≤ row_most) }
    ensures { result ≡ pos new -ℤ pos old }
{
    // Stays `as`: the number fits, as a contract says, and `try_from` would answer an error that no call can give.
    new as i32 - old as i32
}
