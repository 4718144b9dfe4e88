// The table of a row, filled and checked.
#![tactic(auto)]

ghost use Rattle.std.specs.Prelude.{◌≡◌, true, List, ℕ, ◌+◌, ◌≤◌, ◌<◌, length, Some};
ghost use Rattle.rows.specs.Tree.{Forest, size, ends};
ghost use Rattle.rows.specs.Parse.{first, parse};
ghost use Rattle.rows.specs.Buffers.{written};
ghost use Rattle.rows.specs.Limits.{row_most};
ghost use Rattle.rows.specs.Refusals.{◌then◌, keeps, symbols, fresh};
ghost use Rattle.rows.specs.declared.Kept.{Kept};
ghost use Rattle.rows.specs.declared.Refusal.{Refusal};
ghost use Rattle.tables.specs.Given.{Sized, Fillable, Sees};
ghost use Rattle.tables.specs.Hops.{Hopping};
ghost use Rattle.tables.specs.Beside.{Stands, Places, Passed, Agrees};

use rows::{Kept, Piece};

// A row of at most so many symbols is tiny, short, fair, and of middle length.
pub const TINY: usize = 64;

pub const SHORT: usize = 512;

pub const FAIR: usize = 1_024;

pub const MIDDLE: usize = 4_096;

// The ends of an accepted row that stands from position `at` on are written from there on, from right to left. `standing`
// holds the ends of the trees that stand side by side behind p, the last tree's first: a subtree ends where the last of its
// children does, and one without children where the next tree begins.
pub fn fill_beside(arities: &[u16], row: &[u16], table: &mut [u16], at: usize, standing: &mut [u16])
    requires fillable { Fillable arities.now row.now table.old at }
    requires row_in_bounds { length row.now ≤ length standing.old }
    ensures { table.new ≡ written table.old at (ends at (parse arities.now row.now)) }
{
    let mut trees: usize = 0;
    for p in (0..row.len()).rev() {
        // Stays `as`, here and below: the number fits, as a contract says, and `try_from` would answer an error that no call can give.
        standing[trees] = (at + p + 1) as u16;
        trees -= usize::from(rows::arity_of(arities, row[p]));
        table[at + p] = standing[trees];
        trees += 1;
    }
}

// Where a subtree ends whose children, so many, begin at `begin`, the first of them ending at `next`: by hops from child to child,
// over the entries that are filled in behind it.
fn hop_over<E: Piece>(table: &[E], begin: usize, next: usize, children: usize) -> usize
    requires { (g : Forest) × Hopping (E.numbers table.now) begin next children g }
    ensures { (g : Forest) → Hopping (E.numbers table.now) begin next children g → result ≡ begin + size (first children g) }
{
    if children == 0 {
        return begin;
    }
    let mut end = next;
    for _ in 1..children {
        end = usize::from(E::number_at(table, end));
    }
    end
}

// The ends of an accepted row are written to the front of the table, from right to left, with no list beside it. Row and table may
// be the bytes of numbers.
pub fn fill_ends<E: Piece>(arities: &[u16], row: &[E], table: &mut [E])
    requires { Fillable arities.now (E.numbers row.now) (E.numbers table.old) 0 }
    ensures filled { E.numbers table.new ≡ written (E.numbers table.old) 0 (ends 0 (parse arities.now (E.numbers row.now))) }
    ensures odd { E.odd table.new ≡ E.odd table.old }
{
    let n = E::count(row);
    let mut end = n;
    for p in (0..n).rev() {
        let children = usize::from(rows::arity_of(arities, E::number_at(row, p)));
        end = hop_over(table, p + 1, end, children);
        E::put_number(table, p, end as u16);
    }
}

// A row and a table that are compared, within the sizes.
#[derive(Clone, Copy)]
struct Compared<'a> {
    arities: &'a [u16],
    row: &'a [u16],
    table: &'a [u16],
    ghost sized: { Sized row.now table.now },
}

// `standing` has room for the row's ends. It holds those of the trees that stand side by side behind a place, the last tree's first.
impl Compared<'_> {
    // The symbol at p, where `trees` stand side by side behind p: it takes as many of them as it has children, and its subtree ends
    // where the last of them does. Answers how many trees stand from p on, and that end; `None` where the row is no tree's.
    fn stand_at(self, standing: &mut [u16], p: usize, trees: usize) -> Option<(usize, u16)>
        requires p_in_bounds { (length self.row.now ≤ length standing.old) × (p < length self.row.now) }
        requires stands { Stands self.arities.now self.row.now standing.old trees (p + 1) }
        ensures { Places self.entry.arities.now self.entry.row.now p standing.new result }
    {
        standing[trees] = (p + 1) as u16;
        let s = usize::from(self.row[p]);
        if self.arities.len() <= s {
            return None;
        }
        let a = usize::from(self.arities[s]);
        if trees < a {
            return None;
        }
        Some((trees - a + 1, standing[trees - a]))
    }

    // The symbol at p and its entry, where `trees` stand side by side behind p. The ends come from the row alone, so that a wrong
    // entry leads nowhere. Answers how many trees stand from p on; `None` where the row is no tree's or the entry is not the row's.
    fn agree_at(self, standing: &mut [u16], p: usize, trees: usize) -> Option<usize>
        requires p_in_bounds { (length self.row.now ≤ length standing.old) × (p < length self.row.now) }
        requires passed { Passed self.arities.now self.row.now self.table.now standing.old trees (length self.row.now) (p + 1) }
        ensures { Agrees self.entry.arities.now self.entry.row.now self.entry.table.now p standing.new result }
    {
        let (more, end) = self.stand_at(standing, p, trees)?;
        if self.table[p] == end {
            return Some(more);
        }
        None
    }

    // The same from right to left, for the whole row.
    // Stays a loop by index: two symbols a turn, so that what a turn costs by itself is paid half as often.
    fn agree(self, standing: &mut [u16]) -> Option<usize>
        requires { length self.row.now ≤ length standing.old }
        ensures { Agrees self.entry.arities.now self.entry.row.now self.entry.table.now 0 standing.new result }
    {
        let mut trees: usize = 0;
        let mut p = self.row.len();
        while 1 < p {
            let between = self.agree_at(standing, p - 1, trees)?;
            let more = self.agree_at(standing, p - 2, between)?;
            trees = more;
            p -= 2;
        }
        if p == 1 {
            return self.agree_at(standing, 0, trees);
        }
        Some(trees)
    }

    // Is all right: is the row one tree's, and is each entry the row's? Only a yes says something.
    fn is_right(self, standing: &mut [u16]) -> bool
        requires { length self.row.now ≤ length standing.old }
        ensures { result ≡ true → Sees self.entry.arities.now self.entry.row.now self.entry.table.now (Some (length self.entry.row.now)) }
    {
        self.agree(standing) == Some(1)
    }

    // From right to left, whatever the entries say, down to the first that is not the row's. Answers its place, the row's length where
    // there is none; `None` where the row is no tree's.
    fn find_stale(self, standing: &mut [u16]) -> Option<usize>
        requires { length self.row.now ≤ length standing.old }
        ensures { Sees self.entry.arities.now self.entry.row.now self.entry.table.now result }
    {
        let mut trees: usize = 0;
        let mut stale = self.row.len();
        for p in (0..self.row.len()).rev() {
            let (more, end) = self.stand_at(standing, p, trees)?;
            if self.table[p] != end {
                stale = p;
            }
            trees = more;
        }
        if trees == 1 { Some(stale) } else { None }
    }

    // Nearly always all is right, and that is known sooner than what is wrong. Inlined where the room is, so that the compiler keeps the
    // lists in registers: a symbol takes a third less time.
    #[inline(always)]
    fn compare(self, standing: &mut [u16]) -> Option<usize>
        requires { length self.row.now ≤ length standing.old }
        ensures { Sees self.entry.arities.now self.entry.row.now self.entry.table.now result }
    {
        if self.is_right(standing) {
            return Some(self.row.len());
        }
        self.find_stale(standing)
    }

    // The same, with room for a row of N symbols. Not inlined, so that a call with a short row does not pay for a large room.
    #[inline(never)]
    fn compare_in<const N: usize>(&self) -> Option<usize>
        requires { (length self.now.row.now ≤ N) × (N < 65536) }
        ensures { Sees self.now.arities.now self.now.row.now self.now.table.now result }
    {
        let mut standing = [0u16; N];
        self.compare(&mut standing)
    }

    // The same. A shorter row takes less room, and a smaller room is sooner cleared.
    fn compare_ends(&self) -> Option<usize>
        ensures { Sees self.now.arities.now self.now.row.now self.now.table.now result }
    {
        let n = self.row.len();
        // Stays a choice among sizes: a const argument can't be computed, and the memory is fixed.
        if n <= TINY {
            self.compare_in::<TINY>()
        } else if n <= SHORT {
            self.compare_in::<SHORT>()
        } else if n <= FAIR {
            self.compare_in::<FAIR>()
        } else if n <= MIDDLE {
            self.compare_in::<MIDDLE>()
        } else {
            self.compare_in::<{ rows::ROW_MOST }>()
        }
    }
}

// What was seen of a row and a table, as refusals 7 to 10. Only where no tree was seen the row is read again, for the first fault.
fn refuse_seen(arities: &[u16], row: &[u16], seen: Option<usize>) -> Result<(), Kept>
    requires { length row.now ≤ row_most }
    ensures { (t : List ℕ) → Sees arities.now row.now t seen → (whose : Kept → Refusal) → keeps whose result ≡ (symbols whose arities.now row.now then fresh whose arities.now row.now t) }
{
    match seen {
        None => rows::check_symbols(arities, row),
        Some(stale) => {
            if stale < row.len() {
                return Err(Kept::Stale(stale));
            }
            Ok(())
        }
    }
}

// Refusals 7 to 10. `standing` has room for the row's ends.
pub fn check_beside(
    arities: &[u16],
    row: &[u16],
    table: &[u16],
    standing: &mut [u16],
) -> Result<(), Kept>
    requires sized { Sized row.now table.now }
    requires row_in_bounds { length row.now ≤ length standing.old }
    ensures { (whose : Kept → Refusal) → keeps whose result ≡ (symbols whose arities.now row.now then fresh whose arities.now row.now table.now) }
{
    let compared = Compared {
        arities,
        row,
        table,
    };
    let seen = compared.compare(standing);
    refuse_seen(arities, row, seen)
}

// The same. A shorter row takes less room.
pub fn check_ends(arities: &[u16], row: &[u16], table: &[u16]) -> Result<(), Kept>
    requires { Sized row.now table.now }
    ensures { (whose : Kept → Refusal) → keeps whose result ≡ (symbols whose arities.now row.now then fresh whose arities.now row.now table.now) }
{
    let compared = Compared {
        arities,
        row,
        table,
    };
    let seen = compared.compare_ends();
    refuse_seen(arities, row, seen)
}
