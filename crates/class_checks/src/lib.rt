// The classes of a row, checked: a right list is told by what it shows, and only for another one are the classes filled in anew.
#![tactic(auto)]

ghost use Rattle.std.specs.Prelude.{◌≡◌, List, Bool, true, ℕ, ◌+◌, ◌-◌, ◌≤◌, ◌<◌, length, get_or, set};
ghost use Rattle.rows.specs.Tree.{Forest, size};
ghost use Rattle.rows.specs.Classes.{FirstEqual, SameSign};
ghost use Rattle.rows.specs.Refusals.{keeps, differs, classed};
ghost use Rattle.rows.specs.declared.Kept.{Kept};
ghost use Rattle.rows.specs.declared.Kept.TheVariants.{Misclassed};
ghost use Rattle.rows.specs.declared.Refusal.{Refusal};
ghost use Rattle.tables.specs.Given.{Right, Sized};
ghost use Rattle.classes.specs.Shown.{Says};
ghost use Rattle.class_checks.specs.Repeats.{Grants, Shows, SeenIn, Repeat, Skips, Twin, Signs, Space, Blank, SamePart, Unseen, Entered, Reached, Rooted, Run, Along, Nexts};

use classes::{mix, shelf_of};
use rows::{Kept, Programme};

// A part of so many places or more is long.
const LONG: usize = 16;

// Are n places of the list from p on the same as those from q on?
// Stays a loop where the part is not long: the library's comparison is a call, which takes more than that.
fn same_part(list: &[u16], p: usize, q: usize, n: usize) -> bool
    requires { (p + n ≤ length list.now) × (q + n ≤ length list.now) }
    ensures { Says result (SamePart list.now p q n) }
{
    if LONG <= n {
        return list[p..p + n] == list[q..q + n];
    }
    for i in 0..n {
        if list[p + i] != list[q + i] {
            return false;
        }
    }
    true
}

// Position p is put before the others of drawer h, as one more.
// Stays two parameters, here and below: a list that is lent by itself keeps its length over a call; as fields of one value, each call
// would have to promise both lengths again.
fn put_above(heads: &mut [u16], links: &mut [u16], h: usize, p: usize)
    requires { (h < length heads.old) × (p < length links.old) × (p < 16384) }
    ensures { (heads.new ≡ set heads.old h (p + 1)) × (links.new ≡ set links.old p (get_or heads.old h 0)) }
{
    links[p] = heads[h];
    // Stays `as`, here and below: the number fits, as a contract says, and `try_from` would answer an error that no call can give.
    heads[h] = (p + 1) as u16;
}

// Has q, which names itself, the next position below it, and does that name itself too?
fn leads_on(programme: Programme, q: usize) -> bool
    requires { Rooted programme.table.now programme.classes.now q }
    ensures { Grants result ((q + 1 < get_or programme.entry.table.now q 0) × (get_or programme.entry.classes.now (q + 1) 0 ≡ q + 1)) }
{
    let next = q + 1;
    next < usize::from(programme.table[q]) && usize::from(programme.classes[next]) == next
}

// From q, which names itself, on to the last position of those that stand one below the other and name themselves.
fn run_singly(programme: Programme, q: usize) -> usize
    requires { Rooted programme.table.now programme.classes.now q }
    ensures { Run programme.entry.table.now programme.entry.classes.now q result }
{
    let mut r = q;
    // Stays a loop by index: the place reached is the answer.
    while leads_on(programme, r) {
        r += 1;
    }
    r
}

// So many places are looked at together.
const STRIDE: usize = 32;

// Holds what is asked of each of a stride of the list from place q on, and of the numbers from `first` on? All are looked at, without
// a way out between them: the compiler makes vector instructions of that.
fn all_hold<F: Fn(u16, u16) -> bool>(list: &[u16], q: usize, first: u16, holds: F) -> bool
    requires in_bounds { (q + 32 ≤ length list.now) × (first + 32 ≤ 65535) }
    requires callable { F.IsAlwaysCallable holds }
    ensures { (test : ℕ → ℕ → Bool) → ((x p : ℕ) (r : Bool) → F.post holds x p r → r ≡ test x p) → result ≡ true → (k : ℕ) → k < 32 → test (get_or list.now (q + k) 0) (first + k) ≡ true }
{
    let mut other: u16 = 0;
    for (k, &x) in list[q..q + STRIDE].iter().enumerate() {
        if !holds(x, first + k as u16) {
            other = 1;
        }
    }
    other == 0
}

// The same by whole strides, as far as those go, in a row of n symbols.
fn run_strides(programme: Programme, q: usize, n: usize) -> usize
    requires { (z : Rooted programme.table.now programme.classes.now q) × (z.length_of ≡ n) }
    ensures { Along programme.entry.table.now programme.entry.classes.now n q result }
{
    let mut r = q;
    // Stays a loop by index: the place reached is the answer.
    while r + STRIDE < n {
        let next = (r + 1) as u16;
        let deep = all_hold(programme.table, r, next, |end, p| p < end);
        if !deep || !all_hold(programme.classes, r + 1, next, |class, p| class == p) {
            return r;
        }
        r += STRIDE;
    }
    r
}

// From p, which names itself, on to the last position of those that stand one below the other and name themselves, in a row of n
// symbols. Most often the first two tell that there are no more.
fn run_from(programme: Programme, p: usize, n: usize) -> usize
    requires { (z : Rooted programme.table.now programme.classes.now p) × (z.length_of ≡ n) }
    ensures { Run programme.entry.table.now programme.entry.classes.now p result }
{
    if !leads_on(programme, p) {
        return p;
    }
    let next = p + 1;
    if !leads_on(programme, next) {
        return next;
    }
    let q = run_strides(programme, next, n);
    run_singly(programme, q)
}

// The first place where the list has another class than the right one.
fn compare_classes(right: &[u16], classes: &[u16]) -> Result<(), Kept>
    requires { length right.now ≤ length classes.now }
    ensures { (whose : Kept → Refusal) → keeps whose result ≡ differs (λ k. whose (Misclassed k)) 0 right.now classes.now }
{
    for (i, &r) in right.iter().enumerate() {
        if classes[i] != r {
            return Err(Kept::Misclassed(i));
        }
    }
    Ok(())
}

// A row within the sizes with the table of its ends, and classes proposed for it, one a position at least.
#[derive(Clone, Copy)]
struct Proposed<'a> {
    programme: Programme<'a>,
    ghost sized: { Sized programme.row.now programme.table.now },
    ghost room: { length programme.row.now ≤ length programme.classes.now },
    ghost seen: { ∥ SeenIn programme ∥₁ },
}

impl Proposed<'_> {
    // Have positions p and q the same symbol, and children of the same classes?
    fn same_sign(self, p: usize, q: usize) -> bool
        requires { (p < length self.programme.row.now) × (q < length self.programme.row.now) }
        ensures { (f : Forest) → Shows f self.entry.programme → Says result (SameSign f self.entry.programme.classes.now p q) }
    {
        if self.programme.row[p] != self.programme.row[q] {
            return false;
        }
        let end = usize::from(self.programme.table[p]);
        let mut a = p + 1;
        let mut b = q + 1;
        // Stays a loop by index: the next child begins where the table says.
        while a < end {
            if self.programme.classes[a] != self.programme.classes[b] {
                return false;
            }
            a = usize::from(self.programme.table[a]);
            b = usize::from(self.programme.table[b]);
        }
        true
    }

    // Position p names the earlier position q: does that name itself, and has it the sign of p?
    fn check_follower(self, p: usize, q: usize) -> bool
        requires { (p < length self.programme.row.now) × (q < length self.programme.row.now) }
        ensures { (f : Forest) → Shows f self.entry.programme → Says result ((get_or self.entry.programme.classes.now q 0 ≡ q) × SameSign f self.entry.programme.classes.now p q) }
    {
        if usize::from(self.programme.classes[q]) == q {
            return self.same_sign(p, q);
        }
        false
    }

    // Was the subtree at p there before, at q, with the same classes?
    fn is_repeat(self, p: usize, q: usize) -> bool
        requires { p < length self.programme.row.now }
        ensures { Says result (Repeat self.entry.programme.row.now self.entry.programme.classes.now p q (get_or self.entry.programme.table.now p 0 - p)) }
    {
        if p <= q {
            return false;
        }
        let n = usize::from(self.programme.table[p]) - p;
        same_part(self.programme.row, p, q, n) && same_part(self.programme.classes, p, q, n)
    }

    // The end of the subtree at p, if it was there before, at q, with the same classes. A leaf's end is told apart, so that going
    // on does not wait for the table.
    fn skip_at(self, p: usize, q: usize) -> Option<usize>
        requires { p < length self.programme.row.now }
        ensures { Skips self.entry.programme.row.now self.entry.programme.table.now self.entry.programme.classes.now p q result }
    {
        if p <= q {
            return None;
        }
        if self.programme.row[p] != self.programme.row[q] {
            return None;
        }
        if self.programme.classes[p] != self.programme.classes[q] {
            return None;
        }
        let end = usize::from(self.programme.table[p]);
        if end < p + 2 {
            let next = p + 1;
            return Some(next);
        }
        if self.is_repeat(p, q) {
            return Some(end);
        }
        None
    }

    // Is the sign of p unseen in the chain from `first` on?
    fn is_unseen(self, links: &[u16], first: usize, p: usize) -> bool
        requires p_in_bounds { (p < length self.programme.row.now) × (length self.programme.row.now ≤ length links.now) × (first ≤ p) }
        requires by_index { (r : ℕ) → get_or links.now r 0 ≤ r }
        ensures { (f : Forest) → Shows f self.entry.programme → Grants result (Unseen f self.entry.programme.classes.now links.now p first) }
    {
        let mut r = first;
        // Stays a loop by index: the next of the chain is where the link says.
        while 0 < r {
            if self.same_sign(p, r - 1) {
                return false;
            }
            r = usize::from(links[r - 1]);
        }
        true
    }

    // Does a position before p with the sign of p, which names itself, stand where the entry of a, below p, says?
    fn is_twin(self, p: usize, a: usize) -> bool
        requires { (p < a) × (a < length self.programme.row.now) }
        ensures { (f : Forest) → Shows f self.entry.programme → Says result (Twin f self.entry.programme.classes.now p a) }
    {
        let x = usize::from(self.programme.classes[a]);
        let d = a - p;
        if x < d {
            return false;
        }
        let r = x - d;
        if p <= r {
            return false;
        }
        if self.programme.row[p] != self.programme.row[r] {
            return false;
        }
        self.check_follower(p, r)
    }

    // The sign of p, if no twin stands where the entries of its children say.
    fn sign_of(self, p: usize) -> Option<u64>
        requires { p < length self.programme.row.now }
        ensures { (f : Forest) → Shows f self.entry.programme → Signs f self.entry.programme.classes.now p result }
    {
        let end = usize::from(self.programme.table[p]);
        let mut sign = mix(0, self.programme.row[p]);
        let mut a = p + 1;
        // Stays a loop by index: the next child begins where the table says.
        while a < end {
            if self.is_twin(p, a) {
                return None;
            }
            sign = mix(sign, self.programme.classes[a]);
            a = usize::from(self.programme.table[a]);
        }
        Some(sign)
    }

    // Position p names itself: is its sign new to the bare positions before it, and to its twins? Then it is put into its chain.
    fn enter_bare(self, heads: &mut [u16], links: &mut [u16], p: usize) -> bool
        requires p_in_bounds { (p < length self.programme.row.now) × Space heads.old links.old (length self.programme.row.now) }
        requires entered { (f : Forest) → Shows f self.programme → Entered f self.programme.classes.now heads.old links.old (length heads.old) p }
        ensures { (f : Forest) → Shows f self.entry.programme → Grants result (Entered f self.entry.programme.classes.now heads.new links.new (length heads.old) (p + 1)) }
    {
        let Some(sign) = self.sign_of(p) else {
            return false;
        };
        let h = shelf_of(heads.len(), sign);
        let first = usize::from(heads[h]);
        if self.is_unseen(links, first, p) {
            put_above(heads, links, h, p);
            return true;
        }
        false
    }

    // The next bare position, from `last` on, which names itself, and the next behind it that does, or the row's end. Subtrees that
    // were there before are skipped; `None` where one names a position that it does not repeat.
    fn next_bare(self, last: usize) -> Option<(usize, usize)>
        requires last_in_bounds { last < length self.programme.row.now }
        requires reached { (f : Forest) → Shows f self.programme → Reached f self.programme.classes.now last (last + 1) }
        ensures { (f : Forest) → Shows f self.entry.programme → Nexts f self.entry.programme.classes.now (length self.entry.programme.row.now) last result }
    {
        let n = self.programme.row.len();
        let mut leader = run_from(self.programme, last, n);
        let mut at = leader + 1;
        // Stays a loop by index: a turn goes on behind a whole subtree or a whole run.
        while at < n {
            let q = usize::from(self.programme.classes[at]);
            if q == at {
                if usize::from(self.programme.table[leader]) <= at {
                    return Some((leader, at));
                }
                leader = at;
                at += 1;
                continue;
            }
            at = self.skip_at(at, q)?;
        }
        Some((leader, at))
    }

    // From left to right, over heads and links that lead nowhere yet. Is each entry the first place of its subtree? Not inlined, so
    // that the compiler keeps all that the scan looks at in registers; for that too what is proposed is lent, and not copied.
    #[inline(never)]
    fn scan_leaders(&self, heads: &mut [u16], links: &mut [u16]) -> bool
        requires { Space heads.old links.old (length self.now.programme.row.now) × Blank heads.old × Blank links.old }
        ensures { (f : Forest) → Shows f self.now.programme → Grants result ((p : ℕ) → p < size f → FirstEqual f p (get_or self.now.programme.classes.now p 0)) }
    {
        let n = self.programme.row.len();
        if n == 0 {
            return false;
        }
        if self.programme.classes[0] != 0 {
            return false;
        }
        let mut last: usize = 0;
        loop {
            let Some((bare, at)) = self.next_bare(last) else {
                return false;
            };
            if !self.enter_bare(heads, links, bare) {
                return false;
            }
            if n <= at {
                return true;
            }
            last = at;
        }
    }

    // Refusal 62, over heads and links that lead nowhere yet. Only where the scan does not say that all is right are the classes
    // filled in, over the links.
    // Stays a clause, here and below, that there are arities for which the table is right: the call that fills in the classes asks for
    // them, and a ghost field holds a fact that has one proof at most, while many lists of arities fit one row.
    fn check_over(&self, heads: &mut [u16], links: &mut [u16]) -> Result<(), Kept>
        requires by_index { (A : List ℕ) × Right A self.now.programme.row.now self.now.programme.table.now }
        requires space { Space heads.old links.old (length self.now.programme.row.now) × Blank heads.old × Blank links.old }
        ensures { (A : List ℕ) → Right A self.now.programme.row.now self.now.programme.table.now → (whose : Kept → Refusal) → keeps whose result ≡ classed whose A self.now.programme.row.now self.now.programme.classes.now }
    {
        if self.scan_leaders(heads, links) {
            return Ok(());
        }
        classes::fill_classes(self.programme.row, self.programme.table, links);
        compare_classes(&links[..self.programme.row.len()], self.programme.classes)
    }

    // The same over N heads of its own and links that are lent. Not inlined, so that no call with a short row has many heads on its
    // stack.
    #[inline(never)]
    fn check_lent<const N: usize>(&self, links: &mut [u16]) -> Result<(), Kept>
        requires by_index { (A : List ℕ) × Right A self.now.programme.row.now self.now.programme.table.now }
        requires row_in_bounds { length self.now.programme.row.now ≤ length links.old }
        requires n_bound { (0 < N) × (N ≤ 16384) }
        ensures { (A : List ℕ) → Right A self.now.programme.row.now self.now.programme.table.now → (whose : Kept → Refusal) → keeps whose result ≡ classed whose A self.now.programme.row.now self.now.programme.classes.now }
    {
        links.fill(0);
        let mut heads = [0u16; N];
        self.check_over(&mut heads, links)
    }

    // The same for a row of N symbols at most, with as many links of its own.
    #[inline(never)]
    fn check_in<const N: usize>(&self) -> Result<(), Kept>
        requires by_index { (A : List ℕ) × Right A self.now.programme.row.now self.now.programme.table.now }
        requires row_in_bounds { length self.now.programme.row.now ≤ N }
        requires n_bound { (0 < N) × (N ≤ 16384) }
        ensures { (A : List ℕ) → Right A self.now.programme.row.now self.now.programme.table.now → (whose : Kept → Refusal) → keeps whose result ≡ classed whose A self.now.programme.row.now self.now.programme.classes.now }
    {
        let mut heads = [0u16; N];
        let mut links = [0u16; N];
        self.check_over(&mut heads, &mut links)
    }
}

// Refusal 62: each class is the row's. The row's table is right. What is cleared is about as long as the row.
#[tactic(auto, using(crate::proofs::Refuse::row_sized, crate::proofs::Refuse::row_seen))]
pub fn check_classes(programme: Programme) -> Result<(), Kept>
    requires by_index { (A : List ℕ) × Right A programme.row.now programme.table.now }
    requires row_in_bounds { length programme.row.now ≤ length programme.classes.now }
    ensures { (A : List ℕ) → Right A programme.entry.row.now programme.entry.table.now → (whose : Kept → Refusal) → keeps whose result ≡ classed whose A programme.entry.row.now programme.entry.classes.now }
{
    let n = programme.row.len();
    let proposed = Proposed { programme };
    // Stays a choice among sizes: a const argument can't be computed, and the memory is fixed.
    if n <= tables::TINY {
        proposed.check_in::<{ tables::TINY }>()
    } else if n <= tables::SHORT {
        proposed.check_in::<{ tables::SHORT }>()
    } else if n <= tables::FAIR {
        proposed.check_in::<{ tables::FAIR }>()
    } else if n <= tables::MIDDLE {
        proposed.check_in::<{ tables::MIDDLE }>()
    } else {
        proposed.check_in::<{ rows::ROW_MOST }>()
    }
}

// Refusal 62. The links are put into a room that is lent, which is as long as the row at least.
#[tactic(auto, using(crate::proofs::Refuse::row_sized, crate::proofs::Refuse::row_seen))]
pub fn check_beside(programme: Programme, room: &mut [u16]) -> Result<(), Kept>
    requires by_index { (A : List ℕ) × Right A programme.row.now programme.table.now }
    requires row_in_bounds { (length programme.row.now ≤ length programme.classes.now) × (length programme.row.now ≤ length room.old) }
    ensures { (A : List ℕ) → Right A programme.entry.row.now programme.entry.table.now → (whose : Kept → Refusal) → keeps whose result ≡ classed whose A programme.entry.row.now programme.entry.classes.now }
{
    let n = programme.row.len();
    let proposed = Proposed { programme };
    let links = &mut room[..n];
    // Stays a choice among sizes: a const argument can't be computed, and the memory is fixed.
    if n <= tables::SHORT {
        proposed.check_lent::<{ tables::SHORT }>(links)
    } else if n <= tables::FAIR {
        proposed.check_lent::<{ tables::FAIR }>(links)
    } else if n <= tables::MIDDLE {
        proposed.check_lent::<{ tables::MIDDLE }>(links)
    } else {
        proposed.check_lent::<{ rows::ROW_MOST }>(links)
    }
}
