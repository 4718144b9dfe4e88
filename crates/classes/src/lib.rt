// The classes of a row, filled in: that of a position is the first position whose subtree is equal to the one there.
#![tactic(auto)]

ghost use Rattle.std.specs.Prelude.{◌≡◌, List, ℕ, ◌+◌, ◌-◌, ◌≤◌, ◌<◌, ltb, length, get_or};
ghost use Rattle.rows.specs.Tree.{Forest, size};
ghost use Rattle.rows.specs.Row.{pick};
ghost use Rattle.rows.specs.Classes.{classes as classesOfRow, SameSign};
ghost use Rattle.rows.specs.Buffers.{written};
ghost use Rattle.tables.specs.Given.{Right};
ghost use Rattle.classes.specs.Shown.{Shown, Seen, Says, mixed, shelf, Bare};
ghost use Rattle.classes.specs.Lasts.{few_heads, many_heads, lasts_of, id_of, Ids, Keeps, Lasting, Again, Seeks, Finds, Drawers, Placed, Open, Rewrote, Naming, Nameable, Named, AllNamed};

use rows::Piece;

// One number mixed into another, below 2 ^ 32.
pub fn mix(h: u64, x: u16) -> u64
    requires { h < 4294967296 }
    ensures { (result ≡ mixed h x) × (result < 4294967296) }
{
    (h + u64::from(x)) * 2654435761 % 4294967296
}

// The drawer, of m, for what was mixed.
pub fn shelf_of(m: usize, h: u64) -> usize
    requires { (0 < m) × (m ≤ 16384) × (h < 4294967296) }
    ensures { (result ≡ shelf m h) × (result < m) }
{
    // Stays `as`: a product below m fits, and `try_from` would answer an error that no call can give.
    ((h + h / 32768) * 739982445 % 4294967296 * m as u64 / 4294967296) as usize
}

// The number at place i, as an index.
fn index_at<E: Piece>(list: &[E], i: usize) -> usize
    requires { i < length (E.numbers list.now) }
    ensures { result ≡ get_or (E.numbers list.now) i 0 }
{
    usize::from(E::number_at(list, i))
}

// The last place that the entry of position q stands for, where the entries are filled in so far.
fn id_at<E: Piece>(list: &[E], q: usize) -> u16
    requires { (q < length (E.numbers list.now)) × (q < 16384) }
    ensures { result ≡ id_of (E.numbers list.now) q }
{
    let v = E::number_at(list, q);
    if v < 32768 {
        return v;
    }
    // Stays `as`, here and below: the number fits, as a contract says, and `try_from` would answer an error that no call can give.
    q as u16
}

// Have positions p and q the same symbol, and children of the same last places?
fn same_last<E: Piece>(row: &[E], table: &[E], list: &[E], p: usize, q: usize) -> bool
    requires seen { Seen (E.numbers row.now) (E.numbers table.now) (E.numbers list.now) }
    requires p_lt_q { (p < q) × (q < length (E.numbers row.now)) }
    requires ids { (f : Forest) → Shown f (E.numbers row.now) (E.numbers table.now) → Ids f (E.numbers list.now) (length (E.numbers row.now)) (p + 1) }
    ensures { (f : Forest) → Shown f (E.numbers row.now) (E.numbers table.now) → Says result (SameSign f (lasts_of f) p q) }
{
    if E::number_at(row, p) != E::number_at(row, q) {
        return false;
    }
    let end = index_at(table, p);
    let mut a = p + 1;
    let mut b = q + 1;
    // Stays a loop by index: the next child begins where the table says.
    while a < end {
        if id_at(list, a) != id_at(list, b) {
            return false;
        }
        a = index_at(table, a);
        b = index_at(table, b);
    }
    true
}

// What the children of a position show: where its subtree stands again for the last time; or the sign of the position.
// Stays an enum of its own: both are answers, and neither is the lack of one or a failure.
#[derive(Clone, Copy, Debug, PartialEq, Eq)]
pub enum Sought {
    Told(usize),
    Sign(u64),
}

// Is r, behind p, the last place of the subtree at p?
fn is_again<E: Piece>(row: &[E], table: &[E], list: &[E], p: usize, r: usize) -> bool
    requires seen { Seen (E.numbers row.now) (E.numbers table.now) (E.numbers list.now) }
    requires p_lt_r { (p < r) × (r < length (E.numbers row.now)) }
    requires keeps { (f : Forest) → Shown f (E.numbers row.now) (E.numbers table.now) → Keeps f (E.numbers list.now) (p + 1) }
    ensures { (f : Forest) → Shown f (E.numbers row.now) (E.numbers table.now) → Says result (Again f p r) }
{
    if E::number_at(row, p) != E::number_at(row, r) {
        return false;
    }
    if E::number_at(list, r) < 32768 {
        return false;
    }
    same_last(row, table, list, p, r)
}

// Where the subtree at p, with no last place below it, stands again for the last time, if a last place stands below that too: a
// child of p then tells where. Else what its symbol and the last places of its children are mixed to.
fn seek<E: Piece>(row: &[E], table: &[E], list: &[E], p: usize) -> Sought
    requires seen { Seen (E.numbers row.now) (E.numbers table.now) (E.numbers list.now) }
    requires p_in_bounds { p < length (E.numbers row.now) }
    requires keeps { (f : Forest) → Shown f (E.numbers row.now) (E.numbers table.now) → Keeps f (E.numbers list.now) (p + 1) × Bare f (lasts_of f) p }
    ensures { (f : Forest) → Shown f (E.numbers row.now) (E.numbers table.now) → Seeks f p result }
{
    let end = index_at(table, p);
    let mut sign = mix(0, E::number_at(row, p));
    let mut a = p + 1;
    // Stays a loop by index: the next child begins where the table says.
    while a < end {
        let last = id_at(list, a);
        let r = usize::from(last) - (a - p);
        if is_again(row, table, list, p, r) {
            return Sought::Told(r);
        }
        sign = mix(sign, last);
        a = index_at(table, a);
    }
    Sought::Sign(sign)
}

// The last place in the chain of drawer h that has the sign of p.
// Stays parameters, here and below: three of the lists are read where the fourth is written, and two are lent apart by the callers.
fn find_last<E: Piece>(
    row: &[E],
    table: &[E],
    list: &[E],
    heads: &[u16],
    h: usize,
    p: usize,
) -> Option<usize>
    requires seen { Seen (E.numbers row.now) (E.numbers table.now) (E.numbers list.now) }
    requires p_in_bounds { (p < length (E.numbers row.now)) × (h < length heads.now) × (length heads.now ≤ 16384) }
    requires lasting { (f : Forest) → Shown f (E.numbers row.now) (E.numbers table.now) → Lasting f (E.numbers list.now) heads.now (length heads.now - 512) (p + 1) }
    ensures { (f : Forest) → Shown f (E.numbers row.now) (E.numbers table.now) → Finds f (E.numbers list.now) p (get_or heads.now h 0) result }
{
    let mut r = usize::from(heads[h]);
    // Stays a loop by index: the next of the drawer is where the list says.
    while 0 < r {
        if same_last(row, table, list, p, r) {
            return Some(r);
        }
        r = index_at(list, r) - 32768;
    }
    None
}

// The entry of p, which is bare: the last place of its subtree, if that is found in the chain of drawer h; else p is put before the
// others of that chain. The answer is the first last place from p on, where `newest` is that behind p.
fn place_in<E: Piece>(
    row: &[E],
    table: &[E],
    list: &mut [E],
    heads: &mut [u16],
    h: usize,
    p: usize,
    newest: usize,
) -> usize
    requires seen { Seen (E.numbers row.now) (E.numbers table.now) (E.numbers list.old) }
    requires p_in_bounds { (p < length (E.numbers row.now)) × (h < length heads.old) × Drawers heads.old }
    requires fact { (f : Forest) → Shown f (E.numbers row.now) (E.numbers table.now) → Open f (E.numbers list.old) heads.old (length heads.old - 512) p newest h }
    ensures placed { (f : Forest) → Shown f (E.numbers row.now) (E.numbers table.now) → Placed f (E.numbers list.new) heads.new (length heads.old - 512) p result }
    ensures rewrote { Rewrote (length (E.numbers row.now)) (E.numbers list.old) (E.numbers list.new) }
    ensures odd { E.odd list.new ≡ E.odd list.old }
{
    match find_last(row, table, list, heads, h, p) {
        Some(r) => {
            E::put_number(list, p, r as u16);
            newest
        }
        None => {
            E::put_number(list, p, 32768 + heads[h]);
            heads[h] = p as u16;
            p
        }
    }
}

// The same for a leaf, whose drawer is told by its symbol.
fn place_leaf<E: Piece>(
    row: &[E],
    table: &[E],
    list: &mut [E],
    heads: &mut [u16],
    p: usize,
    newest: usize,
) -> usize
    requires seen { Seen (E.numbers row.now) (E.numbers table.now) (E.numbers list.old) }
    requires p_in_bounds { (p < length (E.numbers row.now)) × (get_or (E.numbers table.now) p 0 < p + 2) × Drawers heads.old }
    requires placed { (f : Forest) → Shown f (E.numbers row.now) (E.numbers table.now) → Placed f (E.numbers list.old) heads.old (length heads.old - 512) (p + 1) newest }
    ensures placed_2 { (f : Forest) → Shown f (E.numbers row.now) (E.numbers table.now) → Placed f (E.numbers list.new) heads.new (length heads.old - 512) p result }
    ensures rewrote { Rewrote (length (E.numbers row.now)) (E.numbers list.old) (E.numbers list.new) }
    ensures odd { E.odd list.new ≡ E.odd list.old }
{
    let h = usize::from(E::number_at(row, p) % 512);
    place_in(row, table, list, heads, h, p, newest)
}

// The same for a position with children and no last place below it.
fn place_bare<E: Piece>(
    row: &[E],
    table: &[E],
    list: &mut [E],
    heads: &mut [u16],
    p: usize,
    newest: usize,
) -> usize
    requires seen { Seen (E.numbers row.now) (E.numbers table.now) (E.numbers list.old) }
    requires p_in_bounds { (p < length (E.numbers row.now)) × (p + 2 ≤ get_or (E.numbers table.now) p 0) × (get_or (E.numbers table.now) p 0 ≤ newest) × Drawers heads.old }
    requires placed { (f : Forest) → Shown f (E.numbers row.now) (E.numbers table.now) → Placed f (E.numbers list.old) heads.old (length heads.old - 512) (p + 1) newest }
    ensures placed_2 { (f : Forest) → Shown f (E.numbers row.now) (E.numbers table.now) → Placed f (E.numbers list.new) heads.new (length heads.old - 512) p result }
    ensures rewrote { Rewrote (length (E.numbers row.now)) (E.numbers list.old) (E.numbers list.new) }
    ensures odd { E.odd list.new ≡ E.odd list.old }
{
    match seek(row, table, list, p) {
        Sought::Told(r) => {
            E::put_number(list, p, r as u16);
            newest
        }
        Sought::Sign(sign) => {
            let h = 512 + shelf_of(heads.len() - 512, sign);
            place_in(row, table, list, heads, h, p, newest)
        }
    }
}

// The entry of p is filled in, where those behind it are. Where a last place stands below p, so is p one, and it is not looked up: what
// is equal to it is told by its children.
fn place_last<E: Piece>(
    row: &[E],
    table: &[E],
    list: &mut [E],
    heads: &mut [u16],
    p: usize,
    newest: usize,
) -> usize
    requires seen { Seen (E.numbers row.now) (E.numbers table.now) (E.numbers list.old) }
    requires p_in_bounds { (p < length (E.numbers row.now)) × Drawers heads.old }
    requires placed { (f : Forest) → Shown f (E.numbers row.now) (E.numbers table.now) → Placed f (E.numbers list.old) heads.old (length heads.old - 512) (p + 1) newest }
    ensures placed_2 { (f : Forest) → Shown f (E.numbers row.now) (E.numbers table.now) → Placed f (E.numbers list.new) heads.new (length heads.old - 512) p result }
    ensures rewrote { Rewrote (length (E.numbers row.now)) (E.numbers list.old) (E.numbers list.new) }
    ensures odd { E.odd list.new ≡ E.odd list.old }
{
    let end = index_at(table, p);
    if newest < end {
        E::put_number(list, p, 32768);
        return p;
    }
    if end < p + 2 {
        return place_leaf(row, table, list, heads, p, newest);
    }
    place_bare(row, table, list, heads, p, newest)
}

// The entries are filled in from right to left, over heads that lead nowhere yet.
fn fill_lasts<E: Piece>(row: &[E], table: &[E], list: &mut [E], heads: &mut [u16])
    requires seen { Seen (E.numbers row.now) (E.numbers table.now) (E.numbers list.old) }
    requires drawers { Drawers heads.old × ((h : ℕ) → get_or heads.old h 0 ≡ 0) }
    ensures naming { (f : Forest) → Shown f (E.numbers row.now) (E.numbers table.now) → Naming f (E.numbers list.new) 0 }
    ensures rewrote { Rewrote (length (E.numbers row.now)) (E.numbers list.old) (E.numbers list.new) }
    ensures odd { E.odd list.new ≡ E.odd list.old }
{
    let mut newest = E::count(row);
    for p in (0..E::count(row)).rev() {
        newest = place_last(row, table, list, heads, p, newest);
    }
}

// The last place of p, by its entry v.
fn last_place(v: usize, p: usize) -> usize
    ensures { result ≡ pick (ltb v 32768) v p }
{
    if v < 32768 { v } else { p }
}

// Position p gets its first place: the one noted at its last place; or p itself, which is then noted there.
fn name_at<E: Piece>(list: &mut [E], p: usize)
    requires { (f : Forest) × Nameable f (E.numbers list.old) p }
    ensures named { (f : Forest) → Nameable f (E.numbers list.old) p → Named f (E.numbers list.old) (E.numbers list.new) p }
    ensures odd { E.odd list.new ≡ E.odd list.old }
{
    let last = last_place(index_at(list, p), p);
    let noted = index_at(list, last);
    if noted < 49152 {
        E::put_number(list, last, (49152 + p) as u16);
        E::put_number(list, p, p as u16);
        return;
    }
    E::put_number(list, p, (noted - 49152) as u16);
}

// The last places of the n positions at the front become first places, from left to right.
fn name_all<E: Piece>(list: &mut [E], n: usize)
    requires naming { (f : Forest) × Naming f (E.numbers list.old) 0 × (size f ≡ n) }
    requires n_bound { (n ≤ 16384) × (n ≤ length (E.numbers list.old)) }
    ensures all_named { (f : Forest) → Naming f (E.numbers list.old) 0 → size f ≡ n → AllNamed f (E.numbers list.old) (E.numbers list.new) n }
    ensures odd { E.odd list.new ≡ E.odd list.old }
{
    for p in 0..n {
        name_at(list, p);
    }
}

// The classes of the row, whose table is right, are written to the front of the list, over heads that lead nowhere yet; later
// places stay. Row, table and list may be the bytes of numbers.
fn fill_cleared<E: Piece>(row: &[E], table: &[E], classes: &mut [E], heads: &mut [u16])
    requires by_index { (A : List ℕ) × Right A (E.numbers row.now) (E.numbers table.now) }
    requires row_in_bounds { length (E.numbers row.now) ≤ length (E.numbers classes.old) }
    requires drawers { Drawers heads.old × ((h : ℕ) → get_or heads.old h 0 ≡ 0) }
    ensures filled { (A : List ℕ) → Right A (E.numbers row.now) (E.numbers table.now) → E.numbers classes.new ≡ written (E.numbers classes.old) 0 (classesOfRow A (E.numbers row.now)) }
    ensures odd { E.odd classes.new ≡ E.odd classes.old }
{
    fill_lasts(row, table, classes, heads);
    name_all(classes, E::count(row));
}

// The same over heads that are lent, whatever they hold.
pub fn fill_over<E: Piece>(row: &[E], table: &[E], classes: &mut [E], heads: &mut [u16])
    requires by_index { (A : List ℕ) × Right A (E.numbers row.now) (E.numbers table.now) }
    requires row_in_bounds { length (E.numbers row.now) ≤ length (E.numbers classes.old) }
    requires drawers { Drawers heads.old }
    ensures filled { (A : List ℕ) → Right A (E.numbers row.now) (E.numbers table.now) → E.numbers classes.new ≡ written (E.numbers classes.old) 0 (classesOfRow A (E.numbers row.now)) }
    ensures odd { E.odd classes.new ≡ E.odd classes.old }
{
    heads.fill(0);
    fill_cleared(row, table, classes, heads);
}

// A row of at most so many symbols does with few heads.
pub const SHORT: usize = 512;

// So many heads are few, and so many are many: 5 KiB at most.
pub const FEW: usize = 576;

pub const MANY: usize = 2_560;

// How many heads a row of n symbols takes of a room with so many places.
fn heads_of(n: usize, places: usize) -> usize
    requires { few_heads ≤ places }
    ensures { (few_heads ≤ result) × (result ≤ many_heads) × (result ≤ places) }
{
    if n <= SHORT { FEW } else { places.min(MANY) }
}

// The classes of the row, whose table is right, are written to the front of the list; later places stay. The heads are taken from a
// room that is lent for them.
pub fn fill_beside(row: &[u16], table: &[u16], classes: &mut [u16], room: &mut [u16])
    requires by_index { (A : List ℕ) × Right A row.now table.now }
    requires row_in_bounds { (length row.now ≤ length classes.old) × (few_heads ≤ length room.old) }
    ensures { (A : List ℕ) → Right A row.now table.now → classes.new ≡ written classes.old 0 (classesOfRow A row.now) }
{
    let k = heads_of(row.len(), room.len());
    fill_over(row, table, classes, &mut room[..k]);
}

// The same with N heads of its own. Not inlined, so that a call that takes few of them does not pay for many.
#[inline(never)]
fn fill_in<const N: usize>(row: &[u16], table: &[u16], classes: &mut [u16])
    requires by_index { (A : List ℕ) × Right A row.now table.now }
    requires row_in_bounds { length row.now ≤ length classes.old }
    requires n_bound { (512 < N) × (N ≤ 16384) }
    ensures { (A : List ℕ) → Right A row.now table.now → classes.new ≡ written classes.old 0 (classesOfRow A row.now) }
{
    let mut heads = [0u16; N];
    fill_cleared(row, table, classes, &mut heads);
}

// The same with heads of its own, few for a short row.
pub fn fill_classes(row: &[u16], table: &[u16], classes: &mut [u16])
    requires by_index { (A : List ℕ) × Right A row.now table.now }
    requires row_in_bounds { length row.now ≤ length classes.old }
    ensures { (A : List ℕ) → Right A row.now table.now → classes.new ≡ written classes.old 0 (classesOfRow A row.now) }
{
    if row.len() <= SHORT {
        fill_in::<FEW>(row, table, classes);
    } else {
        fill_in::<MANY>(row, table, classes);
    }
}
