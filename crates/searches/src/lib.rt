// The searches: the matches of a pattern in a row with its table and its classes, and the variables at one match. Each walks along the
// pattern, a step at a time, from a position of the row.
#![tactic(auto)]

ghost use Rattle.std.specs.Prelude.{◌≡◌, true, false, Bool, ℕ, ◌+◌, ◌-◌, ◌≤◌, ◌<◌, length, get_or, take, Ok};
ghost use Rattle.rows.specs.Limits.{variables, row_most};
ghost use Rattle.rows.specs.Programme.{Alphabet, Programme as Lent, programme_of};
ghost use Rattle.rows.specs.Buffers.{written};
ghost use Rattle.patterns.specs.Searchable.{Checked, Searchable};
ghost use Rattle.patterns.specs.Walk.{Ends, MarksIn, comes_through, mark_begin, mark_end};
ghost use Rattle.searches.specs.Searches.{AllSized, Outlined, Seekable, Walkable, Stretched, Twin, Paired, may_match, range, passing, twins, Kept, Without, NextIs, BareIs, positions_below, Lists, VariablesAt};
ghost use Rattle.searches.specs.Spans.{mark_spans};

use patterns::Leaf;
use rows::Programme;

// What is known of a pattern before its search: how many of its numbers are compared, since S at its end always fits; and how
// many symbols each of its matches has, or 0 where they can differ in that.
#[derive(Clone, Copy)]
struct Outline {
    compared: usize,
    size: usize,
}

// How many symbols each match of the pattern has: without blanks it matches its own size alone. Else 0.
// Stays a loop: `any` leaves at the first blank, so the compiler makes no vector instructions of it, and 256 numbers take six times
// as long.
fn size_of(pattern: &[u16]) -> usize
    ensures { (P : Lent) → AllSized P pattern.now result }
{
    let mut blanks = false;
    for &s in pattern {
        if rows::FIRST_VARIABLE <= s {
            blanks = true;
        }
    }
    if blanks { 0 } else { pattern.len() }
}

// The outline of a pattern.
fn outline_of(pattern: &[u16]) -> Outline
    ensures { (P : Lent) → Outlined P pattern.now result }
{
    let compared = patterns::count_compared(pattern);
    let size = size_of(pattern);
    Outline { compared, size }
}

// Can a pattern match at p? Its root stands there, over a subtree of its size. The table is read in any case, so that the
// compiler needs no branch.
fn may_match(row: &[u16], table: &[u16], root: u16, size: usize, p: usize) -> bool
    requires { Ends row.now table.now × (p < length row.now) }
    ensures { result ≡ may_match row.now table.now root size p }
{
    let end = usize::from(table[p]);
    if row[p] == root {
        if size == 0 {
            return true;
        }
        return end - p == size;
    }
    false
}

// Does the symbol stand in the part?
// Stays a loop: `contains` leaves where the symbol stands, and a long row without it takes nearly three times as long.
fn stands_in(part: &[u16], s: u16) -> bool
    ensures { result ≡ false → Without part.now s 0 (length part.now) }
{
    let mut hits = false;
    for &x in part {
        if x == s {
            hits = true;
        }
    }
    hits
}

// The positions that a search takes at once.
const STRETCH: usize = 64;

// How far the symbol does not stand in the row, from `from` on: whole stretches are passed over.
fn pass_over(row: &[u16], s: u16, from: usize) -> usize
    requires { (from ≤ length row.now) × (length row.now ≤ row_most) }
    ensures { (from ≤ result) × (result ≤ length row.now) × Without row.now s from result }
{
    let stretches = (row.len() - from) / STRETCH;
    for k in 0..stretches {
        let p = from + k * STRETCH;
        if stands_in(&row[p..p + STRETCH], s) {
            return p;
        }
    }
    from + stretches * STRETCH
}

// The positions from `from` up to `to` where the pattern can match, at the front of `places`, and their number. Each is written
// there, and counted if it stays: a branch would be foreseen wrongly too often.
fn write_candidates(
    row: &[u16],
    table: &[u16],
    root: u16,
    size: usize,
    from: usize,
    to: usize,
    places: &mut [u16; STRETCH],
) -> usize
    requires { Ends row.now table.now × Stretched from to (length row.now) × (length places.old ≡ 64) }
    ensures { (result ≤ to - from) × (length places.new ≡ 64) × (take result places.new ≡ passing (may_match row.now table.now root size) (range from (to - from))) }
{
    let mut many = 0;
    for p in from..to {
        // Stays `as`, here and below: the number fits, as a contract says, and `try_from` would answer an error that no call can give.
        places[many] = p as u16;
        if may_match(row, table, root, size, p) {
            many += 1;
        }
    }
    many
}

// Those of the places that pass the test, at the front of `out`, and their number.
fn keep<F: Fn(u16) -> bool>(places: &[u16], out: &mut [u16], passes: F) -> usize
    requires room { length places.now ≤ length out.old }
    requires asked { (i : ℕ) → i < length places.now → F.pre passes (get_or places.now i 0) }
    ensures { (test : ℕ → Bool) → ((i : ℕ) (r : Bool) → i < length places.now → F.post passes (get_or places.now i 0) r → r ≡ test (get_or places.now i 0)) → Kept test places.now out.old 0 result out.new }
{
    let mut count = 0;
    for &p in places {
        if passes(p) {
            out[count] = p;
            count += 1;
        }
    }
    count
}

// Those of the places where the pattern matches, at the front of `out`, and their number. At each a walk goes along the numbers of the
// pattern before place `compared`, since only S stand behind; as many of the first as stand there too are passed in eights. A number
// that does not fit sends the search to the next place.
fn keep_matches(
    programme: Programme,
    pattern: &[u16],
    compared: usize,
    places: &[u16],
    out: &mut [u16],
) -> usize
    requires walkable { Walkable (programme_of programme) pattern.now compared }
    requires within { (i : ℕ) → i < length places.now → get_or places.now i 0 < length programme.row.now }
    requires room { length places.now ≤ length out.old }
    ensures { Kept (comes_through programme.entry.row.now programme.entry.table.now pattern.now) places.now out.old 0 result out.new }
{
    let mut count = 0;
    'places: for &place in places {
        let p = usize::from(place);
        let mut marks = [0u16; patterns::MARKS];
        let most = compared.min(programme.row.len() - p);
        let alike = patterns::count_eights(pattern, 0, programme.row, p, most);
        let mut j = p + alike;
        for &s in &pattern[alike..compared] {
            if programme.row[j] == s {
                j += 1;
            } else {
                let Some(next) = patterns::step(programme, s, j, &mut marks) else {
                    continue 'places;
                };
                j = next;
            }
        }
        out[count] = place;
        count += 1;
    }
    count
}

// Is the pattern a root over one variable, twice?
fn is_twin(pattern: &[u16]) -> bool
    ensures { result ≡ true → Twin pattern.now }
{
    pattern.len() == 3 && pattern[2] == pattern[1] && rows::is_variable(pattern[1])
}

// Does such a pattern match at p? The classes of the two subtrees there are compared, with no walk.
fn are_twins(table: &[u16], classes: &[u16], p: u16) -> bool
    requires { Paired table.now classes.now p }
    ensures { result ≡ twins table.now classes.now p }
{
    let first = usize::from(p) + 1;
    classes[first] == classes[usize::from(table[first])]
}

// The matches from `from` up to `to`, of a pattern whose root is a symbol, at the front of `out`, and their number. Where the root
// alone is compared, each candidate is a match.
fn list_within(
    programme: Programme,
    pattern: &[u16],
    outline: Outline,
    from: usize,
    to: usize,
    out: &mut [u16],
) -> usize
    requires { Seekable (programme_of programme) pattern.now outline × Stretched from to (length programme.row.now) × (to - from ≤ length out.old) }
    ensures { Kept (comes_through programme.entry.row.now programme.entry.table.now pattern.now) (range from (to - from)) out.old 0 result out.new }
{
    let mut room = [0u16; STRETCH];
    let many = write_candidates(
        programme.row,
        programme.table,
        pattern[0],
        outline.size,
        from,
        to,
        &mut room,
    );
    let places = &room[..many];
    if outline.compared == 1 {
        out[..many].copy_from_slice(places);
        return many;
    }
    if is_twin(pattern) {
        return keep(
            places,
            out,
            |p| are_twins(programme.table, programme.classes, p),
        );
    }
    keep_matches(programme, pattern, outline.compared, places, out)
}

// Is S or a variable all of the pattern? Then it matches everywhere.
fn is_bare(pattern: &[u16]) -> bool
    requires { 0 < length pattern.now }
    ensures { BareIs pattern.now result }
{
    match patterns::leaf_of(pattern[0]) {
        Leaf::Plain => false,
        Leaf::Blank | Leaf::Variable(_) => true,
    }
}

// The first match; `None` where there is none.
pub fn first_match(programme: Programme, pattern: &[u16]) -> Option<usize>
    requires { Searchable (programme_of programme) pattern.now }
    ensures { (a : Alphabet) → Checked a (programme_of programme.entry) pattern.now → NextIs a programme.entry.row.now pattern.now 0 (length programme.entry.row.now) result }
{
    if is_bare(pattern) {
        return Some(0);
    }
    let outline = outline_of(pattern);
    let mut found = [0u16; STRETCH];
    let mut p = 0;
    // Stays a loop by index: a turn begins at the next place where the pattern can stand.
    while p < programme.row.len() {
        let from = pass_over(programme.row, pattern[0], p);
        let to = (from + STRETCH).min(programme.row.len());
        let many = list_within(programme, pattern, outline, from, to, &mut found);
        if 0 < many {
            return Some(usize::from(found[0]));
        }
        p = to;
    }
    None
}

// The first n positions, at the front of `out`.
fn write_positions(n: usize, out: &mut [u16])
    requires { (n ≤ length out.old) × (n ≤ row_most) }
    ensures { out.new ≡ written out.old 0 (positions_below n) }
{
    for i in 0..n {
        out[i] = i as u16;
    }
}

// The matches, rising, at the front of `out`, which is as long as the row or longer, and their number.
pub fn write_matches(programme: Programme, pattern: &[u16], out: &mut [u16]) -> usize
    requires { Searchable (programme_of programme) pattern.now × (length programme.row.now ≤ length out.old) }
    ensures { (a : Alphabet) → Checked a (programme_of programme.entry) pattern.now → Lists a programme.entry.row.now pattern.now out.old (Ok result) out.new }
{
    let n = programme.row.len();
    if is_bare(pattern) {
        write_positions(n, out);
        return n;
    }
    let outline = outline_of(pattern);
    let mut count = 0;
    let mut p = 0;
    // Stays a loop by index: a turn begins at the next place where the pattern can stand.
    while p < n {
        let from = pass_over(programme.row, pattern[0], p);
        let to = (from + STRETCH).min(n);
        count += list_within(programme, pattern, outline, from, to, &mut out[count..]);
        p = to;
    }
    count
}

// The matches, rising, at the front of `out` if it has room for all of them, and their number; else nothing is written, and `Err` says
// how many they are. They are gathered first, in a room for a row of N symbols, which is not inlined, so that a search that needs
// none does not pay for it.
#[inline(never)]
fn list_in<const N: usize>(
    programme: Programme,
    pattern: &[u16],
    out: &mut [u16],
) -> Result<usize, usize>
    requires { Searchable (programme_of programme) pattern.now × (length programme.row.now ≤ N) × (N < 65536) }
    ensures { (a : Alphabet) → Checked a (programme_of programme.entry) pattern.now → Lists a programme.entry.row.now pattern.now out.old result out.new }
{
    let mut room = [0u16; N];
    let count = write_matches(programme, pattern, &mut room);
    if out.len() < count {
        return Err(count);
    }
    buffers::copy_into(out, &room[..count]);
    Ok(count)
}

// The same. Only a buffer shorter than the row can be too short, and only there they are gathered first. A shorter row takes less
// room.
pub fn list_matches(programme: Programme, pattern: &[u16], out: &mut [u16]) -> Result<usize, usize>
    requires { Searchable (programme_of programme) pattern.now }
    ensures { (a : Alphabet) → Checked a (programme_of programme.entry) pattern.now → Lists a programme.entry.row.now pattern.now out.old result out.new }
{
    let n = programme.row.len();
    // Stays a choice among sizes: a const argument can't be computed, and the memory is fixed.
    if n <= out.len() {
        Ok(write_matches(programme, pattern, out))
    } else if n <= tables::SHORT {
        list_in::<{ tables::SHORT }>(programme, pattern, out)
    } else if n <= tables::FAIR {
        list_in::<{ tables::FAIR }>(programme, pattern, out)
    } else if n <= tables::MIDDLE {
        list_in::<{ tables::MIDDLE }>(programme, pattern, out)
    } else {
        list_in::<{ rows::ROW_MOST }>(programme, pattern, out)
    }
}

// Begin and end of the subtree that a mark stands for.
// Stays a choice: a mark of 0 says that the variable stands nowhere, as in specs/.
fn mark_begin(m: u16) -> u16
    ensures { result ≡ mark_begin m }
{
    if m == 0 { 0 } else { m - 1 }
}

fn mark_end(table: &[u16], m: u16) -> u16
    requires { m ≤ length table.now }
    ensures { result ≡ mark_end table.now m }
{
    if m == 0 { 0 } else { table[usize::from(m - 1)] }
}

// Begin, then end, of each variable at the front of `out`.
fn write_spans(table: &[u16], marks: [u16; patterns::MARKS], out: &mut [u16])
    requires { MarksIn (length table.now) marks × (variables + variables ≤ length out.old) }
    ensures { out.new ≡ written out.old 0 (mark_spans table.now marks variables) }
{
    for i in 0..patterns::MARKS {
        let m = marks[i];
        out[i + i] = mark_begin(m);
        out[i + i + 1] = mark_end(table, m);
    }
}

// Does the pattern match at p? If it does, the spans of its variables are written at the front of `out`; if not, `Err` says where the
// walk fails: at which place of the pattern, and at which position of the row.
pub fn variables_at(
    programme: Programme,
    pattern: &[u16],
    p: usize,
    out: &mut [u16],
) -> Result<(), (usize, usize)>
    requires { Searchable (programme_of programme) pattern.now × (p < length programme.row.now) × (variables + variables ≤ length out.old) }
    ensures { (a : Alphabet) → Checked a (programme_of programme.entry) pattern.now → VariablesAt a programme.entry.row.now pattern.now p out.old result out.new }
{
    let mut marks = [0u16; patterns::MARKS];
    let mut j = p;
    for (k, &s) in pattern.iter().enumerate() {
        if programme.row[j] == s {
            j += 1;
        } else {
            match patterns::step(programme, s, j, &mut marks) {
                Some(next) => j = next,
                None => return Err(patterns::miss_at(programme, k, s, j, &marks)),
            }
        }
    }
    write_spans(programme.table, marks, out);
    Ok(())
}
