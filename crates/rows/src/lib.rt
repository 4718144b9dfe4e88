// The kernel: what is wrong with an alphabet, a row, a pattern or a replacement, and the checks that say so.
#![tactic(auto)]

ghost use Rattle.std.specs.Prelude.{◌≡◌, Bool, List, [], ℕ, ◌+◌, ◌-◌, ◌*◌, ◌≤◌, ◌<◌, length, get_or};
ghost use Rattle.rows.specs.Row.{verdict, is_variable, allowed, sized, reading};
ghost use Rattle.rows.specs.Reading.{ReadTo, Reads, BelowTo, SymbolsTo, children};
ghost use Rattle.rows.specs.Limits.{row_most};
ghost use Rattle.rows.specs.Programme.{alphabet_of, programme_of, room};
ghost use Rattle.rows.specs.Refusals.{arities_fit, some_leaf, alphabet, keeps, sizes, symbols, output};
ghost use Rattle.rows.specs.declared.Kept.{Kept};
ghost use Rattle.rows.specs.declared.Refusal.{Refusal};

mod pieces;

pub use pieces::Piece;

// The sizes within which everything is accepted: the most symbols of an alphabet, the largest arity, the most symbols of a row
// or a replacement, the most numbers of a pattern, the most patterns of a sheet, the most programmes of a catalogue and the most
// bytes of its file, the most numbers of a bar form.
pub const ALPHABET_MOST: usize = 1024;

pub const ARITY_MOST: u16 = 15;

pub const ROW_MOST: usize = 16384;

pub const PATTERN_MOST: usize = 256;

pub const SHEET_MOST: usize = 64;

pub const PROGRAMMES_MOST: usize = 256;

pub const FILE_MOST: usize = 65536;

pub const BARS_MOST: usize = 32768;

// The numbers with a meaning of their own: the blank S; the variable X0, how many variables there are, and how many places their
// begins and ends take; the bar of bar notation; how many places the result of one pattern of a sheet takes; what freed places hold
// in a row, in its table and in its classes.
pub const BLANK: u16 = 65535;

pub const FIRST_VARIABLE: u16 = 65280;

pub const VARIABLES: u16 = 16;

pub const PAST_VARIABLES: u16 = FIRST_VARIABLE + VARIABLES;

pub const SPAN_PLACES: usize = 32;

pub const BAR: u16 = 65534;

pub const RESULT_PLACES: usize = 3;

pub const FREED_SYMBOL: u16 = 65535;

pub const FREED_ENTRY: u16 = 0;

pub const FREED_CLASS: u16 = 0;

// What is wrong with a list that should be a tree's prefix notation: it is empty, it is too long, a number may not stand
// in it, it ends before its tree does, it goes on after its tree.
#[derive(Clone, Copy, Debug, PartialEq, Eq)]
pub enum Fault {
    Empty,
    Long(usize),
    Stray(usize),
    Early(usize),
    Extra(usize),
}

// Which leaves may stand beside the symbols of the alphabet: none, or S and the variables.
#[derive(Clone, Copy, Debug, PartialEq, Eq)]
pub enum Leaves {
    Symbols,
    Blanks,
}

// What is wrong with an alphabet: it has no symbols or too many, an arity is too large, no symbol is a leaf.
#[derive(Clone, Copy, Debug, PartialEq, Eq)]
pub enum Arities {
    Count(usize),
    Over(usize),
    NoLeaf,
}

// What is wrong with a row and what is kept beside it: its symbols, a list that is too short, an entry of the table or a class that
// is not the row's.
#[derive(Clone, Copy, Debug, PartialEq, Eq)]
pub enum Kept {
    Misread(Fault),
    Short(usize),
    Stale(usize),
    Misclassed(usize),
}

// What is wrong with the input of a program: a line, or that it has too many bytes.
#[derive(Clone, Copy, Debug, PartialEq, Eq)]
pub enum Text {
    Line(usize),
    Bytes,
}

// What is wrong with a catalogue or with its file: the file is too long, it is too short for what its head tells, there are too
// many programmes, their numbers do not rise, rows do not follow each other as the contents say, bytes are left over.
#[derive(Clone, Copy, Debug, PartialEq, Eq)]
pub enum CatalogueFault {
    Long(usize),
    Short(usize),
    Programmes(usize),
    NotRising(usize),
    Misplaced(usize),
    LeftOver(usize),
}

// What is wrong with a bar form: no node is open where a number stands, a node has fewer children than its symbol wants or one more,
// it ends before the root is closed.
#[derive(Clone, Copy, Debug, PartialEq, Eq)]
pub enum BarsFault {
    NothingOpen(usize),
    Children(usize),
    Unclosed(usize),
}

// Why a call refuses, by what is wrong; the row of a programme of a catalogue by the programme's number. The crate `refusal_numbers`
// gives the numbers and places.
#[derive(Clone, Copy, Debug, PartialEq, Eq)]
pub enum Refusal {
    Arities(Arities),
    Row(Kept),
    OnRecord(Kept),
    Pattern(Fault),
    Replacement(Fault),
    Position(usize),
    TooLong(usize),
    OutputShort(usize),
    Input(Text),
    SheetSize(usize),
    SheetSum(usize),
    Catalogue(CatalogueFault),
    Bars(BarsFault),
    Programme(u32, Fault),
}

// A row with what is kept beside it: its table and its classes.
#[derive(Clone, Copy)]
pub struct Programme<'a> {
    pub row: &'a [u16],
    pub table: &'a [u16],
    pub classes: &'a [u16],
}

impl Programme<'_> {
    // How many places the shortest of its lists has.
    pub fn room(self) -> usize
        ensures { result ≡ room (programme_of self.entry) }
    {
        self.row.len().min(self.table.len().min(self.classes.len()))
    }
}

// The largest number of a part. What counts is that none is above it. The part is looked at without a way out of it, which the
// compiler turns into vector instructions.
// Stays a loop over places: a list of pieces gives its numbers by place alone.
fn largest<E: Piece>(part: &[E]) -> u16
    ensures { (k : ℕ) → k < length (E.numbers part.now) → get_or (E.numbers part.now) k 0 ≤ result }
{
    let mut most = 0;
    for k in 0..E::count(part) {
        most = E::number_at(part, k).max(most);
    }
    most
}

// So many numbers are looked at together.
const GLANCE: usize = 64;

// How many numbers at the front are below the bound for sure: whole stretches, up to the first that has another number, or all.
// For a length that is computed the compiler makes slower code: so all stretches have the same length, and the last one reaches back.
fn count_below<E: Piece>(bound: usize, list: &[E]) -> usize
    requires { 64 ≤ length (E.numbers list.now) }
    ensures { BelowTo bound (E.numbers list.now) result }
{
    let n = E::count(list);
    let before = (n - 1) / GLANCE;
    for k in 0..before {
        let from = k * GLANCE;
        if bound <= usize::from(largest(E::part(list, from, from + GLANCE))) {
            return from;
        }
    }
    if bound <= usize::from(largest(E::part(list, n - GLANCE, n))) {
        return before * GLANCE;
    }
    n
}

// Refusal 2: the first arity over 15, sought only where there is one.
fn check_arities(arities: &[u16]) -> Result<(), Refusal>
    ensures { result ≡ arities_fit 0 arities.now }
{
    if largest(arities) <= ARITY_MOST {
        return Ok(());
    }
    for (i, &a) in arities.iter().enumerate() {
        if ARITY_MOST < a {
            return Err(Refusal::Arities(Arities::Over(i)));
        }
    }
    Ok(())
}

// Refusal 3: no symbol of arity 0.
// Stays a loop: most alphabets begin with a leaf, and `contains` looks at many symbols before it can leave.
fn check_leaf(arities: &[u16]) -> Result<(), Refusal>
    ensures { result ≡ some_leaf arities.now }
{
    for &a in arities {
        if a == 0 {
            return Ok(());
        }
    }
    Err(Refusal::Arities(Arities::NoLeaf))
}

// Refusals 1, 2 and 3.
#[tactic(auto, unfolding(crate::specs::Refusals::alphabet, crate::specs::Refusals::alphabet_size))]
pub fn check_alphabet(arities: &[u16]) -> Result<(), Refusal>
    ensures { result ≡ alphabet (alphabet_of arities.now) }
{
    let n = arities.len();
    if n < 1 {
        return Err(Refusal::Arities(Arities::Count(n)));
    }
    if ALPHABET_MOST < n {
        return Err(Refusal::Arities(Arities::Count(n)));
    }
    check_arities(arities)?;
    check_leaf(arities)
}

// The arity of a number: its place in the alphabet says, and a number that is no symbol has none.
pub fn arity_of(arities: &[u16], s: u16) -> u16
    ensures { result ≡ get_or arities.now s 0 }
{
    arities.get(usize::from(s)).copied().unwrap_or(0)
}

// Is it one of X0 to X15?
pub fn is_variable(s: u16) -> bool
    ensures { result ≡ is_variable s }
{
    (FIRST_VARIABLE..PAST_VARIABLES).contains(&s)
}

// May the number stand?
fn allows(leaves: Leaves, arities: &[u16], s: u16) -> bool
    ensures { result ≡ allowed leaves arities.now s }
{
    if usize::from(s) < arities.len() {
        return true;
    }
    match leaves {
        Leaves::Symbols => false,
        Leaves::Blanks => s == BLANK || is_variable(s),
    }
}

// The number at i, where `due` symbols are due in all: one for the root, and as many as each symbol so far has children.
fn read_at<E: Piece>(
    arities: &[u16],
    row: &[E],
    leaves: Leaves,
    i: usize,
    due: usize,
) -> Result<usize, Fault>
    requires { ReadTo arities.now (allowed leaves arities.now) (E.numbers row.now) i due × (i < length (E.numbers row.now)) × (length (E.numbers row.now) ≤ row_most) }
    ensures { Reads arities.now (allowed leaves arities.now) (E.numbers row.now) i result }
{
    if due == i {
        return Err(Fault::Extra(i));
    }
    let s = E::number_at(row, i);
    if allows(leaves, arities, s) {
        return Ok(due + usize::from(arity_of(arities, s)));
    }
    Err(Fault::Stray(i))
}

// What the end of a list of n numbers finds.
pub fn read_end(n: usize, due: usize) -> Result<(), Fault>
    requires { n ≤ due }
    ensures { (A : List ℕ) (ok : ℕ → Bool) → result ≡ verdict A ok (due - n) n [] }
{
    if due == n {
        Ok(())
    } else {
        Err(Fault::Early(n))
    }
}

// How far a list is read: up to position `at`, where `due` symbols are due in all.
#[derive(Clone, Copy)]
pub struct Reached {
    pub at: usize,
    pub due: usize,
}

// Reads on to the end, number by number.
fn read_on<E: Piece>(arities: &[u16], row: &[E], leaves: Leaves, from: Reached) -> Result<(), Fault>
    requires { ReadTo arities.now (allowed leaves arities.now) (E.numbers row.now) from.at from.due × (length (E.numbers row.now) ≤ row_most) }
    ensures { result ≡ verdict arities.now (allowed leaves arities.now) 1 0 (E.numbers row.now) }
{
    let n = E::count(row);
    let mut due = from.due;
    for i in from.at..n {
        due = read_at(arities, row, leaves, i, due)?;
    }
    read_end(n, due)
}

// The arity of the symbol at position i.
fn arity_at<E: Piece>(arities: &[u16], row: &[E], i: usize) -> usize
    requires { (i < length (E.numbers row.now)) × (get_or (E.numbers row.now) i 0 < length arities.now) }
    ensures { (result ≡ get_or arities.now (get_or (E.numbers row.now) i 0) 0) × (result ≤ 65535) }
{
    usize::from(arities[usize::from(E::number_at(row, i))])
}

// Stretches of so many symbols are read at once where as many are due: each symbol takes one, and only their children have to be counted.
const STRETCH: usize = 16;

// How many children the symbols of a part have in all.
// Stays a loop over places: a list of pieces gives its numbers by place alone.
fn add_arities<E: Piece>(arities: &[u16], part: &[E]) -> usize
    requires { (length (E.numbers part.now) ≤ row_most) × ((k : ℕ) → k < length (E.numbers part.now) → get_or (E.numbers part.now) k 0 < length arities.now) }
    ensures { (result ≡ children arities.now (E.numbers part.now) 0 (length (E.numbers part.now))) × (result ≤ 65535 * length (E.numbers part.now)) }
{
    let mut sum: usize = 0;
    for k in 0..E::count(part) {
        sum += arity_at(arities, part, k);
    }
    sum
}

// Reads the symbols up to `end`, four a turn, and stops where nothing is due any more. What is counted is how many more are due than
// are read: to compare that with a constant takes less than to compare two numbers that both grow.
// Stays a loop by index: four symbols a turn, and the place reached is the answer.
fn read_fours<E: Piece>(arities: &[u16], row: &[E], from: Reached, end: usize) -> Reached
    requires read { SymbolsTo arities.now (E.numbers row.now) from.at from.due × (length (E.numbers row.now) ≤ row_most) }
    requires below { BelowTo (length arities.now) (E.numbers row.now) end }
    ensures { SymbolsTo arities.now (E.numbers row.now) result.at result.due }
{
    let mut i = from.at;
    let mut more = from.due - from.at;
    while i + 4 <= end {
        if more == 0 {
            return Reached { at: i, due: i };
        }
        let second = more + arity_at(arities, row, i);
        if second == 1 {
            return Reached {
                at: i + 1,
                due: i + 1,
            };
        }
        let third = second + arity_at(arities, row, i + 1);
        if third == 2 {
            return Reached {
                at: i + 2,
                due: i + 2,
            };
        }
        let fourth = third + arity_at(arities, row, i + 2);
        if fourth == 3 {
            return Reached {
                at: i + 3,
                due: i + 3,
            };
        }
        more = fourth + arity_at(arities, row, i + 3) - 4;
        i += 4;
    }
    Reached {
        at: i,
        due: i + more,
    }
}

// Reads at most the n numbers at the front, which are symbols: all stretches at once that are due, else so many as are looked at
// together, by fours. Stops where nothing is due any more, and where less than a stretch is left.
// Stays a loop by index: the place reached is the answer.
fn read_symbols<E: Piece>(arities: &[u16], row: &[E], n: usize) -> Reached
    requires { BelowTo (length arities.now) (E.numbers row.now) n × (length (E.numbers row.now) ≤ row_most) }
    ensures { SymbolsTo arities.now (E.numbers row.now) result.at result.due }
{
    let mut i = 0;
    let mut due: usize = 1;
    while i + STRETCH <= n {
        let whole = (n.min(due) - i) / STRETCH * STRETCH;
        if 0 < whole {
            due += add_arities(arities, E::part(row, i, i + whole));
            i += whole;
            continue;
        }
        let far = n.min(i + GLANCE);
        let after = read_fours(arities, row, Reached { at: i, due }, far);
        if after.at < far {
            return after;
        }
        i = after.at;
        due = after.due;
    }
    Reached { at: i, due }
}

// The same as `check_row`, of a list that is looked at first: the symbols at the front are read fast, without asking of each whether
// it is one. It stays a function of its own, so that a short list is read where it is checked.
#[inline(never)]
fn check_long<E: Piece>(arities: &[u16], row: &[E], leaves: Leaves) -> Result<(), Fault>
    requires { (64 ≤ length (E.numbers row.now)) × (length (E.numbers row.now) ≤ row_most) }
    ensures { result ≡ verdict arities.now (allowed leaves arities.now) 1 0 (E.numbers row.now) }
{
    let n = count_below(arities.len(), row);
    let front = read_symbols(arities, row, n);
    read_on(arities, row, leaves, front)
}

// Is it a tree's prefix notation, with these leaves? A list of fewer numbers than are looked at together is read number by number.
#[inline(always)]
pub fn check_row<E: Piece>(arities: &[u16], row: &[E], leaves: Leaves) -> Result<(), Fault>
    requires { length (E.numbers row.now) ≤ row_most }
    ensures { result ≡ verdict arities.now (allowed leaves arities.now) 1 0 (E.numbers row.now) }
{
    if E::count(row) < GLANCE {
        return read_on(arities, row, leaves, Reached { at: 0, due: 1 });
    }
    check_long(arities, row, leaves)
}

// Refusals 7, 8 and 9: the row is one tree's.
#[tactic(auto, unfolding(crate::specs::Refusals::symbols))]
pub fn check_symbols<E: Piece>(arities: &[u16], row: &[E]) -> Result<(), Kept>
    requires { length (E.numbers row.now) ≤ row_most }
    ensures { (whose : Kept → Refusal) → keeps whose result ≡ symbols whose arities.now (E.numbers row.now) }
{
    check_row(arities, row, Leaves::Symbols).map_err(Kept::Misread)
}

// Is a length from 1 to `most`?
#[tactic(auto, unfolding(crate::specs::Row::sized))]
pub fn check_size(n: usize, most: usize) -> Result<(), Fault>
    ensures { result ≡ sized n most }
{
    if n < 1 {
        return Err(Fault::Empty);
    }
    if most < n {
        return Err(Fault::Long(n));
    }
    Ok(())
}

// A pattern or a replacement, whole: its length is from 1 to `most`, and it is a tree's prefix notation.
#[tactic(auto, unfolding(crate::specs::Row::reading))]
pub fn check_reading<E: Piece>(
    arities: &[u16],
    list: &[E],
    leaves: Leaves,
    most: usize,
) -> Result<(), Fault>
    requires { most ≤ row_most }
    ensures { result ≡ reading arities.now leaves most (E.numbers list.now) }
{
    check_size(E::count(list), most)?;
    check_row(arities, list, leaves)
}

// Refusals 4, 5 and 6, for a row of n symbols and lists with `room` places or more.
#[tactic(auto, unfolding(crate::specs::Refusals::sizes))]
pub fn check_sizes(n: usize, room: usize) -> Result<(), Kept>
    ensures { (whose : Kept → Refusal) → keeps whose result ≡ sizes whose n room }
{
    check_size(n, ROW_MOST).map_err(Kept::Misread)?;
    if room < n {
        return Err(Kept::Short(n));
    }
    Ok(())
}

// Refusal 19: n numbers have room in so many places.
#[tactic(auto, unfolding(crate::specs::Refusals::output))]
pub fn check_room(n: usize, places: usize) -> Result<(), Refusal>
    ensures { result ≡ output n places }
{
    if places < n {
        return Err(Refusal::OutputShort(n));
    }
    Ok(())
}
