// The plain matcher: yes, or where not, without a table. A node asks about its row of children, and the row of children asks
// about each node, on a shorter and shorter part of the row. The end of a subtree is found by counting, and only where something
// behind it is compared.
#![tactic(auto)]

ghost use Rattle.std.specs.Prelude.{◌≡◌, ◌+◌, ◌≤◌, ◌<◌, length, get_or};
ghost use Rattle.rows.specs.Limits.{row_most, pattern_most, variables};
ghost use Rattle.rows.specs.Programme.{alphabet_of};
ghost use Rattle.rows.specs.Tree.{size};
ghost use Rattle.rows.specs.Parse.{first, parse};
ghost use Rattle.rows.specs.Row.{symbol};
ghost use Rattle.patterns.specs.Pattern.{leaf};
ghost use Rattle.patterns.specs.declared.Leaf.TheVariants.{Plain};
ghost use Rattle.plain.specs.Plain.{Spells, Counting, BlankFrom, Ahead, Lent, Meets, Tells, Tryable, TriesRight};

use patterns::Leaf;

// How many symbols of the first tree are due in all once that at i is counted: as many more as it has children.
fn due_after(arities: &[u16], rest: &[u16], i: usize, due: usize) -> usize
    requires { (length rest.now ≤ row_most) × Counting arities.now rest.now i due × (i < due) }
    ensures { Counting arities.now rest.now (i + 1) result }
{
    due + usize::from(arities[usize::from(rest[i])])
}

// How many symbols the first tree of the rest of a row takes, counting those that are due: one for the root, and as many as
// each symbol so far has children.
// Stays a loop by index: four symbols are counted a turn, which takes less than half the time.
fn tree_length(arities: &[u16], rest: &[u16]) -> usize
    requires { (length rest.now ≤ row_most) × Spells arities.now (symbol arities.now) 1 rest.now }
    ensures { result ≡ size (first 1 (parse arities.now rest.now)) }
{
    let mut due: usize = 1;
    let mut i = 0;
    while i < due {
        let second = due_after(arities, rest, i, due);
        if second == i + 1 {
            return i + 1;
        }
        let third = due_after(arities, rest, i + 1, second);
        if third == i + 2 {
            return i + 2;
        }
        let fourth = due_after(arities, rest, i + 2, third);
        if fourth == i + 3 {
            return i + 3;
        }
        due = due_after(arities, rest, i + 3, fourth);
        i += 4;
    }
    i
}

// What trees of the pattern find in the row: how many numbers of the pattern and how many symbols of the row they take; that
// the whole pattern fits, since only S stand behind; or the place of the pattern and the place of the part where they do not fit.
#[derive(Clone, Copy, Debug, PartialEq, Eq)]
pub enum Tried {
    Past(usize, usize),
    Through,
    Miss(usize, usize),
}

// The variables that were met: of each one more than the place in the part where its first tree stands, 0 before it is met; and how
// many symbols that tree has.
#[derive(Drop)]
struct Met {
    marks: [u16; patterns::MARKS],
    lengths: [u16; patterns::MARKS],
}

// What stays the same while a pattern is tried: the alphabet, the part of the row, and the place of the pattern from which on only S
// stand.
#[derive(Clone, Copy)]
struct Trial<'a> {
    arities: &'a [u16],
    part: &'a [u16],
    told: usize,
}

impl Trial<'_> {
    // Variable i at place b of the pattern, at the first tree of `rest`, which is the end of the part. At its first place it is marked,
    // and the tree's length is kept, unless only S stand behind. At a later one as many symbols are compared as the first has: no tree
    // is the beginning of another, so no end is looked for.
    #[tactic(auto, using(crate::proofs::Placing::meets_same, crate::proofs::Placing::meets_other))]
    fn variable(&self, i: usize, b: usize, rest: &[u16], met: &mut Met) -> Tried
        requires { Ahead self.now.arities.now self.now.part.now rest.now met.old.marks met.old.lengths 1 × (b < pattern_most) × (i < variables) }
        ensures { Meets self.now.arities.now self.now.told b self.now.part.now rest.now met.old.marks i result met.new.marks met.new.lengths }
    {
        let at = self.part.len() - rest.len();
        let n = usize::from(met.lengths[i]);
        if n == 0 {
            if self.told <= b + 1 {
                return Tried::Through;
            }
            let long = tree_length(self.arities, rest);
            // Stays `as`, here and below: the number fits, as a contract says, and `try_from` would answer an error that no call can give.
            met.marks[i] = (at + 1) as u16;
            met.lengths[i] = long as u16;
            return Tried::Past(1, long);
        }
        let first = usize::from(met.marks[i]) - 1;
        let equal = patterns::count_same(self.part, first, at, n.min(rest.len()));
        if equal == n {
            return Tried::Past(1, n);
        }
        Tried::Miss(b, at + equal)
    }

    // The first number of the pattern, at its place b, which has no children, at the first tree of `rest`.
    fn leaf(&self, b: usize, pattern: &[u16], rest: &[u16], met: &mut Met) -> Tried
        requires { Lent self.now.arities.now self.now.told b pattern.now self.now.part.now rest.now met.old.marks met.old.lengths 1 × (get_or self.now.arities.now (get_or pattern.now 0 0) 0 ≡ 0) }
        ensures { Tells self.now.arities.now b pattern.now self.now.part.now rest.now met.old.marks 1 result met.new.marks met.new.lengths }
    {
        let s = pattern[0];
        if rest[0] == s {
            return Tried::Past(1, 1);
        }
        match patterns::leaf_of(s) {
            Leaf::Plain => Tried::Miss(b, self.part.len() - rest.len()),
            Leaf::Blank => {
                if self.told <= b + 1 {
                    return Tried::Through;
                }
                let n = tree_length(self.arities, rest);
                Tried::Past(1, n)
            }
            Leaf::Variable(i) => self.variable(i, b, rest, met),
        }
    }

    // The first tree of the pattern, from its place b on, whose root is a symbol, at the first tree of `rest`.
    #[cycle(children_node)]
    fn node(&self, b: usize, pattern: &[u16], rest: &[u16], met: &mut Met) -> Tried
        requires { Lent self.now.arities.now self.now.told b pattern.now self.now.part.now rest.now met.old.marks met.old.lengths 1 × (leaf (get_or pattern.now 0 0) ≡ Plain) }
        ensures { Tells self.now.arities.now b pattern.now self.now.part.now rest.now met.old.marks 1 result met.new.marks met.new.lengths }
    {
        let s = pattern[0];
        if rest[0] == s {
            if self.told <= b + 1 {
                return Tried::Through;
            }
            let a = rows::arity_of(self.arities, s);
            let found = self.children(a, b + 1, &pattern[1..], &rest[1..], met);
            let Tried::Past(p, r) = found else {
                return found;
            };
            return Tried::Past(p + 1, r + 1);
        }
        Tried::Miss(b, self.part.len() - rest.len())
    }

    // The first k trees of the pattern, from its place b on, at the first k trees of `rest`. A number without children is no node of
    // its own, which saves a call.
    #[cycle(children_node)]
    fn children(&self, k: u16, b: usize, pattern: &[u16], rest: &[u16], met: &mut Met) -> Tried
        requires { Lent self.now.arities.now self.now.told b pattern.now self.now.part.now rest.now met.old.marks met.old.lengths k }
        ensures { Tells self.now.arities.now b pattern.now self.now.part.now rest.now met.old.marks k result met.new.marks met.new.lengths }
    {
        let mut p = 0;
        let mut r = 0;
        for _ in 0..k {
            let ahead = &pattern[p..];
            let here = &rest[r..];
            let next = if rows::arity_of(self.arities, pattern[p]) == 0 {
                self.leaf(b + p, ahead, here, met)
            } else {
                self.node(b + p, ahead, here, met)
            };
            let Tried::Past(more, further) = next else {
                return next;
            };
            p += more;
            r += further;
        }
        Tried::Past(p, r)
    }
}

// Does the pattern match the first tree of the part? If not, `Err` says where: at which place of the pattern, and at which place
// of the part. S or a variable alone matches every tree.
pub fn fits(arities: &[u16], part: &[u16], pattern: &[u16]) -> Result<(), (usize, usize)>
    requires { Tryable (alphabet_of arities.now) part.now pattern.now }
    ensures { TriesRight (alphabet_of arities.now) part.now pattern.now result }
{
    let Leaf::Plain = patterns::leaf_of(pattern[0]) else {
        return Ok(());
    };
    let told = patterns::count_compared(pattern);
    let trial = Trial {
        arities,
        part,
        told,
    };
    let mut met = Met {
        marks: [0u16; patterns::MARKS],
        lengths: [0u16; patterns::MARKS],
    };
    match trial.node(0, pattern, part, &mut met) {
        Tried::Past(_, _) | Tried::Through => Ok(()),
        Tried::Miss(place, x) => Err((place, x)),
    }
}
