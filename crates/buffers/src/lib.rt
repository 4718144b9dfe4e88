// Moving, copying, shifting and filling within lent buffers.
#![tactic(auto)]

ghost use Rattle.std.specs.Prelude.{◌≡◌, map, ◌+◌, ◌-◌, ◌≤◌, length, take, drop, replicate};
ghost use Rattle.rows.specs.Buffers.{written};
ghost use Rattle.buffers.specs.Shift.{shifted, Shiftable};

// The `len` numbers from `from` on are written anew from `to` on, which is no later.
// Stays a loop, here and below: `copy_within` is a call of `memmove`, and goes over a part that keeps its place too.
fn move_down(b: &mut [u16], from: usize, to: usize, len: usize)
    requires { (to ≤ from) × (from + len ≤ length b.old) }
    ensures { b.new ≡ written b.old to (take len (drop from b.old)) }
{
    for i in 0..len {
        b[to + i] = b[from + i];
    }
}

// The `len` numbers from `from` on are written anew from `to` on, which is no earlier.
fn move_up(b: &mut [u16], from: usize, to: usize, len: usize)
    requires { (from ≤ to) × (to + len ≤ length b.old) }
    ensures { b.new ≡ written b.old to (take len (drop from b.old)) }
{
    for i in (0..len).rev() {
        b[to + i] = b[from + i];
    }
}

// The `len` numbers from `from` on are written anew from `to` on.
pub fn move_part(b: &mut [u16], from: usize, to: usize, len: usize)
    requires { (from + len ≤ length b.old) × (to + len ≤ length b.old) }
    ensures { b.new ≡ written b.old to (take len (drop from b.old)) }
{
    if to < from {
        move_down(b, from, to, len);
    } else if from < to {
        move_up(b, from, to, len);
    }
}

// The elements of `v` are written at the front of `b`.
// Stays a loop: of `copy_from_slice` the compiler makes calls of `memmove`, which a host without the whole C library lacks.
pub fn copy_into<T: Copy>(b: &mut [T], v: &[T])
    requires { length v.now ≤ length b.old }
    ensures { b.new ≡ written b.old 0 v.now }
{
    for (i, &x) in v.iter().enumerate() {
        b[i] = x;
    }
}

// The number `x` is written at the places from `from` to `to`, none where `to` is no later.
pub fn fill(b: &mut [u16], from: usize, to: usize, x: u16)
    requires { to ≤ length b.old }
    ensures { b.new ≡ written b.old from (replicate (to - from) x) }
{
    if from < to {
        b[from..to].fill(x);
    }
}

// The `len` numbers from `at` on are shifted, each as `from` is to `to`.
pub fn shift(b: &mut [u16], at: usize, len: usize, from: u16, to: u16)
    requires { Shiftable b.old at len from to }
    ensures { b.new ≡ written b.old at (map (shifted from to) (take len (drop at b.old))) }
{
    for x in &mut b[at..at + len] {
        *x = *x - from + to;
    }
}
