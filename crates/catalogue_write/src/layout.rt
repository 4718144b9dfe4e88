// The bytes of the file, written one behind the other.
ghost use Rattle.std.specs.Prelude.{◌≡◌, ◌∷◌, [], ℕ, ◌+◌, ◌*◌, ◌≤◌, ◌<◌, length, get_or};
ghost use Rattle.rows.specs.Buffers.{written};
ghost use Rattle.rows.specs.Limits.{file_most};
ghost use Rattle.wire.specs.Wire.{bytes_of};
ghost use Rattle.catalogue.specs.Catalogue.{halves, contents, file_of};
ghost use Rattle.catalogue.specs.Refusals.{catalogue_of, total, size_of};
ghost use Rattle.catalogue_write.specs.Laid.{laid, front_of, Given, Layable};

use crate::given::Programmes;
use catalogue::Entry;
use wire::Sent;

// Puts a number of two bytes at place i.
fn put_half(file: &mut [u8], i: usize, v: u16)
    requires { 2 * i + 1 < length file.old }
    ensures { file.new ≡ written file.old (2 * i) (bytes_of (v ∷ [])) }
{
    wire::put_number(file, i, v);
}

// Puts a number of four bytes at places i and i + 1.
fn put_wide(file: &mut [u8], i: usize, v: u32)
    requires { 2 * i + 3 < length file.old }
    ensures { file.new ≡ written file.old (2 * i) (bytes_of (halves v)) }
{
    // Stays `as`, here and below: the number fits, as a contract says, and `try_from` would answer an error that no call can give.
    put_half(file, i, (v % 65536) as u16);
    put_half(file, i + 1, (v / 65536) as u16);
}

// Puts an entry at the six places from i on.
fn put_entry(file: &mut [u8], i: usize, e: Entry)
    requires { 2 * i + 11 < length file.old }
    ensures { file.new ≡ written file.old (2 * i) (bytes_of (contents (e ∷ []))) }
{
    put_wide(file, i, e.programme);
    put_wide(file, i + 2, e.start);
    put_wide(file, i + 4, e.length);
}

// Puts the contents behind the head: entries of rows that start at byte `first`, one behind the other.
fn put_contents(numbers: &[u32], lengths: &[u32], file: &mut [u8], first: usize)
    requires { (length lengths.now ≡ length numbers.now) × (4 + 12 * length numbers.now ≤ length file.old) × (first + 2 * total lengths.now ≤ file_most) }
    ensures { file.new ≡ written file.old 4 (bytes_of (contents (laid first numbers.now lengths.now))) }
{
    let mut next = first;
    for (k, &programme) in numbers.iter().enumerate() {
        let length = lengths[k];
        let e = Entry {
            programme,
            start: next as u32,
            length,
        };
        put_entry(file, 2 + 6 * k, e);
        next += 2 * (length as usize);
    }
}

// Puts the arities, a byte each, from byte `at` on.
fn put_arities(arities: &[u16], file: &mut [u8], at: usize)
    requires { (at + length arities.now ≤ length file.old) × ((k : ℕ) → get_or arities.now k 0 < 256) }
    ensures { file.new ≡ written file.old at arities.now }
{
    for (k, &arity) in arities.iter().enumerate() {
        file[at + k] = arity as u8;
    }
}

// Writes head, contents and arities to the front of `file`; later bytes stay.
fn lay_front(arities: &[u16], numbers: &[u32], lengths: &[u32], file: &mut [u8])
    requires { Layable arities.now numbers.now lengths.now file.old }
    ensures { file.new ≡ written file.old 0 (front_of arities.now numbers.now lengths.now) }
{
    put_half(file, 0, numbers.len() as u16);
    put_half(file, 1, arities.len() as u16);
    let at = 4 + 12 * numbers.len();
    put_contents(numbers, lengths, file, at + arities.len());
    put_arities(arities, file, at);
}

// Writes the whole file to the front of `file`; later bytes stay.
pub fn lay_out<E: Sent>(arities: &[u16], given: Programmes<E>, file: &mut [u8])
    requires layable { Layable arities.now given.numbers.now given.lengths.now file.old }
    requires given { Given given.numbers.now given.lengths.now (length (E.Piece.numbers given.rows.now)) }
    requires room { size_of arities.now given.numbers.now (length (E.Piece.numbers given.rows.now)) ≤ length file.old }
    ensures { file.new ≡ written file.old 0 (file_of (catalogue_of arities.now given.entry.numbers.now given.entry.lengths.now (E.Piece.numbers given.entry.rows.now))) }
{
    lay_front(arities, given.numbers, given.lengths, file);
    let first = 4 + 12 * given.numbers.len() + arities.len();
    E::put_bytes(given.rows, &mut file[first..]);
}
