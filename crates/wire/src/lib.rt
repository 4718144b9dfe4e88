// Numbers as lent bytes: two bytes each, the low one first. An odd last byte is neither counted nor written.
#![tactic(auto)]

ghost use Rattle.std.specs.Prelude.{◌≡◌, ◌+◌, ◌-◌, ◌*◌, ◌<◌, ◌≤◌, length, get_or, take, drop};
ghost use Rattle.rows.specs.Row.{reading};
ghost use Rattle.rows.specs.Limits.{row_most};
ghost use Rattle.rows.specs.Buffers.{written};
ghost use Rattle.rows.specs.declared.Leaves.TheVariants.{Symbols};
ghost use Rattle.wire.specs.Wire.{numbers, bytes_of, with_number};

use rows::{Fault, Leaves, Piece};

mod sent;

pub use sent::Sent;

// An alphabet of at most so many symbols is small: a room for it is sooner cleared.
pub const SMALL: usize = 256;

// How many numbers there are.
pub fn count(bytes: &[u8]) -> usize
    ensures { result ≡ length (numbers bytes.now) }
{
    u8::count(bytes)
}

// The number at place i.
pub fn number_at(bytes: &[u8], i: usize) -> u16
    requires { i < length (numbers bytes.now) }
    ensures { result ≡ get_or (numbers bytes.now) i 0 }
{
    u8::number_at(bytes, i)
}

// Puts v at place i.
pub fn put_number(bytes: &mut [u8], i: usize, v: u16)
    requires { i < length (numbers bytes.old) }
    ensures { bytes.new ≡ with_number bytes.old i v }
{
    u8::put_number(bytes, i, v);
}

// The first n numbers of `bytes`, at the front of `room`; later places stay.
pub fn decode(bytes: &[u8], n: usize, room: &mut [u16])
    requires { (n ≤ length (numbers bytes.now)) × (n ≤ length room.old) }
    ensures { room.new ≡ written room.old 0 (take n (numbers bytes.now)) }
{
    for (i, place) in room[..n].iter_mut().enumerate() {
        *place = number_at(bytes, i);
    }
}

// Writes the numbers to the front of `bytes`; later bytes stay.
pub fn encode(list: &[u16], bytes: &mut [u8])
    requires { length list.now ≤ length (numbers bytes.old) }
    ensures { bytes.new ≡ written bytes.old 0 (bytes_of list.now) }
{
    for (i, &v) in list.iter().enumerate() {
        put_number(bytes, i, v);
    }
}

// Writes the numbers behind the first `before` ones of `bytes`; the others stay.
pub fn encode_behind(list: &[u16], before: usize, bytes: &mut [u8])
    requires { before + length list.now ≤ length (numbers bytes.old) }
    ensures { bytes.new ≡ written bytes.old (2 * before) (bytes_of list.now) }
{
    encode(list, &mut bytes[2 * before..]);
}

// Bytes as numbers of their own, at the front of `room`; later places stay.
pub fn widen(bytes: &[u8], room: &mut [u16])
    requires { length bytes.now ≤ length room.old }
    ensures { room.new ≡ written room.old 0 bytes.now }
{
    for (i, &byte) in bytes.iter().enumerate() {
        room[i] = u16::from(byte);
    }
}

// Is the part from place `from` up to place `to` a row, whole? Its length is from 1 to 16,384, and it is a tree's prefix notation.
pub fn check_part<E: Piece>(
    arities: &[u16],
    list: &[E],
    from: usize,
    to: usize,
) -> Result<(), Fault>
    requires { (from ≤ to) × (to ≤ length (E.numbers list.now)) }
    ensures { result ≡ reading arities.now Symbols row_most (take (to - from) (drop from (E.numbers list.now))) }
{
    rows::check_reading(
        arities,
        E::part(list, from, to),
        Leaves::Symbols,
        rows::ROW_MOST,
    )
}
