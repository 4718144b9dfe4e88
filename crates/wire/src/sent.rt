// Lists of numbers that are sent as bytes, of whatever pieces they are.
ghost use Rattle.std.specs.Prelude.{◌≡◌, ◌*◌, ◌≤◌, length};
ghost use Rattle.rows.specs.Buffers.{written};
ghost use Rattle.wire.specs.Wire.{bytes_of};

use rows::Piece;

pub trait Sent: Piece {
    // The bytes of the numbers are written to the front of others; later bytes stay.
    fn put_bytes(list: &[Self], bytes: &mut [u8])
        requires { 2 * length (Self.numbers list.now) ≤ length bytes.old }
        ensures { bytes.new ≡ written bytes.old 0 (bytes_of (Self.numbers list.now)) };
}

impl Sent for u16 {
    fn put_bytes(list: &[u16], bytes: &mut [u8]) {
        crate::encode(list, bytes);
    }
}

impl Sent for u8 {
    fn put_bytes(list: &[u8], bytes: &mut [u8]) {
        buffers::copy_into(bytes, &list[..2 * crate::count(list)]);
    }
}
