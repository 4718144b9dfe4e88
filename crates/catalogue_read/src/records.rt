// The records of a file's contents, in a list that the caller lends.
ghost use Rattle.std.specs.Prelude.{◌≡◌, ℕ, ◌+◌, ◌*◌, ◌≤◌, ◌<◌, length};
ghost use Rattle.wire.specs.Wire.{numbers};
ghost use Rattle.catalogue_read.specs.Records.{stored};

use catalogue::Entry;

// Writes the first n entries to the front of `entries`; later records stay.
pub fn store(entries: &mut [Entry], file: &[u8], n: usize)
    requires { (n ≤ length entries.old) × ((i : ℕ) → i < n → 16 + 12 * i ≤ length file.now) }
    ensures { entries.new ≡ stored (numbers file.now) n entries.old }
{
    for i in 0..n {
        entries[i] = crate::contents::entry_at(file, i);
    }
}
