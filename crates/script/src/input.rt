// What stands on an input.
ghost use Rattle.std.specs.Prelude.{◌≤◌, length, take};
ghost use Rattle.std.specs.Io.KnownBytes.{Consumes};

use std::io::Read;

// Reads until the room is full, the input ends or a read fails; answers how many bytes stand at the front of the room then.
pub fn read_full<R: Read>(input: &mut R, room: &mut [u8]) -> usize
    ensures bound { result ≤ length room.new }
    ensures bytes { Consumes (R.remaining input.old) (R.remaining input.new) (take result room.new) }
{
    let mut done = 0;
    // Stays a loop by index: how far a read goes is what the reader answers.
    while done < room.len() {
        match input.read(&mut room[done..]) {
            Ok(0) => return done,
            Ok(n) => done += n,
            Err(_) => return done,
        }
    }
    done
}
