// Numbers in lent bytes: how answers cross, the alphabet, which is read once, and build, on the lent bytes themselves.
#![tactic(auto)]

ghost use Rattle.std.specs.Prelude.{◌≡◌};
ghost use Rattle.rows.specs.Programme.{room};
ghost use Rattle.c_lent.specs.Lent.{lent_of, numbers_of};

use rows::Refusal;

mod alphabet;
mod table;

pub use alphabet::read_sizes;
pub use table::build;

// The bytes that are lent for a row and for what is kept beside it: its table and its classes.
#[derive(Clone, Copy)]
pub struct Lent<'a> {
    pub row: &'a [u8],
    pub table: &'a [u8],
    pub classes: &'a [u8],
}

impl Lent<'_> {
    // How many numbers the shortest of its lists holds.
    pub fn room(self) -> usize
        ensures { result ≡ room (numbers_of (lent_of self.entry)) }
    {
        let beside = wire::count(self.table).min(wire::count(self.classes));
        wire::count(self.row).min(beside)
    }
}

// An answer, as it crosses. `refusal` is 0 or the number of the refusal (docs/SCOPE.md).
#[repr(C)]
#[derive(Clone, Copy)]
pub struct Answer {
    // Stays a number: C reads it.
    pub refusal: u32,
    pub change: i32,
    pub place: u64,
    pub count: u64,
}

// A refusal, as it crosses.
impl From<Refusal> for Answer {
    ghost use Rattle.std.specs.Prelude.{◌≡◌};
    ghost use Rattle.c_lent.specs.Answer.{refused};

    ghost from_gives = { λ refusal r. r ≡ refused refusal };

    fn from(refusal: Refusal) -> Answer {
        Answer {
            // Stays `as`, here and below: the number fits, as a contract says, and `try_from` would answer an error that no call can give.
            refusal: refusal_numbers::number_of(refusal) as u32,
            change: 0,
            place: refusal_numbers::place_of(refusal) as u64,
            count: 0,
        }
    }
}

// What a call answers with a new length and the change in length, as it crosses.
impl From<Result<(usize, i32), Refusal>> for Answer {
    ghost use Rattle.std.specs.Prelude.{◌≡◌};
    ghost use Rattle.c_lent.specs.Answer.{replace_answer};

    ghost from_gives = { λ outcome r. r ≡ replace_answer outcome };

    fn from(outcome: Result<(usize, i32), Refusal>) -> Answer {
        match outcome {
            Ok((count, change)) => Answer {
                refusal: 0,
                change,
                place: 0,
                count: count as u64,
            },
            Err(refusal) => Answer::from(refusal),
        }
    }
}

// What a call answers with a count, as it crosses.
impl From<Result<usize, Refusal>> for Answer {
    ghost use Rattle.std.specs.Prelude.{◌≡◌};
    ghost use Rattle.c_lent.specs.Answer.{find_answer};

    ghost from_gives = { λ outcome r. r ≡ find_answer outcome };

    fn from(outcome: Result<usize, Refusal>) -> Answer {
        Answer::from(outcome.map(|count| (count, 0)))
    }
}
