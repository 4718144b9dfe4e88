// Catalogue files for C: how answers cross, and the writer, on the lent bytes of the rows.
#![tactic(auto)]

use catalogue_read::Opened;
use rows::Refusal;

mod writer;

pub use writer::write;

// An answer on a catalogue file, as it crosses. `refusal` is 0 or the number of the refusal (docs/SCOPE.md), `programme` the number of the
// programme whose row is faulty, or 0.
#[repr(C)]
#[derive(Clone, Copy, Debug, PartialEq, Eq)]
pub struct CatalogueAnswer {
    // Stays a number: C reads it.
    pub refusal: u32,
    pub programme: u32,
    pub place: u64,
    pub count: u64,
}

// A refusal, as it crosses.
impl From<Refusal> for CatalogueAnswer {
    ghost use Rattle.std.specs.Prelude.{◌≡◌};
    ghost use Rattle.c_catalogue.specs.Answer.{refused};

    ghost from_gives = { λ refusal r. r ≡ refused refusal };

    fn from(refusal: Refusal) -> CatalogueAnswer {
        CatalogueAnswer {
            // Stays `as`, here and below: the number fits, as a contract says, and `try_from` would answer an error that no call can give.
            refusal: refusal_numbers::number_of(refusal) as u32,
            programme: refusal_numbers::programme_of(refusal),
            place: refusal_numbers::place_of(refusal) as u64,
            count: 0,
        }
    }
}

// What the writer answers, as it crosses: the count is the size of the file.
impl From<Result<usize, Refusal>> for CatalogueAnswer {
    ghost use Rattle.std.specs.Prelude.{◌≡◌};
    ghost use Rattle.c_catalogue.specs.Answer.{write_answer};

    ghost from_gives = { λ outcome r. r ≡ write_answer outcome };

    fn from(outcome: Result<usize, Refusal>) -> CatalogueAnswer {
        match outcome {
            Ok(count) => CatalogueAnswer {
                refusal: 0,
                programme: 0,
                place: 0,
                count: count as u64,
            },
            Err(refusal) => CatalogueAnswer::from(refusal),
        }
    }
}

// What the reader answers, as it crosses: the count is that of the programmes.
impl From<Result<Opened, Refusal>> for CatalogueAnswer {
    ghost use Rattle.std.specs.Prelude.{◌≡◌};
    ghost use Rattle.c_catalogue.specs.Answer.{read_answer};

    ghost from_gives = { λ outcome r. r ≡ read_answer outcome };

    fn from(outcome: Result<Opened, Refusal>) -> CatalogueAnswer {
        CatalogueAnswer::from(outcome.map(|opened| opened.programmes))
    }
}
