// A list tells of each open node how many children it lacks: a byte for each, since no arity is over 15.
ghost use Rattle.std.specs.Prelude.{◌≡◌, ◌<◌, length, get_or, Ok};
ghost use Rattle.rows.specs.Programme.{alphabet_of};
ghost use Rattle.rows.specs.Refusals.{alphabet};

// An input or a row of at most so many numbers is short, and of middle length: a smaller room for its open nodes is sooner cleared.
pub const SHORT: usize = 512;

pub const MIDDLE: usize = 4_096;

// How many children a symbol of an accepted alphabet has.
pub fn children_of(arities: &[u16], s: u16) -> u8
    requires { (alphabet (alphabet_of arities.now) ≡ Ok tt) × (s < length arities.now) }
    ensures { result ≡ get_or arities.now s 0 }
{
    // Stays `as`: the number fits, as a contract says, and `try_from` would answer an error that no call can give.
    arities[usize::from(s)] as u8
}
