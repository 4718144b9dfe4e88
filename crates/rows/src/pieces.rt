// Lists of numbers, of whatever pieces: the numbers themselves, or lent bytes, two for each number, the low one first. What works on a
// list of numbers piece by piece is written once for both.
ghost use Rattle.std.specs.Prelude.{◌≡◌, ◌-◌, ◌*◌, ◌<◌, ◌≤◌, ℕ, List, [], length, get_or, set, take, drop};
ghost use Rattle.rows.specs.Bytes.{numbers as numbersOf};

pub trait Piece: Copy {
    // the numbers of a list, and what stands behind them and is none
    ghost numbers: { List Self → List ℕ };

    ghost odd: { List Self → List Self };

    // How many numbers there are.
    fn count(list: &[Self]) -> usize
        ensures { result ≡ length (numbers list.now) };

    // The number at place i.
    fn number_at(list: &[Self], i: usize) -> u16
        requires { i < length (numbers list.now) }
        ensures { result ≡ get_or (numbers list.now) i 0 };

    // Those from place `from` on, up to place `to`.
    fn part(list: &[Self], from: usize, to: usize) -> &[Self]
        requires { (from ≤ to) × (to ≤ length (numbers list.now)) }
        ensures { numbers result.now ≡ take (to - from) (drop from (numbers list.now)) };

    // Puts v at place i, and nothing else.
    fn put_number(list: &mut [Self], i: usize, v: u16)
        requires { i < length (numbers list.old) }
        ensures put { numbers list.new ≡ set (numbers list.old) i v }
        ensures odd { odd list.new ≡ odd list.old };
}

impl Piece for u16 {
    ghost numbers = { λ l. l };

    ghost odd = { λ l. [] };

    fn count(list: &[u16]) -> usize {
        list.len()
    }

    fn number_at(list: &[u16], i: usize) -> u16 {
        list[i]
    }

    fn part(list: &[u16], from: usize, to: usize) -> &[u16] {
        &list[from..to]
    }

    fn put_number(list: &mut [u16], i: usize, v: u16) {
        list[i] = v;
    }
}

impl Piece for u8 {
    ghost numbers = { numbersOf };

    ghost odd = { λ l. drop (2 * length (numbersOf l)) l };

    #[tactic(auto, using(crate::proofs::Bytes::pairs))]
    fn count(list: &[u8]) -> usize {
        list.len() / 2
    }

    #[tactic(auto, using(crate::proofs::Bytes::pairs))]
    fn number_at(list: &[u8], i: usize) -> u16 {
        u16::from_le_bytes([list[2 * i], list[2 * i + 1]])
    }

    #[tactic(auto, using(crate::proofs::Bytes::pairs))]
    fn part(list: &[u8], from: usize, to: usize) -> &[u8] {
        &list[2 * from..2 * to]
    }

    #[tactic(auto, using(crate::proofs::Bytes::pairs, crate::proofs::Bytes::put_odd))]
    fn put_number(list: &mut [u8], i: usize, v: u16) {
        let [low, high] = v.to_le_bytes();
        list[2 * i] = low;
        list[2 * i + 1] = high;
    }
}
