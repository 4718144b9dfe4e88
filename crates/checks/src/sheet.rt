// What a sheet of patterns refuses before it looks for matches (its last refusal 19 needs their count).
ghost use Rattle.std.specs.Prelude.{◌≡◌, ◌*◌, ◌≤◌, length};
ghost use Rattle.rows.specs.Limits.{sheet_most, result_places};
ghost use Rattle.rows.specs.Programme.{alphabet_of, programme_of};
ghost use Rattle.rows.specs.Refusals.{◌then◌, sheet, output};
ghost use Rattle.rows.specs.Sheet.{begin_of};
ghost use Rattle.checks.specs.Checks.{results_check};

use rows::{Programme, Refusal};

// The lengths of a sheet's patterns, together.
fn sum_of(lengths: &[u16]) -> usize
    requires { length lengths.now ≤ sheet_most }
    ensures { result ≡ begin_of lengths.now (length lengths.now) }
{
    lengths.iter().map(|&n| usize::from(n)).sum()
}

// Refusals 63 and 64, where `lent` numbers are lent as patterns.
#[tactic(auto, unfolding(rows::specs::Refusals::sheet, rows::specs::Refusals::sheet_size, rows::specs::Refusals::sheet_sum))]
pub fn check_lengths(lengths: &[u16], lent: usize) -> Result<(), Refusal>
    ensures { result ≡ sheet lengths.now lent }
{
    if lengths.len() < 1 {
        return Err(Refusal::SheetSize(lengths.len()));
    }
    if rows::SHEET_MOST < lengths.len() {
        return Err(Refusal::SheetSize(lengths.len()));
    }
    if sum_of(lengths) == lent {
        return Ok(());
    }
    Err(Refusal::SheetSum(lent))
}

// Refusals 63, 64, and 19 for an output of `places` places for the results.
pub fn check_results(lengths: &[u16], lent: usize, places: usize) -> Result<(), Refusal>
    ensures { result ≡ (sheet lengths.now lent then output (result_places * length lengths.now) places) }
{
    check_lengths(lengths, lent)?;
    rows::check_room(rows::RESULT_PLACES * lengths.len(), places)
}

// Refusals 1 to 10, 62, 63, 64, and 19 for an output of `places` places for the results.
#[tactic(auto, unfolding(crate::specs::Checks::results_check))]
pub fn check_sheet(
    arities: &[u16],
    programme: Programme,
    patterns: &[u16],
    lengths: &[u16],
    places: usize,
) -> Result<(), Refusal>
    ensures { result ≡ results_check (alphabet_of arities.now) (programme_of programme.entry) patterns.now lengths.now places }
{
    crate::given::check_given(arities, programme, programme.row.len())?;
    check_results(lengths, patterns.len(), places)
}
