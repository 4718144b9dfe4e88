// The plain matcher: yes or no at a position, without a table.
ghost use Rattle.rows.specs.Programme.{alphabet_of};
ghost use Rattle.sparrowhem.specs.Plain.{PlainSays};

use rows::Refusal;

// Does the pattern match at the position? The whole row is checked; then the rest of it, from the position on, is tried.
pub fn plain_match(
    arities: &[u16],
    row: &[u16],
    pattern: &[u16],
    position: usize,
) -> Result<bool, Refusal>
    ensures { PlainSays (alphabet_of arities.now) row.now pattern.now position result }
{
    checks::check_plain(arities, row, pattern, position)?;
    Ok(plain::fits(arities, &row[position..], pattern).is_ok())
}
