// Patterns over a row with its table and its classes.
ghost use Rattle.rows.specs.Programme.{alphabet_of, programme_of};
ghost use Rattle.sparrowhem.specs.Search.{Finds, Binds};
ghost use Rattle.sparrowhem.specs.Sheet.{SheetAnswers};

use rows::{Programme, Refusal};

// Find: the number of the matches, which stand at the front of `out`, rising, later places stay; or the first refusal,
// which writes nothing.
pub fn find(
    arities: &[u16],
    programme: Programme,
    pattern: &[u16],
    out: &mut [u16],
) -> Result<usize, Refusal>
    ensures { Finds (alphabet_of arities.now) (programme_of programme.entry) pattern.now out.old result out.new }
{
    checks::check_search(arities, programme, pattern)?;
    searches::list_matches(programme, pattern, out).map_err(Refusal::OutputShort)
}

// Variables: whether the pattern matches at the position; if so, begin and end of X0 to X15 stand at the front of `out`,
// later places stay. A refusal writes nothing.
pub fn variables(
    arities: &[u16],
    programme: Programme,
    pattern: &[u16],
    position: usize,
    out: &mut [u16],
) -> Result<bool, Refusal>
    ensures { Binds (alphabet_of arities.now) (programme_of programme.entry) pattern.now position out.old result out.new }
{
    checks::check_variables(arities, programme, pattern, position, out.len())?;
    Ok(searches::variables_at(programme, pattern, position, out).is_ok())
}

// Sheet: each of the patterns, which are laid end to end and have the lengths, is answered as find would alone. Positions of one pattern
// after the other stand at the front of `positions`, and three numbers for each at the front of `results`: refusal or 0, place or 0,
// count. Later places of both stay. The answer is the number of the patterns and that of the positions. A refusal of the sheet writes
// nothing; one of a pattern is in its result.
pub fn sheet(
    arities: &[u16],
    programme: Programme,
    patterns: &[u16],
    lengths: &[u16],
    positions: &mut [u16],
    results: &mut [u16],
) -> Result<(usize, usize), Refusal>
    ensures { SheetAnswers (alphabet_of arities.now) (programme_of programme.entry) patterns.now lengths.now positions.old results.old result positions.new results.new }
{
    checks::check_sheet(arities, programme, patterns, lengths, results.len())?;
    let count = sheets::answer_sheet(
        arities, programme, patterns, lengths, positions, results,
    ).map_err(Refusal::OutputShort)?;
    Ok((lengths.len(), count))
}
