// Parts of lent rows, handed back and not copied.
ghost use Rattle.std.specs.Prelude.{◌≡◌};
ghost use Rattle.rows.specs.Programme.{Alphabet, alphabet_of, programme, programme_of};
ghost use Rattle.patterns.specs.Searchable.{Checked, Searchable};
ghost use Rattle.sparrowhem.specs.Parts.{subtree_part, subtree_answer, SubtreeLies, FirstIs, NewestSays, NewerPart, NewerLies};

use rows::{Programme, Refusal};

// The companion of `subtree`: begin and end of the subtree at the position, or the refusal.
pub fn subtree_answer(
    arities: &[u16],
    programme: Programme,
    position: usize,
) -> Result<(usize, usize), Refusal>
    ensures { result ≡ subtree_answer (alphabet_of arities.now) (programme_of programme.entry) position }
{
    checks::check_subtree(arities, programme, position)?;
    Ok((position, usize::from(programme.table[position])))
}

// The subtree at the position, as a part of the row; empty exactly for a refusal.
// Stays three lists: the part is lent as long as the row is, and the table and the classes are free before.
pub fn subtree<'a>(
    arities: &[u16],
    row: &'a [u16],
    table: &[u16],
    classes: &[u16],
    position: usize,
) -> &'a [u16]
    ensures result_value { result.now ≡ subtree_part (alphabet_of arities.now) (programme row.now table.now classes.now) position }
    ensures subtree_lies { SubtreeLies (subtree_answer (alphabet_of arities.now) (programme row.now table.now classes.now) position) row.entry.ref_ptr result.ref_ptr }
{
    let programme = Programme {
        row,
        table,
        classes,
    };
    match subtree_answer(arities, programme, position) {
        Err(_) => &row[0..0],
        Ok((begin, end)) => &row[begin..end],
    }
}

// Which row has the first match, and begin and end of the subtree there, the end not included; or that neither has one.
#[derive(Clone, Copy, Debug, PartialEq, Eq)]
pub enum Newest {
    Corrected(usize, usize),
    OnRecord(usize, usize),
    Nowhere,
}

// Begin and end of the subtree of the first match; `None` where there is none.
fn first_span(programme: Programme, pattern: &[u16]) -> Option<(usize, usize)>
    requires { Searchable (programme_of programme) pattern.now }
    ensures { (a : Alphabet) → Checked a (programme_of programme.entry) pattern.now → FirstIs a programme.entry.row.now pattern.now result }
{
    let p = searches::first_match(programme, pattern)?;
    Some((p, usize::from(programme.table[p])))
}

// The companion of `newer`: the first match in the corrected row, or if there is none, in the row on record, or if there is
// none, nowhere; or the refusal. A refused corrected row never falls through to the older one.
pub fn newer_answer(
    arities: &[u16],
    corrected: Programme,
    record: Programme,
    pattern: &[u16],
) -> Result<Newest, Refusal>
    ensures { NewestSays (alphabet_of arities.now) (programme_of corrected.entry) (programme_of «record».entry) pattern.now result }
{
    checks::check_newer(arities, corrected, record, pattern)?;
    if let Some((begin, end)) = first_span(corrected, pattern) {
        return Ok(Newest::Corrected(begin, end));
    }
    match first_span(record, pattern) {
        Some((begin, end)) => Ok(Newest::OnRecord(begin, end)),
        None => Ok(Newest::Nowhere),
    }
}

// The subtree of the first match in the corrected row, or if there is none, of the first in the row on record, as a part of
// its row; empty exactly if there is none in either, or for a refusal.
// Stays three lists of each: the part is lent as long as the rows are, and the tables and the classes are free before.
pub fn newer<'a>(
    arities: &[u16],
    corrected: &'a [u16],
    corrected_table: &[u16],
    corrected_classes: &[u16],
    record: &'a [u16],
    record_table: &[u16],
    record_classes: &[u16],
    pattern: &[u16],
) -> &'a [u16]
    ensures newer_part { NewerPart (alphabet_of arities.now) (programme corrected.now corrected_table.now corrected_classes.now) (programme «record».now record_table.now record_classes.now) pattern.now result.now }
    ensures newer_lies { NewerLies (alphabet_of arities.now) (programme corrected.now corrected_table.now corrected_classes.now) (programme «record».now record_table.now record_classes.now) pattern.now corrected.entry.ref_ptr «record».entry.ref_ptr result.ref_ptr }
{
    let newest = newer_answer(
        arities,
        Programme {
            row: corrected,
            table: corrected_table,
            classes: corrected_classes,
        },
        Programme {
            row: record,
            table: record_table,
            classes: record_classes,
        },
        pattern,
    );
    match newest {
        Ok(Newest::Corrected(begin, end)) => &corrected[begin..end],
        Ok(Newest::OnRecord(begin, end)) => &record[begin..end],
        Ok(Newest::Nowhere) | Err(_) => &corrected[0..0],
    }
}
