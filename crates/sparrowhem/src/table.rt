// The table and the classes of a row.
ghost use Rattle.rows.specs.Programme.{alphabet_of, programme};
ghost use Rattle.sparrowhem.specs.Build.{Built};

use rows::{Programme, Refusal};

// Build: the row's table at the front of `table` and its classes at the front of `classes`, later places stay; or the first
// refusal, which writes nothing.
// Stays three lists: two are lent for writing, the row is not, and each has a length of its own.
pub fn build(
    arities: &[u16],
    row: &[u16],
    table: &mut [u16],
    classes: &mut [u16],
) -> Result<(), Refusal>
    ensures { Built (alphabet_of arities.now) (programme row.now table.old classes.old) result (programme row.now table.new classes.new) }
{
    checks::check_build(
        arities,
        Programme {
            row,
            table,
            classes,
        },
    )?;
    tables::fill_ends(arities, row, table);
    classes::fill_classes(row, table, classes);
    Ok(())
}
