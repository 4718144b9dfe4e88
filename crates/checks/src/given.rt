// What every call refuses that is lent a row with what stands beside it.
ghost use Rattle.std.specs.Prelude.{◌≡◌, ◌≤◌, length};
ghost use Rattle.rows.specs.Programme.{alphabet_of, programme_of};
ghost use Rattle.rows.specs.Refusals.{◌then◌, keeps, symbols, fresh, classed, kept, given, position as positionCheck};
ghost use Rattle.rows.specs.declared.Kept.{Kept};
ghost use Rattle.rows.specs.declared.Refusal.{Refusal};
ghost use Rattle.tables.specs.Given.{Sized};

use rows::{Kept, Programme, Refusal};

// Refusals 7 to 10, then 62: a row, its table and its classes, which have room for it. `room` is for the row's ends, and
// then for the links of its classes.
pub fn check_beside(arities: &[u16], programme: Programme, room: &mut [u16]) -> Result<(), Kept>
    requires { Sized programme.row.now programme.table.now × (length programme.row.now ≤ length programme.classes.now) × (length programme.row.now ≤ length room.old) }
    ensures { (whose : Kept → Refusal) → keeps whose result ≡ (symbols whose arities.now programme.entry.row.now then fresh whose arities.now programme.entry.row.now programme.entry.table.now then classed whose arities.now programme.entry.row.now programme.entry.classes.now) }
{
    tables::check_beside(arities, programme.row, programme.table, room)?;
    class_checks::check_beside(programme, room)
}

// The same. A shorter row takes less room.
fn check_lists(arities: &[u16], programme: Programme) -> Result<(), Kept>
    requires { Sized programme.row.now programme.table.now × (length programme.row.now ≤ length programme.classes.now) }
    ensures { (whose : Kept → Refusal) → keeps whose result ≡ (symbols whose arities.now programme.entry.row.now then fresh whose arities.now programme.entry.row.now programme.entry.table.now then classed whose arities.now programme.entry.row.now programme.entry.classes.now) }
{
    tables::check_ends(arities, programme.row, programme.table)?;
    class_checks::check_classes(programme)
}

// Refusals 4 to 10, then 62: a row, the first n places of its buffer, with what stands beside it.
#[tactic(auto, unfolding(rows::specs::Refusals::kept))]
pub fn check_kept(arities: &[u16], programme: Programme, n: usize) -> Result<(), Kept>
    ensures { (whose : Kept → Refusal) → keeps whose result ≡ kept whose (alphabet_of arities.now) (programme_of programme.entry) n }
{
    rows::check_sizes(n, programme.room())?;
    check_lists(
        arities,
        Programme {
            row: &programme.row[..n],
            ..programme
        },
    )
}

// Refusals 1 to 10, then 62, for a row of the first n places of its buffer.
#[tactic(auto, unfolding(rows::specs::Refusals::given))]
pub fn check_given(arities: &[u16], programme: Programme, n: usize) -> Result<(), Refusal>
    ensures { result ≡ given (alphabet_of arities.now) (programme_of programme.entry) n }
{
    rows::check_alphabet(arities)?;
    check_kept(arities, programme, n).map_err(Refusal::Row)
}

// Refusal 17: the position is below the length n of a row.
#[tactic(auto, unfolding(rows::specs::Refusals::position))]
pub fn check_position(n: usize, position: usize) -> Result<(), Refusal>
    ensures { result ≡ positionCheck n position }
{
    if position < n {
        return Ok(());
    }
    Err(Refusal::Position(position))
}
