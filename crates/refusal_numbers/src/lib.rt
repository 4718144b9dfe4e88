// The number and the place of each refusal.
#![tactic(auto)]

ghost use Rattle.std.specs.Prelude.{◌≡◌};
ghost use Rattle.refusal_numbers.specs.Numbers.{alphabet_number, alphabet_place, fault_number, row_number, fault_place, kept_number, on_record_number, kept_place, text_number, text_place, catalogue_number, catalogue_place, bars_number, bars_place, number, place, programme};

use rows::{Arities, BarsFault, CatalogueFault, Fault, Kept, Refusal, Text};

fn alphabet_number(fault: Arities) -> usize
    ensures { result ≡ alphabet_number fault }
{
    match fault {
        Arities::Count(_) => 1,
        Arities::Over(_) => 2,
        Arities::NoLeaf => 3,
    }
}

fn alphabet_place(fault: Arities) -> usize
    ensures { result ≡ alphabet_place fault }
{
    match fault {
        Arities::Count(n) => n,
        Arities::Over(s) => s,
        Arities::NoLeaf => 0,
    }
}

// Of a fault in the reading of a list, by the numbers of the five.
fn fault_number(
    fault: Fault,
    empty: usize,
    long: usize,
    stray: usize,
    early: usize,
    extra: usize,
) -> usize
    ensures { result ≡ fault_number empty long stray early extra fault }
{
    match fault {
        Fault::Empty => empty,
        Fault::Long(_) => long,
        Fault::Stray(_) => stray,
        Fault::Early(_) => early,
        Fault::Extra(_) => extra,
    }
}

fn row_number(fault: Fault) -> usize
    ensures { result ≡ row_number fault }
{
    fault_number(fault, 4, 5, 7, 8, 9)
}

fn fault_place(fault: Fault) -> usize
    ensures { result ≡ fault_place fault }
{
    match fault {
        Fault::Empty => 0,
        Fault::Long(n) => n,
        Fault::Stray(p) => p,
        Fault::Early(n) => n,
        Fault::Extra(p) => p,
    }
}

fn kept_number(fault: Kept) -> usize
    ensures { result ≡ kept_number fault }
{
    match fault {
        Kept::Misread(f) => row_number(f),
        Kept::Short(_) => 6,
        Kept::Stale(_) => 10,
        Kept::Misclassed(_) => 62,
    }
}

// Of the row on record: 40 more.
#[tactic(auto, unfolding(crate::specs::Numbers::on_record_number))]
fn on_record_number(fault: Kept) -> usize
    ensures { result ≡ on_record_number fault }
{
    40 + kept_number(fault)
}

fn kept_place(fault: Kept) -> usize
    ensures { result ≡ kept_place fault }
{
    match fault {
        Kept::Misread(f) => fault_place(f),
        Kept::Short(n) => n,
        Kept::Stale(p) => p,
        Kept::Misclassed(p) => p,
    }
}

fn text_number(fault: Text) -> usize
    ensures { result ≡ text_number fault }
{
    match fault {
        Text::Line(_) => 60,
        Text::Bytes => 61,
    }
}

fn text_place(fault: Text) -> usize
    ensures { result ≡ text_place fault }
{
    match fault {
        Text::Line(k) => k,
        Text::Bytes => 65536,
    }
}

fn catalogue_number(fault: CatalogueFault) -> usize
    ensures { result ≡ catalogue_number fault }
{
    match fault {
        CatalogueFault::Long(_) => 66,
        CatalogueFault::Short(_) => 65,
        CatalogueFault::Programmes(_) => 88,
        CatalogueFault::NotRising(_) => 67,
        CatalogueFault::Misplaced(_) => 68,
        CatalogueFault::LeftOver(_) => 69,
    }
}

fn catalogue_place(fault: CatalogueFault) -> usize
    ensures { result ≡ catalogue_place fault }
{
    match fault {
        CatalogueFault::Long(n) => n,
        CatalogueFault::Short(n) => n,
        CatalogueFault::Programmes(n) => n,
        CatalogueFault::NotRising(p) => p,
        CatalogueFault::Misplaced(p) => p,
        CatalogueFault::LeftOver(p) => p,
    }
}

fn bars_number(fault: BarsFault) -> usize
    ensures { result ≡ bars_number fault }
{
    match fault {
        BarsFault::NothingOpen(_) => 70,
        BarsFault::Children(_) => 71,
        BarsFault::Unclosed(_) => 72,
    }
}

fn bars_place(fault: BarsFault) -> usize
    ensures { result ≡ bars_place fault }
{
    match fault {
        BarsFault::NothingOpen(p) => p,
        BarsFault::Children(p) => p,
        BarsFault::Unclosed(n) => n,
    }
}

// The number of a refusal.
pub fn number_of(refusal: Refusal) -> usize
    ensures { result ≡ number refusal }
{
    match refusal {
        Refusal::Arities(f) => alphabet_number(f),
        Refusal::Row(k) => kept_number(k),
        Refusal::OnRecord(k) => on_record_number(k),
        Refusal::Pattern(f) => fault_number(f, 11, 12, 13, 14, 15),
        Refusal::Replacement(f) => fault_number(f, 24, 25, 27, 28, 29),
        Refusal::Position(_) => 17,
        Refusal::TooLong(_) => 18,
        Refusal::OutputShort(_) => 19,
        Refusal::Input(f) => text_number(f),
        Refusal::SheetSize(_) => 63,
        Refusal::SheetSum(_) => 64,
        Refusal::Catalogue(f) => catalogue_number(f),
        Refusal::Bars(f) => bars_number(f),
        Refusal::Programme(_, f) => row_number(f),
    }
}

// Its place.
pub fn place_of(refusal: Refusal) -> usize
    ensures { result ≡ place refusal }
{
    match refusal {
        Refusal::Arities(f) => alphabet_place(f),
        Refusal::Row(k) => kept_place(k),
        Refusal::OnRecord(k) => kept_place(k),
        Refusal::Pattern(f) => fault_place(f),
        Refusal::Replacement(f) => fault_place(f),
        Refusal::Position(p) => p,
        Refusal::TooLong(n) => n,
        Refusal::OutputShort(n) => n,
        Refusal::Input(f) => text_place(f),
        Refusal::SheetSize(n) => n,
        Refusal::SheetSum(m) => m,
        Refusal::Catalogue(f) => catalogue_place(f),
        Refusal::Bars(f) => bars_place(f),
        Refusal::Programme(_, f) => fault_place(f),
    }
}

// The number of the programme beside it: of a row's fault in a catalogue, else 0.
pub fn programme_of(refusal: Refusal) -> u32
    ensures { result ≡ programme refusal }
{
    let Refusal::Programme(n, _) = refusal else {
        return 0;
    };
    n
}
