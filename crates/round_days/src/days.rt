// What the tests of rounds share.
use boards::line::Line;
use boards::outcome::Outcome;
use boards::wishes::Wishes;
use books::book::Book;
use rounds::round::Round;
use sharing::line_up::LineUp;
use sharing::rule::SharingRule;
use sharing::shares::{ShareRule, Shares};
use sharing::turns::{TurnRule, Turns};
use sheets::fault::{Fault, Layer};
use std::process::Abort;
use std::test::Fail;

// Two sheds. The first has cap 2, lane 0 with target 1 and capacity 2, and lane 1 with target 0 and capacity 1. The
// second has cap 1 and lane 2 with target 0 and capacity 1. Lane 0 ranks lots 1, 4 and 2, lane 1 lot 3, lane 2 lots 2
// and 1.
pub(crate) const SHEET: [u32; 14] = [
    0x10000002, 0x20001002, 0x20000001, 0x10000001, 0x20000001, 0x30000000, 0x40000001, 0x40000004,
    0x40000002, 0x30000001, 0x40000003, 0x30000002, 0x40000002, 0x40000001,
];

pub(crate) const LOT_1: [u32; 3] = [0x50000001, 0x60000002, 0x60000000];

pub(crate) const LOT_2: [u32; 3] = [0x50000002, 0x60000000, 0x60000002];

pub(crate) const LOT_3: [u32; 2] = [0x50000003, 0x60000001];

pub(crate) const LOT_4: [u32; 2] = [0x50000004, 0x60000000];

// The same sheet with the lanes of the first shed in the other order, and the slips that name them so.
pub(crate) const TURNED_SHEET: [u32; 14] = [
    0x10000002, 0x20000001, 0x20001002, 0x10000001, 0x20000001, 0x30000001, 0x40000001, 0x40000004,
    0x40000002, 0x30000000, 0x40000003, 0x30000002, 0x40000002, 0x40000001,
];

pub(crate) const TURNED_1: [u32; 3] = [0x50000001, 0x60000002, 0x60000001];

pub(crate) const TURNED_2: [u32; 3] = [0x50000002, 0x60000001, 0x60000002];

pub(crate) const TURNED_3: [u32; 2] = [0x50000003, 0x60000000];

pub(crate) const TURNED_4: [u32; 2] = [0x50000004, 0x60000001];

pub(crate) const HELD_0: Line = Line::Held { lane: 0 };

pub(crate) const HELD_1: Line = Line::Held { lane: 1 };

pub(crate) const HELD_2: Line = Line::Held { lane: 2 };

// The book of a sheet that is accepted.
pub(crate) fn opens(sheet: &[u32]) -> Result<Book, Fail> {
    let mut book = Book::new();
    book.open(sheet)?;
    Ok(book)
}

// A new round over a sheet's book, under a rule.
fn under<R: SharingRule + Drop>(sheet: &[u32], rule: R) -> Result<Round<R>, Fail> {
    Ok(Round::begin(&opens(sheet)?, rule))
}

pub(crate) fn by_turns(sheet: &[u32]) -> Result<Round<TurnRule>, Fail> {
    under(sheet, LineUp::of(Turns))
}

pub(crate) fn by_shares(sheet: &[u32]) -> Result<Round<ShareRule>, Fail> {
    under(sheet, LineUp::of(Shares))
}

// A call on a round and what it answers, or what the round says.
#[derive(Clone, Copy, Debug)]
pub(crate) enum Step<'a> {
    // a slip is accepted, and its lot is answered
    Enters(&'a [u32], u8),
    // a slip is refused, with the number, the place and the layer
    Refuses(&'a [u32], (u8, usize, Layer)),
    // a lot applies, and has this line then
    Applies(usize, Outcome, Line),
    // an application is refused as idle
    Idle(usize),
    // settling takes so many applications
    Settles(u32),
    // a lot has this line
    Says(usize, Line),
    // so many applications were made
    Counts(u32),
}

// The step tells of a fault, with this number, place and layer.
fn is_fault(
    rt: &impl Abort,
    step: Step<'_>,
    told: Option<Fault>,
    fault: (u8, usize, Layer),
) -> Result<(), Fail> {
    let told = told.ok_or("no refusal")?;
    assert_eq!(rt;
        (told.refusal().number(), told.place(), told.layer()),
        fault,
        "{step:?}"
    );
    Ok(())
}

// An application of the lot is refused as idle, at place 0.
pub(crate) fn is_idle<R: SharingRule>(
    rt: &impl Abort,
    round: &mut Round<R>,
    lot: usize,
) -> Result<(), Fail> {
    is_fault(
        rt,
        Step::Idle(lot),
        round.apply(lot).err(),
        (8, 0, Layer::Round),
    )
}

// The call answers so, or the round says so.
pub(crate) fn makes<R: SharingRule>(
    rt: &impl Abort,
    round: &mut Round<R>,
    step: Step<'_>,
) -> Result<(), Fail> {
    match step {
        Step::Enters(slip, lot) => assert_eq!(rt; round.enter(slip), Ok(lot), "{step:?}"),
        Step::Refuses(slip, fault) => is_fault(rt, step, round.enter(slip).err(), fault)?,
        Step::Applies(lot, outcome, line) => {
            assert_eq!(rt; round.apply(lot), Ok(outcome), "{step:?}");
            assert_eq!(rt; round.line(lot), line, "{step:?}");
        }
        Step::Idle(lot) => is_idle(rt, round, lot)?,
        Step::Settles(applications) => {
            assert_eq!(rt; round.settle(), applications, "{step:?}");
        }
        Step::Says(lot, line) => assert_eq!(rt; round.line(lot), line, "{step:?}"),
        Step::Counts(count) => assert_eq!(rt; round.count(), count, "{step:?}"),
    }
    Ok(())
}

// The steps in order.
pub(crate) fn runs<R: SharingRule>(
    rt: &impl Abort,
    round: &mut Round<R>,
    steps: &[Step<'_>],
) -> Result<(), Fail> {
    for step in steps {
        makes(rt, round, *step)?;
    }
    Ok(())
}

// A round over a sheet's book, by turns, after the steps.
pub(crate) fn after(
    rt: &impl Abort,
    sheet: &[u32],
    steps: &[Step<'_>],
) -> Result<Round<TurnRule>, Fail> {
    let mut round = by_turns(sheet)?;
    runs(rt, &mut round, steps)?;
    Ok(round)
}

// The steps pass on a new round over a sheet's book, by turns.
pub(crate) fn pass(rt: &impl Abort, sheet: &[u32], steps: &[Step<'_>]) -> Result<(), Fail> {
    runs(rt, &mut by_turns(sheet)?, steps)
}

// The list has these lanes in this order.
fn is_list(list: &Wishes, lanes: &[u8]) -> bool {
    let mut places = lanes.iter().enumerate();
    list.lanes() == lanes
        && list.len() == lanes.len()
        && places.all(|(place, lane)| list.get(place) == Some(*lane) && list.has(*lane))
        && list.get(lanes.len()).is_none()
}

// The lot is entered with this list.
pub(crate) fn has_list<R: SharingRule>(
    rt: &impl Abort,
    round: &Round<R>,
    lot: usize,
    lanes: &[u8],
) -> Result<(), Fail> {
    let list = round.list(lot).ok_or("no list")?;
    assert!(rt; is_list(&list, lanes));
    Ok(())
}

// The two rounds say the same of every lot, and have the same count.
pub(crate) fn alike<R: SharingRule>(rt: &impl Abort, one: &Round<R>, other: &Round<R>) {
    for lot in 0..257usize {
        assert_eq!(rt; one.line(lot), other.line(lot), "{}", lot);
        let (ours, theirs) = (one.list(lot), other.list(lot));
        let same = ours.as_ref().map(|list| list.lanes())
            == theirs.as_ref().map(|list| list.lanes());
        assert!(rt; same, "{}", lot);
    }
    assert_eq!(rt; one.count(), other.count());
}

// The faults of a slip at a place: their numbers and layers.
pub(crate) fn strange(place: usize) -> (u8, usize, Layer) {
    (2, place, Layer::Word)
}

pub(crate) fn misplaced(place: usize) -> (u8, usize, Layer) {
    (3, place, Layer::Record)
}

pub(crate) fn too_many(place: usize) -> (u8, usize, Layer) {
    (4, place, Layer::Record)
}

pub(crate) fn unknown(place: usize) -> (u8, usize, Layer) {
    (5, place, Layer::Book)
}

pub(crate) fn twice(place: usize) -> (u8, usize, Layer) {
    (6, place, Layer::Book)
}

// Four sheds of eight lanes, and no ranking.
pub(crate) fn four_sheds() -> [u32; 36] {
    let mut sheet = [0x20000001; 36];
    for word in sheet.iter_mut().step_by(9) {
        *word = 0x10000001;
    }
    sheet
}

// The slip of a lot that wishes the first thirteen lanes in order; all words but the last make one with twelve wishes.
pub(crate) fn thirteen_wishes(lot: u32) -> [u32; 14] {
    let mut slip = [0x50000000 | lot; 14];
    for (word, lane) in slip[1..].iter_mut().zip(0..13u32) {
        *word = 0x60000000 | lane;
    }
    slip
}
