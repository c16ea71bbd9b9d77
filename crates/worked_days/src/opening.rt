// What the tests of sheets share.
use books::book::Book;
use sheets::fault::{Fault, Layer, Refusal};
use std::process::Abort;
use std::test::Fail;

// The sheet of the book that docs/FORMATS.md shows as dayview prints it: two sheds and three lanes with rankings.
pub(crate) const SHEET: [u32; 14] = [
    0x10000002, 0x20001002, 0x20000001, 0x10000001, 0x20000001, 0x30000000, 0x40000001, 0x40000004,
    0x40000002, 0x30000001, 0x40000003, 0x30000002, 0x40000002, 0x40000001,
];

// What a sheet may be refused for, and the layer that refuses it.
pub(crate) const STRANGE: (Refusal, Layer) = (Refusal::Strange, Layer::Word);

pub(crate) const MISPLACED: (Refusal, Layer) = (Refusal::Misplaced, Layer::Record);

pub(crate) const TOO_MANY: (Refusal, Layer) = (Refusal::TooMany, Layer::Record);

pub(crate) const UNKNOWN: (Refusal, Layer) = (Refusal::Unknown, Layer::Book);

pub(crate) const TWICE: (Refusal, Layer) = (Refusal::Twice, Layer::Book);

pub(crate) const OVERTARGETED: (Refusal, Layer) = (Refusal::Overtargeted, Layer::Book);

// The book of a sheet that is accepted.
pub(crate) fn opens(sheet: &[u32]) -> Result<Book, Fail> {
    let mut book = Book::new();
    book.open(sheet)?;
    Ok(book)
}

// What a sheet is answered, and the numbers of sheds and lanes that it leaves in a book.
fn opened(sheet: &[u32]) -> (Result<(), Fault>, usize, usize) {
    let mut book = Book::new();
    let answer = book.open(sheet);
    (answer, book.shed_count(), book.lane_count())
}

// The sheet is accepted, and its book has so many sheds and lanes.
pub(crate) fn holds(rt: &impl Abort, sheet: &[u32], sheds: usize, lanes: usize) {
    assert_eq!(rt; opened(sheet), (Ok(()), sheds, lanes));
}

// The sheet is refused for this reason, by this layer and at this place, and the book is empty.
pub(crate) fn refused(
    rt: &impl Abort,
    sheet: &[u32],
    (refusal, layer): (Refusal, Layer),
    place: usize,
) {
    let fault = Fault::new(refusal, place);
    assert_eq!(rt; fault.layer(), layer);
    assert_eq!(rt; opened(sheet), (Err(fault), 0, 0), "sheet {sheet:?}");
}

// In the book the lane ranks these lots in this order and no other.
fn has_ranking(rt: &impl Abort, book: &Book, lane: usize, lots: &[u8]) {
    assert_eq!(rt; book.ranking(lane), lots);
    assert_eq!(rt; book.ranked(lane), Some(lots.len()));
    for (place, lot) in lots.iter().enumerate() {
        assert_eq!(rt; book.lot(lane, place), Some(*lot));
    }
    assert_eq!(rt; book.lot(lane, lots.len()), None);
}

// The sheet is accepted, and in its book the lane ranks these lots in this order and no other.
pub(crate) fn ranks(rt: &impl Abort, sheet: &[u32], lane: usize, lots: &[u8]) -> Result<(), Fail> {
    has_ranking(rt, &opens(sheet)?, lane, lots);
    Ok(())
}

// Four sheds of eight lanes, and two words behind them.
pub(crate) fn four_sheds_and(first: u32, second: u32) -> [u32; 38] {
    let mut sheet = [0x20000001; 38];
    for word in sheet[..36].iter_mut().step_by(9) {
        *word = 0x10000001;
    }
    sheet[36] = first;
    sheet[37] = second;
    sheet
}

// Eight sheds of four lanes, and one lane more.
pub(crate) fn eight_sheds(shed: u32, lane: u32) -> [u32; 41] {
    let mut sheet = [lane; 41];
    for word in sheet[..40].iter_mut().step_by(5) {
        *word = shed;
    }
    sheet
}
