use crate::opening::SHEET;
use sheets::fault::{Fault, Refusal};
use sheets::reader::{Part, Reader};
use std::process::Abort;
use std::test::Fail;

// There is a part, and it begins at this place of the words and has this length.
pub(crate) fn is_part(
    rt: &impl Abort,
    part: Option<Part<'_>>,
    words: &[u32],
    place: usize,
    length: usize,
) -> Result<(), Fail> {
    let part = part.ok_or("no part")?;
    assert_eq!(rt; (part.place, part.words.len()), (place, length));
    assert!(rt; place <= words.len() && words[place..].starts_with(part.words));
    Ok(())
}

// The reader hands out no record: it is at the end, or tells this fault.
fn no_record(rt: &impl Abort, reader: &mut Reader<'_>, end: Result<(), Fault>) {
    let is_end = reader.next_record().map(|part| part.is_none());
    assert_eq!(rt; is_end, end.map(|()| true));
}

// The records of the sheet have these places and lengths, and no call behind them hands out one more.
fn records(
    rt: &impl Abort,
    sheet: &[u32],
    parts: &[(usize, usize)],
    end: Result<(), Fault>,
) -> Result<(), Fail> {
    let mut reader = Reader::new(sheet);
    for (place, length) in parts {
        is_part(rt, reader.next_record()?, sheet, *place, *length)?;
    }
    no_record(rt, &mut reader, end);
    no_record(rt, &mut reader, end);
    Ok(())
}

#[test]
fn an_empty_sheet_has_no_record(rt: HostRuntime) -> Result<(), Fail> {
    records(&rt, &[], &[], Ok(()))
}

#[test]
fn records_are_parts_of_the_sheet_with_their_places(rt: HostRuntime) -> Result<(), Fail> {
    records(
        &rt,
        &SHEET,
        &[(0, 3), (3, 2), (5, 4), (9, 2), (11, 3)],
        Ok(()),
    )
}

#[test]
fn a_strange_word_ends_a_record_and_is_told_again_and_again(rt: HostRuntime) -> Result<(), Fail> {
    let sheet = [0x10000001, 0x10000001, 0x20000001, 0x00000000, 0x20000001];
    records(
        &rt,
        &sheet,
        &[(0, 1), (1, 2)],
        Err(Fault::new(Refusal::Strange, 3)),
    )
}

#[test]
fn a_misplaced_word_ends_a_record_and_is_told_again_and_again(rt: HostRuntime) -> Result<(), Fail> {
    let sheet = [0x10000001, 0x40000001, 0x20000001];
    records(
        &rt,
        &sheet,
        &[(0, 1)],
        Err(Fault::new(Refusal::Misplaced, 1)),
    )
}

#[test]
fn a_ninth_lane_ends_a_record_and_is_told_again_and_again(rt: HostRuntime) -> Result<(), Fail> {
    let mut sheet = [0x20000001; 11];
    sheet[0] = 0x10000001;
    records(&rt, &sheet, &[(0, 9)], Err(Fault::new(Refusal::TooMany, 9)))
}

#[test]
fn a_refused_first_word_is_told_at_once(rt: HostRuntime) -> Result<(), Fail> {
    records(
        &rt,
        &[0x20000001, 0x10000001],
        &[],
        Err(Fault::new(Refusal::Misplaced, 0)),
    )
}
