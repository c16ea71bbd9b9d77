use crate::parts::is_part;
use sheets::fault::{Fault, Refusal};
use sheets::reader::Reader;
use sheets::slip::take_apart;
use sheets::word::{SlipWord, Word};
use std::process::Abort;
use std::test::Fail;

// The slips of the run have these places and lengths, and behind them there is none.
fn slips(rt: &impl Abort, run: &[u32], parts: &[(usize, usize)]) -> Result<(), Fail> {
    let mut reader = Reader::new(run);
    for (place, length) in parts {
        is_part(rt, reader.next_slip(), run, *place, *length)?;
    }
    assert!(rt; reader.next_slip().is_none() && reader.next_slip().is_none());
    Ok(())
}

#[test]
fn an_empty_run_has_no_slip(rt: HostRuntime) -> Result<(), Fail> {
    slips(&rt, &[], &[])
}

#[test]
fn slips_are_cut_before_each_lot_word(rt: HostRuntime) -> Result<(), Fail> {
    let run = [
        0x50000001, 0x60000000, 0x60000001, 0x50000002, 0x50000002, 0x60000003,
    ];
    slips(&rt, &run, &[(0, 3), (3, 1), (4, 2)])
}

#[test]
fn a_strange_word_of_kind_5_begins_a_slip(rt: HostRuntime) -> Result<(), Fail> {
    let run = [0x50000001, 0x5fffffff, 0x60000000, 0x50001000];
    slips(&rt, &run, &[(0, 1), (1, 2), (3, 1)])
}

#[test]
fn words_before_the_first_lot_word_are_a_slip(rt: HostRuntime) -> Result<(), Fail> {
    let run = [0x60000000, 0x4fffffff, 0x00000005, 0x50000001];
    slips(&rt, &run, &[(0, 3), (3, 1)])
}

// The slip is its lot and the words behind it.
fn is_made_of(rt: &impl Abort, slip: &[u32], lot: u16, wishes: &[u32]) -> Result<(), Fail> {
    let (found, rest) = take_apart(slip)?;
    assert_eq!(rt; found, lot);
    assert!(rt; rest == wishes);
    Ok(())
}

// The slip is refused at its first place.
fn refused(rt: &impl Abort, slip: &[u32], refusal: Refusal) {
    assert_eq!(rt; take_apart(slip).err(), Some(Fault::new(refusal, 0)));
}

#[test]
fn a_slip_is_its_lot_and_its_wishes(rt: HostRuntime) -> Result<(), Fail> {
    is_made_of(
        &rt,
        &[0x50000007, 0x60000002, 0x60000001],
        7,
        &[0x60000002, 0x60000001],
    )?;
    is_made_of(&rt, &[0x500000ff], 255, &[])
}

#[test]
fn a_slip_without_a_lot_word_first_is_misplaced(rt: HostRuntime) {
    refused(&rt, &[], Refusal::Misplaced);
    refused(&rt, &[0x60000002, 0x50000007], Refusal::Misplaced);
}

#[test]
fn a_slip_with_a_strange_first_word_is_strange(rt: HostRuntime) {
    refused(&rt, &[0x50001007], Refusal::Strange);
    refused(&rt, &[0x60001007], Refusal::Strange);
    refused(&rt, &[0x40000007, 0x60000002], Refusal::Strange);
}

#[test]
fn a_slip_word_has_its_field(rt: HostRuntime) {
    assert_eq!(rt;
        SlipWord::read(0x50000abc, 0),
        Ok(SlipWord::Lot { lot: 0xabc })
    );
    assert_eq!(rt;
        SlipWord::read(0x60000fff, 0),
        Ok(SlipWord::Wish { lane: 0xfff })
    );
}

// The word is strange in a slip.
fn strange(rt: &impl Abort, word: u32) {
    assert_eq!(rt;
        SlipWord::read(word, 4),
        Err(Fault::new(Refusal::Strange, 4))
    );
}

#[test]
fn every_other_bit_of_a_slip_word_is_zero(rt: HostRuntime) {
    for bit in 12..28u32 {
        strange(&rt, 0x50000001 | 1 << bit);
        strange(&rt, 0x60000001 | 1 << bit);
    }
}

#[test]
fn a_slip_has_kinds_5_and_6_alone(rt: HostRuntime) {
    for kind in [0u32, 1, 2, 3, 4, 7, 8, 9, 10, 11, 12, 13, 14, 15] {
        strange(&rt, kind << 28);
    }
}
