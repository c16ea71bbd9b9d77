// Slips with two faults: the first faulty word is told, and of the faults of one word the one with the smaller number.
use crate::days::{
    LOT_1, SHEET, Step, four_sheds, misplaced, pass, strange, thirteen_wishes, too_many, twice,
    unknown,
};
use crate::refused_slips::refused;
use sheets::fault::Layer;
use std::process::Abort;
use std::test::Fail;

#[test]
fn of_a_strange_word_and_an_unknown_lane_the_first_is_told(rt: HostRuntime) -> Result<(), Fail> {
    let strange_first = [0x50000001, 0x60001000, 0x60000003];
    refused(&rt, &SHEET, &strange_first, strange(1))?;
    let unknown_first = [0x50000001, 0x60000003, 0x60001000];
    refused(&rt, &SHEET, &unknown_first, unknown(1))
}

#[test]
fn of_a_later_lot_and_a_lane_twice_the_first_is_told(rt: HostRuntime) -> Result<(), Fail> {
    let lot_first = [0x50000001, 0x60000000, 0x50000002, 0x60000000];
    refused(&rt, &SHEET, &lot_first, misplaced(2))?;
    let twice_first = [0x50000001, 0x60000000, 0x60000000, 0x50000002];
    refused(&rt, &SHEET, &twice_first, twice(2))
}

#[test]
fn of_a_lane_twice_and_an_unknown_lane_the_first_is_told(rt: HostRuntime) -> Result<(), Fail> {
    let twice_first = [0x50000001, 0x60000000, 0x60000000, 0x60000003];
    refused(&rt, &SHEET, &twice_first, twice(2))?;
    let unknown_first = [0x50000001, 0x60000000, 0x60000003, 0x60000000];
    refused(&rt, &SHEET, &unknown_first, unknown(2))
}

#[test]
fn an_unknown_lot_is_told_before_a_strange_wish(rt: HostRuntime) -> Result<(), Fail> {
    refused(&rt, &SHEET, &[0x50000100, 0x60001000], unknown(0))
}

#[test]
fn a_lot_that_is_entered_is_told_before_a_strange_wish(rt: HostRuntime) -> Result<(), Fail> {
    let steps = [
        Step::Enters(&LOT_1, 1),
        Step::Refuses(&[0x50000001, 0x60001000], twice(0)),
    ];
    pass(&rt, &SHEET, &steps)
}

// A wish before any LOT word and a later LOT word, each with a stray bit.
#[test]
fn strange_goes_before_misplaced(rt: HostRuntime) -> Result<(), Fail> {
    refused(&rt, &SHEET, &[0x60001000], strange(0))?;
    refused(&rt, &SHEET, &[0x50000001, 0x50001001], strange(1))
}

// A lot above 255 and a lane behind the last, each with a stray bit.
#[test]
fn strange_goes_before_unknown(rt: HostRuntime) -> Result<(), Fail> {
    refused(&rt, &SHEET, &[0x50001100], strange(0))?;
    refused(&rt, &SHEET, &[0x50000001, 0x60001003], strange(1))
}

// Twelve wishes for the first twelve lanes, and this word behind them.
fn last(rt: &impl Abort, word: u32, fault: (u8, usize, Layer)) -> Result<(), Fail> {
    let mut slip = thirteen_wishes(1);
    slip[13] = word;
    refused(rt, &four_sheds(), &slip, fault)
}

#[test]
fn strange_and_misplaced_go_before_too_many(rt: HostRuntime) -> Result<(), Fail> {
    last(&rt, 0x60001000, strange(13))?;
    last(&rt, 0x50000002, misplaced(13))
}

#[test]
fn too_many_goes_before_unknown_and_twice(rt: HostRuntime) -> Result<(), Fail> {
    last(&rt, 0x60000020, too_many(13))?;
    last(&rt, 0x60000000, too_many(13))
}
