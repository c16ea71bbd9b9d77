use crate::days::{
    LOT_1, LOT_2, SHEET, Step, after, alike, by_turns, four_sheds, has_list, makes, misplaced,
    pass, strange, thirteen_wishes, too_many, twice, unknown,
};
use boards::line::Line;
use boards::outcome::Outcome;
use sheets::fault::Layer;
use std::process::Abort;
use std::test::Fail;

// A new round over the sheet refuses the slip so, and is a new round still.
pub(crate) fn refused(
    rt: &impl Abort,
    sheet: &[u32],
    slip: &[u32],
    fault: (u8, usize, Layer),
) -> Result<(), Fail> {
    let mut round = by_turns(sheet)?;
    makes(rt, &mut round, Step::Refuses(slip, fault))?;
    alike(rt, &round, &by_turns(sheet)?);
    Ok(())
}

#[test]
fn a_word_of_another_kind_or_with_a_stray_bit_is_strange(rt: HostRuntime) -> Result<(), Fail> {
    refused(&rt, &SHEET, &[0x40000001], strange(0))?;
    refused(&rt, &SHEET, &[0x50001001], strange(0))?;
    refused(&rt, &SHEET, &[0x50000001, 0x70000000], strange(1))?;
    refused(
        &rt,
        &SHEET,
        &[0x50000001, 0x60000000, 0x60001002],
        strange(2),
    )
}

#[test]
fn a_slip_with_no_word_is_misplaced(rt: HostRuntime) -> Result<(), Fail> {
    refused(&rt, &SHEET, &[], misplaced(0))
}

#[test]
fn a_first_word_that_is_not_lot_is_misplaced(rt: HostRuntime) -> Result<(), Fail> {
    refused(&rt, &SHEET, &[0x60000000, 0x50000001], misplaced(0))
}

#[test]
fn a_later_lot_is_misplaced(rt: HostRuntime) -> Result<(), Fail> {
    refused(&rt, &SHEET, &[0x50000001, 0x50000001], misplaced(1))?;
    refused(
        &rt,
        &SHEET,
        &[0x50000001, 0x60000000, 0x50000002],
        misplaced(2),
    )
}

#[test]
fn twelve_wishes_are_a_list(rt: HostRuntime) -> Result<(), Fail> {
    let slip = thirteen_wishes(7);
    let round = after(&rt, &four_sheds(), &[Step::Enters(&slip[0..13], 7)])?;
    has_list(&rt, &round, 7, &[0, 1, 2, 3, 4, 5, 6, 7, 8, 9, 10, 11])
}

#[test]
fn a_thirteenth_wish_is_too_many(rt: HostRuntime) -> Result<(), Fail> {
    refused(&rt, &four_sheds(), &thirteen_wishes(7), too_many(13))
}

#[test]
fn lots_0_and_255_are_entered(rt: HostRuntime) -> Result<(), Fail> {
    let steps = [
        Step::Enters(&[0x50000000, 0x60000000], 0),
        Step::Enters(&[0x500000ff, 0x60000002, 0x60000001], 255),
    ];
    let round = after(&rt, &SHEET, &steps)?;
    has_list(&rt, &round, 0, &[0])?;
    has_list(&rt, &round, 255, &[2, 1])?;
    assert!(rt; round.list(1).is_none() && round.list(256).is_none());
    Ok(())
}

#[test]
fn a_lot_above_255_is_unknown(rt: HostRuntime) -> Result<(), Fail> {
    refused(&rt, &SHEET, &[0x50000100], unknown(0))?;
    refused(&rt, &SHEET, &[0x50000fff, 0x60000000], unknown(0))
}

// The last of three lanes is lane 2, that of 32 lanes is lane 31.
#[test]
fn the_last_lane_is_known(rt: HostRuntime) -> Result<(), Fail> {
    pass(&rt, &SHEET, &[Step::Enters(&[0x50000001, 0x60000002], 1)])?;
    pass(
        &rt,
        &four_sheds(),
        &[Step::Enters(&[0x50000001, 0x6000001f], 1)],
    )
}

#[test]
fn a_lane_behind_the_last_is_unknown(rt: HostRuntime) -> Result<(), Fail> {
    refused(
        &rt,
        &SHEET,
        &[0x50000001, 0x60000002, 0x60000003],
        unknown(2),
    )?;
    refused(&rt, &four_sheds(), &[0x50000001, 0x60000020], unknown(1))?;
    refused(&rt, &four_sheds(), &[0x50000001, 0x60000100], unknown(1))?;
    refused(&rt, &[], &[0x50000001, 0x60000000], unknown(1))
}

#[test]
fn a_lane_twice_on_a_list_is_twice(rt: HostRuntime) -> Result<(), Fail> {
    let slip = [0x50000001, 0x60000000, 0x60000002, 0x60000000];
    refused(&rt, &SHEET, &slip, twice(3))
}

// Whether it looks, is held or is spent, and whatever the slip wishes.
#[test]
fn a_lot_that_is_entered_already_is_twice(rt: HostRuntime) -> Result<(), Fail> {
    let steps = [
        Step::Enters(&LOT_1, 1),
        Step::Refuses(&[0x50000001, 0x60000001], twice(0)),
        Step::Applies(1, Outcome::Taken, Line::Held { lane: 2 }),
        Step::Refuses(&LOT_1, twice(0)),
        Step::Enters(&[0x50000005], 5),
        Step::Refuses(&[0x50000005], twice(0)),
    ];
    pass(&rt, &SHEET, &steps)
}

#[test]
fn a_refused_slip_between_two_others_moves_nothing(rt: HostRuntime) -> Result<(), Fail> {
    let slip = [0x50000003, 0x60000001, 0x60000003];
    let steps = [
        Step::Enters(&LOT_1, 1),
        Step::Refuses(&slip, unknown(2)),
        Step::Enters(&LOT_2, 2),
    ];
    let others = [Step::Enters(&LOT_1, 1), Step::Enters(&LOT_2, 2)];
    alike(
        &rt,
        &after(&rt, &SHEET, &steps)?,
        &after(&rt, &SHEET, &others)?,
    );
    Ok(())
}
