use crate::days::{HELD_2, LOT_1, LOT_3, SHEET, Step, after, alike, is_idle};
use boards::line::Line;
use boards::outcome::Outcome;
use rounds::round::Round;
use sharing::turns::TurnRule;
use std::process::Abort;
use std::test::Fail;

// Lot 1 is held, lot 5 is spent, lot 3 looks, and all others are absent.
fn begun(rt: &impl Abort) -> Result<Round<TurnRule>, Fail> {
    let steps = [
        Step::Enters(&LOT_1, 1),
        Step::Applies(1, Outcome::Taken, HELD_2),
        Step::Enters(&[0x50000005], 5),
        Step::Says(5, Line::Spent),
        Step::Enters(&LOT_3, 3),
        Step::Says(3, Line::Looking { next: 0 }),
    ];
    after(rt, &SHEET, &steps)
}

// An application of the lot is idle, and nothing moves.
fn idle(rt: &impl Abort, lot: usize) -> Result<(), Fail> {
    let mut round = begun(rt)?;
    is_idle(rt, &mut round, lot)?;
    alike(rt, &round, &begun(rt)?);
    Ok(())
}

#[test]
fn an_absent_lot_is_idle(rt: HostRuntime) -> Result<(), Fail> {
    idle(&rt, 0)?;
    idle(&rt, 255)
}

#[test]
fn a_held_lot_is_idle(rt: HostRuntime) -> Result<(), Fail> {
    idle(&rt, 1)
}

#[test]
fn a_spent_lot_is_idle(rt: HostRuntime) -> Result<(), Fail> {
    idle(&rt, 5)
}

// 259 is 3 in the lowest eight bits, and lot 3 looks.
#[test]
fn a_number_above_255_is_idle(rt: HostRuntime) -> Result<(), Fail> {
    idle(&rt, 256)?;
    idle(&rt, 259)?;
    idle(&rt, usize::MAX)
}

#[test]
fn a_number_above_255_is_absent_and_has_no_list(rt: HostRuntime) -> Result<(), Fail> {
    let round = begun(&rt)?;
    assert_eq!(rt; round.line(259), Line::Absent);
    assert_eq!(rt; round.line(usize::MAX), Line::Absent);
    assert!(rt; round.list(259).is_none() && round.list(usize::MAX).is_none());
    Ok(())
}
