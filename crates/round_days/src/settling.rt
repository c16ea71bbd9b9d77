use crate::days::{
    HELD_0, HELD_1, HELD_2, LOT_1, LOT_2, LOT_3, LOT_4, SHEET, Step, TURNED_1, TURNED_2, TURNED_3,
    TURNED_4, TURNED_SHEET, alike, by_shares, by_turns, pass, runs,
};
use boards::line::Line;
use boards::outcome::Outcome;
use rounds::round::Round;
use sharing::rule::SharingRule;
use std::process::Abort;
use std::test::Fail;

#[test]
fn an_empty_round_is_settled(rt: HostRuntime) -> Result<(), Fail> {
    assert_eq!(rt; by_turns(&[])?.settle(), 0);
    let mut round = by_turns(&SHEET)?;
    assert_eq!(rt; round.settle(), 0);
    alike(&rt, &round, &by_turns(&SHEET)?);
    Ok(())
}

// On a new round the slips are entered, and settling takes so many applications, all that were made. Then lots 1 to 4
// have these lines.
fn settles<R: SharingRule + Drop>(
    rt: &impl Abort,
    mut round: Round<R>,
    slips: &[Step<'_>],
    applications: u32,
    lines: [Line; 4],
) -> Result<(), Fail> {
    runs(rt, &mut round, slips)?;
    assert_eq!(rt; round.settle(), applications);
    assert_eq!(rt; round.count(), applications);
    for (lot, line) in (1..).zip(lines) {
        assert_eq!(rt; round.line(lot), line, "{lot}");
    }
    Ok(())
}

// The four slips of the sheet, by number.
const SLIPS: [Step<'static>; 4] = [
    Step::Enters(&LOT_1, 1),
    Step::Enters(&LOT_2, 2),
    Step::Enters(&LOT_3, 3),
    Step::Enters(&LOT_4, 4),
];

// The four slips of the turned sheet, by number.
const TURNED_SLIPS: [Step<'static>; 4] = [
    Step::Enters(&TURNED_1, 1),
    Step::Enters(&TURNED_2, 2),
    Step::Enters(&TURNED_3, 3),
    Step::Enters(&TURNED_4, 4),
];

// Lot 4 drops lot 3.
#[test]
fn the_day_by_turns(rt: HostRuntime) -> Result<(), Fail> {
    let lines = [HELD_2, HELD_0, Line::Spent, HELD_0];
    settles(&rt, by_turns(&SHEET)?, &SLIPS, 4, lines)
}

// Beyond the target lane 0 has its second place at 1 of 2, before the first of lane 1 at 1 of 1.
#[test]
fn the_day_by_shares(rt: HostRuntime) -> Result<(), Fail> {
    let lines = [HELD_2, HELD_0, Line::Spent, HELD_0];
    settles(&rt, by_shares(&SHEET)?, &SLIPS, 4, lines)
}

// Lane 0 has its first place before the second of lane 1, since it is the earlier lane. So lot 4 drops lot 2, which
// drops lot 1 from lane 2, which drops lot 4.
#[test]
fn the_turned_day_by_turns(rt: HostRuntime) -> Result<(), Fail> {
    let lines = [HELD_1, HELD_2, HELD_0, Line::Spent];
    settles(&rt, by_turns(&TURNED_SHEET)?, &TURNED_SLIPS, 6, lines)
}

// Lane 1 has its second place at 1 of 2, before the first of lane 0 at 1 of 1. So lot 4 drops lot 3.
#[test]
fn the_turned_day_by_shares(rt: HostRuntime) -> Result<(), Fail> {
    let lines = [HELD_2, HELD_1, Line::Spent, HELD_1];
    settles(&rt, by_shares(&TURNED_SHEET)?, &TURNED_SLIPS, 4, lines)
}

#[test]
fn settling_counts_its_own_applications(rt: HostRuntime) -> Result<(), Fail> {
    let steps = [
        Step::Enters(&LOT_1, 1),
        Step::Enters(&LOT_2, 2),
        Step::Enters(&LOT_3, 3),
        Step::Applies(2, Outcome::Taken, HELD_0),
        Step::Settles(2),
        Step::Counts(3),
        Step::Settles(0),
        Step::Counts(3),
    ];
    pass(&rt, &SHEET, &steps)
}

// No lane ranks lot 6.
#[test]
fn a_settled_round_takes_slips(rt: HostRuntime) -> Result<(), Fail> {
    let steps = [
        Step::Enters(&LOT_1, 1),
        Step::Settles(1),
        Step::Enters(&[0x50000006, 0x60000000], 6),
        Step::Says(6, Line::Looking { next: 0 }),
        Step::Settles(1),
        Step::Says(6, Line::Spent),
        Step::Counts(2),
    ];
    pass(&rt, &SHEET, &steps)
}
