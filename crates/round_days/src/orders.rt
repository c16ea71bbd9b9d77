// The same slips in other orders, with applications in between, end in the same lines and count.
use crate::days::{
    HELD_0, HELD_1, HELD_2, LOT_1, LOT_2, LOT_3, LOT_4, SHEET, Step, TURNED_1, TURNED_2, TURNED_3,
    TURNED_4, TURNED_SHEET, after, alike,
};
use boards::line::Line;
use boards::outcome::Outcome;
use rounds::round::Round;
use sharing::turns::TurnRule;
use std::process::Abort;
use std::test::Fail;

fn the_day(rt: &impl Abort) -> Result<Round<TurnRule>, Fail> {
    let steps = [
        Step::Enters(&LOT_1, 1),
        Step::Enters(&LOT_2, 2),
        Step::Enters(&LOT_3, 3),
        Step::Enters(&LOT_4, 4),
        Step::Settles(4),
    ];
    after(rt, &SHEET, &steps)
}

fn the_turned_day(rt: &impl Abort) -> Result<Round<TurnRule>, Fail> {
    let steps = [
        Step::Enters(&TURNED_1, 1),
        Step::Enters(&TURNED_2, 2),
        Step::Enters(&TURNED_3, 3),
        Step::Enters(&TURNED_4, 4),
        Step::Settles(6),
    ];
    after(rt, &TURNED_SHEET, &steps)
}

// The last slip first, and each lot applies as it comes, but for lot 1.
#[test]
fn the_day_from_the_last_slip(rt: HostRuntime) -> Result<(), Fail> {
    let steps = [
        Step::Enters(&LOT_4, 4),
        Step::Applies(4, Outcome::Taken, HELD_0),
        Step::Enters(&LOT_3, 3),
        Step::Applies(3, Outcome::Taken, HELD_1),
        Step::Enters(&LOT_2, 2),
        Step::Applies(2, Outcome::TakenFor { dropped: 3 }, HELD_0),
        Step::Enters(&LOT_1, 1),
        Step::Settles(1),
    ];
    alike(&rt, &after(&rt, &SHEET, &steps)?, &the_day(&rt)?);
    Ok(())
}

// Lot 3 comes last. Its lane 0 has its first place before the second of lane 1, so lot 2 is dropped there.
#[test]
fn the_turned_day_with_applications_in_between(rt: HostRuntime) -> Result<(), Fail> {
    let steps = [
        Step::Enters(&TURNED_4, 4),
        Step::Applies(4, Outcome::Taken, HELD_1),
        Step::Enters(&TURNED_2, 2),
        Step::Applies(2, Outcome::Taken, HELD_1),
        Step::Enters(&TURNED_1, 1),
        Step::Applies(1, Outcome::Taken, HELD_2),
        Step::Enters(&TURNED_3, 3),
        Step::Applies(3, Outcome::TakenFor { dropped: 2 }, HELD_0),
        Step::Settles(2),
    ];
    alike(
        &rt,
        &after(&rt, &TURNED_SHEET, &steps)?,
        &the_turned_day(&rt)?,
    );
    Ok(())
}

#[test]
fn the_turned_day_settled_after_each_slip(rt: HostRuntime) -> Result<(), Fail> {
    let steps = [
        Step::Enters(&TURNED_3, 3),
        Step::Settles(1),
        Step::Enters(&TURNED_2, 2),
        Step::Settles(1),
        Step::Enters(&TURNED_1, 1),
        Step::Settles(1),
        Step::Enters(&TURNED_4, 4),
        Step::Settles(3),
        Step::Says(4, Line::Spent),
    ];
    alike(
        &rt,
        &after(&rt, &TURNED_SHEET, &steps)?,
        &the_turned_day(&rt)?,
    );
    Ok(())
}
