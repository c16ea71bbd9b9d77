use crate::days::{
    HELD_0, HELD_1, HELD_2, LOT_1, LOT_2, LOT_3, LOT_4, SHEET, Step, after, by_turns, has_list,
    opens, pass, runs,
};
use boards::line::Line;
use boards::outcome::Outcome;
use rounds::round::Round;
use sharing::line_up::LineUp;
use sharing::turns::Turns;
use std::test::Fail;

const OUTCOMES: [(Outcome, u8, Option<u8>); 3] = [
    (Outcome::Taken, 1, None),
    (Outcome::TakenFor { dropped: 9 }, 2, Some(9)),
    (Outcome::TurnedAway, 3, None),
];

#[test]
fn an_outcome_has_its_number_and_the_lot_that_was_dropped(rt: HostRuntime) {
    for (outcome, number, dropped) in &OUTCOMES {
        assert!(rt;
            outcome.number() == *number && outcome.dropped() == *dropped,
            "{}",
            *number
        );
    }
}

#[test]
fn in_a_new_round_every_lot_is_absent(rt: HostRuntime) -> Result<(), Fail> {
    let round = by_turns(&SHEET)?;
    assert_eq!(rt; round.count(), 0);
    for lot in 0..256usize {
        assert!(rt;
            round.line(lot) == Line::Absent && round.list(lot).is_none(),
            "{}",
            lot
        );
    }
    Ok(())
}

#[test]
fn a_round_keeps_its_copy_of_the_book(rt: HostRuntime) -> Result<(), Fail> {
    let mut book = opens(&SHEET)?;
    let mut round = Round::begin(&book, LineUp::of(Turns));
    book.open(&[])?;
    runs(
        &rt,
        &mut round,
        &[
            Step::Enters(&LOT_1, 1),
            Step::Applies(1, Outcome::Taken, HELD_2),
        ],
    )
}

#[test]
fn an_entered_lot_looks_at_its_first_wish(rt: HostRuntime) -> Result<(), Fail> {
    let steps = [
        Step::Enters(&LOT_2, 2),
        Step::Says(2, Line::Looking { next: 0 }),
        Step::Counts(0),
    ];
    has_list(&rt, &after(&rt, &SHEET, &steps)?, 2, &[0, 2])
}

#[test]
fn a_lot_with_an_empty_list_is_spent(rt: HostRuntime) -> Result<(), Fail> {
    let steps = [
        Step::Enters(&[0x50000005], 5),
        Step::Says(5, Line::Spent),
        Step::Settles(0),
        Step::Counts(0),
    ];
    has_list(&rt, &after(&rt, &SHEET, &steps)?, 5, &[])
}

// Lanes 0 and 2 do not rank lot 3.
#[test]
fn a_lane_that_does_not_rank_the_lot_turns_it_away(rt: HostRuntime) -> Result<(), Fail> {
    let steps = [
        Step::Enters(&[0x50000003, 0x60000000, 0x60000002], 3),
        Step::Applies(3, Outcome::TurnedAway, Line::Looking { next: 1 }),
        Step::Applies(3, Outcome::TurnedAway, Line::Spent),
        Step::Idle(3),
        Step::Counts(2),
    ];
    pass(&rt, &SHEET, &steps)
}

// Lane 2 has room for one lot and ranks lot 2 above lot 1.
#[test]
fn a_lower_ranked_lot_is_turned_away(rt: HostRuntime) -> Result<(), Fail> {
    let steps = [
        Step::Enters(&[0x50000002, 0x60000002], 2),
        Step::Enters(&LOT_1, 1),
        Step::Applies(2, Outcome::Taken, HELD_2),
        Step::Applies(1, Outcome::TurnedAway, Line::Looking { next: 1 }),
        Step::Says(2, HELD_2),
        Step::Counts(2),
    ];
    pass(&rt, &SHEET, &steps)
}

#[test]
fn a_higher_ranked_lot_is_taken_and_the_other_dropped(rt: HostRuntime) -> Result<(), Fail> {
    let steps = [
        Step::Enters(&[0x50000002, 0x60000002], 2),
        Step::Enters(&LOT_1, 1),
        Step::Applies(1, Outcome::Taken, HELD_2),
        Step::Applies(2, Outcome::TakenFor { dropped: 1 }, HELD_2),
        Step::Says(1, Line::Looking { next: 1 }),
        Step::Counts(2),
    ];
    pass(&rt, &SHEET, &steps)
}

// With lots 2 and 3 in the first shed its cap is reached. Lane 0 has its second place before the first of lane 1, so
// lot 4 is kept on lane 0 and lane 1 keeps nobody.
#[test]
fn a_lot_is_dropped_from_another_lane_of_the_shed(rt: HostRuntime) -> Result<(), Fail> {
    let steps = [
        Step::Enters(&LOT_2, 2),
        Step::Enters(&LOT_3, 3),
        Step::Enters(&LOT_4, 4),
        Step::Applies(2, Outcome::Taken, HELD_0),
        Step::Applies(3, Outcome::Taken, HELD_1),
        Step::Applies(4, Outcome::TakenFor { dropped: 3 }, HELD_0),
        Step::Says(2, HELD_0),
        Step::Says(3, Line::Spent),
        Step::Counts(3),
    ];
    pass(&rt, &SHEET, &steps)
}
