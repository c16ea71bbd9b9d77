use crate::opening::{SHEET, eight_sheds, opens, ranks};
use books::book::Book;
use books::totals::Totals;
use std::array;
use std::process::Abort;
use std::test::Fail;

// The sheet's book has a card with this shed, cap and number of lanes, and these capacities and targets.
fn has_card(
    rt: &impl Abort,
    sheet: &[u32],
    (shed, cap, lanes): (u8, u16, usize),
    capacity: [u16; 8],
    target: [u16; 8],
) -> Result<(), Fail> {
    let card = opens(sheet)?.card(shed as usize).ok_or("no card")?;
    assert_eq!(rt; (card.shed, card.cap, card.lanes.len()), (shed, cap, lanes));
    let capacities = array::from_fn(|place| card.capacity_of(place));
    let targets = array::from_fn(|place| card.target_of(place));
    assert_eq!(rt; capacities, capacity);
    assert_eq!(rt; targets, target);
    Ok(())
}

#[test]
fn the_first_shed_has_its_card(rt: HostRuntime) -> Result<(), Fail> {
    let capacity = [2, 1, 0, 0, 0, 0, 0, 0];
    let target = [1, 0, 0, 0, 0, 0, 0, 0];
    has_card(&rt, &SHEET, (0, 2, 2), capacity, target)
}

#[test]
fn the_second_shed_has_its_card(rt: HostRuntime) -> Result<(), Fail> {
    let capacity = [1, 0, 0, 0, 0, 0, 0, 0];
    has_card(&rt, &SHEET, (1, 1, 1), capacity, [0; 8])
}

#[test]
fn a_shed_that_is_not_in_the_book_has_no_card(rt: HostRuntime) -> Result<(), Fail> {
    let book = opens(&SHEET)?;
    assert!(rt;
        book.card(2).is_none() && book.card(8).is_none() && book.card(usize::MAX).is_none()
    );
    Ok(())
}

#[test]
fn lanes_rank_the_lots_in_the_order_of_the_sheet(rt: HostRuntime) -> Result<(), Fail> {
    ranks(&rt, &SHEET, 0, &[1, 4, 2])?;
    ranks(&rt, &SHEET, 1, &[3])?;
    ranks(&rt, &SHEET, 2, &[2, 1])
}

#[test]
fn a_lane_that_is_not_in_the_book_has_no_ranking(rt: HostRuntime) -> Result<(), Fail> {
    let book = opens(&SHEET)?;
    assert!(rt; book.ranked(3).is_none() && book.ranked(usize::MAX).is_none());
    Ok(())
}

#[test]
fn there_is_no_lot_behind_a_ranking_or_in_an_unknown_lane(rt: HostRuntime) -> Result<(), Fail> {
    let book = opens(&SHEET)?;
    assert!(rt;
        book.lot(0, 3).is_none() && book.lot(0, usize::MAX).is_none() && book.lot(3, 0).is_none()
    );
    Ok(())
}

// Lanes 0 and 1 are the first shed's, lane 2 is the second's.
#[test]
fn lanes_stand_in_their_sheds(rt: HostRuntime) -> Result<(), Fail> {
    let book = opens(&SHEET)?;
    assert_eq!(rt; (book.shed_of(0), book.place_of(0)), (Some(0), Some(0)));
    assert_eq!(rt; (book.shed_of(1), book.place_of(1)), (Some(0), Some(1)));
    assert_eq!(rt; (book.shed_of(2), book.place_of(2)), (Some(1), Some(0)));
    Ok(())
}

#[test]
fn of_eight_sheds_the_last_lane_is_the_fourth_of_the_last_shed(
    rt: HostRuntime,
) -> Result<(), Fail> {
    let book = opens(&eight_sheds(0x10000fff, 0x203fffff)[0..40])?;
    assert_eq!(rt; (book.shed_of(31), book.place_of(31)), (Some(7), Some(3)));
    Ok(())
}

#[test]
fn a_lane_that_is_not_in_the_book_has_no_shed_and_no_place(rt: HostRuntime) -> Result<(), Fail> {
    let book = opens(&SHEET)?;
    assert!(rt; book.shed_of(3).is_none() && book.shed_of(usize::MAX).is_none());
    assert!(rt; book.place_of(3).is_none() && book.place_of(usize::MAX).is_none());
    Ok(())
}

#[test]
fn a_lane_ranks_the_lots_of_its_ranking_alone(rt: HostRuntime) -> Result<(), Fail> {
    let book = opens(&SHEET)?;
    assert!(rt; book.ranks(0, 4) && book.ranks(1, 3) && book.ranks(2, 1));
    assert!(rt; !book.ranks(0, 3) && !book.ranks(1, 1) && !book.ranks(2, 0));
    Ok(())
}

#[test]
fn a_lane_that_is_not_in_the_book_ranks_no_lot(rt: HostRuntime) -> Result<(), Fail> {
    let book = opens(&SHEET)?;
    assert!(rt; !book.ranks(3, 0) && !book.ranks(3, 1) && !book.ranks(usize::MAX, 1));
    Ok(())
}

const NOTHING: Totals = Totals {
    sheds: 0,
    lanes: 0,
    caps: 0,
    targets: 0,
    capacities: 0,
    ranked: 0,
};

const TOTALS: Totals = Totals {
    sheds: 2,
    lanes: 3,
    caps: 3,
    targets: 1,
    capacities: 4,
    ranked: 6,
};

// Opens one sheet and then another, which may be refused. The book then has these totals.
fn leaves(rt: &impl Abort, first: &[u32], second: &[u32], totals: Totals) -> Result<(), Fail> {
    let mut book = opens(first)?;
    let _ = book.open(second);
    assert_eq!(rt; book.totals(), totals);
    Ok(())
}

#[test]
fn totals_are_sums_over_all_sheds_and_lanes(rt: HostRuntime) -> Result<(), Fail> {
    leaves(&rt, &[], &SHEET, TOTALS)
}

// Eight sheds with a cap of 4,095, each with four lanes of target 1,023 and capacity 4,095.
#[test]
fn totals_may_be_large(rt: HostRuntime) -> Result<(), Fail> {
    let totals = Totals {
        sheds: 8,
        lanes: 32,
        caps: 32_760,
        targets: 32_736,
        capacities: 131_040,
        ranked: 0,
    };
    leaves(
        &rt,
        &[],
        &eight_sheds(0x10000fff, 0x203fffff)[0..40],
        totals,
    )
}

#[test]
fn a_new_book_is_empty(rt: HostRuntime) {
    assert_eq!(rt; Book::new().totals(), NOTHING);
}

#[test]
fn a_second_sheet_replaces_the_first(rt: HostRuntime) -> Result<(), Fail> {
    let totals = Totals {
        sheds: 1,
        lanes: 1,
        caps: 7,
        targets: 3,
        capacities: 5,
        ranked: 0,
    };
    leaves(&rt, &SHEET, &[0x10000007, 0x20003005], totals)
}

// Nothing of the first reading counts as ranked already.
#[test]
fn a_sheet_opens_again_over_itself(rt: HostRuntime) -> Result<(), Fail> {
    leaves(&rt, &SHEET, &SHEET, TOTALS)
}

#[test]
fn an_empty_sheet_empties_the_book(rt: HostRuntime) -> Result<(), Fail> {
    leaves(&rt, &SHEET, &[], NOTHING)
}

#[test]
fn a_refused_sheet_leaves_the_empty_book(rt: HostRuntime) -> Result<(), Fail> {
    leaves(&rt, &SHEET, &[0x10000001, 0x20000001, 0x30000001], NOTHING)
}
