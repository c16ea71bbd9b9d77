use crate::opening::{MISPLACED, TOO_MANY, eight_sheds, four_sheds_and, holds, refused};

#[test]
fn an_empty_sheet_opens(rt: HostRuntime) {
    holds(&rt, &[], 0, 0);
}

#[test]
fn a_shed_without_lanes_opens(rt: HostRuntime) {
    holds(&rt, &[0x10000005], 1, 0);
}

#[test]
fn a_ranking_without_lots_opens(rt: HostRuntime) {
    holds(&rt, &[0x10000001, 0x20000001, 0x30000000], 1, 1);
}

#[test]
fn a_ninth_shed_is_too_many(rt: HostRuntime) {
    let sheet = [0x10000001; 9];
    holds(&rt, &sheet[0..8], 8, 0);
    refused(&rt, &sheet, TOO_MANY, 8);
}

#[test]
fn a_ninth_lane_of_a_shed_is_too_many(rt: HostRuntime) {
    let mut sheet = [0x20000001; 10];
    sheet[0] = 0x10000001;
    holds(&rt, &sheet[0..9], 1, 8);
    refused(&rt, &sheet, TOO_MANY, 9);
}

#[test]
fn a_33rd_lane_is_too_many_in_a_new_shed(rt: HostRuntime) {
    let sheet = four_sheds_and(0x10000001, 0x20000001);
    holds(&rt, &sheet[0..37], 5, 32);
    refused(&rt, &sheet, TOO_MANY, 37);
}

#[test]
fn a_33rd_lane_is_too_many_in_a_shed_with_room(rt: HostRuntime) {
    let sheet = eight_sheds(0x10000001, 0x20000001);
    holds(&rt, &sheet[0..40], 8, 32);
    refused(&rt, &sheet, TOO_MANY, 40);
}

#[test]
fn a_lane_before_any_shed_is_misplaced(rt: HostRuntime) {
    refused(&rt, &[0x20000001, 0x10000001], MISPLACED, 0);
}

#[test]
fn a_shed_after_a_ranking_is_misplaced(rt: HostRuntime) {
    refused(
        &rt,
        &[0x10000001, 0x20000001, 0x30000000, 0x40000001, 0x10000001],
        MISPLACED,
        4,
    );
}

#[test]
fn a_lane_after_a_ranking_is_misplaced(rt: HostRuntime) {
    refused(
        &rt,
        &[0x10000001, 0x20000001, 0x30000000, 0x20000001],
        MISPLACED,
        3,
    );
}

#[test]
fn a_lot_before_any_ranking_is_misplaced(rt: HostRuntime) {
    refused(&rt, &[0x40000001], MISPLACED, 0);
    refused(&rt, &[0x10000001, 0x20000001, 0x40000001], MISPLACED, 2);
}
