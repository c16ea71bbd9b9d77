use crate::opening::{OVERTARGETED, holds, refused};

#[test]
fn two_targets_of_1_need_a_cap_of_2(rt: HostRuntime) {
    holds(&rt, &[0x10000002, 0x20001001, 0x20001001], 1, 2);
    refused(&rt, &[0x10000001, 0x20001001, 0x20001001], OVERTARGETED, 2);
}

#[test]
fn a_target_may_equal_its_capacity(rt: HostRuntime) {
    holds(&rt, &[0x10000fff, 0x20002002], 1, 1);
    holds(&rt, &[0x10000fff, 0x20ffffff], 1, 1);
}

#[test]
fn a_target_above_its_capacity_is_overtargeted(rt: HostRuntime) {
    refused(&rt, &[0x10000fff, 0x20002001], OVERTARGETED, 1);
    refused(&rt, &[0x10000fff, 0x20001000], OVERTARGETED, 1);
}

#[test]
fn one_target_above_the_cap_is_overtargeted(rt: HostRuntime) {
    refused(&rt, &[0x10000000, 0x20001001], OVERTARGETED, 1);
}

// The largest cap is 4,095. Eight targets of 511 sum to 4,088, eight of 512 to 4,096.
#[test]
fn eight_targets_fit_the_largest_cap_or_not(rt: HostRuntime) {
    let mut sheet = [0x201ff1ff; 9];
    sheet[0] = 0x10000fff;
    holds(&rt, &sheet, 1, 8);
    let mut sheet = [0x20200200; 9];
    sheet[0] = 0x10000fff;
    refused(&rt, &sheet, OVERTARGETED, 8);
}

#[test]
fn a_target_counts_in_its_own_shed_alone(rt: HostRuntime) {
    holds(&rt, &[0x10000001, 0x20001001, 0x10000001, 0x20001001], 2, 2);
    refused(
        &rt,
        &[0x10000005, 0x20001001, 0x10000001, 0x20001001, 0x20001001],
        OVERTARGETED,
        4,
    );
}

#[test]
fn capacities_may_sum_to_more_than_the_cap(rt: HostRuntime) {
    holds(&rt, &[0x10000000, 0x20000fff, 0x20000fff], 1, 2);
}
