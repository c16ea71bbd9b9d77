use crate::opening::{MISPLACED, OVERTARGETED, STRANGE, TOO_MANY, TWICE, UNKNOWN, refused};

#[test]
fn of_an_unknown_lot_and_a_strange_word_the_first_is_told(rt: HostRuntime) {
    let sheet = [0x10000001, 0x20000001, 0x30000000, 0x40000100, 0x00000000];
    refused(&rt, &sheet, UNKNOWN, 3);
    let sheet = [0x10000001, 0x20000001, 0x30000000, 0x00000000, 0x40000100];
    refused(&rt, &sheet, STRANGE, 3);
}

#[test]
fn of_a_lot_twice_and_a_misplaced_shed_the_first_is_told(rt: HostRuntime) {
    let sheet = [
        0x10000001, 0x20000001, 0x30000000, 0x40000001, 0x40000001, 0x10000001,
    ];
    refused(&rt, &sheet, TWICE, 4);
    let sheet = [
        0x10000001, 0x20000001, 0x30000000, 0x40000001, 0x10000001, 0x40000001,
    ];
    refused(&rt, &sheet, MISPLACED, 4);
}

// Ten lanes under a cap of 1: the ninth stands at place 9, and the second with a target of 1 is overtargeted.
#[test]
fn of_an_overtargeted_lane_and_a_ninth_lane_the_first_is_told(rt: HostRuntime) {
    let mut sheet = [0x20000001; 11];
    sheet[0] = 0x10000001;
    sheet[1] = 0x20001001;
    sheet[10] = 0x20001001;
    refused(&rt, &sheet, TOO_MANY, 9);
    sheet[8] = 0x20001001;
    refused(&rt, &sheet, OVERTARGETED, 8);
}

#[test]
fn of_faults_in_two_records_the_first_is_told(rt: HostRuntime) {
    let sheet = [0x10000000, 0x20001001, 0x30000001];
    refused(&rt, &sheet, OVERTARGETED, 1);
    let sheet = [0x10000000, 0x20000001, 0x30000001, 0x10000000];
    refused(&rt, &sheet, UNKNOWN, 2);
}

#[test]
fn a_word_that_is_strange_and_misplaced_is_strange(rt: HostRuntime) {
    refused(&rt, &[0x21000001], STRANGE, 0);
    let sheet = [0x10000001, 0x20000001, 0x30000000, 0x10001001];
    refused(&rt, &sheet, STRANGE, 3);
}

#[test]
fn a_word_that_is_misplaced_and_faulty_for_the_book_is_misplaced(rt: HostRuntime) {
    refused(&rt, &[0x40000100], MISPLACED, 0);
    let sheet = [0x10000001, 0x20000001, 0x30000000, 0x20002001];
    refused(&rt, &sheet, MISPLACED, 3);
}

#[test]
fn a_ninth_shed_after_a_ranking_is_misplaced(rt: HostRuntime) {
    let mut sheet = [0x10000001; 11];
    sheet[8] = 0x20000001;
    sheet[9] = 0x30000000;
    refused(&rt, &sheet, MISPLACED, 10);
}

#[test]
fn a_ninth_lane_that_is_overtargeted_is_too_many(rt: HostRuntime) {
    let mut sheet = [0x20000001; 10];
    sheet[0] = 0x10000001;
    sheet[9] = 0x20002001;
    refused(&rt, &sheet, TOO_MANY, 9);
}
