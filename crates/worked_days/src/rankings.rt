use crate::opening::{TWICE, UNKNOWN, four_sheds_and, ranks, refused};
use std::array;
use std::test::Fail;

#[test]
fn lot_255_is_ranked(rt: HostRuntime) -> Result<(), Fail> {
    ranks(
        &rt,
        &[0x10000001, 0x20000001, 0x30000000, 0x400000ff],
        0,
        &[255],
    )
}

#[test]
fn lot_256_is_unknown(rt: HostRuntime) {
    refused(
        &rt,
        &[0x10000001, 0x20000001, 0x30000000, 0x40000100],
        UNKNOWN,
        3,
    );
    refused(
        &rt,
        &[0x10000001, 0x20000001, 0x30000000, 0x40000fff],
        UNKNOWN,
        3,
    );
}

#[test]
fn a_lane_that_is_not_in_the_book_is_unknown(rt: HostRuntime) {
    refused(&rt, &[0x30000000], UNKNOWN, 0);
    refused(&rt, &[0x10000001, 0x20000001, 0x30000001], UNKNOWN, 2);
}

#[test]
fn of_32_lanes_the_last_is_lane_31(rt: HostRuntime) -> Result<(), Fail> {
    ranks(&rt, &four_sheds_and(0x3000001f, 0x40000009), 31, &[9])?;
    refused(&rt, &four_sheds_and(0x30000020, 0x40000009), UNKNOWN, 36);
    Ok(())
}

#[test]
fn a_second_ranking_of_a_lane_is_twice(rt: HostRuntime) {
    refused(
        &rt,
        &[0x10000001, 0x20000001, 0x30000000, 0x30000000],
        TWICE,
        3,
    );
    refused(
        &rt,
        &[
            0x10000001, 0x20000001, 0x20000001, 0x30000000, 0x40000001, 0x30000001, 0x30000000,
        ],
        TWICE,
        6,
    );
}

#[test]
fn a_lot_twice_in_a_ranking_is_twice(rt: HostRuntime) {
    refused(
        &rt,
        &[0x10000001, 0x20000001, 0x30000000, 0x40000000, 0x40000000],
        TWICE,
        4,
    );
    refused(
        &rt,
        &[
            0x10000001, 0x20000001, 0x30000000, 0x40000005, 0x40000006, 0x40000005,
        ],
        TWICE,
        5,
    );
}

// The lane ranked first is lane 1.
#[test]
fn two_lanes_rank_the_same_lots(rt: HostRuntime) -> Result<(), Fail> {
    let sheet = [
        0x10000001, 0x20000001, 0x20000001, 0x30000001, 0x40000005, 0x40000000, 0x30000000,
        0x40000000, 0x40000005,
    ];
    ranks(&rt, &sheet, 0, &[0, 5])?;
    ranks(&rt, &sheet, 1, &[5, 0])
}

// A shed with one lane that ranks all lots, the last first, and one word behind them.
fn all_lots_and(word: u32) -> [u32; 260] {
    let mut sheet = [word; 260];
    sheet[0] = 0x10000001;
    sheet[1] = 0x20000001;
    sheet[2] = 0x30000000;
    for (word, lot) in sheet[3..259].iter_mut().zip(all_lots()) {
        *word = 0x40000000 | lot as u32;
    }
    sheet
}

// Lots 255 to 0.
fn all_lots() -> [u8; 256] {
    array::from_fn(|place| (255 - place) as u8)
}

#[test]
fn a_ranking_of_all_lots_opens(rt: HostRuntime) -> Result<(), Fail> {
    ranks(&rt, &all_lots_and(0)[0..259], 0, &all_lots())
}

#[test]
fn behind_all_lots_every_lot_is_twice(rt: HostRuntime) {
    for lot in 0..256u32 {
        refused(&rt, &all_lots_and(0x40000000 + lot), TWICE, 259);
    }
}

#[test]
fn behind_all_lots_a_lot_above_255_is_unknown(rt: HostRuntime) {
    refused(&rt, &all_lots_and(0x40000100), UNKNOWN, 259);
}
