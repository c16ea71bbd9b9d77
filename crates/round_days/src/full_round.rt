// 256 lots with twelve wishes each, on 32 lanes that each rank every lot.
use crate::days::{by_shares, by_turns};
use boards::line::Line;
use rounds::round::Round;
use sharing::rule::SharingRule;
use std::process::Abort;
use std::test::Fail;

// Four sheds with cap 20, each with eight lanes of target 1 and capacity 20. Lane l has lot 5 p + 7 l, less whole
// 256s, at place p of its ranking, so each lot once.
fn sheet() -> [u32; 8260] {
    let mut sheet = [0x20001014; 8260];
    for word in sheet[..36].iter_mut().step_by(9) {
        *word = 0x10000014;
    }
    for (record, lane) in sheet[36..].chunks_exact_mut(257).zip(0..32u8) {
        record[0] = 0x30000000 | lane as u32;
        for (word, place) in record[1..].iter_mut().zip(0..=255u8) {
            *word = 0x40000000 | (5 * place as u32 + 7 * lane as u32) % 256;
        }
    }
    sheet
}

// Wish k is lane 3 lot + 5 k, less whole 32s: twelve lanes, and some of every shed.
fn slip(lot: u8) -> [u32; 13] {
    let lot = lot as u32;
    let mut slip = [0x50000000 | lot; 13];
    for (word, wish) in slip[1..].iter_mut().zip(0..12u8) {
        *word = 0x60000000 | (3 * lot + 5 * wish as u32) % 32;
    }
    slip
}

fn enters_all<R: SharingRule>(rt: &impl Abort, round: &mut Round<R>) {
    for lot in 0..=255u8 {
        assert_eq!(rt; round.enter(&slip(lot)), Ok(lot));
    }
}

// How many lots are absent, look, are held and are spent.
fn counts<R: SharingRule>(round: &Round<R>) -> [usize; 4] {
    [
        (0..256)
            .filter(|lot| round.line(*lot) == Line::Absent)
            .count(),
        (0..256)
            .filter(|lot| matches!(round.line(*lot), Line::Looking { .. }))
            .count(),
        (0..256)
            .filter(|lot| matches!(round.line(*lot), Line::Held { .. }))
            .count(),
        (0..256)
            .filter(|lot| round.line(*lot) == Line::Spent)
            .count(),
    ]
}

// There is a spent lot, since the stores have room for 80. Each shed has turned it away or dropped it, so each holds its
// cap from then on.
fn settles<R: SharingRule + Drop>(rt: &impl Abort, mut round: Round<R>) {
    enters_all(rt, &mut round);
    assert_eq!(rt; counts(&round), [0, 256, 0, 0]);
    let applications = round.settle();
    assert_eq!(rt; counts(&round), [0, 0, 80, 176]);
    assert!(rt; applications == round.count() && applications <= 3072);
}

#[test]
fn a_full_round_settles_by_turns(rt: HostRuntime) -> Result<(), Fail> {
    settles(&rt, by_turns(&sheet())?);
    Ok(())
}

#[test]
fn a_full_round_settles_by_shares(rt: HostRuntime) -> Result<(), Fail> {
    settles(&rt, by_shares(&sheet())?);
    Ok(())
}
