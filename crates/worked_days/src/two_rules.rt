use sharing::card::Card;
use sharing::line_up::LineUp;
use sharing::rule::SharingRule;
use sharing::shares::Shares;
use sharing::turns::Turns;
use std::process::Abort;

// A shed with a cap and two lanes, each a capacity and a target; none if there is no such card.
fn two_lanes(cap: u16, first: (u16, u16), second: (u16, u16)) -> Option<Card> {
    [first, second]
        .into_iter()
        .try_fold(Card::new(0, cap)?, |card, (capacity, target)| {
            card.with_lane(target, capacity)
        })
}

fn row(first: u16, second: u16) -> [u16; 8] {
    [first, second, 0, 0, 0, 0, 0, 0]
}

// What the rule keeps of a supply in the two lanes.
fn keeps<R: SharingRule>(rule: &R, card: Option<Card>, supply: [u16; 8]) -> Option<(u16, u16)> {
    let answer = rule.choice(&card?, &supply);
    Some((answer[0], answer[1]))
}

// A shed of cap 4, with capacities 4 and 2, gains so by moving one lot from its first lane to its second.
fn gains<R: SharingRule>(rt: &impl Abort, rule: &R, filling: [u16; 8], gain: bool) {
    let card = two_lanes(4, (4, 0), (2, 0));
    assert_eq!(rt;
        card.map(|card| rule.gain(&card, &filling, 0, 1)),
        Some(gain)
    );
}

#[test]
fn turns_keep_as_many_of_each_lane_as_they_can(rt: HostRuntime) {
    let rule = LineUp::of(Turns);
    assert_eq!(rt;
        keeps(&rule, two_lanes(4, (4, 0), (2, 0)), row(4, 2)),
        Some((2, 2))
    );
    assert_eq!(rt;
        keeps(&rule, two_lanes(3, (4, 0), (2, 0)), row(4, 2)),
        Some((2, 1))
    );
}

#[test]
fn a_target_that_is_not_supplied_leaves_its_place_to_others(rt: HostRuntime) {
    assert_eq!(rt;
        keeps(&LineUp::of(Turns), two_lanes(2, (4, 0), (2, 2)), row(4, 1)),
        Some((1, 1))
    );
}

#[test]
fn shares_keep_by_capacity(rt: HostRuntime) {
    assert_eq!(rt;
        keeps(&LineUp::of(Shares), two_lanes(4, (4, 0), (2, 0)), row(4, 2)),
        Some((3, 1))
    );
}

#[test]
fn a_supply_above_every_capacity_is_cut(rt: HostRuntime) {
    assert_eq!(rt;
        keeps(
            &LineUp::of(Turns),
            two_lanes(4095, (4, 0), (2, 0)),
            row(65535, 65535),
        ),
        Some((4, 2))
    );
    assert_eq!(rt;
        keeps(
            &LineUp::of(Shares),
            two_lanes(4095, (4095, 0), (4095, 0)),
            row(65535, 65535),
        ),
        Some((2048, 2047))
    );
}

#[test]
fn a_shed_gains_by_turns_or_not(rt: HostRuntime) {
    let rule = LineUp::of(Turns);
    gains(&rt, &rule, row(3, 1), true);
    gains(&rt, &rule, row(2, 1), false);
}

#[test]
fn a_shed_gains_by_shares_or_not(rt: HostRuntime) {
    let rule = LineUp::of(Shares);
    gains(&rt, &rule, row(3, 1), false);
    gains(&rt, &rule, row(4, 0), true);
}
