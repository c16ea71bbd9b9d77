ghost use Rattle.std.specs.Prelude.{◌<◌, ◌≤◌, length};
ghost use Rattle.std.specs.List.{sum_by};

use rows::row::Row;

// A lane as it stands on a card: how many lots it may keep, and how many of them come first.
#[derive(Clone, Copy)]
pub struct CardLane {
    pub capacity: u16,
    pub target: u16,
    ghost small: { capacity ≤ 4095 },
    ghost within: { target ≤ capacity },
}

// What a sharing rule is asked about: one shed, its cap, and its lanes, by their place on the card.
#[derive(Clone, Copy)]
pub struct Card {
    pub shed: u8,
    pub cap: u16,
    pub lanes: Row<CardLane, 8>,
    ghost shed_known: { shed < 8 },
    ghost cap_small: { «cap» ≤ 4095 },
    ghost few_lanes: { length lanes.items ≤ 8 },
    ghost targets_fit: { sum_by (λ lane. lane.target) lanes.items ≤ «cap» },
}
