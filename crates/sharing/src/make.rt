ghost use Rattle.std.specs.Prelude.{◌≡◌, ◌≤◌, sum};
ghost use Rattle.std.specs.Option.{option_map};
ghost use Rattle.sharing.specs.Cards.{terms, empty_terms, with_lane};
ghost use Rattle.sharing.specs.Rules.{at};

use crate::card::{Card, CardLane};
use rows::row::Row;

impl Card {
    // The card of a shed without lanes; none for a shed above 7 or a cap above 4,095.
    pub fn new(shed: u8, cap: u16) -> Option<Card>
        ensures { option_map terms result ≡ empty_terms shed «cap» }
    {
        if shed > 7 || cap > 4095 {
            return None;
        }
        let blank = CardLane {
            capacity: 0,
            target: 0,
        };
        Some(Card {
            shed,
            cap,
            lanes: Row::new(blank),
        })
    }

    // The target of a lane, 0 off the card.
    pub fn target_of(&self, lane: usize) -> u16
        ensures value { result ≡ at (terms self.now).targets lane }
        ensures small { result ≤ 4095 }
    {
        self.lanes.get(lane).map_or(0, |lane| lane.target)
    }

    // The capacity of a lane, 0 off the card.
    pub fn capacity_of(&self, lane: usize) -> u16
        ensures value { result ≡ at (terms self.now).capacities lane }
        ensures small { result ≤ 4095 }
    {
        self.lanes.get(lane).map_or(0, |lane| lane.capacity)
    }

    // The sum of the targets.
    pub fn targets(&self) -> u32
        ensures { result ≡ sum (terms self.now).targets }
    {
        self.lanes.iter().map(|lane| lane.target as u32).sum()
    }

    // The sum of the capacities.
    pub fn capacities(&self) -> u32
        ensures { result ≡ sum (terms self.now).capacities }
    {
        self.lanes.iter().map(|lane| lane.capacity as u32).sum()
    }

    // The card with one lane more; none if it has eight, the capacity is above 4,095, the target is above the capacity
    // or the targets would not fit the cap.
    pub fn with_lane(&self, target: u16, capacity: u16) -> Option<Card>
        ensures { option_map terms result ≡ with_lane (terms self.now) target capacity }
    {
        if capacity > 4095
            || target > capacity
            || self.targets() + target as u32 > self.cap as u32
        {
            return None;
        }
        let mut card = *self;
        card.lanes.push(CardLane { capacity, target }).ok()?;
        Some(card)
    }
}
