ghost use Rattle.std.specs.Prelude.{◌≡◌};
ghost use Rattle.boards.specs.Lines.{noted, holds};
ghost use Rattle.boards.specs.Slips.{list_of};

use crate::wishes::Wishes;

// What the round says of a lot: no slip has come; it will apply to its next wish; a lane holds it; it has no wish left.
#[derive(Clone, Copy, PartialEq, Eq, Debug)]
pub enum Line {
    Absent,
    // the next wish, by its place on the list from 0
    Looking { next: u8 },
    Held { lane: u8 },
    Spent,
}

// What happens to a lot.
#[derive(Clone, Copy, PartialEq, Eq, Debug)]
pub enum Event {
    Entered,
    Taken,
    Dropped,
    TurnedAway,
}

impl Line {
    // The line after what happened to the lot; the list is the lot's.
    pub fn after(self, event: Event, list: &Wishes) -> Line
        ensures { result ≡ noted (list_of list.now) self event }
    {
        match (self, event) {
            (Line::Absent, Event::Entered) => list.next_line(0),
            (Line::Looking { next }, Event::Taken) => Line::Held {
                lane: list.get(next as usize).unwrap_or(0),
            },
            (Line::Looking { next }, Event::TurnedAway) => list.next_line(next as usize + 1),
            (Line::Held { lane }, Event::Dropped) => list.next_line(list.place_of(lane) + 1),
            _ => self,
        }
    }

    // Does the lane hold the lot?
    pub fn is_held_at(self, lane: usize) -> bool
        ensures { result ≡ holds self lane }
    {
        matches!(self, Line::Held { lane: at } if at as usize == lane)
    }
}
