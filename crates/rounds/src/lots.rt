ghost use Rattle.std.specs.Prelude.{◌≡◌, ◌+◌, ◌^◌, ◌<◌, replicate, Some, None, slice_index_or, slice_set};
ghost use Rattle.boards.specs.Lines.{noted, wishes_of};
ghost use Rattle.boards.specs.Slips.{list_of, list_at};
ghost use Rattle.boards.specs.Boards.{outcome};
ghost use Rattle.boards.specs.Searches.{next_wish, moved, note_in};

use crate::lines::Lines;
use crate::lists::Lists;
use boards::line::{Event, Line};
use boards::outcome::Outcome;
use boards::wishes::Wishes;

// The list and the line of each lot, and the count of applications.
#[derive(Drop)]
pub struct Lots {
    pub(crate) lists: Lists,
    pub(crate) lines: Lines,
    pub(crate) count: u32,
}

impl Lots {
    // No slip has come.
    pub(crate) fn new() -> Lots
        ensures { result ≡ record { lists = replicate 256 None; lines = replicate 256 Line.Absent; count = 0 } }
    {
        Lots {
            lists: Lists::new(),
            lines: Lines::new(),
            count: 0,
        }
    }

    // The next wish of a looking lot; none of any other.
    pub(crate) fn next_wish(&self, lot: usize) -> Option<u8>
        ensures { result ≡ next_wish (slice_index_or self.now.lines lot Line.Absent) (wishes_of (list_at self.now.lists lot)) }
    {
        match self.lines.of(lot) {
            Line::Looking { next } => self.lists.wishes(lot).get(next as usize),
            Line::Absent | Line::Held { .. } | Line::Spent => None,
        }
    }

    // Rewrites a lot's line by what happened to the lot.
    fn note(&mut self, lot: u8, event: Event)
        ensures { self.new ≡ record self.old { lines = note_in self.old.lists self.old.lines lot event } }
    {
        let list = self.lists.wishes(lot as usize);
        self.lines.note(lot, &list, event);
    }

    // Gives an absent lot its list.
    pub(crate) fn enter(&mut self, lot: u8, list: Wishes)
        ensures { self.new ≡ record self.old {
          lists = slice_set self.old.lists lot (Some (list_of list));
          lines = slice_set self.old.lines lot (noted (list_of list) (slice_index_or self.old.lines lot Line.Absent) Event.Entered);
        } }
    {
        self.lists.set(lot, list);
        self.lines.note(lot, &list, Event::Entered);
    }

    // An application, by the lot that has to go for it.
    pub(crate) fn apply(&mut self, lot: u8, leaver: Option<u8>) -> Outcome
        requires { self.old.count + 1 < 2 ^ 32 }
        ensures answer { result ≡ outcome lot leaver }
        ensures lots { self.new ≡ record self.old {
          lines = moved self.old.lists self.old.lines lot leaver;
          count = self.old.count + 1;
        } }
    {
        self.count += 1;
        match leaver {
            None => {
                self.note(lot, Event::Taken);
                Outcome::Taken
            }
            Some(other) if other == lot => {
                self.note(lot, Event::TurnedAway);
                Outcome::TurnedAway
            }
            Some(other) => {
                self.note(other, Event::Dropped);
                self.note(lot, Event::Taken);
                Outcome::TakenFor { dropped: other }
            }
        }
    }
}
