ghost use Rattle.std.specs.Prelude.{◌≡◌, [], length};
ghost use Rattle.std.specs.List.{slice_get};
ghost use Rattle.books.specs.Lanes.{has};
ghost use Rattle.boards.specs.Lines.{place, next};
ghost use Rattle.boards.specs.Slips.{list_of};

use crate::line::Line;
use crate::wishes::Wishes;
use rows::row::Row;

impl Wishes {
    // A list without a wish.
    pub fn new() -> Wishes
        ensures { list_of result ≡ [] }
    {
        Wishes { lanes: Row::new(0) }
    }

    // The lanes, the most wanted first.
    pub fn lanes(&self) -> &[u8]
        ensures { result.now ≡ list_of self.now }
    {
        &self.lanes
    }

    // How many wishes the list has.
    pub fn len(&self) -> usize
        ensures { result ≡ length (list_of self.now) }
    {
        self.lanes.len()
    }

    // The lane at a place of the list, the most wanted at 0; none behind the last.
    pub fn get(&self, place: usize) -> Option<u8>
        ensures { result ≡ slice_get (list_of self.now) place }
    {
        self.lanes.get(place).copied()
    }

    // Is the lane on the list?
    pub fn has(&self, lane: u8) -> bool
        ensures { result ≡ has (list_of self.now) lane }
    {
        self.lanes.contains(&lane)
    }

    // The place of a lane on the list; the length where it is not there.
    pub(crate) fn place_of(&self, lane: u8) -> usize
        ensures { result ≡ place (list_of self.now) lane }
    {
        self.lanes
            .iter()
            .position(|wish| *wish == lane)
            .unwrap_or(self.len())
    }

    // The line of a lot that has applied to so many wishes in vain.
    pub(crate) fn next_line(&self, tried: usize) -> Line
        ensures { result ≡ next (list_of self.now) tried }
    {
        if tried < self.len() {
            Line::Looking { next: tried as u8 }
        } else {
            Line::Spent
        }
    }
}
