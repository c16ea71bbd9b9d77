ghost use Rattle.std.specs.Prelude.{◌≡◌, Some};
ghost use Rattle.books.specs.Contents.{contents};
ghost use Rattle.listing.specs.Lines.{lane_line, told_in};

use books::book::Book;
use std::fmt;

// What a person is told of a lane.
#[derive(Clone, Copy)]
pub(crate) struct LaneLine {
    lane: usize,
    target: u16,
    capacity: u16,
    ranked: usize,
}

impl LaneLine {
    // What is told of a lane of the shed; none if the lane stands in another shed, or is not in the book.
    pub(crate) fn of(book: &Book, shed: usize, lane: usize) -> Option<LaneLine>
        ensures { result ≡ told_in (contents book.now) shed lane }
    {
        if book.shed_of(lane) != Some(shed) {
            return None;
        }
        let card = book.card(shed)?;
        let place = book.place_of(lane)?;
        let ranked = book.ranked(lane)?;
        Some(LaneLine {
            lane,
            target: card.target_of(place),
            capacity: card.capacity_of(place),
            ranked,
        })
    }
}

impl fmt::Display for LaneLine {
    ghost output = { λ l. Some (lane_line l) };

    fn fmt<W: fmt::Write>(&self, f: &mut fmt::Formatter<W>) -> fmt::Result {
        let LaneLine {
            lane,
            target,
            capacity,
            ranked,
        } = *self;
        write!(
            f,
            "  lane {lane}: target {target}, capacity {capacity}, lots ranked {ranked}"
        )
    }
}
