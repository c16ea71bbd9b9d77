ghost use Rattle.std.specs.Prelude.{◌≡◌, ◌<◌, List, length, replicate, IfSome, slice_index_or, slice_set};
ghost use Rattle.books.specs.Contents.{contents};
ghost use Rattle.boards.specs.declared.line.Line.{Line};
ghost use Rattle.boards.specs.Lines.{noted, lowest};
ghost use Rattle.boards.specs.Slips.{list_of};
ghost use Rattle.boards.specs.Boards.{filling};
ghost use Rattle.boards.specs.Searches.{seat};

use boards::line::{Event, Line};
use boards::wishes::Wishes;
use books::book::Book;
use std::marker::Model;

// The line of each lot.
#[derive(Drop)]
pub struct Lines {
    lines: [Line; 256],
}

// Clauses see the lines, in the order of the lots.
impl Model for Lines {
    ghost Value = { List Line };

    ghost view = { λ s. s.lines };

    ghost invariant = { λ s. length s.lines ≡ 256 };
}

// The place on a shed's card of the lane that holds the lot; none if it is held elsewhere or not at all.
fn seat(book: &Book, shed: usize, line: Line) -> Option<usize>
    ensures place { result ≡ seat (contents book.now) shed line }
    ensures on_card { IfSome result (λ p. p < 8) }
{
    match line {
        Line::Held { lane } if book.shed_of(lane as usize) == Some(shed) => {
            book.place_of(lane as usize)
        }
        _ => None,
    }
}

impl Lines {
    // Every lot is absent.
    pub(crate) fn new() -> Lines
        ensures { result ≡ replicate 256 Line.Absent }
    {
        Lines {
            lines: [Line::Absent; 256],
        }
    }

    // The line of a lot; absent above 255. By map_or and not copied(), which reads the whole line where a search needs its
    // tag alone.
    pub(crate) fn of(&self, lot: usize) -> Line
        ensures { result ≡ slice_index_or self.now lot Line.Absent }
    {
        self.lines.get(lot).map_or(Line::Absent, |line| *line)
    }

    // Rewrites a lot's line by what happened to the lot; the list is the lot's.
    pub(crate) fn note(&mut self, lot: u8, list: &Wishes, event: Event)
        ensures { self.new ≡ slice_set self.old lot (noted (list_of list.now) (slice_index_or self.old lot Line.Absent) event) }
    {
        let line = &mut self.lines[lot as usize];
        *line = line.after(event, list);
    }

    // The lowest lot that looks; none if none does.
    pub(crate) fn lowest_looking(&self) -> Option<usize>
        ensures { result ≡ lowest 0 self.now }
    {
        self.lines
            .iter()
            .position(|line| matches!(line, Line::Looking { .. }))
    }

    // How many lots each lane of a shed holds, by its place on the card.
    pub(crate) fn filling(&self, book: &Book, shed: usize) -> [u16; 8]
        ensures { result ≡ filling (contents book.now) self.now shed }
    {
        let mut counts = [0u16; 8];
        for line in &self.lines {
            if let Some(place) = seat(book, shed, *line) {
                counts[place] += 1;
            }
        }
        counts
    }
}
