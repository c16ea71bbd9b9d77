ghost use Rattle.std.specs.Prelude.{Some};
ghost use Rattle.books.specs.Contents.{contents};
ghost use Rattle.sharing.specs.Cards.{terms};
ghost use Rattle.listing.specs.Lines.{shed_line, shed_lines};

use crate::lane::LaneLine;
use books::book::Book;
use sharing::card::Card;
use std::fmt;

// A shed's line, without its lanes.
#[derive(Clone, Copy)]
pub(crate) struct ShedLine<'a>(pub(crate) &'a Card);

impl fmt::Display for ShedLine<'_> {
    ghost output = { λ s. Some (shed_line (terms s.0.now)) };

    fn fmt<W: fmt::Write>(&self, f: &mut fmt::Formatter<W>) -> fmt::Result {
        let shed = self.0.shed;
        let cap = self.0.cap;
        let lanes = self.0.lanes.len();
        write!(f, "shed {shed}: cap {cap}, lanes {lanes}")
    }
}

// A shed of the book and its lanes, each in a line of its own.
#[derive(Clone, Copy)]
pub(crate) struct ShedLines<'a> {
    pub(crate) book: &'a Book,
    pub(crate) shed: usize,
}

impl fmt::Display for ShedLines<'_> {
    ghost output = { λ s. Some (shed_lines (contents s.book.now) s.shed) };

    fn fmt<W: fmt::Write>(&self, f: &mut fmt::Formatter<W>) -> fmt::Result {
        let Some(card) = self.book.card(self.shed) else {
            return Ok(());
        };
        let line = ShedLine(&card);
        writeln!(f, "{line}")?;
        for lane in 0..self.book.lane_count() {
            if let Some(line) = LaneLine::of(self.book, self.shed, lane) {
                writeln!(f, "{line}")?;
            }
        }
        Ok(())
    }
}
