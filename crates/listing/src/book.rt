ghost use Rattle.std.specs.Prelude.{Some};
ghost use Rattle.books.specs.Contents.{contents};
ghost use Rattle.listing.specs.Lines.{book_lines};

use crate::shed::ShedLines;
use crate::totals::TotalsLine;
use books::book::Book;
use std::fmt;

// A book as a person reads it: each shed with its lanes, and the totals in the last line. Each line has its end.
#[derive(Clone, Copy)]
pub struct BookLines<'a>(pub &'a Book);

impl fmt::Display for BookLines<'_> {
    ghost output = { λ b. Some (book_lines (contents b.0.now)) };

    fn fmt<W: fmt::Write>(&self, f: &mut fmt::Formatter<W>) -> fmt::Result {
        let book = self.0;
        for shed in 0..book.shed_count() {
            let lines = ShedLines { book, shed };
            write!(f, "{lines}")?;
        }
        let totals = TotalsLine(book.totals());
        writeln!(f, "{totals}")
    }
}
