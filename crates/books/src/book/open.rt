ghost use Rattle.std.specs.Prelude.{◌≡◌};
ghost use Rattle.books.specs.Contents.{contents};
ghost use Rattle.books.specs.Faulty.{FirstFault};
ghost use Rattle.books.specs.Opening.{opening, answered, left};

use crate::book::Book;
use crate::book::opening::Opening;
use sheets::fault::Fault;

impl Book {
    // Reads a sheet into the book, and what it held before is gone. A refused sheet leaves the empty book.
    pub fn open(&mut self, sheet: &[u32]) -> Result<(), Fault>
        ensures answer { result ≡ answered (opening sheet.now) }
        ensures faults { FirstFault sheet.now result }
        ensures book { contents self.new ≡ left (opening sheet.now) }
    {
        *self = Book::new();
        *self = Opening::read(sheet)?;
        Ok(())
    }
}
