ghost use Rattle.std.specs.Prelude.{◌≡◌};
ghost use Rattle.books.specs.Contents.{contents};
ghost use Rattle.books.specs.Opening.{opening, left};
ghost use Rattle.days.specs.Input.{day_of, book_in, slip_words, day_book};
ghost use Rattle.days.specs.Parts.{day_in};

use crate::day::DayWords;
use crate::input::{MOST_WORDS, fill};
use books::book::Book;
use sheets::fault::{Fault, Refusal};

// Reads the words of a day, which are put into the table.
pub fn read_day<'a>(bytes: &[u8], table: &'a mut [u32; MOST_WORDS]) -> Result<DayWords<'a>, Fault>
    ensures { day_in result ≡ day_of bytes.now }
{
    fill(bytes, table)
        .and_then(DayWords::of)
        .ok_or(Fault::new(Refusal::Ragged, 0))
}

// Opens the book sheet of a day, which stands behind the number of its words.
pub fn open_book(sheet: &[u32], book: &mut Book) -> Result<(), Fault>
    ensures answer { result ≡ book_in (opening sheet.now) }
    ensures book { contents book.new ≡ left (opening sheet.now) }
{
    book.open(sheet)
        .map_err(|fault| Fault::new(fault.refusal(), fault.place() + 1))
}

// Opens the book sheet of a day and answers how many slip words follow it. A refusal has its place in the whole input,
// and leaves the empty book.
pub fn open_day(bytes: &[u8], book: &mut Book) -> Result<usize, Fault>
    ensures answer { result ≡ slip_words (day_of bytes.now) }
    ensures book { contents book.new ≡ day_book (day_of bytes.now) }
{
    *book = Book::new();
    let mut words = [0u32; MOST_WORDS];
    let day = read_day(bytes, &mut words)?;
    open_book(day.book, book)?;
    Ok(day.slips.len())
}
