ghost use Rattle.std.specs.Prelude.{◌≡◌, ℕ, ◌+◌, ◌^◌, ◌<◌, ◌≤◌, true, [], ◌∷◌, length, is_some, is_ok};
ghost use Rattle.sheets.specs.Progress.{admits, accepts, passes};
ghost use Rattle.sheets.specs.Words.{small};
ghost use Rattle.books.specs.Opening.{unread, progress_of, noted, walk, opening, said, Outcome};

use crate::book::Book;
use sheets::fault::{Fault, Refusal};
use sheets::reader::{Part, Reader};
use sheets::word::{BookWord, Word};
use std::marker::Model;

// A sheet that is being read: the book so far, and the lane whose ranking is being read.
#[derive(Drop)]
pub(super) struct Opening {
    book: Book,
    ranking: Option<usize>,
}

impl Model for Opening {
    ghost use Rattle.std.specs.Prelude.{◌≡◌, ℕ, true, Some};
    ghost use Rattle.books.specs.Contents.{contents, lane_of};
    ghost use Rattle.books.specs.Opening.{Reading, reading};

    ghost Value = { Reading };

    ghost view = { λ o. reading o.book o.ranking };

    // the lane whose ranking is being read has a ranking record
    ghost invariant = { λ o. (l : ℕ) → o.ranking ≡ Some l → (lane_of (contents o.book) l).recorded ≡ true };
}

impl Opening {
    fn new() -> Opening
        ensures { result ≡ unread }
    {
        Opening {
            book: Book::new(),
            ranking: None,
        }
    }

    // One word that the record reader has admitted.
    fn note(&mut self, word: BookWord) -> Result<(), Refusal>
        requires admitted { is_ok (admits (progress_of self.old) word) ≡ true }
        requires small { small word }
        ensures { Outcome (noted self.old word) result self.new }
    {
        match word {
            BookWord::Shed { cap } => {
                self.book.add_shed(cap);
                Ok(())
            }
            BookWord::Lane { target, capacity } => self.book.add_lane(target, capacity),
            BookWord::Rank { lane } => self.note_record(lane as usize),
            BookWord::Next { lot } => self.note_lot(lot),
        }
    }

    fn note_record(&mut self, lane: usize) -> Result<(), Refusal>
        ensures { Outcome (noted self.old (BookWord.Rank lane)) result self.new }
    {
        if lane >= self.book.lane_count() {
            return Err(Refusal::Unknown);
        }
        if self.book.has_record(lane) {
            return Err(Refusal::Twice);
        }
        self.book.begin_record(lane);
        self.ranking = Some(lane);
        Ok(())
    }

    fn note_lot(&mut self, lot: u16) -> Result<(), Refusal>
        ensures { Outcome (noted self.old (BookWord.Next lot)) result self.new }
    {
        let lane = self.ranking.ok_or(Refusal::Misplaced)?;
        let lot = u8::try_from(lot).map_err(|_| Refusal::Unknown)?;
        if self.book.ranks(lane, lot) {
            return Err(Refusal::Twice);
        }
        self.book.rank(lane, lot);
        Ok(())
    }

    // One word of the sheet at its place, which the record reader has accepted.
    fn read_word(&mut self, word: u32, place: usize) -> Result<(), Fault>
        requires { is_some (accepts (progress_of self.old) word) ≡ true }
        ensures { Outcome (walk self.old place (word ∷ [])) result self.new }
    {
        let word = BookWord::read(word, place)?;
        self.note(word)
            .map_err(|refusal| Fault::new(refusal, place))
    }

    // The words of a record in order.
    fn read_record(&mut self, part: Part<'_>) -> Result<(), Fault>
        requires passing { passes (progress_of self.old) part.words.now ≡ true }
        requires places { part.place + length part.words.now < 2 ^ 64 }
        ensures { Outcome (walk self.old part.entry.place part.entry.words.now) result self.new }
    {
        for (i, word) in part.words.iter().enumerate() {
            self.read_word(*word, part.place + i)?;
        }
        Ok(())
    }

    // A whole sheet.
    pub(super) fn read(sheet: &[u32]) -> Result<Book, Fault>
        ensures { said result ≡ opening sheet.now }
    {
        let mut opening = Opening::new();
        let mut reader = Reader::new(sheet);
        while let Some(part) = reader.next_record()? {
            opening.read_record(part)?;
        }
        Ok(opening.book)
    }
}
