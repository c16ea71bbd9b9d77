ghost use Rattle.std.specs.Prelude.{◌≡◌, [], length};
ghost use Rattle.books.specs.Contents.{contents};
ghost use Rattle.boards.specs.Slips.{list_of, wish_more, wished, wishes_from};
ghost use Rattle.boards.specs.Reading.{listed, Pushed};

use crate::wishes::{MOST_WISHES, Wishes};
use books::book::Book;
use sheets::fault::{Fault, Refusal};
use sheets::word::{SlipWord, Word};

impl Wishes {
    // Takes the lane of a word as one wish more, for a book. Of the word's faults the first in this order is told.
    fn wish(&mut self, word: SlipWord, book: &Book) -> Result<(), Refusal>
        ensures { Pushed (wish_more (length (contents book.now).lanes) (list_of self.old) word) result (list_of self.new) }
    {
        let SlipWord::Wish { lane } = word else {
            return Err(Refusal::Misplaced);
        };
        if self.len() >= MOST_WISHES {
            return Err(Refusal::TooMany);
        }
        if lane as usize >= book.lane_count() {
            return Err(Refusal::Unknown);
        }
        let lane = lane as u8;
        if self.has(lane) {
            return Err(Refusal::Twice);
        }
        self.lanes.push(lane).unwrap();
        Ok(())
    }

    // One word behind the LOT word, at its place on the slip.
    fn read_wish(&mut self, word: u32, place: usize, book: &Book) -> Result<(), Fault>
        ensures { Pushed (wished (length (contents book.now).lanes) (list_of self.old) place word) result (list_of self.new) }
    {
        let word = SlipWord::read(word, place)?;
        self.wish(word, book)
            .map_err(|refusal| Fault::new(refusal, place))
    }

    // The words behind the LOT word of a slip, for a book.
    pub fn read(words: &[u32], book: &Book) -> Result<Wishes, Fault>
        ensures { listed result ≡ wishes_from (length (contents book.now).lanes) [] 1 words.now }
    {
        let mut wishes = Wishes::new();
        for (index, word) in words.iter().enumerate() {
            wishes.read_wish(*word, index + 1, book)?;
        }
        Ok(wishes)
    }
}
