ghost use Rattle.std.specs.Prelude.{◌≡◌, ◌≤◌, length};
ghost use Rattle.sheets.specs.Progress.{start, admits, admits_shed, admits_lane, admits_lot, judged, goes_on, run_length, run_progress};

use crate::fault::{Fault, Refusal};
use crate::word::{BookWord, Word};

// How far a book sheet has come: enough to tell a word that is out of place or one too many.
#[derive(Clone, Copy, PartialEq, Eq, Debug, Default)]
pub struct Progress {
    sheds: u8,
    lanes: u8,
    // lanes of the last shed
    lanes_here: u8,
    // has a ranking begun?
    ranking: bool,
}

impl Progress {
    // Before the first word.
    pub fn new() -> Progress
        ensures { result ≡ start }
    {
        Progress::default()
    }

    // One word more, unless it is out of place or one too many.
    fn admit(self, word: BookWord) -> Result<Progress, Refusal>
        ensures { result ≡ admits self word }
    {
        match word {
            BookWord::Shed { .. } => self.admit_shed(),
            BookWord::Lane { .. } => self.admit_lane(),
            BookWord::Rank { .. } => Ok(Progress {
                ranking: true,
                ..self
            }),
            BookWord::Next { .. } => self.admit_lot(),
        }
    }

    fn admit_shed(self) -> Result<Progress, Refusal>
        ensures { result ≡ admits_shed self }
    {
        if self.ranking {
            return Err(Refusal::Misplaced);
        }
        if self.sheds >= 8 {
            return Err(Refusal::TooMany);
        }
        Ok(Progress {
            sheds: self.sheds + 1,
            lanes_here: 0,
            ..self
        })
    }

    fn admit_lane(self) -> Result<Progress, Refusal>
        ensures { result ≡ admits_lane self }
    {
        if self.ranking || self.sheds == 0 {
            return Err(Refusal::Misplaced);
        }
        if self.lanes_here >= 8 || self.lanes >= 32 {
            return Err(Refusal::TooMany);
        }
        Ok(Progress {
            lanes: self.lanes + 1,
            lanes_here: self.lanes_here + 1,
            ..self
        })
    }

    fn admit_lot(self) -> Result<Progress, Refusal>
        ensures { result ≡ admits_lot self }
    {
        if self.ranking {
            Ok(self)
        } else {
            Err(Refusal::Misplaced)
        }
    }

    // The word at a place of the sheet, judged for all that needs no book.
    pub fn judge(self, word: u32, place: usize) -> Result<Progress, Fault>
        ensures { result ≡ judged self word place }
    {
        let word = BookWord::read(word, place)?;
        self.admit(word)
            .map_err(|refusal| Fault::new(refusal, place))
    }

    // One word more that goes on with a record; none where the word begins another record or is refused.
    pub fn go_on(self, word: u32) -> Option<Progress>
        ensures { result ≡ goes_on self word }
    {
        match BookWord::try_from(word) {
            Ok(BookWord::Lane { .. }) => self.admit_lane().ok(),
            Ok(BookWord::Next { .. }) => self.admit_lot().ok(),
            _ => None,
        }
    }

    // How many of the words go on with a record, and how far the sheet has come behind them.
    pub(crate) fn run(mut self, words: &[u32]) -> (usize, Progress)
        ensures length { result.0 ≡ run_length self words.now }
        ensures within { result.0 ≤ length words.now }
        ensures progress { result.1 ≡ run_progress self words.now }
    {
        for (length, word) in words.iter().enumerate() {
            let Some(next) = self.go_on(*word) else {
                return (length, self);
            };
            self = next;
        }
        (words.len(), self)
    }
}
