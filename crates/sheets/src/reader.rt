ghost use Rattle.std.specs.Prelude.{◌≡◌, ℕ, ◌+◌, ◌≤◌, length, take, drop, Ok};
ghost use Rattle.std.specs.Option.{option_map};
ghost use Rattle.sheets.specs.Progress.{start};
ghost use Rattle.sheets.specs.Records.{next_record, record_progress, next_slip, slip_length, page, pages, size};

use crate::fault::Fault;
use crate::progress::Progress;
use crate::word::begins_slip;

// A record as a part of the caller's words, with the place of its first word.
#[derive(Clone, Copy, PartialEq, Eq, Debug)]
pub struct Part<'a> {
    pub words: &'a [u32],
    pub place: usize,
}

// Goes through the caller's words and hands out one record after another.
#[derive(Drop)]
pub struct Reader<'a> {
    words: &'a [u32],
    at: usize,
    progress: Progress,
    ghost within: { at ≤ length words.now },
}

// How many of the words come before the next of kind 5, which begins another slip.
fn words_before_slip(words: &[u32]) -> usize
    ensures count { result ≡ slip_length words.now }
    ensures within { result ≤ length words.now }
{
    words.iter().take_while(|word| !begins_slip(**word)).count()
}

impl<'a> Reader<'a> {
    pub fn new(words: &'a [u32]) -> Reader<'a>
        ensures words { result.words.now ≡ words.now }
        ensures at { result.at ≡ 0 }
        ensures progress { result.progress ≡ start }
    {
        Reader {
            words,
            at: 0,
            progress: Progress::new(),
        }
    }

    // Hands out so many of the words that are left.
    fn hand_out(&mut self, count: usize) -> Part<'a>
        requires { self.old.at + count ≤ length self.old.words.now }
        ensures words { self.new.words.now ≡ self.old.words.now }
        ensures part { page result ≡ record { words = take count (drop self.old.at self.old.words.now); place = self.old.at } }
        ensures at { self.new.at ≡ self.old.at + count }
        ensures progress { self.new.progress ≡ self.old.progress }
    {
        let place = self.at;
        self.at += count;
        Part {
            words: &self.words[place..self.at],
            place,
        }
    }

    // The next record of a book sheet: a SHED or RANK word with the words that go on with it. A refused word ends the
    // record before it and is told by the next call, so that a book can judge what stands before it first.
    pub fn next_record(&mut self) -> Result<Option<Part<'a>>, Fault>
        ensures words { self.new.words.now ≡ self.old.words.now }
        ensures part { pages result ≡ next_record self.old.progress self.old.at (drop self.old.at self.old.words.now) }
        ensures at { self.new.at ≡ self.old.at + size result }
        ensures progress { self.new.progress ≡ record_progress self.old.progress self.old.at (drop self.old.at self.old.words.now) }
    {
        let [first, rest @ ..] = &self.words[self.at..] else {
            return Ok(None);
        };
        let begun = self.progress.judge(*first, self.at)?;
        let (behind, progress) = begun.run(rest);
        self.progress = progress;
        Ok(Some(self.hand_out(1 + behind)))
    }

    // The next slip of a run of words: up to the next word of kind 5, whatever its other bits are.
    pub fn next_slip(&mut self) -> Option<Part<'a>>
        ensures words { self.new.words.now ≡ self.old.words.now }
        ensures part { option_map page result ≡ next_slip self.old.at (drop self.old.at self.old.words.now) }
        ensures at { self.new.at ≡ self.old.at + size (Ok result) }
        ensures progress { self.new.progress ≡ self.old.progress }
    {
        let [_, rest @ ..] = &self.words[self.at..] else {
            return None;
        };
        Some(self.hand_out(1 + words_before_slip(rest)))
    }
}
