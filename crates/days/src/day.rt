ghost use Rattle.std.specs.Prelude.{◌≡◌};
ghost use Rattle.days.specs.Input.{parts};
ghost use Rattle.days.specs.Parts.{day_parts};

// The words of a day: those of the book sheet, and those of the slips behind it.
#[derive(Clone, Copy)]
pub struct DayWords<'a> {
    pub book: &'a [u32],
    pub slips: &'a [u32],
}

impl<'a> DayWords<'a> {
    // The parts of a day. The first word says how many book words follow; none where fewer follow.
    pub(crate) fn of(words: &'a [u32]) -> Option<DayWords<'a>>
        ensures { day_parts result ≡ parts words.now }
    {
        let (first, rest) = words.split_first()?;
        let (book, slips) = rest.split_at_checked(*first as usize)?;
        Some(DayWords { book, slips })
    }
}
