ghost use Rattle.std.specs.Prelude.{◌≡◌, true};
ghost use Rattle.books.specs.Lanes.{distinct, all_below, lots_in};

use rows::row::Row;

// A lane of the book: where it stands, and the lots that it ranks.
#[derive(Clone, Copy)]
pub struct Lane {
    pub(crate) shed: u8,
    // its place on the shed's card
    pub(crate) place: u8,
    // the lots that it ranks, the best first; none until the sheet has a ranking record for it
    ranking: Option<Row<u8, 256>>,
    ghost once: { distinct (lots_in ranking) ≡ true },
    ghost below: { all_below 256 (lots_in ranking) ≡ true },
}

impl Lane {
    ghost use Rattle.std.specs.Prelude.{◌≤◌, false, length};
    ghost use Rattle.books.specs.Lanes.{has};
    ghost use Rattle.books.specs.Entries.{entry, blank_entry, recorded_entry, ranked_entry};

    // A lane without a ranking.
    pub(crate) fn new(shed: u8, place: u8) -> Lane
        ensures { entry result ≡ blank_entry shed place }
    {
        Lane {
            shed,
            place,
            ranking: None,
        }
    }

    // Has the sheet a ranking record for it?
    pub(crate) fn has_record(&self) -> bool
        ensures { result ≡ (entry self.now).recorded }
    {
        self.ranking.is_some()
    }

    // The lots that it ranks, the best first.
    pub(crate) fn lots(&self) -> &[u8]
        ensures value { result.now ≡ (entry self.now).ranking }
        ensures few { length result.now ≤ 256 }
    {
        self.ranking.as_ref().map_or(&[], |lots| &lots[..])
    }

    // A ranking record for it. One that it has goes on.
    pub(crate) fn begin_record(&mut self)
        ensures { entry self.new ≡ recorded_entry (entry self.old) }
    {
        self.ranking = self.ranking.or(Some(Row::new(0)));
    }

    // One lot more, the lowest so far.
    pub(crate) fn rank(&mut self, lot: u8)
        requires recorded { (entry self.old).recorded ≡ true }
        requires fresh { has (entry self.old).ranking lot ≡ false }
        ensures { entry self.new ≡ ranked_entry (entry self.old) lot }
    {
        if let Some(lots) = &mut self.ranking {
            lots.push(lot).unwrap();
        }
    }
}
