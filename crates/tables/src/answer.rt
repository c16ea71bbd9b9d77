ghost use Rattle.std.specs.Prelude.{◌≡◌, map};
ghost use Rattle.tables.specs.Told.{tells, kept_at};

use rows::row::Row;

// What is asked of both rules, as each answers it.
#[derive(Clone, Copy, PartialEq, Eq)]
pub struct ByRule<T> {
    pub turns: T,
    pub shares: T,
}

// How many lots a lane keeps.
pub type Kept = ByRule<u16>;

// Does the shed gain by a move?
pub type Gain = ByRule<bool>;

// What both rules answer to a question: how many lots each lane of the card keeps, and whether the shed gains by the
// move, if one is asked about.
#[derive(Clone, Copy)]
pub struct Answer {
    pub(crate) kept: Row<Kept, 8>,
    pub(crate) gain: Option<Gain>,
}

impl Answer {
    // What a lane keeps; none if it is not on the card.
    pub fn kept(&self, lane: usize) -> Option<Kept>
        ensures { result ≡ kept_at (tells self.now) lane }
    {
        self.kept.get(lane).copied()
    }

    // What each lane of the card keeps, in the order of the card.
    pub fn kept_by_lane(&self) -> &[Kept]
        ensures turns { map (λ k. k.turns) result.now ≡ (tells self.now).turns }
        ensures shares { map (λ k. k.shares) result.now ≡ (tells self.now).shares }
    {
        &self.kept
    }

    // Does the shed gain by the move? None if no move is asked about.
    pub fn gain(&self) -> Option<Gain>
        ensures { result ≡ (tells self.now).gain }
    {
        self.gain
    }
}
