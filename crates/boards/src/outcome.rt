ghost use Rattle.std.specs.Prelude.{◌≡◌};
ghost use Rattle.boards.specs.Outcomes.{told};

// What became of an application.
#[derive(Clone, Copy, PartialEq, Eq, Debug)]
pub enum Outcome {
    Taken,
    // taken, and this lot was dropped for it
    TakenFor { dropped: u8 },
    TurnedAway,
}

impl Outcome {
    pub fn number(self) -> u8
        ensures { result ≡ (told self).0 }
    {
        match self {
            Outcome::Taken => 1,
            Outcome::TakenFor { .. } => 2,
            Outcome::TurnedAway => 3,
        }
    }

    // The lot that was dropped, if one was.
    pub fn dropped(self) -> Option<u8>
        ensures { result ≡ (told self).1 }
    {
        match self {
            Outcome::TakenFor { dropped } => Some(dropped),
            Outcome::Taken | Outcome::TurnedAway => None,
        }
    }
}
