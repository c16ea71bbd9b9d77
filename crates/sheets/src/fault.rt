ghost use Rattle.std.specs.Prelude.{◌≡◌};
ghost use Rattle.sheets.specs.Faults.{standing, fault};

// Why something is refused. The numbers are those that a refusal line prints.
#[derive(Clone, Copy, PartialEq, Eq, Debug)]
pub enum Refusal {
    Ragged = 1,
    Strange = 2,
    Misplaced = 3,
    TooMany = 4,
    Unknown = 5,
    Twice = 6,
    Overtargeted = 7,
    Idle = 8,
    Short = 9,
    Misfit = 10,
}

// What refused it: the reading of the input, of a word, of a record, the book, the round, or the reading of a plan.
#[derive(Clone, Copy, PartialEq, Eq, Debug)]
pub enum Layer {
    Input,
    Word,
    Record,
    Book,
    Round,
    Plan,
}

// A refusal, the place of the word that is refused, and the layer that refused it.
#[derive(Clone, Copy, PartialEq, Eq, Debug)]
pub struct Fault {
    refusal: Refusal,
    place: usize,
    layer: Layer,
}

impl Refusal {
    pub fn number(self) -> u8
        ensures { result ≡ (standing self).0 }
    {
        self as u8
    }

    pub fn layer(self) -> Layer
        ensures { result ≡ (standing self).1 }
    {
        match self {
            Refusal::Ragged => Layer::Input,
            Refusal::Strange => Layer::Word,
            Refusal::Misplaced | Refusal::TooMany => Layer::Record,
            Refusal::Unknown | Refusal::Twice | Refusal::Overtargeted => Layer::Book,
            Refusal::Idle | Refusal::Short => Layer::Round,
            Refusal::Misfit => Layer::Plan,
        }
    }
}

impl Fault {
    pub fn new(refusal: Refusal, place: usize) -> Fault
        ensures { result ≡ fault refusal place }
    {
        Fault {
            refusal,
            place,
            layer: refusal.layer(),
        }
    }

    pub fn refusal(self) -> Refusal
        ensures { result ≡ self.refusal }
    {
        self.refusal
    }

    pub fn place(self) -> usize
        ensures { result ≡ self.place }
    {
        self.place
    }

    pub fn layer(self) -> Layer
        ensures { result ≡ self.layer }
    {
        self.layer
    }
}
