ghost use Rattle.std.specs.Prelude.{◌≡◌, Some};
ghost use Rattle.tables.specs.Complaints.{said};
ghost use Rattle.tables.specs.Shown.{kept_shown, move_shown, gain_shown, yes_or_no};

use crate::answer::{Gain, Kept};
use crate::complaint::Complaint;
use crate::question::Move;
use std::error::Error;
use std::fmt;

impl Error for Complaint {}

// A complaint in words.
impl fmt::Display for Complaint {
    ghost output = { λ c. Some (said c) };

    fn fmt<W: fmt::Write>(&self, f: &mut fmt::Formatter<W>) -> fmt::Result {
        match *self {
            Complaint::NoCap => write!(f, "no cap"),
            Complaint::WrongCap => write!(f, "the cap is no number up to 4095"),
            Complaint::WordBehindMove => write!(f, "a word behind the move"),
            Complaint::WrongMove => write!(f, "the move is not A>B"),
            Complaint::NinthLane => write!(f, "more than 8 lanes"),
            Complaint::WrongLane { lane } => {
                write!(f, "lane {lane} is not CAPACITY/TARGET/NUMBER")
            }
            Complaint::CapacityTooLarge { lane } => {
                write!(f, "lane {lane} has a capacity above 4095")
            }
            Complaint::TargetAboveCapacity { lane } => {
                write!(f, "lane {lane} has a target above its capacity")
            }
            Complaint::TargetsAboveCap { lane } => {
                write!(f, "the targets up to lane {lane} are above the cap")
            }
        }
    }
}

// What a lane keeps, as the line of a lane says it.
impl fmt::Display for Kept {
    ghost output = { λ k. Some (kept_shown k) };

    fn fmt<W: fmt::Write>(&self, f: &mut fmt::Formatter<W>) -> fmt::Result {
        let Kept { turns, shares } = *self;
        write!(f, "turns keep {turns}, shares keep {shares}")
    }
}

// The same by its name and fields.
impl fmt::Debug for Kept {
    fn fmt<W: fmt::Write>(&self, f: &mut fmt::Formatter<W>) -> fmt::Result {
        f.debug_struct("Kept")
            .field("turns", &self.turns)
            .field("shares", &self.shares)
            .finish()
    }
}

impl fmt::Display for Move {
    ghost output = { λ m. Some (move_shown m) };

    fn fmt<W: fmt::Write>(&self, f: &mut fmt::Formatter<W>) -> fmt::Result {
        let Move { from, to } = *self;
        write!(f, "{from}>{to}")
    }
}

// A gain, as the line of a move says it.
impl fmt::Display for Gain {
    ghost output = { λ g. Some (gain_shown g) };

    fn fmt<W: fmt::Write>(&self, f: &mut fmt::Formatter<W>) -> fmt::Result {
        let turns = yes_or_no(self.turns);
        let shares = yes_or_no(self.shares);
        write!(f, "turns gain {turns}, shares gain {shares}")
    }
}

// The same by its name and fields.
impl fmt::Debug for Gain {
    fn fmt<W: fmt::Write>(&self, f: &mut fmt::Formatter<W>) -> fmt::Result {
        f.debug_struct("Gain")
            .field("turns", &self.turns)
            .field("shares", &self.shares)
            .finish()
    }
}

fn yes_or_no(gain: bool) -> &'static str
    ensures { result.now ≡ yes_or_no gain }
{
    if gain { "yes" } else { "no" }
}
