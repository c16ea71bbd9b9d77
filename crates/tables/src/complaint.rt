ghost use Rattle.std.specs.Prelude.{◌≡◌};
ghost use Rattle.tables.specs.Complaints.{standing};

// Why a line is no question. Where a lane is at fault, its place on the card.
#[derive(Clone, Copy, PartialEq, Eq, Debug)]
pub enum Complaint {
    NoCap,
    WrongCap,
    WordBehindMove,
    WrongMove,
    NinthLane,
    WrongLane { lane: usize },
    CapacityTooLarge { lane: usize },
    TargetAboveCapacity { lane: usize },
    TargetsAboveCap { lane: usize },
}

impl Complaint {
    // Of several faults of a word the one with the smallest number is told.
    pub fn number(self) -> u8
        ensures { result ≡ (standing self).0 }
    {
        match self {
            Complaint::NoCap => 1,
            Complaint::WrongCap => 2,
            Complaint::WordBehindMove => 3,
            Complaint::WrongMove => 4,
            Complaint::NinthLane => 5,
            Complaint::WrongLane { .. } => 6,
            Complaint::CapacityTooLarge { .. } => 7,
            Complaint::TargetAboveCapacity { .. } => 8,
            Complaint::TargetsAboveCap { .. } => 9,
        }
    }

    // The lane that is at fault, if one is.
    pub fn lane(self) -> Option<usize>
        ensures { result ≡ (standing self).1 }
    {
        match self {
            Complaint::NoCap
            | Complaint::WrongCap
            | Complaint::WordBehindMove
            | Complaint::WrongMove
            | Complaint::NinthLane => None,
            Complaint::WrongLane { lane }
            | Complaint::CapacityTooLarge { lane }
            | Complaint::TargetAboveCapacity { lane }
            | Complaint::TargetsAboveCap { lane } => Some(lane),
        }
    }
}
