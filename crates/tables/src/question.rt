use sharing::card::Card;

// A lot goes from one lane to another. Lanes are named by their place on the card.
#[derive(Clone, Copy, PartialEq, Eq, Debug)]
pub struct Move {
    pub from: usize,
    pub to: usize,
}

// What both rules are asked: a card, a number for each of its lanes, and a move or none. The numbers are a supply where
// the rules are asked what they keep, and a filling where they are asked about the move. A line leaves
// them 0 off the card.
#[derive(Clone, Copy)]
pub struct Question {
    pub card: Card,
    pub numbers: [u16; 8],
    pub moved: Option<Move>,
}

// The three numbers of a lane's word.
#[derive(Clone, Copy)]
pub(crate) struct LaneWord {
    pub(crate) capacity: u16,
    pub(crate) target: u16,
    pub(crate) number: u16,
}
