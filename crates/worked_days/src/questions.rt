use std::test::Fail;
use tables::answer::{Gain, Kept};
use tables::complaint::Complaint;
use tables::question::Question;

// What is wrong with a line; nothing if it is a question.
fn complaint(line: &[u8]) -> Option<Complaint> {
    Question::read(line).err()
}

// What a lane of the line's card keeps.
fn kept(line: &[u8], lane: usize) -> Option<Kept> {
    Question::read(line).ok()?.answer().kept(lane)
}

// Does the shed of the line's card gain by the line's move?
fn gain(line: &[u8]) -> Option<Gain> {
    Question::read(line).ok()?.answer().gain()
}

fn keeps(turns: u16, shares: u16) -> Option<Kept> {
    Some(Kept { turns, shares })
}

fn gains(turns: bool, shares: bool) -> Option<Gain> {
    Some(Gain { turns, shares })
}

#[test]
fn a_line_asks_what_both_rules_keep(rt: HostRuntime) {
    assert_eq!(rt; kept(b"4 4/0/4 2/0/2", 0), keeps(2, 3));
    assert_eq!(rt; kept(b"4 4/0/4 2/0/2", 1), keeps(2, 1));
    assert_eq!(rt; kept(b"4 4/0/4 2/0/2", 2), None);
    assert_eq!(rt; gain(b"4 4/0/4 2/0/2"), None);
}

#[test]
fn a_line_asks_whether_both_rules_gain(rt: HostRuntime) {
    assert_eq!(rt; gain(b"4 4/0/3 2/0/1 0>1"), gains(true, false));
    assert_eq!(rt; gain(b"4 4/0/2 2/0/1 0>1"), gains(false, false));
    assert_eq!(rt; gain(b"4 4/0/4 2/0/0 0>1"), gains(true, true));
    assert_eq!(rt; gain(b"4 4/0/4 2/0/0 0>2"), gains(false, false));
}

#[test]
fn a_line_has_a_cap_up_to_4095(rt: HostRuntime) {
    assert_eq!(rt; complaint(b""), Some(Complaint::NoCap));
    assert_eq!(rt; complaint(b" \t\r"), Some(Complaint::NoCap));
    assert_eq!(rt; complaint(b"4095"), None);
    assert_eq!(rt; complaint(b"4096"), Some(Complaint::WrongCap));
    assert_eq!(rt; complaint(b"-1"), Some(Complaint::WrongCap));
    assert_eq!(rt; complaint(b"\xff 4/0/1"), Some(Complaint::WrongCap));
}

#[test]
fn a_move_is_the_last_word(rt: HostRuntime) {
    assert_eq!(rt; complaint(b"4 0>65535"), None);
    assert_eq!(rt; complaint(b"4 0>65536"), Some(Complaint::WrongMove));
    assert_eq!(rt; complaint(b"4 0>1>2"), Some(Complaint::WrongMove));
    assert_eq!(rt; complaint(b"4 0>"), Some(Complaint::WrongMove));
    assert_eq!(rt; complaint(b"4 0>1 0>"), Some(Complaint::WordBehindMove));
}

#[test]
fn a_card_has_eight_lanes_at_most(rt: HostRuntime) {
    assert_eq!(rt;
        complaint(b"1 1/0/1 1/0/1 1/0/1 1/0/1 1/0/1 1/0/1 1/0/1 1/0/1 0>7"),
        None
    );
    assert_eq!(rt;
        complaint(b"1 1/0/1 1/0/1 1/0/1 1/0/1 1/0/1 1/0/1 1/0/1 1/0/1 x"),
        Some(Complaint::NinthLane)
    );
}

#[test]
fn a_lane_is_three_numbers(rt: HostRuntime) {
    let wrong = Some(Complaint::WrongLane { lane: 0 });
    assert_eq!(rt; complaint(b"4 4/0/65535"), None);
    assert_eq!(rt; complaint(b"4 4/0/65536"), wrong);
    assert_eq!(rt; complaint(b"4 4/0"), wrong);
    assert_eq!(rt; complaint(b"4 4/0/4/4"), wrong);
    assert_eq!(rt; complaint(b"4 4//4"), wrong);
    assert_eq!(rt; complaint(b"4 184467440737095516160/0/1"), wrong);
    assert_eq!(rt; complaint(b"4 000000000000000000004/0/1"), None);
}

#[test]
fn a_lane_fits_the_card(rt: HostRuntime) {
    assert_eq!(rt; complaint(b"4 4095/4/1"), None);
    assert_eq!(rt;
        complaint(b"4 4096/5000/1"),
        Some(Complaint::CapacityTooLarge { lane: 0 })
    );
    assert_eq!(rt;
        complaint(b"4 2/2/1 5/6/1"),
        Some(Complaint::TargetAboveCapacity { lane: 1 })
    );
    assert_eq!(rt; complaint(b"4 2/2/1 2/2/1"), None);
    assert_eq!(rt;
        complaint(b"4 2/2/1 3/3/1 x"),
        Some(Complaint::TargetsAboveCap { lane: 1 })
    );
}

#[test]
fn a_complaint_has_a_number_and_may_name_a_lane(rt: HostRuntime) {
    assert_eq!(rt; Complaint::NinthLane.number(), 5);
    assert_eq!(rt; Complaint::NinthLane.lane(), None);
    assert_eq!(rt; Complaint::WrongLane { lane: 7 }.number(), 6);
    assert_eq!(rt; Complaint::WrongLane { lane: 7 }.lane(), Some(7));
}

#[test]
fn what_is_kept_and_gained_shows_its_name(rt: HostRuntime) -> Result<(), Fail> {
    let kept = kept(b"4 4/0/4 2/0/2", 0);
    let shown = format!(in rt.alloc(); "{kept:?}")?;
    assert_eq!(rt; shown.as_str(), "Some(Kept { turns: 2, shares: 3 })");
    let gain = gain(b"4 4/0/3 2/0/1 0>1");
    let shown = format!(in rt.alloc(); "{gain:?}")?;
    assert_eq!(rt; shown.as_str(), "Some(Gain { turns: true, shares: false })");
    Ok(())
}
