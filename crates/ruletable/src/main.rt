// Asks both sharing rules about cards that are written as lines, and prints what they keep and gain.
#![tactic(auto)]

use std::io::{BufRead, BufReader};
use tables::question::Question;

fn main(rt: HostRuntime) -> anyhow::Result<()> {
    let mut input = BufReader::new(rt.alloc(), rt.stdin())?;
    let mut line = Vec::new(rt.alloc());
    for number in 1..=u64::MAX {
        line.clear();
        if input.read_until(b'\n', &mut line)? == 0 {
            break;
        }
        match Question::read(without_newline(&line)) {
            Ok(question) => show_answer(&rt, &question)?,
            Err(complaint) => println!(rt; "line {number}: {complaint}")?,
        }
    }
    Ok(())
}

// A line without the newline that ends it; the last line may have none.
fn without_newline(line: &[u8]) -> &[u8] {
    line.strip_suffix(b"\n").unwrap_or(line)
}

fn show_answer(rt: &impl Print, question: &Question) -> anyhow::Result<()> {
    let answer = question.answer();
    let card = question.card;
    println!(rt; "cap {}, lanes {}", card.cap, card.lanes.len())?;
    for (lane, kept) in answer.kept_by_lane().iter().enumerate() {
        println!(rt; "  lane {lane}: {kept}")?;
    }
    if let (Some(moved), Some(gain)) = (question.moved, answer.gain()) {
        println!(rt; "  move {moved}: {gain}")?;
    }
    Ok(())
}
