// The account of a call's answer.
use block::Block;
use refusal::Refusal;
use search::Answer;
use std::io;

// The places of a block's ones, each behind a space.
fn places<B: Block>(rt: &HostRuntime, block: B) -> io::Result<String> {
    let mut text = String::new(rt.alloc());
    for place in (0..B::width()).filter(|place| block.first(*place) == Some(*place)) {
        write!(text, " {place}")?;
    }
    Ok(text)
}

// A line for an answer.
pub fn tell<B: Block>(
    rt: &HostRuntime,
    name: &str,
    answer: &Result<Answer<B>, Refusal>,
) -> io::Result<()> {
    match answer {
        Ok(Answer::Done) => println!(rt; "{name}: done"),
        Ok(Answer::Took(n)) => println!(rt; "{name}: {n} bytes"),
        Ok(Answer::Drawn(Some(end))) => {
            let (line, column, position) = (end.line, end.column, end.position);
            println!(rt; "{name}: {line} {column} at {position}")
        }
        Ok(Answer::Drawn(None)) => println!(rt; "{name}: none"),
        Ok(Answer::Count(n)) => println!(rt; "{name}: {n}"),
        Ok(Answer::Block(block)) => {
            let ones = places(rt, *block)?;
            println!(rt; "{name}: ones at{ones}")
        }
        Err(refusal) => {
            let number = refusal.number();
            match refusal.place() {
                Some(place) => println!(rt; "{name}: declined {number} at {place}"),
                None => println!(rt; "{name}: declined {number}"),
            }
        }
    }
}
