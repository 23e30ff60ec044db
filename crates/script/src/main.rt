// Performs a script of calls on a newborn search, and prints an account of what each answers.
//
// A line of standard input is a call: `load TEXT`, `rewind`, `feed PIECE`, `draw`, `close`, `taken`, `weight` or `waiting`; or
// `blocks N`, which says how many working blocks the later calls get. In a text or a piece `\n` stands for a line feed, `\\` for a
// backslash and `\xHH` for any byte. The first argument names the kind of block.

#![tactic(auto)]

mod account;
mod line;

use crate::account::tell;
use crate::line::{Line, Parsed, parse};
use block::Block;
use doubled::Doubled;
use limits::{HEAVIEST, blocks_needed};
use replay::replay;
use runlist::RunList;
use std::env;
use word::Word;

// The calls of the script, in order; a line that is none is told at once.
fn read(rt: &HostRuntime) -> anyhow::Result<Vec<Line>> {
    let heap = rt.alloc();
    let mut lines = Vec::new(heap);
    let mut blocks = usize::MAX;
    for text in rt.lines(heap) {
        let text = text?;
        match parse(heap, text.as_str(), blocks)? {
            Some(Parsed::Call(line)) => lines.push(line)?,
            Some(Parsed::Blocks(n)) => blocks = n,
            None => println!(rt; "no call: {text}")?,
        }
    }
    Ok(lines)
}

// Performs the calls on a kind, with as many working blocks as the heaviest text can ask for, all ones.
fn run<B: Block>(rt: &HostRuntime, lines: &[Line]) -> anyhow::Result<()> {
    let heap = rt.alloc();
    let mut requests = Vec::with_capacity(heap, lines.len())?;
    for line in lines {
        requests.push(line.request())?;
    }
    let mut blocks = vec![in heap; B::all(); blocks_needed(HEAVIEST as usize)]?;
    let answers = replay(heap, requests.as_slice(), blocks.as_mut_slice())?;
    for (line, answer) in lines.iter().zip(answers.iter()) {
        tell(rt, line.name(), answer)?;
    }
    Ok(())
}

fn main(rt: HostRuntime) -> anyhow::Result<()> {
    let heap = rt.alloc();
    let mut kind = String::new(heap);
    for word in env::args(&rt)?.skip(1).take(1) {
        kind = word;
    }
    let lines = read(&rt)?;
    match kind.as_str() {
        "word" => run::<Word>(&rt, lines.as_slice()),
        "runlist" => run::<RunList>(&rt, lines.as_slice()),
        "doubled" => run::<Doubled<Word>>(&rt, lines.as_slice()),
        "fourfold" => run::<Doubled<Doubled<Word>>>(&rt, lines.as_slice()),
        "wide" => run::<Doubled<Doubled<Doubled<Word>>>>(&rt, lines.as_slice()),
        _ => Ok(println!(rt; "no kind: {kind}")?),
    }
}
