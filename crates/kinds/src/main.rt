// Runs the conformance check on the kinds that come with the reader, and prints a line for each: its name, the width
// that it answers, and what the check found.

#![tactic(auto)]

use block::Block;
use conform::check_kind;
use doubled::Doubled;
use runlist::RunList;
use std::io;
use word::Word;

type Fourfold<B> = Doubled<Doubled<B>>;

fn report<B: Block>(rt: &impl Print, name: &str) -> io::Result<()> {
    let width = B::width();
    match check_kind::<B>() {
        Ok(()) => println!(rt; "{name}: width {width}, keeps to the interface"),
        Err(deviation) => println!(rt; "{name}: width {width}, {deviation:?}"),
    }
}

fn main(rt: HostRuntime) -> io::Result<()> {
    report::<Word>(&rt, "word")?;
    report::<RunList>(&rt, "run list")?;
    report::<Doubled<Word>>(&rt, "word doubled")?;
    report::<Fourfold<Word>>(&rt, "word doubled twice")?;
    report::<Fourfold<Fourfold<Word>>>(&rt, "word doubled four times")?;
    report::<Doubled<RunList>>(&rt, "run list doubled")
}

#[cfg(test)]
mod tests {
    use super::*;
    use conform::{Call, Deviation, Logic, judge_logic, judge_put, judge_row, judge_sum};
    use std::process::Abort;

    type Pair = Doubled<Word>;

    fn pair(k: usize, byte: u8) -> Pair {
        Pair::none().put(k, byte)
    }

    fn found(rt: &impl Abort, r: Result<(), Deviation>, call: Call, place: usize) {
        assert_eq!(rt; r, Err(Deviation { call, place }));
    }

    // Each judge finds a wrong answer, and says where.
    #[test]
    fn wrong_answers_are_found(rt: HostRuntime) {
        let a = pair(3, 0x0f);
        let b = pair(9, 0x80);
        found(&rt, judge_logic(Logic::And, a, b, a.or(b)), Call::And, 24);
        found(&rt, judge_logic(Logic::Not, a, b, a), Call::Not, 0);
        found(
            &rt,
            judge_sum(Call::Advance, b, b, false, (b, false)),
            Call::Advance,
            72,
        );
        found(
            &rt,
            judge_sum(Call::Add, a, b, false, a.add(b, true)),
            Call::Add,
            0,
        );
        found(&rt, judge_put(a, 9, 1, b), Call::Put, 24);
        found(&rt, judge_row(b"\x00\x01", a), Call::Put, 8);
    }

    // The bit that falls out is judged too.
    #[test]
    fn a_lost_carry_is_found(rt: HostRuntime) {
        let all = Pair::all();
        let none = Pair::none();
        found(
            &rt,
            judge_sum(Call::Add, all, none, true, (none, false)),
            Call::Add,
            128,
        );
    }
}
