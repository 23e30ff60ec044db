// Reads a table of texts and prints an account of it; then prints many random forms and reads them again.

#![tactic(auto)]

use crate::build::{bare, nested, padded, quoted};
use crate::random::round_trips;
use crate::render::Written;
use compiler::read_text;
use refusal::Refusal;
use std::io;
use tree::store::Tree;

mod build;
mod random;
mod render;

// The longest text whose form is printed, in bytes.
const SHOWN: usize = 80;

// One line of the account: what became of the text. The runtime and the tree are lent side by side, here and below: the form that is
// printed borrows the tree while the runtime prints.
fn tell(rt: &HostRuntime, tree: &mut Tree, name: &str, text: &str) -> io::Result<()> {
    match read_text(text.as_bytes(), tree) {
        Ok(taken) => {
            let weight = taken.weight;
            if text.len() > SHOWN {
                return println!(rt; "{name} -> weighs {weight}");
            }
            let form = Written {
                tree,
                root: taken.root,
            };
            println!(rt; "{name} -> weighs {weight}: {form}")
        }
        Err(refusal) => {
            let number = refusal.number();
            let place = refusal.place().unwrap_or(0);
            println!(rt; "{name} -> declined {number} {place}")
        }
    }
}

// A line for a text that names itself.
fn show(rt: &HostRuntime, tree: &mut Tree, text: &str) -> io::Result<()> {
    tell(rt, tree, text, text)
}

fn read_ones(rt: &HostRuntime, tree: &mut Tree) -> io::Result<()> {
    for text in [
        r#"(seek "")"#,
        r#"  ( seek "a b" )  "#,
        r##"(seek(seq(start)(star"#")(end)))"##,
        r##"(seek (seq "." (rep 2 3 "#") "."))"##,
        "(seek (out 2E))",
        "(seek (out))",
        "(seek (set 61-7A 20 0A))",
        r#"(seek (or (seq) "a" (set FF)))"#,
        r#"(seek (star (star "a")))"#,
        r#"(seek (rep 0 0 (rep 255 255 (rep 255 255 "abc"))))"#,
        r#"(seek (rep 0 255 (seq "a")))"#,
        "(seek (rep 007 9 (end)))",
    ] {
        show(rt, tree, text)?;
    }
    tell(rt, tree, r#"(seek "a") and a line feed"#, "(seek \"a\")\n")
}

fn unexpected_ones(rt: &HostRuntime, tree: &mut Tree) -> io::Result<()> {
    show(rt, tree, "")?;
    tell(rt, tree, "a lone line feed", "\n")?;
    tell(rt, tree, "(seek and a line feed", "(seek\n")?;
    for text in [
        "(seek)",
        "(seek (set))",
        "(seek (or))",
        r#"(seek (star "a" "b"))"#,
        "(seek (set 7A-6))",
        "(seek (set 7a))",
        r#"(seek (rep 1000 2 "a"))"#,
        "(seek (rep 1 (seq)))",
        r#"(seek (sequence "a"))"#,
        r#"(seek "a") "b""#,
        r#"(seek "a"))"#,
    ] {
        show(rt, tree, text)?;
    }
    Ok(())
}

fn other_ones(rt: &HostRuntime, tree: &mut Tree) -> io::Result<()> {
    for text in [r#"(seek "a"#, "(seek #)", "(seek) #"] {
        show(rt, tree, text)?;
    }
    tell(rt, tree, "a line feed inside", "(seek\n\"a\")")?;
    tell(rt, tree, "a line feed in a quote", "(seek \"a\nb\")")?;
    tell(rt, tree, "two final line feeds", "(seek \"a\")\n\n")?;
    for text in [
        "(seek (set 7A-61))",
        "(seek (out 00 61 7A-79 #))",
        "(seek (rep 0 255 (end)))",
        "(seek (rep 256 300 (end)))",
        "(seek (rep 2 256 (end)))",
        "(seek (rep 3 2 (end)))",
        r#"(seek (rep 255 255 (rep 255 255 (rep 255 255 (rep 255 255 "abc")))))"#,
    ] {
        show(rt, tree, text)?;
    }
    Ok(())
}

// Each text is made as it is told, so that no other waits in memory.
fn long_ones(rt: &HostRuntime, tree: &mut Tree) -> io::Result<()> {
    let heap = rt.alloc();
    tell(
        rt,
        tree,
        "a quote of 999 bytes",
        quoted(heap, 999)?.as_str(),
    )?;
    tell(
        rt,
        tree,
        "a quote of 1000 bytes",
        quoted(heap, 1000)?.as_str(),
    )?;
    tell(
        rt,
        tree,
        "fifteen seqs under seek",
        nested(heap, 15)?.as_str(),
    )?;
    tell(
        rt,
        tree,
        "sixteen seqs under seek",
        nested(heap, 16)?.as_str(),
    )?;
    tell(rt, tree, "4096 bytes", padded(heap, 4096)?.as_str())?;
    tell(rt, tree, "4097 bytes", padded(heap, 4097)?.as_str())?;
    tell(rt, tree, "a set of 1000 items", bare(heap, 1000)?.as_str())
}

// Every byte value as the only byte of a text.
fn first_bytes(rt: &HostRuntime, tree: &mut Tree) -> io::Result<()> {
    let mut stray = 0u32;
    let mut unexpected = 0u32;
    for byte in 0..=255u8 {
        match read_text(&[byte], tree) {
            Err(Refusal::NoToken { .. }) => stray = stray.saturating_add(1),
            Err(Refusal::UnexpectedToken { .. }) => unexpected = unexpected.saturating_add(1),
            _ => {}
        }
    }
    println!(rt; "one byte -> {stray} times declined 3, {unexpected} times declined 4")
}

fn main(rt: HostRuntime) -> io::Result<()> {
    let mut tree = Tree::new(rt.alloc())?;
    read_ones(&rt, &mut tree)?;
    unexpected_ones(&rt, &mut tree)?;
    other_ones(&rt, &mut tree)?;
    long_ones(&rt, &mut tree)?;
    first_bytes(&rt, &mut tree)?;
    round_trips(&rt, &mut tree)
}
