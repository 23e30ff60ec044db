// Random forms, printed as texts and read again.
ghost use Rattle.std.specs.Prelude.{◌≤◌};

use crate::render::Written;
use reader::read;
use std::alloc::AllocError;
use std::io;
use tree::node::{Node, Range};
use tree::store::Tree;

// A multiplicative generator with a fixed seed, written out so that the forms are the same whatever a library's generator gives.
#[derive(Drop)]
struct Random {
    state: u64,
}

impl Random {
    // A number below n, or 0.
    fn below(&mut self, n: u8) -> u8
        ensures { result ≤ n }
    {
        let x = self
            .state
            .wrapping_mul(6364136223846793005)
            .wrapping_add(1442695040888963407);
        self.state = x;
        if n == 0 {
            return 0;
        }
        ((x >> 33) % u64::from(n)) as u8
    }
}

fn quote(tree: &mut Tree, random: &mut Random) -> Option<Node> {
    let all = [random.below(92) + 0x23, b' ', random.below(92) + 0x23, b'!'];
    match random.below(4) {
        0 => tree.quote(&[]),
        1 => tree.quote(&all[..1]),
        2 => tree.quote(&all[..3]),
        _ => tree.quote(&all),
    }
}

fn ranges(tree: &mut Tree, random: &mut Random, least: u8) -> (usize, usize) {
    let from = tree.ranges_len();
    let more = random.below(3);
    for _ in 0..least.saturating_add(more) {
        let a = random.below(255);
        let b = random.below(255);
        let _kept = tree.range(Range {
            low: a.min(b),
            high: a.max(b),
        });
    }
    (from, tree.ranges_len())
}

// A random list of forms, inside at most `depth` more brackets.
#[cycle(bracket_grow_list)]
fn list(tree: &mut Tree, random: &mut Random, depth: u8, length: u8) -> usize {
    let mut tail = tree.push(Node::Nil).unwrap_or(0);
    for _ in 0..length {
        let head = grow(tree, random, depth);
        tail = tree.push(Node::Cons { head, tail }).unwrap_or(0);
    }
    tail
}

// A random form, with at most `depth` brackets inside each other; the index of its node.
#[cycle(bracket_grow_list)]
fn grow(tree: &mut Tree, random: &mut Random, depth: u8) -> usize {
    let node = if depth == 0 {
        quote(tree, random).unwrap_or(Node::Start)
    } else {
        bracket(tree, random, depth - 1)
    };
    tree.push(node).unwrap_or(0)
}

#[cycle(bracket_grow_list)]
fn bracket(tree: &mut Tree, random: &mut Random, depth: u8) -> Node {
    match random.below(9) {
        0 => {
            let (from, to) = ranges(tree, random, 1);
            Node::Set { from, to }
        }
        1 => {
            let (from, to) = ranges(tree, random, 0);
            Node::Out { from, to }
        }
        2 => {
            let length = random.below(4);
            Node::Seq {
                parts: list(tree, random, depth, length),
            }
        }
        3 => {
            let length = random.below(3) + 1;
            Node::Or {
                parts: list(tree, random, depth, length),
            }
        }
        4 => Node::Star {
            part: grow(tree, random, depth),
        },
        5 => {
            let least = random.below(200);
            let most = least + random.below(55);
            Node::Rep {
                least,
                most,
                part: grow(tree, random, depth),
            }
        }
        6 => Node::Start,
        7 => Node::End,
        _ => quote(tree, random).unwrap_or(Node::End),
    }
}

// Room for most random forms, so that printing one seldom moves it.
const ROOM: usize = 512;

fn text_of(rt: &HostRuntime, tree: &Tree, root: usize) -> Result<String, AllocError> {
    let form = Written { tree, root };
    let mut text = String::with_capacity(rt.alloc(), ROOM)?;
    write!(text, "(seek {form})")?;
    Ok(text)
}

// Whether a random form is printed, read and printed again as the same text.
fn returns(
    rt: &HostRuntime,
    made: &mut Tree,
    other: &mut Tree,
    random: &mut Random,
) -> Result<bool, AllocError> {
    made.clear();
    let root = grow(made, random, 4);
    let first = text_of(rt, made, root)?;
    let Ok(again) = read(first.as_bytes(), other) else {
        return Ok(false);
    };
    Ok(text_of(rt, other, again)? == first)
}

pub fn round_trips(rt: &HostRuntime, tree: &mut Tree) -> io::Result<()> {
    let mut made = Tree::new(rt.alloc())?;
    let mut random = Random { state: 1 };
    let mut same = 0u32;
    for _ in 0..2000 {
        if returns(rt, &mut made, tree, &mut random)? {
            same = same.saturating_add(1);
        }
    }
    println!(rt; "of 2000 random forms {same} come back as they were printed")
}
