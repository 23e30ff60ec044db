// Prints a form as a text.
use std::fmt;
use tree::node::{Node, Range};
use tree::store::Tree;

// The form that a node of a tree stands for.
#[derive(Clone, Copy)]
pub struct Written<'a> {
    pub tree: &'a Tree,
    pub root: usize,
}

impl fmt::Display for Written<'_> {
    fn fmt<W: fmt::Write>(&self, f: &mut fmt::Formatter<W>) -> fmt::Result {
        form(self.tree, self.root, f)
    }
}

fn quote<W: fmt::Write>(bytes: &[u8], f: &mut fmt::Formatter<W>) -> fmt::Result {
    write!(f, "\"")?;
    for &byte in bytes {
        write!(f, "{}", char::from(byte))?;
    }
    write!(f, "\"")
}

// The ranges of a set, each behind a blank, and the closing bracket.
fn items<W: fmt::Write>(ranges: &[Range], f: &mut fmt::Formatter<W>) -> fmt::Result {
    for &Range { low, high } in ranges {
        write!(f, " {low:02X}")?;
        if high != low {
            write!(f, "-{high:02X}")?;
        }
    }
    write!(f, ")")
}

#[cycle(form_list)]
fn form<W: fmt::Write>(tree: &Tree, i: usize, f: &mut fmt::Formatter<W>) -> fmt::Result {
    let Some(node) = tree.node(i) else {
        return Ok(());
    };
    match node {
        Node::Quote { from, to } => quote(tree.bytes(from, to), f),
        Node::Set { from, to } => {
            write!(f, "(set")?;
            items(tree.ranges(from, to), f)
        }
        Node::Out { from, to } => {
            write!(f, "(out")?;
            items(tree.ranges(from, to), f)
        }
        Node::Seq { parts } => {
            write!(f, "(seq")?;
            list(tree, parts, f)
        }
        Node::Or { parts } => {
            write!(f, "(or")?;
            list(tree, parts, f)
        }
        Node::Star { part } => {
            write!(f, "(star ")?;
            form(tree, part, f)?;
            write!(f, ")")
        }
        Node::Rep { least, most, part } => {
            write!(f, "(rep {least} {most} ")?;
            form(tree, part, f)?;
            write!(f, ")")
        }
        Node::Start => write!(f, "(start)"),
        Node::End => write!(f, "(end)"),
        // a list is no form
        Node::Nil | Node::Cons { .. } => Ok(()),
    }
}

// The forms of a list, each behind a blank, and the closing bracket.
#[cycle(form_list)]
fn list<W: fmt::Write>(tree: &Tree, i: usize, f: &mut fmt::Formatter<W>) -> fmt::Result {
    match tree.node(i) {
        Some(Node::Cons { head, tail }) => {
            write!(f, " ")?;
            form(tree, head, f)?;
            list(tree, tail, f)
        }
        _ => write!(f, ")"),
    }
}
