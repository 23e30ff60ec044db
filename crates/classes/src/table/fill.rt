// How a table is filled from a tree.
// A node is first found and then matched: where one pattern does both, as `Some(Node::Cons { .. })`, the proof of the other arms
// doesn't know that it failed.
ghost use Rattle.std.specs.Prelude.{◌≡◌, ◌+◌, ◌≤◌, [], ◌∷◌, ◌++◌, map, length, IfOk};
ghost use Rattle.classes.specs.Numbered.{Adds, Filled, sets_of};
ghost use Rattle.form.specs.Form.{Form, Forms, rep, weight};
ghost use Rattle.form.specs.Positions.{only};
ghost use Rattle.limits.specs.Limits.{heaviest};
ghost use Rattle.theory.specs.Written.{all_classes, classes, or_nothing};
ghost use Rattle.tree.specs.Stands.{StandAll, Stands};

use crate::listed::{inside, outside, quoted};
use crate::table::ClassTable;
use limits::HEAVIEST;
use std::alloc::{AllocError, Global};
use stream::ByteSet;
use tree::node::Node;
use tree::store::Tree;

// The most classes that a form can ask for, which is what the heaviest one weighs.
const MOST: usize = HEAVIEST as usize;

impl ClassTable {
    // An empty table; only this can want memory.
    pub fn new(heap: Global) -> Result<ClassTable, AllocError>
        ensures { IfOk result (λ t. sets_of t ≡ []) }
    {
        let sets = Vec::with_capacity(heap, MOST)?;
        Ok(ClassTable { sets })
    }

    // The sets by the numbers of their classes.
    pub fn sets(&self) -> &[ByteSet]
        ensures { result.now ≡ sets_of self.now }
    {
        self.sets.as_slice()
    }

    // The classes of the form that the node stands for, in the place of what the table held.
    pub fn fill(&mut self, tree: &Tree, i: usize)
        ensures { (f : Form) → Stands tree.now f i → weight f ≤ heaviest → Filled self.new (classes f) }
    {
        self.sets.clear();
        self.form(tree, i);
    }

    // One class more, where there is room.
    fn put(&mut self, set: ByteSet)
        ensures { length (sets_of self.old) + 1 ≤ heaviest → sets_of self.new ≡ sets_of self.old ++ set ∷ [] }
    {
        if self.sets.len() < MOST {
            self.sets.push_reserved(set);
        }
    }

    // The class of each quoted byte.
    fn quote(&mut self, bytes: &[u8])
        ensures { Adds self.old self.new (map only bytes.now) }
    {
        for &byte in bytes {
            self.put(quoted(byte));
        }
    }

    // The classes of the form that the node stands for.
    #[cycle(form_list_repeat_union)]
    fn form(&mut self, tree: &Tree, i: usize)
        ensures { (f : Form) → Stands tree.now f i → Adds self.old self.new (classes f) }
    {
        let Some(node) = tree.node(i) else {
            return;
        };
        match node {
            Node::Quote { from, to } => self.quote(tree.bytes(from, to)),
            Node::Set { from, to } => self.put(inside(tree.ranges(from, to))),
            Node::Out { from, to } => self.put(outside(tree.ranges(from, to))),
            Node::Seq { parts } => self.list(tree, parts),
            Node::Or { parts } => self.union(tree, parts),
            Node::Star { part } => self.form(tree, part),
            Node::Rep { least, most, part } => self.repeat(tree, least, most, part),
            Node::Start | Node::End => {}
            // a list is no form
            Node::Nil | Node::Cons { .. } => {}
        }
    }

    // The classes of a list of forms.
    #[cycle(form_list_repeat_union)]
    fn list(&mut self, tree: &Tree, i: usize)
        ensures { (fs : Forms) → StandAll tree.now fs i → Adds self.old self.new (all_classes fs) }
    {
        let Some(node) = tree.node(i) else {
            return;
        };
        if let Node::Cons { head, tail } = node {
            self.form(tree, head);
            self.list(tree, tail);
        }
    }

    // The classes of a union: that of no form has one, which holds no byte.
    #[cycle(form_list_repeat_union)]
    fn union(&mut self, tree: &Tree, i: usize)
        ensures { (fs : Forms) → StandAll tree.now fs i → Adds self.old self.new (or_nothing fs (all_classes fs)) }
    {
        let Some(node) = tree.node(i) else {
            return;
        };
        match node {
            Node::Cons { head, tail } => {
                self.form(tree, head);
                self.list(tree, tail);
            }
            _ => self.put(ByteSet::none()),
        }
    }

    // The classes of a repeat, which its copies share.
    #[cycle(form_list_repeat_union)]
    fn repeat(&mut self, tree: &Tree, least: u8, most: u8, part: usize)
        ensures { (f : Form) → Stands tree.now f part → Adds self.old self.new (classes (rep least most f)) }
    {
        if least > most {
            self.put(ByteSet::none());
        } else if most > 0 {
            self.form(tree, part);
        }
    }
}
