// How a tree is made, and read.
ghost use Rattle.std.specs.Prelude.{◌≡◌, ◌+◌, ◌-◌, ◌<◌, ◌≤◌, true, [], ◌∷◌, ◌++◌, length, take, drop, is_some, IfSome, IfOk, Some, None, vec_len, MatchOption};
ghost use Rattle.std.specs.List.{slice_get};
ghost use Rattle.tree.specs.Nodes.{falls, longest};
ghost use Rattle.tree.specs.Stands.{Pushed, Quoted, Ranged, Same, bytes_of, nodes_of, ranges_of};

use crate::node::{Node, Range};
use crate::store::Tree;
use refusal::LONGEST_TEXT;
use std::alloc::{AllocError, Global};

// How many bytes the longest text has; it asks for no more nodes, quoted bytes or ranges than that.
pub const LONGEST: usize = LONGEST_TEXT;

// Whether the node's parts stand before i.
fn before(node: Node, i: usize) -> bool
    ensures { result ≡ falls node i }
{
    match node {
        Node::Seq { parts } | Node::Or { parts } => parts < i,
        Node::Star { part } | Node::Rep { part, .. } => part < i,
        Node::Cons { head, tail } => head < i && tail < i,
        Node::Quote { .. } | Node::Set { .. } | Node::Out { .. } => true,
        Node::Start | Node::End | Node::Nil => true,
    }
}

// What a pool holds from one place up to another; nothing where it does not go so far.
fn part<T>(pool: &[T], from: usize, to: usize) -> &[T]
    ensures here { to ≤ length pool.now → result.now ≡ take (to - from) (drop from pool.now) }
    ensures past { length pool.now < to → result.now ≡ [] }
{
    pool.get(from..to).unwrap_or(&[])
}

impl Tree {
    // An empty tree with room for the longest text; only this can want memory.
    pub fn new(heap: Global) -> Result<Tree, AllocError>
        ensures { IfOk result (λ t. (nodes_of t ≡ []) × (bytes_of t ≡ []) × (ranges_of t ≡ [])) }
    {
        Ok(Tree {
            nodes: Vec::with_capacity(heap, LONGEST)?,
            bytes: Vec::with_capacity(heap, LONGEST)?,
            ranges: Vec::with_capacity(heap, LONGEST)?,
        })
    }

    // Forgets what it holds and keeps its room.
    pub fn clear(&mut self)
        ensures nodes { nodes_of self.new ≡ [] }
        ensures bytes { bytes_of self.new ≡ [] }
        ensures ranges { ranges_of self.new ≡ [] }
    {
        self.nodes.clear();
        self.bytes.clear();
        self.ranges.clear();
    }

    // The node at i, whose parts stand before it.
    pub fn node(&self, i: usize) -> Option<Node>
        ensures value { result ≡ slice_get (nodes_of self.now) i }
        ensures parts { IfSome result (λ n. falls n i ≡ true) }
    {
        self.nodes.get(i).copied()
    }

    // Adds a node and answers its index; none, and nothing is changed, where a part does not stand before it or there is no room.
    pub fn push(&mut self, node: Node) -> Option<usize>
        ensures pushed { MatchOption result (Same self.old self.new) (λ i. Pushed self.old self.new node i) }
        ensures room { length (nodes_of self.old) < longest → falls node (length (nodes_of self.old)) ≡ true → is_some result ≡ true }
    {
        let i = self.nodes.len();
        if i >= LONGEST || !before(node, i) {
            return None;
        }
        self.nodes.push_reserved(node);
        Some(i)
    }

    // Keeps quoted bytes and answers their node, which is yet to be added; none, and nothing is changed, where there is no room.
    pub fn quote(&mut self, q: &[u8]) -> Option<Node>
        ensures kept { MatchOption result (Same self.old self.new) (λ n. Quoted self.old self.new q.now n) }
        ensures room { length (bytes_of self.old) + length q.now ≤ longest → is_some result ≡ true }
    {
        let from = self.bytes.len();
        let to = from.checked_add(q.len()).filter(|to| *to <= LONGEST)?;
        self.bytes.extend_from_slice(q).ok()?;
        Some(Node::Quote { from, to })
    }

    // Keeps a range; none, and nothing is changed, where there is no room.
    pub fn range(&mut self, r: Range) -> Option<()>
        ensures kept { MatchOption result (Same self.old self.new) (λ _. Ranged self.old self.new r) }
        ensures room { length (ranges_of self.old) < longest → is_some result ≡ true }
    {
        if self.ranges.len() >= LONGEST {
            return None;
        }
        self.ranges.push_reserved(r);
        Some(())
    }

    // How many ranges are kept.
    pub fn ranges_len(&self) -> usize
        ensures { result ≡ length (ranges_of self.now) }
    {
        self.ranges.len()
    }

    // The bytes from one place of their pool up to another; none where they are not there.
    pub fn bytes(&self, from: usize, to: usize) -> &[u8]
        ensures here { to ≤ length (bytes_of self.now) → result.now ≡ take (to - from) (drop from (bytes_of self.now)) }
        ensures past { length (bytes_of self.now) < to → result.now ≡ [] }
    {
        part(self.bytes.as_slice(), from, to)
    }

    // The ranges from one place of their pool up to another; none where they are not there.
    pub fn ranges(&self, from: usize, to: usize) -> &[Range]
        ensures here { to ≤ length (ranges_of self.now) → result.now ≡ take (to - from) (drop from (ranges_of self.now)) }
        ensures past { length (ranges_of self.now) < to → result.now ≡ [] }
    {
        part(self.ranges.as_slice(), from, to)
    }
}
