// Weighs a form, and never past one more than the limit, so that no product wraps.
ghost use Rattle.std.specs.Prelude.{◌≡◌, ◌+◌, ◌≤◌};
ghost use Rattle.compiler.specs.Limit.{capped as capped_of};
ghost use Rattle.form.specs.Form.{Form, Forms, weight as weight_of, weights as weights_of};
ghost use Rattle.limits.specs.Limits.{heaviest};
ghost use Rattle.tree.specs.Stands.{StandAll, Stands};

use limits::HEAVIEST;
use tree::node::Node;
use tree::store::Tree;

// One past the limit stands for every weight above it.
fn capped(w: u32) -> u32
    ensures { result ≡ capped_of w }
{
    w.min(HEAVIEST + 1)
}

// What a quote of that many bytes weighs.
fn quoted(bytes: usize) -> u32
    ensures { result ≡ capped_of (1 + bytes) }
{
    1 + bytes.min(HEAVIEST as usize) as u32
}

// The weight of the form that the node stands for. The node is taken out of its Option before the match on its kinds:
// of a pattern such as `Some(Node::Set { .. } | Node::Out { .. })` a proof learns only that there is a node.
#[cycle(weight_weights)]
pub(crate) fn weight(tree: &Tree, i: usize) -> u32
    ensures small { result ≤ heaviest + 1 }
    ensures value { (f : Form) → Stands tree.now f i → result ≡ capped_of (weight_of f) }
{
    let Some(node) = tree.node(i) else {
        return 0;
    };
    match node {
        Node::Quote { from, to } => quoted(to.saturating_sub(from)),
        Node::Set { .. } | Node::Out { .. } | Node::Start | Node::End => 1,
        Node::Seq { parts } | Node::Or { parts } => capped(1 + weights(tree, parts)),
        Node::Star { part } => capped(1 + weight(tree, part)),
        Node::Rep { most, part, .. } => capped(1 + u32::from(most) * weight(tree, part)),
        // a list is no form
        Node::Nil | Node::Cons { .. } => 0,
    }
}

// The weights of a list of forms together.
#[cycle(weight_weights)]
fn weights(tree: &Tree, i: usize) -> u32
    ensures small { result ≤ heaviest + 1 }
    ensures value { (fs : Forms) → StandAll tree.now fs i → result ≡ capped_of (weights_of fs) }
{
    let Some(node) = tree.node(i) else {
        return 0;
    };
    match node {
        Node::Cons { head, tail } => capped(weight(tree, head) + weights(tree, tail)),
        // the end of the list; a form is no list
        _ => 0,
    }
}
