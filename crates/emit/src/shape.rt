// What the pattern of a form is like, from the form's node, which is first found and then matched, as in the walk.
ghost use Rattle.std.specs.Prelude.{◌≡◌, ℕ};
ghost use Rattle.emit.specs.Walking.{is_leaf, is_nil};
ghost use Rattle.form.specs.Form.{Form, Forms};
ghost use Rattle.theory.specs.Written.{empty as empty_of, in_order_of, one_of, pattern};
ghost use Rattle.tree.specs.Stands.{StandAll, Stands};

use tree::node::Node;
use tree::store::Tree;

// Whether the list has no form.
pub(crate) fn no_form(tree: &Tree, i: usize) -> bool
    ensures { (fs : Forms) → StandAll tree.now fs i → result ≡ is_nil fs }
{
    let Some(node) = tree.node(i) else {
        return true;
    };
    !matches!(node, Node::Cons { .. })
}

// Whether the form surely matches the empty part, wherever it stands.
#[cycle(all_empty_any_empty_empty)]
pub(crate) fn empty(tree: &Tree, i: usize) -> bool
    ensures { (f : Form) (c : ℕ) → Stands tree.now f i → result ≡ empty_of (pattern f c) }
{
    let Some(node) = tree.node(i) else {
        return false;
    };
    match node {
        Node::Quote { from, to } => to.saturating_sub(from) == 0,
        Node::Set { .. } | Node::Out { .. } => false,
        Node::Seq { parts } => all_empty(tree, parts),
        Node::Or { parts } => any_empty(tree, parts),
        Node::Star { .. } => true,
        Node::Rep { least, most, part } => least <= most && (least == 0 || empty(tree, part)),
        Node::Start | Node::End => false,
        // a list is no form
        Node::Nil | Node::Cons { .. } => false,
    }
}

// The same of forms in order. It and `any_empty` are two, since a flag for which of them is meant would hide the `&&` and the
// `||` that they come down to.
#[cycle(all_empty_any_empty_empty)]
pub(crate) fn all_empty(tree: &Tree, i: usize) -> bool
    ensures { (fs : Forms) (c : ℕ) → StandAll tree.now fs i → result ≡ empty_of (in_order_of fs c) }
{
    let Some(node) = tree.node(i) else {
        return true;
    };
    match node {
        Node::Cons { head, tail } => empty(tree, head) && all_empty(tree, tail),
        _ => true,
    }
}

// The same of one of several forms.
#[cycle(all_empty_any_empty_empty)]
fn any_empty(tree: &Tree, i: usize) -> bool
    ensures { (fs : Forms) (c : ℕ) → StandAll tree.now fs i → result ≡ empty_of (one_of fs c) }
{
    let Some(node) = tree.node(i) else {
        return false;
    };
    match node {
        Node::Cons { head, tail } => empty(tree, head) || any_empty(tree, tail),
        _ => false,
    }
}

// Whether the form is one leaf: its star goes by MatchStar.
#[cycle(alone_single)]
pub(crate) fn single(tree: &Tree, i: usize) -> bool
    ensures { (f : Form) (c : ℕ) → Stands tree.now f i → result ≡ is_leaf (pattern f c) }
{
    let Some(node) = tree.node(i) else {
        return false;
    };
    match node {
        Node::Quote { from, to } => to.saturating_sub(from) == 1,
        Node::Set { .. } | Node::Out { .. } => true,
        Node::Seq { parts } => alone(tree, parts),
        Node::Or { parts } => no_form(tree, parts) || alone(tree, parts),
        Node::Rep { least, most, .. } => least > most,
        Node::Star { .. } | Node::Start | Node::End => false,
        // a list is no form
        Node::Nil | Node::Cons { .. } => false,
    }
}

// Whether the list has one form, and that is one leaf.
#[cycle(alone_single)]
fn alone(tree: &Tree, i: usize) -> bool
    ensures { (fs : Forms) (c : ℕ) → StandAll tree.now fs i → result ≡ is_leaf (in_order_of fs c) }
{
    let Some(node) = tree.node(i) else {
        return false;
    };
    match node {
        Node::Cons { head, tail } => no_form(tree, tail) && single(tree, head),
        _ => false,
    }
}
