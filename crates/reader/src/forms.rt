// Forms and lists of forms, which hold each other.
ghost use Rattle.std.specs.Prelude.{◌≡◌, [], ◌∷◌, MatchResult};
ghost use Rattle.grammar.proofs.Wants.{form as form_wanted, forms, heading, shut};
ghost use Rattle.lexer.specs.Places.{text_of};
ghost use Rattle.reader.specs.Reading.{FormRead, HeadedRead, ListRead, Over, Refuses, Room, SingleRead, SomeRead};

use crate::depth::Depth;
use crate::fault::FormFault;
use crate::items::{items, some_items};
use crate::words::{close, counts, unexpected, word};
use grammar::{Head, named};
use lexer::{Lexer, Token};
use tree::node::Node;
use tree::store::Tree;

// One form, inside `depth` brackets; its node's index. The functions that hand the lexer and the tree on to each other are no
// methods of a struct of the two: no ghost field can stand beside mutable references, so each clause would stay, and reach what it
// speaks of through one name more.
#[cycle(form_headed_list_single_some)]
fn form(lexer: &mut Lexer, tree: &mut Tree, depth: Depth) -> Result<usize, FormFault>
    requires { Room lexer.old tree.old }
    ensures same { text_of lexer.new ≡ text_of lexer.old }
    ensures reads { MatchResult result
        (λ i. Over FormRead lexer.old lexer.new depth.brackets tree.old tree.new i)
        (Refuses lexer.old (form_wanted depth.brackets ∷ [])) }
{
    match lexer.next()? {
        Token::Open => {
            let deeper = depth
                .deeper()
                .ok_or(FormFault::TooDeep { at: lexer.start() })?;
            let node = headed(lexer, tree, deeper)?;
            Ok(tree.push(node).unwrap())
        }
        Token::Quote(q) => {
            let node = tree.quote(q).unwrap();
            Ok(tree.push(node).unwrap())
        }
        _ => Err(unexpected(lexer)),
    }
}

// What follows an opening bracket, the `depth`th; a node that is yet to be added.
#[cycle(form_headed_list_single_some)]
fn headed(lexer: &mut Lexer, tree: &mut Tree, depth: Depth) -> Result<Node, FormFault>
    requires { Room lexer.old tree.old }
    ensures same { text_of lexer.new ≡ text_of lexer.old }
    ensures reads { MatchResult result
        (λ n. Over HeadedRead lexer.old lexer.new depth.brackets tree.old tree.new n)
        (Refuses lexer.old (heading depth.brackets ∷ [])) }
{
    let w = word(lexer)?;
    let head = named(w).ok_or(unexpected(lexer))?;
    match head {
        Head::Set => {
            let from = tree.ranges_len();
            some_items(lexer, tree)?;
            Ok(Node::Set {
                from,
                to: tree.ranges_len(),
            })
        }
        Head::Out => {
            let from = tree.ranges_len();
            items(lexer, tree)?;
            Ok(Node::Out {
                from,
                to: tree.ranges_len(),
            })
        }
        Head::Seq => {
            let parts = list(lexer, tree, depth)?;
            Ok(Node::Seq { parts })
        }
        Head::Or => {
            let parts = some(lexer, tree, depth)?;
            Ok(Node::Or { parts })
        }
        Head::Star => {
            let part = single(lexer, tree, depth)?;
            Ok(Node::Star { part })
        }
        Head::Rep => {
            let (least, most) = counts(lexer)?;
            let part = single(lexer, tree, depth)?;
            Ok(Node::Rep { least, most, part })
        }
        Head::Start => {
            close(lexer)?;
            Ok(Node::Start)
        }
        Head::End => {
            close(lexer)?;
            Ok(Node::End)
        }
    }
}

// One form and the closing bracket behind it.
#[cycle(form_headed_list_single_some)]
pub(crate) fn single(lexer: &mut Lexer, tree: &mut Tree, depth: Depth) -> Result<usize, FormFault>
    requires { Room lexer.old tree.old }
    ensures same { text_of lexer.new ≡ text_of lexer.old }
    ensures reads { MatchResult result
        (λ i. Over SingleRead lexer.old lexer.new depth.brackets tree.old tree.new i)
        (Refuses lexer.old (form_wanted depth.brackets ∷ shut ∷ [])) }
{
    let part = form(lexer, tree, depth)?;
    close(lexer)?;
    Ok(part)
}

// The forms up to the closing bracket.
#[cycle(form_headed_list_single_some)]
fn list(lexer: &mut Lexer, tree: &mut Tree, depth: Depth) -> Result<usize, FormFault>
    requires { Room lexer.old tree.old }
    ensures same { text_of lexer.new ≡ text_of lexer.old }
    ensures reads { MatchResult result
        (λ i. Over ListRead lexer.old lexer.new depth.brackets tree.old tree.new i)
        (Refuses lexer.old (forms depth.brackets ∷ [])) }
{
    if lexer.closes() {
        return Ok(tree.push(Node::Nil).unwrap());
    }
    some(lexer, tree, depth)
}

// One form or more, up to the closing bracket.
#[cycle(form_headed_list_single_some)]
fn some(lexer: &mut Lexer, tree: &mut Tree, depth: Depth) -> Result<usize, FormFault>
    requires { Room lexer.old tree.old }
    ensures same { text_of lexer.new ≡ text_of lexer.old }
    ensures reads { MatchResult result
        (λ i. Over SomeRead lexer.old lexer.new depth.brackets tree.old tree.new i)
        (Refuses lexer.old (form_wanted depth.brackets ∷ forms depth.brackets ∷ [])) }
{
    let head = form(lexer, tree, depth)?;
    let tail = list(lexer, tree, depth)?;
    Ok(tree.push(Node::Cons { head, tail }).unwrap())
}
