// The walk over a tree, which writes the steps of a form.
// The tree and a node's index are two parameters, and so are the next class and the place: the tree stays while the index changes at each
// call, and the class goes on where the place is made anew, so a struct of them would be taken apart at once. A node is first found and
// then matched: where one pattern does both, as `Some(Node::Cons { .. })`, the proof of the other arms doesn't know that it failed.
ghost use Rattle.std.specs.Prelude.{◌≡◌, ℕ, ◌+◌, ◌≤◌, Bool, ◌&&◌, ◌||◌, List, length, if◌then◌else◌, None, ◌==◌, nat_eq};
ghost use Rattle.emit.specs.Coding.{Writes, top};
ghost use Rattle.emit.specs.Walking.{Walks};
ghost use Rattle.form.specs.Form.{Form, Forms, rep, star as star_of};
ghost use Rattle.theory.specs.Pattern;
ghost use Rattle.theory.specs.Written.{all_classes, classes, copies as copies_of, empty as empty_of, in_order_of, one_of, or_nothing, pattern, spelt, stretch, up_to};
ghost use Rattle.tree.specs.Stands.{StandAll, Stands};

use crate::code::Code;
use crate::code::write::fresh;
use crate::place::Place;
use crate::shape::{all_empty, empty, no_form, single};
use program::{FEEDS, STARTS, Step};
use tree::node::Node;
use tree::store::Tree;

// What is repeated: its node, the first of its classes, and whether it surely matches the empty part.
#[derive(Clone, Copy)]
struct Part {
    node: usize,
    class: usize,
    empty: bool,
}

impl Part {
    // Whether so many copies surely match the empty part.
    fn skips(self, copies: u8) -> bool
        ensures { result ≡ (copies == 0 || self.empty) }
    {
        copies == 0 || self.empty
    }
}

// The place of a form that the forms of a list follow. These are looked at in a star alone, where it matters whether they may be empty:
// else a long list would be gone through again for each of its forms.
fn before_list(place: Place, tree: &Tree, i: usize) -> Place
    ensures { (fs : Forms) (c : ℕ) → StandAll tree.now fs i → result ≡ record { first = place.first; last = place.last && empty_of (in_order_of fs c); into = None; depth = place.depth } }
{
    place.ahead(place.last && all_empty(tree, i))
}

// The place of what follows a form, which is looked at in a star alone, too.
fn behind_form(place: Place, tree: &Tree, i: usize) -> Place
    ensures { (f : Form) (c : ℕ) → Stands tree.now f i → result ≡ record { first = place.first && empty_of (pattern f c); last = place.last; into = place.into; depth = place.depth } }
{
    place.behind(place.first && empty(tree, i))
}

impl Code {
    // The bytes of a quote, each with a class of its own. This and what follows answers the number of the next class.
    fn quote(&mut self, bytes: usize, class: usize, stretched: bool, into: Option<usize>) -> usize
        ensures { (bs : List ℕ) (f l : Bool) (d : ℕ) → length bs ≡ bytes → stretched ≡ (f && l) → class + bytes ≤ top → (result ≡ class + bytes) × Writes into d (stretch f l (spelt bs class)) self.old self.new }
    {
        let Some(more) = bytes.checked_sub(1) else {
            self.stay(into);
            return class;
        };
        let last = class.saturating_add(more);
        for before in class..last {
            self.take(before, false, None);
        }
        self.take(last, stretched && more == 0, into);
        last.saturating_add(1)
    }

    // The form that the node stands for.
    #[cycle(copies_either_form_in_order_one_of_repeat_star_up_to)]
    pub(crate) fn form(&mut self, tree: &Tree, i: usize, class: usize, place: Place) -> usize
        ensures { (f : Form) → Stands tree.now f i → Walks class (length (classes f)) result place (pattern f class) self.old self.new }
    {
        let Some(node) = tree.node(i) else {
            return class;
        };
        match node {
            Node::Quote { from, to } => self.quote(
                to.saturating_sub(from),
                class,
                place.stretched(),
                place.into,
            ),
            Node::Set { .. } | Node::Out { .. } => self.leaf(class, place),
            Node::Seq { parts } => self.in_order(tree, parts, class, place),
            Node::Or { parts } => self.one_of(tree, parts, class, place),
            Node::Star { part } => self.star(tree, part, class, place),
            Node::Rep { least, most, part } => {
                self.repeat(tree, least, most, part, class, place)
            }
            Node::Start => {
                self.keep(STARTS, place.into);
                class
            }
            Node::End => {
                self.keep(FEEDS, place.into);
                class
            }
            // a list is no form
            Node::Nil | Node::Cons { .. } => class,
        }
    }

    // One byte of the class.
    fn leaf(&mut self, class: usize, place: Place) -> usize
        ensures { Walks class 1 result place (Pattern.leaf class) self.old self.new }
    {
        self.take(class, place.stretched(), place.into);
        class.saturating_add(1)
    }

    // The forms of a list, in order.
    #[cycle(copies_either_form_in_order_one_of_repeat_star_up_to)]
    fn in_order(&mut self, tree: &Tree, i: usize, class: usize, place: Place) -> usize
        ensures { (fs : Forms) → StandAll tree.now fs i → Walks class (length (all_classes fs)) result place (in_order_of fs class) self.old self.new }
    {
        let Some(node) = tree.node(i) else {
            return class;
        };
        match node {
            Node::Cons { head, tail } => {
                if no_form(tree, tail) {
                    return self.form(tree, head, class, place);
                }
                let ahead = before_list(place, tree, tail);
                let next = self.form(tree, head, class, ahead);
                let behind = behind_form(place, tree, head);
                self.in_order(tree, tail, next, behind)
            }
            _ => {
                self.stay(place.into);
                class
            }
        }
    }

    // One of the forms of a list.
    #[cycle(copies_either_form_in_order_one_of_repeat_star_up_to)]
    fn one_of(&mut self, tree: &Tree, i: usize, class: usize, place: Place) -> usize
        ensures { (fs : Forms) → StandAll tree.now fs i → Walks class (length (or_nothing fs (all_classes fs))) result place (one_of fs class) self.old self.new }
    {
        let Some(node) = tree.node(i) else {
            return class;
        };
        match node {
            Node::Cons { head, tail } => {
                if no_form(tree, tail) {
                    return self.form(tree, head, class, place);
                }
                self.either(tree, head, tail, class, place)
            }
            _ => self.leaf(class, place),
        }
    }

    // One form, or one of the forms of a list: each begins from the marks that are kept, and adds its own to the row that gathers.
    #[cycle(copies_either_form_in_order_one_of_repeat_star_up_to)]
    fn either(&mut self, tree: &Tree, head: usize, tail: usize, class: usize, place: Place) -> usize
        ensures { (f : Form) (fs : Forms) → Stands tree.now f head → StandAll tree.now fs tail → Walks class (length (classes f) + length (or_nothing fs (all_classes fs))) result place (Pattern.alt (pattern f class) (one_of fs (class + length (classes f)))) self.old self.new }
    {
        match place.into {
            Some(row) => {
                self.put(Step::Save(place.depth));
                let next = self.form(tree, head, class, place.deeper(Some(row)));
                self.put(Step::Load(place.depth));
                self.one_of(tree, tail, next, place)
            }
            None => {
                let row = fresh(&mut self.gather);
                self.put(Step::Save(place.depth));
                let next = self.form(tree, head, class, place.deeper(None));
                self.put(Step::Save(row));
                self.put(Step::Load(place.depth));
                let next = self.one_of(tree, tail, next, place.gathered(row));
                self.put(Step::Load(row));
                next
            }
        }
    }

    // Any number of the form.
    #[cycle(copies_either_form_in_order_one_of_repeat_star_up_to)]
    fn star(&mut self, tree: &Tree, part: usize, class: usize, place: Place) -> usize
        ensures { (f : Form) → Stands tree.now f part → Walks class (length (classes f)) result place (pattern (star_of f) class) self.old self.new }
    {
        if single(tree, part) {
            self.run(class, place.into);
            return class.saturating_add(1);
        }
        let row = fresh(&mut self.star);
        self.put(Step::Or(row));
        self.put(Step::Load(row));
        let next = self.form(tree, part, class, place.round());
        self.put(Step::Grow(row));
        self.put(Step::Load(row));
        self.stay(place.into);
        next
    }

    // Copies of the form, which share their classes.
    #[cycle(copies_either_form_in_order_one_of_repeat_star_up_to)]
    fn repeat(
        &mut self,
        tree: &Tree,
        least: u8,
        most: u8,
        part: usize,
        class: usize,
        place: Place,
    ) -> usize
        ensures { (f : Form) → Stands tree.now f part → Walks class (length (classes (rep least most f))) result place (pattern (rep least most f) class) self.old self.new }
    {
        if least > most {
            return self.leaf(class, place);
        }
        if most == 0 {
            self.stay(place.into);
            return class;
        }
        let part = Part {
            node: part,
            class,
            empty: empty(tree, part),
        };
        // what stands behind the copies may be left out
        let next = self.copies(tree, part, least, place.ahead(true));
        let behind = place.behind(part.skips(least));
        self.up_to(tree, part, most - least, behind, next)
    }

    // So many copies, one behind the other.
    #[cycle(copies_either_form_in_order_one_of_repeat_star_up_to)]
    fn copies(&mut self, tree: &Tree, part: Part, count: u8, place: Place) -> usize
        ensures { (f : Form) → Stands tree.now f part.node → part.empty ≡ empty_of (pattern f part.class) → place.into ≡ None → part.class + length (classes f) ≤ top → (result ≡ (if nat_eq count 0 then part.class else part.class + length (classes f))) × Writes place.into place.depth (stretch place.first place.last (copies_of count (pattern f part.class))) self.old self.new }
    {
        let mut next = part.class;
        let mut place = place;
        for left in (0..count).rev() {
            let ahead = place.ahead(part.skips(left));
            next = self.form(tree, part.node, part.class, ahead);
            place = place.behind(part.empty);
        }
        next
    }

    // At most so many copies. It calls itself for what is left, where `copies` is a loop, as the pattern does: each option holds those
    // behind it, and the row that the outermost makes is loaded when all of them are written.
    #[cycle(copies_either_form_in_order_one_of_repeat_star_up_to)]
    fn up_to(&mut self, tree: &Tree, part: Part, left: u8, place: Place, next: usize) -> usize
        ensures { (f : Form) → Stands tree.now f part.node → part.empty ≡ empty_of (pattern f part.class) → part.class + length (classes f) ≤ top → (result ≡ (if nat_eq left 0 then next else part.class + length (classes f))) × Writes place.into place.depth (stretch place.first place.last (up_to left (pattern f part.class))) self.old self.new }
    {
        if left == 0 {
            self.stay(place.into);
            return next;
        }
        let ahead = place.ahead(true);
        let behind = place.behind(part.empty);
        match place.into {
            Some(row) => {
                self.put(Step::Or(row));
                let next = self.form(tree, part.node, part.class, ahead);
                self.up_to(tree, part, left - 1, behind, next)
            }
            None => {
                let row = fresh(&mut self.gather);
                self.put(Step::Save(row));
                let next = self.form(tree, part.node, part.class, ahead);
                let next = self.up_to(tree, part, left - 1, behind.gathered(row), next);
                self.put(Step::Load(row));
                next
            }
        }
    }
}
