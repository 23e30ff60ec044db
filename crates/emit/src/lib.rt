// Turns the form that a tree's node stands for into a flat program and its table of classes, in memory that is reserved once.

#![tactic(auto)]

mod code;
mod compiled;
mod place;
mod shape;

pub use compiled::{Compiled, Sizes};

#[cfg(test)]
mod tests {
    use super::*;
    use std::test::Fail;
    use tree::node::Node;
    use tree::store::Tree;

    // any number of `#`
    #[test]
    fn star_of_a_byte_is_one_step(rt: HostRuntime) -> Result<(), Fail> {
        let mut tree = Tree::new(rt.alloc())?;
        let quote = tree.quote(b"#").ok_or("room")?;
        let part = tree.push(quote).ok_or("room")?;
        let root = tree.push(Node::Star { part }).ok_or("room")?;
        let mut compiled = Compiled::new(rt.alloc())?;
        let sizes = compiled.compile(&tree, root);
        let wanted = Sizes {
            classes: 1,
            stars: 0,
            carries: 1,
            rows: 19,
        };
        assert_eq!(rt; compiled.program().len(), 1);
        assert_eq!(rt; sizes, wanted);
        Ok(())
    }

    // two or three `#`, which share a class
    #[test]
    fn copies_share_a_class(rt: HostRuntime) -> Result<(), Fail> {
        let mut tree = Tree::new(rt.alloc())?;
        let quote = tree.quote(b"#").ok_or("room")?;
        let part = tree.push(quote).ok_or("room")?;
        let root = tree
            .push(Node::Rep {
                least: 2,
                most: 3,
                part,
            })
            .ok_or("room")?;
        let mut compiled = Compiled::new(rt.alloc())?;
        let sizes = compiled.compile(&tree, root);
        assert_eq!(rt; compiled.program().len(), 6);
        assert_eq!(rt; compiled.sets().len(), 1);
        let wanted = Sizes {
            classes: 1,
            stars: 0,
            carries: 3,
            rows: 20,
        };
        assert_eq!(rt; sizes, wanted);
        Ok(())
    }
}
