// How deep brackets nest.
ghost use Rattle.std.specs.Prelude.{◌≡◌, ◌+◌, ◌<◌, ◌≤◌, MatchOption};
ghost use Rattle.grammar.specs.Grammar.{deepest};

// How deep brackets nest at most.
const DEEPEST: u8 = 16;

// How many brackets are open.
#[derive(Clone, Copy)]
pub(crate) struct Depth {
    brackets: u8,
    ghost shallow: { brackets ≤ deepest },
}

impl Depth {
    // Inside the outermost bracket.
    pub(crate) fn outermost() -> Depth
        ensures { result.brackets ≡ 1 }
    {
        Depth { brackets: 1 }
    }

    // Inside one bracket more; none where that is too deep.
    pub(crate) fn deeper(self) -> Option<Depth>
        ensures { MatchOption result (deepest ≤ self.brackets) (λ d. (self.brackets < deepest) × (d.brackets ≡ self.brackets + 1)) }
    {
        if self.brackets >= DEEPEST {
            return None;
        }
        Some(Depth {
            brackets: self.brackets + 1,
        })
    }
}
