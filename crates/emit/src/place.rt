// Where the steps of a form are written.
ghost use Rattle.std.specs.Prelude.{◌≡◌, ◌+◌, ◌≤◌, true, false, ◌&&◌, Some, None};
ghost use Rattle.emit.specs.Coding.{top};

#[derive(Clone, Copy)]
pub struct Place {
    // in a star, all that stands before the form, and all behind it, may be empty
    pub(crate) first: bool,
    pub(crate) last: bool,
    // the row in which the form's marks are gathered; where there is none they go on
    pub(crate) into: Option<usize>,
    // the row from which on marks are kept
    pub(crate) depth: usize,
}

impl Place {
    // Of a whole form.
    pub(crate) fn outermost() -> Place
        ensures { result ≡ record { first = false; last = false; into = None; depth = 0 } }
    {
        Place {
            first: false,
            last: false,
            into: None,
            depth: 0,
        }
    }

    // Whether a leaf can follow itself.
    pub(crate) fn stretched(self) -> bool
        ensures { result ≡ (self.first && self.last) }
    {
        self.first && self.last
    }

    // Of what is followed by more, which may be empty or not.
    pub(crate) fn ahead(self, empty: bool) -> Place
        ensures { result ≡ record { first = self.first; last = self.last && empty; into = None; depth = self.depth } }
    {
        Place {
            last: self.last && empty,
            into: None,
            ..self
        }
    }

    // Of what follows something that may be empty or not.
    pub(crate) fn behind(self, empty: bool) -> Place
        ensures { result ≡ record { first = self.first && empty; last = self.last; into = self.into; depth = self.depth } }
    {
        Place {
            first: self.first && empty,
            ..self
        }
    }

    // With its marks gathered in the row.
    pub(crate) fn gathered(self, row: usize) -> Place
        ensures { result ≡ record { first = self.first; last = self.last; into = Some row; depth = self.depth } }
    {
        Place {
            into: Some(row),
            ..self
        }
    }

    // With one more row of kept marks.
    pub(crate) fn deeper(self, into: Option<usize>) -> Place
        ensures place { result ≡ record { first = self.first; last = self.last; into = into; depth = result.depth } }
        ensures depth { self.depth + 1 ≤ top → result.depth ≡ self.depth + 1 }
    {
        Place {
            into,
            depth: self.depth.saturating_add(1),
            ..self
        }
    }

    // Of the part of a star.
    pub(crate) fn round(self) -> Place
        ensures { result ≡ record { first = true; last = true; into = None; depth = self.depth } }
    {
        Place {
            first: true,
            last: true,
            into: None,
            ..self
        }
    }
}
