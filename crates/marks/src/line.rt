// Lines of a recording, and positions in them.
ghost use Rattle.std.specs.Prelude.{◌≡◌, ◌+◌, ◌-◌, ◌≤◌};

use refusal::End;

// A line, counted from 1, and the position where it starts.
#[derive(Clone, Copy, PartialEq, Eq, Debug)]
pub struct Line {
    pub number: usize,
    pub start: usize,
}

impl Line {
    // The line at a recording's start.
    pub const FIRST: Line = Line {
        number: 1,
        start: 0,
    };
}

// A position of a recording, and the line in which it stands.
#[derive(Clone, Copy, PartialEq, Eq, Debug)]
pub struct Spot {
    // How many bytes stand before it.
    pub position: usize,
    pub line: Line,
    ghost counted: { line.number ≤ position + 1 },
    ghost begun: { line.start ≤ position },
}

impl Spot {
    // At a recording's start.
    pub fn first() -> Spot
        ensures position { result.position ≡ 0 }
        ensures number { result.line.number ≡ 1 }
        ensures start { result.line.start ≡ 0 }
    {
        Spot {
            position: 0,
            line: Line::FIRST,
        }
    }

    // The end that stands here, where one does.
    pub fn end(self) -> End
        ensures { result ≡ record { line = self.line.number; column = self.position - self.line.start; position = self.position } }
    {
        End {
            line: self.line.number,
            column: self.position - self.line.start,
            position: self.position,
        }
    }
}
