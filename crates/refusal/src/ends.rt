// A place where the character is complete.
#[derive(Clone, Copy, Debug, Default, PartialEq, Eq)]
pub struct End {
    // The line, counted from 1.
    pub line: usize,
    // How many bytes of the line stand before the end.
    pub column: usize,
    // How many bytes of the recording stand before the end. Ends are in the order of their positions.
    pub position: usize,
}
