// What can be asked of a search, and what it answers.
use refusal::End;

// Without a text, taking bytes, or at the recording's end.
#[derive(Clone, Copy, PartialEq, Eq, Debug)]
pub enum State {
    Empty,
    Open,
    Closed,
}

#[derive(Clone, Copy)]
pub enum Call<'a> {
    // Takes a text, and opens.
    Load(&'a [u8]),
    // Forgets all but the text, and opens.
    Rewind,
    // Takes a piece of the recording, up to the byte that fills a block holding an end.
    Feed(&'a [u8]),
    // Hands out the next end.
    Draw,
    // Ends the recording.
    Close,
    // These only ask: the bytes taken, the text's weight, the block matched last with the ends that wait.
    Taken,
    Weight,
    Waiting,
}

#[derive(Clone, Copy)]
pub enum Answer<B> {
    // Of an accepted load, rewind or close.
    Done,
    // How many bytes a feed took.
    Took(usize),
    // The end that a draw found, if one waits.
    Drawn(Option<End>),
    Count(usize),
    Block(B),
}
