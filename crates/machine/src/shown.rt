// What a matched block shows.
#[derive(Clone, Copy)]
pub struct Shown<B> {
    // The places at which the character is complete.
    pub ends: B,
    // The places of line feeds, by which lines are counted.
    pub feeds: B,
}
