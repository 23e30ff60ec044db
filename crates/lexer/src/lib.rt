// Cuts the text of a character into tokens.

#![tactic(auto)]

ghost use Rattle.std.specs.Prelude.{◌≡◌, ℕ, ◌≤◌, length, MatchBool, MatchResult};
ghost use Rattle.std.specs.List.{prefix_len};
ghost use Rattle.lexer.specs.Tokens.{Lexes, Next, Run, Stray, closing, in_class};

// A token of the text; `End` stands for the end of the text. It is a token like the others, and no None around them: what
// asks for a token refuses the end as it refuses any token that does not fit.
#[derive(Clone, Copy, Debug, PartialEq, Eq)]
pub enum Token<'a> {
    Open,
    Close,
    Word(&'a [u8]),
    Quote(&'a [u8]),
    End,
}

// No token begins at this place, or the quote that opens there does not close.
#[derive(Clone, Copy, Debug, PartialEq, Eq)]
pub struct TokenFault {
    pub at: usize,
}

// The kinds of bytes of which a run is read. They have names, and are no closures, since the definition of a token
// speaks of them too.
#[derive(Clone, Copy)]
pub enum Class {
    Space,
    Letter,
    Quoted,
}

impl Class {
    fn has(self, b: u8) -> bool
        ensures { result ≡ in_class self b }
    {
        match self {
            Class::Space => b == b' ',
            Class::Letter => matches!(b, b'a'..=b'z' | b'A'..=b'F' | b'0'..=b'9' | b'-'),
            Class::Quoted => matches!(b, 0x20..=0x7e) && b != b'"',
        }
    }

    // How many bytes of the class the text begins with.
    fn count(self, text: &[u8]) -> usize
        ensures { result ≡ prefix_len (in_class self) text.now }
    {
        text.iter().take_while(|b| self.has(**b)).count()
    }
}

#[derive(Drop)]
pub struct Lexer<'a> {
    text: &'a [u8],
    // the place of the token last read
    start: usize,
    // where the next token is looked for
    place: usize,
    ghost within: { place ≤ length text.now },
}

// Where the longest run of bytes of the class ends.
#[tactic(auto, using(crate::proofs::Runs::cut_within))]
fn run_end(text: &[u8], from: usize, class: Class) -> usize
    requires { from ≤ length text.now }
    ensures { Run class text.now from result }
{
    from + class.count(&text[from..])
}

impl<'a> Lexer<'a> {
    pub fn new(text: &'a [u8]) -> Lexer<'a>
        ensures whole { result.text.now ≡ text.now }
        ensures first { result.place ≡ 0 }
        ensures start { result.start ≡ 0 }
    {
        Lexer {
            text,
            start: 0,
            place: 0,
        }
    }

    // The place of the token last read; that of the end is the text's length.
    pub fn start(&self) -> usize
        ensures { result ≡ self.now.start }
    {
        self.start
    }

    // Goes on behind a token that was found, and answers it.
    fn pass(&mut self, token: Token<'a>, start: usize, end: usize) -> Token<'a>
        requires { end ≤ length self.old.text.now }
        ensures token { result ≡ token.entry }
        ensures same { self.new.text ≡ self.old.text }
        ensures start { self.new.start ≡ start }
        ensures place { self.new.place ≡ end }
    {
        self.start = start;
        self.place = end;
        token
    }

    // The next token, spaces skipped; a refusal leaves the lexer where it was.
    pub fn next(&mut self) -> Result<Token<'a>, TokenFault>
        ensures same { self.new.text.now ≡ self.old.text.now }
        ensures token { MatchResult result
            (λ t. Next t self.old.text.now self.old.place self.new.start self.new.place)
            (λ e. Stray self.old.text.now self.old.place e.at × (self.new ≡ self.old)) }
    {
        let text = self.text;
        let start = run_end(text, self.place, Class::Space);
        match &text[start..] {
            // the one place that knows of the final line feed
            [] | [b'\n'] => Ok(self.pass(Token::End, text.len(), text.len())),
            [b'(', ..] => Ok(self.pass(Token::Open, start, start + 1)),
            [b')', ..] => Ok(self.pass(Token::Close, start, start + 1)),
            [b'"', ..] => {
                let end = run_end(text, start + 1, Class::Quoted);
                if text.get(end) != Some(&b'"') {
                    return Err(TokenFault { at: start });
                }
                Ok(self.pass(Token::Quote(&text[start + 1..end]), start, end + 1))
            }
            _ => {
                let end = run_end(text, start, Class::Letter);
                if end == start {
                    return Err(TokenFault { at: start });
                }
                Ok(self.pass(Token::Word(&text[start..end]), start, end))
            }
        }
    }

    // Takes the next token if it is a closing bracket; otherwise the lexer stays where it was.
    pub fn closes(&mut self) -> bool
        ensures same { self.new.text.now ≡ self.old.text.now }
        ensures token { MatchBool result
            (Lexes self.old.text.now self.old.place closing self.new.start self.new.place)
            (((s e : ℕ) → Lexes self.old.text.now self.old.place closing s e → ⊥) × (self.new ≡ self.old)) }
    {
        let text = self.text;
        let start = run_end(text, self.place, Class::Space);
        let closes = matches!(&text[start..], [b')', ..]);
        if closes {
            self.start = start;
            self.place = start + 1;
        }
        closes
    }
}
