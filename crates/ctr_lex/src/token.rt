// A token, and the tokens of a line.
ghost use Rattle.std.specs.Prelude.{◌≡◌};

use ctr_types::List;

/// A token: its bytes, and where it begins in its line, from 0.
#[derive(Clone, Copy, Debug)]
pub struct Token<'a> {
    pub text: &'a [u8],
    pub at: usize,
}

/// The first tokens of a line, in order, as many as were asked for at most. Where they are fewer, they
/// are all: where `bad` is none, the line is these tokens with blanks between; else it is the index,
/// from 0, of the first byte at which none begins. Where they are so many, `bad` is none, and nothing
/// is told of what follows.
#[derive(Debug, Drop)]
pub struct Tokens<'a> {
    pub items: List<Token<'a>>,
    pub bad: Option<usize>,
}

impl<'a> Tokens<'a> {
    pub fn as_slice(&self) -> &[Token<'a>]
        ensures { result.now ≡ self.now.items }
    {
        self.items.as_slice()
    }
}
