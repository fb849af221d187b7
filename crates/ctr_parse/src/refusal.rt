// Why there is no statement.
ghost use Rattle.std.specs.Prelude.{◌≡◌, ◌+◌, ◌<◌, ◌^◌, IfSome};
ghost use Rattle.ctr_parse.specs.Answers.{refusal_at};
ghost use Rattle.ctr_parse.specs.Refusals.{IsStopNear};

use crate::stop::Stop;

/// Why there is no statement.
#[derive(Clone, Copy, Debug, PartialEq, Eq)]
pub enum ParseRefusal {
    /// The text is no statement: the byte from 1 at which the first token begins such that nothing
    /// begins with the tokens up to it, or at which no token begins; or the text's length and 1,
    /// where only more tokens are missing.
    ParseError { at: usize },
    OutOfMemory,
}

/// The refusal where reading stopped so, in bytes of this length with this first byte at which no
/// token begins.
pub fn refusal_of(stop: Stop, bad: Option<usize>, len: usize) -> ParseRefusal
    requires stopped { IsStopNear stop }
    requires inside { IfSome bad (λ i. i < 2 ^ 63) }
    requires short { len < 2 ^ 63 }
    ensures { result ≡ refusal_at stop bad len }
{
    match stop {
        Stop::OutOfMemory => ParseRefusal::OutOfMemory,
        Stop::Wrong(at) => ParseRefusal::ParseError { at: at + 1 },
        Stop::Missing => ParseRefusal::ParseError {
            at: bad.unwrap_or(len) + 1,
        },
    }
}
