// Whole numbers.
ghost use Rattle.std.specs.Prelude.{◌≡◌, ◌≢◌, slice_index};
ghost use Rattle.ctr_parse.specs.Spelled.{int_of as number_of};

// The number that digits after a sign spell. A + is none.
fn parsed(text: &str) -> Option<i64>
    requires { slice_index text.now 0 ≢ 43 }
    ensures { result ≡ number_of text.now }
{
    text.parse::<i64>().ok()
}

/// The number that a token spells: digits, after a - or not, that stand for a number of 64 bits.
#[tactic(auto, unfolding(crate::specs::Spelled::int_of))]
pub fn int_of(token: &[u8]) -> Option<i64>
    ensures { result ≡ number_of token.now }
{
    let (first, _) = token.split_first()?;
    if *first == b'+' {
        return None;
    }
    let Ok(text) = std::str::from_utf8(token) else {
        return None;
    };
    parsed(text)
}
