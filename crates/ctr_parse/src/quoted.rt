// Texts between quotes.
ghost use Rattle.std.specs.Prelude.{◌≡◌, ◌∷◌, List, ℕ, false, None, IfOk, IfSome};
ghost use Rattle.ctr_parse.specs.Spelled.{with_bytes, unquoted as text_behind, text_spelled};

use ctr_types::Text;
use std::alloc::{AllocError, Global};

// Goes on after one more byte, and says whether it closes the text; nothing where it can't stand here.
#[tactic(auto, using(crate::proofs::Lists::with_bytes_push))]
fn go_on(byte: u8, closed: bool, text: &mut Text) -> Result<Option<bool>, AllocError>
    ensures found { IfOk result (λ o. IfSome o (λ now. (cs : List ℕ)
        → with_bytes text.old (text_behind closed (byte ∷ cs)) ≡ with_bytes text.new (text_behind now cs))) }
    ensures refused { IfOk result (λ o. o ≡ None → (cs : List ℕ) → text_behind closed (byte ∷ cs) ≡ None) }
{
    if closed {
        if byte != b'\'' {
            return Ok(None);
        }
        text.push(byte)?;
        return Ok(Some(false));
    }
    if byte == b'\'' {
        return Ok(Some(true));
    }
    if byte < b' ' || byte > b'~' {
        return Ok(None);
    }
    text.push(byte)?;
    Ok(Some(false))
}

// The text, if any, whose spelling goes on with these bytes after its first quote.
fn unquoted(alloc: Global, bytes: &[u8]) -> Result<Option<Text>, AllocError>
    ensures { IfOk result (λ text. text ≡ text_behind false bytes.now) }
{
    let mut text = Text::new(alloc);
    let mut closed = false;
    for byte in bytes {
        let Some(now) = go_on(*byte, closed, &mut text)? else {
            return Ok(None);
        };
        closed = now;
    }
    if closed { Ok(Some(text)) } else { Ok(None) }
}

/// The text that a token spells, if it does: printable ASCII between quotes, each quote in it doubled.
#[tactic(auto, unfolding(crate::specs::Spelled::text_spelled))]
pub fn text_of(alloc: Global, token: &[u8]) -> Result<Option<Text>, AllocError>
    ensures { IfOk result (λ text. text ≡ text_spelled token.now) }
{
    let Some((first, rest)) = token.split_first() else {
        return Ok(None);
    };
    if *first != b'\'' {
        return Ok(None);
    }
    unquoted(alloc, rest)
}
