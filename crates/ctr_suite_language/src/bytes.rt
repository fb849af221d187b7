// Bytes as a case writes them.
use std::alloc::{AllocError, Global};

fn digit(byte: u8) -> u8 {
    match byte {
        b'0'..=b'9' => byte - b'0',
        b'a'..=b'f' => byte - b'a' + 10,
        _ => 0,
    }
}

// Where an escape stands: behind a backslash, and behind x with the first digit or none.
#[derive(Clone, Copy)]
enum Escape {
    No,
    Begun,
    Digits,
    Digit(u8),
}

fn take(byte: u8, escape: Escape, out: &mut Vec<u8>) -> Result<Escape, AllocError> {
    match escape {
        Escape::No => {
            if byte == b'\\' {
                return Ok(Escape::Begun);
            }
            out.push(byte)?;
        }
        Escape::Begun => match byte {
            b'n' => out.push(b'\n')?,
            b'r' => out.push(b'\r')?,
            b't' => out.push(b'\t')?,
            b'x' => return Ok(Escape::Digits),
            _ => out.push(byte)?,
        },
        Escape::Digits => return Ok(Escape::Digit(digit(byte))),
        Escape::Digit(high) => out.push(high.wrapping_mul(16).wrapping_add(digit(byte)))?,
    }
    Ok(Escape::No)
}

/// The bytes that a case writes: `\n`, `\r`, `\t`, `\x7f` and `\\` stand for one each.
pub fn unescaped(alloc: Global, text: &[u8]) -> Result<Vec<u8>, AllocError> {
    let mut out = Vec::new(alloc);
    let mut escape = Escape::No;
    for byte in text {
        escape = take(*byte, escape, &mut out)?;
    }
    Ok(out)
}
