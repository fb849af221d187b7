// The lines of a suite that make a script.
use crate::numbers::{hex_bytes, split_number};
use std::alloc::{AllocError, Global};

/// Adds what a line says to a script, by the mark before it: `|` a line, `|-` a line without its end, `|x` bytes in
/// base 16, `|each FROM TO` a line for each number, in place of its `#` (`^` ends a line within it), and `|fill COUNT BYTE` the same
/// byte so often.
/// None where the line is none of these.
pub fn add_line(
    alloc: Global,
    script: &mut Vec<u8>,
    mark: &[u8],
    rest: &[u8],
) -> Result<Option<()>, AllocError> {
    if mark == b"|".as_slice() {
        script.extend_from_slice(rest)?;
        script.push(b'\n')?;
        return Ok(Some(()));
    }
    if mark == b"|-".as_slice() {
        script.extend_from_slice(rest)?;
        return Ok(Some(()));
    }
    if mark == b"|x".as_slice() {
        return add_hex(alloc, script, rest);
    }
    if mark == b"|each".as_slice() {
        return add_each(alloc, script, rest);
    }
    if mark == b"|fill".as_slice() {
        return add_fill(alloc, script, rest);
    }
    Ok(None)
}

fn add_hex(alloc: Global, script: &mut Vec<u8>, rest: &[u8]) -> Result<Option<()>, AllocError> {
    let Some(bytes) = hex_bytes(alloc, rest)? else {
        return Ok(None);
    };
    let added = script.extend_from_slice(&bytes);
    drop(bytes);
    added?;
    Ok(Some(()))
}

fn add_each(alloc: Global, script: &mut Vec<u8>, rest: &[u8]) -> Result<Option<()>, AllocError> {
    let Some((from, rest)) = split_number(rest) else {
        return Ok(None);
    };
    let Some((to, rest)) = split_number(rest) else {
        return Ok(None);
    };
    for number in from..=to {
        add_numbered(alloc, script, number, rest)?;
    }
    Ok(Some(()))
}

fn add_with(script: &mut Vec<u8>, digits: &[u8], line: &[u8]) -> Result<(), AllocError> {
    for byte in line {
        match *byte {
            b'#' => script.extend_from_slice(digits)?,
            b'^' => script.push(b'\n')?,
            _ => script.push(*byte)?,
        }
    }
    script.push(b'\n')?;
    Ok(())
}

fn add_numbered(
    alloc: Global,
    script: &mut Vec<u8>,
    number: u64,
    line: &[u8],
) -> Result<(), AllocError> {
    let digits = format!(in alloc; "{number}")?;
    let added = add_with(script, digits.as_bytes(), line);
    drop(digits);
    added
}

fn add_often(script: &mut Vec<u8>, count: u64, bytes: &[u8]) -> Result<(), AllocError> {
    for _ in 0..count {
        script.extend_from_slice(bytes)?;
    }
    Ok(())
}

fn add_fill(alloc: Global, script: &mut Vec<u8>, rest: &[u8]) -> Result<Option<()>, AllocError> {
    let Some((count, rest)) = split_number(rest) else {
        return Ok(None);
    };
    let Some(bytes) = hex_bytes(alloc, rest)? else {
        return Ok(None);
    };
    let added = add_often(script, count, &bytes);
    drop(bytes);
    added?;
    Ok(Some(()))
}
