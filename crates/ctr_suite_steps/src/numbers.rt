// Words, numbers and files of a line.
use ctr_suite::split_word;
use ctr_types::File;
use std::alloc::{AllocError, Global};

fn digit(byte: u8) -> Option<u64> {
    match byte {
        b'0'..=b'9' => Some((byte - b'0') as u64),
        b'a'..=b'f' => Some((byte - b'a') as u64 + 10),
        _ => None,
    }
}

fn number_in(word: &[u8], base: u64) -> Option<u64> {
    if word.is_empty() {
        return None;
    }
    let mut number = 0u64;
    for byte in word {
        let next = digit(*byte)?;
        if next >= base {
            return None;
        }
        number = number.checked_mul(base)?.checked_add(next)?;
    }
    Some(number)
}

/// The number that a word is in base 10, if it is one.
pub fn number(word: &[u8]) -> Option<u64> {
    number_in(word, 10)
}

/// A number, and what stands after it.
pub fn split_number(line: &[u8]) -> Option<(u64, &[u8])> {
    let (word, rest) = split_word(line);
    Some((number(word)?, rest))
}

/// A file, and what stands after it.
pub fn split_file(line: &[u8]) -> Option<(File, &[u8])> {
    let (word, rest) = split_word(line);
    Some((file_of(word)?, rest))
}

/// The numbers of a line; None where a word is none.
pub fn numbers_of(alloc: Global, words: &[u8]) -> Result<Option<Vec<u64>>, AllocError> {
    numbers_in(alloc, words, 10)
}

fn add_bytes(bytes: &mut Vec<u8>, list: &[u64]) -> Result<(), AllocError> {
    for number in list {
        bytes.push((*number % 256) as u8)?;
    }
    Ok(())
}

/// Bytes, each by its digits in base 16; None where a word is none.
pub fn hex_bytes(alloc: Global, words: &[u8]) -> Result<Option<Vec<u8>>, AllocError> {
    let Some(list) = numbers_in(alloc, words, 16)? else {
        return Ok(None);
    };
    let mut bytes = Vec::new(alloc);
    let added = add_bytes(&mut bytes, &list);
    drop(list);
    added?;
    Ok(Some(bytes))
}

/// A byte, in base 16, so often: `COUNT BYTE`. None where a word is none.
pub fn filling(alloc: Global, words: &[u8]) -> Result<Option<Vec<u8>>, AllocError> {
    let Some((count, rest)) = split_number(words) else {
        return Ok(None);
    };
    match number_in(rest, 16) {
        Some(byte) => Ok(Some(vec![in alloc; (byte % 256) as u8; count as usize]?)),
        None => Ok(None),
    }
}

// Adds the numbers of words; whether each word is one.
fn add_numbers(list: &mut Vec<u64>, words: &[u8], base: u64) -> Result<bool, AllocError> {
    for word in words.split(|byte| *byte == b' ') {
        match number_in(word, base) {
            Some(number) => list.push(number)?,
            None => return Ok(false),
        }
    }
    Ok(true)
}

fn numbers_in(alloc: Global, words: &[u8], base: u64) -> Result<Option<Vec<u64>>, AllocError> {
    let mut list = Vec::new(alloc);
    match add_numbers(&mut list, words, base)? {
        true => Ok(Some(list)),
        false => Ok(None),
    }
}

/// The file of this name.
pub fn file_of(word: &[u8]) -> Option<File> {
    if word == b"root".as_slice() {
        return Some(File::Root);
    }
    if word == b"loga".as_slice() {
        return Some(File::LogA);
    }
    if word == b"logb".as_slice() {
        return Some(File::LogB);
    }
    if word == b"pages".as_slice() {
        return Some(File::Pages);
    }
    None
}

/// The name of a file.
pub fn name_of(file: File) -> &'static str {
    match file {
        File::Root => "root",
        File::LogA => "loga",
        File::LogB => "logb",
        File::Pages => "pages",
    }
}
