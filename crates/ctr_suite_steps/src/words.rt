// The words of a command, and of a root.
use crate::lists::add;
use crate::numbers::{number, numbers_of};
use ctr_home::Root;
use ctr_types::Actor;
use std::alloc::{AllocError, Global};

fn add_word(alloc: Global, words: &mut Vec<String>, word: &[u8]) -> Result<(), AllocError> {
    match str::from_utf8(word) {
        Ok(text) if !text.is_empty() => add(words, String::from_str(alloc, text)?),
        _ => Ok(()),
    }
}

fn add_words(alloc: Global, words: &mut Vec<String>, rest: &[u8]) -> Result<(), AllocError> {
    for word in rest.split(|byte| *byte == b' ') {
        add_word(alloc, words, word)?;
    }
    Ok(())
}

/// The words of a line; one that isn't UTF-8 is left out.
pub fn words_in(alloc: Global, rest: &[u8]) -> Result<Vec<String>, AllocError> {
    let mut words = Vec::new(alloc);
    add_words(alloc, &mut words, rest)?;
    Ok(words)
}

fn actor_of(word: &[u8]) -> Option<Actor> {
    match word {
        b"f" => Some(Actor::Flusher),
        b"c" => Some(Actor::Cleaner),
        b"u" => Some(Actor::Undo),
        _ => Some(Actor::Session((number(word)? % 256) as u8)),
    }
}

// Adds actors; whether each word is one.
fn add_actors(actors: &mut Vec<Actor>, rest: &[u8]) -> Result<bool, AllocError> {
    for word in rest.split(|byte| *byte == b' ') {
        if !word.is_empty() {
            match actor_of(word) {
                Some(actor) => actors.push(actor)?,
                None => return Ok(false),
            }
        }
    }
    Ok(true)
}

/// Actors: the number of a session, `f` for the flusher, `c` for the cleaner, `u` for undo.
pub fn actors_in(alloc: Global, rest: &[u8]) -> Result<Option<Vec<Actor>>, AllocError> {
    let mut actors = Vec::new(alloc);
    match add_actors(&mut actors, rest)? {
        true => Ok(Some(actors)),
        false => Ok(None),
    }
}

fn root_by(list: &[u64]) -> Option<Root> {
    match (list.first(), list.get(1), list.get(2)) {
        (Some(stamp), Some(file), Some(first)) => Some(Root {
            stamp: *stamp,
            format: 1,
            file: (*file % 2) as u8,
            first: *first,
            pages: 64,
        }),
        _ => None,
    }
}

/// A stamp, the number of a file and a first LSN.
pub fn root_of(alloc: Global, rest: &[u8]) -> Result<Option<Root>, AllocError> {
    let Some(list) = numbers_of(alloc, rest)? else {
        return Ok(None);
    };
    let root = root_by(&list);
    drop(list);
    Ok(root)
}
