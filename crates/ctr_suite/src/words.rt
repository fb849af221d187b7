// The words of a line.
use std::str::FromStr;

/// What stands before the first such byte and behind it; all and nothing where there is none.
pub fn split_at(text: &[u8], mark: u8) -> (&[u8], &[u8]) {
    match text.iter().position(|byte| *byte == mark) {
        Some(at) => (&text[..at], &text[at + 1..]),
        None => (text, &text[text.len()..]),
    }
}

/// The first word of a line, and what stands behind the blank.
pub fn split_word(line: &[u8]) -> (&[u8], &[u8]) {
    split_at(line, b' ')
}

/// What a word means, by a list of words.
pub fn named<T: Copy>(words: &[(&str, T)], word: &[u8]) -> Option<T> {
    for (text, meaning) in words {
        if word == text.as_bytes() {
            return Some(*meaning);
        }
    }
    None
}

// The value that a word is, if it is one.
fn value_of<T: FromStr>(word: &[u8]) -> Option<T>
where
    T::Err: Drop,
{
    str::from_utf8(word).ok()?.parse::<T>().ok()
}

/// The words of a line, taken one after another. A word that is missing, or isn't what it has to be, is remembered, so that only
/// the end is asked whether all were right.
#[derive(Clone, Copy)]
pub struct Words<'a> {
    rest: &'a [u8],
    wrong: bool,
}

impl<'a> Words<'a> {
    /// The words of this line, of which none is taken yet.
    pub fn new(line: &'a [u8]) -> Words<'a> {
        Words {
            rest: line,
            wrong: false,
        }
    }

    /// The next word.
    pub fn word(&mut self) -> &'a [u8] {
        let (word, rest) = split_word(self.rest);
        self.rest = rest;
        self.wrong = self.wrong || word.is_empty();
        word
    }

    /// Whether a word is left.
    pub fn has_more(&self) -> bool {
        !self.rest.is_empty()
    }

    /// The next word's value.
    pub fn value<T: FromStr + Default>(&mut self) -> T
    where
        T::Err: Drop,
    {
        let word = self.word();
        self.read(word)
    }

    /// The same, or this one where no word is left.
    pub fn value_or<T: FromStr + Default + Drop>(&mut self, instead: T) -> T
    where
        T::Err: Drop,
    {
        if self.has_more() {
            self.value()
        } else {
            instead
        }
    }

    /// The value of a word, or of a part of one, that was taken.
    pub fn read<T: FromStr + Default>(&mut self, word: &[u8]) -> T
    where
        T::Err: Drop,
    {
        match value_of::<T>(word) {
            Some(value) => value,
            None => {
                self.wrong = true;
                T::default()
            }
        }
    }

    /// The next word, of two digits in base 16 for each byte.
    pub fn digits(&mut self) -> &'a [u8] {
        let digits = self.word();
        let other = digits
            .iter()
            .any(|byte| !matches!(byte, b'0'..=b'9' | b'a'..=b'f'));
        self.wrong = self.wrong || other || digits.len() % 2 == 1;
        digits
    }

    /// The word that was taken isn't what it has to be.
    pub fn refuse(&mut self) {
        self.wrong = true;
    }

    /// Whether each word was what it had to be, and none is left.
    pub fn are_right(&self) -> bool {
        !self.wrong && self.rest.is_empty()
    }
}
