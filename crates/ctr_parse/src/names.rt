// Names and keywords.
ghost use Rattle.std.specs.Prelude.{◌≡◌, map, IsTrue};
ghost use Rattle.std.specs.List.{list_all};
ghost use Rattle.ctr_types.specs.Names.{IsName};
ghost use Rattle.ctr_model.specs.State.{same_name, has_name};
ghost use Rattle.ctr_model.specs.Grammar.{capital as capital_of};
ghost use Rattle.ctr_parse.specs.Spelled.{is_letter as letter, is_word_byte as word_byte, is_word as word_of, is_keyword as keyword, is_name as name_of};

use ctr_types::Name;

/// The keywords. None is a name, in any case.
static KEYWORDS: [&[u8]; 19] = [
    b"CREATE",
    b"TABLE",
    b"DROP",
    b"BEGIN",
    b"COMMIT",
    b"ROLLBACK",
    b"INSERT",
    b"INTO",
    b"VALUES",
    b"SELECT",
    b"FROM",
    b"WHERE",
    b"UPDATE",
    b"SET",
    b"DELETE",
    b"INT",
    b"TEXT",
    b"PRIMARY",
    b"KEY",
];

// A letter or _.
fn is_letter(byte: u8) -> bool
    ensures { result ≡ letter byte }
{
    matches!(byte, b'A'..=b'Z' | b'a'..=b'z' | b'_')
}

fn is_word_byte(byte: u8) -> bool
    ensures { result ≡ word_byte byte }
{
    is_letter(byte) || matches!(byte, b'0'..=b'9')
}

fn are_word_bytes(bytes: &[u8]) -> bool
    ensures { result ≡ list_all word_byte bytes.now }
{
    bytes.iter().all(|byte| is_word_byte(*byte))
}

fn is_word(word: &[u8]) -> bool
    ensures { result ≡ word_of word.now }
{
    let Some((first, rest)) = word.split_first() else {
        return false;
    };
    is_letter(*first) && are_word_bytes(rest)
}

// A small letter as a capital.
fn capital(byte: u8) -> u8
    ensures { result ≡ capital_of byte }
{
    if matches!(byte, b'a'..=b'z') {
        byte - 32
    } else {
        byte
    }
}

/// Whether the word is the keyword, in any case.
pub fn is_spelled(keyword: &[u8], word: &[u8]) -> bool
    ensures { result ≡ same_name keyword.now (map capital_of word.now) }
{
    if keyword.len() != word.len() {
        return false;
    }
    for i in 0..word.len() {
        if keyword[i] != capital(word[i]) {
            return false;
        }
    }
    true
}

fn is_one_of(keywords: &[&[u8]], word: &[u8]) -> bool
    ensures { result ≡ has_name (map capital_of word.now) (map (λ k. k.now) keywords.now) }
{
    keywords.iter().any(|keyword| is_spelled(keyword, word))
}

fn is_keyword(word: &[u8]) -> bool
    ensures { result ≡ keyword word.now }
{
    is_one_of(&KEYWORDS, word)
}

/// Whether a token is a name.
#[tactic(auto, unfolding(crate::specs::Spelled::is_name))]
pub fn is_name(word: &[u8]) -> bool
    ensures value { result ≡ name_of word.now }
    ensures length { IsTrue result → IsName word.now }
{
    is_word(word) && word.len() <= Name::MOST && !is_keyword(word)
}
