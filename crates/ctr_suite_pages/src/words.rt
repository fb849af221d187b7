// Words of a line that say more than a number.
use crate::told::Seen;
use ctr_page::Place;
use ctr_suite::{Words, split_at};

/// The next word, a place: PAGE.SLOT.
pub fn place(words: &mut Words) -> Place {
    let (page, slot) = split_at(words.word(), b'.');
    Place {
        page: words.read(page),
        slot: words.read(slot),
    }
}

/// The next word, a version: X=BYTE, or 0, which is of no transaction.
pub fn version(words: &mut Words) -> Seen {
    let word = words.word();
    if word == b"0".as_slice() {
        return Seen { x: 0, says: 0 };
    }
    let (x, says) = split_at(word, b'=');
    Seen {
        x: words.read(x),
        says: words.read(says),
    }
}
