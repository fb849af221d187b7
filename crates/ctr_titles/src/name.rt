// The name of a table without memory of its own.
ghost use Rattle.std.specs.Prelude.{◌≡◌, ◌≤◌, ◌↔◌, [], true, length, take};

use std::marker::Model;

/// The most bytes of a name.
const MOST: usize = 16;

/// The name of a table, of at most 16 bytes. It takes no memory.
#[derive(Debug, Drop)]
pub struct ShortName {
    bytes: [u8; MOST],
    length: usize,
}

impl Model for ShortName {
    ghost use Rattle.std.specs.Prelude.{List, ℕ, ◌≤◌, take};

    ghost Value = { List ℕ };

    ghost view = { λ a. take a.length a.bytes };

    ghost invariant = { λ a. a.length ≤ 16 };
}

impl ShortName {
    /// No name.
    pub fn none() -> ShortName
        ensures { result ≡ [] }
    {
        ShortName {
            bytes: [0; MOST],
            length: 0,
        }
    }

    /// The name of these bytes, at most 16.
    pub fn new(name: &[u8]) -> ShortName
        requires { length name.now ≤ 16 }
        ensures { result ≡ name.now }
    {
        let mut bytes = [0; MOST];
        bytes[..name.len()].copy_from_slice(name);
        ShortName {
            bytes,
            length: name.len(),
        }
    }

    /// Its bytes.
    pub fn as_slice(&self) -> &[u8]
        ensures { result.now ≡ self.now }
    {
        &self.bytes[..self.length]
    }

    /// Whether it is another one.
    pub fn is(&self, other: &ShortName) -> bool
        ensures { (result ≡ true) ↔ (self.now ≡ other.now) }
    {
        self.as_slice() == other.as_slice()
    }
}
