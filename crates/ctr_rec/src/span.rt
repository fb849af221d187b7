// Bytes that stand in a slice.
ghost use Rattle.std.specs.Prelude.{◌≡◌, List, ℕ};

use std::marker::Model;

/// Bytes that stand elsewhere, which contracts see as their list.
#[derive(Debug, Drop)]
pub struct Bytes<'a> {
    slice: &'a [u8],
}

impl<'a> Model for Bytes<'a> {
    ghost Value = { List ℕ };

    ghost view = { λ a. a.slice.now };
}

impl<'a> Bytes<'a> {
    /// These bytes.
    pub fn new(slice: &'a [u8]) -> Self
        ensures { result ≡ slice.now }
    {
        Bytes { slice }
    }

    /// The slice in which they stand.
    pub fn as_slice(&self) -> &'a [u8]
        ensures { result.now ≡ self.now }
    {
        self.slice
    }
}
