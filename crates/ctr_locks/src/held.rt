// What is answered, and what a session has of one name.

/// Another session has what was wanted: the lowest of them.
#[derive(Clone, Copy, Debug, PartialEq, Eq)]
pub struct Held {
    pub by: u8,
}

/// What a session has of a name: a use of its table, a hold of the name.
#[derive(Clone, Copy, Drop)]
pub struct NameHeld {
    pub used: bool,
    pub held: bool,
}
