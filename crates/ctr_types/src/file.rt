/// The files of a database.
#[derive(Clone, Copy, Debug, PartialEq, Eq)]
pub enum File {
    Root,
    LogA,
    LogB,
    Pages,
}

/// A check of a file's bytes that failed: the byte of the file at which it did, what it wants and what is there. The last
/// two differ.
#[derive(Clone, Copy, Debug, PartialEq, Eq)]
pub struct Damage {
    pub file: File,
    pub at: u64,
    pub want: u128,
    pub got: u128,
}
