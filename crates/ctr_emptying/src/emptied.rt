// What a step did.

/// What a step of the cleaner did in a table that is dead.
#[derive(Clone, Copy, Debug, PartialEq, Eq)]
pub enum Emptied {
    /// It logged one record.
    OneRecord,
    /// There was nothing to do.
    Nothing,
}
