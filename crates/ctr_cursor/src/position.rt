// A position of a pass.
use ctr_page::Place;

/// Where a pass over a database is.
#[derive(Clone, Copy, Debug, PartialEq, Eq)]
pub enum Position {
    /// At an entry of the catalog, 0 to 31.
    Entry { entry: u8 },
    /// At a slot of a bucket, 0 to 7, of an entry.
    Slot { entry: u8, bucket: u8, place: Place },
    /// At a version entry of an entry.
    Kept { entry: u8, place: Place },
    /// At an aborted transaction, by its place in the order of abort, from 0.
    Aborted { nth: usize },
}
