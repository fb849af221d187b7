// Values that have much to free. That memory is refused, and what is freed then, is proved here once, for a value of any type. For
// the same reason what a function owns is dropped by a call: at the end of its scope the proof frees all of it there.
use std::alloc::{AllocError, Global};

/// Adds a value at the end.
pub fn add<T: Drop>(list: &mut Vec<T>, value: T) -> Result<(), AllocError> {
    list.push(value)?;
    Ok(())
}

/// Puts a value in the place of another.
pub fn set<T: Drop>(place: &mut T, value: T) {
    *place = value;
}

/// The list of one value.
pub fn one<T: Drop>(alloc: Global, value: T) -> Result<Vec<T>, AllocError> {
    let mut list = Vec::new(alloc);
    list.push(value)?;
    Ok(list)
}
