// Values that have much to free. That memory is refused, and what is freed then, is proved here once, for a value of any type. For
// the same reason what a function owns is dropped by a call: at the end of its scope the proof frees all of it there.
ghost use Rattle.std.specs.Prelude.{◌≡◌};

use crate::trouble::Trouble;
use ctr_types::List;

/// Adds a value at the end.
pub fn add<T: Drop>(list: &mut List<T>, value: T) -> Result<(), Trouble> {
    list.push(value)?;
    Ok(())
}

/// Puts a value in the place of another.
pub fn set<T: Drop>(place: &mut T, value: T)
    ensures { place.new ≡ value }
{
    *place = value;
}

/// A value, if what had to be done before is done.
pub fn given<T: Drop>(done: Result<(), Trouble>, value: T) -> Result<T, Trouble> {
    done?;
    Ok(value)
}
