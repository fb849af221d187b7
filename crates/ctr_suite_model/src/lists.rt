// Lists of values that have much to free. That memory is refused is proved here once, for a value of any type.
use crate::trouble::Trouble;
use ctr_types::List;

/// Adds a value at the end.
pub fn add<T: Drop>(list: &mut List<T>, value: T) -> Result<(), Trouble> {
    list.push(value)?;
    Ok(())
}

/// Adds a value at the end, if what had to be done before is done.
pub fn add_after<T: Drop>(
    done: Result<(), Trouble>,
    list: &mut List<T>,
    value: T,
) -> Result<(), Trouble> {
    done?;
    add(list, value)
}
