// Values that are copied and compared whole.
ghost use Rattle.std.specs.Prelude.{◌≡◌, ◌↔◌, IsTrue, IfOk, length, take};

use std::alloc::{AllocError, Global};

/// Plain data. The contracts of `Clone` and `==` leave open, at a type parameter, what a copy or an
/// answer says of the values; these two say it exactly.
pub trait Plain: Drop {
    /// A value of the same content.
    fn copy(&self, alloc: Global) -> Result<Self, AllocError>
        ensures { IfOk result (λ copied. copied ≡ self.now) };

    /// Whether two values are the same.
    fn same(&self, other: &Self) -> bool
        ensures { IsTrue result ↔ (self.now ≡ other.now) };
}

impl Plain for u8 {
    fn copy(&self, _alloc: Global) -> Result<Self, AllocError> {
        Ok(*self)
    }

    fn same(&self, other: &Self) -> bool {
        self == other
    }
}

impl<A: Plain, B: Plain> Plain for (A, B) {
    fn copy(&self, alloc: Global) -> Result<Self, AllocError> {
        let first = self.0.copy(alloc)?;
        let second = self.1.copy(alloc)?;
        Ok((first, second))
    }

    fn same(&self, other: &Self) -> bool {
        self.0.same(&other.0) && self.1.same(&other.1)
    }
}

/// A copy of each item, in order.
pub fn copy_all<T: Plain>(alloc: Global, from: &[T]) -> Result<Vec<T>, AllocError>
    ensures { IfOk result (λ to. to.items ≡ from.now) }
{
    let mut to = Vec::with_capacity(alloc, from.len())?;
    for item in from {
        to.push(item.copy(alloc)?)?;
    }
    Ok(to)
}

/// Whether two slices have the same items.
pub fn same_all<T: Plain>(a: &[T], b: &[T]) -> bool
    ensures { IsTrue result ↔ (a.now ≡ b.now) }
{
    if a.len() != b.len() {
        return false;
    }
    for i in 0..a.len() {
        if !a[i].same(&b[i]) {
            return false;
        }
    }
    true
}
