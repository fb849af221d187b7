//! Who has which lock of the tables on pages: of a key in an entry of the catalog, of a table's use, of a table's
//! name. A lock is granted or refused at once, and nobody waits. A session in no transaction has nothing; which
//! sessions are in one isn't known here.
#![tactic(auto)]

mod entry;
mod held;
mod laws;
mod locks;
mod released;
mod session;

pub use held::Held;
pub use laws::{key_locks_are_the_models, key_locks_show};
pub use locks::KeyLocks;
