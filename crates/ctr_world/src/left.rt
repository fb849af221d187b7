// Which sessions have statements left, and which are in a transaction.
ghost use Rattle.std.specs.Prelude.{◌≡◌, ◌≤◌, ◌<◌, ℕ, length, true, false, None, IfSome};
ghost use Rattle.ctr_pass.specs.txn_Held.{txn_of};
ghost use Rattle.ctr_world.specs.Turns.{HasStatementLeft};

use ctr_pass::{Sessions, Txns};

/// Whether a session has a statement that isn't finished.
pub(crate) fn has_left(sessions: &Sessions, s: u8) -> bool
    requires eight { length sessions.now.runners.items ≡ 8 }
    ensures yes { result ≡ true → HasStatementLeft s sessions.now }
    ensures no { result ≡ false → HasStatementLeft s sessions.now → ⊥ }
{
    if s == 0 || s > 8 {
        return false;
    }
    sessions.has_more(s)
}

/// The first session, from this one on, that has a statement that isn't finished.
pub(crate) fn first_left(sessions: &Sessions, s: u8) -> Option<u8>
    requires eight { length sessions.now.runners.items ≡ 8 }
    requires small { s ≤ 9 }
    ensures left { IfSome result (λ q. HasStatementLeft q sessions.now) }
    ensures first { IfSome result (λ q. (p : ℕ) → s ≤ p → p < q → HasStatementLeft p sessions.now → ⊥) }
    ensures none { result ≡ None → (q : ℕ) → s ≤ q → HasStatementLeft q sessions.now → ⊥ }
{
    if s > 8 {
        return None;
    }
    if has_left(sessions, s) {
        return Some(s);
    }
    first_left(sessions, s + 1)
}

/// Whether no session from this one on is in a transaction.
pub(crate) fn nobody_inside(txns: &Txns, s: u8) -> bool
    requires from { (1 ≤ s) × (s ≤ 9) }
    ensures none { result ≡ true → (q : ℕ) → s ≤ q → txn_of q txns.now ≡ None }
    ensures some { ((q : ℕ) → txn_of q txns.now ≡ None) → result ≡ true }
{
    txns.counts_sessions();
    if s > 8 {
        return true;
    }
    match txns.txn(s) {
        Some(_) => false,
        None => nobody_inside(txns, s + 1),
    }
}
