// All commits that were asked for are answered, one behind another.
ghost use Rattle.std.specs.Prelude.{◌≡◌, ◌≢◌, ◌≤◌, ◌<◌, ◌+◌, ◌++◌, ◌∷◌, ℕ, List, [], length};
ghost use Rattle.ctr_txn.specs.declared.txn.Asked.{Asked as AskedSo};
ghost use Rattle.ctr_txn.specs.Steps.{AnswersInTurn};
ghost use Rattle.ctr_txn.specs.Rooms.{StaysRoom};

use crate::txn::Asked;
use crate::txns::Txns;
use ctr_disk::Disk;
use ctr_walk::{Origin, Store};

/// Is told which commits are answered, as the tape that has room for an entry of each.
pub trait Answering {
    /// The sessions whose commits it was told, each with what it asked, in order.
    ghost told: { Self → List (ℕ × AskedSo) };

    /// How many more it can be told.
    ghost room: { Self → ℕ };

    /// A session's commit is answered. It takes no memory.
    fn answer(&mut self, s: u8, asked: Asked)
        requires { 0 < room self.old }
        ensures told { told self.new ≡ told self.old ++ (s, asked) ∷ [] }
        ensures room { room self.old ≤ room self.new + 1 };
}

impl Txns {
    /// Where nothing waits in the log, all commits that were asked for are answered, in the order in which they were, and their sessions'
    /// transactions end. The store is the same all the while, so that is at one moment. Where a record waits none is. It takes no memory.
    pub fn answer_all<D: Disk, O: Origin, A: Answering>(&mut self, store: &Store<D, O>, to: &mut A)
        requires { length self.old.numbers.commits ≤ self.old.answered + A.room to.old }
        ensures waits { store.now.waiting ≢ [] → (self.new ≡ self.old) × (A.told to.new ≡ A.told to.old) }
        ensures all { store.now.waiting ≡ [] → self.new.answered ≡ length self.old.numbers.commits }
        ensures told { (rs : List (ℕ × AskedSo)) × (A.told to.new ≡ A.told to.old ++ rs) × AnswersInTurn rs self.old self.new }
        ensures items { StaysRoom self.old self.new }
    {
        if let Some((s, asked)) = self.answer_hardened(store) {
            to.answer(s, asked);
            self.answer_all(store, to);
        }
    }
}
