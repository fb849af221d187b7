// Room for what a session still does, and answers.
ghost use Rattle.std.specs.Prelude.{◌≡◌, ◌≢◌, ◌≤◌, ◌<◌, ℕ, true, None, Some, [], length, OnOk, OnErr, IfSome};
ghost use Rattle.std.specs.Ordering.{nat_cmp};
ghost use Rattle.std.specs.FinMap.Entries.{find};
ghost use Rattle.ctr_model.specs.declared.state.State.{State};
ghost use Rattle.ctr_model.specs.declared.state.Transaction.{Transaction};
ghost use Rattle.ctr_meta.specs.Kept.{RoomLeft};
ghost use Rattle.ctr_paged.specs.actions_Sites.{Site};
ghost use Rattle.ctr_paged.specs.Shown.{IsShown};
ghost use Rattle.ctr_txn.specs.Held.{TxnHeld, txn_of, scene_with, IsOneOfEight, HasNumberRoom};
ghost use Rattle.ctr_txn.specs.Steps.{SetsTxn, KeepsNumbers, AnswersNext, txn_room};
ghost use Rattle.ctr_txn.specs.Rooms.{HasItemRoom, StaysRoom};
ghost use Rattle.ctr_txn.specs.Calls.{answered_state};

use crate::laws::the_run_is_of_the_sessions;
use crate::txn::Asked;
use crate::txns::{SESSIONS, Txns};
use ctr_disk::Disk;
use ctr_paged::a_turn_without_a_record_is_shown;
use ctr_types::OutOfMemory;
use ctr_walk::{Origin, Store};

impl Txns {
    /// Takes all the room that a session's Write, its commit and its rollback may want behind a Lock, beside that of all others and the
    /// cleaner's: the store's for nine items and a transaction more, and that of a number and of eight commits. Where memory is
    /// refused, no room goes.
    pub fn reserve<D: Disk, O: Origin>(
        &mut self,
        store: &mut Store<D, O>,
        s: u8,
    ) -> Result<(), OutOfMemory>
        requires one { IsOneOfEight s }
        ensures same { (store.new ≡ record store.old { meta = store.new.meta }) × (store.new.meta.tables ≡ store.old.meta.tables) }
        ensures kept { RoomLeft 0 0 store.old.meta store.new.meta }
        ensures numbers { KeepsNumbers self.old.numbers self.new.numbers }
        ensures room { OnOk result (HasNumberRoom self.new × (1 ≤ store.new.meta.opens_room) × HasItemRoom self.new store.new.meta) }
        ensures sets { (t : TxnHeld) → txn_of s self.old ≡ Some t → OnOk result (SetsTxn s (Some (txn_room true t)) self.old self.new) }
        ensures err { OnErr result (self.new ≡ record self.old { numbers = self.new.numbers }) }
    {
        store.reserve(1, SESSIONS + 1)?;
        self.make_room()?;
        self.keep_item(s, true);
        self.counts_sessions();
        Ok(())
    }

    /// Where nothing waits in the log, the commit that was asked for first of those that aren't answered is answered, and its session's
    /// transaction ends; None where all are answered, or a record waits. It takes no memory.
    pub fn answer_hardened<D: Disk, O: Origin>(
        &mut self,
        store: &Store<D, O>,
    ) -> Option<(u8, Asked)>
        ensures waits { store.now.waiting ≢ [] → (result ≡ None) × (self.new ≡ self.old) }
        ensures none { store.now.waiting ≡ [] → result ≡ None → (self.old.answered ≡ length self.old.numbers.commits) × (self.new ≡ self.old) }
        ensures next { IfSome result (λ r. AnswersNext r.0 r.1 self.old self.new) }
        ensures items { StaysRoom self.old self.new }
        // What is shown is the state in which it is answered.
        ensures shows { (low : ℕ) (site : Site) (state : State) (t : Transaction) → IsShown low site (scene_with self.old state)
            → IfSome result (λ r. find nat_cmp r.0 state.sessions ≡ Some t → t.asked ≡ Some r.1.k → IsShown low site (scene_with self.new (answered_state r.0 state))) }
    {
        a_turn_without_a_record_is_shown();
        the_run_is_of_the_sessions();
        self.counts_sessions();
        if !store.is_hardened() {
            return None;
        }
        self.answer_next()
    }
}
