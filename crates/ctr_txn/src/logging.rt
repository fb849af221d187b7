// Calls that log a record of a session's transaction.
ghost use Rattle.std.specs.Prelude.{◌≡◌, ℕ, false, None, Some, [], IfOk, OnOk};
ghost use Rattle.ctr_model.specs.declared.state.State.{State};
ghost use Rattle.ctr_model.specs.declared.state.Transaction.{Transaction};
ghost use Rattle.ctr_model.specs.State.{transaction_of, with_transaction, without_transaction};
ghost use Rattle.ctr_rec.specs.declared.record.Record.TheVariants.{Begin, Commit, Abort};
ghost use Rattle.ctr_versions.specs.Laws.{IsGranted};
ghost use Rattle.ctr_versions.specs.Steps.{AreUntouched};
ghost use Rattle.ctr_paged.specs.record_laws_Owed.{OwedByCommit, OwedByAbort};
ghost use Rattle.ctr_paged.specs.actions_Sites.{site_of};
ghost use Rattle.ctr_paged.specs.actions_Actions.{Begins, Commits, Aborts, site_after};
ghost use Rattle.ctr_walk.specs.base_Base.{WhereSound};
ghost use Rattle.ctr_walk.specs.OneRecord.{LogsOne};
ghost use Rattle.ctr_txn.specs.Held.{TxnHeld, txn_of, number_drawn};
ghost use Rattle.ctr_txn.specs.Rooms.{HasItemRoom};
ghost use Rattle.ctr_txn.specs.Calls.{MayDraw, MayEnd, IsOverStore, DrawsFor, AsksFor, EndsFor, ShowsBehind, after_asking};

use crate::txns::Txns;
use ctr_disk::{Disk, StoreFault};
use ctr_paged::{a_logged_record_is_its_action, an_action_is_shown};
use ctr_rec::Record;
use ctr_types::Xid;
use ctr_walk::{Origin, Store, log_record};

impl Txns {
    /// A session draws its number, at its first lock: one record. It isn't hardened yet. It takes no memory.
    pub fn first_write<D: Disk, O: Origin>(
        &mut self,
        store: &mut Store<D, O>,
        s: u8,
    ) -> Result<Xid, StoreFault>
        requires may { MayDraw s self.old store.old }
        ensures number { IfOk result (λ x. x ≡ store.old.meta.tables.next) }
        ensures draws { DrawsFor s self.old self.new result }
        ensures over { OnOk result (IsOverStore self.new store.new) }
        ensures items { OnOk result (HasItemRoom self.old store.old.meta → HasItemRoom self.new store.new.meta) }
        ensures one { LogsOne O.first D.Disk (Begin store.old.meta.tables.next) store.old store.new result }
        ensures leaves { WhereSound O.first D.Disk (OnOk result (site_of store.new.now ≡ site_after store.old.meta.tables.next Begins (site_of store.old.now))) }
        // What is shown is the state in which the session was granted its lock.
        ensures shows { (low : ℕ) (state : State) (t u : Transaction) → transaction_of state s ≡ Some t → t.asked ≡ None → t.own ≡ [] → IsGranted t u
            → ShowsBehind O.first D.Disk self.old self.new store.old store.new result low state (with_transaction s u state) }
    {
        a_logged_record_is_its_action();
        an_action_is_shown();
        self.counts_sessions();
        store.bounds_numbers();
        let x = store.meta().next();
        match log_record(store, &Record::Begin { x }) {
            Ok(_) => Ok(self.draw(s)),
            Err(fault) => Err(fault),
        }
    }

    /// A session asks for its commit, by this statement: one record, which isn't hardened yet. It takes no memory.
    pub fn ask_commit<D: Disk, O: Origin>(
        &mut self,
        store: &mut Store<D, O>,
        s: u8,
        statement: u64,
    ) -> Result<u64, StoreFault>
        requires may { MayEnd s self.old store.old }
        ensures asks { AsksFor s statement self.old self.new result }
        ensures over { OnOk result (IsOverStore self.new store.new) }
        ensures items { OnOk result (HasItemRoom self.old store.old.meta → HasItemRoom self.new store.new.meta) }
        ensures one { LogsOne O.first D.Disk (Commit (number_drawn s self.old)) store.old store.new result }
        ensures leaves { WhereSound O.first D.Disk (OnOk result (site_of store.new.now ≡ site_after (number_drawn s self.old) Commits (site_of store.old.now))) }
        // What is shown is the state in which it asked, where each page of its own is linked, and nobody else has written in
        // a table that it made or dropped.
        ensures shows { (low : ℕ) (state : State) (b : TxnHeld) (t : Transaction) → txn_of s self.old ≡ Some b → b.session.undoing ≡ false → transaction_of state s ≡ Some t → t.asked ≡ None
            → AreUntouched state.sessions s t → OwedByCommit store.old.now.tables b.session.me
            → ShowsBehind O.first D.Disk self.old self.new store.old store.new result low state (after_asking s t state) }
    {
        a_logged_record_is_its_action();
        an_action_is_shown();
        self.counts_sessions();
        let x = self.me(s);
        match log_record(store, &Record::Commit { x }) {
            Ok(_) => Ok(self.ask(s, statement)),
            Err(fault) => Err(fault),
        }
    }

    /// A session's rollback ends, by its one mark: one record, which isn't hardened yet. It takes no memory.
    pub fn mark_abort<D: Disk, O: Origin>(
        &mut self,
        store: &mut Store<D, O>,
        s: u8,
    ) -> Result<(), StoreFault>
        requires may { MayEnd s self.old store.old }
        ensures ends { EndsFor s self.old self.new result }
        ensures over { OnOk result (IsOverStore self.new store.new) }
        ensures items { OnOk result (HasItemRoom self.old store.old.meta → HasItemRoom self.new store.new.meta) }
        ensures one { LogsOne O.first D.Disk (Abort (number_drawn s self.old)) store.old store.new result }
        ensures leaves { WhereSound O.first D.Disk (OnOk result (site_of store.new.now ≡ site_after (number_drawn s self.old) Aborts (site_of store.old.now))) }
        // What is shown is the state without the transaction, where no item of its own is left.
        ensures shows { (low : ℕ) (state : State) (b : TxnHeld) (t : Transaction) → txn_of s self.old ≡ Some b → transaction_of state s ≡ Some t → t.asked ≡ None
            → OwedByAbort store.old.now.tables b.session.me
            → ShowsBehind O.first D.Disk self.old self.new store.old store.new result low state (without_transaction s state) }
    {
        a_logged_record_is_its_action();
        an_action_is_shown();
        self.counts_sessions();
        let x = self.me(s);
        match log_record(store, &Record::Abort { x }) {
            Ok(_) => {
                self.end(s);
                Ok(())
            }
            Err(fault) => Err(fault),
        }
    }
}
