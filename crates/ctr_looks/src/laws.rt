// What a World gives to an act that looks, and what a refusal of it is to the World. A call does nothing: what it ensures is the law.
ghost use Rattle.std.specs.Prelude.{◌≡◌, ℕ, Some};
ghost use Rattle.ctr_types.specs.declared.statement.Statement.{Statement as Told};
ghost use Rattle.ctr_types.specs.declared.tape.Act.{Act as Acts};
ghost use Rattle.ctr_types.specs.declared.tape.Refusal.{Refusal as Refuses};
ghost use Rattle.ctr_types.specs.declared.tape.Reply.TheVariants as reply;
ghost use Rattle.ctr_model.specs.Tape.{Allowed};
ghost use Rattle.ctr_versions.specs.Engine.{IsCalm};
ghost use Rattle.ctr_asking.specs.ctr_wishes.actions_Sites.{site_of};
ghost use Rattle.ctr_store.specs.Store.{View};
ghost use Rattle.ctr_session_world.specs.kept_Walk.{Mind};
ghost use Rattle.ctr_session_world.specs.kept_Turns.{Start, InTransaction, state_now};
ghost use Rattle.ctr_session_world.specs.txn_Held.{TxnHeld, IsOneOfEight, txn_of};
ghost use Rattle.ctr_session_world.specs.page_turns_Turns.{RestsBehind};
ghost use Rattle.ctr_asking.specs.declared.asker.Asker.{Asker};
ghost use Rattle.ctr_asking.specs.Asking.{Asking};
ghost use Rattle.ctr_session_world.specs.World.{SessionsHeld, InWorld};
ghost use Rattle.ctr_session_world.specs.Told.{IsNextOf, IsActTold};
ghost use Rattle.ctr_looks.specs.Asked.{IsLook, IsFirstOf};

use ctr_disk::Disk;
use ctr_session_world::told::a_refusal_is_told;

/// In a World a session that is in a transaction, hasn't asked for its commit and isn't within its rollback may ask why a Lock or a Read is
/// refused: all that such a question asks of pages, transactions and locks is so.
pub fn a_session_in_a_world_may_look<D: Disk>()
    ensures { (c : Start) (opened : D) (v : View D) (h : SessionsHeld) (w : Mind) → InWorld D.Disk c opened v h w → (asker : Asker) (txn : TxnHeld) (seat : InTransaction c w asker.s)
        → IsOneOfEight asker.s → txn_of asker.s h.txns ≡ Some txn → IsCalm txn.session seat.t
        → asker.txns.now ≡ h.txns → asker.locks.now ≡ h.locks → asker.stuck.now ≡ (state_now c w).stuck
        → (k : Asking asker (site_of v.now)) × (k.state ≡ state_now c w) × (k.t ≡ seat.t) × (k.txn ≡ txn) }
{}

/// A refusal that the tape allows is told of a Lock or a Read, whether its session is in a transaction or in none.
pub(crate) fn a_refused_look_is_told<D: Disk>()
    ensures { (c : Start) (opened : D) (a b : View D) (h : SessionsHeld) (s : ℕ) (statement : Told) (next : IsNextOf D.Disk c opened a b h s statement 0) (x : Acts) → IsLook x → IsFirstOf x statement
        → (why : Refuses) → Allowed (state_now c next.mind) s x statement (reply.Refused why) → RestsBehind D.Disk a b → IsActTold next h x (reply.Refused why) }
{
    a_refusal_is_told::<D>();
}
