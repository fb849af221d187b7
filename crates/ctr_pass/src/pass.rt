// Where a pass of the cleaner is.
ghost use Rattle.std.specs.Prelude.{◌≡◌, true, false, None, Some, drop};
ghost use Rattle.ctr_pass.specs.Passing.{ends_transaction as ends_one, keeps_room as room_kept, noted as noted_by, pass_behind, pass_on, some_end};
ghost use Rattle.ctr_pass.specs.declared.pass.Phase.TheVariants.{Disturbed, Calm, Idle};
ghost use Rattle.ctr_cleaner.specs.cursor_Pass.{start};

use crate::going::Went;
use ctr_cleaner::{CleanTurn, Position};
use ctr_types::{Entry, Reply};

/// How a pass of the cleaner went so far.
#[derive(Clone, Copy, Debug, PartialEq, Eq)]
pub enum Phase {
    /// Something happened since it began, a record or the end of a transaction; or somewhere it wasn't seen whether there is anything to do.
    Disturbed,
    /// Nothing happened, and nothing was found to do.
    Calm,
    /// So it was up to its end, and nothing has happened since.
    Idle,
}

/// Where the cleaner's pass is, and what it has seen.
#[derive(Clone, Copy, Debug, PartialEq, Eq)]
pub struct Pass {
    pub at: Position,
    /// The log's next number, as the cleaner saw it last.
    pub next: u64,
    /// How many entries of the tape it has seen.
    pub seen: usize,
    pub phase: Phase,
}

/// Whether a reply ends its session's transaction.
fn is_end(reply: &Reply) -> bool
    ensures { result ≡ ends_one reply.now }
{
    match reply {
        Reply::ReadOnly | Reply::Answered { .. } | Reply::RolledBack => true,
        Reply::Began { .. }
        | Reply::Granted
        | Reply::Rows { .. }
        | Reply::Done
        | Reply::Asked { .. }
        | Reply::Released
        | Reply::Refused { .. } => false,
    }
}

/// Whether a transaction ends by one of these entries.
fn some_ends(entries: &[Entry]) -> bool
    ensures { result ≡ some_end entries.now }
{
    entries.iter().any(|entry| is_end(&entry.reply))
}

/// Whether a transaction ends by an entry of a tape, from one on. Those before it aren't looked at.
fn ends(tape: &[Entry], from: usize) -> bool
    ensures { result ≡ some_end (drop from tape.now) }
{
    match tape.get(from..) {
        Some(behind) => some_ends(behind),
        None => false,
    }
}

impl Pass {
    /// The first pass, over a log whose next record has this number, before any entry of the tape.
    pub fn new(next: u64) -> Pass
        ensures { result ≡ record { at = start; next = next; seen = 0; phase = Calm } }
    {
        Pass {
            at: Position::Entry { entry: 0 },
            next,
            seen: 0,
            phase: Phase::Calm,
        }
    }

    /// The pass once the cleaner has looked at what happened since: a record, or the end of a transaction, disturbs it.
    pub fn noted(self, next: u64, tape: &[Entry]) -> Pass
        ensures { result ≡ noted_by self next tape.now }
    {
        let phase = if self.next == next && !ends(tape, self.seen) {
            self.phase
        } else {
            Phase::Disturbed
        };
        Pass {
            at: self.at,
            next,
            seen: tape.len(),
            phase,
        }
    }

    /// Whether a whole pass found nothing, and nothing has happened since.
    pub fn is_idle(self) -> bool
        ensures yes { result ≡ true → self.phase ≡ Idle }
        ensures no { result ≡ false → self.phase ≡ Idle → ⊥ }
    {
        match self.phase {
            Phase::Disturbed | Phase::Calm => false,
            Phase::Idle => true,
        }
    }

    /// Whether it is at a version entry.
    pub fn is_at_version(self) -> bool {
        match self.at {
            Position::Kept { .. } => true,
            Position::Entry { .. } | Position::Slot { .. } | Position::Aborted { .. } => false,
        }
    }

    // Nothing was found, and this is behind it.
    fn moved(self, to: Position, may_unlink: bool) -> Pass
        ensures { result ≡ pass_on may_unlink (Some to) self }
    {
        let phase = if may_unlink {
            self.phase
        } else {
            Phase::Disturbed
        };
        Pass {
            at: to,
            next: self.next,
            seen: self.seen,
            phase,
        }
    }

    // Nothing was found, and the pass is over.
    fn over(self, may_unlink: bool) -> Pass
        ensures { result ≡ pass_on may_unlink None self }
    {
        let phase = match self.phase {
            Phase::Disturbed => Phase::Calm,
            Phase::Calm => { if may_unlink { Phase::Idle } else { Phase::Calm } }
            Phase::Idle => Phase::Idle,
        };
        Pass {
            at: Position::Entry { entry: 0 },
            next: self.next,
            seen: self.seen,
            phase,
        }
    }

    // It wasn't seen whether there is anything to do, and this is behind it, or the pass is over.
    fn left(self, to: Option<Position>, may_unlink: bool) -> Pass
        ensures { result ≡ pass_on may_unlink to (record self { phase = Disturbed }) }
    {
        let disturbed = Pass {
            at: self.at,
            next: self.next,
            seen: self.seen,
            phase: Phase::Disturbed,
        };
        match to {
            None => disturbed.over(may_unlink),
            Some(to) => disturbed.moved(to, may_unlink),
        }
    }

    /// The pass behind a turn, behind which the log's next record has this number. `may_unlink` is whether a page might leave its chain.
    pub fn behind(self, went: Went, may_unlink: bool, next: u64) -> Pass
        ensures { result ≡ pass_behind self went.from went.did may_unlink next }
    {
        match went.did {
            CleanTurn::Cleaned | CleanTurn::Unlinked | CleanTurn::Reclaimed => Pass {
                at: went.from,
                next,
                seen: self.seen,
                phase: Phase::Disturbed,
            },
            CleanTurn::Moved { to } => self.moved(to, may_unlink),
            CleanTurn::Over => self.over(may_unlink),
            CleanTurn::Left { to } => self.left(to, may_unlink),
        }
    }
}

/// Whether room is kept for an item of the cleaner's behind a turn: not while a page that left its chain waits to be free again.
pub fn keeps_room(kept: bool, did: CleanTurn) -> bool
    ensures { result ≡ room_kept kept did }
{
    match did {
        CleanTurn::Cleaned | CleanTurn::Moved { .. } | CleanTurn::Over | CleanTurn::Left { .. } =>
            kept,
        CleanTurn::Unlinked => false,
        CleanTurn::Reclaimed => true,
    }
}
