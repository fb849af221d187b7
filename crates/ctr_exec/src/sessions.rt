// One turn of a session.
ghost use Rattle.std.specs.Prelude.{◌≡◌, ◌⊎◌, ◌≤◌, ◌<◌, ◌+◌, ◌-◌, ◌^◌, ◌++◌, ◌∷◌, [], ℕ, true, false, length, Some, IfOk, OnOk, vec_len, vec_capacity, slice_get, slice_set};
ghost use Rattle.std.specs.List.{AllByRecursion};
ghost use Rattle.ctr_types.specs.declared.statement.Line.{Line as LineIs};
ghost use Rattle.ctr_types.specs.declared.tape.Turn.TheVariants as turns;
ghost use Rattle.ctr_base.specs.Base.{WhereSound};
ghost use Rattle.ctr_store.specs.Store.{HasTurnRoom};
ghost use Rattle.ctr_control.specs.kept_Turns.{Start};
ghost use Rattle.ctr_control.specs.kept_Walk.{Mind};
ghost use Rattle.ctr_control.specs.ctr_session_world.Ready.{StandOver, LeavesDisk};
ghost use Rattle.ctr_control.specs.ctr_writing.Tables.{HasFittingColumns};
ghost use Rattle.ctr_exec.specs.declared.runners.Stage.TheVariants as stages;
ghost use Rattle.ctr_exec.specs.Order.{Adds, AddsOrFails, IsTapeOrdered};
ghost use Rattle.ctr_exec.specs.Runners.{runner_at, after_act, all_left, IsNextLine, IsRunnerOf};
ghost use Rattle.ctr_exec.specs.Sessions.{AreSeated, AreFresh, HasAct, IsOverWhere, MayGo, LeavesSeats, ShowsSessions, LeadsTo, OrFails, TakesAct, TakesTurn, AreAnswers, AreOfTurn, noted_entry, entries_by, runner_by, turns_left};

use crate::acting::{Acted, act};
use crate::runners::{Runner, Stage, runners};
use ctr_base::Origin;
use ctr_control::writing::what_a_write_counts_on_stays;
use ctr_control::{Txns, answer_one, flush, make_room};
use ctr_disk::{Disk, StoreFault};
use ctr_locks::KeyLocks;
use ctr_model::{legal_states_are_sound, snapshots_stay};
use ctr_store::Store;
use ctr_tally::Steps;
use ctr_types::{Act, Entry, Line, List, Name, OutOfMemory, Reply, Script, Statement, Turn, Xid};
use std::alloc::Global;
use std::mem;
use std::sync::ledger::Ledger;

/// The sessions of a script at their statements, over a store that isn't theirs: their transactions and locks, and the tape of what they
/// were answered.
#[derive(Drop)]
pub struct Sessions {
    pub txns: Txns,
    pub locks: KeyLocks,
    /// The names that recovery holds.
    pub stuck: List<Name>,
    /// The statements of all sessions.
    pub script: Script,
    /// A runner for each of the sessions, from 1 on.
    pub runners: Vec<Runner>,
    /// Room for two entries of each line was taken, and for one of each name that recovery held.
    pub tape: Vec<Entry>,
}

// The statement of a line.
fn statement_at(lines: &[Line], place: usize) -> &Statement
    requires { place < length lines.now }
    ensures { (line : LineIs) → slice_get lines.now place ≡ Some line → result.now ≡ line.statement }
{
    &lines[place].statement
}

// Whether it is that of a session that has asked for its commit, and isn't answered yet.
fn is_waiting(stage: &Stage) -> bool
    ensures yes { result ≡ true → stage.now ≡ stages.Asked }
    ensures no { result ≡ false → stage.now ≡ stages.Asked → ⊥ }
{
    match stage {
        Stage::Asked => true,
        Stage::Between | Stage::Row { .. } | Stage::Table(_) => false,
    }
}

impl Sessions {
    /// The sessions 1 to 8 before the first act of a script, over a store whose next transaction has this number. Room for the whole tape is
    /// taken. `stuck` are the names that recovery holds.
    pub fn new(
        alloc: Global,
        next: Xid,
        stuck: List<Name>,
        script: Script,
    ) -> Result<Sessions, OutOfMemory>
        requires first { 0 < next }
        requires few { length script.lines < 2 ^ 32 - 1 }
        requires fit { AllByRecursion (λ (l : LineIs). HasFittingColumns l.statement) script.lines }
        ensures seats { IfOk result (λ h. (counted : ℕ) → AreSeated h counted) }
        ensures fresh { IfOk result AreFresh }
        ensures is { IfOk result (λ h. (h.txns.numbers.next ≡ next) × (h.stuck ≡ stuck) × (h.script ≡ script)) }
        // Its tape has no entry, so it stands in order from any moment on.
        ensures ordered { IfOk result (λ h. (start now : ℕ) → start ≤ now → IsTapeOrdered start now h) }
    {
        let txns = Txns::new(alloc, next)?;
        let runners = runners(alloc, script.lines.as_slice())?;
        let tape = Vec::with_capacity(alloc, 2 * script.lines.len() + stuck.as_slice().len())?;
        Ok(Sessions {
            txns,
            locks: KeyLocks::new(alloc),
            stuck,
            script,
            runners,
            tape,
        })
    }

    /// Whether a session has a statement that isn't finished.
    pub fn has_more(&self, s: u8) -> bool
        requires { (1 ≤ s) × (s ≤ length self.now.runners.items) }
        ensures yes { result ≡ true → (runner_at s self.now.runners.items).finished < length (runner_at s self.now.runners.items).places }
        ensures no { result ≡ false → length (runner_at s self.now.runners.items).places ≤ (runner_at s self.now.runners.items).finished }
    {
        let runner = &self.runners[s as usize - 1];
        runner.finished < runner.places.len()
    }

    /// How many of its statements a session has finished.
    pub fn finished(&self, s: u8) -> usize
        requires { 1 ≤ s }
        ensures { result ≡ (runner_at s self.now.runners.items).finished }
    {
        match self.runners.get(s as usize - 1) {
            Some(runner) => runner.finished,
            None => 0,
        }
    }

    // Whether a session has asked for its commit, and isn't answered yet.
    fn waits(&self, s: u8) -> bool
        requires { (1 ≤ s) × (s ≤ length self.now.runners.items) }
        ensures yes { result ≡ true → (runner_at s self.now.runners.items).stage ≡ stages.Asked }
        ensures no { result ≡ false → (runner_at s self.now.runners.items).stage ≡ stages.Asked → ⊥ }
    {
        is_waiting(&self.runners[s as usize - 1].stage)
    }

    // The number of a session's next statement.
    fn next_number(&self, s: u8) -> u64
        requires one { (1 ≤ s) × (s ≤ length self.now.runners.items) }
        requires small { (runner_at s self.now.runners.items).finished < 2 ^ 64 - 1 }
        ensures { result ≡ (runner_at s self.now.runners.items).finished + 1 }
    {
        self.runners[s as usize - 1].finished as u64 + 1
    }

    // Writes an act of a session's next statement down, and how far the session is then. Room for it was taken.
    fn note(&mut self, s: u8, act: Act, reply: Reply, moment: u64, stage: Stage)
        requires one { (1 ≤ s) × (s ≤ length self.old.runners.items) }
        requires room { vec_len self.old.tape < vec_capacity self.old.tape }
        requires small { (runner_at s self.old.runners.items).finished < 2 ^ 64 - 1 }
        ensures is { self.new ≡ record self.old { tape = self.new.tape; runners = self.new.runners } }
        ensures tape { self.new.tape.items ≡ self.old.tape.items ++ noted_entry s (runner_at s self.old.runners.items) act reply moment ∷ [] }
        ensures len { vec_len self.new.tape ≡ vec_len self.old.tape + 1 }
        ensures capacity { vec_capacity self.new.tape ≡ vec_capacity self.old.tape }
        ensures runners { self.new.runners.items ≡ slice_set self.old.runners.items (s - 1) (after_act stage (runner_at s self.old.runners.items)) }
    {
        let runner = &mut self.runners[s as usize - 1];
        self.tape.push_reserved(Entry {
            session: s,
            statement: runner.finished as u64 + 1,
            act,
            reply,
            moment,
        });
        if let Stage::Between = &stage {
            runner.finished += 1;
        }
        runner.stage = stage;
    }

    // What a turn of an act came to: its entry, where it is told, and how far the session is then.
    fn told(&mut self, s: u8, acted: Acted, moment: u64)
        requires one { (1 ≤ s) × (s ≤ length self.old.runners.items) }
        requires room { vec_len self.old.tape < vec_capacity self.old.tape }
        requires small { (runner_at s self.old.runners.items).finished < 2 ^ 64 - 1 }
        ensures is { self.new ≡ record self.old { tape = self.new.tape; runners = self.new.runners } }
        ensures tape { self.new.tape.items ≡ self.old.tape.items ++ entries_by s (runner_at s self.old.runners.items) moment acted }
        ensures len { vec_len self.new.tape ≡ vec_len self.old.tape + length (entries_by s (runner_at s self.old.runners.items) moment acted) }
        ensures capacity { vec_capacity self.new.tape ≡ vec_capacity self.old.tape }
        ensures runners { self.new.runners.items ≡ slice_set self.old.runners.items (s - 1) (runner_by acted (runner_at s self.old.runners.items)) }
    {
        match acted {
            Acted::On(stage) => {
                self.runners[s as usize - 1].stage = stage;
            }
            Acted::Granted(stage) => self.note(s, Act::Lock, Reply::Granted, moment, stage),
            Acted::Asked { k } => {
                self.note(s, Act::Ask, Reply::Asked { k }, moment, Stage::Asked);
            }
            Acted::Ended { act, reply } => self.note(s, act, reply, moment, Stage::Between),
        }
    }

    // The place of a session's next line, and what the session is in the middle of, which is taken out.
    fn take(&mut self, s: u8) -> (usize, Stage)
        requires one { (1 ≤ s) × (s ≤ length self.old.runners.items) }
        requires more { (runner_at s self.old.runners.items).finished < length (runner_at s self.old.runners.items).places }
        requires of { IsRunnerOf self.old.script.lines s (runner_at s self.old.runners.items) }
        ensures inside { result.0 < length self.old.script.lines }
        ensures line { IsNextLine self.old.script.lines s (runner_at s self.old.runners.items).finished result.0 }
        ensures stage { result.1 ≡ (runner_at s self.old.runners.items).stage }
        ensures runners { self.new.runners.items ≡ slice_set self.old.runners.items (s - 1) (record (runner_at s self.old.runners.items) { stage = stages.Between }) }
        ensures same { self.new ≡ record self.old { runners = self.new.runners } }
    {
        let runner = &mut self.runners[s as usize - 1];
        let place = runner.places.as_slice()[runner.finished];
        (place, mem::replace(&mut runner.stage, Stage::Between))
    }

    // Where nothing waits in the log, the commit that was asked for first of those that aren't answered is answered at this moment. Whether one was.
    fn answer_next<D: Disk, O: Origin>(&mut self, store: &Store<D, O>) -> bool
        requires seats { AreSeated self.old store.now.now.counted }
        ensures seats { AreSeated self.new store.now.now.counted }
        ensures over { StandOver self.old.txns store.now → StandOver self.new.txns store.now }
        ensures none { result ≡ false → (self.new.runners.items ≡ self.old.runners.items) × (store.now.waiting ≡ [] → self.new.txns.answered ≡ length self.new.txns.numbers.commits) }
        ensures fewer { result ≡ true → all_left self.new.runners.items < all_left self.old.runners.items }
        ensures told { (c : Start) (opened : D) (w : Mind) → WhereSound O.first D.Disk (store.now.stopped ≡ false
            → (before : ShowsSessions D.Disk c opened store.now self.old w) → LeadsTo before AreAnswers store.now self.new) }
        ensures adds { (before : ℕ) → before ≤ D.moment_of store.now.disk → Adds AreAnswers before (D.moment_of store.now.disk) self.old self.new }
    {
        legal_states_are_sound();
        snapshots_stay();
        what_a_write_counts_on_stays();
        match answer_one(store, &mut self.txns, &mut self.locks) {
            None => false,
            Some((s, asked)) => {
                let reply = Reply::Answered { k: asked.k };
                self.note(s, Act::Answer, reply, store.moment(), Stage::Between);
                true
            }
        }
    }

    /// Where nothing waits in the log, all commits that were asked for are answered, in the order in which they were, each at this moment.
    /// Where a record waits none is. It takes no memory.
    pub fn answer<D: Disk, O: Origin>(&mut self, store: &Store<D, O>)
        requires seats { AreSeated self.old store.now.now.counted }
        ensures seats { AreSeated self.new store.now.now.counted }
        ensures over { StandOver self.old.txns store.now → StandOver self.new.txns store.now }
        ensures all { store.now.waiting ≡ [] → self.new.txns.answered ≡ length self.new.txns.numbers.commits }
        // Where one is, fewer acts are left.
        ensures fewer { (self.new.runners.items ≡ self.old.runners.items) ⊎ (all_left self.new.runners.items < all_left self.old.runners.items) }
        // In a World it is told so.
        ensures told { (c : Start) (opened : D) (w : Mind) → WhereSound O.first D.Disk (store.now.stopped ≡ false
            → (before : ShowsSessions D.Disk c opened store.now self.old w) → LeadsTo before AreAnswers store.now self.new) }
        // Whatever the disk tells, it adds answers to the tape and nothing else, each the next act of its session.
        ensures adds { (before : ℕ) → before ≤ D.moment_of store.now.disk → Adds AreAnswers before (D.moment_of store.now.disk) self.old self.new }
    {
        if self.answer_next(store) {
            self.answer(store);
        }
    }

    // A turn of the next act of a session's next statement.
    fn act<D: Disk, O: Origin, L: Ledger>(
        &mut self,
        alloc: Global,
        store: &mut Store<D, O>,
        s: u8,
        steps: &mut Steps<L>,
    ) -> Result<(), StoreFault>
        requires go { MayGo s self.old store.old × HasTurnRoom store.old }
        requires more { HasAct self.old s }
        ensures leaves { OnOk result (LeavesSeats self.new store.old store.new) }
        ensures fewer { OnOk result (turns_left self.new store.new < turns_left self.old store.old) }
        ensures told { (c : Start) (opened : D) (w : Mind) → WhereSound O.first D.Disk ((before : ShowsSessions D.Disk c opened store.old self.old w) → OrFails (TakesAct before s store.new self.new) result) }
        ensures steps { steps.new ≤ steps.old + 2 }
        ensures disk { LeavesDisk O.first D.Disk store.old store.new result }
        ensures adds { AddsOrFails (AreOfTurn s) (D.moment_of store.old.disk) (D.moment_of store.new.disk) self.old self.new result }
    {
        legal_states_are_sound();
        snapshots_stay();
        what_a_write_counts_on_stays();
        let number = self.next_number(s);
        let (place, stage) = self.take(s);
        let statement = statement_at(self.script.lines.as_slice(), place);
        let acted = act(
            alloc,
            store,
            &mut self.txns,
            &mut self.locks,
            &self.stuck,
            s,
            statement,
            number,
            stage,
            steps,
        );
        store.counts_pages();
        match acted {
            Err(fault) => Err(fault),
            Ok(acted) => {
                self.told(s, acted, store.moment());
                Ok(())
            }
        }
    }

    // A flush, with the answers of all that asked.
    fn flush<D: Disk, O: Origin>(
        &mut self,
        store: &mut Store<D, O>,
        s: u8,
    ) -> Result<(), StoreFault>
        requires go { MayGo s self.old store.old }
        ensures leaves { OnOk result (LeavesSeats self.new store.old store.new) }
        ensures told { (c : Start) (opened : D) (w : Mind) → WhereSound O.first D.Disk ((before : ShowsSessions D.Disk c opened store.old self.old w) → OrFails (LeadsTo before (AreOfTurn s) store.new self.new) result) }
        ensures fewer { OnOk result ((runner_at s self.old.runners.items).stage ≡ stages.Asked → turns_left self.new store.new < turns_left self.old store.old) }
        ensures all { OnOk result ((store.new.waiting ≡ []) × (self.new.txns.answered ≡ length self.new.txns.numbers.commits)) }
        ensures disk { LeavesDisk O.first D.Disk store.old store.new result }
        ensures adds { AddsOrFails (AreOfTurn s) (D.moment_of store.old.disk) (D.moment_of store.new.disk) self.old self.new result }
    {
        match flush(store) {
            Err(fault) => Err(fault),
            Ok(()) => {
                self.answer(store);
                self.txns.numbers_commits();
                Ok(())
            }
        }
    }

    // What a session's turn does that isn't over.
    fn go<D: Disk, O: Origin, L: Ledger>(
        &mut self,
        alloc: Global,
        store: &mut Store<D, O>,
        s: u8,
        steps: &mut Steps<L>,
    ) -> Result<(), StoreFault>
        requires go { MayGo s self.old store.old }
        requires more { (runner_at s self.old.runners.items).finished < length (runner_at s self.old.runners.items).places }
        ensures leaves { OnOk result (LeavesSeats self.new store.old store.new) }
        ensures fewer { OnOk result (turns_left self.new store.new < turns_left self.old store.old) }
        ensures told { (c : Start) (opened : D) (w : Mind) → WhereSound O.first D.Disk ((before : ShowsSessions D.Disk c opened store.old self.old w) → OrFails (TakesTurn before s store.new self.new) result) }
        ensures steps { steps.new ≤ steps.old + 2 }
        ensures disk { LeavesDisk O.first D.Disk store.old store.new result }
        ensures adds { AddsOrFails (AreOfTurn s) (D.moment_of store.old.disk) (D.moment_of store.new.disk) self.old self.new result }
    {
        if self.waits(s) {
            return self.flush(store, s);
        }
        if store.room() {
            return self.act(alloc, store, s, steps);
        }
        make_room(store)
    }

    /// A turn of a session: over, where its statements are finished; a flush, with the answers of all that asked, where it waits for the
    /// answer of its commit; a turn for room, where the store has none; or a turn of the next act of its next statement. It logs one record at
    /// most. What a ROLLBACK reads and logs is counted.
    pub fn turn<D: Disk, O: Origin, L: Ledger>(
        &mut self,
        alloc: Global,
        store: &mut Store<D, O>,
        s: u8,
        steps: &mut Steps<L>,
    ) -> Result<Turn, StoreFault>
        requires go { MayGo s self.old store.old }
        // It is over exactly where the session has no statement left.
        ensures over { IfOk result (λ t. IsOverWhere t (runner_at s self.old.runners.items)) }
        // Whatever the disk tells, the next turn may be taken, where there is a number for its record.
        ensures leaves { OnOk result (LeavesSeats self.new store.old store.new) }
        // Where it isn't over, fewer turns are left.
        ensures fewer { IfOk result (λ t. t ≡ turns.Went → turns_left self.new store.new < turns_left self.old store.old) }
        // In a World it takes an act further, comes nearer to room for one, or answers commits, and tells nothing else; it fails by the disk alone.
        ensures told { (c : Start) (opened : D) (w : Mind) → WhereSound O.first D.Disk ((before : ShowsSessions D.Disk c opened store.old self.old w) → OrFails (TakesTurn before s store.new self.new) result) }
        ensures steps { steps.new ≤ steps.old + 2 }
        // However it ends, time doesn't go back, a fault is told where the disk counts one more, and a crash in it leaves what was hardened
        // with some of what waited.
        ensures disk { LeavesDisk O.first D.Disk store.old store.new result }
        // Whatever the disk tells, it adds an act of the session to the tape, or answers, or nothing: each the next of its session, at the
        // moment at which the turn ends.
        ensures adds { AddsOrFails (AreOfTurn s) (D.moment_of store.old.disk) (D.moment_of store.new.disk) self.old self.new result }
    {
        store.rests();
        if !self.has_more(s) {
            return Ok(Turn::Over);
        }
        match self.go(alloc, store, s, steps) {
            Err(fault) => Err(fault),
            Ok(()) => Ok(Turn::Went),
        }
    }
}
