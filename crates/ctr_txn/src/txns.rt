// The transactions of all sessions.
ghost use Rattle.std.specs.Prelude.{◌≡◌, ◌↔◌, IsTrue, ℕ, ◌<◌, ◌≤◌, ◌+◌, ◌-◌, ◌^◌, ◌++◌, drop, map, true, false, None, Some, [], length, get_or, IfOk, OnOk, OnErr, IfSome};
ghost use Rattle.ctr_snap.specs.Seeing.{has, least};
ghost use Rattle.ctr_versions.specs.Engine.{SessionHeld};
ghost use Rattle.ctr_versions.specs.Laws.{sessions_named};
ghost use Rattle.ctr_versions.specs.Xids.{unanswered};
ghost use Rattle.ctr_paged.specs.Paged.{xids_of};
ghost use Rattle.ctr_txn.specs.Numbered.{number_asked};
ghost use Rattle.ctr_txn.specs.Held.{AreTxns, TxnHeld, txn_of, IsOneOfEight, held_from, number_of_txn, number_drawn, HasNumberRoom, IsReading, IsWriting};
ghost use Rattle.ctr_txn.specs.Steps.{SetsTxn, KeepsNumbers, DrawsOne, AsksOne, txn_begun, txn_drawn, txn_undoing, txn_asked, txn_room, mark_in, AnswersNext};
ghost use Rattle.ctr_txn.specs.Rooms.{SpendsOne, GetsBack, StaysRoom};

use crate::numbers::Numbers;
use crate::txn::{Asked, Txn};
use ctr_meta::Meta;
use ctr_snap::{Snapshot, least_of};
use ctr_types::{OutOfMemory, Xid};
use std::alloc::Global;
use std::marker::Model;

/// How many sessions there are.
pub const SESSIONS: usize = 8;

/// For each session, from 1 on, its transaction, where it is in one; who asked for a commit, and how many of those are
/// answered.
#[derive(Drop)]
pub struct Txns {
    numbers: Numbers,
    sessions: Vec<Option<Txn>>,
    answered: u64,
    cleaner: bool,
}

impl Model for Txns {
    ghost use Rattle.ctr_txn.specs.Held.{TxnsHeld};

    ghost Value = { TxnsHeld };

    ghost use Rattle.ctr_txn.specs.TxnsInside.{txns_here, HaveTxns};

    ghost view = { txns_here };

    ghost invariant = { HaveTxns };
}

impl Txns {
    /// No session is in a transaction, and none has asked. The first number that will be drawn is this.
    pub fn new(alloc: Global, first: Xid) -> Result<Txns, OutOfMemory>
        requires { 0 < first }
        ensures nobody { IfOk result (λ a. (i : ℕ) → get_or a.sessions i None ≡ None) }
        ensures numbers { IfOk result (λ a. (a.numbers.next ≡ first) × (a.numbers.commits ≡ []) × (a.answered ≡ 0) × (a.cleaner ≡ false)) }
    {
        let mut sessions = Vec::new(alloc);
        for at in 0..SESSIONS {
            sessions.push(None)?;
        }
        Ok(Txns {
            numbers: Numbers::new(alloc, first),
            sessions,
            answered: 0,
            cleaner: false,
        })
    }

    /// The transaction of a session, where it is in one.
    pub fn txn(&self, s: u8) -> &Option<Txn>
        requires { IsOneOfEight s }
        ensures { result.now ≡ txn_of s self.now }
    {
        &self.sessions[s as usize - 1]
    }

    /// The number of a session's transaction; 0 where it has none.
    pub fn me(&self, s: u8) -> Xid
        requires { IsOneOfEight s }
        ensures { result ≡ number_drawn s self.now }
    {
        match self.txn(s) {
            Some(txn) => txn.me,
            None => 0,
        }
    }

    /// The next number to be drawn.
    pub fn next(&self) -> Xid
        ensures { result ≡ self.now.numbers.next }
    {
        self.numbers.next()
    }

    /// Whether a session is in a transaction without a number.
    pub fn is_reading(&self, s: u8) -> bool
        requires { IsOneOfEight s }
        ensures { IsTrue result ↔ IsReading s self.now }
    {
        match self.txn(s) {
            Some(txn) => txn.me == 0,
            None => false,
        }
    }

    /// Whether a session is in a transaction with a number, and hasn't asked for its commit.
    pub fn is_writing(&self, s: u8) -> bool
        requires { IsOneOfEight s }
        ensures { IsTrue result ↔ IsWriting s self.now }
    {
        match self.txn(s) {
            Some(txn) => txn.may_ask(),
            None => false,
        }
    }

    /// There are eight sessions. The call does nothing: what it ensures always holds.
    pub fn counts_sessions(&self)
        ensures { length self.now.sessions ≡ 8 }
    {
        let _ = &self.sessions;
    }

    /// Each commit that isn't answered is a session's, at its place among those that asked, and no two sessions have one number. The call
    /// does nothing: what it ensures always holds.
    pub fn numbers_commits(&self)
        ensures { AreTxns self.now }
    {
        let _ = &self.sessions;
    }

    // Who has no number hasn't asked. The call does nothing: what it ensures always holds.
    pub(crate) fn reads_unasked(&self, s: u8)
        requires one { IsOneOfEight s }
        requires reader { IsReading s self.now }
        ensures { (t : TxnHeld) → txn_of s self.now ≡ Some t → t.asked ≡ None }
    {
        let _ = &self.sessions;
    }

    /// The commit number that a transaction got in this run.
    pub fn number(&self, xid: Xid) -> Option<u64>
        ensures { result ≡ number_asked xid self.now.numbers.commits }
    {
        self.numbers.number(xid)
    }

    /// How many commits are answered.
    pub fn answered(&self) -> u64
        ensures { result ≡ self.now.answered }
    {
        self.answered
    }

    /// How many commits were asked for in this run.
    pub fn asked(&self) -> u64
        ensures { result ≡ length self.now.numbers.commits }
    {
        self.numbers.commits().len() as u64
    }

    // Those that are open, or asked and aren't answered.
    fn unanswered(&self, alloc: Global, meta: &Meta) -> Result<Vec<Xid>, OutOfMemory>
        ensures { IfOk result (λ xs. xs.items ≡ unanswered (xids_of meta.now.tables self.now.numbers.commits) self.now.answered) }
    {
        let mut xids = meta.open_xids(alloc)?;
        let (_, waiting) = self.numbers.commits().split_at(self.answered as usize);
        xids.extend_from_slice(waiting)?;
        Ok(xids)
    }

    /// A session begins a transaction over these tables, and answers the number of commits that it sees. Where memory is
    /// refused, nothing changes.
    pub(crate) fn begin_txn(
        &mut self,
        alloc: Global,
        meta: &Meta,
        s: u8,
    ) -> Result<u64, OutOfMemory>
        requires one { IsOneOfEight s }
        requires out { txn_of s self.old ≡ None }
        ensures number { IfOk result (λ n. n ≡ self.old.answered) }
        ensures sets { OnOk result (SetsTxn s (Some (txn_begun meta.now.tables self.old)) self.old self.new) }
        ensures numbers { self.new.numbers ≡ self.old.numbers }
        ensures err { OnErr result (self.new ≡ self.old) }
    {
        let listed = self.unanswered(alloc, meta)?;
        let snapshot = Snapshot::take(alloc, meta.next(), &listed)?;
        self.sessions[s as usize - 1] = Some(Txn {
            me: 0,
            snapshot,
            undoing: false,
            since: self.answered,
            asked: None,
            item: false,
        });
        Ok(self.answered)
    }

    /// Takes room for a number of this session's, and for the commits of all. Nothing else changes.
    pub(crate) fn make_room(&mut self) -> Result<(), OutOfMemory>
        ensures same { self.new ≡ record self.old { numbers = self.new.numbers } }
        ensures numbers { KeepsNumbers self.old.numbers self.new.numbers }
        ensures room { OnOk result (HasNumberRoom self.new) }
    {
        self.numbers.reserve(SESSIONS)
    }

    /// A session draws the next number. It takes no memory.
    pub(crate) fn draw(&mut self, s: u8) -> Xid
        requires one { IsOneOfEight s }
        requires reader { IsReading s self.old }
        requires room { HasNumberRoom self.old }
        requires small { self.old.numbers.next < 2 ^ 64 - 1 }
        ensures number { result ≡ self.old.numbers.next }
        ensures sets { (t : TxnHeld) → txn_of s self.old ≡ Some t → SetsTxn s (Some (txn_drawn self.old.numbers.next t)) self.old self.new }
        ensures numbers { DrawsOne self.old.numbers self.new.numbers }
    {
        let x = self.numbers.draw();
        if let Some(txn) = &mut self.sessions[s as usize - 1] {
            txn.me = x;
        }
        x
    }

    /// A session asks for its commit, by this statement, and gets the next commit number. It takes no memory.
    pub(crate) fn ask(&mut self, s: u8, statement: u64) -> u64
        requires one { IsOneOfEight s }
        requires writer { IsWriting s self.old }
        ensures number { result ≡ length self.old.numbers.commits + 1 }
        ensures sets { (t : TxnHeld) → txn_of s self.old ≡ Some t → SetsTxn s (Some (txn_asked (record { k = result; statement = statement }) t)) self.old self.new × AsksOne t.session.me self.old.numbers self.new.numbers }
    {
        let Some(txn) = &mut self.sessions[s as usize - 1] else {
            return 0;
        };
        let k = self.numbers.ask(txn.me);
        txn.asked = Some(Asked { k, statement });
        k
    }

    /// The commit that was asked for first of those that aren't answered is answered: its session's transaction ends. None where all
    /// are. That its record is durable is the caller's. It takes no memory.
    pub(crate) fn answer_next(&mut self) -> Option<(u8, Asked)>
        ensures none { result ≡ None → (self.old.answered ≡ length self.old.numbers.commits) × (self.new ≡ self.old) }
        ensures next { IfSome result (λ r. AnswersNext r.0 r.1 self.old self.new) }
    {
        if self.answered == self.numbers.commits().len() as u64 {
            return None;
        }
        let (at, asked) = waiting_for(&self.sessions, self.answered + 1)?;
        self.sessions[at] = None;
        self.answered += 1;
        Some((at as u8 + 1, asked))
    }

    /// A transaction ends: by a rollback, or where it wrote nothing. It takes no memory.
    pub(crate) fn end(&mut self, s: u8)
        requires one { IsOneOfEight s }
        requires unasked { (t : TxnHeld) → txn_of s self.old ≡ Some t → t.asked ≡ None }
        ensures sets { SetsTxn s None self.old self.new }
        ensures numbers { self.new.numbers ≡ self.old.numbers }
    {
        self.sessions[s as usize - 1] = None;
    }

    /// A rollback of several turns begins: from now on the session's snapshot isn't live. It takes no memory.
    pub(crate) fn set_undoing(&mut self, s: u8)
        requires one { IsOneOfEight s }
        ensures sets { (t : TxnHeld) → txn_of s self.old ≡ Some t → SetsTxn s (Some (txn_undoing t)) self.old self.new }
        ensures numbers { self.new.numbers ≡ self.old.numbers }
    {
        if let Some(txn) = &mut self.sessions[s as usize - 1] {
            txn.undoing = true;
        }
    }

    /// Room for an item of a session's in the secondary log is kept from now on, or isn't any more. It takes no memory.
    pub fn keep_item(&mut self, s: u8, item: bool)
        requires one { IsOneOfEight s }
        ensures sets { (t : TxnHeld) → txn_of s self.old ≡ Some t → SetsTxn s (Some (txn_room item t)) self.old self.new }
        ensures numbers { self.new.numbers ≡ self.old.numbers }
        // Where it isn't, the session may have added one for which it was.
        ensures spends { (t : TxnHeld) → txn_of s self.old ≡ Some t → t.item ≡ true → item ≡ false → SpendsOne self.old self.new }
        ensures stays { item ≡ false → StaysRoom self.old self.new }
        // Where it is, an item went, whose room it has.
        ensures gets_back { (t : TxnHeld) → txn_of s self.old ≡ Some t → t.item ≡ false → item ≡ true → GetsBack self.old self.new }
    {
        if let Some(txn) = &mut self.sessions[s as usize - 1] {
            txn.item = item;
        }
    }

    /// The same for the one item of the cleaner's.
    pub fn keep_cleaners(&mut self, item: bool)
        ensures sets { self.new ≡ record self.old { cleaner = item } }
        ensures spends { self.old.cleaner ≡ true → item ≡ false → SpendsOne self.old self.new }
        ensures gets_back { self.old.cleaner ≡ false → item ≡ true → GetsBack self.old self.new }
    {
        self.cleaner = item;
    }

    /// Whether room is kept for an item of the cleaner's.
    pub fn keeps_cleaners(&self) -> bool
        ensures { result ≡ self.now.cleaner }
    {
        self.cleaner
    }

    /// The low mark over these tables. It takes no memory.
    #[tactic(auto, using(ctr_snap::proofs::Least::least_append))]
    pub fn low_mark(&self, meta: &Meta) -> Xid
        ensures { result ≡ mark_in meta.now.tables self.now }
    {
        let (_, waiting) = self.numbers.commits().split_at(self.answered as usize);
        let mark = least_of(meta.least_open(meta.next()), waiting);
        least_named(mark, &self.sessions)
    }
}

// What a session has asked, where it waits for the answer of the commit of this number.
fn asked_in(txn: &Option<Txn>, k: u64) -> Option<Asked>
    ensures found { IfSome result (λ q. (q.k ≡ k) × ((t : TxnHeld) × (txn.now ≡ Some t) × (t.asked ≡ Some q))) }
    ensures none { result ≡ None → (t : TxnHeld) → txn.now ≡ Some t → number_of_txn t ≡ Some k → ⊥ }
{
    let Some(txn) = txn else {
        return None;
    };
    let Some(asked) = txn.asked else {
        return None;
    };
    if asked.k == k {
        return Some(asked);
    }
    None
}

// The place of the session that waits for the answer of the commit of this number, and what it asked.
fn waiting_for(sessions: &[Option<Txn>], k: u64) -> Option<(usize, Asked)>
    ensures found { IfSome result (λ r. (r.0 < length sessions.now) × (r.1.k ≡ k) × ((t : TxnHeld) × (get_or sessions.now r.0 None ≡ Some t) × (t.asked ≡ Some r.1))) }
    ensures none { result ≡ None → (i : ℕ) (t : TxnHeld) → get_or sessions.now i None ≡ Some t → number_of_txn t ≡ Some k → ⊥ }
{
    let (first, rest) = sessions.split_first()?;
    if let Some(asked) = asked_in(first, k) {
        return Some((0, asked));
    }
    let (at, asked) = waiting_for(rest, k)?;
    Some((at + 1, asked))
}

#[tactic(auto, using(ctr_snap::proofs::Least::least_append))]
fn least_named(mark: Xid, sessions: &[Option<Txn>]) -> Xid
    ensures { (n : ℕ) → result ≡ least mark (sessions_named (held_from n sessions.now)) }
{
    let Some((first, rest)) = sessions.split_first() else {
        return mark;
    };
    match first {
        None => least_named(mark, rest),
        Some(txn) => {
            if txn.undoing {
                return least_named(mark, rest);
            }
            least_named(txn.snapshot.lower(mark), rest)
        }
    }
}
