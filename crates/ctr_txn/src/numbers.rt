// The numbers of transactions of a run, and the commit numbers that they got.
ghost use Rattle.std.specs.Prelude.{◌≡◌, ◌<◌, ◌≤◌, ◌+◌, ◌^◌, ◌-◌, length, false, [], IfOk, OnOk, OnErr};
ghost use Rattle.ctr_snap.specs.Seeing.{has};
ghost use Rattle.ctr_txn.specs.Numbered.{kept_at, kept_number, number_asked};
ghost use Rattle.ctr_txn.specs.Steps.{KeepsNumbers, DrawsOne, AsksOne};

use ctr_types::{OutOfMemory, Xid};
use std::alloc::Global;
use std::marker::Model;

/// The numbers that were drawn since the store was opened, and those that asked for their commit. A look-up takes the same
/// time, whatever was drawn.
#[derive(Debug, Drop)]
pub struct Numbers {
    first: Xid,
    // the commit number of each that was drawn, by its number from the first one on
    numbers: Vec<Option<u64>>,
    commits: Vec<Xid>,
}

impl Model for Numbers {
    ghost use Rattle.ctr_txn.specs.Numbered.{NumbersHeld};

    ghost Value = { NumbersHeld };

    ghost use Rattle.ctr_txn.specs.NumbersInside.{numbers_here, AreAtTheirPlaces};

    ghost view = { numbers_here };

    ghost invariant = { AreAtTheirPlaces };
}

impl Numbers {
    /// None is drawn yet: the next one is this. It takes no memory.
    pub fn new(alloc: Global, first: Xid) -> Numbers
        ensures first { result.first ≡ first }
        ensures next { result.next ≡ first }
        ensures commits { result.commits ≡ [] }
    {
        Numbers {
            first,
            numbers: Vec::new(alloc),
            commits: Vec::new(alloc),
        }
    }

    /// The next number to be drawn.
    pub fn next(&self) -> Xid
        ensures { result ≡ self.now.next }
    {
        self.first + self.numbers.len() as u64
    }

    /// Those that asked for their commit, in the order in which they asked.
    pub fn commits(&self) -> &[Xid]
        ensures { result.now ≡ self.now.commits }
    {
        &self.commits
    }

    /// The commit number that a transaction got in this run.
    pub fn number(&self, xid: Xid) -> Option<u64>
        ensures { result ≡ number_asked xid self.now.commits }
    {
        if xid < self.first {
            return None;
        }
        kept_at(&self.numbers, xid - self.first)
    }

    /// Takes room for one number more, and for so many commits.
    pub fn reserve(&mut self, asks: usize) -> Result<(), OutOfMemory>
        ensures same { KeepsNumbers self.old self.new }
        ensures kept { (self.old.draws ≤ self.new.draws) × (self.old.asks ≤ self.new.asks) }
        ensures room { OnOk result ((1 ≤ self.new.draws) × (asks ≤ self.new.asks)) }
    {
        self.numbers.reserve(1)?;
        self.commits.reserve(asks)?;
        Ok(())
    }

    /// Draws the next number. It takes no memory.
    pub fn draw(&mut self) -> Xid
        requires room { 1 ≤ self.old.draws }
        requires small { self.old.next < 2 ^ 64 - 1 }
        ensures number { result ≡ self.old.next }
        ensures draws { DrawsOne self.old self.new }
        // It is one of this run, and hasn't asked.
        ensures fresh { (self.old.first ≤ result) × (has result self.old.commits ≡ false) }
        ensures kept { self.new.asks ≡ self.old.asks }
    {
        let x = self.next();
        self.numbers.push_reserved(None);
        x
    }

    /// A transaction asks for its commit, and gets the next commit number. It takes no memory.
    pub fn ask(&mut self, x: Xid) -> u64
        requires drawn { (self.old.first ≤ x) × (x < self.old.next) }
        requires unasked { has x self.old.commits ≡ false }
        requires room { 1 ≤ self.old.asks }
        ensures number { result ≡ length self.old.commits + 1 }
        ensures asks { AsksOne x self.old self.new }
        ensures kept { self.old.asks ≡ self.new.asks + 1 }
    {
        let k = self.commits.len() as u64 + 1;
        let at = (x - self.first) as usize;
        self.numbers[at] = Some(k);
        self.commits.push_reserved(x);
        k
    }
}

#[tactic(auto, using(crate::proofs::Numbering::kept_in, crate::proofs::Numbering::kept_out))]
fn kept_at(numbers: &[Option<u64>], at: u64) -> Option<u64>
    ensures { result ≡ kept_at numbers.now at }
{
    let at = at as usize;
    if at < numbers.len() {
        return numbers[at];
    }
    None
}
