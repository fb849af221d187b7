// The numbers of transactions, and how a transaction stands.

/// The number of a transaction, drawn from 1 on in the order of first locks; 0 is none.
pub type Xid = u64;

/// How the transaction of a number stands.
#[derive(Clone, Copy, Debug, PartialEq, Eq)]
pub enum Fate {
    /// It hasn't asked for its commit, and isn't rolled back; or a crash left it so.
    Open,
    /// It was rolled back.
    Aborted,
    /// It has asked for its commit, in this run or before, whether it is answered or not.
    Committed,
    /// Its number isn't drawn yet.
    Later,
}
