// Where bytes come from and go to.
ghost use Rattle.std.specs.Prelude.{◌≡◌, ◌≤◌, ◌<◌, ◌↔◌, Bool, IsTrue, List, ℕ, [], length, IfOk, OnErr};
ghost use Rattle.ctr_types.specs.Faults.{HasCause};
ghost use Rattle.ctr_io.specs.Outside.{TakesNext, PutsNext};

/// A call of a source or a sink has failed. Its count of faults has risen, or stands at the last value of
/// its type.
#[derive(Clone, Copy, Debug, PartialEq, Eq)]
pub struct Failed;

/// Bytes that come in order and end.
pub trait Source {
    /// Whether the source tells what it has left.
    ghost tells: { Bool };

    /// The bytes that are left.
    ghost left: { Self → List ℕ };

    ghost faults_of: { Self → ℕ };

    /// Takes some of the bytes that are left, in order, into the front of `into`; none exactly at
    /// the end. A call that failed took none.
    fn take(&mut self, into: &mut [u8]) -> Result<usize, Failed>
        requires { 0 < length into.old }
        ensures bound { IfOk result (λ n. n ≤ length into.old) }
        ensures told { IsTrue tells → IfOk result (λ n. TakesNext n into.new (left self.old) (left self.new)) }
        ensures end { IsTrue tells → IfOk result (λ n. (n ≡ 0) ↔ (left self.old ≡ [])) }
        ensures err { IsTrue tells → OnErr result (left self.new ≡ left self.old) }
        ensures cause { HasCause (faults_of self.old) (faults_of self.new) result };

    /// How many calls have failed. It never falls, and stands still at the last value of its type.
    fn faults(&self) -> u64
        ensures { result ≡ faults_of self.now };
}

/// Where bytes go, in order.
pub trait Sink {
    /// Whether the sink tells what it has taken.
    ghost tells: { Bool };

    /// The bytes that were put.
    ghost taken: { Self → List ℕ };

    ghost faults_of: { Self → ℕ };

    /// Puts a prefix of the bytes, from 1 byte to all of them where there are any, and says how many.
    /// A call that failed put none.
    fn put(&mut self, bytes: &[u8]) -> Result<usize, Failed>
        ensures bound { IfOk result (λ n. (n ≤ length bytes.now) × (0 < length bytes.now → 0 < n)) }
        ensures told { IsTrue tells → IfOk result (λ n. PutsNext n bytes.now (taken self.old) (taken self.new)) }
        ensures err { IsTrue tells → OnErr result (taken self.new ≡ taken self.old) }
        ensures cause { HasCause (faults_of self.old) (faults_of self.new) result };

    /// How many calls have failed. It never falls, and stands still at the last value of its type.
    fn faults(&self) -> u64
        ensures { result ≡ faults_of self.now };
}
