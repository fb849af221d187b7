// A disk as the engine sees it: what a read gives, and what a crash may leave.
ghost use Rattle.std.specs.Prelude.{◌≡◌, ◌≤◌, ◌<◌, ◌+◌, Bool, IsTrue, List, ℕ, length, IfOk, OnOk};
ghost use Rattle.ctr_disk.specs.Image.{Image, content, section, write_of, TornImage};
ghost use Rattle.ctr_types.specs.Faults.{HasCause};
ghost use Rattle.ctr_disk.specs.Crash.{Only, Within, Tears, Elapses, HasStray, Ticks};

use ctr_types::File;

/// A device has failed. Its count of faults has risen, or stands at the last value of its type.
#[derive(Clone, Copy, Debug, PartialEq, Eq)]
pub struct Failed;

/// Four files on one volume, with one clock.
///
/// A place plus a length is below 2^63, or the call fails. What a crash may leave is told by the
/// images: between two syncs each written range, and the part from a file's old end to its new one,
/// may hold any bytes, and the file may end anywhere in that part. After a sync that was answered
/// Ok a crash leaves what a read gives. A call that failed may have happened in any part.
pub trait Disk {
    /// Whether the disk tells what it holds. Real files don't.
    ghost tells: { Bool };

    /// What a read gives.
    ghost reads: { Self → Image };

    /// What a crash at this moment may leave.
    ghost images: { Self → Image → Type 0 };

    /// What a crash at some moment from that one on might have left, inside a call or between two.
    ghost since: { Self → ℕ → Image → Type 0 };

    ghost moment_of: { Self → ℕ };

    ghost faults_of: { Self → ℕ };

    ghost strays_of: { Self → ℕ };

    /// The disk's clock. It rises at each write and each sync, and at no other call.
    fn moment(&self) -> u64
        ensures { result ≡ moment_of self.now };

    /// How many calls have failed. It never falls, and stands still at the last value of its type.
    fn faults(&self) -> u64
        ensures { result ≡ faults_of self.now };

    /// How many calls went past the last place. It never falls, and stands still at the last value.
    fn strays(&self) -> u64
        ensures { result ≡ strays_of self.now };

    /// The length of a file in bytes.
    fn size(&mut self, file: File) -> Result<u64, Failed>
        ensures told { IsTrue tells → IfOk result (λ n. n ≡ length (content file (reads self.old))) }
        ensures same { (reads self.new ≡ reads self.old) × (moment_of self.new ≡ moment_of self.old) }
        ensures crash { Within (images self.new) (images self.old) }
        ensures time { Elapses (moment_of self.old) (moment_of self.new) (since self.old) (since self.new) (images self.new) }
        ensures cause { HasCause (faults_of self.old) (faults_of self.new) result }
        ensures stray { strays_of self.new ≡ strays_of self.old };

    /// Fills `into` from a place of a file, with zeros past its end.
    fn read(&mut self, file: File, at: u64, into: &mut [u8]) -> Result<(), Failed>
        ensures told { IsTrue tells → OnOk result (into.new ≡ section at (length into.old) (content file (reads self.old))) }
        ensures same { (reads self.new ≡ reads self.old) × (moment_of self.new ≡ moment_of self.old) }
        ensures crash { Within (images self.new) (images self.old) }
        ensures time { Elapses (moment_of self.old) (moment_of self.new) (since self.old) (since self.new) (images self.new) }
        ensures cause { HasCause (faults_of self.old) (faults_of self.new) result }
        ensures stray { HasStray (strays_of self.old) (strays_of self.new) (at + length into.old) result };

    /// Writes bytes at a place of a file, with zeros in a gap past its end.
    fn write(&mut self, file: File, at: u64, bytes: &[u8]) -> Result<(), Failed>
        ensures told { IsTrue tells → OnOk result (reads self.new ≡ write_of file at bytes.now (reads self.old)) }
        ensures torn { IsTrue tells → TornImage file at (length bytes.now) (reads self.old) (reads self.new) }
        ensures crash { Within (images self.new) (Tears file at (length bytes.now) (images self.old)) }
        ensures time { Elapses (moment_of self.old) (moment_of self.new) (since self.old) (since self.new) (images self.new) }
        ensures ticks { Ticks (moment_of self.old) (moment_of self.new) result }
        ensures cause { HasCause (faults_of self.old) (faults_of self.new) result }
        ensures stray { HasStray (strays_of self.old) (strays_of self.new) (at + length bytes.now) result };

    /// After it, a crash leaves what a read gives.
    fn sync(&mut self) -> Result<(), Failed>
        ensures same { reads self.new ≡ reads self.old }
        ensures durable { OnOk result (Only (reads self.old) (images self.new)) }
        ensures crash { Within (images self.new) (images self.old) }
        ensures time { Elapses (moment_of self.old) (moment_of self.new) (since self.old) (since self.new) (images self.new) }
        ensures ticks { Ticks (moment_of self.old) (moment_of self.new) result }
        ensures cause { HasCause (faults_of self.old) (faults_of self.new) result }
        ensures stray { strays_of self.new ≡ strays_of self.old };

    /// This moment is one of those since an earlier one.
    ghost counts_now: { (d : Self) (t : ℕ) (c : Image) → t ≤ moment_of d → images d c → since d t c };

    /// Since this moment there is no other.
    ghost only_now: { (d : Self) (c : Image) → since d (moment_of d) c → images d c };

    /// What might have been left since a moment might have been left since an earlier one.
    ghost earlier: { (d : Self) (s t : ℕ) (c : Image) → s ≤ t → since d t c → since d s c };

    /// What a read gives is one of what a crash may leave.
    ghost among: { (d : Self) → IsTrue tells → images d (reads d) };
}
