//! Texts on their way to a sink.
ghost use Rattle.std.specs.Prelude.{◌≡◌, ◌≤◌, ◌+◌, ℕ, List, [], IsTrue, length};
ghost use Rattle.arrayvec.specs.ArrayVec.{array_vec_len};
ghost use Rattle.ctr_io.specs.types_Faults.{HasCause};
ghost use Rattle.ctr_print.specs.Prints.{Printed, HasPrinted, PrintsMore, Sends, PutsOn};

use arrayvec::ArrayVec;
use ctr_io::{Failed, Sink};

/// So many bytes are gathered.
const PIECE: usize = 8192;

/// Prints on a sink, which gets pieces of 8 KiB or more, and a last one. After a put that failed nothing
/// more is put. It takes no memory.
pub struct Printer<'a, K: Sink> {
    sink: &'a mut K,
    /// What was printed, and isn't put yet.
    waiting: ArrayVec<u8, PIECE>,
    /// No put has failed.
    fine: bool,
}

// Puts all of the bytes. Where a put fails, a prefix of them was put.
fn put_all<K: Sink>(sink: &mut K, bytes: &[u8]) -> Result<(), Failed>
    ensures told { IsTrue K.tells → Printed (K.taken sink.old) bytes.now (K.taken sink.new) result }
    ensures cause { HasCause (K.faults_of sink.old) (K.faults_of sink.new) result }
{
    let mut rest = bytes;
    while rest.len() > 0 {
        let count = sink.put(rest)?;
        rest = &rest[count..];
    }
    Ok(())
}

// Puts the bytes, unless a put before has failed, and says whether all is well.
fn send<K: Sink>(sink: &mut K, fine: bool, bytes: &[u8]) -> bool
    ensures { Sends K.Sink sink.old fine bytes.now sink.new result }
{
    fine && put_all(sink, bytes).is_ok()
}

impl<'a, K: Sink> Printer<'a, K> {
    /// A printer on this sink, which has printed nothing.
    pub fn new(sink: &'a mut K) -> Printer<'a, K>
        ensures same_reference { result.sink.ghost_name ≡ sink.entry.ghost_name }
        ensures begun { HasPrinted K.Sink sink.old [] result }
    {
        Printer {
            sink,
            waiting: ArrayVec::new(),
            fine: true,
        }
    }

    // Keeps the bytes behind what waits.
    fn gather(&mut self, bytes: &[u8])
        requires room { array_vec_len self.old.waiting + length bytes.now ≤ 8192 }
        ensures adds { PrintsMore K.Sink bytes.now self.old self.new }
    {
        let Ok(()) = self.waiting.try_extend_from_slice(bytes) else {
            unreachable!()
        };
    }

    // Puts what waits.
    fn flush(&mut self)
        ensures adds { PrintsMore K.Sink [] self.old self.new }
        ensures none { self.new.waiting.items ≡ [] }
    {
        self.fine = send(self.sink, self.fine, self.waiting.as_slice());
        self.waiting.clear();
    }

    // Puts the bytes, before which nothing waits.
    fn pass(&mut self, bytes: &[u8])
        requires none { self.old.waiting.items ≡ [] }
        ensures adds { PrintsMore K.Sink bytes.now self.old self.new }
    {
        self.fine = send(self.sink, self.fine, bytes);
    }

    /// Prints the bytes.
    pub fn put(&mut self, bytes: &[u8])
        ensures { PrintsMore K.Sink bytes.now self.old self.new }
    {
        let room = PIECE - self.waiting.len();
        if bytes.len() < room {
            return self.gather(bytes);
        }
        let (front, rest) = bytes.split_at(room);
        self.gather(front);
        self.flush();
        if rest.len() < PIECE {
            self.gather(rest);
        } else {
            self.pass(rest);
        }
    }

    /// Puts what waits, and says whether all that was printed was put.
    pub fn finish(self) -> bool
        ensures { (start : K) (text : List ℕ) → HasPrinted K.Sink start text self.entry → PutsOn K.Sink start text self.exit.0.now result }
    {
        let Printer {
            sink,
            waiting,
            fine,
        } = self;
        send(sink, fine, waiting.as_slice())
    }
}
