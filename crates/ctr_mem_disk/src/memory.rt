// A disk in memory.
ghost use Rattle.std.specs.Prelude.{◌≡◌, ◌≤◌};
ghost use Rattle.ctr_mem_disk.specs.Replay.{reads_after, latest};

use crate::counts::Counts;
use crate::record::{Replay, carry_out, keep};
use crate::tearing::is_past_last;
use crate::{Call, Image, Outcome, Recorded};
use ctr_disk::{Disk, Failed};
use ctr_types::{File, List};
use std::alloc::{AllocError, Global};

/// A disk in memory, which tells what it holds.
///
/// It keeps the image that it held at first, and all calls. A call fails where its number is in a
/// list, at the bounds on place and moment, and where memory is refused. A write that fails for its
/// number changes nothing that a read gives, but a crash may leave any part of it.
#[derive(Drop)]
pub struct MemDisk {
    alloc: Global,
    first: Image,
    present: Image,
    calls: Vec<Recorded>,
    fails: List<u64>,
    counts: Counts,
    ghost replayed: { present ≡ reads_after first calls.items },
    ghost timely: { latest calls.items ≤ counts.moment },
}

impl MemDisk {
    ghost use Rattle.std.specs.Prelude.{take, IfOk};
    ghost use Rattle.ctr_mem_disk.specs.Memory.{StartsWith, RecountedAs, image_read, first_image, recorded_calls, starved_calls};
    ghost use Rattle.ctr_mem_disk.specs.Replay.{possible_after};

    /// A disk that holds these files, at moment 0. The calls whose numbers are in the list fail;
    /// they are counted from 1, over size, read, write and sync.
    pub fn new(alloc: Global, image: Image, fails: List<u64>) -> Result<Self, AllocError>
        ensures { IfOk result (StartsWith image fails 0) }
    {
        MemDisk::at_moment(alloc, image, fails, 0)
    }

    /// The same, at another moment.
    pub fn at_moment(
        alloc: Global,
        image: Image,
        fails: List<u64>,
        moment: u64,
    ) -> Result<Self, AllocError>
        ensures { IfOk result (StartsWith image fails moment) }
    {
        let first = image.copy()?;
        Ok(MemDisk {
            alloc,
            first,
            present: image,
            calls: Vec::new(alloc),
            fails,
            counts: Counts {
                calls: 0,
                moment,
                faults: 0,
                strays: 0,
                starved: 0,
            },
        })
    }

    /// The same disk, which has counted so many faults and strays.
    pub fn counted(self, faults: u64, strays: u64) -> Self
        ensures { RecountedAs faults strays self result }
    {
        let mut disk = self;
        disk.counts.faults = faults;
        disk.counts.strays = strays;
        disk
    }

    /// What a read gives.
    pub fn image_now(&self) -> &Image
        ensures { result.now ≡ image_read self.now }
    {
        &self.present
    }

    /// What a read gives.
    pub fn into_image(self) -> Image
        ensures { result ≡ image_read self }
    {
        let MemDisk {
            alloc: _,
            first: _,
            present,
            calls: _,
            fails: _,
            counts: _,
        } = self;
        present
    }

    /// The calls, the oldest first. A call that was refused memory isn't among them.
    pub fn calls(&self) -> &[Recorded]
        ensures { result.now ≡ recorded_calls self.now }
    {
        &self.calls
    }

    /// How many calls failed since memory was refused. It stands still at the last value.
    pub fn starved(&self) -> u64
        ensures { result ≡ starved_calls self.now }
    {
        self.counts.starved
    }

    /// The image number k of those that a crash at this moment may leave.
    ///
    /// The octal digits of k, the least first, say what is left of each write since the last sync
    /// that was carried out, the oldest first. A write that was refused left nothing and takes no
    /// digit, and digits past the last write say nothing.
    /// - 0 nothing of it,
    /// - 1 all of it,
    /// - 2 the first half of its bytes, rounded down,
    /// - 3 the second half alone,
    /// - 4 other bytes in the whole range: 255 less what was to be written,
    /// - 5 bytes of 1 in what may change: the range, and before it the part from the old end on, of
    ///   which the last 4,096 bytes at most,
    /// - 6 all of it, but the file ends in the middle of its growth, rounded down,
    /// - 7 as 5, but the file ends as with 6.
    pub fn image(&self, k: u64) -> Result<Image, AllocError>
        ensures { IfOk result (possible_after (first_image self.now) (recorded_calls self.now)) }
    {
        self.image_after(self.calls.len(), k)
    }

    /// The image number k of those that a crash after the first `count` recorded calls might have
    /// left, by the digits of `image`. A larger `count` stands for all calls.
    pub fn image_after(&self, count: usize, k: u64) -> Result<Image, AllocError>
        ensures { IfOk result (possible_after (first_image self.now) (take count (recorded_calls self.now))) }
    {
        let mut replay = Replay {
            reads: self.first.copy()?,
            left: self.first.copy()?,
        };
        let mut digits = k;
        for recorded in &self.calls[..count.min(self.calls.len())] {
            replay.step(self.alloc, recorded, digits % 8)?;
            digits = recorded.digits_left(digits, k);
        }
        Ok(replay.left)
    }
}

impl Disk for MemDisk {
    ghost use Rattle.std.specs.Prelude.{◌≡◌, ◌+◌, true, length, IfOk, OnOk};
    ghost use Rattle.ctr_disk.specs.Image.{content, section, write_of, TornImage};
    ghost use Rattle.ctr_types.specs.Faults.{HasCause};
    ghost use Rattle.ctr_disk.specs.Crash.{Only, Within, Tears, Elapses, HasStray, Ticks};
    ghost use Rattle.ctr_mem_disk.specs.Memory.{DoesCall, image_read, images_of, since_of, moment_at, counted_faults, counted_strays};
    ghost use Rattle.ctr_mem_disk.specs.declared.record.Call.TheVariants.{Size, Read, Write, Sync};
    ghost use Rattle.ctr_mem_disk.specs.ReplayLaws.{counts_now_of, only_now_of, earlier_of, among_of};

    ghost tells = { true };

    ghost reads = { image_read };

    ghost images = { images_of };

    ghost since = { since_of };

    ghost moment_of = { moment_at };

    ghost faults_of = { counted_faults };

    ghost strays_of = { counted_strays };

    ghost counts_now = { λ d t c le is. counts_now_of d.first d.calls.items t c is };

    ghost only_now = { λ d c left. only_now_of d.first d.calls.items d.counts.moment c d.timely left };

    ghost earlier = { λ d s t c le left. earlier_of d.first d.calls.items s t c le left };

    ghost among = { λ d told. among_of d.first d.calls.items d.present d.replayed };

    fn moment(&self) -> u64 {
        self.counts.moment
    }

    fn faults(&self) -> u64 {
        self.counts.faults
    }

    fn strays(&self) -> u64 {
        self.counts.strays
    }

    fn size(&mut self, file: File) -> Result<u64, Failed>
        ensures makes { DoesCall (Size file) self.old self.new result }
        ensures told { IfOk result (λ n. n ≡ length (content file (image_read self.old))) }
        ensures same { (image_read self.new ≡ image_read self.old) × (moment_at self.new ≡ moment_at self.old) }
        ensures crash { Within (images_of self.new) (images_of self.old) }
        ensures time { Elapses (moment_at self.old) (moment_at self.new) (since_of self.old) (since_of self.new) (images_of self.new) }
        ensures cause { HasCause (counted_faults self.old) (counted_faults self.new) result }
        ensures stray { counted_strays self.new ≡ counted_strays self.old }
    {
        let outcome = self.counts.start(self.fails.as_slice(), false, false);
        let kept = keep(
            &mut self.calls,
            Call::Size { file },
            outcome,
            self.counts.moment,
        );
        let len = self.present.file(file).len();
        self.counts.finish(outcome, kept, len)
    }

    fn read(&mut self, file: File, at: u64, into: &mut [u8]) -> Result<(), Failed>
        ensures makes { DoesCall (Read file at (length into.old)) self.old self.new result }
        ensures told { OnOk result (into.new ≡ section at (length into.old) (content file (image_read self.old))) }
        ensures same { (image_read self.new ≡ image_read self.old) × (moment_at self.new ≡ moment_at self.old) }
        ensures crash { Within (images_of self.new) (images_of self.old) }
        ensures time { Elapses (moment_at self.old) (moment_at self.new) (since_of self.old) (since_of self.new) (images_of self.new) }
        ensures cause { HasCause (counted_faults self.old) (counted_faults self.new) result }
        ensures stray { HasStray (counted_strays self.old) (counted_strays self.new) (at + length into.old) result }
    {
        let strays = is_past_last(at, into.len());
        let len = into.len() as u64;
        let outcome = self.counts.start(self.fails.as_slice(), strays, false);
        let kept = keep(
            &mut self.calls,
            Call::Read { file, at, len },
            outcome,
            self.counts.moment,
        );
        match self.counts.finish(outcome, kept, ()) {
            Ok(()) => {}
            Err(failed) => return Err(failed),
        }
        self.present.file(file).read(at, into);
        Ok(())
    }

    fn write(&mut self, file: File, at: u64, bytes: &[u8]) -> Result<(), Failed>
        ensures makes { DoesCall (Write file at bytes.now) self.old self.new result }
        ensures told { OnOk result (image_read self.new ≡ write_of file at bytes.now (image_read self.old)) }
        ensures torn { TornImage file at (length bytes.now) (image_read self.old) (image_read self.new) }
        ensures crash { Within (images_of self.new) (Tears file at (length bytes.now) (images_of self.old)) }
        ensures time { Elapses (moment_at self.old) (moment_at self.new) (since_of self.old) (since_of self.new) (images_of self.new) }
        ensures ticks { Ticks (moment_at self.old) (moment_at self.new) result }
        ensures cause { HasCause (counted_faults self.old) (counted_faults self.new) result }
        ensures stray { HasStray (counted_strays self.old) (counted_strays self.new) (at + length bytes.now) result }
    {
        let strays = is_past_last(at, bytes.len());
        let outcome = self.counts.start(self.fails.as_slice(), strays, true);
        let kept = carry_out(
            self.alloc,
            &mut self.calls,
            &mut self.present,
            file,
            at,
            bytes,
            outcome,
            self.counts.moment,
        );
        self.counts.finish(outcome, kept, ())
    }

    fn sync(&mut self) -> Result<(), Failed>
        ensures makes { DoesCall Sync self.old self.new result }
        ensures same { image_read self.new ≡ image_read self.old }
        ensures durable { OnOk result (Only (image_read self.old) (images_of self.new)) }
        ensures crash { Within (images_of self.new) (images_of self.old) }
        ensures time { Elapses (moment_at self.old) (moment_at self.new) (since_of self.old) (since_of self.new) (images_of self.new) }
        ensures ticks { Ticks (moment_at self.old) (moment_at self.new) result }
        ensures cause { HasCause (counted_faults self.old) (counted_faults self.new) result }
        ensures stray { counted_strays self.new ≡ counted_strays self.old }
    {
        let outcome = self.counts.start(self.fails.as_slice(), false, true);
        let kept = keep(&mut self.calls, Call::Sync, outcome, self.counts.moment);
        self.counts.finish(outcome, kept, ())
    }
}
