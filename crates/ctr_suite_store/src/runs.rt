// The runs of a case's steps, and what is looked at of them.
use crate::plain::Plain;
use crate::run::{Progress, play};
use crate::steps::Step;
use crate::stops::{Bounds, Seen, look, look_again};
use ctr_mem_disk::{Image, MemDisk};
use ctr_types::List;
use std::alloc::{AllocError, Global};

/// The files that the steps of a case are taken on, and how many pages are counted there.
#[derive(Drop)]
pub struct Start {
    pub files: Image,
    pub pages: u32,
}

/// How far a run has come: how many calls its disk has had, how many records were logged, how many of them are surely durable, how
/// many pages are counted, and whether a call was answered an error.
#[derive(Clone, Copy)]
pub struct Reached {
    pub calls: usize,
    pub records: usize,
    pub durable: usize,
    pub pages: u32,
    pub failed: bool,
}

fn reached_by(disk: &MemDisk, progress: &Progress) -> Reached {
    Reached {
        calls: disk.calls().len(),
        records: progress.plain.count(),
        durable: progress.durable,
        pages: progress.pages,
        failed: progress.failed,
    }
}

/// What is looked at of a run.
#[derive(Clone, Copy)]
enum Look {
    Nothing,
    /// The stops since an earlier run, which took one step less.
    Since(Reached),
    /// The stop at its end, and the files as they read then.
    End,
}

/// The runs of steps on the same files, and what was seen of the images that their stops leave.
#[derive(Drop)]
pub struct Runs<'a> {
    pub alloc: Global,
    pub start: &'a Start,
    pub steps: &'a [Step],
    /// How many images of each stop are looked at.
    pub each: u64,
    pub seen: Seen,
}

impl<'a> Runs<'a> {
    // Looks at the images of the stops of a run from one call to another.
    fn look(
        &mut self,
        disk: &MemDisk,
        plain: &Plain,
        bounds: Bounds,
        calls: (usize, usize),
    ) -> Result<(), AllocError> {
        look(
            self.alloc,
            disk,
            plain,
            bounds,
            calls,
            self.each,
            &mut self.seen,
        )
    }

    // Looks at the stops of a run since the end of an earlier one.
    fn look_since(
        &mut self,
        disk: &MemDisk,
        plain: &Plain,
        before: Reached,
        now: Reached,
    ) -> Result<(), AllocError> {
        let during = Bounds {
            durable: before.durable,
            pages: (before.pages, now.pages),
        };
        self.look(disk, plain, during, (before.calls, now.calls))?;
        let behind = Bounds {
            durable: now.durable,
            pages: (now.pages, now.pages),
        };
        self.look(disk, plain, behind, (now.calls, now.calls.wrapping_add(1)))
    }

    // Looks at the end of a run, where it may have been counting pages.
    fn look_at_end(
        &mut self,
        disk: &MemDisk,
        plain: &Plain,
        now: Reached,
    ) -> Result<(), AllocError> {
        let bounds = Bounds {
            durable: now.durable,
            pages: (now.pages, now.pages.wrapping_add(64)),
        };
        self.look(disk, plain, bounds, (now.calls, now.calls.wrapping_add(1)))?;
        look_again(self.alloc, disk, plain, bounds, &mut self.seen)
    }

    // Looks at a run.
    fn look_at(
        &mut self,
        disk: &MemDisk,
        progress: &Progress,
        what: Look,
    ) -> Result<Reached, AllocError> {
        let now = reached_by(disk, progress);
        match what {
            Look::Nothing => {}
            Look::Since(before) => self.look_since(disk, &progress.plain, before, now)?,
            Look::End => self.look_at_end(disk, &progress.plain, now)?,
        }
        Ok(now)
    }

    // Takes the first steps, where the calls of these numbers fail, and looks at that.
    fn run_into(
        &mut self,
        count: usize,
        fails: List<u64>,
        what: Look,
        progress: &mut Progress,
    ) -> Result<Reached, AllocError> {
        let steps = &self.steps[..count.min(self.steps.len())];
        let disk = play(self.alloc, &self.start.files, steps, fails, progress)?;
        let reached = self.look_at(&disk.disk, progress, what);
        drop(disk);
        reached
    }

    fn run(&mut self, count: usize, fails: List<u64>, what: Look) -> Result<Reached, AllocError> {
        let mut progress = Progress::new(self.alloc, self.start.pages)?;
        let reached = self.run_into(count, fails, what, &mut progress);
        drop(progress);
        reached
    }

    /// Looks at the stops of all steps, one after another; how many records there were.
    pub fn look_at_steps(&mut self) -> Result<usize, AllocError> {
        let mut before = self.run(0, List::new(self.alloc), Look::Nothing)?;
        for count in 1..self.steps.len().saturating_add(1) {
            before = self.run(count, List::new(self.alloc), Look::Since(before))?;
        }
        Ok(before.records)
    }

    // Looks at what a run leaves of which one call fails; whether the failure was answered.
    fn look_at_failing(&mut self, call: u64) -> Result<bool, AllocError> {
        let mut fails = Vec::new(self.alloc);
        fails.push(call)?;
        let reached = self.run(self.steps.len(), List::from_vec(fails), Look::End)?;
        Ok(reached.failed)
    }

    /// How many of the calls of a run were answered well though they failed, where each fails once.
    pub fn look_at_failures(&mut self) -> Result<u64, AllocError> {
        let whole = self.run(self.steps.len(), List::new(self.alloc), Look::Nothing)?;
        let mut hidden: u64 = 0;
        for call in 1..(whole.calls as u64).saturating_add(1) {
            if !self.look_at_failing(call)? {
                hidden = hidden.wrapping_add(1);
            }
        }
        Ok(hidden)
    }
}
