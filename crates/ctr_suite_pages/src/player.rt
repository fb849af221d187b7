// What the steps of a case go by.
use crate::page::Page;
use crate::suite::Line;
use crate::told::Told;
use crate::turns::{Mem, snap};
use ctr_snap::Snapshot;
use std::alloc::Global;

/// Where a case stands, and what is printed.
#[derive(Drop)]
pub struct Player {
    pub alloc: Global,
    pub page: Page,
    /// The last transaction.
    pub x: u64,
    /// The snapshots that were taken, each with its number, the last of a number behind others.
    snapshots: Vec<(usize, Snapshot)>,
    /// How many lines of the case are done.
    done: usize,
}

impl Player {
    pub fn new(alloc: Global) -> Player {
        Player {
            alloc,
            page: Page::new(alloc),
            x: 0,
            snapshots: Vec::new(alloc),
            done: 0,
        }
    }

    /// Forgets the case before.
    pub fn begin_case(&mut self) {
        self.x = 0;
        self.snapshots.clear();
        self.done = 0;
    }

    /// The step of a line is done.
    pub fn end_step(&mut self, line: &Line, told: Option<Told>) {
        if let Some(told) = told {
            self.page.say(told);
        }
        self.page.end_step(line);
        self.done = self.done.saturating_add(1);
    }

    /// The case is done: what isn't reached has answered nothing.
    pub fn end_case(&mut self, name: &[u8], lines: &[Line]) {
        for line in lines.iter().skip(self.done) {
            self.page.end_step(line);
        }
        self.page.end_case(name);
    }

    /// The transaction, where a step is asked as that.
    pub fn as_own(&self, own: bool) -> Option<u64> {
        if own { Some(self.x) } else { None }
    }

    /// Takes a snapshot, under a number.
    pub fn take_snapshot(&mut self, store: &Mem, number: usize) -> Told {
        match snap(self.alloc, store) {
            Ok(snapshot) => match self.snapshots.push((number, snapshot)) {
                Ok(()) => Told::Done,
                Err(_) => Told::NoMemory,
            },
            Err(_) => Told::NoMemory,
        }
    }

    /// The last snapshot of a number.
    pub fn snapshot(&self, number: usize) -> Option<&Snapshot> {
        let mut last = None;
        for (taken, snapshot) in &self.snapshots {
            if *taken == number {
                last = Some(snapshot);
            }
        }
        last
    }
}
