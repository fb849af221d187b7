//! An open file that keeps in mind whether what was written to it may not have reached the disk.
ghost use Rattle.std.specs.Prelude.{◌≡◌, true, false, OnOk, OnErr};
ghost use Rattle.ctr_file.specs.Folder.{is_marked, file_within};

use ctr_disk::Failed;
use std::fs::File;

/// What can be synced.
pub trait Syncs {
    /// What was written has reached the disk, where it answers Ok.
    fn sync(&mut self) -> Result<(), Failed>;
}

impl Syncs for File {
    fn sync(&mut self) -> Result<(), Failed> {
        self.sync_all().map_err(|_| Failed)
    }
}

/// A file with its mark, which is taken away in `sync` alone: the next sync has to reach the file.
#[derive(Drop)]
pub struct Marked<F> {
    file: F,
    is_unsynced: bool,
}

impl<F> Marked<F> {
    /// A file that was opened. It is marked: what an earlier program wrote may not have reached the disk.
    pub fn new(file: F) -> Self
        ensures { is_marked result ≡ true }
    {
        Marked {
            file,
            is_unsynced: true,
        }
    }

    /// The file. Who writes to it marks it first.
    pub fn file(&self) -> &F
        ensures { result.now ≡ file_within self.now }
    {
        &self.file
    }

    /// The next sync has to reach the file.
    pub fn mark(&mut self)
        ensures { is_marked self.new ≡ true }
    {
        self.is_unsynced = true;
    }
}

impl<F: Syncs> Marked<F> {
    /// Syncs the file, if it is marked. One that couldn't be synced stays marked.
    pub fn sync(&mut self) -> Result<(), Failed>
        ensures synced { OnOk result (is_marked self.new ≡ false) }
        ensures kept { OnErr result (is_marked self.new ≡ true) }
    {
        if !self.is_unsynced {
            return Ok(());
        }
        self.file.sync()?;
        self.is_unsynced = false;
        Ok(())
    }
}
