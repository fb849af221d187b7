//! Four files in a folder, opened as they are needed, and locked while they are.
ghost use Rattle.std.specs.Prelude.{◌≡◌, true, false, IsSome, OnOk, OnErr};
ghost use Rattle.ctr_file.specs.Ahead.{has_none};
ghost use Rattle.ctr_file.specs.Folder.{is_unsynced, IsUnsynced, KeepsInMind, IsSynced, SyncsNames};

use crate::ahead::{AHEAD, Ahead};
use crate::marked::Marked;
use ctr_disk::Failed;
use ctr_types::File as Which;
use std::alloc::Global;
use std::fs::{self, File, OpenOptions};
use std::io::ErrorKind;
use std::os::fd::AsRawFd;
use std::os::unix::fs::FileExt;
use std::rt::Files;

/// The highest descriptor of a standard stream.
const LAST_STREAM: i32 = 2;

/// One file, once it is opened.
type Slot = Option<Marked<File>>;

/// The folder of a database.
pub struct Folder<R: Files<File = File>> {
    rt: R,
    alloc: Global,
    path: String,
    are_names_unsynced: bool,
    has_lost: bool,
    root: Slot,
    log_a: Slot,
    log_b: Slot,
    pages: Slot,
    // of one of the logs
    ahead: Ahead,
}

impl<R: Files<File = File> + Drop> Drop for Folder<R> {
    fn drop(self) {
        let Folder {
            rt: _,
            alloc: _,
            path: _,
            are_names_unsynced: _,
            has_lost: _,
            root: _,
            log_a: _,
            log_b: _,
            pages: _,
            ahead: _,
        } = self;
    }
}

fn name_of(file: Which) -> &'static str {
    match file {
        Which::Root => "root",
        Which::LogA => "loga",
        Which::LogB => "logb",
        Which::Pages => "pages",
    }
}

// Makes the folder, unless something stands at its name.
fn make_folder<R: Files<File = File>>(rt: &R, path: &str) -> Result<(), Failed> {
    if path.is_empty() {
        return Err(Failed);
    }
    match fs::create_dir(rt, path) {
        Ok(()) => Ok(()),
        Err(error) if error.kind() == ErrorKind::AlreadyExists => Ok(()),
        Err(_) => Err(Failed),
    }
}

// A file whose descriptor is no standard stream's. Where such a stream was closed, what is meant for it
// would land in the file.
fn off_the_streams(file: File) -> Result<File, Failed> {
    if file.as_raw_fd() > LAST_STREAM {
        return Ok(file);
    }
    file.try_clone().map_err(|_| Failed)
}

// Opens a file for reading and writing, and makes it if it is missing.
fn open_file<R: Files<File = File>>(
    rt: &R,
    alloc: Global,
    folder: &str,
    name: &str,
) -> Result<File, Failed> {
    let Ok(path) = format!(in alloc; "{folder}/{name}") else {
        return Err(Failed);
    };
    let opened = OpenOptions::new()
        .read(true)
        .write(true)
        .create(true)
        .open(rt, path.as_str());
    match opened {
        Ok(file) => off_the_streams(file),
        Err(_) => Err(Failed),
    }
}

// Locks an open file for this program, as long as it is open. Another one that has it locked is no cause
// to wait.
fn lock(file: &File) -> Result<(), Failed> {
    file.try_lock().map_err(|_| Failed)
}

// Syncs the names in a folder.
fn sync_names<R: Files<File = File>>(rt: &R, path: &str) -> Result<(), Failed> {
    match File::open(rt, path) {
        Ok(folder) => folder.sync_all().map_err(|_| Failed),
        Err(_) => Err(Failed),
    }
}

// Fills the buffer from a place of the file, with zeros past its end.
pub(crate) fn read_or_zeros(file: &File, at: u64, into: &mut [u8]) -> Result<(), Failed> {
    for byte in into.iter_mut() {
        *byte = 0;
    }
    match file.read_exact_at(into, at) {
        Ok(()) => Ok(()),
        // The bytes up to the end were read, and those behind it are still zeros.
        Err(error) if error.kind() == ErrorKind::UnexpectedEof => Ok(()),
        Err(_) => Err(Failed),
    }
}

// Fills the buffer from a place of an open file.
fn read_in(slot: &Slot, at: u64, into: &mut [u8]) -> Result<(), Failed> {
    let Some(opened) = slot else {
        return Err(Failed);
    };
    read_or_zeros(opened.file(), at, into)
}

// Fills the buffer from a place of an open log, which is read from front to back: from the bytes that were read ahead, or are now. Where
// so many can't be read, the buffer's own are.
fn read_log(
    slot: &Slot,
    ahead: &mut Ahead,
    file: Which,
    at: u64,
    into: &mut [u8],
) -> Result<(), Failed> {
    if ahead.copy(file, at, into) {
        return Ok(());
    }
    let Some(opened) = slot else {
        return Err(Failed);
    };
    if into.len() <= AHEAD && ahead.fill(opened.file(), file, at) && ahead.copy(file, at, into) {
        return Ok(());
    }
    read_or_zeros(opened.file(), at, into)
}

// Writes the bytes at a place of an open file, which is marked first.
fn write_in(slot: &mut Slot, at: u64, bytes: &[u8]) -> Result<(), Failed>
    ensures marked { is_unsynced slot.new ≡ true }
{
    let Some(opened) = slot else {
        return Err(Failed);
    };
    opened.mark();
    opened.file().write_all_at(bytes, at).map_err(|_| Failed)
}

// Syncs an open file, if it is marked.
fn sync_in(slot: &mut Slot) -> Result<(), Failed>
    ensures synced { OnOk result (is_unsynced slot.new ≡ false) }
{
    let Some(opened) = slot else {
        return Err(Failed);
    };
    opened.sync()
}

impl<R: Files<File = File> + Drop> Folder<R> {
    /// The folder at this path. It isn't touched yet.
    pub fn new(rt: R, alloc: Global, path: String) -> Self {
        Folder {
            rt,
            alloc,
            path,
            are_names_unsynced: true,
            has_lost: false,
            root: None,
            log_a: None,
            log_b: None,
            pages: None,
            ahead: Ahead::new(alloc),
        }
    }

    fn slot(&self, file: Which) -> &Slot {
        match file {
            Which::Root => &self.root,
            Which::LogA => &self.log_a,
            Which::LogB => &self.log_b,
            Which::Pages => &self.pages,
        }
    }

    fn set_file(&mut self, file: Which, opened: File)
        ensures kept { KeepsInMind self.old self.new }
        ensures locked { IsSome self.old.root → IsSome self.new.root }
        ensures ahead { self.new.ahead ≡ self.old.ahead }
    {
        let slot = Some(Marked::new(opened));
        match file {
            Which::Root => self.root = slot,
            Which::LogA => self.log_a = slot,
            Which::LogB => self.log_b = slot,
            Which::Pages => self.pages = slot,
        }
    }

    // Opens the root, unless it is open, and locks it for this program. No other file is opened before:
    // a second program on the folder neither reads nor changes anything.
    fn open_root(&mut self) -> Result<(), Failed>
        ensures kept { KeepsInMind self.old self.new }
        ensures open { OnOk result (IsSome self.new.root) }
        ensures ahead { self.new.ahead ≡ self.old.ahead }
    {
        if self.root.is_some() {
            return Ok(());
        }
        make_folder(&self.rt, self.path.as_str())?;
        let opened = open_file(
            &self.rt,
            self.alloc,
            self.path.as_str(),
            name_of(Which::Root),
        )?;
        lock(&opened)?;
        self.are_names_unsynced = true;
        self.root = Some(Marked::new(opened));
        Ok(())
    }

    // Opens the file, unless it is open, behind the root.
    fn open(&mut self, file: Which) -> Result<(), Failed>
        ensures kept { KeepsInMind self.old self.new }
        ensures locked { OnOk result (IsSome self.new.root) }
        ensures ahead { self.new.ahead ≡ self.old.ahead }
    {
        self.open_root()?;
        if self.slot(file).is_some() {
            return Ok(());
        }
        let opened = open_file(&self.rt, self.alloc, self.path.as_str(), name_of(file))?;
        self.are_names_unsynced = true;
        self.set_file(file, opened);
        Ok(())
    }

    /// The length of a file in bytes.
    pub fn size(&mut self, file: Which) -> Result<u64, Failed>
        ensures { KeepsInMind self.old self.new }
    {
        self.open(file)?;
        let Some(opened) = self.slot(file) else {
            return Err(Failed);
        };
        match opened.file().metadata() {
            Ok(told) => Ok(told.len()),
            Err(_) => Err(Failed),
        }
    }

    /// Fills the buffer from a place of a file, with zeros past its end.
    pub fn read(&mut self, file: Which, at: u64, into: &mut [u8]) -> Result<(), Failed>
        ensures { KeepsInMind self.old self.new }
    {
        self.open(file)?;
        match file {
            Which::Root => read_in(&self.root, at, into),
            Which::LogA => read_log(&self.log_a, &mut self.ahead, file, at, into),
            Which::LogB => read_log(&self.log_b, &mut self.ahead, file, at, into),
            Which::Pages => read_in(&self.pages, at, into),
        }
    }

    /// Writes the bytes at a place of a file.
    pub fn write(&mut self, file: Which, at: u64, bytes: &[u8]) -> Result<(), Failed>
        // The file is marked for the next sync.
        ensures marked { OnOk result (IsUnsynced file self.new) }
        ensures kept { KeepsInMind self.old self.new }
        // What was read ahead isn't what the file has from here on.
        ensures forgotten { has_none self.new.ahead ≡ true }
    {
        self.ahead.forget();
        self.open(file)?;
        match file {
            Which::Root => write_in(&mut self.root, at, bytes),
            Which::LogA => write_in(&mut self.log_a, at, bytes),
            Which::LogB => write_in(&mut self.log_b, at, bytes),
            Which::Pages => write_in(&mut self.pages, at, bytes),
        }
    }

    // Syncs the names of the files, and the folder's own in the folder above it.
    fn sync_folder(&mut self) -> Result<(), Failed>
        ensures synced { OnOk result (SyncsNames self.old self.new) }
    {
        if !self.are_names_unsynced {
            return Ok(());
        }
        let path = self.path.as_str();
        let Ok(above) = format!(in self.alloc; "{path}/..") else {
            return Err(Failed);
        };
        sync_names(&self.rt, path)?;
        sync_names(&self.rt, above.as_str())?;
        self.are_names_unsynced = false;
        Ok(())
    }

    fn sync_all(&mut self) -> Result<(), Failed>
        ensures synced { OnOk result (IsSynced self.new) }
    {
        self.open(Which::Root)?;
        self.open(Which::LogA)?;
        self.open(Which::LogB)?;
        self.open(Which::Pages)?;
        sync_in(&mut self.root)?;
        sync_in(&mut self.log_a)?;
        sync_in(&mut self.log_b)?;
        sync_in(&mut self.pages)?;
        self.sync_folder()
    }

    /// Syncs what was written since the last sync, the first time every file, and the names of files
    /// that were made. After a sync that failed each later one fails: the system may have dropped what
    /// it couldn't write, and would not say so again.
    pub fn sync(&mut self) -> Result<(), Failed>
        // No file is left marked, nor are names of files.
        ensures synced { OnOk result (IsSynced self.new) }
        ensures lost { self.old.has_lost ≡ true → OnOk result ⊥ }
        ensures loses { OnErr result (self.new.has_lost ≡ true) }
    {
        if self.has_lost {
            return Err(Failed);
        }
        let done = self.sync_all();
        self.has_lost = done.is_err();
        done
    }
}
