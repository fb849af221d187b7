// The disk over a real folder.
use ctr_disk::{Disk, Failed};
use ctr_file::FileDisk;
use ctr_types::File;
use std::alloc::AllocError;
use std::fs;
use std::fs::Permissions;
use std::os::unix::fs::{PermissionsExt, symlink};
use std::test::Fail;

// How a call ended.
type Done = Result<(), Failed>;

// The length of a file, as a call answers it.
type Size = Result<u64, Failed>;

// A disk's moment, faults and strays.
type Counts = (u64, u64, u64);

fn counts_of<D: Disk>(disk: &D) -> Counts {
    (disk.moment(), disk.faults(), disk.strays())
}

// How a write and a sync ended, and the moment behind them.
fn write_two<D: Disk>(disk: &mut D) -> (Done, Done, u64) {
    let wrote = disk.write(File::LogA, 2, b"ab");
    let synced = disk.sync();
    (wrote, synced, disk.moment())
}

// The lengths of both logs, how a read of LogA ended, what it gave, and the moment behind it.
fn read_six<D: Disk>(disk: &mut D) -> ([Size; 2], Done, [u8; 6], u64) {
    let sizes = [disk.size(File::LogA), disk.size(File::LogB)];
    let mut got = [9u8; 6];
    let read = disk.read(File::LogA, 0, &mut got);
    (sizes, read, got, disk.moment())
}

const FOLDER: &str = "a_folder";

fn written(rt: HostRuntime) -> Result<(Done, Done, u64), AllocError> {
    let path = String::from_str(rt.alloc(), FOLDER)?;
    let mut disk = FileDisk::new(rt, rt.alloc(), path);
    Ok(write_two(&mut disk))
}

fn read_again(rt: HostRuntime) -> Result<([Size; 2], Done, [u8; 6], u64), AllocError> {
    let path = String::from_str(rt.alloc(), FOLDER)?;
    let mut disk = FileDisk::new(rt, rt.alloc(), path);
    Ok(read_six(&mut disk))
}

// What the first of two disks wrote is read by the second.
#[test]
fn files_keep_what_is_written(rt: HostRuntime) -> Result<(), Fail> {
    assert!(rt; written(rt)? == (Ok(()), Ok(()), 2));
    let sizes = [Ok(4), Ok(0)];
    assert!(rt; read_again(rt)? == (sizes, Ok(()), [0, 0, b'a', b'b', 0, 0], 0));
    fs::remove_dir_all(&rt, FOLDER)?;
    Ok(())
}

const LONG_LOG: &str = "a_long_log";

// How long a log is that is read in parts: more than twice as long as what is read ahead of it.
const LONG: usize = 40_000;

// Reads so many bytes of a log in parts of 7, from front to back: the first place at which it isn't the place's last digits.
fn first_other<D: Disk>(disk: &mut D, len: usize) -> Result<Option<usize>, Failed> {
    for part in 0..len / 7 {
        let mut got = [9; 7];
        disk.read(File::LogA, part as u64 * 7, &mut got)?;
        for (i, byte) in got.iter().enumerate() {
            if *byte as usize != (part * 7 + i) % 251 {
                return Ok(Some(part * 7 + i));
            }
        }
    }
    Ok(None)
}

// Five bytes of a file.
fn read_five<D: Disk>(disk: &mut D, file: File, at: u64) -> Result<[u8; 5], Failed> {
    let mut got = [9; 5];
    disk.read(file, at, &mut got)?;
    Ok(got)
}

// Where a long log that is read in parts has another byte; what is read of it near its end, over which is written then, and past it; and
// what is read of the other log where the first was read last.
type Parts = (Option<usize>, [[u8; 5]; 4]);

fn read_parts<D: Disk>(disk: &mut D, bytes: &[u8]) -> Result<Parts, Failed> {
    disk.write(File::LogA, 0, bytes)?;
    disk.write(File::LogB, 0, b"other")?;
    let wrong = first_other(disk, bytes.len())?;
    let before = read_five(disk, File::LogA, 39_900)?;
    disk.write(File::LogA, 39_900, b"again")?;
    let behind = read_five(disk, File::LogA, 39_900)?;
    let past = read_five(disk, File::LogA, 39_998)?;
    let _ = read_five(disk, File::LogA, 0)?;
    let other = read_five(disk, File::LogB, 0)?;
    Ok((wrong, [before, behind, past, other]))
}

fn in_parts(rt: HostRuntime) -> Result<Result<Parts, Failed>, AllocError> {
    let mut bytes = [0; LONG];
    for (i, byte) in bytes.iter_mut().enumerate() {
        *byte = (i % 251) as u8;
    }
    let path = String::from_str(rt.alloc(), LONG_LOG)?;
    let mut disk = FileDisk::new(rt, rt.alloc(), path);
    Ok(read_parts(&mut disk, &bytes))
}

// A log that is read in parts has in each what was written there last, by whichever call; and so has the other log.
#[test]
fn parts_of_a_log_are_what_was_written(rt: HostRuntime) -> Result<(), Fail> {
    let before = [242, 243, 244, 245, 246];
    let past = [89, 90, 0, 0, 0];
    assert!(rt; in_parts(rt)? == Ok((None, [before, *b"again", past, *b"other"])));
    fs::remove_dir_all(&rt, LONG_LOG)?;
    Ok(())
}

const LOCKED: &str = "a_locked_folder";

// What a disk answers that is in use; what another one does, and whether it made a file; and what a third one
// does when the first is gone.
type InTurn = (Size, (Size, [Done; 3], bool), Done);

fn lock_in_turn<D: Disk + Drop>(rt: HostRuntime, disk: D, other: &mut D, next: &mut D) -> InTurn {
    let mut disk = disk;
    let first = disk.size(File::Root);
    let size = other.size(File::Root);
    let refused = [
        other.read(File::LogA, 0, &mut [0; 1]),
        other.write(File::LogA, 0, b"a"),
        other.sync(),
    ];
    let has_made = fs::exists(&rt, "a_locked_folder/loga").unwrap_or(true);
    drop(disk);
    let wrote = next.write(File::LogA, 0, b"a");
    (first, (size, refused, has_made), wrote)
}

fn take_turns(rt: HostRuntime) -> Result<InTurn, AllocError> {
    let alloc = rt.alloc();
    let first = String::from_str(alloc, LOCKED)?;
    let second = String::from_str(alloc, LOCKED)?;
    let third = String::from_str(alloc, LOCKED)?;
    let mut other = FileDisk::new(rt, alloc, second);
    let mut next = FileDisk::new(rt, alloc, third);
    let disk = FileDisk::new(rt, alloc, first);
    Ok(lock_in_turn(rt, disk, &mut other, &mut next))
}

// While a disk of a folder is in use no other is: its calls fail, and it makes no file. Afterwards it is
// free again.
#[test]
fn a_folder_is_locked_while_it_is_in_use(rt: HostRuntime) -> Result<(), Fail> {
    let failed = Err(Failed);
    let other = (Err(Failed), [failed, failed, failed], false);
    assert!(rt; take_turns(rt)? == (Ok(0), other, Ok(())));
    fs::remove_dir_all(&rt, LOCKED)?;
    Ok(())
}

// How a write and a read past the last place end, each with the counts behind it.
fn stray<D: Disk>(disk: &mut D) -> [(Done, Counts); 2] {
    let wrote = disk.write(File::Pages, (1 << 63) - 1, b"a");
    let first = counts_of(disk);
    let read = disk.read(File::Pages, 1 << 63, &mut []);
    [(wrote, first), (read, counts_of(disk))]
}

fn strayed(rt: HostRuntime) -> Result<[(Done, Counts); 2], AllocError> {
    let path = String::from_str(rt.alloc(), "no_folder")?;
    let mut disk = FileDisk::new(rt, rt.alloc(), path);
    Ok(stray(&mut disk))
}

#[test]
fn a_call_past_the_last_place_strays(rt: HostRuntime) -> Result<(), Fail> {
    assert!(rt; strayed(rt)? == [(Err(Failed), (1, 1, 1)), (Err(Failed), (1, 2, 2))]);
    assert!(rt; !fs::exists(&rt, "no_folder")?);
    Ok(())
}

fn size_and_sync<D: Disk>(disk: &mut D) -> (Size, Done, Counts) {
    let size = disk.size(File::Root);
    let synced = disk.sync();
    (size, synced, counts_of(disk))
}

fn without_a_name(rt: HostRuntime) -> (Size, Done, Counts) {
    let mut disk = FileDisk::new(rt, rt.alloc(), String::new(rt.alloc()));
    size_and_sync(&mut disk)
}

#[test]
fn a_folder_without_a_name_fails(rt: HostRuntime) -> Result<(), Fail> {
    assert!(rt; without_a_name(rt) == (Err(Failed), Err(Failed), (1, 2, 0)));
    Ok(())
}

// A device that can be opened, and that the system neither writes to nor syncs.
const FULL: &str = "/dev/full";

const NAMES: [(File, &str); 4] = [
    (File::Root, "a_device/root"),
    (File::LogA, "a_device/loga"),
    (File::LogB, "a_device/logb"),
    (File::Pages, "a_device/pages"),
];

// How a sync ended, how long a file is, how a write to it ended, and the counts behind them.
fn sync_and_write<D: Disk>(disk: &mut D, file: File) -> (Done, Size, Done, Counts) {
    let synced = disk.sync();
    let size = disk.size(file);
    let wrote = disk.write(file, 0, b"a");
    (synced, size, wrote, counts_of(disk))
}

fn on_a_device(rt: HostRuntime, file: File) -> Result<(Done, Size, Done, Counts), AllocError> {
    let path = String::from_str(rt.alloc(), "a_device")?;
    let mut disk = FileDisk::new(rt, rt.alloc(), path);
    Ok(sync_and_write(&mut disk, file))
}

// Each file's own sync is made, also where nothing was written: the system refuses that of a device.
#[test]
fn a_sync_reaches_each_file(rt: HostRuntime) -> Result<(), Fail> {
    for (file, name) in &NAMES {
        fs::create_dir(&rt, "a_device")?;
        symlink(&rt, FULL, *name)?;
        assert!(rt; on_a_device(rt, *file)? == (Err(Failed), Ok(0), Err(Failed), (2, 2, 0)));
        fs::remove_dir_all(&rt, "a_device")?;
    }
    Ok(())
}

// Whether each of these files is there, or is made, and is empty.
fn are_empty<D: Disk>(disk: &mut D, files: &[File]) -> bool {
    for file in files {
        if disk.size(*file) != Ok(0) {
            return false;
        }
    }
    true
}

const LOST: &str = "a_lost_folder";

// How a write ended, whether the other files are empty, how two syncs ended, and the counts behind them. At
// the first sync a file stands in the place of the folder, at the second an empty folder.
type Losing = (Done, bool, [Done; 2], Counts);

fn lose_folder<D: Disk>(rt: HostRuntime, disk: &mut D) -> Result<Losing, Fail> {
    let wrote = disk.write(File::Root, 0, b"a");
    let others = are_empty(disk, &[File::LogA, File::LogB, File::Pages]);
    fs::remove_dir_all(&rt, LOST)?;
    fs::write(&rt, LOST, b"")?;
    let first = disk.sync();
    fs::remove_file(&rt, LOST)?;
    fs::create_dir(&rt, LOST)?;
    let second = disk.sync();
    Ok((wrote, others, [first, second], counts_of(disk)))
}

fn lose(rt: HostRuntime) -> Result<Losing, Fail> {
    let path = String::from_str(rt.alloc(), LOST)?;
    let mut disk = FileDisk::new(rt, rt.alloc(), path);
    lose_folder(rt, &mut disk)
}

// The folder's own name is synced in the folder above, which isn't reached through a file. After a sync
// that failed none is answered, also where this one would go well.
#[test]
fn a_sync_that_failed_is_the_last(rt: HostRuntime) -> Result<(), Fail> {
    let syncs = [Err(Failed), Err(Failed)];
    assert!(rt; lose(rt)? == (Ok(()), true, syncs, (3, 2, 0)));
    fs::remove_dir_all(&rt, LOST)?;
    Ok(())
}

const SHUT: &str = "a_shut_folder";

const ALL: [File; 4] = [File::Root, File::LogA, File::LogB, File::Pages];

// Whether all files are empty, whether the folder can be read once it is shut, and how a sync then ended.
fn shut_folder<D: Disk>(rt: HostRuntime, disk: &mut D) -> Result<(bool, bool, Done), Fail> {
    let empty = are_empty(disk, &ALL);
    fs::set_permissions(&rt, SHUT, Permissions::from_mode(0o300))?;
    let reads_all = fs::File::open(&rt, SHUT).is_ok();
    Ok((empty, reads_all, disk.sync()))
}

fn shutting(rt: HostRuntime) -> Result<(bool, bool, Done), Fail> {
    let path = String::from_str(rt.alloc(), SHUT)?;
    let mut disk = FileDisk::new(rt, rt.alloc(), path);
    shut_folder(rt, &mut disk)
}

// The names of the files are synced in their folder, which has to be read for that. A user who may read
// every folder sees a sync that goes well.
#[test]
fn a_sync_reaches_the_names(rt: HostRuntime) -> Result<(), Fail> {
    let (empty, reads_all, synced) = shutting(rt)?;
    assert!(rt; empty);
    assert_eq!(rt; synced.is_ok(), reads_all);
    fs::set_permissions(&rt, SHUT, Permissions::from_mode(0o700))?;
    fs::remove_dir_all(&rt, SHUT)?;
    Ok(())
}
