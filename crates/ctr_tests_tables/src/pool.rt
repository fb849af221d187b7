// A pool of 8 frames over a backing in memory of 12 pages that fails at its call N, for each N.
ghost use Rattle.std.specs.Prelude.{◌≡◌, ◌<◌, vec_len, OnOk};
ghost use Rattle.ctr_pool.specs.Over.{IsOver};
ghost use Rattle.ctr_pool.specs.contracts.memory.MemoryBacking.TheImpl.{ghosts};

use ctr_disk::StoreFault;
use ctr_pool::{Backing, Lsn, Memory, Pool};
use ctr_rec::{Bytes, Overlay, PageNo};
use ctr_types::OutOfMemory;
use std::alloc::Global;
use std::test::Fail;

// Brings a page in, and sets its first byte to the LSN.
fn touch(pool: &mut Pool, memory: &mut Memory, page: PageNo, lsn: Lsn) -> Result<(), StoreFault>
    requires over { IsOver ghosts pool.old.frames memory.old }
    requires held { page < vec_len memory.old.sheets }
    ensures over { OnOk result (IsOver ghosts pool.new.frames memory.new) }
    ensures held { vec_len memory.new.sheets ≡ vec_len memory.old.sheets }
{
    pool.bring(page, memory)?;
    let bytes = [(lsn % 256) as u8; 1];
    let overlay = Overlay {
        page,
        clear: false,
        offset: 0,
        bytes: Bytes::new(&bytes),
    };
    pool.change(page, &overlay, lsn);
    Ok(())
}

// The first byte of a page as the pool has it.
fn first_byte(pool: &mut Pool, memory: &mut Memory, page: PageNo) -> Result<u8, StoreFault>
    requires over { IsOver ghosts pool.old.frames memory.old }
    ensures over { OnOk result (IsOver ghosts pool.new.frames memory.new) }
    ensures held { vec_len memory.new.sheets ≡ vec_len memory.old.sheets }
{
    pool.bring(page, memory)?;
    let bytes = pool.bytes(page);
    if bytes.is_empty() {
        return Ok(0);
    }
    Ok(bytes[0])
}

// What a run came to: how many of its steps were done, and how many bytes weren't as they should.
#[derive(Clone, Copy)]
struct Run {
    steps: u64,
    wrong: u64,
}

const PAGES: usize = 12;

const STEPS: u64 = 40;

// The page of a step: over 12 pages in turns of five, so that each comes back after 12 steps.
fn page_at(step: u64) -> PageNo
    ensures { result < 12 }
{
    (step % 12 * 5 % 12) as u32
}

// Forty changes of twelve pages in eight frames, each looked at behind it.
fn change_all(pool: &mut Pool, memory: &mut Memory) -> Run
    requires over { IsOver ghosts pool.old.frames memory.old }
    requires held { vec_len memory.old.sheets ≡ 12 }
    ensures over { result.steps ≡ 40 → IsOver ghosts pool.new.frames memory.new }
{
    let mut run = Run { steps: 0, wrong: 0 };
    for step in 0..STEPS {
        let page = page_at(step);
        let Ok(()) = touch(pool, memory, page, step + 1) else {
            return run;
        };
        let Ok(byte) = first_byte(pool, memory, page) else {
            return run;
        };
        if byte as u64 != step + 1 {
            run.wrong += 1;
        }
        run.steps = step + 1;
    }
    run
}

// Saves what is changed.
fn save_all(pool: &mut Pool, memory: &mut Memory) -> Result<(), StoreFault>
    requires { IsOver ghosts pool.old.frames memory.old }
{
    for _ in 0..PAGES {
        if !pool.write_one(memory)? {
            return Ok(());
        }
    }
    Ok(())
}

// How many pages are held whole: the first byte of each is its LSN's.
fn whole(memory: &Memory) -> u64 {
    let mut count: u64 = 0;
    for sheet in &memory.sheets {
        let bytes = sheet.body.as_slice();
        if bytes.len() > 0 && bytes[0] as u64 == sheet.lsn {
            count = count.saturating_add(1);
        }
    }
    count
}

// How many pages are held as their last changes made them, which were the steps 29 to 40.
fn newest(memory: &Memory) -> u64 {
    let mut count: u64 = 0;
    for sheet in &memory.sheets {
        if sheet.lsn > 28 {
            count = count.saturating_add(1);
        }
    }
    count
}

// What came of a run over a backing that fails at a call: the steps that were done, bytes that weren't as they
// should, pages that are held whole, pages that are held as they were last, faults; and how many calls there were.
#[derive(Clone, Copy)]
struct Came {
    counts: [u64; 5],
    calls: u64,
}

fn play_on(pool: &mut Pool, memory: &mut Memory) -> Came
    requires over { IsOver ghosts pool.old.frames memory.old }
    requires held { vec_len memory.old.sheets ≡ 12 }
{
    let run = change_all(pool, memory);
    if run.steps == STEPS {
        let _ = save_all(pool, memory);
    }
    let counts = [
        run.steps,
        run.wrong,
        whole(memory),
        newest(memory),
        memory.faults(),
    ];
    Came {
        counts,
        calls: memory.calls,
    }
}

fn play_over(alloc: Global, memory: &mut Memory) -> Result<Came, OutOfMemory>
    requires { vec_len memory.old.sheets ≡ 12 }
{
    let mut pool = Pool::new(alloc, 8)?;
    Ok(play_on(&mut pool, memory))
}

fn play(alloc: Global, fails_at: u64) -> Result<Came, OutOfMemory> {
    let mut memory = Memory::new(alloc, PAGES, fails_at)?;
    play_over(alloc, &mut memory)
}

#[test]
fn each_call_of_the_backing_fails_once(rt: HostRuntime) -> Result<(), Fail> {
    let alloc = rt.alloc();
    let good = play(alloc, 0)?;
    assert_eq!(rt; good.counts.as_slice(), [40, 0, 12, 12, 0].as_slice());
    // Each page is loaded and saved at least once.
    assert!(rt; good.calls >= 24);
    for n in 0..good.calls {
        let came = play(alloc, n + 1)?;
        assert_eq!(rt;
            (came.counts[1], came.counts[2], came.counts[4]),
            (0, 12, 1)
        );
    }
    Ok(())
}

// The oldest change that isn't saved, and how many frames have none.
type Ages = (Option<Lsn>, usize);

fn ages_of(pool: &Pool) -> Ages {
    (pool.oldest_dirty(), pool.unchanged())
}

// Before two changes, after them, and after one is saved.
fn ages_on(pool: &mut Pool, memory: &mut Memory) -> Result<[Ages; 3], StoreFault>
    requires over { IsOver ghosts pool.old.frames memory.old }
    requires held { vec_len memory.old.sheets ≡ 12 }
{
    let clean = ages_of(pool);
    touch(pool, memory, 7, 5)?;
    touch(pool, memory, 2, 6)?;
    let changed = ages_of(pool);
    pool.write_one(memory)?;
    Ok([clean, changed, ages_of(pool)])
}

fn ages_over(
    alloc: Global,
    memory: &mut Memory,
) -> Result<(Result<[Ages; 3], StoreFault>, u64), OutOfMemory>
    requires { vec_len memory.old.sheets ≡ 12 }
{
    let mut pool = Pool::new(alloc, 8)?;
    let ages = ages_on(&mut pool, memory);
    Ok((ages, newest(memory)))
}

fn tell_ages(alloc: Global) -> Result<(Result<[Ages; 3], StoreFault>, u64), OutOfMemory> {
    let mut memory = Memory::new(alloc, PAGES, 0)?;
    ages_over(alloc, &mut memory)
}

#[test]
fn the_oldest_change_is_told_and_saved_first(rt: HostRuntime) -> Result<(), Fail> {
    let (ages, newest) = tell_ages(rt.alloc())?;
    assert_eq!(rt; ages, Ok([(None, 8), (Some(5), 6), (Some(6), 7)]));
    assert_eq!(rt; newest, 0);
    Ok(())
}
