// The effect of each record on the tables, and each need that one lacks, by hand.
use ctr_meta::{Meta, room_for};
use ctr_rec::{SlogItem, decode};
use ctr_types::{Fate, OutOfMemory, Xid};
use std::alloc::Global;
use std::test::Fail;

// A number in so many bytes, the lowest first.
fn put(bytes: &mut Vec<u8>, number: u8, width: usize) -> Result<(), OutOfMemory> {
    for i in 0..width {
        bytes.push(if i == 0 { number } else { 0 })?;
    }
    Ok(())
}

// The widths of a record's two fields, and its overlay's flag.
fn layout(tag: u8) -> (usize, usize, u8) {
    match tag {
        2..=5 => (8, 0, 0),
        6 | 8 => (8, 4, 1),
        7 => (8, 4, 2),
        9 | 10 => (4, 0, 1),
        11 | 13 => (8, 1, 1),
        12 | 14 => (1, 0, 1),
        15 => (8, 8, 1),
        16 | 17 => (8, 0, 1),
        _ => (0, 0, 1),
    }
}

// The bytes of a record; an overlay lays one byte at the front of page 0.
fn record(alloc: Global, tag: u8, first: u8, second: u8) -> Result<Vec<u8>, OutOfMemory> {
    let (width, width_2, flag) = layout(tag);
    let mut bytes = Vec::new(alloc);
    put(&mut bytes, tag, 1)?;
    put(&mut bytes, first, width)?;
    put(&mut bytes, second, width_2)?;
    put(&mut bytes, flag, 1)?;
    if flag > 0 {
        put(&mut bytes, 0, 6)?;
        put(&mut bytes, 1, 2)?;
        put(&mut bytes, 9, 1)?;
    }
    Ok(bytes)
}

fn show_pairs(alloc: Global, text: &mut String, pairs: &[(Xid, u64)]) -> Result<(), OutOfMemory> {
    text.push_str(" |")?;
    for pair in pairs {
        let one = format!(in alloc; " {}:{}", pair.0, pair.1)?;
        text.push_str(one.as_str())?;
    }
    Ok(())
}

fn show_item(alloc: Global, item: SlogItem) -> Result<String, OutOfMemory> {
    let one = match item {
        SlogItem::AllocOf(x, p) => format!(in alloc; " A{}.{}", x, p)?,
        SlogItem::FreeOf(p) => format!(in alloc; " F{}", p)?,
        SlogItem::CreateOf(x, e) => format!(in alloc; " C{}.{}", x, e)?,
        SlogItem::DropOf(x, e) => format!(in alloc; " D{}.{}", x, e)?,
    };
    Ok(one)
}

// The next transaction, the open ones, the aborted ones, the items.
fn show(alloc: Global, meta: &Meta) -> Result<String, OutOfMemory> {
    let mut text = format!(in alloc; "{}", meta.next())?;
    show_pairs(alloc, &mut text, &meta.opens(alloc)?)?;
    show_pairs(alloc, &mut text, &meta.aborted(alloc)?)?;
    text.push_str(" |")?;
    for item in meta.items() {
        let one = show_item(alloc, *item)?;
        text.push_str(one.as_str())?;
    }
    Ok(text)
}

// The tables after a record, or what it wants and what is there.
fn play(alloc: Global, meta: &mut Meta, bytes: &[u8]) -> Result<String, OutOfMemory> {
    let Ok(rec) = decode(bytes) else {
        return Ok(format!(in alloc; "no record")?);
    };
    let fits = meta.fits(&rec);
    if let Err(bad) = meta.check(&rec) {
        return Ok(format!(in alloc; "want {} got {} {}", bad.want, bad.got, fits)?);
    }
    let room = room_for(&rec);
    meta.reserve(room.opens, room.items)?;
    if meta.has_numbers(&rec) {
        meta.apply(&rec);
    }
    show(alloc, meta)
}

// Next 5; 2 is open with a head, 4 without; 3 was rolled back with two; 2 allocated page 7, 4 made entry 1.
const CHECKPOINT: [(u8, usize); 18] = [
    (1, 1),
    (5, 8),
    (2, 8),
    (2, 8),
    (1, 8),
    (4, 8),
    (0, 8),
    (1, 8),
    (3, 8),
    (2, 8),
    (2, 8),
    (1, 1),
    (2, 8),
    (7, 4),
    (3, 1),
    (4, 8),
    (1, 4),
    (0, 1),
];

fn begin(alloc: Global, meta: &mut Meta) -> Result<String, OutOfMemory> {
    let mut bytes = Vec::new(alloc);
    for (number, width) in CHECKPOINT {
        put(&mut bytes, number, width)?;
    }
    play(alloc, meta, &bytes)
}

// A record by its number and its two fields, and what comes of it.
#[derive(Clone, Copy)]
struct Line(u8, u8, u8, &'static str);

const LINES: [Line; 52] = [
    Line(2, 4, 0, "want 5 got 4 false"),
    Line(2, 5, 0, "6 | 2:1 4:0 5:0 | 3:2 | A2.7 C4.1"),
    Line(3, 3, 0, "want 1 got 0 false"),
    Line(3, 2, 0, "want 0 got 1 false"),
    Line(4, 4, 0, "want 0 got 1 false"),
    Line(4, 3, 0, "want 1 got 0 false"),
    Line(5, 3, 0, "want 1 got 0 false"),
    Line(5, 2, 0, "want 1 got 0 false"),
    Line(6, 3, 9, "want 1 got 0 false"),
    Line(6, 5, 9, "6 | 2:1 4:0 5:0 | 3:2 | A2.7 C4.1 A5.9"),
    Line(7, 5, 7, "want 1 got 0 false"),
    Line(7, 5, 9, "6 | 2:1 4:0 5:0 | 3:2 | A2.7 C4.1 A5.9"),
    Line(8, 2, 9, "want 1 got 0 false"),
    Line(8, 5, 9, "6 | 2:1 4:0 5:0 | 3:2 | A2.7 C4.1"),
    Line(9, 9, 0, "want 1 got 0 false"),
    Line(10, 9, 0, "6 | 2:1 4:0 5:0 | 3:2 | A2.7 C4.1 F9"),
    Line(6, 5, 9, "6 | 2:1 4:0 5:0 | 3:2 | A2.7 C4.1 F9 A5.9"),
    Line(9, 9, 0, "6 | 2:1 4:0 5:0 | 3:2 | A2.7 C4.1 A5.9"),
    Line(9, 9, 0, "6 | 2:1 4:0 5:0 | 3:2 | A2.7 C4.1"),
    Line(11, 3, 2, "want 1 got 0 false"),
    Line(11, 5, 2, "6 | 2:1 4:0 5:0 | 3:2 | A2.7 C4.1 C5.2"),
    Line(12, 3, 0, "want 1 got 0 false"),
    Line(12, 1, 0, "6 | 2:1 4:0 5:0 | 3:2 | A2.7 C5.2"),
    Line(13, 3, 6, "want 1 got 0 false"),
    Line(13, 5, 6, "6 | 2:1 4:0 5:0 | 3:2 | A2.7 C5.2 D5.6"),
    Line(14, 2, 0, "want 1 got 0 false"),
    Line(14, 6, 0, "6 | 2:1 4:0 5:0 | 3:2 | A2.7 C5.2"),
    Line(13, 5, 6, "6 | 2:1 4:0 5:0 | 3:2 | A2.7 C5.2 D5.6"),
    Line(15, 3, 0, "want 1 got 0 false"),
    Line(15, 5, 0, "6 | 2:1 4:0 5:1 | 3:2 | A2.7 C5.2 D5.6"),
    Line(15, 5, 5, "6 | 2:1 4:0 5:1 | 3:2 | A2.7 C5.2 D5.6"),
    Line(15, 5, 3, "6 | 2:1 4:0 5:2 | 3:1 | A2.7 C5.2 D5.6"),
    Line(15, 5, 2, "6 | 2:0 4:0 5:3 | 3:1 | A2.7 C5.2 D5.6"),
    Line(15, 5, 2, "want 1 got 0 false"),
    Line(15, 5, 9, "want 1 got 0 false"),
    Line(16, 3, 0, "want 1 got 0 false"),
    Line(16, 5, 0, "6 | 2:0 4:0 5:3 | 3:1 | A2.7 C5.2 D5.6"),
    Line(17, 2, 0, "want 1 got 0 false"),
    Line(17, 3, 0, "6 | 2:0 4:0 5:3 | 3:0 | A2.7 C5.2 D5.6"),
    Line(17, 3, 0, "want 1 got 0 false"),
    Line(5, 3, 0, "6 | 2:0 4:0 5:3 | | A2.7 C5.2 D5.6"),
    Line(3, 5, 0, "6 | 2:0 4:0 | | A2.7"),
    Line(18, 0, 0, "6 | 2:0 4:0 | | A2.7"),
    Line(9, 7, 0, "6 | 2:0 4:0 | |"),
    Line(4, 2, 0, "6 | 4:0 | |"),
    Line(15, 4, 0, "6 | 4:1 | |"),
    Line(4, 4, 0, "6 | | 4:1 |"),
    Line(2, 6, 0, "7 | 6:0 | 4:1 |"),
    Line(15, 6, 4, "7 | 6:1 | 4:0 |"),
    Line(5, 4, 0, "7 | 6:1 | |"),
    Line(10, 3, 0, "7 | 6:1 | | F3"),
    Line(9, 3, 0, "7 | 6:1 | |"),
];

fn goes(alloc: Global, meta: &mut Meta, line: Line) -> Result<bool, OutOfMemory> {
    let Line(tag, x, second, says) = line;
    let bytes = record(alloc, tag, x, second)?;
    let comes = play(alloc, meta, &bytes)?;
    Ok(comes.as_str() == says)
}

// Whether the tables begin as they should, and the first line of which something else comes.
type Played = (bool, Option<usize>);

fn play_lines(alloc: Global, meta: &mut Meta) -> Result<Played, OutOfMemory> {
    let first = begin(alloc, meta)?;
    let begins = first.as_str() == "5 | 2:1 4:0 | 3:2 | A2.7 C4.1";
    for (at, line) in LINES.iter().enumerate() {
        if !goes(alloc, meta, *line)? {
            return Ok((begins, Some(at)));
        }
    }
    Ok((begins, None))
}

fn play_all(alloc: Global) -> Result<Played, OutOfMemory> {
    let mut meta = Meta::new(alloc);
    play_lines(alloc, &mut meta)
}

#[test]
fn each_record_has_its_effect_and_its_needs(rt: HostRuntime) -> Result<(), Fail> {
    assert_eq!(rt; play_all(rt.alloc())?, (true, None));
    Ok(())
}

// How the transactions 1, 2, 3 and 5 stand, and how many heads the first three have.
type Standing = ([Fate; 4], [u64; 3]);

fn stand_on(alloc: Global, meta: &mut Meta) -> Result<Standing, OutOfMemory> {
    begin(alloc, meta)?;
    let fates = [meta.fate(1), meta.fate(2), meta.fate(3), meta.fate(5)];
    Ok((fates, [meta.heads(1), meta.heads(2), meta.heads(3)]))
}

fn stand(alloc: Global) -> Result<Standing, OutOfMemory> {
    let mut meta = Meta::new(alloc);
    stand_on(alloc, &mut meta)
}

#[test]
fn a_transaction_stands_as_the_tables_say(rt: HostRuntime) -> Result<(), Fail> {
    let (fates, heads) = stand(rt.alloc())?;
    let wanted = [Fate::Committed, Fate::Open, Fate::Aborted, Fate::Later];
    assert_eq!(rt; fates, wanted);
    assert_eq!(rt; heads, [0, 1, 2]);
    Ok(())
}

// The latest items of 2, 4 and 3 as the tables begin; and of 4 and 2 once 4 has allocated page 9.
type Latest = ([Option<SlogItem>; 3], [Option<SlogItem>; 2]);

fn latest_on(alloc: Global, meta: &mut Meta) -> Result<Latest, OutOfMemory> {
    begin(alloc, meta)?;
    let first = [
        meta.latest_item(2),
        meta.latest_item(4),
        meta.latest_item(3),
    ];
    let bytes = record(alloc, 6, 4, 9)?;
    play(alloc, meta, &bytes)?;
    Ok((first, [meta.latest_item(4), meta.latest_item(2)]))
}

fn latest(alloc: Global) -> Result<Latest, OutOfMemory> {
    let mut meta = Meta::new(alloc);
    latest_on(alloc, &mut meta)
}

#[test]
fn the_latest_item_of_a_transaction_is_told(rt: HostRuntime) -> Result<(), Fail> {
    let (first, then) = latest(rt.alloc())?;
    let page = SlogItem::AllocOf(2, 7);
    let wanted = [Some(page), Some(SlogItem::CreateOf(4, 1)), None];
    assert_eq!(rt; first, wanted);
    assert_eq!(rt; then, [Some(SlogItem::AllocOf(4, 9)), Some(page)]);
    Ok(())
}
