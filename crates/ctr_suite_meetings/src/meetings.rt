// Generated scripts, played by generated orders of turns, each judged, and which replies were met.
use crate::generated::Maker;
use ctr_mem_disk::SilentDisk;
use ctr_model::Point;
use ctr_suite_cases::{
    Files, Judging, Looking, Order, Page, Run, Tables, Trouble, follow, is_bare_behind,
    is_left_well, nowhere, play_files, put_turns,
};
use ctr_types::{List, Refusal, Reply};
use std::alloc::Global;
use std::mem;

/// The replies and refusals that a run over one database in memory may give, by their places in a `Met`.
const NAMES: [&str; 20] = [
    "Began",
    "Granted",
    "Rows",
    "Done",
    "Asked",
    "ReadOnly",
    "Answered",
    "RolledBack",
    "NoTransaction",
    "InTransaction",
    "NoTable",
    "TableExists",
    "TableBusy",
    "SchemaChanged",
    "BadValue",
    "RowLocked",
    "RowChanged",
    "Duplicate",
    "NotFound",
    "OutOfRange",
];

/// The tables that a fresh session looks at behind a stop.
const LOOKS: &[u8] = b"a b c d";

// The place of a reply; none of what isn't to be met: want of memory or room, and recovery's.
fn place_of(reply: &Reply) -> Option<usize> {
    let place = match reply {
        Reply::Began { .. } => 0,
        Reply::Granted => 1,
        Reply::Rows { .. } => 2,
        Reply::Done => 3,
        Reply::Asked { .. } => 4,
        Reply::ReadOnly => 5,
        Reply::Answered { .. } => 6,
        Reply::RolledBack => 7,
        Reply::Released => return None,
        Reply::Refused { refusal } => return refused_place(*refusal),
    };
    Some(place)
}

fn refused_place(refusal: Refusal) -> Option<usize> {
    let place = match refusal {
        Refusal::NoTransaction => 8,
        Refusal::InTransaction => 9,
        Refusal::NoTable => 10,
        Refusal::TableExists => 11,
        Refusal::TableBusy { .. } => 12,
        Refusal::SchemaChanged { .. } => 13,
        Refusal::BadValue { .. } => 14,
        Refusal::RowLocked { .. } => 15,
        Refusal::RowChanged { .. } => 16,
        Refusal::Duplicate => 17,
        Refusal::NotFound => 18,
        Refusal::OutOfRange => 19,
        Refusal::OutOfMemory | Refusal::CatalogFull { .. } | Refusal::Full { .. } => return None,
    };
    Some(place)
}

/// A generated run: its number, and whether the cleaner has turns in it.
#[derive(Clone, Copy)]
pub struct Meeting {
    pub number: u64,
    pub cleans: bool,
}

/// What was met.
#[derive(Drop)]
pub struct Met {
    played: u64,
    entries: u64,
    /// How many turns logged more than one record.
    crowded: u64,
    /// How often each reply was met, and others.
    counts: [u64; 20],
    others: u64,
    /// How many tapes aren't legal and how many stops left other rows; the first number of one of these, or of a database that wasn't bare.
    illegal: u64,
    wrong: u64,
    /// How many databases weren't bare behind the cleaner.
    laden: u64,
    first: Option<u64>,
}

impl Met {
    pub fn new() -> Met {
        Met {
            played: 0,
            entries: 0,
            crowded: 0,
            counts: [0; 20],
            others: 0,
            illegal: 0,
            wrong: 0,
            laden: 0,
            first: None,
        }
    }

    fn count_reply(&mut self, reply: &Reply) {
        match place_of(reply) {
            None => self.others = self.others.saturating_add(1),
            Some(place) => {
                let place = place % 20;
                self.counts[place] = self.counts[place].saturating_add(1);
            }
        }
    }

    fn count(&mut self, run: &Run) {
        self.played = self.played.saturating_add(1);
        for entry in &run.tape {
            self.entries = self.entries.saturating_add(1);
            self.count_reply(&entry.reply);
        }
        for noted in &run.notes {
            if noted.records.0 < noted.records.1.saturating_sub(1) {
                self.crowded = self.crowded.saturating_add(1);
            }
        }
    }

    // What came of a meeting of a number.
    fn judge(&mut self, number: u64, verdict: Verdict) {
        match verdict {
            Verdict::Well => return,
            Verdict::Illegal => self.illegal = self.illegal.saturating_add(1),
            Verdict::LeftOtherwise => self.wrong = self.wrong.saturating_add(1),
            Verdict::NotBare => self.laden = self.laden.saturating_add(1),
        }
        self.first = Some(self.first.unwrap_or(number));
    }

    // The first number of a meeting that isn't well.
    fn put_first(&self, page: &mut Page) {
        if let Some(number) = self.first {
            page.add_number("the first is ", number);
            page.add(b"\n");
        }
    }

    /// How many meetings with the cleaner there were, how many tapes weren't legal, how many stops left other rows, how many turns logged more
    /// than one record, and how many databases weren't bare behind it; not how often what was met.
    pub fn put_judged(&self, page: &mut Page) {
        page.add_number("", self.played);
        page.add_number(" played, ", self.illegal);
        page.add_number(" illegal, ", self.wrong);
        page.add_number(" left otherwise, ", self.crowded);
        page.add_number(" turns of more than one record, ", self.laden);
        page.add(b" not bare\n");
        self.put_first(page);
    }

    /// How many meetings and entries there were, how many tapes weren't legal, how many stops left other rows, and how many turns logged more
    /// than one record; and how often each reply was met.
    pub fn put(&self, page: &mut Page) {
        page.add_number("", self.played);
        page.add_number(" played, ", self.entries);
        page.add_number(" entries, ", self.illegal);
        page.add_number(" illegal, ", self.wrong);
        page.add_number(" left otherwise, ", self.crowded);
        page.add(b" turns of more than one record\n");
        self.put_first(page);
        for (name, count) in NAMES.iter().zip(self.counts.iter()) {
            page.add(name.as_bytes());
            page.add_number(" ", *count);
            page.add(b", ");
        }
        page.add_number("others ", self.others);
        page.add(b"\n");
    }
}

// What the judge says of a meeting.
#[derive(Clone, Copy)]
enum Verdict {
    Well,
    Illegal,
    /// A stop left other rows.
    LeftOtherwise,
    /// Behind the cleaner something is left, or other rows.
    NotBare,
}

// What the judge says of a run that was played: the tape is legal, and a stop after some calls leaves the rows behind some commits; where the
// cleaner has turns, what is left is bare once it is through.
fn verdict_at(
    alloc: Global,
    base: &Tables,
    looking: Looking,
    run: &Run,
    maker: &mut Maker,
    point: &mut Point,
) -> Result<Verdict, Trouble> {
    if !follow(alloc, base, run, point)? {
        return Ok(Verdict::Illegal);
    }
    let calls = looking.disk.calls().len() as u64;
    let count = maker.below(calls.saturating_add(1));
    let k = maker.below(64);
    let judging = Judging {
        looking,
        run,
        state: &point.state,
    };
    if !is_left_well(alloc, judging, count as usize, k)? {
        return Ok(Verdict::LeftOtherwise);
    }
    if maker.cleans && !is_bare_behind(alloc, judging)? {
        return Ok(Verdict::NotBare);
    }
    Ok(Verdict::Well)
}

fn verdict_of(
    alloc: Global,
    base: &Tables,
    looking: Looking,
    run: &Run,
    maker: &mut Maker,
) -> Result<Verdict, Trouble> {
    let mut point = nowhere(alloc);
    let verdict = verdict_at(alloc, base, looking, run, maker, &mut point);
    drop(point);
    verdict
}

// Plays what is made.
fn play_made(
    alloc: Global,
    files: &Files,
    maker: &mut Maker,
    run: &mut Run,
) -> Result<SilentDisk, Trouble> {
    maker.make_script()?;
    let digits = maker.order()?;
    let lines = mem::replace(&mut maker.lines, List::new(alloc));
    let order = Order {
        digits: &digits,
        hardens: false,
    };
    let disk = play_files(alloc, files, lines, order, run);
    drop(digits);
    disk
}

// Plays the meeting of a maker, and judges it.
fn meet_by(
    alloc: Global,
    files: &Files,
    base: &Tables,
    maker: &mut Maker,
    run: &mut Run,
) -> Result<Verdict, Trouble> {
    let disk = play_made(alloc, files, maker, run)?;
    let looking = Looking {
        disk: &disk.disk,
        few: files.few,
        names: LOOKS,
    };
    let verdict = verdict_of(alloc, base, looking, run, maker);
    drop(disk);
    verdict
}

// Plays the meeting of a number over files with a database, and judges it.
fn meet(
    alloc: Global,
    files: &Files,
    base: &Tables,
    meeting: Meeting,
    run: &mut Run,
) -> Result<Verdict, Trouble> {
    let mut maker = Maker::new(alloc, meeting.number, meeting.cleans);
    let verdict = meet_by(alloc, files, base, &mut maker, run);
    drop(maker);
    verdict
}

// The same, and counts what was met.
fn count_meeting(
    alloc: Global,
    files: &Files,
    base: &Tables,
    meeting: Meeting,
    run: &mut Run,
    met: &mut Met,
) -> Result<(), Trouble> {
    let verdict = meet(alloc, files, base, meeting, run)?;
    met.count(run);
    met.judge(meeting.number, verdict);
    Ok(())
}

fn meet_one(
    alloc: Global,
    files: &Files,
    base: &Tables,
    meeting: Meeting,
    met: &mut Met,
) -> Result<(), Trouble> {
    let mut run = Run::new(alloc);
    let counted = count_meeting(alloc, files, base, meeting, &mut run, met);
    drop(run);
    counted
}

/// Plays so many meetings over files with a database, of one number and those behind it, and judges each.
pub fn meet_all(
    alloc: Global,
    files: &Files,
    base: &Tables,
    count: u64,
    first: Meeting,
    met: &mut Met,
) -> Result<(), Trouble> {
    let Meeting {
        number: from,
        cleans,
    } = first;
    for number in from..from.saturating_add(count) {
        meet_one(alloc, files, base, Meeting { number, cleans }, met)?;
    }
    Ok(())
}

// The script of a maker, its turns, and what the judge says.
fn put_by(
    alloc: Global,
    page: &mut Page,
    files: &Files,
    base: &Tables,
    maker: &mut Maker,
    run: &mut Run,
) -> Result<(), Trouble> {
    let verdict = meet_by(alloc, files, base, maker, run)?;
    page.add(maker.text.bytes());
    put_turns(alloc, page, run, usize::MAX);
    page.add(match verdict {
        Verdict::Well => b"well\n",
        Verdict::Illegal => b"illegal\n",
        Verdict::LeftOtherwise => b"left otherwise\n",
        Verdict::NotBare => b"not bare\n",
    });
    Ok(())
}

/// Prints the meeting of a number: its script, its turns, and what the judge says.
pub fn put_meeting(
    alloc: Global,
    page: &mut Page,
    files: &Files,
    base: &Tables,
    meeting: Meeting,
) -> Result<(), Trouble> {
    let mut maker = Maker::new(alloc, meeting.number, meeting.cleans);
    let mut run = Run::new(alloc);
    let put = put_by(alloc, page, files, base, &mut maker, &mut run);
    drop(run);
    drop(maker);
    put
}
