// What the slow machine says of a tape, and of what a disk holds.
ghost use Rattle.std.specs.Prelude.{◌≡◌};
ghost use Rattle.ctr_model.specs.Tape.{at_start};

use crate::databases::{Right, probing};
use crate::engine::Engine;
use crate::loads::load_script;
use crate::setup::{Ask, Ran, Setup, plain_report, plain_run, plain_turns};
use ctr_io::MemSource;
use ctr_machine::is_legal;
use ctr_mem_disk::Image;
use ctr_model::{Map, Point, State, Survey, Table};
use ctr_script::read_script;
use ctr_suite_steps::add;
use ctr_types::{
    Act, Actor, Entry, Line, List, Name, OutOfMemory, Plain, Reply, Script, Tape, Text,
};
use std::alloc::Global;

// The script that bytes are. What is none is an empty one: no tape comes of it.
fn script_of(alloc: Global, bytes: &[u8]) -> Result<Script, OutOfMemory> {
    let mut source = MemSource::new(Text::from_slice(alloc, bytes)?, List::new(alloc));
    let script = script_in(alloc, &mut source);
    drop(source);
    Ok(script)
}

// The script that a setup has, or generates.
fn lines_of(alloc: Global, setup: &Setup) -> Result<Script, OutOfMemory> {
    if setup.is_command("load") {
        return load_script(alloc, setup);
    }
    script_of(alloc, &setup.script)
}

fn script_in(alloc: Global, source: &mut MemSource) -> Script {
    read_script(alloc, source).unwrap_or(Script {
        lines: List::new(alloc),
    })
}

fn starting(alloc: Global, base: Map<Name, Table>, stuck: List<Name>) -> Point
    ensures { result ≡ at_start 0 base stuck }
{
    Point {
        state: State::at_rest(alloc, base, stuck),
        progress: Map::new(alloc),
        moment: 0,
    }
}

// Whether a tape is legal from a point at rest, which it then leads on.
fn is_led(
    alloc: Global,
    lines: &[Line],
    point: &mut Point,
    entries: &[Entry],
) -> Result<bool, OutOfMemory>
    requires { point.old.state.answered ≡ 0 }
{
    if entries.len() >= usize::MAX / 2 {
        return Err(OutOfMemory);
    }
    is_legal(alloc, lines, point, entries)
}

// Whether a tape is legal from a database of which recovery holds these names.
fn is_led_from(
    alloc: Global,
    base: &Map<Name, Table>,
    stuck: &[Name],
    lines: &[Line],
    entries: &[Entry],
) -> Result<bool, OutOfMemory> {
    let mut point = starting(alloc, base.copy(alloc)?, copied(alloc, stuck)?);
    let led = is_led(alloc, lines, &mut point, entries);
    drop(point);
    led
}

fn add_copies(alloc: Global, list: &mut Vec<Name>, names: &[Name]) -> Result<(), OutOfMemory> {
    for name in names {
        add(list, name.copy(alloc)?)?;
    }
    Ok(())
}

fn copied(alloc: Global, names: &[Name]) -> Result<List<Name>, OutOfMemory> {
    let mut list = Vec::new(alloc);
    add_copies(alloc, &mut list, names)?;
    Ok(List::from_vec(list))
}

fn add_released(
    alloc: Global,
    names: &mut Vec<Name>,
    entries: &[Entry],
) -> Result<(), OutOfMemory> {
    for entry in entries {
        if let Act::Release { name } = &entry.act {
            add(names, name.copy(alloc)?)?;
        }
    }
    Ok(())
}

// The names that recovery releases on a tape.
fn released_in(alloc: Global, tape: &Tape) -> Result<Vec<Name>, OutOfMemory> {
    let mut names = Vec::new(alloc);
    add_released(alloc, &mut names, tape.entries.as_slice())?;
    Ok(names)
}

// The names that recovery holds as a run begins: those that a finished one releases, or else those that a run without statements does.
fn held_before<E: Engine>(
    alloc: Global,
    setup: &Setup,
    ran: &Ran,
) -> Result<Vec<Name>, OutOfMemory> {
    if ran.status == 0 {
        return released_in(alloc, &ran.tape);
    }
    let idle = plain_run(alloc, &setup.image, &[])?;
    let names = released_by::<E>(alloc, &idle);
    drop(idle);
    names
}

fn released_by<E: Engine>(alloc: Global, setup: &Setup) -> Result<Vec<Name>, OutOfMemory> {
    let ran = E::play(alloc, setup, Ask::Last)?;
    let names = released_in(alloc, &ran.tape);
    drop(ran);
    names
}

/// How many commits were answered by a moment.
pub fn answered_by(entries: &[Entry], moment: u64) -> usize {
    let mut count = 0usize;
    for entry in entries {
        if entry.moment <= moment && matches!(&entry.reply, Reply::Answered { .. }) {
            count = count.saturating_add(1);
        }
    }
    count
}

/// Which databases are right after the run of a script, if its tape is legal from one that was right before. A run of
/// status 0 has made all its commits; any other those at least that it answered.
pub fn led_from<E: Engine>(
    alloc: Global,
    right: &Right,
    setup: &Setup,
    ran: &Ran,
) -> Result<Option<Right>, OutOfMemory> {
    let stuck = held_before::<E>(alloc, setup, ran)?;
    let led = led_with(alloc, right, &stuck, setup, ran);
    drop(stuck);
    led
}

fn led_with(
    alloc: Global,
    right: &Right,
    stuck: &[Name],
    setup: &Setup,
    ran: &Ran,
) -> Result<Option<Right>, OutOfMemory> {
    let script = lines_of(alloc, setup)?;
    let led = led_by(alloc, right, stuck, script.lines.as_slice(), ran);
    drop(script);
    led
}

fn led_by(
    alloc: Global,
    right: &Right,
    stuck: &[Name],
    lines: &[Line],
    ran: &Ran,
) -> Result<Option<Right>, OutOfMemory> {
    for (number, base) in right.list.iter().enumerate() {
        if right.has(number) {
            let after = right_after(alloc, base, stuck, lines, ran)?;
            if after.is_some() {
                return Ok(after);
            }
        }
    }
    Ok(None)
}

fn right_after(
    alloc: Global,
    base: &Map<Name, Table>,
    stuck: &[Name],
    lines: &[Line],
    ran: &Ran,
) -> Result<Option<Right>, OutOfMemory> {
    let mut point = starting(alloc, base.copy(alloc)?, copied(alloc, stuck)?);
    let right = right_at(alloc, lines, &mut point, ran);
    drop(point);
    right
}

fn right_at(
    alloc: Global,
    lines: &[Line],
    point: &mut Point,
    ran: &Ran,
) -> Result<Option<Right>, OutOfMemory>
    requires { point.old.state.answered ≡ 0 }
{
    let entries = ran.tape.entries.as_slice();
    if !is_led(alloc, lines, point, entries)? {
        return Ok(None);
    }
    let least = if ran.status == 0 {
        point.state.asked.len()
    } else {
        answered_by(entries, u64::MAX)
    };
    Ok(Some(Right::after(alloc, point, least)?))
}

/// A script that tells databases apart.
#[derive(Drop)]
pub struct Probe {
    bytes: Vec<u8>,
    script: Script,
}

impl Probe {
    pub fn new(alloc: Global, right: &Right) -> Result<Probe, OutOfMemory> {
        let bytes = probing(alloc, &right.list).bytes().to_vec(alloc)?;
        let script = script_of(alloc, &bytes)?;
        Ok(Probe { bytes, script })
    }
}

/// What an image is found to hold.
#[derive(Clone, Copy)]
pub enum Found {
    /// A database that is right, with so many commits, the most that fit.
    Commits(usize),
    /// There is no database, or none that can be opened: the status of a run.
    Status(u8),
    /// Another database.
    Other,
}

/// How many turns recovery's undo has before the statements that look at an image: more than it wants in any case.
pub const UNDO_TURNS: usize = 200;

/// The frames of the run that looks at an image.
const FEW_FRAMES: u64 = 8;

// The run of a probe on an image.
fn looking(alloc: Global, probe: &Probe, image: &Image) -> Result<Setup, OutOfMemory> {
    let script = probe.bytes.to_vec(alloc)?;
    let undo = vec![in alloc; Actor::Undo; UNDO_TURNS]?;
    let mut setup = plain_turns(alloc, image, script, undo)?;
    setup.frames = FEW_FRAMES;
    Ok(setup)
}

/// What a run finds in an image, and a report of it.
pub fn found_in<E: Engine>(
    alloc: Global,
    right: &Right,
    probe: &Probe,
    image: &Image,
) -> Result<Found, OutOfMemory> {
    let setup = looking(alloc, probe, image)?;
    let found = found_by::<E>(alloc, right, probe, &setup);
    drop(setup);
    reported::<E>(alloc, right, image, found?)
}

/// What a run finds in an image, with a probe of its own.
pub fn found_alone<E: Engine>(
    alloc: Global,
    right: &Right,
    image: &Image,
) -> Result<Found, OutOfMemory> {
    let probe = Probe::new(alloc, right)?;
    let found = found_in::<E>(alloc, right, &probe, image);
    drop(probe);
    found
}

fn found_by<E: Engine>(
    alloc: Global,
    right: &Right,
    probe: &Probe,
    setup: &Setup,
) -> Result<Found, OutOfMemory> {
    let ran = E::play(alloc, setup, Ask::Last)?;
    let found = fitting(alloc, right, probe.script.lines.as_slice(), &ran);
    drop(ran);
    found
}

fn fitting(alloc: Global, right: &Right, lines: &[Line], ran: &Ran) -> Result<Found, OutOfMemory> {
    if ran.status != 0 {
        return Ok(Found::Status(ran.status));
    }
    let stuck = released_in(alloc, &ran.tape)?;
    let found = fitting_from(alloc, right, &stuck, lines, ran.tape.entries.as_slice());
    drop(stuck);
    found
}

fn fitting_from(
    alloc: Global,
    right: &Right,
    stuck: &[Name],
    lines: &[Line],
    entries: &[Entry],
) -> Result<Found, OutOfMemory> {
    let mut found = Found::Other;
    for (number, base) in right.list.iter().enumerate() {
        if is_led_from(alloc, base, stuck, lines, entries)? {
            found = Found::Commits(number);
        }
    }
    Ok(found)
}

/// Whether a run finds in an image the rows behind so many commits, and nothing to undo.
pub fn has_kept<E: Engine>(
    alloc: Global,
    right: &Right,
    probe: &Probe,
    image: &Image,
    commits: usize,
) -> Result<bool, OutOfMemory> {
    let setup = looking(alloc, probe, image)?;
    let kept = kept_by::<E>(alloc, right, probe, &setup, commits);
    drop(setup);
    kept
}

fn kept_by<E: Engine>(
    alloc: Global,
    right: &Right,
    probe: &Probe,
    setup: &Setup,
    commits: usize,
) -> Result<bool, OutOfMemory> {
    let ran = E::play(alloc, setup, Ask::Last)?;
    let kept = is_kept(alloc, right, probe, &ran, commits);
    drop(ran);
    kept
}

// Whether the probe's tape is legal from the database behind so many commits, of which recovery holds no name.
fn is_kept(
    alloc: Global,
    right: &Right,
    probe: &Probe,
    ran: &Ran,
    commits: usize,
) -> Result<bool, OutOfMemory> {
    let lines = probe.script.lines.as_slice();
    let entries = ran.tape.entries.as_slice();
    match right.list.get(commits) {
        Some(base) if ran.status == 0 => is_led_from(alloc, base, &[], lines, entries),
        _ => Ok(false),
    }
}

// What was found, if a report of the image says so too.
fn reported<E: Engine>(
    alloc: Global,
    right: &Right,
    image: &Image,
    found: Found,
) -> Result<Found, OutOfMemory> {
    let setup = plain_report(alloc, image)?;
    let told = told_by::<E>(alloc, right, &setup, found);
    drop(setup);
    told
}

fn told_by<E: Engine>(
    alloc: Global,
    right: &Right,
    setup: &Setup,
    found: Found,
) -> Result<Found, OutOfMemory> {
    let ran = E::play(alloc, setup, Ask::Last)?;
    let told = is_told(right, &ran, found);
    drop(ran);
    if told { Ok(found) } else { Ok(Found::Other) }
}

fn is_told(right: &Right, ran: &Ran, found: Found) -> bool {
    match found {
        Found::Commits(number) => match right.list.get(number) {
            Some(database) => ran.status == 0 && is_counted(database, ran.survey),
            None => false,
        },
        Found::Status(status) => ran.status == status,
        Found::Other => false,
    }
}

// Whether a database has as many tables and rows as were counted.
fn is_counted(database: &Map<Name, Table>, survey: Survey) -> bool {
    let mut rows = 0u64;
    for (_, table) in database.entries() {
        rows = rows.saturating_add(table.rows.entries().len() as u64);
    }
    survey.tables == database.entries().len() as u64 && survey.rows == rows
}
