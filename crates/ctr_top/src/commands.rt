// The commands from words to a last line.
ghost use Rattle.std.specs.Prelude.{◌≡◌, ◌≢◌, ◌≤◌, true, false, ◌++◌, Bool, IsTrue, ℕ, List, Some, map};
ghost use Rattle.std.specs.String.{string_bytes};
ghost use Rattle.ctr_types.specs.declared.statement.Line.{Line};
ghost use Rattle.ctr_model.specs.Language.{SpellsLine};
ghost use Rattle.ctr_model.specs.Lines.{IsWritten};
ghost use Rattle.ctr_model.specs.Tape.{IsSerial};
ghost use Rattle.ctr_model.specs.Texts.{last_line};
ghost use Rattle.ctr_print.specs.Prints.{PutsOn};
ghost use Rattle.ctr_redo.specs.States.{State};
ghost use Rattle.ctr_record_effects.specs.Standing.{StandsForDatabase};
ghost use Rattle.ctr_load.specs.Generated.{generated};
ghost use Rattle.ctr_script.specs.Written.{IsShortText};
ghost use Rattle.ctr_words.specs.Words.{command_asked};
ghost use Rattle.ctr_database.specs.ctr_run.ctr_world.Ended.{PassesOpening};
ghost use Rattle.ctr_top.specs.declared.ending.Ending.TheVariants.{Finished, WriteFault};
ghost use Rattle.ctr_top.specs.Endings.{status_of, cause_of, work};
ghost use Rattle.ctr_top.specs.Top.{RanScript, RunCauses, EndsUnfailed, Makes, GoesForward, MindsWords, PutsText, NoneFailed, Loads, Reports, command_told, printed_text, shown_tape, work_of, report_of, faults_of};

use crate::ending::{Ending, not_asked};
use crate::loading::{load, load_on_threads};
use crate::making::make;
use crate::outcome::Outcome;
use crate::report::{UNCOUNTED, report};
use crate::script::{run_script, run_script_on_threads};
use ctr_database::running::{Gate, Left, Schedule, Workers};
use ctr_disk::Disk;
use ctr_io::{Sink, Source, Tape};
use ctr_model::{Cause, Command, Report, Survey};
use ctr_print::{Printer, count_answers, count_refusals, put_last_line, put_run};
use ctr_script::one_script;
use ctr_words::{FRAMES, Subcommand, command};
use std::alloc::Global;
use std::sync::Wait;
use std::thread::Threads;

/// How a command ended.
#[derive(Drop)]
pub struct Ended<D> {
    pub ending: Ending,
    /// Its entries, the turns of undo, and the disk.
    pub left: Left<D>,
    pub report: Report,
    /// What a report that is finished has counted.
    pub survey: Survey,
}

// The ending of work whose text was put, or not.
fn after_put(ending: Ending, fine: bool) -> Ending
    requires { ending ≢ WriteFault }
    ensures work { work result ≡ ending }
    ensures fine { result ≡ Finished → fine ≡ true }
    ensures failed { result ≡ WriteFault → fine ≡ false }
{
    match ending {
        Ending::Finished if !fine => Ending::WriteFault,
        _ => ending,
    }
}

// Puts the last line alone.
fn put_end<K: Sink>(
    sink: &mut K,
    command: &Command,
    status: u8,
    cause: &Cause,
    tape: &Tape,
    report: &Report,
) -> bool
    ensures { PutsOn K.Sink sink.old (last_line command.now status cause.now tape.now.entries report.now) sink.new result }
{
    let mut out = Printer::new(sink);
    put_last_line(&mut out, command, status, cause, tape, report);
    out.finish()
}

// Puts the transcript and the last line, and of a load only that.
fn put_text<K: Sink>(
    sink: &mut K,
    command: &Command,
    status: u8,
    cause: &Cause,
    tape: &Tape,
    report: &Report,
) -> bool
    ensures { PutsOn K.Sink sink.old (shown_tape command.now tape.now.entries ++ last_line command.now status cause.now tape.now.entries report.now) sink.new result }
{
    match command {
        Command::Load { .. } => put_end(sink, command, status, cause, tape, report),
        Command::Init | Command::Run | Command::Survey { .. } => {
            put_run(sink, command, status, cause, tape, report)
        }
    }
}

// Puts what a command shows of its tape, and the last line.
fn ending<D, K: Sink>(sink: &mut K, command: &Command, outcome: Outcome<D>) -> Ended<D>
    requires { outcome.ending ≢ WriteFault }
    ensures printed { PutsText K.Sink sink.old (shown_tape command.now outcome.left.tape.entries ++ last_line command.now (status_of outcome.ending) (cause_of outcome.ending) outcome.left.tape.entries (report_of outcome.left)) sink.new result.ending }
    ensures outcome { work_of result ≡ outcome }
    ensures report { result.report ≡ report_of outcome.left }
    ensures survey { (counts : Survey) → command.now ≡ Command.Survey counts → result.survey ≡ counts }
{
    let Outcome { ending, left } = outcome;
    let report = Report {
        commits: count_answers(&left.tape),
        refused: count_refusals(&left.tape),
        undo_turns: left.undone as u64,
        rows: left.totals.rows,
        sum: left.totals.sum,
    };
    let status = ending.status();
    let cause = ending.cause();
    let fine = put_text(sink, command, status, &cause, &left.tape, &report);
    let survey = match command {
        Command::Survey { start } => *start,
        Command::Init | Command::Run | Command::Load { .. } => UNCOUNTED,
    };
    Ended {
        ending: after_put(ending, fine),
        left,
        report,
        survey,
    }
}

/// Runs a command: the words behind the program's name, over a disk, from a source to a sink.
///
/// `init DIR` makes the empty database; `run DIR [--threads] [--frames N] [--keys N]` runs the script of the source, with so many frames for the database's
/// pages, and so many keys of rows remembered at most; `load DIR --sessions S --count C --seed X [--threads] [--frames N] [--keys N]` runs the generated script of S sessions and C rounds, drawn from the seed X; `report DIR`
/// counts what the database holds. DIR doesn't begin with `-`, and the disk is that of the folder. How it ends, and by which status, is an `Ending`. Scripts are
/// run in serial order, also where threads are asked for: those are for `run`.
pub fn run_serial<D: Disk, S: Source, K: Sink>(
    alloc: Global,
    words: &[String],
    disk: D,
    source: &mut S,
    sink: &mut K,
) -> Ended<D>
    // The text of the tape and the ending was put, or a prefix of it where the sink failed.
    ensures printed { PutsText K.Sink sink.old (printed_text (command_told (command_asked (map string_bytes words.now)) result.survey) result) sink.new result.ending }
    ensures tape { result.report ≡ report_of result.left }
    // Usage comes exactly for words that are no command, unless memory is refused.
    ensures usage { MindsWords S.Source (command_asked (map string_bytes words.now)) disk result source.old source.new }
    // A run's tape stands in the order of its script, whatever the disk tells; over the database that the disk holds it is legal, and a crash at any
    // moment from the call's start to its end leaves a prefix of the commit order with every commit answered by then.
    ensures ran { (frames : ℕ) (threads : Bool) (keys : ℕ) → command_asked (map string_bytes words.now) ≡ Some (Subcommand.Run frames threads keys) → RanScript D.Disk disk S.Source source.old (work_of result) }
    ensures run_causes { (frames : ℕ) (threads : Bool) (keys : ℕ) → command_asked (map string_bytes words.now) ≡ Some (Subcommand.Run frames threads keys) → RunCauses D.Disk disk S.Source source.old source.new (work_of result) }
    // The statements stand on the tape in the order of the script's lines, each one's entries together.
    ensures serial { (frames : ℕ) (threads : Bool) (keys : ℕ) → command_asked (map string_bytes words.now) ≡ Some (Subcommand.Run frames threads keys) → IsTrue S.tells → (lines : List Line)
        → IsWritten SpellsLine (S.left source.old) lines → IsSerial lines result.left.tape.entries }
    // Where nothing fails a script runs to its end, or memory was refused before its first entry, or the last number of a record is told.
    ensures complete { (frames : ℕ) (threads : Bool) (keys : ℕ) → command_asked (map string_bytes words.now) ≡ Some (Subcommand.Run frames threads keys) → IsTrue D.tells → IsTrue S.tells
        → (lines : List Line) → IsShortText (S.left source.old) lines → (s : State) → StandsForDatabase (D.reads disk) s → PassesOpening (D.reads disk)
        → NoneFailed (faults_of D.Disk S.Source K.Sink disk source.old sink.old) (faults_of D.Disk S.Source K.Sink result.left.disk source.new sink.new)
        → EndsUnfailed result.ending result.left }
    ensures init { command_asked (map string_bytes words.now) ≡ Some Subcommand.Init → Makes D.Disk disk (work_of result) }
    // A report logs nothing, and tells what the disk held at the start.
    ensures report { command_asked (map string_bytes words.now) ≡ Some Subcommand.Report → Reports D.Disk disk result }
    // A load runs its generated script as a run does the source's, and tells the totals of the table `load`.
    ensures loaded { (frames : ℕ) (threads : Bool) (keys sessions count seed : ℕ) → command_asked (map string_bytes words.now) ≡ Some (Subcommand.Load frames threads keys sessions count seed)
        → Loads D.Disk disk (generated sessions count seed) false (work_of result) }
    // A command that is finished has met no fault.
    ensures calm { result.ending ≡ Finished
        → faults_of D.Disk S.Source K.Sink result.left.disk source.new sink.new ≡ faults_of D.Disk S.Source K.Sink disk source.old sink.old }
    ensures forward { GoesForward D.Disk S.Source disk result.left.disk source.old source.new }
{
    one_script();
    let subcommand = match command(alloc, words) {
        Ok(subcommand) => subcommand,
        Err(why) => {
            let outcome = Outcome::without_tape(alloc, not_asked(why), disk);
            return ending(sink, &Command::Run, outcome);
        }
    };
    match subcommand {
        Subcommand::Init => ending(sink, &Command::Init, make(alloc, disk)),
        Subcommand::Report => {
            let (start, outcome) = report(alloc, disk, usize::from(FRAMES));
            ending(sink, &Command::Survey { start }, outcome)
        }
        Subcommand::Run { frames, keys, .. } => {
            let frames = usize::from(frames);
            let keys = keys as usize;
            let outcome = run_script(alloc, disk, frames, keys, source, Schedule::Serial);
            ending(sink, &Command::Run, outcome)
        }
        Subcommand::Load {
            frames,
            keys,
            sessions,
            count,
            seed,
            ..
        } => {
            let frames = usize::from(frames);
            let keys = keys as usize;
            let (statements, outcome) = load(alloc, disk, frames, keys, sessions, count, seed);
            let command = Command::Load {
                sessions: sessions as u64,
                statements,
            };
            ending(sink, &command, outcome)
        }
    }
}

/// Runs a command as `run_serial` does, but a script for which threads are asked: of such a one each session that it names, the flusher, the cleaner and undo
/// have a thread of their own, which takes its turns behind the gate. The same is promised, but for the order of the statements of different sessions.
pub fn run<R: Threads + Wait + Sync, D: Disk + Send, S: Source, K: Sink, G: Gate + Sync>(
    rt: &R,
    alloc: Global,
    words: &[String],
    disk: D,
    source: &mut S,
    sink: &mut K,
    gate: &G,
) -> Ended<D>
    // The text of the tape and the ending was put, or a prefix of it where the sink failed.
    ensures printed { PutsText K.Sink sink.old (printed_text (command_told (command_asked (map string_bytes words.now)) result.survey) result) sink.new result.ending }
    ensures tape { result.report ≡ report_of result.left }
    // Usage comes exactly for words that are no command, unless memory is refused.
    ensures usage { MindsWords S.Source (command_asked (map string_bytes words.now)) disk result source.old source.new }
    // A run's tape stands in the order of its script, whatever the disk tells; over the database that the disk holds it is legal, and a crash at any
    // moment from the call's start to its end leaves a prefix of the commit order with every commit answered by then.
    ensures ran { (frames : ℕ) (threads : Bool) (keys : ℕ) → command_asked (map string_bytes words.now) ≡ Some (Subcommand.Run frames threads keys) → RanScript D.Disk disk S.Source source.old (work_of result) }
    ensures run_causes { (frames : ℕ) (threads : Bool) (keys : ℕ) → command_asked (map string_bytes words.now) ≡ Some (Subcommand.Run frames threads keys) → RunCauses D.Disk disk S.Source source.old source.new (work_of result) }
    // Without threads the statements stand on the tape in the order of the script's lines, each one's entries together.
    ensures serial { (frames keys : ℕ) → command_asked (map string_bytes words.now) ≡ Some (Subcommand.Run frames false keys) → IsTrue S.tells → (lines : List Line)
        → IsWritten SpellsLine (S.left source.old) lines → IsSerial lines result.left.tape.entries }
    // Where nothing fails a script runs to its end, or memory was refused before its first entry, or the last number of a record is told.
    ensures complete { (frames : ℕ) (threads : Bool) (keys : ℕ) → command_asked (map string_bytes words.now) ≡ Some (Subcommand.Run frames threads keys) → IsTrue D.tells → IsTrue S.tells
        → (lines : List Line) → IsShortText (S.left source.old) lines → (s : State) → StandsForDatabase (D.reads disk) s → PassesOpening (D.reads disk)
        → NoneFailed (faults_of D.Disk S.Source K.Sink disk source.old sink.old) (faults_of D.Disk S.Source K.Sink result.left.disk source.new sink.new)
        → EndsUnfailed result.ending result.left }
    ensures init { command_asked (map string_bytes words.now) ≡ Some Subcommand.Init → Makes D.Disk disk (work_of result) }
    // A report logs nothing, and tells what the disk held at the start.
    ensures report { command_asked (map string_bytes words.now) ≡ Some Subcommand.Report → Reports D.Disk disk result }
    // A load runs its generated script as a run does the source's, and tells the totals of the table `load`.
    ensures loaded { (frames : ℕ) (threads : Bool) (keys sessions count seed : ℕ) → command_asked (map string_bytes words.now) ≡ Some (Subcommand.Load frames threads keys sessions count seed)
        → Loads D.Disk disk (generated sessions count seed) threads (work_of result) }
    // A command that is finished has met no fault.
    ensures calm { result.ending ≡ Finished
        → faults_of D.Disk S.Source K.Sink result.left.disk source.new sink.new ≡ faults_of D.Disk S.Source K.Sink disk source.old sink.old }
    ensures forward { GoesForward D.Disk S.Source disk result.left.disk source.old source.new }
{
    one_script();
    match command(alloc, words) {
        Ok(
            Subcommand::Run {
                frames,
                threads: true,
                keys,
            },
        ) => {
            let workers = Workers { rt, gate, first: 0 };
            let frames = usize::from(frames);
            let keys = keys as usize;
            let outcome = run_script_on_threads(workers, alloc, disk, frames, keys, source);
            ending(sink, &Command::Run, outcome)
        }
        Ok(
            Subcommand::Load {
                frames,
                threads: true,
                keys,
                sessions,
                count,
                seed,
            },
        ) => {
            let workers = Workers { rt, gate, first: 3 };
            let frames = usize::from(frames);
            let keys = keys as usize;
            let (statements, outcome) = load_on_threads(
                workers, alloc, disk, frames, keys, sessions, count, seed,
            );
            let command = Command::Load {
                sessions: sessions as u64,
                statements,
            };
            ending(sink, &command, outcome)
        }
        _ => run_serial(alloc, words, disk, source, sink),
    }
}
