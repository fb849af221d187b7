// Plays the lines of a suite.
use crate::steps::{Step, step_of};
use ctr_log::Gathered;
use ctr_mem_disk::SilentDisk;
use ctr_model::Point;
use ctr_suite::Plays;
use ctr_suite_cases::{
    Case, Judging, Looking, Order, Run, Trouble, asked_by, clean_disk, clean_files, count_wrong,
    files_by, files_of, fill, follow, left_in, nowhere, play_files, put_records, put_stops,
    put_turns, resting, set, tables_at, undo_files,
};
use ctr_types::{Line, List};
use std::alloc::Global;

/// Where a suite stands.
#[derive(Drop)]
pub struct Player {
    case: Case,
}

impl Player {
    // Plays the script, and looks at what a stop leaves behind each turn.
    fn play_stops(&mut self, order: Order, names: &[u8]) -> Result<(), Trouble> {
        let mut run = Run::new(self.case.alloc);
        let lines = self.case.take_lines();
        let played = self.play_stops_into(order, lines, names, &mut run);
        drop(run);
        played
    }

    fn play_stops_into(
        &mut self,
        order: Order,
        lines: List<Line>,
        names: &[u8],
        run: &mut Run,
    ) -> Result<(), Trouble> {
        let disk = play_files(self.case.alloc, &self.case.files, lines, order, run)?;
        let looked = self.look_at_stops(&disk, run, names);
        set(&mut self.case.files.image, files_of(disk));
        looked
    }

    fn look_at_stops(&mut self, disk: &SilentDisk, run: &Run, names: &[u8]) -> Result<(), Trouble> {
        let looking = Looking {
            disk: &disk.disk,
            few: self.case.files.few,
            names,
        };
        put_stops(self.case.alloc, &mut self.case.page, looking, run)?;
        let mut point = nowhere(self.case.alloc);
        let judged = self.judge_stops(looking, run, &mut point);
        drop(point);
        judged
    }

    // Says whether the tape is legal, and how many images are wrong.
    fn judge_stops(
        &mut self,
        looking: Looking,
        run: &Run,
        point: &mut Point,
    ) -> Result<(), Trouble> {
        self.case.judge_at(run, point)?;
        let judging = Judging {
            looking,
            run,
            state: &point.state,
        };
        let wrong = count_wrong(self.case.alloc, judging)?;
        self.case.page.add_number("", wrong);
        self.case.page.add(b" images are wrong\n");
        Ok(())
    }

    // Plays the script, each turn hardened, and goes on from what a stop behind so many turns leaves.
    fn stop(&mut self, turn: u64, order: &[u8]) -> Result<(), Trouble> {
        let mut run = Run::new(self.case.alloc);
        let stopped = self.stop_in(turn, order, &mut run);
        drop(run);
        stopped
    }

    fn stop_in(&mut self, turn: u64, order: &[u8], run: &mut Run) -> Result<(), Trouble> {
        let order = Order {
            digits: order,
            hardens: true,
        };
        let lines = self.case.take_lines();
        let disk = play_files(self.case.alloc, &self.case.files, lines, order, run)?;
        let stopped = self.go_on_from(&disk, turn, run);
        drop(disk);
        stopped
    }

    // Goes on from what a stop behind so many turns of a run leaves, which are printed.
    fn go_on_from(&mut self, disk: &SilentDisk, turn: u64, run: &mut Run) -> Result<(), Trouble> {
        run.notes.truncate(turn as usize);
        put_turns(self.case.alloc, &mut self.case.page, run, usize::MAX);
        let moment = match run.notes.last() {
            None => 0,
            Some(noted) => noted.moment,
        };
        let looking = Looking {
            disk: &disk.disk,
            few: self.case.files.few,
            names: &[],
        };
        let files = files_by(looking, moment)?;
        set(&mut self.case.files, files);
        let mut point = nowhere(self.case.alloc);
        let judged = self.judge_stopped(run, moment, &mut point);
        drop(point);
        judged
    }

    // Says whether the whole tape is legal; the case goes on from the commits that were asked for by a moment, which were hardened.
    fn judge_stopped(&mut self, run: &Run, moment: u64, point: &mut Point) -> Result<(), Trouble> {
        if follow(self.case.alloc, &self.case.base, run, point)? {
            self.case.page.add(b"legal\n");
            let tables = tables_at(self.case.alloc, &point.state, asked_by(&run.tape, moment))?;
            set(&mut self.case.base, tables);
        } else {
            self.case.page.add(b"illegal\n");
        }
        Ok(())
    }

    // Goes over the files with the cleaner, each record hardened, and says how many images of stops are wrong.
    fn clean_stops(&mut self, names: &[u8]) -> Result<(), Trouble> {
        let mut log = Gathered::new(self.case.alloc);
        let cleaned = self.clean_stops_by(names, &mut log);
        drop(log);
        cleaned
    }

    fn clean_stops_by(&mut self, names: &[u8], log: &mut Gathered) -> Result<(), Trouble> {
        let Some((disk, done)) = clean_disk(self.case.alloc, &self.case.files, true, log) else {
            return Err(Trouble::NotOpened);
        };
        let judged = self.judge_cleaned(&disk, done, names, log);
        set(&mut self.case.files.image, files_of(disk));
        judged
    }

    // The records of a pass, and how many images of its stops don't have the rows that were there.
    fn judge_cleaned(
        &mut self,
        disk: &SilentDisk,
        done: Result<(u64, u64), Trouble>,
        names: &[u8],
        log: &Gathered,
    ) -> Result<(), Trouble> {
        let (from, to) = done?;
        self.case.page.add(b"clean ");
        let _count = put_records(self.case.alloc, &mut self.case.page, log.visits(), from, to);
        self.case.page.add(b"\n");
        let looking = Looking {
            disk: &disk.disk,
            few: self.case.files.few,
            names,
        };
        let run = Run::new(self.case.alloc);
        let counted = self.count_resting(looking, &run);
        drop(run);
        counted
    }

    fn count_resting(&mut self, looking: Looking, run: &Run) -> Result<(), Trouble> {
        let point = resting(self.case.alloc, &self.case.base)?;
        let judging = Judging {
            looking,
            run,
            state: &point.state,
        };
        let wrong = count_wrong(self.case.alloc, judging);
        drop(point);
        self.case.page.add_number("", wrong?);
        self.case.page.add(b" images are wrong\n");
        Ok(())
    }

    // Says what is left to clean in the files.
    fn test_bare(&mut self) -> Result<(), Trouble> {
        match left_in(self.case.alloc, &self.case.files)? {
            None => self.case.page.add(b"bare\n"),
            Some(left) => {
                self.case.page.add(b"not bare: ");
                self.case.page.add(left.as_bytes());
                self.case.page.add(b"\n");
            }
        }
        Ok(())
    }

    // Undoes what is open in the files.
    fn undo(&mut self) -> Result<(), Trouble> {
        let mut log = Gathered::new(self.case.alloc);
        let undone = self.undo_by(&mut log);
        drop(log);
        undone
    }

    fn undo_by(&mut self, log: &mut Gathered) -> Result<(), Trouble> {
        let (from, to) = undo_files(self.case.alloc, &mut self.case.files, log)?;
        self.case.page.add(b"undo ");
        let _count = put_records(self.case.alloc, &mut self.case.page, log.visits(), from, to);
        self.case.page.add(b"\n");
        Ok(())
    }

    // Goes over the files with the cleaner.
    fn clean(&mut self) -> Result<(), Trouble> {
        let mut log = Gathered::new(self.case.alloc);
        let cleaned = self.clean_by(&mut log);
        drop(log);
        cleaned
    }

    fn clean_by(&mut self, log: &mut Gathered) -> Result<(), Trouble> {
        let (from, to) = clean_files(self.case.alloc, &mut self.case.files, log)?;
        self.case.page.add(b"clean ");
        let _count = put_records(self.case.alloc, &mut self.case.page, log.visits(), from, to);
        self.case.page.add(b"\n");
        Ok(())
    }

    fn step(&mut self, step: Step) -> Result<(), Trouble> {
        match step {
            Step::Case { step } => self.case.step(step),
            Step::Stops {
                order,
                hardens,
                names,
            } => self.play_stops(
                Order {
                    digits: order,
                    hardens,
                },
                names,
            ),
            Step::Stopped { turn, order } => self.stop(turn, order),
            Step::Undo => self.undo(),
            Step::Clean => self.clean(),
            Step::CleanStops { names } => self.clean_stops(names),
            Step::Bare => self.test_bare(),
            Step::Full => fill(self.case.alloc, &mut self.case.files),
        }
    }
}

impl Plays for Player {
    fn new(alloc: Global) -> Player {
        Player {
            case: Case::new(alloc),
        }
    }

    // Blank lines and those that begin with # say nothing.
    fn take_line(&mut self, line: &[u8]) {
        let line = line.trim_ascii();
        if line.is_empty() || line[0] == b'#' {
            return;
        }
        match step_of(line) {
            None => self.case.refuse(line, Trouble::Spelling),
            Some(step) => {
                if let Err(trouble) = self.step(step) {
                    self.case.refuse(line, trouble);
                }
            }
        }
    }

    fn finish(&mut self) -> Vec<u8> {
        self.case.finish()
    }
}
