// A case: its database, and the script that is played over it.
use crate::files::{Files, files_of, made};
use crate::judged::{Tables, follow, nowhere, tables_of};
use crate::lines::{add_each, add_line};
use crate::lists::set;
use crate::looked::put_look;
use crate::page::Page;
use crate::printed::put_turns;
use crate::run::{Order, Run, play_files};
use crate::steps::CaseStep;
use crate::trouble::Trouble;
use ctr_mem_disk::Image;
use ctr_model::{Map, Point};
use ctr_types::{File, Line, List, Plain};
use std::alloc::Global;
use std::mem;

/// Where a suite stands: a case, and what is printed so far.
#[derive(Drop)]
pub struct Case {
    pub alloc: Global,
    pub page: Page,
    /// The files of the case's database, and its tables by the model.
    pub files: Files,
    pub base: Tables,
    /// Those of a new database, once there were any.
    fresh: Image,
    /// The script so far.
    lines: List<Line>,
    /// How many turns of the next run are printed.
    tail: usize,
}

impl Case {
    /// Nothing is played yet.
    pub fn new(alloc: Global) -> Case {
        Case {
            alloc,
            page: Page::new(alloc),
            files: Files {
                image: Image::new(alloc),
                few: false,
            },
            base: Map::new(alloc),
            fresh: Image::new(alloc),
            lines: List::new(alloc),
            tail: usize::MAX,
        }
    }

    fn begin(&mut self, name: &[u8]) -> Result<(), Trouble> {
        self.page.add(b"case ");
        self.page.add(name);
        self.page.add(b"\n");
        if self.fresh.file(File::Root).len() == 0 {
            let fresh = made(self.alloc)?;
            set(&mut self.fresh, fresh);
        }
        let image = self.fresh.copy()?;
        set(&mut self.files.image, image);
        self.files.few = false;
        set(&mut self.base, Map::new(self.alloc));
        set(&mut self.lines, List::new(self.alloc));
        self.tail = usize::MAX;
        Ok(())
    }

    /// The script so far, which is begun anew.
    pub fn take_lines(&mut self) -> List<Line> {
        let none = List::new(self.alloc);
        mem::replace(&mut self.lines, none)
    }

    // Plays the script.
    fn play(&mut self, order: &[u8]) -> Result<(), Trouble> {
        let mut run = Run::new(self.alloc);
        let played = self.play_into(order, &mut run);
        drop(run);
        played
    }

    fn play_into(&mut self, order: &[u8], run: &mut Run) -> Result<(), Trouble> {
        let order = Order {
            digits: order,
            hardens: false,
        };
        let lines = self.take_lines();
        let disk = play_files(self.alloc, &self.files, lines, order, run)?;
        set(&mut self.files.image, files_of(disk));
        let tail = mem::replace(&mut self.tail, usize::MAX);
        put_turns(self.alloc, &mut self.page, run, tail);
        self.judge(run)
    }

    // Says whether the tape of a run is legal; the case goes on from where it leads.
    fn judge(&mut self, run: &Run) -> Result<(), Trouble> {
        let mut point = nowhere(self.alloc);
        let judged = self.judge_at(run, &mut point);
        drop(point);
        judged
    }

    /// Says whether the tape of a run is legal; the case goes on from where it leads, which the point is then.
    pub fn judge_at(&mut self, run: &Run, point: &mut Point) -> Result<(), Trouble> {
        if follow(self.alloc, &self.base, run, point)? {
            self.page.add(b"legal\n");
            let tables = tables_of(self.alloc, &point.state)?;
            set(&mut self.base, tables);
        } else {
            self.page.add(b"illegal\n");
        }
        Ok(())
    }

    // Looks at the files.
    fn look(&mut self, names: &[u8]) -> Result<(), Trouble> {
        put_look(self.alloc, &mut self.page, &self.files, names)?;
        self.page.add(b"\n");
        Ok(())
    }

    /// Does what a line asks of a case.
    pub fn step(&mut self, step: CaseStep) -> Result<(), Trouble> {
        match step {
            CaseStep::Case { name } => self.begin(name),
            CaseStep::Line { text } => add_line(self.alloc, &mut self.lines, text),
            CaseStep::Each { from, to, text } => {
                add_each(self.alloc, &mut self.lines, from, to, text)
            }
            CaseStep::Tail { turns } => {
                self.tail = turns;
                Ok(())
            }
            CaseStep::FewFrames => {
                self.files.few = true;
                Ok(())
            }
            CaseStep::Play { order } => self.play(order),
            CaseStep::Look { names } => self.look(names),
        }
    }

    /// Tells of a line that can't be read, or whose step isn't done.
    pub fn refuse(&mut self, line: &[u8], trouble: Trouble) {
        self.page.add(b"?? ");
        self.page.add(trouble.text().as_bytes());
        self.page.add(b": ");
        self.page.add(line);
        self.page.add(b"\n");
    }

    /// The suite has ended: what is printed of it.
    pub fn finish(&mut self) -> Vec<u8> {
        if self.page.is_cut() {
            self.page.add(b"?? out of memory\n");
        }
        let none = Page::new(self.alloc);
        mem::replace(&mut self.page, none).into_bytes()
    }
}
