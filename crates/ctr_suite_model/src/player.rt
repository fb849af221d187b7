// Plays the lines of a suite.
ghost use Rattle.std.specs.Prelude.{◌≡◌, IfOk};
ghost use Rattle.ctr_model.specs.Tape.{at_start};

use crate::entry::{must_be_empty, read_entry, read_number, read_refusal, read_small};
use crate::follow::{follow, nowhere, start_of};
use crate::judge::Judge;
use crate::last::{count_fronts, put_end, report_of};
use crate::lists::add as add_to;
use crate::machine::{put_replies, put_state, put_tables};
use crate::page::Page;
use crate::printed::shown;
use crate::run::{Run, add, play_act, play_statement, release, statement_of};
use crate::spelled::{behind, read_name, read_statement};
use crate::steps::{Step, has_words, step_of};
use crate::trouble::Trouble;
use ctr_model::{Change, Map, Point, Table, apply_all};
use ctr_suite::{Plays, split_word};
use ctr_types::{Line, List, Name, Plain, Row, Statement, Value};
use std::alloc::Global;
use std::slice;

/// Where a suite stands.
#[derive(Drop)]
pub struct Player {
    alloc: Global,
    judge: Judge,
    base: Map<Name, Table>,
    stuck: List<Name>,
    lines: List<Line>,
    /// How many of the lines were run in their order.
    ran: usize,
    tape_name: Vec<u8>,
    run: Run,
    /// Whether the run stands on the database. It does from the first entry on.
    begun: bool,
}

impl Player {
    fn step(&mut self, step: Step, rest: &[u8]) -> Result<(), Trouble> {
        if !has_words(step) {
            must_be_empty(rest)?;
        }
        match step {
            Step::Case => {
                self.begin_case(rest);
                Ok(())
            }
            Step::Table => self.add_table(rest),
            Step::Row => self.add_row(rest),
            Step::Stuck => self.add_stuck(rest),
            Step::Tape => self.begin_tape(rest),
            Step::Run => self.run_lines(),
            Step::Go => self.go(rest),
            Step::Act => self.act(rest),
            Step::Release => self.release(rest),
            Step::Moment => self.set_moment(rest),
            Step::Legal => self.verdict(true),
            Step::Illegal => self.verdict(false),
            Step::Shows => self.show(rest),
            Step::Replies => self.show_replies(),
            Step::Tables => self.show_tables(),
            Step::State => self.show_state(),
            Step::Ends => self.show_end(rest),
            Step::Cuts => self.cut(rest),
        }
    }

    // A line of the script, as `2> COMMIT;`, or else an entry.
    fn plain_line(&mut self, word: &[u8], rest: &[u8], line: &[u8]) -> Result<(), Trouble> {
        match word.strip_suffix(b">") {
            Some(session) => self.add_line(session, rest),
            None => self.add_entry(line),
        }
    }

    // ---- what a run begins with

    fn begin_case(&mut self, name: &[u8]) {
        self.judge.begin_case(name);
        self.base = Map::new(self.alloc);
        self.stuck = List::new(self.alloc);
        self.lines = List::new(self.alloc);
        self.tape_name = Vec::new(self.alloc);
        self.forget_run();
    }

    fn forget_run(&mut self) {
        self.run = Run::new(self.alloc);
        self.ran = 0;
        self.begun = false;
    }

    // Another tape over the same database and script.
    fn begin_tape(&mut self, name: &[u8]) -> Result<(), Trouble> {
        self.forget_run();
        self.tape_name = name.to_vec(self.alloc)?;
        Ok(())
    }

    fn must_be_early(&self) -> Result<(), Trouble> {
        if self.begun {
            return Err(Trouble::TooLate);
        }
        Ok(())
    }

    fn change(&mut self, change: Change) -> Result<(), Trouble> {
        self.apply(&change)
    }

    fn apply(&mut self, change: &Change) -> Result<(), Trouble> {
        apply_all(self.alloc, &mut self.base, slice::from_ref(change))?;
        Ok(())
    }

    // `t (k INT PRIMARY KEY, v INT)`
    fn add_table(&mut self, rest: &[u8]) -> Result<(), Trouble> {
        self.must_be_early()?;
        let text = behind(self.alloc, "CREATE TABLE ", rest)?;
        let statement = read_statement(self.alloc, &text)?;
        self.create(&statement)
    }

    fn create(&mut self, statement: &Statement) -> Result<(), Trouble> {
        match statement {
            Statement::Create { table, schema } => {
                let table = table.copy(self.alloc)?;
                let schema = schema.copy(self.alloc)?;
                self.change(Change::Create { table, schema })
            }
            _ => Err(Trouble::Spelling),
        }
    }

    // `t (1, 10)`
    fn add_row(&mut self, rest: &[u8]) -> Result<(), Trouble> {
        self.must_be_early()?;
        let (name, values) = split_word(rest);
        let mut text = behind(self.alloc, "INSERT INTO ", name)?;
        text.extend_from_slice(b" VALUES ")?;
        text.extend_from_slice(values)?;
        let statement = read_statement(self.alloc, &text)?;
        self.insert(&statement)
    }

    fn insert(&mut self, statement: &Statement) -> Result<(), Trouble> {
        match statement {
            Statement::Insert { table, values } => self.put_row(table, values),
            _ => Err(Trouble::Spelling),
        }
    }

    fn put_row(&mut self, table: &Name, values: &List<Value>) -> Result<(), Trouble> {
        if self.base.get(table).is_none() {
            return Err(Trouble::NoTable);
        }
        let Some(Value::Int(key)) = values.as_slice().first() else {
            return Err(Trouble::Spelling);
        };
        let key = *key;
        let table = table.copy(self.alloc)?;
        let row = Row {
            values: values.copy(self.alloc)?,
        };
        self.change(Change::Put { table, key, row })
    }

    fn add_stuck(&mut self, rest: &[u8]) -> Result<(), Trouble> {
        self.must_be_early()?;
        add_to(&mut self.stuck, read_name(self.alloc, rest)?)
    }

    fn add_line(&mut self, session: &[u8], rest: &[u8]) -> Result<(), Trouble> {
        let session = read_small(session)?;
        if session == 0 || session > 8 {
            return Err(Trouble::Spelling);
        }
        let text = rest.strip_suffix(b";").ok_or(Trouble::Spelling)?;
        let statement = read_statement(self.alloc, text)?;
        add_to(&mut self.lines, Line { session, statement })
    }

    // ---- turns

    fn begin(&mut self) -> Result<(), Trouble> {
        if self.begun {
            return Ok(());
        }
        self.run.point = self.start()?;
        self.begun = true;
        Ok(())
    }

    // The start of a run over the database.
    fn start(&self) -> Result<Point, Trouble>
        ensures { IfOk result (λ point. point ≡ at_start 0 self.now.base self.now.stuck) }
    {
        Ok(start_of(self.alloc, &self.base, &self.stuck)?)
    }

    // The lines that weren't run yet, in their order, each at a moment of its own.
    fn run_lines(&mut self) -> Result<(), Trouble> {
        self.begin()?;
        let lines = self.lines.as_slice();
        for line in lines.iter().skip(self.ran) {
            self.run.point.moment = self.run.point.moment.saturating_add(1);
            play_statement(self.alloc, lines, &mut self.run, line.session)?;
        }
        self.ran = lines.len();
        Ok(())
    }

    fn go(&mut self, rest: &[u8]) -> Result<(), Trouble> {
        self.begin()?;
        let session = read_small(rest)?;
        play_statement(self.alloc, self.lines.as_slice(), &mut self.run, session)
    }

    // `1`, or with a refusal in the place of the reply `1 refused Full 30000`
    fn act(&mut self, rest: &[u8]) -> Result<(), Trouble> {
        self.begin()?;
        let (session, rest) = split_word(rest);
        let session = read_small(session)?;
        let instead = match rest.strip_prefix(b"refused ") {
            Some(words) => Some(read_refusal(words)?),
            None if rest.is_empty() => None,
            None => return Err(Trouble::Spelling),
        };
        let lines = self.lines.as_slice();
        play_act(self.alloc, lines, &mut self.run, session, instead)
    }

    fn release(&mut self, rest: &[u8]) -> Result<(), Trouble> {
        self.begin()?;
        release(self.alloc, &mut self.run, read_name(self.alloc, rest)?)
    }

    fn set_moment(&mut self, rest: &[u8]) -> Result<(), Trouble> {
        self.begin()?;
        self.run.point.moment = read_number(rest)?;
        Ok(())
    }

    fn add_entry(&mut self, line: &[u8]) -> Result<(), Trouble> {
        let entry = read_entry(self.alloc, line)?;
        self.begin()?;
        let statement = statement_of(self.lines.as_slice(), &entry);
        add(self.alloc, &mut self.run, statement, entry)
    }

    // ---- what comes of it

    // Whether the tape is legal from the start of a run, and where it leads then.
    fn follow(&self, point: &mut Point) -> Result<bool, Trouble> {
        Ok(follow(
            self.alloc,
            &self.base,
            &self.stuck,
            self.lines.as_slice(),
            self.run.tape.entries.as_slice(),
            point,
        )?)
    }

    fn is_legal(&self) -> Result<bool, Trouble> {
        let mut point = nowhere(self.alloc);
        self.follow(&mut point)
    }

    fn verdict(&mut self, wanted: bool) -> Result<(), Trouble> {
        let legal = self.is_legal()?;
        self.judge.verdict(&self.tape_name, legal, wanted);
        Ok(())
    }

    // The transcript and the last line, with the number of undo's turns.
    fn show(&mut self, rest: &[u8]) -> Result<(), Trouble> {
        let undo_turns = match rest.strip_prefix(b"undo ") {
            Some(number) => read_number(number)?,
            None => {
                must_be_empty(rest)?;
                0
            }
        };
        let mut page = Page::new(self.alloc);
        page.add(&shown(self.alloc, &self.run.tape, &report_of(undo_turns))?);
        if !self.is_legal()? {
            page.add(b"not legal\n");
        }
        self.judge.give(&page);
        Ok(())
    }

    fn show_replies(&mut self) -> Result<(), Trouble> {
        let mut page = Page::new(self.alloc);
        self.put_replies(&mut page)?;
        self.judge.give(&page);
        Ok(())
    }

    fn put_replies(&self, page: &mut Page) -> Result<(), Trouble> {
        let mut point = self.start()?;
        put_replies(
            self.alloc,
            page,
            self.lines.as_slice(),
            &mut point.state,
            self.run.tape.entries.as_slice(),
        )
    }

    // The tables as they are committed.
    fn show_tables(&mut self) -> Result<(), Trouble> {
        let mut page = Page::new(self.alloc);
        self.put_tables(&mut page)?;
        self.judge.give(&page);
        Ok(())
    }

    fn put_tables(&self, page: &mut Page) -> Result<(), Trouble> {
        let mut point = nowhere(self.alloc);
        self.put_tables_after(page, &mut point)
    }

    fn put_tables_after(&self, page: &mut Page, point: &mut Point) -> Result<(), Trouble> {
        if !self.follow(point)? {
            page.add(b"not legal\n");
            return Ok(());
        }
        let tables = point.state.rows_at(self.alloc, point.state.answered)?;
        put_tables(page, tables.entries());
        Ok(())
    }

    fn show_state(&mut self) -> Result<(), Trouble> {
        let mut page = Page::new(self.alloc);
        self.put_state(&mut page)?;
        self.judge.give(&page);
        Ok(())
    }

    fn put_state(&self, page: &mut Page) -> Result<(), Trouble> {
        let mut point = nowhere(self.alloc);
        self.put_state_after(page, &mut point)
    }

    fn put_state_after(&self, page: &mut Page, point: &mut Point) -> Result<(), Trouble> {
        if !self.follow(point)? {
            page.add(b"not legal\n");
            return Ok(());
        }
        let copied = point.state.copy(self.alloc)?;
        put_state(page, &copied);
        if !point.state.same(&self.run.point.state) {
            page.add(b"another state than step by step\n");
        }
        Ok(())
    }

    fn show_end(&mut self, rest: &[u8]) -> Result<(), Trouble> {
        let mut page = Page::new(self.alloc);
        put_end(&mut page, rest, &self.run.tape)?;
        self.judge.give(&page);
        Ok(())
    }

    // `60`: each of the first 60 puts fails.
    fn cut(&mut self, rest: &[u8]) -> Result<(), Trouble> {
        let puts = read_number(rest)?;
        let whole = shown(self.alloc, &self.run.tape, &report_of(0))?;
        let fronts = count_fronts(self.alloc, puts, &self.run.tape, &whole)?;
        let mut page = Page::new(self.alloc);
        page.add_number("fronts ", fronts);
        page.add(b"\n");
        self.judge.give(&page);
        Ok(())
    }
}

impl Plays for Player {
    fn new(alloc: Global) -> Player {
        Player {
            alloc,
            judge: Judge::new(alloc),
            base: Map::new(alloc),
            stuck: List::new(alloc),
            lines: List::new(alloc),
            ran: 0,
            tape_name: Vec::new(alloc),
            run: Run::new(alloc),
            begun: false,
        }
    }

    fn take_line(&mut self, line: &[u8]) {
        self.judge.begin_line();
        let (word, rest) = split_word(line);
        if word == b"|".as_slice() {
            self.judge.want(rest);
            return;
        }
        self.judge.settle();
        if word.is_empty() || word == b"#".as_slice() {
            return;
        }
        let done = match step_of(word) {
            Some(step) => self.step(step, rest),
            None => self.plain_line(word, rest, line),
        };
        if let Err(why) = done {
            self.judge.tell(why);
        }
    }

    // What all lines have printed, with the counts.
    fn finish(&mut self) -> Vec<u8> {
        self.judge.settle();
        self.judge.finish().into_bytes()
    }
}
