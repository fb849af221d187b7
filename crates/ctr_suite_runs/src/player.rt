// Plays the lines of a suite.
use crate::meetings::meet_each;
use crate::reading::{put_bytes, put_lines, put_part};
use crate::stopped::stop_each;
use crate::sweep::{NO_DATABASE, sweep_failures, sweep_stops};
use ctr_mem_disk::Image;
use ctr_suite::{Plays, split_word};
use ctr_suite_judge::{
    Ask, Counts, Engine, Found, Ran, Right, Setup, Work, found_alone, is_printed, led_from,
    put_answered, run_words,
};
use ctr_suite_steps::{
    Page, Step, actors_in, add_line, filling, hex_bytes, name_of, number, numbers_of, root_of, set,
    split_file, split_number, step_of, words_in,
};
use ctr_types::{File, OutOfMemory, Plain};
use std::alloc::Global;
use std::marker::PhantomData;
use std::mem;

/// The status of a run that finds a damaged database.
const DAMAGED: u8 = 4;

/// How many lines of a long text are printed.
const BRIEF: u64 = 4;

/// What waits for the lines of its script.
#[derive(Clone, Copy)]
enum Waiting {
    Nothing,
    Run,
    Tokens,
    Lines,
}

/// Where a suite stands.
#[derive(Drop)]
pub struct Player<E: Engine> {
    alloc: Global,
    of: PhantomData<E>,
    page: Page,
    /// What the disk holds.
    image: Image,
    /// The next run, or the one that waits for its script's end.
    next: Setup,
    waiting: Waiting,
    brief: bool,
    /// Whether the slow machine judges the runs of this case.
    judged: bool,
    /// The last run, as it began; what was right before it and what is now; and what it counted.
    last: Setup,
    before: Right,
    right: Right,
    counts: Counts,
}

impl<E: Engine> Player<E> {
    // Does what waits.
    fn settle(&mut self) {
        let waiting = mem::replace(&mut self.waiting, Waiting::Nothing);
        let done = match waiting {
            Waiting::Nothing => Ok(()),
            Waiting::Run => self.run(),
            Waiting::Tokens => self.put_each(true),
            Waiting::Lines => self.put_each(false),
        };
        self.note(done);
        if self.page.is_cut() {
            self.page.put(b"?? out of memory\n");
        }
    }

    fn note(&mut self, done: Result<(), OutOfMemory>) {
        if done.is_err() {
            self.page.put(b"?? out of memory\n");
        }
    }

    fn refuse(&mut self, line: &[u8]) {
        self.page.put(b"?? no such step: ");
        self.page.put(line);
        self.page.put(b"\n");
    }

    fn take_step(&mut self, step: Step, line: &[u8], rest: &[u8]) {
        match self.step(step, rest) {
            Ok(Some(())) => {}
            Ok(None) => self.refuse(line),
            Err(error) => self.note(Err(error)),
        }
    }

    // None where what follows the word isn't of its form.
    fn step(&mut self, step: Step, rest: &[u8]) -> Result<Option<()>, OutOfMemory> {
        match step {
            Step::Case => self.begin_case(rest),
            Step::Brief => self.brief = true,
            Step::Unjudged => self.judged = false,
            Step::Any => self.right.least = 0,
            Step::Tokens => self.waiting = Waiting::Tokens,
            Step::Lines => self.waiting = Waiting::Lines,
            Step::Init | Step::Run | Step::Words | Step::Turns | Step::Device | Step::Root => {
                return self.begin_run(step, rest);
            }
            Step::Alter | Step::Fill | Step::Length | Step::Show => {
                return self.on_file(step, rest);
            }
            Step::After => return self.go_on_after(rest),
            Step::Counts => self.counts.put(self.alloc, &mut self.page),
            Step::Calls | Step::Answers | Step::Holds | Step::Stops | Step::Failures => {
                self.look(step)?;
            }
            Step::Record | Step::Cuts => return self.read_record(step, rest),
            Step::Generated | Step::GeneratedStops => return self.meet(step, rest),
            _ => return self.set_fault(step, rest),
        }
        Ok(Some(()))
    }

    // What is asked of the last run, or of the disk.
    fn look(&mut self, step: Step) -> Result<(), OutOfMemory> {
        match step {
            Step::Calls => self.list_calls(),
            Step::Answers => self.put_answers(),
            Step::Holds => self.put_found(),
            Step::Stops => self.sweep_stops(),
            _ => self.sweep_failures(),
        }
    }

    fn begin_case(&mut self, rest: &[u8]) {
        self.page.put(b"\ncase ");
        self.page.put(rest);
        self.page.put(b"\n");
        set(&mut self.image, Image::new(self.alloc));
        set(
            &mut self.next,
            Setup::new(self.alloc, Image::new(self.alloc)),
        );
        set(
            &mut self.last,
            Setup::new(self.alloc, Image::new(self.alloc)),
        );
        set(&mut self.right, Right::nothing(self.alloc));
        set(&mut self.before, Right::nothing(self.alloc));
        self.brief = false;
        self.judged = true;
    }

    fn begin_run(&mut self, step: Step, rest: &[u8]) -> Result<Option<()>, OutOfMemory> {
        match step {
            Step::Init => self.next.words = words_in(self.alloc, b"init d")?,
            Step::Run => self.next.words = run_words(self.alloc)?,
            Step::Words => self.next.words = words_in(self.alloc, rest)?,
            Step::Turns => match actors_in(self.alloc, rest)? {
                Some(actors) => {
                    self.next.work = Work::Turns;
                    self.next.actors = actors;
                }
                None => return Ok(None),
            },
            Step::Device => self.next.work = Work::Calls,
            _ => match root_of(self.alloc, rest)? {
                Some(root) => self.next.work = Work::WriteRoot(root),
                None => return Ok(None),
            },
        }
        self.waiting = Waiting::Run;
        Ok(Some(()))
    }

    // What fails in the next run, how much is moved at once, and what its disk has counted before.
    fn set_fault(&mut self, step: Step, rest: &[u8]) -> Result<Option<()>, OutOfMemory> {
        let Some(list) = numbers_of(self.alloc, rest)? else {
            return Ok(None);
        };
        let first = list.first().copied().unwrap_or(0);
        match step {
            Step::Disk => self.next.disk_fails = list,
            Step::Source => self.next.source_fails = list,
            Step::Sink => self.next.sink_fails = list,
            Step::Gives => self.next.taken_most = first,
            Step::Takes => self.next.put_most = first,
            Step::Clock => self.next.moment = first,
            Step::Frames => self.next.frames = first,
            _ => {
                self.next.faults = first;
                self.next.strays = list.get(1).copied().unwrap_or(0);
            }
        }
        Ok(Some(()))
    }

    // alter FILE PLACE BYTES, fill FILE PLACE COUNT BYTE, length FILE LENGTH, show FILE FROM TO
    fn on_file(&mut self, step: Step, rest: &[u8]) -> Result<Option<()>, OutOfMemory> {
        let Some((file, rest)) = split_file(rest) else {
            return Ok(None);
        };
        let Some((place, rest)) = split_number(rest) else {
            return Ok(None);
        };
        match step {
            Step::Length => self.set_length(file, place),
            Step::Show => Ok(self.show(file, place, rest)),
            Step::Fill => self.write(file, place, filling(self.alloc, rest)?),
            _ => self.write(file, place, hex_bytes(self.alloc, rest)?),
        }
    }

    fn set_length(&mut self, file: File, length: u64) -> Result<Option<()>, OutOfMemory> {
        self.image.set_len(self.alloc, file, length)?;
        Ok(Some(()))
    }

    fn show(&mut self, file: File, from: u64, rest: &[u8]) -> Option<()> {
        let to = number(rest)?;
        self.page.put(name_of(file).as_bytes());
        let bytes = self.image.file(file);
        put_part(self.alloc, &mut self.page, bytes, from, to);
        self.page.put(b"\n");
        Some(())
    }

    fn write(
        &mut self,
        file: File,
        place: u64,
        with: Option<Vec<u8>>,
    ) -> Result<Option<()>, OutOfMemory> {
        let Some(with) = with else {
            return Ok(None);
        };
        let written = self.image.write(self.alloc, file, place, &with);
        drop(with);
        written?;
        Ok(Some(()))
    }

    fn run(&mut self) -> Result<(), OutOfMemory> {
        self.begin_last()?;
        let ran = E::play(self.alloc, &self.last, Ask::Last)?;
        let taken = self.take_run(&ran);
        drop(ran);
        taken
    }

    // The run that waited becomes the last one.
    fn begin_last(&mut self) -> Result<(), OutOfMemory> {
        let next = Setup::new(self.alloc, Image::new(self.alloc));
        set(&mut self.last, mem::replace(&mut self.next, next));
        let image = self.image.copy()?;
        set(&mut self.last.image, image);
        let right = self.right.copy(self.alloc)?;
        set(&mut self.before, right);
        Ok(())
    }

    fn take_run(&mut self, ran: &Ran) -> Result<(), OutOfMemory> {
        self.tell(ran);
        self.counts = ran.seen.counts;
        if self.judged {
            self.judge(ran)?;
        }
        self.take_image(ran)?;
        if self.judged && ran.status != NO_DATABASE && ran.status != DAMAGED {
            self.narrow()?;
        }
        Ok(())
    }

    // Goes on with the image of a run.
    fn take_image(&mut self, ran: &Ran) -> Result<(), OutOfMemory> {
        if let Some(taken) = ran.seen.images.first() {
            let image = taken.image.copy()?;
            set(&mut self.image, image);
        }
        Ok(())
    }

    fn tell(&mut self, ran: &Ran) {
        if self.brief {
            self.page.put_ends(self.alloc, &ran.text, BRIEF);
        } else {
            self.page.put(&ran.text);
        }
        self.brief = false;
        if matches!(self.last.work, Work::Command | Work::Turns) {
            self.page
                .put_number(self.alloc, "status ", ran.status as u64);
            self.page.put(b"\n");
        }
    }

    // Whether what was put is what the tape, the status and the cause say, and the tape is legal; and which databases are
    // right after it.
    fn judge(&mut self, ran: &Ran) -> Result<(), OutOfMemory> {
        if !is_printed(&self.last, ran) {
            self.page.put(b"WRONG: another text was put\n");
        }
        if self.last.is_command("init") {
            return self.judge_init(ran);
        }
        if ran.tape.entries.is_empty() {
            return Ok(());
        }
        match led_from::<E>(self.alloc, &self.right, &self.last, ran)? {
            Some(right) => set(&mut self.right, right),
            None => self.page.put(b"WRONG: the tape isn't legal\n"),
        }
        Ok(())
    }

    fn judge_init(&mut self, ran: &Ran) -> Result<(), OutOfMemory> {
        if !ran.tape.entries.is_empty() {
            self.page.put(b"WRONG: the tape isn't empty\n");
        }
        if self.right.none {
            let right = Right::empty(self.alloc, ran.status != 0)?;
            set(&mut self.right, right);
        }
        Ok(())
    }

    fn found(&self) -> Result<Found, OutOfMemory> {
        found_alone::<E>(self.alloc, &self.right, &self.image)
    }

    // Which of the databases that are right the disk holds.
    fn narrow(&mut self) -> Result<(), OutOfMemory> {
        match self.found()? {
            Found::Commits(number) if self.right.has(number) => {
                self.right.least = number;
                self.right.most = number;
                self.right.none = false;
            }
            Found::Status(NO_DATABASE) if self.right.none => {}
            _ => self
                .page
                .put(b"WRONG: the disk holds no database that is right\n"),
        }
        Ok(())
    }

    // after CALLS image DIGITS
    fn go_on_after(&mut self, rest: &[u8]) -> Result<Option<()>, OutOfMemory> {
        let Some((calls, rest)) = split_number(rest) else {
            return Ok(None);
        };
        let (_image, rest) = split_word(rest);
        let Some(digits) = number(rest) else {
            return Ok(None);
        };
        let ran = E::play(self.alloc, &self.last, Ask::Stop(calls, digits))?;
        let goes_on = self.go_on_with(&ran);
        drop(ran);
        goes_on
    }

    // Any number of the last run's commits is right.
    fn go_on_with(&mut self, ran: &Ran) -> Result<Option<()>, OutOfMemory> {
        self.right.least = 0;
        self.right.most = self.right.list.len();
        self.right.none = self.before.none;
        self.take_image(ran).map(Some)
    }

    fn put_found(&mut self) -> Result<(), OutOfMemory> {
        match self.found()? {
            Found::Commits(number) => {
                self.page
                    .put_number(self.alloc, "holds commits ", number as u64);
                self.right.least = number;
                self.right.most = number;
            }
            Found::Status(status) => {
                self.page
                    .put_number(self.alloc, "holds none, status ", status as u64);
            }
            Found::Other => self.page.put(b"holds another database"),
        }
        self.page.put(b"\n");
        Ok(())
    }

    fn list_calls(&mut self) -> Result<(), OutOfMemory> {
        let ran = E::play(self.alloc, &self.last, Ask::Calls)?;
        self.page.put(ran.seen.listing.bytes());
        drop(ran);
        Ok(())
    }

    // Each commit that the last run answered, with the moment.
    fn put_answers(&mut self) -> Result<(), OutOfMemory> {
        let ran = E::play(self.alloc, &self.last, Ask::Last)?;
        put_answered(self.alloc, &mut self.page, &ran.tape);
        drop(ran);
        Ok(())
    }

    fn sweep_stops(&mut self) -> Result<(), OutOfMemory> {
        sweep_stops::<E>(
            self.alloc,
            &self.last,
            &self.right,
            self.before.none,
            &mut self.page,
        )
    }

    fn sweep_failures(&mut self) -> Result<(), OutOfMemory> {
        sweep_failures::<E>(self.alloc, &mut self.last, &self.before, &mut self.page)
    }

    // The tokens of each line, or whether it is a script.
    fn put_each(&mut self, is_tokens: bool) -> Result<(), OutOfMemory> {
        let next = Setup::new(self.alloc, Image::new(self.alloc));
        let setup = mem::replace(&mut self.next, next);
        let done = put_lines(self.alloc, &mut self.page, is_tokens, &setup.script);
        drop(setup);
        done
    }

    // generated FROM TO LEAST, generated-stops FROM TO SESSIONS
    fn meet(&mut self, step: Step, rest: &[u8]) -> Result<Option<()>, OutOfMemory> {
        let Some((from, rest)) = split_number(rest) else {
            return Ok(None);
        };
        let Some((to, rest)) = split_number(rest) else {
            return Ok(None);
        };
        let Some(last) = number(rest) else {
            return Ok(None);
        };
        let numbers = (from, to);
        let (image, right) = (&self.image, &self.right);
        if step == Step::Generated {
            meet_each::<E>(self.alloc, image, right, numbers, last, &mut self.page)?;
        } else {
            stop_each::<E>(self.alloc, image, right, numbers, last, &mut self.page)?;
        }
        Ok(Some(()))
    }

    fn read_record(&mut self, step: Step, rest: &[u8]) -> Result<Option<()>, OutOfMemory> {
        put_bytes(self.alloc, &mut self.page, step == Step::Cuts, rest)
    }
}

impl<E: Engine> Plays for Player<E> {
    fn new(alloc: Global) -> Player<E> {
        Player {
            alloc,
            of: PhantomData,
            page: Page::new(alloc),
            image: Image::new(alloc),
            next: Setup::new(alloc, Image::new(alloc)),
            waiting: Waiting::Nothing,
            brief: false,
            judged: true,
            last: Setup::new(alloc, Image::new(alloc)),
            before: Right::nothing(alloc),
            right: Right::nothing(alloc),
            counts: Counts {
                calls: 0,
                faults: 0,
                strays: 0,
                starved: 0,
                moment: 0,
            },
        }
    }

    fn take_line(&mut self, line: &[u8]) {
        let (word, rest) = split_word(line);
        if word.first() == Some(&b'|') {
            match add_line(self.alloc, &mut self.next.script, word, rest) {
                Ok(Some(())) => {}
                Ok(None) => self.refuse(line),
                Err(_) => self.note(Err(OutOfMemory)),
            }
            return;
        }
        self.settle();
        if word.is_empty() || word == b"#".as_slice() {
            return;
        }
        match step_of(word) {
            Some(step) => self.take_step(step, line, rest),
            None => self.refuse(line),
        }
    }

    fn finish(&mut self) -> Vec<u8> {
        self.settle();
        mem::replace(&mut self.page, Page::new(self.alloc)).into_bytes()
    }
}
