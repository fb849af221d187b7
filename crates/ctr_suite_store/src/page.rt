// What is printed: of each case a line with its answer, and what came otherwise than is wanted.
use std::alloc::Global;

/// A page that grows. Where memory is refused a part is missing, which shows as well as a wrong answer does.
#[derive(Drop)]
pub struct Page {
    alloc: Global,
    bytes: Vec<u8>,
    wrong: u64,
}

/// A line that asks something: its number in the suite, from 1, and what it says.
#[derive(Clone, Copy)]
pub struct Asked<'a> {
    pub number: u64,
    pub text: &'a [u8],
    /// What has to be answered, behind ` = `.
    pub wanted: &'a [u8],
}

impl Page {
    pub fn new(alloc: Global) -> Page {
        Page {
            alloc,
            bytes: Vec::new(alloc),
            wrong: 0,
        }
    }

    pub fn bytes(&self) -> &[u8] {
        &self.bytes
    }

    fn put(&mut self, bytes: &[u8]) {
        let _ = self.bytes.extend_from_slice(bytes);
    }

    fn put_number(&mut self, number: u64) {
        if let Ok(text) = format!(in self.alloc; "{number}") {
            self.put(text.as_bytes());
        }
    }

    /// A line says nothing that can be done, or a case asks nothing.
    pub fn refuse_line(&mut self, number: u64, why: &[u8], line: &[u8]) {
        self.wrong = self.wrong.saturating_add(1);
        self.put(why);
        self.put(b" in line ");
        self.put_number(number);
        self.put(b": ");
        self.put(line);
        self.put(b"\n");
    }

    // Says of which line the answer is another one, and what it is.
    fn tell_otherwise(&mut self, name: &[u8], line: Asked, answer: &[u8]) {
        self.put(b"otherwise in case ");
        self.put(name);
        self.put(b", line ");
        self.put_number(line.number);
        self.put(b": ");
        self.put(line.text);
        self.put(b"\n  wanted ");
        self.put(line.wanted);
        self.put(b"\n  came   ");
        self.put(answer);
        self.put(b"\n");
    }

    /// A case is answered.
    pub fn answer(&mut self, name: &[u8], line: Asked, answer: &[u8]) {
        self.put(name);
        self.put(b": ");
        self.put(answer);
        self.put(b"\n");
        if answer != line.wanted {
            self.wrong = self.wrong.saturating_add(1);
            self.tell_otherwise(name, line, answer);
        }
    }

    /// All cases are done. How many lines went otherwise is said where there was one.
    pub fn end(&mut self) {
        if self.wrong > 0 {
            self.put_number(self.wrong);
            self.put(b" otherwise\n");
        }
    }
}
