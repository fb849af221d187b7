// What is printed.
ghost use Rattle.std.specs.Prelude.{◌≤◌, length};

use std::alloc::{AllocError, Global};

/// Bytes to be printed. Where memory was refused, it keeps that in mind, so that no call fails.
#[derive(Drop)]
pub struct Page {
    bytes: Vec<u8>,
    cut: bool,
}

impl Page {
    pub fn new(alloc: Global) -> Page {
        Page {
            bytes: Vec::new(alloc),
            cut: false,
        }
    }

    pub fn bytes(&self) -> &[u8] {
        &self.bytes
    }

    pub fn into_bytes(self) -> Vec<u8> {
        let Page { bytes, cut: _ } = self;
        bytes
    }

    pub fn is_cut(&self) -> bool {
        self.cut
    }

    pub fn put(&mut self, bytes: &[u8]) {
        if self.bytes.extend_from_slice(bytes).is_err() {
            self.cut = true;
        }
    }

    pub fn put_text(&mut self, text: Result<String, AllocError>) {
        match text {
            Ok(text) => self.put(text.as_bytes()),
            Err(_) => self.cut = true,
        }
    }

    /// A number after a name.
    pub fn put_number(&mut self, alloc: Global, name: &str, number: u64) {
        self.put_text(format!(in alloc; "{name}{number}"));
    }

    /// A blank, and a byte by its two digits in base 16.
    pub fn put_hex(&mut self, alloc: Global, byte: u8) {
        self.put_text(format!(in alloc; " {byte:02x}"));
    }

    /// A call and its file.
    pub fn put_place(&mut self, alloc: Global, call: &str, file: &str) {
        self.put_text(format!(in alloc; "{call} {file}"));
    }

    /// What a check wants, and what is there.
    pub fn put_wanted(&mut self, alloc: Global, want: u128, got: u128) {
        self.put_text(format!(in alloc; ": want {want}, got {got}\n"));
    }

    /// So many lines from the front, and the last one, of a text that has more.
    pub fn put_ends(&mut self, alloc: Global, text: &[u8], lines: u64) {
        let front = end_of_lines(text, lines);
        let last = start_of_last(text);
        if front >= last {
            self.put(text);
            return;
        }
        self.put(&text[..front]);
        self.put_number(alloc, ".. ", (last - front) as u64);
        self.put(b" bytes\n");
        self.put(&text[last..]);
    }
}

// The place after so many ends of lines.
fn end_of_lines(text: &[u8], lines: u64) -> usize
    ensures { result ≤ length text.now }
{
    let mut left = lines;
    for (at, byte) in text.iter().enumerate() {
        if left == 0 {
            return at;
        }
        if *byte == b'\n' {
            left -= 1;
        }
    }
    text.len()
}

// The place at which the last line begins.
fn start_of_last(text: &[u8]) -> usize
    ensures { result ≤ length text.now }
{
    let Some((_, front)) = text.split_last() else {
        return 0;
    };
    match front.iter().rposition(|byte| *byte == b'\n') {
        Some(at) => at + 1,
        None => 0,
    }
}
