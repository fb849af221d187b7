// What the four files hold, file by file.
ghost use Rattle.std.specs.Prelude.{◌≡◌, [], IfOk, OnOk, OnErr};
ghost use Rattle.ctr_disk.specs.Image.{content, with_content, section, write_of};

use crate::Bytes;
use ctr_types::File;
use std::alloc::{AllocError, Global};
use std::marker::Model;
use std::mem;

/// What the four files hold together.
#[derive(Drop)]
pub struct Image {
    root: Bytes,
    log_a: Bytes,
    log_b: Bytes,
    pages: Bytes,
}

impl Model for Image {
    ghost use Rattle.ctr_disk.specs.Image as image;

    ghost Value = { image.Image };

    ghost view = { λ a. record { root = a.root; log_a = a.log_a; log_b = a.log_b; pages = a.pages } };
}

impl Image {
    /// Four empty files. It takes no memory.
    pub fn new(alloc: Global) -> Image
        ensures { result ≡ record { root = []; log_a = []; log_b = []; pages = [] } }
    {
        Image {
            root: Bytes::new(alloc),
            log_a: Bytes::new(alloc),
            log_b: Bytes::new(alloc),
            pages: Bytes::new(alloc),
        }
    }

    /// The bytes of a file.
    pub fn file(&self, file: File) -> &Bytes
        ensures { result.now ≡ content file self.now }
    {
        match file {
            File::Root => &self.root,
            File::LogA => &self.log_a,
            File::LogB => &self.log_b,
            File::Pages => &self.pages,
        }
    }

    /// The same files.
    pub fn copy(&self) -> Result<Image, AllocError>
        ensures { IfOk result (λ copied. copied ≡ self.now) }
    {
        Ok(Image {
            root: self.root.copy()?,
            log_a: self.log_a.copy()?,
            log_b: self.log_b.copy()?,
            pages: self.pages.copy()?,
        })
    }

    /// Writes bytes at a place of a file, as `Bytes::write` does.
    pub fn write(
        &mut self,
        alloc: Global,
        file: File,
        at: u64,
        with: &[u8],
    ) -> Result<(), AllocError>
        ensures ok { OnOk result (self.new ≡ write_of file at with.now self.old) }
        ensures err { OnErr result (self.new ≡ self.old) }
    {
        let mut bytes = self.taken(alloc, file);
        let result = bytes.write(alloc, at, with);
        self.set(file, bytes);
        result
    }

    /// Sets the length of a file, as `Bytes::set_len` does.
    pub fn set_len(&mut self, alloc: Global, file: File, len: u64) -> Result<(), AllocError>
        ensures ok { OnOk result (self.new ≡ with_content file (section 0 len (content file self.old)) self.old) }
        ensures err { OnErr result (self.new ≡ self.old) }
    {
        let mut bytes = self.taken(alloc, file);
        let result = bytes.set_len(len);
        self.set(file, bytes);
        result
    }

    // The bytes of a file, which is empty then.
    pub(crate) fn taken(&mut self, alloc: Global, file: File) -> Bytes
        ensures bytes { result ≡ content file self.old }
        ensures left { self.new ≡ with_content file [] self.old }
    {
        let none = Bytes::new(alloc);
        match file {
            File::Root => mem::replace(&mut self.root, none),
            File::LogA => mem::replace(&mut self.log_a, none),
            File::LogB => mem::replace(&mut self.log_b, none),
            File::Pages => mem::replace(&mut self.pages, none),
        }
    }

    // Gives a file other bytes.
    pub(crate) fn set(&mut self, file: File, bytes: Bytes)
        ensures { self.new ≡ with_content file bytes self.old }
    {
        match file {
            File::Root => self.root = bytes,
            File::LogA => self.log_a = bytes,
            File::LogB => self.log_b = bytes,
            File::Pages => self.pages = bytes,
        }
    }
}
