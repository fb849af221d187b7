// Where a block stands.
ghost use Rattle.std.specs.Prelude.{◌≡◌, ◌+◌, ◌^◌, ◌≤◌, ◌<◌};
ghost use Rattle.ctr_home.specs.Blocks.{file_of, block_number, body_len, home_len, home_place};

use ctr_disk::File;

/// A page by its number, or the root.
#[derive(Clone, Copy, Debug, PartialEq, Eq)]
pub enum Block {
    Page(u32),
    Root,
}

/// One of the two homes of a block.
#[derive(Clone, Copy, Debug, PartialEq, Eq)]
pub enum Home {
    First,
    Second,
}

impl Block {
    /// The file that it stands in.
    pub fn file(self) -> File
        ensures { result ≡ file_of self }
    {
        match self {
            Block::Page(_) => File::Pages,
            Block::Root => File::Root,
        }
    }

    /// The number that stands in each home of it.
    pub fn number(self) -> u32
        ensures { result ≡ block_number self }
    {
        match self {
            Block::Page(page) => page,
            Block::Root => 0,
        }
    }

    /// How many bytes its body has.
    pub fn body_len(self) -> usize
        ensures { result ≡ body_len self }
    {
        match self {
            Block::Page(_) => 4096,
            Block::Root => 25,
        }
    }

    /// How many bytes each home of it has.
    pub fn home_len(self) -> usize
        ensures { result ≡ home_len self }
    {
        match self {
            Block::Page(_) => 4128,
            Block::Root => 64,
        }
    }

    /// Where a home of it begins in its file.
    pub fn at(self, home: Home) -> u64
        ensures place { result ≡ home_place self home }
        ensures low { result < 2 ^ 46 }
    {
        let first = match self {
            Block::Page(page) => page as u64 * 8256,
            Block::Root => 0,
        };
        match home {
            Home::First => first,
            Home::Second => first + self.home_len() as u64,
        }
    }
}
