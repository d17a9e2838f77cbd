//! A file and a stream of the system that give and take a few bytes a call, and fail once in mid-way.
ghost use Rattle.std.specs.Prelude.{IsErr};

use std::alloc::Allocator;
use std::fs::{Metadata, OpenFile, OpenOptions};
use std::io::{Error, ErrorKind, Read, Result, Seek, SeekFrom, Write};
use std::rt::Files;

/// How many bytes the text has that the tests of the system's files and streams read and write.
pub const LENGTH: usize = 10_000;

/// The text's byte at a position.
pub fn text_byte(at: usize) -> u8 {
    (at % 251) as u8
}

/// A file that holds the text. It gives at most `most` bytes a read, fails once where it has given at
/// least `cut` bytes, and goes on then.
#[derive(Clone, Copy)]
pub struct ShortFile {
    pub at: usize,
    pub most: usize,
    pub cut: Option<usize>,
}

impl Read for ShortFile {
    fn read(&mut self, into: &mut [u8]) -> Result<usize> {
        if self.cut.is_some_and(|cut| cut <= self.at) {
            self.cut = None;
            return Err(Error::from(ErrorKind::BrokenPipe));
        }
        let left = LENGTH.saturating_sub(self.at);
        let count = left.min(into.len()).min(self.most);
        for offset in 0..count {
            into[offset] = text_byte(self.at.saturating_add(offset));
        }
        self.at = self.at.saturating_add(count);
        Ok(count)
    }
}

/// Takes at most `most` bytes a write, fails once where it has at least `cut` bytes, and goes on then.
#[derive(Drop)]
pub struct ShortStream {
    pub taken: Vec<u8>,
    pub most: usize,
    pub cut: Option<usize>,
}

impl Write for ShortStream {
    fn write(&mut self, piece: &[u8]) -> Result<usize> {
        if self.cut.is_some_and(|cut| cut <= self.taken.len()) {
            self.cut = None;
            return Err(Error::from(ErrorKind::BrokenPipe));
        }
        let count = piece.len().min(self.most);
        self.taken.extend_from_slice(&piece[..count])?;
        Ok(count)
    }

    fn flush(&mut self) -> Result<()> {
        Ok(())
    }
}

/// Files that have one name, `f.c`, with the text.
#[derive(Clone, Copy)]
pub struct ShortFiles(pub ShortFile);

fn unsupported<T>() -> Result<T>
    ensures { IsErr result }
{
    Err(Error::from(ErrorKind::Unsupported))
}

impl Files for ShortFiles {
    type File = ShortFile;

    type Dir = ShortFile;

    fn open_file(&self, _how: &OpenOptions, path: &str) -> Result<ShortFile> {
        if path == "f.c" {
            Ok(self.0)
        } else {
            Err(Error::from(ErrorKind::NotFound))
        }
    }

    fn open_dir(&self, _path: &str) -> Result<ShortFile> {
        unsupported()
    }

    fn metadata(&self, _path: &str) -> Result<Metadata> {
        unsupported()
    }

    fn symlink_metadata(&self, _path: &str) -> Result<Metadata> {
        unsupported()
    }

    fn copy(&self, _from: &str, _to: &str) -> Result<u64> {
        unsupported()
    }

    fn rename(&self, _from: &str, _to: &str) -> Result<()> {
        unsupported()
    }

    fn remove_file(&self, _path: &str) -> Result<()> {
        unsupported()
    }

    fn create_dir(&self, _path: &str) -> Result<()> {
        unsupported()
    }

    fn remove_dir(&self, _path: &str) -> Result<()> {
        unsupported()
    }

    fn remove_dir_all<B: Allocator>(&self, _alloc: B, _path: &str) -> Result<()> {
        unsupported()
    }
}

impl Write for ShortFile {
    fn write(&mut self, _piece: &[u8]) -> Result<usize> {
        unsupported()
    }

    fn flush(&mut self) -> Result<()> {
        unsupported()
    }
}

impl Seek for ShortFile {
    fn seek(&mut self, _to: SeekFrom) -> Result<u64> {
        unsupported()
    }
}

impl OpenFile for ShortFile {
    fn metadata(&self) -> Result<Metadata> {
        unsupported()
    }

    fn set_len(&self, _size: u64) -> Result<()> {
        unsupported()
    }

    fn sync_all(&self) -> Result<()> {
        unsupported()
    }

    fn sync_data(&self) -> Result<()> {
        unsupported()
    }
}
