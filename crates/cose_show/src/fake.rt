//! A folder of files, for tests.
use std::alloc::Allocator;
use std::cell::RefCell;
use std::fs::{Files, Metadata, OpenFile, OpenOptions};
use std::io;
use std::io::{ErrorKind, Read, SeekFrom};

/// A folder in which one name is taken. It notes each new file, and each byte that is written.
#[derive(Drop)]
pub struct Folder<'a> {
    pub noted: &'a RefCell<String>,
    /// A file of this name is there, and holds the byte 7.
    pub taken: &'a str,
    /// A new file takes so many bytes, fails once, and takes more.
    pub room: usize,
}

/// A file of the folder.
#[derive(Drop)]
pub struct OneFile<'a> {
    noted: &'a RefCell<String>,
    bytes: &'static [u8],
    left: usize,
}

fn unsupported<T>() -> io::Result<T> {
    Err(io::Error::from(ErrorKind::Unsupported))
}

fn note(noted: &RefCell<String>, text: &str) {
    if let Ok(mut noted) = noted.try_borrow_mut() {
        let _ = noted.push_str(text);
    }
}

impl<'a> io::Write for OneFile<'a> {
    fn write(&mut self, buf: &[u8]) -> io::Result<usize> {
        let taken = buf.len().min(self.left);
        self.left = if taken == 0 { 9 } else { self.left - taken };
        for byte in &buf[..taken] {
            if let Ok(mut noted) = self.noted.try_borrow_mut() {
                let _ = write!(noted, " {byte:02x}");
            }
        }
        Ok(taken)
    }

    fn flush(&mut self) -> io::Result<()> {
        Ok(())
    }
}

impl<'a> io::Read for OneFile<'a> {
    fn read(&mut self, buf: &mut [u8]) -> io::Result<usize> {
        self.bytes.read(buf)
    }
}

impl<'a> io::Seek for OneFile<'a> {
    fn seek(&mut self, _to: SeekFrom) -> io::Result<u64> {
        unsupported()
    }
}

impl<'a> OpenFile for OneFile<'a> {
    fn metadata(&self) -> io::Result<Metadata> {
        unsupported()
    }

    fn set_len(&self, _size: u64) -> io::Result<()> {
        unsupported()
    }

    fn sync_all(&self) -> io::Result<()> {
        unsupported()
    }

    fn sync_data(&self) -> io::Result<()> {
        unsupported()
    }
}

impl<'a> Files for Folder<'a> {
    type File = OneFile<'a>;

    type Dir = &'static [u8];

    fn open_file(&self, how: &OpenOptions, path: &str) -> io::Result<OneFile<'a>> {
        if how.asks_create_new() && path == self.taken {
            return Err(io::Error::from(ErrorKind::AlreadyExists));
        }
        if !how.asks_write() && path != self.taken {
            return Err(io::Error::from(ErrorKind::NotFound));
        }
        if how.asks_write() {
            note(self.noted, " ");
            note(self.noted, path);
        }
        Ok(OneFile {
            noted: self.noted,
            bytes: &[7],
            left: self.room,
        })
    }

    fn create_dir(&self, path: &str) -> io::Result<()> {
        match path == self.taken {
            true => Err(io::Error::from(ErrorKind::PermissionDenied)),
            false => Ok(()),
        }
    }

    fn open_dir(&self, _path: &str) -> io::Result<&'static [u8]> {
        unsupported()
    }

    fn metadata(&self, _path: &str) -> io::Result<Metadata> {
        unsupported()
    }

    fn symlink_metadata(&self, _path: &str) -> io::Result<Metadata> {
        unsupported()
    }

    fn copy(&self, _from: &str, _to: &str) -> io::Result<u64> {
        unsupported()
    }

    fn rename(&self, _from: &str, _to: &str) -> io::Result<()> {
        unsupported()
    }

    fn remove_file(&self, _path: &str) -> io::Result<()> {
        unsupported()
    }

    fn remove_dir(&self, _path: &str) -> io::Result<()> {
        unsupported()
    }

    fn remove_dir_all<B: Allocator>(&self, _alloc: B, _path: &str) -> io::Result<()> {
        unsupported()
    }
}
