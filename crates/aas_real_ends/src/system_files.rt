// The files of the operating system. What these make of a call is in no contract of std.
ghost use Rattle.std.specs.Prelude.{◌≡◌, None, true};
ghost use Rattle.std.specs.Fs.{new_options, with_create, with_read, with_write};

use crate::stored_file::{FileOpener, StoredFile};
use std::fs::{File, Files, OpenFile, OpenOptions};
use std::io;
use std::os::fd::AsRawFd;
use std::os::unix::fs::FileExt;

impl StoredFile for File {
    ghost name = { λ _. None };

    ghost state = { λ _. None };

    ghost is_locked = { λ _. true };

    fn length(&self) -> io::Result<u64> {
        Ok(self.metadata()?.len())
    }

    fn read_at(&self, at: u64, buf: &mut [u8]) -> io::Result<()> {
        self.read_exact_at(buf, at)
    }

    fn write_at(&mut self, at: u64, bytes: &[u8]) -> io::Result<()> {
        self.write_all_at(bytes, at)
    }

    fn sync(&mut self) -> io::Result<()> {
        self.sync_data()
    }

    fn lock(&mut self) -> io::Result<()> {
        Ok(self.try_lock()?)
    }
}

impl<F: Files<File = File>> FileOpener for F {
    type File = File;

    /// The folder is synced also where the file was there: a stop may have come right after it was made.
    fn open_or_make(&self, name: &str) -> io::Result<File> {
        let file = options().open(self, name)?;
        File::open(self, ".")?.sync_all()?;
        forget_unwritten(&file)?;
        Ok(file)
    }
}

/// Opens for reading and writing, makes what is missing, and leaves what is there.
fn options() -> OpenOptions
    ensures { result ≡ with_create (with_write (with_read new_options true) true) true }
{
    let mut options = OpenOptions::new();
    options.read(true).write(true).create(true);
    options
}

/// Has reads give what the disk has: where an earlier sync failed
/// the system may go on with bytes that were never written.
fn forget_unwritten(file: &File) -> io::Result<()> {
    let fault = libc::posix_fadvise(file.as_raw_fd(), 0, 0, libc::POSIX_FADV_DONTNEED);
    if fault == 0 {
        return Ok(());
    }
    Err(io::Error::from_raw_os_error(fault))
}
