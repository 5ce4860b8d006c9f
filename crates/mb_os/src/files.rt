//! A file of the system as a disk.

ghost use Rattle.std.specs.Prelude.{◌≡◌, ◌≤◌, None};
ghost use Rattle.mb_edge.specs.Faults.{one_more};

use crate::telling::tell;
use mb_edge::{Disk, Failed};
use std::fmt::Display;
use std::fs::{File, Files, OpenOptions, TryLockError};
use std::io;
use std::io::{Eprint, ErrorKind};
use std::os::unix::fs::FileExt;
use std::path::Path;

/// A file. It tells nothing of its content.
///
/// While it is open nobody else can open it as a disk: it has the file's lock, which ends with it, and with its process, however that ends.
#[derive(Drop)]
pub struct FileDisk<R> {
    rt: R,
    file: Option<File>,
    faults: u64,
}

impl<R> FileDisk<R> {
    /// A disk that is not open yet. Until then its other calls fail.
    pub fn new(rt: R) -> FileDisk<R>
        ensures { result.faults ≡ 0 }
    {
        FileDisk {
            rt,
            file: None,
            faults: 0,
        }
    }

    /// Counts a fault.
    fn count_fault(&mut self) -> Failed
        ensures failed { result ≡ Failed.Device }
        ensures counted { self.new.faults ≡ one_more self.old.faults }
        ensures later { self.old.faults ≤ self.new.faults }
    {
        self.faults = self.faults.saturating_add(1);
        Failed::Device
    }
}

impl<R: Eprint> FileDisk<R> {
    /// Counts a fault, and tells it.
    fn failed<D: Display + Drop>(&mut self, what: D, cause: &io::Error) -> Failed
        ensures failed { result ≡ Failed.Device }
        ensures counted { self.new.faults ≡ one_more self.old.faults }
        ensures later { self.old.faults ≤ self.new.faults }
    {
        tell(&self.rt, what, cause);
        self.count_fault()
    }
}

/// Opens a file, and takes its lock. One that isn't there is made. Where it has no bytes yet, its folder is synced, so that a crash leaves its name.
fn opened<R: Files<File = File>>(rt: &R, path: &str) -> io::Result<File> {
    let file = OpenOptions::new()
        .read(true)
        .write(true)
        .create(true)
        .open(rt, path)?;
    lock(&file)?;
    if file.metadata()?.len() == 0 {
        sync_folder_of(rt, path)?;
    }
    Ok(file)
}

/// Takes the lock of a file. It is an error where another open of the file has it.
fn lock(file: &File) -> io::Result<()> {
    match file.try_lock() {
        Ok(()) => Ok(()),
        Err(TryLockError::WouldBlock) => Err(io::Error::new(
            ErrorKind::WouldBlock,
            "a node or another program has it open",
        )),
        Err(TryLockError::Error(error)) => Err(error),
    }
}

/// Syncs the folder of a file.
fn sync_folder_of<R: Files<File = File>>(rt: &R, path: &str) -> io::Result<()> {
    let whole = Path::new(path);
    let folder = match whole.parent() {
        Some(folder) if !folder.to_string_lossy().is_empty() => folder,
        _ => Path::new("."),
    };
    File::open(rt, folder)?.sync_all()
}

impl<R: Files<File = File> + Eprint> Disk for FileDisk<R> {
    ghost use Rattle.mb_edge.specs.DiskLaws.{untold};
    ghost use Rattle.mb_edge.specs.Seen.{disk_state};

    ghost seen = { λ d. disk_state None d.faults };

    ghost reads_back = { λ d m is. untold m is };

    /// A file that it had open is closed before.
    fn open(&mut self, path: &str) -> Result<(), Failed> {
        self.file = None;
        match opened(&self.rt, path) {
            Ok(file) => {
                self.file = Some(file);
                Ok(())
            }
            Err(cause) => Err(self.failed(format_args!("the disk failed: {path}"), &cause)),
        }
    }

    fn len(&mut self) -> Result<u64, Failed> {
        let Some(file) = &self.file else {
            return Err(self.count_fault());
        };
        match file.metadata() {
            Ok(metadata) => Ok(metadata.len()),
            Err(cause) => Err(self.failed("the disk failed", &cause)),
        }
    }

    fn read_at(&mut self, at: u64, into: &mut [u8]) -> Result<usize, Failed> {
        let Some(file) = &self.file else {
            return Err(self.count_fault());
        };
        match file.read_at(into, at) {
            Ok(count) => Ok(count),
            Err(cause) => Err(self.failed("the disk failed", &cause)),
        }
    }

    fn write_at(&mut self, at: u64, from: &[u8]) -> Result<(), Failed> {
        let Some(file) = &self.file else {
            return Err(self.count_fault());
        };
        match file.write_all_at(from, at) {
            Ok(()) => Ok(()),
            Err(cause) => Err(self.failed("the disk failed", &cause)),
        }
    }

    fn sync(&mut self) -> Result<(), Failed> {
        let Some(file) = &self.file else {
            return Err(self.count_fault());
        };
        match file.sync_all() {
            Ok(()) => Ok(()),
            Err(cause) => Err(self.failed("the disk failed", &cause)),
        }
    }
}
