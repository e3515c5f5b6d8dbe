//! The file that gets the trace.

ghost use Rattle.std.specs.Prelude.{◌≡◌, is_some};

use crate::fault::TraceFileFault;
use std::fs::{File, Metadata, OpenFile, OpenOptions};
use std::io::{ErrorKind, Write};
use std::rt::Files;
use std::{fs, io};

/// So many names are tried for what is written beside a file.
const MOST_NAMES: u32 = 1000;

/// A file that gets the trace.
#[derive(Drop)]
pub struct TraceFile {
    path: String,
    // What is written while the server runs, and gets the file's name at the end, so that no file is left half written.
    // None where the file itself is written: one that grows, and what is no plain file, as a device or a pipe.
    part: Option<String>,
}

impl TraceFile {
    /// Opens the file itself, which grows. What it had is still there.
    ///
    /// # Errors
    /// CannotWrite, where the system refuses it; NoMemory, where memory was refused.
    pub fn open_growing<R: AllocGlobal + Files<File = File>>(
        rt: &R,
        path: &str,
    ) -> Result<(TraceFile, File), TraceFileFault> {
        let named = TraceFile::of(rt, path, None)?;
        match grow(rt, path) {
            Ok(file) => Ok((named, file)),
            Err(why) => Err(TraceFileFault::CannotWrite(why)),
        }
    }

    /// Opens a file beside it, with a name that nobody has, for what will have its name at the end. Where it is a link,
    /// that is done to the file that it leads to.
    ///
    /// # Errors
    /// CannotWrite, where the system refuses it, or for a folder; NoMemory, where memory was refused.
    pub fn open_beside<R: AllocGlobal + Files<File = File>>(
        rt: &R,
        path: &str,
    ) -> Result<(TraceFile, File), TraceFileFault> {
        match fs::symlink_metadata(rt, path) {
            Ok(found) if found.is_symlink() => match fs::canonicalize(rt, path) {
                Ok(target) => TraceFile::open_at(rt, target.as_str()),
                Err(why) => Err(TraceFileFault::CannotWrite(why)),
            },
            _ => TraceFile::open_at(rt, path),
        }
    }

    // The same of what is no link.
    fn open_at<R: AllocGlobal + Files<File = File>>(
        rt: &R,
        path: &str,
    ) -> Result<(TraceFile, File), TraceFileFault> {
        match fs::metadata(rt, path) {
            // (of a folder the system says that it is one)
            Ok(found) if !found.is_file() => TraceFile::open_growing(rt, path),
            Ok(found) => TraceFile::create_beside(rt, path, Some(&found)),
            Err(_) => TraceFile::create_beside(rt, path, None),
        }
    }

    // A new file beside the path, which may be read and written as what was found there.
    fn create_beside<R: AllocGlobal + Files<File = File>>(
        rt: &R,
        path: &str,
        found: Option<&Metadata>,
    ) -> Result<(TraceFile, File), TraceFileFault> {
        for number in 1..MOST_NAMES {
            let name = name_beside(rt, path, number)?;
            let named = TraceFile::of(rt, path, Some(name))?;
            match create_new(rt, named.first_place(), found) {
                Ok(file) => return Ok((named, file)),
                Err(why) if why.kind() == ErrorKind::AlreadyExists => {}
                Err(why) => return Err(TraceFileFault::CannotWrite(why)),
            }
        }
        let why = io::Error::from(ErrorKind::AlreadyExists);
        Err(TraceFileFault::CannotWrite(why))
    }

    fn of<R: AllocGlobal>(
        rt: &R,
        path: &str,
        part: Option<String>,
    ) -> Result<TraceFile, TraceFileFault> {
        let path = String::from_str(rt.alloc(), path).map_err(|_| TraceFileFault::NoMemory)?;
        Ok(TraceFile { path, part })
    }

    // Where the text is written first.
    fn first_place(&self) -> &str {
        match &self.part {
            Some(name) => name.as_str(),
            None => self.path.as_str(),
        }
    }

    /// Whether it gets its name at the end, and its first line may be written once more until then.
    pub fn is_beside(&self) -> bool
        ensures { result ≡ is_some self.now.part }
    {
        self.part.is_some()
    }

    /// Writes the first line once more, over one as long, where the file hasn't its name yet.
    ///
    /// # Errors
    /// CannotWrite, where the system refuses it; nothing is left beside the file then.
    pub fn mend_first_line<R: Files<File = File>>(
        &self,
        rt: &R,
        line: &[u8],
    ) -> Result<(), TraceFileFault> {
        let Some(name) = &self.part else {
            return Ok(());
        };
        write_over(rt, name.as_str(), line).map_err(|why| {
            self.forget(rt);
            TraceFileFault::CannotWrite(why)
        })
    }

    /// Gives what was written the file's name. Where that can't be done, the file is as it was. In a frame of its own:
    /// the two names take 8 KB.
    ///
    /// # Errors
    /// CannotWrite, where the system refuses the name; nothing is left beside the file then.
    #[inline(never)]
    pub fn keep<R: Files>(&self, rt: &R) -> Result<(), TraceFileFault> {
        let Some(name) = &self.part else {
            return Ok(());
        };
        fs::rename(rt, name.as_str(), self.path.as_str()).map_err(|why| {
            self.forget(rt);
            TraceFileFault::CannotWrite(why)
        })
    }

    /// Removes what stands beside the file.
    pub fn forget<R: Files>(&self, rt: &R) {
        if let Some(name) = &self.part {
            let _ = fs::remove_file(rt, name.as_str());
        }
    }
}

// The file itself, which needn't be there yet.
fn grow<R: Files<File = File>>(rt: &R, path: &str) -> io::Result<File> {
    OpenOptions::new().write(true).create(true).open(rt, path)
}

// Writes bytes over the first of a file.
fn write_over<R: Files<File = File>>(rt: &R, path: &str, bytes: &[u8]) -> io::Result<()> {
    let mut file = OpenOptions::new().write(true).open(rt, path)?;
    file.write_all(bytes)
}

// A name beside the path: the first one with no number.
fn name_beside<R: AllocGlobal>(rt: &R, path: &str, number: u32) -> Result<String, TraceFileFault> {
    let name = if number == 1 {
        format!(in rt.alloc(); "{path}.part")
    } else {
        format!(in rt.alloc(); "{path}.{number}.part")
    };
    name.map_err(|_| TraceFileFault::NoMemory)
}

// A file of that name, where there is none.
fn create_new<R: Files<File = File>>(
    rt: &R,
    name: &str,
    found: Option<&Metadata>,
) -> io::Result<File> {
    let file = OpenOptions::new()
        .write(true)
        .create_new(true)
        .open(rt, name)?;
    if let Some(found) = found
        && let Err(fault) = file.set_permissions(found.permissions())
    {
        let _ = fs::remove_file(rt, name);
        return Err(fault);
    }
    Ok(file)
}
