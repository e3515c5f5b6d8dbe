//! The file of a trace that grows while its server runs.

use am_line_sink::Failed;
use std::fs::File;
use std::io::Write;

/// A file that gets whole pieces: of one that can't be written whole nothing is left, where the file can be cut. It
/// says why it can't be written.
#[derive(Drop)]
pub struct GrowingFile {
    name: String,
    file: File,
    len: u64,
    // What is said then too, where the server doesn't say it at its end.
    warning: Option<&'static str>,
}

impl GrowingFile {
    /// The file, of which all that stood in it is forgotten. A device keeps what it is.
    pub fn new(file: File, name: String, warning: Option<&'static str>) -> GrowingFile {
        let _ = file.set_len(0);
        GrowingFile {
            name,
            file,
            len: 0,
            warning,
        }
    }

    /// Writes a piece after the others.
    ///
    /// # Errors
    /// Failed, where it could not be written whole.
    pub fn write<R: Eprint>(&mut self, rt: &R, piece: &[u8]) -> Result<(), Failed> {
        if let Err(fault) = self.file.write_all(piece) {
            let _ = self.file.set_len(self.len);
            let _ = eprintln!(rt; "amserve: {}: {fault}", self.name);
            if let Some(warning) = self.warning {
                let _ = eprintln!(rt; "{warning}");
            }
            return Err(Failed);
        }
        self.len = self.len.saturating_add(piece.len() as u64);
        Ok(())
    }
}
