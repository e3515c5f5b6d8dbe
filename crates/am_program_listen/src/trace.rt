//! The file of a server's trace, from its opening until it has its name.

ghost use Rattle.std.specs.Prelude.{◌≡◌, ◌≢◌, IfOk, is_some, true, false, None, Ok, Err};
ghost use Rattle.am_trace_text.specs.Headers.{line_version};
ghost use Rattle.am_trace_text.specs.declared.version.Version.TheVariants.{One};

use crate::ending::remove_socket;
use crate::fault::ListenFault;
use am_program_options::Listening;
use am_trace_file::{GrowingFile, Outbox, Sending, TraceFile};
use am_trace_text::Header;
use am_trace_writer::{PieceTaker, TraceWriter};
use std::fs::File;
use std::rt::Files;
use std::sync::Wait;

/// Writes the trace to an outbox.
pub type Writer<'a, R> = TraceWriter<Sending<'a, R>>;

/// The file for the trace, where one is named. It still has what it had.
#[derive(Drop)]
pub struct OpenedTrace {
    opened: Option<OpenedFile>,
    // Whether its server stays, and so says at once that it can't be written any further.
    stays: bool,
}

#[derive(Drop)]
struct OpenedFile {
    trace: TraceFile,
    file: File,
    // The name by which it is told.
    name: String,
}

impl OpenedTrace {
    /// Opens the file that is named: that of a server that stays grows, and that of a bounded one gets its name at the
    /// end.
    ///
    /// # Errors
    /// CannotWriteTrace, where the system refuses it; NoMemory, where memory was refused.
    #[inline(never)]
    pub fn open<R: AllocGlobal + Files<File = File>>(
        rt: &R,
        listening: &Listening<'_>,
    ) -> Result<OpenedTrace, ListenFault>
        ensures named { IfOk result (λ trace. is_some trace.opened ≡ is_some listening.now.trace) }
        ensures stays { IfOk result (λ trace. trace.stays ≡ listening.now.stays) }
    {
        let opened = match listening.trace {
            Some(path) => Some(open_file(rt, path, listening.stays)?),
            None => None,
        };
        Ok(OpenedTrace {
            opened,
            stays: listening.stays,
        })
    }

    /// Removes what stands beside the file.
    pub fn forget<R: Files>(&self, rt: &R) {
        if let Some(opened) = &self.opened {
            opened.trace.forget(rt);
        }
    }

    /// Gives the outbox the file, of which all that stood in it is forgotten. Answers the file by its name.
    pub fn give_to<R: Wait>(self, rt: &R, outbox: &Outbox) -> Option<TraceFile>
        ensures { is_some result ≡ is_some self.opened }
    {
        let OpenedTrace { opened, stays } = self;
        let OpenedFile { trace, file, name } = opened?;
        let warning = stays.then_some(ListenFault::CannotWriteTrace(None).words());
        outbox.give_file(rt, GrowingFile::new(file, name, warning));
        Some(trace)
    }
}

// Opens the file of that name, which grows, or gets its name at the end.
fn open_file<R: AllocGlobal + Files<File = File>>(
    rt: &R,
    path: &str,
    grows: bool,
) -> Result<OpenedFile, ListenFault> {
    let Ok(name) = String::from_str(rt.alloc(), path) else {
        return Err(ListenFault::NoMemory);
    };
    let (trace, file) = if grows {
        TraceFile::open_growing(rt, path)?
    } else {
        TraceFile::open_beside(rt, path)?
    };
    Ok(OpenedFile { trace, file, name })
}

/// The writer of the trace, where a file is named, which has written this first line.
///
/// # Errors
/// CannotWriteTrace, where the server stays and the line can't be written; nothing is left of the socket then.
#[inline(never)]
pub fn begin_trace<'a, R: AllocGlobal + Files + Eprint + Wait>(
    rt: &'a R,
    listening: &Listening<'_>,
    outbox: &'a Outbox,
    header: Header,
) -> Result<Option<Writer<'a, R>>, ListenFault>
    requires written { line_version header ≢ One }
    ensures { IfOk result (λ writer. is_some writer ≡ is_some listening.now.trace) }
{
    if listening.trace.is_none() {
        return Ok(None);
    }
    let writer = TraceWriter::begin(rt.alloc(), Sending::new(rt, outbox), header);
    if listening.stays && writer.is_cut() {
        remove_socket(rt, listening);
        return Err(ListenFault::CannotWriteTrace(None));
    }
    Ok(Some(writer))
}

/// Removes what stands beside the file of the trace, where one is named.
pub fn forget_trace<R: Files>(rt: &R, file: Option<&TraceFile>) {
    if let Some(file) = file {
        file.forget(rt);
    }
}

/// Gives what was written the name of the file, where one is named. Before that its first line is mended, where another
/// is due than the one that it was begun with. Of a trace that is cut nothing is left.
///
/// # Errors
/// CannotWriteTrace, where the trace is cut, or the system refuses the name.
pub fn store_trace<R: Files<File = File>>(
    rt: &R,
    file: Option<&TraceFile>,
    is_cut: bool,
    begun: Header,
    due: Header,
) -> Result<(), ListenFault>
    ensures cut { is_cut ≡ true → result ≡ Err (ListenFault.CannotWriteTrace None) }
    ensures unnamed { file.entry ≡ None → is_cut ≡ false → result ≡ Ok tt }
{
    if is_cut {
        forget_trace(rt, file);
        return Err(ListenFault::CannotWriteTrace(None));
    }
    match file {
        Some(file) => {
            if due != begun {
                file.mend_first_line(rt, due.line().as_slice())?;
            }
            file.keep(rt)?;
            Ok(())
        }
        None => Ok(()),
    }
}
