//! The word that stops a server.

use std::io::{BufRead, BufReader};

/// Waits until a line STOP, or the end of standard input or a fault of it, has come.
pub fn await_stop<R: AllocGlobal + Input>(rt: &R) {
    let Ok(input) = BufReader::new(rt.alloc(), rt.reader()) else {
        return;
    };
    for line in input.lines(rt.alloc()) {
        match line {
            Ok(text) if text.as_str().trim_end() != "STOP" => {}
            _ => return,
        }
    }
}
