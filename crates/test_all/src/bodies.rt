//! Rows, each a function's body with the answer that is wanted of it, over one sample of types,
//! functions, tables and the like, or a single operator with what it is.

use crate::row::{BodyRows, NAME};
use crate::sample::Sample;
use rows_files::{STATUS_RIGHT, WrongRows, files_behind, print_error, run};
use std::alloc::Global;
use std::env::Env;
use std::io::{self, Write};
use std::rt::Files;

/// Runs the rows of the files that stand behind `--bodies`, if there are any, and tells the wrong
/// ones. The answer is the exit status.
pub fn run_rows<R: Env + Files + AllocGlobal, W: Write, E: Write>(
    rt: &R,
    out: &mut W,
    err: &mut E,
) -> io::Result<u8> {
    let files = files_behind(rt, "--bodies")?;
    if files.is_empty() {
        return Ok(STATUS_RIGHT);
    }
    match Sample::new(rt.alloc()) {
        Ok(sample) => Ok(run(rt.alloc(), &BodyRows { sample }, &files, out, err)),
        Err(trouble) => Ok(print_error(err, NAME, trouble.text())),
    }
}

/// The same for the files that stand behind `--wrong-bodies`, each of whose rows has to be judged
/// wrong: those are told that aren't.
pub fn run_wrong_rows<R: Env + Files + AllocGlobal, W: Write, E: Write>(
    rt: &R,
    out: &mut W,
    err: &mut E,
) -> io::Result<u8> {
    let files = files_behind(rt, "--wrong-bodies")?;
    if files.is_empty() {
        return Ok(STATUS_RIGHT);
    }
    match Sample::new(rt.alloc()) {
        Ok(sample) => {
            let judge = BodyRows { sample };
            Ok(run(rt.alloc(), &WrongRows { judge: &judge }, &files, out, err))
        }
        Err(trouble) => Ok(print_error(err, NAME, trouble.text())),
    }
}
