//! Rows, each modules or calls with the answers that are wanted of them.
#![tactic(auto)]

mod answer;
mod bytes;
mod call;
mod facts;
mod form;
mod row;
mod shown;
mod text;

use row::ModuleRows;
use rows_files::{STATUS_RIGHT, WrongRows, files_behind, run};
use std::alloc::Global;
use std::env::Env;
use std::io::{self, Write};
use std::rt::Files;

/// Runs the rows of the files that stand behind `--modules`, if there are any, and tells the wrong
/// ones. The answer is the exit status.
pub fn run_rows<R: Env + Files + AllocGlobal, W: Write, E: Write>(
    rt: &R,
    out: &mut W,
    err: &mut E,
) -> io::Result<u8> {
    let files = files_behind(rt, "--modules")?;
    if files.is_empty() {
        return Ok(STATUS_RIGHT);
    }
    Ok(run(rt.alloc(), &ModuleRows, &files, out, err))
}

/// The same for the files that stand behind `--wrong-modules`, each of whose rows has to be judged
/// wrong: those are told that aren't.
pub fn run_wrong_rows<R: Env + Files + AllocGlobal, W: Write, E: Write>(
    rt: &R,
    out: &mut W,
    err: &mut E,
) -> io::Result<u8> {
    let files = files_behind(rt, "--wrong-modules")?;
    if files.is_empty() {
        return Ok(STATUS_RIGHT);
    }
    let judge = WrongRows { judge: &ModuleRows };
    Ok(run(rt.alloc(), &judge, &files, out, err))
}
