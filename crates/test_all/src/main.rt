//! `test-all OPTION ..` runs what each option names, and prints what is wrong. The exit status is 0 only
//! where no row, no test and no answer to refused memory is.
//!
//! - `--modules FILE..`: rows of modules and of calls on a validator;
//! - `--bodies FILE..`: rows of bodies and of single operators;
//! - `--wrong-modules FILE..`, `--wrong-bodies FILE..`: such rows, each of which has to be judged wrong;
//! - `--body FILE..`: validates one body, which is made of the operators in the files, one file behind
//!   the other, and prints how many they are and whether it is valid; and to standard error how long
//!   that took;
//! - `--table FILE..`: makes the side table of such a body too, and prints how many entries it has; and
//!   to standard error how long both took, and validation alone;
//! - `--items FILE..`: reads the modules in the files and no more, and prints how many items their
//!   globals, element and data segments are;
//! - `--tests`: the tests by hand, as `bin/test` builds this program, and none elsewhere;
//! - `--examples`: the examples.
#![tactic(auto)]

mod bench;
mod bodies;
mod items;
mod operators;
mod row;
mod sample;
mod tests;
mod types;

use bench::{time_body, time_table};
use items::print_items;
use rows_files::{has_option, print_error};
use std::env::Env;
use std::io::{self, Write};
use std::process::ExitCode;
use std::rt::Files;
use std::time::Clock;
use tests::run_tests;

fn main(rt: HostRuntime) -> ExitCode {
    ExitCode::from(match run(&rt, &mut rt.stdout(), &mut rt.stderr()) {
        Ok(status) => status,
        Err(_) => print_error(
            &mut rt.stderr(),
            "test-all",
            "a file can't be read, or a stream can't be written",
        ),
    })
}

/// Runs what the options name. The answer is the exit status.
fn run<R: Env + Files + Clock + Print + AllocGlobal, W: Write, E: Write>(
    rt: &R,
    out: &mut W,
    err: &mut E,
) -> io::Result<u8> {
    let modules = rows_modules::run_rows(rt, out, err)?;
    let bodies = bodies::run_rows(rt, out, err)?;
    let rows = modules.max(bodies).max(run_wrong_rows(rt, out, err)?);
    time_body(rt, out, err)?;
    time_table(rt, out, err)?;
    print_items(rt, out)?;
    let tests = run_tests(rt, out)?;
    print_examples(rt)?;
    Ok(rows.max(tests))
}

/// Runs the rows each of which has to be judged wrong. The answer is the exit status.
fn run_wrong_rows<R: Env + Files + AllocGlobal, W: Write, E: Write>(
    rt: &R,
    out: &mut W,
    err: &mut E,
) -> io::Result<u8> {
    let modules = rows_modules::run_wrong_rows(rt, out, err)?;
    let bodies = bodies::run_wrong_rows(rt, out, err)?;
    Ok(modules.max(bodies))
}

/// Runs the examples that are asked for.
fn print_examples<R: Env + Print + AllocGlobal>(rt: &R) -> io::Result<()> {
    if has_option(rt, "--examples")? {
        examples::run(rt)?;
        examples_in_place::run(rt)?;
    }
    Ok(())
}
