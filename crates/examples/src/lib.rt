//! How the validator is used, a file for each kind of user.
#![tactic(auto)]

mod dump;
mod gate;
mod heights;
mod inspection;
mod interning;
mod interpreter;
mod linker;
mod own_look_ups;
mod proved_linker;
mod refusals;

use std::io;

/// Runs each example.
pub fn run<R: Print + AllocGlobal>(rt: &R) -> io::Result<()> {
    gate::run(rt)?;
    interpreter::run(rt)?;
    linker::run(rt)?;
    proved_linker::run(rt)?;
    run_inspections(rt)?;
    own_look_ups::run(rt)?;
    interning::run(rt)?;
    dump::run(rt)
}

/// Runs those that look into modules and bodies.
fn run_inspections<R: Print + AllocGlobal>(rt: &R) -> io::Result<()> {
    inspection::run(rt)?;
    inspection::print_types(rt)?;
    heights::run(rt)?;
    heights::print_refused_body(rt)
}
