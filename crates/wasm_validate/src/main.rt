//! `wasm-validate FILE...` says of each file whether it is a valid WebAssembly module.
#![tactic(auto)]

use std::process::ExitCode;
use wasm_validate_files::validate_arguments;

fn main(rt: HostRuntime) -> ExitCode {
    ExitCode::from(validate_arguments(&rt, &mut rt.stdout(), &mut rt.stderr()))
}
