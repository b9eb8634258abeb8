//! `wasm-check [OPTIONS] FILE..` says of each file whether it is a valid WebAssembly module.
#![tactic(auto)]

mod check;
mod features;
mod folders;
mod meter;
mod progress;
mod read;
mod suggestions;
mod words;

use anyhow::{Result, bail};
use check::check_files;
use clap::ArgMatches;
use features::select_features;
use folders::{Found, find_files};
use meter::Meter;
use std::alloc::Global;
use std::env;
use std::io::IsTerminal;
use std::process::ExitCode;
use wasm_check_reports::files::{Printable, STATUS_TROUBLE};
use wasm_check_reports::{Form, Settings};
use words::{command, end_of_help, gather_words, show_words, suggest};

fn main(rt: HostRuntime) -> ExitCode {
    match run(&rt) {
        Ok(status) => ExitCode::from(status),
        Err(error) => {
            let error = Printable(error);
            let _printed = eprintln!(rt; "wasm-check: {error}");
            ExitCode::from(STATUS_TROUBLE)
        }
    }
}

/// Does what the words on the command line ask for. The answer is the exit status.
fn run(rt: &HostRuntime) -> Result<u8> {
    let words = gather_words(rt)?;
    let end = end_of_help(rt.alloc())?;
    match command(rt.alloc(), end.as_str())?.try_get_matches_from(words.as_slice()) {
        Ok(matches) => check_as_told(rt, &matches),
        Err(_) => answer_words(rt, words.as_slice(), end.as_str()),
    }
}

/// Prints what is wrong with these words, or the help or the version that they ask for. Where the
/// answer names a word, it is written as a line shows it.
fn answer_words(rt: &HostRuntime, words: &[String], end: &str) -> Result<u8> {
    let shown = show_words(rt.alloc(), words)?;
    match command(rt.alloc(), end)?.try_get_matches_from(shown.as_slice()) {
        Ok(_) => bail!("a word has a character that is not printed"),
        Err(error) => show(rt, &error),
    }
}

/// Prints what is wrong with the words, or the help or the version that they ask for.
fn show(rt: &HostRuntime, error: &clap::Error) -> Result<u8> {
    error.print(rt)?;
    if error.use_stderr() {
        Ok(STATUS_TROUBLE)
    } else {
        Ok(0)
    }
}

/// Checks the files that the words name. The answer is the exit status.
fn check_as_told(rt: &HostRuntime, matches: &ArgMatches<'_>) -> Result<u8> {
    let names = matches.get_strs("FILE").unwrap_or(&[]);
    if names.iter().filter(|name| **name == "-").count() > 1 {
        bail!("standard input can be read only once");
    }
    let settings = settings_of(rt, matches)?;
    if !matches.get_flag("recursive") {
        return Ok(check_named(rt, names, &settings));
    }
    let Found { files, is_whole } = find_files(rt, names, &mut rt.stderr())?;
    let mut names = Vec::with_capacity(rt.alloc(), files.len())?;
    'files: for file in files.as_slice() {
        names.push(file.as_str())?;
    }
    let status = check_named(rt, names.as_slice(), &settings);
    if is_whole {
        Ok(status)
    } else {
        Ok(STATUS_TROUBLE)
    }
}

/// Checks the files with these names. Where lines don't come on a terminal, the error output says how
/// far it is, if that is one.
fn check_named(rt: &HostRuntime, names: &[&str], settings: &Settings) -> u8 {
    let is_shown = matches!(settings.form, Form::Quiet) || !rt.stdout().is_terminal();
    let mut meter = Meter::new(rt, is_shown && rt.stderr().is_terminal());
    let status = check_files(
        rt,
        names,
        settings,
        &mut rt.stdout(),
        &mut rt.stderr(),
        &mut meter,
    );
    meter.end();
    status
}

/// The error of a word that selects no features.
fn unknown_feature(alloc: Global, word: &str) -> Result<Settings> {
    let hint = suggest(alloc, word)?;
    bail!("--features: `{word}` is no feature with + or - before it; {hint}")
}

/// Whether verdicts get colors.
fn is_colored(rt: &HostRuntime, matches: &ArgMatches<'_>) -> Result<bool> {
    match matches.get_str("color").unwrap_or("auto") {
        "always" => Ok(true),
        "never" => Ok(false),
        "auto" => Ok(rt.stdout().is_terminal() && env::var(rt, "NO_COLOR").is_err()),
        word => bail!("--color: `{word}` is none of `always`, `never` and `auto`"),
    }
}

fn settings_of(rt: &HostRuntime, matches: &ArgMatches<'_>) -> Result<Settings> {
    let features = match select_features(matches.get_strs("features").unwrap_or(&[])) {
        Ok(features) => features,
        Err(word) => return unknown_feature(rt.alloc(), word),
    };
    let form = if matches.get_flag("quiet") {
        Form::Quiet
    } else if matches.get_flag("json") {
        Form::Json
    } else {
        Form::Text
    };
    Ok(Settings {
        features,
        is_shared: matches.get_flag("shared"),
        form,
        shows_items: matches.get_flag("types"),
        explains: matches.get_flag("explain"),
        summarizes: matches.get_flag("summary"),
        is_colored: is_colored(rt, matches)?,
    })
}
