//! The words on the command line of the program that runs rows: options, which begin with two dashes,
//! and behind each the words that belong to it.

use crate::files::Input;
use std::env::{self, Env};
use std::rt::Files;
use std::{fs, io};

/// Whether this option is among the words.
pub fn has_option<R: Env + AllocGlobal>(rt: &R, option: &str) -> io::Result<bool> {
    for word in env::args(rt)?.skip(1) {
        if word.as_str() == option {
            return Ok(true);
        }
    }
    Ok(false)
}

/// The words behind this option, up to the next one.
pub fn words_behind<R: Env + AllocGlobal>(rt: &R, option: &str) -> io::Result<Vec<String>> {
    let mut is_behind = false;
    let mut words = Vec::new(rt.alloc());
    for word in env::args(rt)?.skip(1) {
        if word.as_str().starts_with("--") {
            is_behind = word.as_str() == option;
        } else if is_behind {
            words.push(word)?;
        }
    }
    Ok(words)
}

/// The files that the words behind this option name, each with its text.
pub fn files_behind<R: Env + Files + AllocGlobal>(rt: &R, option: &str) -> io::Result<Vec<Input>> {
    let mut files = Vec::new(rt.alloc());
    for name in words_behind(rt, option)? {
        let text = fs::read_to_string(rt, name.as_str()).ok();
        files.push(Input { name, text })?;
    }
    Ok(files)
}
