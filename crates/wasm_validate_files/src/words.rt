//! The words on the command line. `env::args` refuses all of them where one isn't UTF-8, so they
//! are read one at a time.

ghost use Rattle.std.specs.Prelude.{IfOk};
ghost use Rattle.wasm_validate_files.specs.Words.{IsWordOf};

use std::alloc::{AllocError, Global};
use std::env::{Env, FillError};

/// How many bytes of a word are asked for at first.
const FIRST_SIZE: usize = 256;

/// A word on the command line.
#[derive(Drop)]
pub enum Word {
    /// The path of a file.
    Path(String),
    /// One that isn't UTF-8, by its place: no file is looked for.
    NoText(String),
}

/// The words behind the program's name. Only memory can be refused. No contract says which words these
/// are, since the kit has no model of a command line.
pub fn read_words<R: Env + AllocGlobal>(rt: &R) -> Result<Vec<Word>, AllocError> {
    let mut words = Vec::new(rt.alloc());
    'places: for place in 1..usize::MAX {
        match read_bytes(rt, place)? {
            Some(bytes) => words.push(word_of(rt.alloc(), place, bytes)?)?,
            None => break,
        }
    }
    Ok(words)
}

/// The bytes of the word at this place, and nothing behind the last one. They are read into a
/// buffer that is doubled until it holds them.
fn read_bytes<R: Env + AllocGlobal>(rt: &R, place: usize) -> Result<Option<Vec<u8>>, AllocError> {
    let mut bytes = Vec::new(rt.alloc());
    let mut size = FIRST_SIZE;
    'sizes: for _ in 0..usize::BITS {
        bytes.resize(size, 0u8)?;
        match rt.arg(place, bytes.as_mut_slice()) {
            Ok(length) => {
                bytes.truncate(length);
                return Ok(Some(bytes));
            }
            Err(FillError::NotPresent) => return Ok(None),
            Err(FillError::TooLong) => size = size.saturating_add(size),
        }
    }
    Err(AllocError)
}

fn word_of(alloc: Global, place: usize, bytes: Vec<u8>) -> Result<Word, AllocError>
    ensures { IfOk result (IsWordOf bytes.items) }
{
    match String::from_utf8(bytes) {
        Ok(path) => Ok(Word::Path(path)),
        Err(_) => Ok(Word::NoText(format!(in alloc; "argument {place}")?)),
    }
}
