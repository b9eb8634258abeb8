//! What `wasm-validate FILE...` says: of each file whether it is a valid WebAssembly module.
#![tactic(auto)]

ghost use Rattle.std.specs.Prelude.{◌≡◌, ◌≤◌, IfOk};
ghost use Rattle.wasm_validate_files.specs.Files.{IsUnread};
ghost use Rattle.wasm_validate_files.specs.Words.{IsNoText, name_of};

mod files;
mod lines;
mod printable;
mod text_format;
mod words;

use files::print_error;
pub use files::{Input, STATUS_OK, STATUS_REFUSED, STATUS_TROUBLE, answer_files, bytes_of, run};
pub use lines::{Answer, count_exports, count_imports};
pub use printable::{Printable, write_printable};
use std::alloc::AllocError;
use std::env::Env;
use std::fs;
use std::io::{self, Write};
use std::rt::Files;
pub use text_format::{hint_of, looks_like_text};
pub use wasm_validator as validator;
pub use words::{Word, read_words};

/// Reads the files that the arguments name, and validates them, as [`run`] says. The answer is the
/// exit status. What files hold is beyond a contract, so only how the call ends is said here.
pub fn validate_arguments<R: Env + Files + AllocGlobal, W: Write, E: Write>(
    rt: &R,
    out: &mut W,
    err: &mut E,
) -> u8
    ensures known { result ≤ 2 }
    ensures quiet { (result ≡ STATUS_TROUBLE → ⊥) → err.new ≡ err.old }
{
    match read_arguments(rt) {
        Ok(files) => run(rt.alloc(), files.as_slice(), out, err),
        Err(_) => print_error(err, "out of memory"),
    }
}

/// The files that the arguments name, up to the first that can't be read: that one ends everything.
/// Only memory can be refused. All words are read before the first file.
fn read_arguments<R: Env + Files + AllocGlobal>(rt: &R) -> Result<Vec<Input>, AllocError> {
    let words = read_words(rt)?;
    let mut files = Vec::with_capacity(rt.alloc(), words.len())?;
    'words: for word in words {
        let file = read_file(rt, word)?;
        let is_read = file.bytes.is_some();
        files.push(file)?;
        if !is_read {
            break;
        }
    }
    Ok(files)
}

/// The file that this word names, with what it holds where it can be read. Only memory can be
/// refused.
fn read_file<R: Files + AllocGlobal>(rt: &R, word: Word) -> Result<Input, AllocError>
    ensures named { IfOk result (λ file. file.name ≡ name_of word) }
    ensures no_text { IsNoText word → IfOk result IsUnread }
{
    match word {
        Word::NoText(name) => Ok(Input { name, bytes: None }),
        Word::Path(name) => match fs::read(rt, name.as_str()) {
            Ok(bytes) => Ok(Input {
                name,
                bytes: Some(bytes),
            }),
            Err(error) => {
                if error.kind() == io::ErrorKind::OutOfMemory {
                    return Err(AllocError);
                }
                Ok(Input { name, bytes: None })
            }
        },
    }
}
