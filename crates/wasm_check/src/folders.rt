//! A folder stands for the files in and below it.

ghost use Rattle.std.specs.Prelude.{◌≡◌, OnOk, IfOk, map, true};
ghost use Rattle.std.specs.List.{All};
ghost use Rattle.wasm_check.specs.FoundFiles.{has_ending, IsLookedFor, HasMore, StandFor};

use crate::read::shown_name;
use std::alloc::{AllocError, Global};
use std::fs::{self, DirEntry};
use std::io::{self, ErrorKind, Write};
use std::rt::Files;
use wasm_check_reports::files::Printable;

/// The end of the names of files that are looked for in folders.
const ENDING: &str = ".wasm";

/// The files that names stand for.
#[derive(Drop)]
pub struct Found {
    /// Their names, in order.
    pub files: Vec<String>,
    /// Whether each folder could be read, and has such a file in or below it.
    pub is_whole: bool,
}

/// The files that these names stand for: a folder for those in and below it whose names end in
/// `.wasm`, by their bytes in order, and any other name for itself. Links to files count as files; links
/// to folders below are not followed, and pipes and devices not read. What can't be read is told on
/// `err`, and so is a folder without such a file. No contract says what a folder holds, since the kit has
/// no model of files; what is said is that no name is left out where all was found (`StandFor`).
///
/// # Errors
///
/// Memory is refused.
pub fn find_files<R: Files + AllocGlobal + Clone + Drop, E: Write>(
    rt: &R,
    names: &[&str],
    err: &mut E,
) -> Result<Found, AllocError>
    ensures { IfOk result (λ found. found.is_whole ≡ true
        → StandFor (map (λ name. name.now) names.now) found.files.items) }
{
    let mut found = Found {
        files: Vec::new(rt.alloc()),
        is_whole: true,
    };
    'names: for name in names {
        if is_folder(rt, name) {
            find_below(rt, name, &mut found, err)?;
        } else {
            found.files.push(String::from_str(rt.alloc(), name)?)?;
        }
    }
    Ok(found)
}

fn is_folder(rt: &impl Files, name: &str) -> bool {
    match fs::metadata(rt, name) {
        Ok(metadata) => metadata.is_dir(),
        Err(_) => false,
    }
}

/// Whether this is a file, or nothing is known of it. A pipe isn't, for which a reader would wait.
fn may_be_read(rt: &impl Files, name: &str) -> bool {
    match fs::metadata(rt, name) {
        Ok(metadata) => metadata.is_file(),
        Err(_) => true,
    }
}

/// Adds the files in and below a folder.
fn find_below<R: Files + AllocGlobal + Clone + Drop, E: Write>(
    rt: &R,
    name: &str,
    found: &mut Found,
    err: &mut E,
) -> Result<(), AllocError>
    ensures kept { found.new.is_whole ≡ true → found.old.is_whole ≡ true }
    ensures more { OnOk result (found.new.is_whole ≡ true
        → HasMore found.old.files.items found.new.files.items) }
{
    let mut files = Vec::new(rt.alloc());
    let mut folders = Vec::new(rt.alloc());
    folders.push(String::from_str(rt.alloc(), name)?)?;
    // each turn takes one of the folders
    'folders: for _ in 0..usize::MAX {
        let Some(folder) = folders.pop() else {
            break;
        };
        if let Err(error) = read_folder(rt, folder.as_str(), &mut files, &mut folders) {
            tell(err, folder.as_str(), &error);
            found.is_whole = false;
        }
    }
    if files.is_empty() && found.is_whole {
        tell(
            err,
            name,
            &"no file in it or below has a name that ends in .wasm",
        );
        found.is_whole = false;
    }
    files.sort()?;
    found.files.append(&mut files)
}

/// Whether a file of this name is looked for in folders.
#[tactic(auto, using(std::proofs::lemmas::Str::Pattern::ends_text))]
fn has_ending(name: &str) -> bool
    ensures { result ≡ has_ending name.now }
{
    name.ends_with(ENDING)
}

/// Says what is wrong with a folder.
fn tell<E: Write, D: std::fmt::Display>(err: &mut E, name: &str, problem: &D) {
    let name = Printable(shown_name(name));
    let _printed = writeln!(err, "wasm-check: {name}: {problem}");
}

/// Adds the files and the folders in a folder. Where a name isn't UTF-8 the others are added all the same.
///
/// # Errors
///
/// Where the folder can't be read, or a name in it isn't UTF-8.
fn read_folder<R: Files + AllocGlobal + Clone + Drop>(
    rt: &R,
    name: &str,
    files: &mut Vec<String>,
    folders: &mut Vec<String>,
) -> io::Result<()>
    ensures { All IsLookedFor files.old.items → All IsLookedFor files.new.items }
{
    let mut all_named = true;
    'entries: for entry in fs::read_dir(rt, name)? {
        let entry = match entry {
            Ok(entry) => entry,
            Err(error) => {
                if !is_no_text(&error) {
                    return Err(error);
                }
                all_named = false;
                continue;
            }
        };
        let path = String::from_str(rt.alloc(), entry.path().as_str())?;
        if entry.file_type()?.is_dir() {
            folders.push(path)?;
        } else if has_ending(path.as_str()) && may_be_read(rt, path.as_str()) {
            files.push(path)?;
        }
    }
    if all_named {
        return Ok(());
    }
    let message = "a name in it is not UTF-8, and what has it is left out";
    Err(io::Error::new(ErrorKind::InvalidFilename, message))
}

/// Whether a name in a folder isn't UTF-8.
fn is_no_text(error: &io::Error) -> bool {
    error.kind() == ErrorKind::InvalidFilename
}
