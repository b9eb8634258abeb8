//! The words on the command line.

use crate::features::{Flags, WasmFeatures};
use crate::read::NO_TEXT;
use crate::suggestions::nearest_feature;
use clap::{Arg, ArgAction, Command};
use std::alloc::{AllocError, Global};
use std::env::Env;
use wasm_check_reports::files::{Printable, Word, read_words};

/// What `--help` says of features.
const FEATURES: &str =
    "Features that modules may use: `default`, `all`, `wasm3` for what the Core Specification 3.0 has, or a feature's name with + or - before it, \
as in `default,-simd,+custom_page_sizes`, from left to right behind `default`; names are in small letters, with _ or - between their words";

/// What `--help` says of opcodes that no feature which is on serves.
const OPCODES: &str =
    "An `illegal opcode` may be an operator of a feature that only `all` has: try `--features all`.";

/// What `--help` says last.
const STATUSES: &str =
    "Exit status: 0 if all files are valid, 1 if some are not, 2 if something else went wrong.";

/// How many columns a line of names may have.
const COLUMNS: usize = 78;

/// The options that take no value, each with what `--help` says of it.
const FLAGS: [(&str, &str); 6] = [
    (
        "shared",
        "Check all files by one validator, so that the ids of their types can be compared; a file that is refused for more than a body ends the list",
    ),
    ("json", "Print a JSON object on each line"),
    (
        "types",
        "Print the types of valid modules with their ids, and their imports, exports and index spaces",
    ),
    (
        "explain",
        "Print the section and the bytes at which a module is refused",
    ),
    (
        "summary",
        "Print at the end how many files ended in which way",
    ),
    ("quiet", "Print nothing on standard output"),
];

/// The words on the command line, the program's name first. Behind one that isn't UTF-8 stands [`NO_TEXT`].
pub fn gather_words<R: Env + AllocGlobal>(rt: &R) -> Result<Vec<String>, AllocError> {
    let mut words = Vec::new(rt.alloc());
    words.push(String::from_str(rt.alloc(), "wasm-check")?)?;
    'words: for word in read_words(rt)? {
        words.push(text_of(word)?)?;
    }
    Ok(words)
}

fn text_of(word: Word) -> Result<String, AllocError> {
    match word {
        Word::Path(text) => Ok(text),
        Word::NoText(mut text) => {
            text.push(NO_TEXT)?;
            Ok(text)
        }
    }
}

/// The same words as they are shown where they are wrong.
pub fn show_words(alloc: Global, words: &[String]) -> Result<Vec<String>, AllocError> {
    let mut shown = Vec::with_capacity(alloc, words.len())?;
    'words: for word in words {
        let word = Printable(word.as_str().trim_end_matches(NO_TEXT));
        shown.push(format!(in alloc; "{word}")?)?;
    }
    Ok(shown)
}

/// What `--help` says behind the options: the names of features, and the exit status.
pub fn end_of_help(alloc: Global) -> Result<String, AllocError> {
    let mut text = String::from_str(alloc, OPCODES)?;
    text.push_str("\n\n")?;
    add_features(&mut text)?;
    text.push('\n')?;
    text.push_str(STATUSES)?;
    Ok(text)
}

/// Adds the names of all features, by what has them.
fn add_features(text: &mut String) -> Result<(), AllocError> {
    let proposals = WasmFeatures::ALL.difference(WasmFeatures::STANDARD);
    let limits = <WasmFeatures as Flags>::all().difference(WasmFeatures::ALL);
    add_list(text, "Features that `default` has:", WasmFeatures::STANDARD)?;
    add_list(text, "Features that only `all` has:", proposals)?;
    add_list(text, "Features that have to be named:", limits)
}

/// Adds a line and the names of features behind it.
fn add_list(text: &mut String, line: &str, features: WasmFeatures) -> Result<(), AllocError> {
    text.push_str(line)?;
    add_names(text, features)
}

/// Adds lines with the names of these features.
fn add_names(text: &mut String, features: WasmFeatures) -> Result<(), AllocError> {
    let mut column = COLUMNS;
    'names: for (name, _) in features.iter_names() {
        column = column.saturating_add(name.len()).saturating_add(1);
        if column > COLUMNS {
            text.push_str("\n ")?;
            column = name.len().saturating_add(2);
        }
        text.push(' ')?;
        add_small_letters(text, name)?;
    }
    text.push('\n')
}

/// Adds a name in small letters.
pub fn add_small_letters(text: &mut String, name: &str) -> Result<(), AllocError> {
    'letters: for letter in name.chars() {
        text.push(letter.to_ascii_lowercase())?;
    }
    Ok(())
}

/// What is said behind a word that selects no features: the one that it most likely means.
pub fn suggest(alloc: Global, word: &str) -> Result<String, AllocError> {
    let word = word.trim_start_matches(' ');
    let name = word.trim_start_matches(['+', '-']);
    let sign = if word.starts_with('-') { '-' } else { '+' };
    let mut text = String::new(alloc);
    match nearest_feature(alloc, name)? {
        Some(feature) => add_question(&mut text, sign, feature)?,
        None => text.push_str("`wasm-check --help` lists them")?,
    }
    Ok(text)
}

/// Adds the question whether this feature with this sign is meant.
fn add_question(text: &mut String, sign: char, feature: &str) -> Result<(), AllocError> {
    write!(text, "did you mean `{sign}")?;
    add_small_letters(text, feature)?;
    text.push_str("`?")
}

/// What the command line may say. The text comes last in the help.
pub fn command<'a>(alloc: Global, end_of_help: &'a str) -> Result<Command<'a>, AllocError> {
    let mut command = Command::new(alloc, "wasm-check")
        .version("0.1.0")
        .about("Says of each file whether it is a valid WebAssembly module")
        .after_help(end_of_help)
        .arg(recursive(alloc))?
        .arg(features(alloc))?
        .arg(files(alloc))?;
    'flags: for (name, help) in FLAGS {
        command = command.arg(
            Arg::new(alloc, name)
                .long(name)
                .action(ArgAction::SetTrue)
                .help(help),
        )?;
    }
    command.arg(color(alloc))
}

fn recursive<'a>(alloc: Global) -> Arg<'a> {
    Arg::new(alloc, "recursive")
        .short('r')
        .long("recursive")
        .action(ArgAction::SetTrue)
        .help("Check the files in and below folders whose names end in .wasm")
}

fn color<'a>(alloc: Global) -> Arg<'a> {
    Arg::new(alloc, "color")
        .long("color")
        .value_name("WHEN")
        .help(
            "Color verdicts: `always`, `never`, or `auto`, where a terminal shows them and NO_COLOR is not set [default: auto]",
        )
}

fn features<'a>(alloc: Global) -> Arg<'a> {
    Arg::new(alloc, "features")
        .long("features")
        .value_name("LIST")
        .action(ArgAction::Append)
        .value_delimiter(',')
        .allow_hyphen_values(true)
        .help(FEATURES)
}

fn files<'a>(alloc: Global) -> Arg<'a> {
    Arg::new(alloc, "FILE")
        .required(true)
        .num_args(1..)
        .action(ArgAction::Append)
        .help("Files to check; - stands for standard input")
}
