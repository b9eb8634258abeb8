//! Runs the rows of files, and counts them.

ghost use Rattle.std.specs.Prelude.{◌≡◌, ◌<◌, ◌≤◌, ◌↔◌, true, false};

use crate::judge::{Difference, Judge};
use std::alloc::Global;
use std::io::{self, Write};

/// The exit status where every row is right.
pub const STATUS_RIGHT: u8 = 0;
/// The exit status where a row is wrong.
pub const STATUS_WRONG: u8 = 1;
/// The exit status where the program could not do its work: a file that can't be read, a row that
/// can't be read, no memory, a stream that can't be written.
pub const STATUS_TROUBLE: u8 = 2;

/// A file by its name, with its text where it could be read.
#[derive(Drop)]
pub struct Input {
    pub name: String,
    pub text: Option<String>,
}

/// What became of the rows so far.
#[derive(Clone, Copy)]
pub struct Tally {
    /// How many there were.
    pub rows: u64,
    /// How many of them were wrong.
    pub wrong: u64,
    /// Whether there was trouble.
    pub has_trouble: bool,
}

/// What became of one row.
#[derive(Clone, Copy)]
enum Outcome {
    Right,
    Wrong,
    Trouble,
}

impl Tally {
    fn new() -> Tally {
        Tally {
            rows: 0,
            wrong: 0,
            has_trouble: false,
        }
    }

    /// With one more row.
    fn with(self, outcome: Outcome) -> Tally
        ensures wrong { outcome ≡ Outcome.Wrong → 0 < result.wrong }
        ensures still_wrong { self.wrong ≤ result.wrong }
        ensures trouble { outcome ≡ Outcome.Trouble → result.has_trouble ≡ true }
        ensures still_trouble { self.has_trouble ≡ true → result.has_trouble ≡ true }
    {
        let rows = self.rows.saturating_add(1);
        match outcome {
            Outcome::Right => Tally { rows, ..self },
            Outcome::Wrong => Tally {
                rows,
                wrong: self.wrong.saturating_add(1),
                ..self
            },
            Outcome::Trouble => Tally {
                rows,
                has_trouble: true,
                ..self
            },
        }
    }

    /// The exit status: 0 only where no row was wrong and there was no trouble.
    fn status(self) -> u8
        ensures right { (result ≡ 0) ↔ (self.wrong ≡ 0) × (self.has_trouble ≡ false) }
        ensures trouble { (result ≡ 2) ↔ (self.has_trouble ≡ true) }
        ensures known { result ≤ 2 }
    {
        if self.has_trouble {
            STATUS_TROUBLE
        } else if self.wrong > 0 {
            STATUS_WRONG
        } else {
            STATUS_RIGHT
        }
    }
}

/// Prints what the program of this name could not do, and answers the status that says so.
pub fn print_error<E: Write>(err: &mut E, name: &str, message: &str) -> u8
    ensures { result ≡ 2 }
{
    let _printed = writeln!(err, "{name}: {message}");
    STATUS_TROUBLE
}

/// Judges the rows of these files, prints those that are wrong and last how many there were, and
/// answers the exit status.
pub fn run<J: Judge, W: Write, E: Write>(
    alloc: Global,
    judge: &J,
    files: &[Input],
    out: &mut W,
    err: &mut E,
) -> u8
    ensures { result ≤ 2 }
{
    let mut tally = Tally::new();
    for file in files {
        tally = run_file(alloc, judge, tally, file, out, err);
    }
    let rows = tally.rows;
    let wrong = tally.wrong;
    match writeln!(out, "{rows} rows, {wrong} wrong") {
        Ok(()) => tally.status(),
        Err(_) => STATUS_TROUBLE,
    }
}

fn run_file<J: Judge, W: Write, E: Write>(
    alloc: Global,
    judge: &J,
    tally: Tally,
    file: &Input,
    out: &mut W,
    err: &mut E,
) -> Tally {
    let name = file.name.as_str();
    match &file.text {
        Some(text) => run_lines(alloc, judge, tally, text.as_str(), out, err),
        None => {
            let program = judge.name();
            let _printed = writeln!(err, "{program}: cannot read {name}");
            Tally {
                has_trouble: true,
                ..tally
            }
        }
    }
}

/// Judges the rows among the lines of this text.
fn run_lines<J: Judge, W: Write, E: Write>(
    alloc: Global,
    judge: &J,
    before: Tally,
    text: &str,
    out: &mut W,
    err: &mut E,
) -> Tally {
    let mut tally = before;
    for line in text.lines() {
        if is_row(line) {
            tally = tally.with(run_line(alloc, judge, line, out, err));
        }
    }
    tally
}

/// Whether this line is neither blank nor a comment.
fn is_row(line: &str) -> bool {
    let line = line.trim();
    !line.is_empty() && !line.starts_with('#')
}

/// Judges one row, and prints it where it is wrong or can't be read.
fn run_line<J: Judge, W: Write, E: Write>(
    alloc: Global,
    judge: &J,
    line: &str,
    out: &mut W,
    err: &mut E,
) -> Outcome {
    match judge.judge(alloc, line) {
        Ok(None) => Outcome::Right,
        Ok(Some(difference)) => match print_difference(line, &difference, out) {
            Ok(()) => Outcome::Wrong,
            Err(_) => Outcome::Trouble,
        },
        Err(trouble) => {
            let program = judge.name();
            let what = trouble.text();
            let _printed = writeln!(err, "{program}: {what}: {line}");
            Outcome::Trouble
        }
    }
}

fn print_difference<W: Write>(
    line: &str,
    difference: &Difference<'_>,
    out: &mut W,
) -> io::Result<()> {
    let wanted = difference.wanted;
    let given = difference.given.as_str();
    writeln!(out, "wrong: {line}")?;
    writeln!(out, "  wanted {wanted}")?;
    writeln!(out, "  given  {given}")
}
