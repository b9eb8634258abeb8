//! Files are checked, and the exit status says what was found.

ghost use Rattle.std.specs.Prelude.{◌≡◌, ◌≤◌, ◌⊎◌, ℕ, List, IfOk, OnOk, length, map, option_map, string_bytes, Some, ⊤};
ghost use Rattle.std.specs.List.{All};
ghost use Rattle.std.specs.Io.KnownBytes.{Appends};
ghost use Rattle.wasm_check_reports.specs.WasmValidateFiles.Files.{IsRead, HasRoomForAll};
ghost use Rattle.wasm_check_reports.specs.Summaries.{with_answers};
ghost use Rattle.wasm_check.specs.CountedFiles.{AreCounted};
ghost use Rattle.wasm_check.specs.PrintedReports.{IsReport, ArePrinted, AreReported};
ghost use Rattle.wasm_check.specs.ExitStatuses.{StatusTells, WereChecked, room_for};
ghost use Rattle.wasm_check.specs.Statuses.{IsWorst, status_at, status_of, status_of_error};

use crate::progress::Progress;
use crate::read::{Source, shown_name};
use std::alloc::{AllocError, Global};
use std::io::{self, Write};
use std::slice;
use wasm_check_reports::files::validator::Error;
use wasm_check_reports::files::{
    Answer, Input, Printable, STATUS_OK, STATUS_REFUSED, STATUS_TROUBLE, answer_files,
};
use wasm_check_reports::{Form, Settings, Summary, write_report, write_summary, write_unread};

/// Checks the files with these names, in order, and prints of each what is asked for. A file that
/// can't be read is told on `err` with the reason. `progress` is shown how many were checked by a
/// validator of their own. The answer is the exit status.
pub fn check_files<R: Source + AllocGlobal, W: Write, E: Write, P: Progress>(
    rt: &R,
    names: &[&str],
    settings: &Settings,
    out: &mut W,
    err: &mut E,
    progress: &mut P,
) -> u8
    ensures told { WereChecked settings.now.features
        (room_for settings.now.features settings.now.is_shared) (R.gives rt.now)
        (map (λ name. name.now) names.now) result }
    ensures silent { (result ≡ STATUS_TROUBLE → ⊥) → err.new ≡ err.old }
    ensures quiet { settings.now.form ≡ Form.Quiet → out.new ≡ out.old }
{
    match check_all(rt, names, settings, out, err, progress) {
        Ok(status) => status,
        Err(error) => {
            let error = Printable(error);
            let _printed = writeln!(err, "wasm-check: {error}");
            STATUS_TROUBLE
        }
    }
}

/// Checks files, by one validator or each by its own, as is asked for, and prints how many ended in
/// which way.
fn check_all<R: Source + AllocGlobal, W: Write, E: Write, P: Progress>(
    rt: &R,
    names: &[&str],
    settings: &Settings,
    out: &mut W,
    err: &mut E,
    progress: &mut P,
) -> io::Result<u8>
    ensures told { IfOk result (WereChecked settings.now.features
        (room_for settings.now.features settings.now.is_shared) (R.gives rt.now)
        (map (λ name. name.now) names.now)) }
    ensures silent { IfOk result (λ status. (status ≡ STATUS_TROUBLE → ⊥) → err.new ≡ err.old) }
    ensures quiet { settings.now.form ≡ Form.Quiet → out.new ≡ out.old }
{
    let mut summary = Summary::default();
    let status = check_named(rt, names, settings, &mut summary, out, err, progress)?;
    print_summary(rt.alloc(), &summary, settings, out)?;
    Ok(status)
}

/// Checks files, and counts them.
fn check_named<R: Source + AllocGlobal, W: Write, E: Write, P: Progress>(
    rt: &R,
    names: &[&str],
    settings: &Settings,
    summary: &mut Summary,
    out: &mut W,
    err: &mut E,
    progress: &mut P,
) -> io::Result<u8>
    ensures told { IfOk result (WereChecked settings.now.features
        (room_for settings.now.features settings.now.is_shared) (R.gives rt.now)
        (map (λ name. name.now) names.now)) }
    ensures silent { IfOk result (λ status. (status ≡ STATUS_TROUBLE → ⊥) → err.new ≡ err.old) }
    ensures quiet { settings.now.form ≡ Form.Quiet → out.new ≡ out.old }
{
    if settings.is_shared {
        check_group(rt, names, settings, summary, out, err)
    } else {
        check_each(rt, names, settings, summary, out, err, progress)
    }
}

/// Prints how many files ended in which way, where that is asked for.
fn print_summary<W: Write>(
    alloc: Global,
    summary: &Summary,
    settings: &Settings,
    out: &mut W,
) -> io::Result<()>
    ensures quiet { settings.now.form ≡ Form.Quiet → out.new ≡ out.old }
{
    match settings.form {
        Form::Text | Form::Json if settings.summarizes => {
            let mut text = String::new(alloc);
            write_summary(&mut text, alloc, summary, settings.form)?;
            out.write_all(text.as_bytes())
        }
        Form::Text | Form::Json | Form::Quiet => Ok(()),
    }
}

/// Checks files, each by a validator of its own.
fn check_each<R: Source + AllocGlobal, W: Write, E: Write, P: Progress>(
    rt: &R,
    names: &[&str],
    settings: &Settings,
    summary: &mut Summary,
    out: &mut W,
    err: &mut E,
    progress: &mut P,
) -> io::Result<u8>
    ensures told { IfOk result (WereChecked settings.now.features (λ _. ⊤) (R.gives rt.now)
        (map (λ name. name.now) names.now)) }
    ensures silent { IfOk result (λ status. (status ≡ STATUS_TROUBLE → ⊥) → err.new ≡ err.old) }
    ensures quiet { settings.now.form ≡ Form.Quiet → out.new ≡ out.old }
{
    let mut status = STATUS_OK;
    let mut done = 0usize;
    'names: for name in names {
        progress.show(done, names.len());
        done = done.saturating_add(1);
        let found = check_group(rt, slice::from_ref(name), settings, summary, out, err)?;
        status = worse(status, found);
    }
    Ok(status)
}

/// Checks files by one validator.
fn check_group<R: Source + AllocGlobal, W: Write, E: Write>(
    rt: &R,
    names: &[&str],
    settings: &Settings,
    summary: &mut Summary,
    out: &mut W,
    err: &mut E,
) -> io::Result<u8>
    ensures told { IfOk result (WereChecked settings.now.features
        (HasRoomForAll settings.now.features) (R.gives rt.now)
        (map (λ name. name.now) names.now)) }
    ensures silent { IfOk result (λ status. (status ≡ STATUS_TROUBLE → ⊥) → err.new ≡ err.old) }
    ensures quiet { settings.now.form ≡ Form.Quiet → out.new ≡ out.old }
{
    let mut files = Vec::with_capacity(rt.alloc(), names.len())?;
    'names: for name in names {
        match rt.read_named(name) {
            Ok(bytes) => files.push(input_of(rt.alloc(), name, bytes)?)?,
            Err(error) => {
                summary.count_unread();
                tell_unread(rt.alloc(), name, &error, settings, out, err)?;
            }
        }
    }
    let status = check_inputs(rt.alloc(), files.as_slice(), settings, summary, out, err)?;
    if files.len() < names.len() {
        return Ok(STATUS_TROUBLE);
    }
    Ok(status)
}

/// A file that was read.
fn input_of(alloc: Global, name: &str, bytes: Vec<u8>) -> Result<Input, AllocError>
    ensures read { IfOk result IsRead }
    ensures name { IfOk result (λ f. string_bytes f.name ≡ name.now) }
    ensures bytes { IfOk result (λ f. f.bytes ≡ Some bytes) }
{
    Ok(Input {
        name: String::from_str(alloc, name)?,
        bytes: Some(bytes),
    })
}

/// Says why a file could not be read.
fn tell_unread<W: Write, E: Write>(
    alloc: Global,
    name: &str,
    error: &io::Error,
    settings: &Settings,
    out: &mut W,
    err: &mut E,
) -> io::Result<()>
    ensures quiet { settings.now.form ≡ Form.Quiet → out.new ≡ out.old }
{
    let name = shown_name(name);
    let shown = Printable(name);
    let _printed = writeln!(err, "wasm-check: {shown}: {error}");
    match settings.form {
        Form::Json => print_unread(alloc, name, error, out),
        Form::Text | Form::Quiet => Ok(()),
    }
}

/// Prints why a file could not be read.
fn print_unread<W: Write>(
    alloc: Global,
    name: &str,
    error: &io::Error,
    out: &mut W,
) -> io::Result<()> {
    let mut text = String::new(alloc);
    write_unread(&mut text, alloc, name, error)?;
    out.write_all(text.as_bytes())
}

/// Checks files that were read, by one validator, prints of each what is asked for, and counts it. The
/// answer is the exit status.
pub fn check_inputs<W: Write, E: Write>(
    alloc: Global,
    files: &[Input],
    settings: &Settings,
    summary: &mut Summary,
    out: &mut W,
    err: &mut E,
) -> io::Result<u8>
    requires read { All IsRead files.now }
    ensures told { IfOk result (StatusTells settings.now.features
        (HasRoomForAll settings.now.features) files.now) }
    ensures counted { OnOk result (AreCounted settings.now.features files.now summary.old summary.new) }
    ensures printed { OnOk result (AreReported settings.now files.now
        (W.contents out.old) (W.contents out.new)) }
    ensures silent { IfOk result (λ status. (status ≡ STATUS_TROUBLE → ⊥) → err.new ≡ err.old) }
    ensures quiet { settings.now.form ≡ Form.Quiet → out.new ≡ out.old }
{
    let answers = answer_files(alloc, files, settings.features)?;
    print_wanted(alloc, files, answers.as_slice(), settings, out)?;
    count_answers(summary, files, answers.as_slice());
    let status = worst_status(answers.as_slice(), files.len());
    tell_refused_memory(status, files, answers.as_slice(), err);
    Ok(status)
}

/// Counts each file, with its answer if it has one.
fn count_answers(summary: &mut Summary, files: &[Input], answers: &[Answer<Global>])
    ensures { summary.new ≡ with_answers summary.old answers.now (length files.now) }
{
    'places: for place in 0..files.len() {
        summary.count(answers.get(place));
    }
}

/// Says for which files memory was refused, where the status is that of trouble.
fn tell_refused_memory<E: Write>(
    status: u8,
    files: &[Input],
    answers: &[Answer<Global>],
    err: &mut E,
)
    ensures silent { (status ≡ STATUS_TROUBLE → ⊥) → err.new ≡ err.old }
{
    if status != STATUS_TROUBLE {
        return;
    }
    'files: for (file, answer) in files.iter().zip(answers) {
        if status_of(answer) == STATUS_TROUBLE {
            let name = Printable(file.name.as_str());
            let _printed = writeln!(err, "wasm-check: {name}: out of memory");
        }
    }
}

/// Prints of each file what is asked for, unless nothing is.
#[tactic(auto, using(crate::proofs::PrintedReports::printings))]
fn print_wanted<W: Write>(
    alloc: Global,
    files: &[Input],
    answers: &[Answer<Global>],
    settings: &Settings,
    out: &mut W,
) -> io::Result<()>
    ensures printed { OnOk result (ArePrinted settings.now answers.now files.now
        (W.contents out.old) (W.contents out.new)) }
    ensures quiet { settings.now.form ≡ Form.Quiet → out.new ≡ out.old }
{
    match settings.form {
        Form::Quiet => Ok(()),
        Form::Text | Form::Json => print_reports(alloc, files, answers, settings, out),
    }
}

/// Prints of each file what is asked for.
fn print_reports<W: Write>(
    alloc: Global,
    files: &[Input],
    answers: &[Answer<Global>],
    settings: &Settings,
    out: &mut W,
) -> io::Result<()>
    ensures { OnOk result (ArePrinted settings.now answers.now files.now
        (W.contents out.old) (W.contents out.new)) }
{
    'files: for (place, file) in files.iter().enumerate() {
        print_report(alloc, file, answers.get(place), settings, out)?;
    }
    Ok(())
}

/// Prints of a file what is asked for.
fn print_report<W: Write>(
    alloc: Global,
    file: &Input,
    answer: Option<&Answer<Global>>,
    settings: &Settings,
    out: &mut W,
) -> io::Result<()>
    ensures { OnOk result ((text : List ℕ) × IsReport settings.now file.now
        (option_map (λ a. a.now) answer.entry) text
        × Appends (W.contents out.old) (W.contents out.new) text) }
{
    let mut text = String::new(alloc);
    write_report(&mut text, alloc, file, answer, settings)?;
    out.write_all(text.as_bytes())
}

/// The larger of two statuses.
fn worse(one: u8, other: u8) -> u8
    ensures one { one ≤ result }
    ensures other { other ≤ result }
    ensures some { (result ≡ one) ⊎ (result ≡ other) }
{
    if one < other { other } else { one }
}

/// The largest status of so many files.
fn worst_status(answers: &[Answer<Global>], count: usize) -> u8
    ensures known { result ≤ STATUS_TROUBLE }
    ensures worst { IsWorst answers.now count result }
{
    let mut worst = STATUS_OK;
    'places: for place in 0..count {
        worst = worse(worst, status_at(answers, place));
    }
    worst
}

/// The status of the file at this place. Those behind the last answer were not checked.
fn status_at(answers: &[Answer<Global>], place: usize) -> u8
    ensures { result ≡ status_at answers.now place }
{
    match answers.get(place) {
        Some(answer) => status_of(answer),
        None => STATUS_REFUSED,
    }
}

/// The status of a file with this answer.
fn status_of(answer: &Answer<Global>) -> u8
    ensures { result ≡ status_of (Some answer.now) }
{
    match answer {
        Ok(_) => STATUS_OK,
        Err(error) => status_of_error(error),
    }
}

fn status_of_error(error: &Error<Global>) -> u8
    ensures { result ≡ status_of_error error.now }
{
    match error {
        Error::Refused(_) => STATUS_REFUSED,
        Error::DuplicateExport { name: _, offset: _ } => STATUS_REFUSED,
        Error::InFunction {
            index: _,
            refusal: _,
        } => STATUS_REFUSED,
        Error::OutOfMemory => STATUS_TROUBLE,
    }
}
