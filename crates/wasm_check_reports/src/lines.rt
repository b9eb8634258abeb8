//! Lines that a person reads.

ghost use Rattle.std.specs.Prelude.{◌≡◌, ◌++◌, OnOk, string_bytes, option_map};
ghost use Rattle.serde_json.specs.Data.{Data};
ghost use Rattle.wasm_check_reports.specs.Lines.{IsVerdict, BeginsWithLine};
ghost use Rattle.wasm_check_reports.specs.Verdicts.{line_front, line_with, verdict_word, Begins};

use crate::items::{Item, Kind, SPACES, count_in, plural, singular, word_of, write_items};
use crate::json;
use crate::places::{Place, Section, bytes_around, find_place, section_name};
use crate::settings::{Form, Settings};
use bitflags::Flags;
use std::alloc::{AllocError, Global};
use wasm_parser_ranges::find_function_name;
use wasm_validate_files::validator::{Error, TypesRef, WasmFeatures};
use wasm_validate_files::{
    Answer, Input, Printable, bytes_of, count_exports, count_imports, hint_of,
};

/// Writes what is asked for of a file that could be read. A line that a person reads begins with the
/// file's name and the verdict, unless memory was refused for it; an object has both.
pub fn write_report(
    text: &mut String,
    alloc: Global,
    file: &Input,
    answer: Option<&Answer<Global>>,
    settings: &Settings,
) -> Result<(), AllocError>
    ensures verdict { settings.now.form ≡ Form.Text → OnOk result (Begins (string_bytes text.old
        ++ line_front settings.now.is_colored (string_bytes file.now.name) (option_map (λ a. a.now) answer.entry))
        (string_bytes text.new)) }
    ensures json { settings.now.form ≡ Form.Json → OnOk result ((d : Data) × IsVerdict
        (string_bytes file.now.name) (verdict_word (option_map (λ a. a.now) answer.entry)) d
        × BeginsWithLine d (string_bytes text.old) (string_bytes text.new)) }
    ensures quiet { settings.now.form ≡ Form.Quiet → text.new ≡ text.old }
{
    match settings.form {
        Form::Quiet => return Ok(()),
        Form::Json => json::write_verdict(text, alloc, file, answer, settings.explains)?,
        Form::Text => write_front(text, file.name.as_str(), answer, settings.is_colored)?,
    }
    // by itself, since no contract says that what displays a type only adds to a text
    let mut rest = String::new(alloc);
    write_rest(&mut rest, alloc, file, answer, settings)?;
    text.push_str(rest.as_str())
}

/// Writes the name of a file and the verdict.
fn write_front(
    text: &mut String,
    name: &str,
    answer: Option<&Answer<Global>>,
    is_colored: bool,
) -> Result<(), AllocError>
    ensures { OnOk result (string_bytes text.new ≡ string_bytes text.old
        ++ line_front is_colored name.now (option_map (λ a. a.now) answer.entry)) }
{
    match answer {
        Some(Ok(_)) => write_verdict(text, name, "32", "valid", is_colored),
        // said on the error output
        Some(Err(error)) if error.is_out_of_memory() => Ok(()),
        Some(Err(_)) => write_verdict(text, name, "31", "invalid", is_colored),
        None => write_verdict(text, name, "33", "not checked", is_colored),
    }
}

/// Writes the name of a file and a verdict, in its color where colors are asked for (ECMA-48, Select
/// Graphic Rendition).
fn write_verdict(
    text: &mut String,
    name: &str,
    color: &str,
    word: &str,
    is_colored: bool,
) -> Result<(), AllocError>
    ensures { OnOk result (string_bytes text.new ≡ string_bytes text.old
        ++ line_with is_colored name.now color.now word.now) }
{
    let name = Printable(name);
    if is_colored {
        write!(text, "{name}: \x1b[{color}m{word}\x1b[0m")
    } else {
        write!(text, "{name}: {word}")
    }
}

/// Writes what stands behind the verdict of a file, and the items of one that is valid.
fn write_rest(
    text: &mut String,
    alloc: Global,
    file: &Input,
    answer: Option<&Answer<Global>>,
    settings: &Settings,
) -> Result<(), AllocError> {
    if let Form::Text = settings.form {
        write_details(text, alloc, file, answer, settings.explains)?;
    }
    match answer {
        Some(Ok(types)) if settings.shows_items => {
            write_items(text, alloc, file, &types.as_ref(), settings.form)
        }
        _ => Ok(()),
    }
}

/// Writes what stands behind the verdict in a line that a person reads.
fn write_details(
    text: &mut String,
    alloc: Global,
    file: &Input,
    answer: Option<&Answer<Global>>,
    explains: bool,
) -> Result<(), AllocError> {
    match answer {
        Some(Ok(types)) => write_counts(text, &types.as_ref()),
        // said on the error output
        Some(Err(error)) if error.is_out_of_memory() => Ok(()),
        Some(Err(error)) => {
            write_error(text, alloc, file, error)?;
            if explains {
                write_place(text, bytes_of(file), error.offset())?;
            }
            Ok(())
        }
        None => text.push('\n'),
    }
}

/// Writes a word and how many there are.
fn write_count(text: &mut String, word: &str, count: u64) -> Result<(), AllocError> {
    write!(text, " {word} {count}")
}

/// Writes how many there are in each index space.
fn write_counts(text: &mut String, shown: &TypesRef<'_, Global>) -> Result<(), AllocError> {
    'spaces: for space in SPACES {
        write_count(text, plural(space), u64::from(count_in(shown, space)))?;
    }
    if let Some(imports) = shown.core_imports() {
        write_count(text, "imports", count_imports(imports))?;
    }
    if let Some(exports) = shown.core_exports() {
        write_count(text, "exports", count_exports(exports))?;
    }
    text.push('\n')
}

/// Writes where a module is refused, and why.
fn write_error(
    text: &mut String,
    alloc: Global,
    file: &Input,
    error: &Error<Global>,
) -> Result<(), AllocError> {
    let offset = error.offset();
    write!(text, " at {offset} (0x{offset:x})")?;
    if let Some(function) = error.function() {
        write_function(text, alloc, bytes_of(file), function)?;
    }
    write_reason(text, alloc, bytes_of(file), error)?;
    text.push('\n')
}

/// Writes the index of a function, and its name, if the module has one for it.
fn write_function(
    text: &mut String,
    alloc: Global,
    bytes: &[u8],
    function: u32,
) -> Result<(), AllocError> {
    write!(text, " in function {function}")?;
    match find_function_name(alloc, bytes, function) {
        Ok(Some(name)) => write!(text, " (named {name:?} by the module)"),
        _ => Ok(()),
    }
}

/// Writes the message of a refusal, and the features that are missing.
fn write_reason(
    text: &mut String,
    alloc: Global,
    bytes: &[u8],
    error: &Error<Global>,
) -> Result<(), AllocError> {
    let message = Printable(error);
    let hint = hint_of(bytes);
    write!(text, ": {message}{hint}")?;
    match error.missing_features() {
        Some(missing) => write_missing(text, alloc, missing),
        None => Ok(()),
    }
}

/// Writes in which section an offset is, and the bytes around it.
fn write_place(text: &mut String, bytes: &[u8], offset: u64) -> Result<(), AllocError> {
    match find_place(bytes, offset) {
        Place::Header => text.push_str("  in the header")?,
        Place::Between => text.push_str(
            "  in the id or the size of a section, or in one that is cut off",
        )?,
        Place::In(section) => write_section(text, section, offset)?,
    }
    text.push('\n')?;
    write_bytes(text, bytes, offset)
}

/// Writes the bytes around an offset, that at the offset in brackets.
fn write_bytes(text: &mut String, bytes: &[u8], offset: u64) -> Result<(), AllocError> {
    let (front, back) = bytes_around(bytes, offset);
    let start = offset.saturating_sub(front.len() as u64);
    write!(text, "  0x{start:04x}:")?;
    write_others(text, front)?;
    match back.split_first() {
        Some((byte, others)) => write_marked(text, *byte, others)?,
        None => text.push_str(" [end]")?,
    }
    text.push('\n')
}

/// Writes a section and where an offset is in it.
fn write_section(text: &mut String, section: Section, offset: u64) -> Result<(), AllocError> {
    let name = section_name(section.id);
    let at = if offset < section.end {
        "in"
    } else {
        "at the end of"
    };
    let (start, end) = (section.start, section.end);
    write!(text, "  {at} the {name} section, bytes {start} to {end}")
}

/// Writes a byte in brackets, and the others behind it.
fn write_marked(text: &mut String, byte: u8, others: &[u8]) -> Result<(), AllocError> {
    write!(text, " [{byte:02x}]")?;
    write_others(text, others)
}

fn write_others(text: &mut String, bytes: &[u8]) -> Result<(), AllocError> {
    'bytes: for byte in bytes {
        write!(text, " {byte:02x}")?;
    }
    Ok(())
}

fn write_missing(
    text: &mut String,
    alloc: Global,
    missing: WasmFeatures,
) -> Result<(), AllocError> {
    text.push_str(" (needs")?;
    'names: for (name, _) in missing.iter_names() {
        let name = name.to_ascii_lowercase(alloc)?;
        write!(text, " +{name}")?;
    }
    text.push_str(")")
}

/// Writes the line of an item of a module.
pub fn write_item(text: &mut String, name: &str, item: &Item<'_>) -> Result<(), AllocError> {
    let name = Printable(name);
    let word = word_of(item.kind);
    let index = item.index;
    write!(text, "{name}: {word} {index}")?;
    if let Some(id) = item.id {
        write!(text, " id {id}")?;
    }
    write_names(text, item)?;
    let ty = item.ty;
    writeln!(text, ": {ty}")
}

/// Writes the names of an import or an export.
fn write_names(text: &mut String, item: &Item<'_>) -> Result<(), AllocError> {
    let module = item.module;
    let name = item.name;
    match item.kind {
        Kind::Import(space, index) => {
            let word = singular(space);
            write!(text, " {word} {index} {module:?} {name:?}")
        }
        Kind::Export => write!(text, " {name:?}"),
        Kind::Of(_) => Ok(()),
    }
}
