//! JSON objects, one on each line.

ghost use Rattle.std.specs.Prelude.{◌≡◌, ◌∷◌, ◌++◌, [], OnOk, string_bytes, false, option_map, codes};
ghost use Rattle.serde_json.specs.View.{members_view};
ghost use Rattle.serde_json.specs.Data.{Data, object, string, number as number_data, unsigned, put as with_member};
ghost use Rattle.serde_json.specs.Written.{compact_text, has_float};
ghost use Rattle.wasm_check_reports.specs.Lines.{HasLine, IsVerdict, summary_data};
ghost use Rattle.wasm_check_reports.specs.Verdicts.{verdict_word};

use crate::items::{Item, Kind, SPACES, count_in, plural, singular, word_of};
use crate::places::{Place, Section, bytes_around, find_place, section_name};
use crate::summary::Summary;
use bitflags::Flags;
use serde_json::{Map, Value, put};
use std::alloc::{AllocError, Global};
use std::io;
use wasm_parser_ranges::find_function_name;
use wasm_validate_files::validator::{Error, TypesRef, WasmFeatures};
use wasm_validate_files::{Answer, Input, bytes_of, count_exports, count_imports, hint_of};

/// The members of an object that is made.
type Members = Map<String, Value>;

/// Writes the object of a file that could be read.
pub fn write_verdict(
    text: &mut String,
    alloc: Global,
    file: &Input,
    answer: Option<&Answer<Global>>,
    explains: bool,
) -> Result<(), AllocError>
    ensures { OnOk result ((d : Data) × IsVerdict (string_bytes file.now.name)
        (verdict_word (option_map (λ a. a.now) answer.entry)) d
        × HasLine d (string_bytes text.old) (string_bytes text.new)) }
{
    let mut members = Map::new(alloc);
    match answer {
        Some(Ok(types)) => put_valid(&mut members, alloc, &types.as_ref())?,
        Some(Err(error)) if !error.is_out_of_memory() => {
            put_error(&mut members, alloc, bytes_of(file), error)?;
            if explains {
                put_place(&mut members, alloc, bytes_of(file), error.offset())?;
            }
        }
        _ => {}
    }
    write_judged(
        text,
        alloc,
        members,
        file.name.as_str(),
        verdict_word(answer),
    )
}

/// The verdict of a file with this answer, or with none.
fn verdict_word<'a>(answer: Option<&Answer<Global>>) -> &'a str
    ensures { result.now ≡ verdict_word (option_map (λ a. a.now) answer.entry) }
{
    match answer {
        Some(Ok(_)) => "valid",
        Some(Err(error)) if error.is_out_of_memory() => "out of memory",
        Some(Err(_)) => "invalid",
        None => "not checked",
    }
}

/// Writes the object of a file that could not be read.
pub fn write_unread(
    text: &mut String,
    alloc: Global,
    name: &str,
    error: &io::Error,
) -> Result<(), AllocError>
    ensures { OnOk result ((d : Data) × IsVerdict name.now (codes "unreadable") d
        × HasLine d (string_bytes text.old) (string_bytes text.new)) }
{
    let mut members = Map::new(alloc);
    put_message(&mut members, alloc, error, "")?;
    write_judged(text, alloc, members, name, "unreadable")
}

/// Writes the object with these members, the name of a file and its verdict.
fn write_judged(
    text: &mut String,
    alloc: Global,
    members: Members,
    name: &str,
    word: &str,
) -> Result<(), AllocError>
    ensures { OnOk result ((d : Data) × IsVerdict name.now word.now d
        × HasLine d (string_bytes text.old) (string_bytes text.new)) }
{
    let mut members = members;
    put_text(&mut members, alloc, "file", name)?;
    put_text(&mut members, alloc, "verdict", word)?;
    write_line(text, alloc, members)
}

/// Writes the object of an item of a module.
pub fn write_item(
    text: &mut String,
    alloc: Global,
    name: &str,
    item: &Item<'_>,
) -> Result<(), AllocError> {
    let mut members = Map::new(alloc);
    put_text(&mut members, alloc, "file", name)?;
    put_item(&mut members, alloc, item)?;
    write_line(text, alloc, members)
}

fn put_item(members: &mut Members, alloc: Global, item: &Item<'_>) -> Result<(), AllocError> {
    put_text(members, alloc, "item", word_of(item.kind))?;
    put_number(members, alloc, "index", u64::from(item.index))?;
    if let Some(id) = item.id {
        put_number(members, alloc, "id", id)?;
    }
    put_names(members, alloc, item)?;
    put_text(members, alloc, "type", item.ty)
}

fn put_names(members: &mut Members, alloc: Global, item: &Item<'_>) -> Result<(), AllocError> {
    match item.kind {
        Kind::Import(space, index) => {
            put_text(members, alloc, "module", item.module)?;
            put_text(members, alloc, "name", item.name)?;
            put_text(members, alloc, "space", singular(space))?;
            put_number(members, alloc, "space_index", u64::from(index))
        }
        Kind::Export => put_text(members, alloc, "name", item.name),
        Kind::Of(_) => Ok(()),
    }
}

/// Puts what is said of a valid module.
fn put_valid(
    members: &mut Members,
    alloc: Global,
    shown: &TypesRef<'_, Global>,
) -> Result<(), AllocError> {
    let mut counts = Map::new(alloc);
    put_counts(&mut counts, alloc, shown)?;
    put(members, alloc, "counts", Value::Object(counts))
}

fn put_counts(
    counts: &mut Members,
    alloc: Global,
    shown: &TypesRef<'_, Global>,
) -> Result<(), AllocError> {
    'spaces: for space in SPACES {
        let count = count_in(shown, space);
        put_number(counts, alloc, plural(space), u64::from(count))?;
    }
    if let Some(imports) = shown.core_imports() {
        put_number(counts, alloc, "imports", count_imports(imports))?;
    }
    if let Some(exports) = shown.core_exports() {
        put_number(counts, alloc, "exports", count_exports(exports))?;
    }
    Ok(())
}

/// Puts what is said of a module that is refused.
fn put_error(
    members: &mut Members,
    alloc: Global,
    bytes: &[u8],
    error: &Error<Global>,
) -> Result<(), AllocError> {
    put_number(members, alloc, "offset", error.offset())?;
    if let Some(function) = error.function() {
        put_function(members, alloc, bytes, function)?;
    }
    put_message(members, alloc, error, hint_of(bytes))?;
    match error.missing_features() {
        Some(missing) => put_missing(members, alloc, missing),
        None => Ok(()),
    }
}

/// Puts the index of a function, and its name, if the module has one for it.
fn put_function(
    members: &mut Members,
    alloc: Global,
    bytes: &[u8],
    function: u32,
) -> Result<(), AllocError> {
    put_number(members, alloc, "function", u64::from(function))?;
    match find_function_name(alloc, bytes, function) {
        Ok(Some(name)) => put_text(members, alloc, "function_name", name),
        _ => Ok(()),
    }
}

/// Puts the names of the features that are missing.
fn put_missing(
    members: &mut Members,
    alloc: Global,
    missing: WasmFeatures,
) -> Result<(), AllocError> {
    let names = names_of(alloc, missing)?;
    put(members, alloc, "missing_features", Value::Array(names))
}

/// Puts in which section an offset is, if it is in one, and the bytes around it.
fn put_place(
    members: &mut Members,
    alloc: Global,
    bytes: &[u8],
    offset: u64,
) -> Result<(), AllocError> {
    if let Place::In(section) = find_place(bytes, offset) {
        put(members, alloc, "section", section_value(alloc, section)?)?;
    }
    put(members, alloc, "bytes", around_value(alloc, bytes, offset)?)
}

/// What is said of a section.
fn section_value(alloc: Global, section: Section) -> Result<Value, AllocError> {
    let mut place = Map::new(alloc);
    put_text(&mut place, alloc, "name", section_name(section.id))?;
    put_number(&mut place, alloc, "start", section.start)?;
    put_number(&mut place, alloc, "end", section.end)?;
    Ok(Value::Object(place))
}

/// The bytes around an offset, and where they start.
fn around_value(alloc: Global, bytes: &[u8], offset: u64) -> Result<Value, AllocError> {
    let (front, back) = bytes_around(bytes, offset);
    let start = offset.saturating_sub(front.len() as u64);
    let mut around = Map::new(alloc);
    put_number(&mut around, alloc, "start", start)?;
    put(
        &mut around,
        alloc,
        "hex",
        Value::String(hex_of(alloc, front, back)?),
    )?;
    Ok(Value::Object(around))
}

/// These bytes in hexadecimal digits, one after the other.
fn hex_of(alloc: Global, front: &[u8], back: &[u8]) -> Result<String, AllocError> {
    let mut hex = String::new(alloc);
    write_hex(&mut hex, front)?;
    write_hex(&mut hex, back)?;
    Ok(hex)
}

/// Writes two hexadecimal digits for each byte.
fn write_hex(text: &mut String, bytes: &[u8]) -> Result<(), AllocError> {
    'bytes: for byte in bytes {
        write!(text, "{byte:02x}")?;
    }
    Ok(())
}

/// Writes the object that says how many files ended in which way.
pub fn write_summary(text: &mut String, alloc: Global, summary: &Summary) -> Result<(), AllocError>
    ensures { OnOk result (string_bytes text.new
        ≡ string_bytes text.old ++ (compact_text (summary_data summary.now) ++ 10 ∷ [])) }
{
    let mut counts = Map::new(alloc);
    put_number(&mut counts, alloc, "valid", summary.valid)?;
    put_number(&mut counts, alloc, "invalid", summary.invalid)?;
    put_number(&mut counts, alloc, "not_checked", summary.not_checked)?;
    put_number(&mut counts, alloc, "failed", summary.failed)?;
    let mut members = Map::new(alloc);
    put(&mut members, alloc, "summary", Value::Object(counts))?;
    write_line(text, alloc, members)
}

/// The names of features.
fn names_of(alloc: Global, features: WasmFeatures) -> Result<Vec<Value>, AllocError> {
    let mut names = Vec::new(alloc);
    'names: for (name, _) in features.iter_names() {
        names.push(Value::String(name.to_ascii_lowercase(alloc)?))?;
    }
    Ok(names)
}

fn put_message<D: std::fmt::Display>(
    members: &mut Members,
    alloc: Global,
    error: &D,
    hint: &str,
) -> Result<(), AllocError> {
    let message = format!(in alloc; "{error}{hint}")?;
    put(members, alloc, "message", Value::String(message))
}

fn put_text(members: &mut Members, alloc: Global, key: &str, text: &str) -> Result<(), AllocError>
    ensures { OnOk result (members_view members.new.entries
        ≡ with_member key.now (string text.now) (members_view members.old.entries)) }
{
    put(members, alloc, key, Value::try_from_str(alloc, text)?)
}

fn put_number(
    members: &mut Members,
    alloc: Global,
    key: &str,
    number: u64,
) -> Result<(), AllocError>
    ensures { OnOk result (members_view members.new.entries
        ≡ with_member key.now (number_data (unsigned number)) (members_view members.old.entries)) }
{
    put(members, alloc, key, Value::from(number))
}

/// Writes an object and the end of the line.
fn write_line(text: &mut String, alloc: Global, members: Members) -> Result<(), AllocError>
    ensures exact { OnOk result (has_float (object (members_view members.entries)) ≡ false
        → string_bytes text.new
        ≡ string_bytes text.old ++ (compact_text (object (members_view members.entries)) ++ 10 ∷ [])) }
    ensures line { OnOk result (HasLine (object (members_view members.entries))
        (string_bytes text.old) (string_bytes text.new)) }
{
    let line = Value::Object(members).to_string(alloc)?;
    text.push_str(line.as_str())?;
    text.push('\n')?;
    Ok(())
}
