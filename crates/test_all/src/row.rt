use crate::operators::{OPERATOR, judge_operator};
use crate::sample::Sample;
use examples_in_place::side_table::{FuncToValidate, FuncValidatorAllocations};
use examples_own_module::OwnModule;
use rows_files::{
    Difference, Judge, NOT, Trouble, name_of, parse_digits, parse_features, take_part,
};
use std::alloc::{AllocError, Global};
use std::fmt::Display;
use wasm_parser::FunctionBody;
use wasm_readers::{BinaryReader, Error};
use wasm_readers_errors::WasmFeatures;

/// What messages about rows of bodies and operators begin with.
pub const NAME: &str = "rows of bodies";

/// What judges rows of bodies and operators, with its sample.
#[derive(Drop)]
pub struct BodyRows {
    pub sample: Sample,
}

impl Judge for BodyRows {
    fn name(&self) -> &'static str {
        NAME
    }

    fn judge<'a>(&self, alloc: Global, line: &'a str) -> Result<Option<Difference<'a>>, Trouble> {
        match line.strip_prefix(OPERATOR) {
            Some(row) => judge_operator(alloc, row),
            None => judge(alloc, &self.sample, line),
        }
    }
}

/// A row: the features, the index of the function's type, its body, and the answer that is wanted.
#[derive(Clone, Copy)]
struct Row<'a> {
    features: &'a str,
    type_index: &'a str,
    body: &'a str,
    wanted: &'a str,
}

impl<'a> Row<'a> {
    /// The row that this line is.
    fn of(line: &'a str) -> Result<Row<'a>, Trouble> {
        let mut rest = line;
        take_part(&mut rest, "a row without features")?;
        let features = take_part(&mut rest, "a row without a type")?;
        let type_index = take_part(&mut rest, "a row without a body")?;
        let body = take_part(&mut rest, "a body without a wanted answer")?;
        Ok(Row {
            features: features.trim(),
            type_index: type_index.trim(),
            body: body.trim(),
            wanted: rest.trim(),
        })
    }
}

/// What stands before the feature that a refusal says is missing.
const MISSING: &str = "; missing ";

/// The answer to the row that this line is, where it isn't right.
fn judge<'a>(
    alloc: Global,
    sample: &Sample,
    line: &'a str,
) -> Result<Option<Difference<'a>>, Trouble> {
    let row = Row::of(line)?;
    let features = parse_features(row.features)?;
    let bytes = parse_bytes(alloc, row.body)?;
    let Ok(type_index) = row.type_index.parse::<u32>() else {
        return Err(Trouble::Malformed("a type index that isn't a number"));
    };
    let (is_wanted, named) = match row.wanted.strip_prefix(NOT) {
        Some(unwanted) => (false, unwanted),
        None => (true, row.wanted),
    };
    let answer = validate_in_sample(alloc, sample, features, type_index, bytes.as_slice())?;
    let mut given = String::new(alloc);
    push_answer(&mut given, &answer, named)?;
    if (given.as_str() == named) == is_wanted {
        return Ok(None);
    }
    Ok(Some(Difference {
        wanted: row.wanted,
        given,
    }))
}

/// The bytes that these hexadecimal digits stand for, and none for `-`.
pub fn parse_bytes(alloc: Global, text: &str) -> Result<Vec<u8>, Trouble> {
    if text == "-" {
        return Ok(Vec::new(alloc));
    }
    parse_digits(alloc, text)
}

/// The index of the function whose body a row has: it stands behind those of the sample.
const VALIDATED: u32 = 8;

/// What is said of the body of a function of this type.
fn validate_in_sample(
    alloc: Global,
    sample: &Sample,
    features: WasmFeatures,
    type_index: u32,
    bytes: &[u8],
) -> Result<Result<(), Error>, Trouble> {
    match OwnModule::new(sample.parts()) {
        Some(module) => Ok(validate(alloc, &module, features, (VALIDATED, type_index), bytes)),
        None => Err(Trouble::Malformed("a sample with too many types")),
    }
}

/// What is said of the body of the function with the first index, whose type has the second.
pub fn validate(
    alloc: Global,
    module: &OwnModule<'_, Global>,
    features: WasmFeatures,
    (index, ty): (u32, u32),
    bytes: &[u8],
) -> Result<(), Error> {
    let body = FunctionBody::new(BinaryReader::new(bytes, 0));
    let function = FuncToValidate {
        resources: module,
        index,
        ty,
        features,
    };
    match function.validate(&body, FuncValidatorAllocations::new(alloc)) {
        Ok(_) => Ok(()),
        Err(error) => Err(error),
    }
}

/// Adds `ok`, or `refused` with as much of the offset, the message and the missing feature as the
/// named answer has.
fn push_answer(text: &mut String, answer: &Result<(), Error>, named: &str) -> Result<(), Trouble> {
    match answer {
        Ok(()) => Ok(text.push_str("ok")?),
        Err(error) if error.is_out_of_memory() => Err(Trouble::OutOfMemory),
        Err(error) => push_refusal(text, error, named),
    }
}

/// Adds `refused`, and as much of the refusal as the named answer has.
fn push_refusal(text: &mut String, error: &Error, named: &str) -> Result<(), Trouble> {
    text.push_str("refused")?;
    if named == "refused" {
        return Ok(());
    }
    push_behind(text, error.offset())?;
    if named != text.as_str() {
        push_behind(text, error)?;
    }
    if named.contains(MISSING) {
        push_missing(text, error)?;
    }
    Ok(())
}

/// Adds a blank and this.
fn push_behind<D: Display + Drop>(text: &mut String, value: D) -> Result<(), AllocError> {
    text.push_str(" ")?;
    text.write(value)
}

/// Adds the feature that would lift the refusal.
fn push_missing(text: &mut String, error: &Error) -> Result<(), AllocError> {
    text.push_str(MISSING)?;
    let Some(feature) = error.missing_features() else {
        return text.push_str("nothing");
    };
    for character in name_of(feature).chars() {
        text.push(character.to_ascii_lowercase())?;
    }
    Ok(())
}
