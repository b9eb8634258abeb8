use crate::answer::{Answer, HandedOut};
use crate::bytes::parse_bytes;
use crate::text::split_word;
use rows_files::Trouble;
use std::alloc::{Allocator, Global};
use std::ops::Range;
use wasm_validator::{
    BinaryReader, CustomSectionReader, Encoding, Error, FuncToValidate, FuncValidatorAllocations,
    FunctionBody, Payload, SectionLimited, Types, ValidPayload, Validator, ValidatorResources,
};

/// Makes the call that this text is, and gives its answer. `kept` are the types of the module that
/// was accepted last.
pub fn answer_call(
    alloc: Global,
    validator: &mut Validator,
    kept: &mut Option<Types>,
    text: &str,
) -> Result<Answer, Trouble> {
    let (name, arguments) = split_word(text);
    match name {
        "reset" => reset(validator, arguments),
        "types" => look(validator, arguments),
        "kept" => take(kept, arguments),
        "module" => {
            let bytes = parse_bytes(alloc, arguments)?;
            Ok(Answer::of_module(validator.validate_all(bytes.as_slice())))
        }
        _ => {
            let (offset, more) = split_word(arguments);
            match offset.parse::<u32>() {
                Ok(offset) => call_at(alloc, validator, name, offset, more),
                Err(_) => Err(Trouble::Malformed("a call without an offset")),
            }
        }
    }
}

/// Refuses words behind all that a call takes.
fn check_no_more(arguments: &str) -> Result<(), Trouble> {
    if arguments.is_empty() {
        Ok(())
    } else {
        Err(Trouble::Malformed("more than a call takes"))
    }
}

/// Makes the validator ready for another module, where it may be.
fn reset(validator: &mut Validator, arguments: &str) -> Result<Answer, Trouble> {
    check_no_more(arguments)?;
    if validator.can_reset() {
        validator.reset();
        Ok(Answer::Accepted)
    } else {
        Ok(Answer::Nothing("no reset"))
    }
}

/// Takes the types of the module that was accepted last.
fn take(kept: &mut Option<Types>, arguments: &str) -> Result<Answer, Trouble> {
    check_no_more(arguments)?;
    match kept.take() {
        Some(types) => Ok(Answer::Ended(types)),
        None => Ok(Answer::Nothing("nothing kept")),
    }
}

/// Asks for the types at this level.
fn look(validator: &Validator, level: &str) -> Result<Answer, Trouble> {
    let Ok(level) = level.parse::<usize>() else {
        return Err(Trouble::Malformed("a level that isn't a number"));
    };
    match validator.types(level) {
        Some(_) => Ok(Answer::Accepted),
        None => Ok(Answer::Nothing("nothing shown")),
    }
}

/// Gives the payload that this name, this offset and these arguments stand for.
fn call_at(
    alloc: Global,
    validator: &mut Validator,
    name: &str,
    offset: u32,
    arguments: &str,
) -> Result<Answer, Trouble> {
    if let Some(payload) = plain_payload(name, offset, arguments)? {
        return Ok(give(alloc, validator, &payload));
    }
    let bytes = parse_bytes(alloc, arguments)?;
    let reader = BinaryReader::new(bytes.as_slice(), u64::from(offset));
    let payload = payload_on(alloc, name, reader)?;
    Ok(give(alloc, validator, &payload))
}

/// Gives a payload, and validates the body of a function that is handed out.
fn give(alloc: Global, validator: &mut Validator, payload: &Payload<'_>) -> Answer {
    match validator.payload(payload) {
        Ok(ValidPayload::Ok) => Answer::Accepted,
        Ok(ValidPayload::Func(function, body)) => Answer::HandedOut(HandedOut {
            index: function.index,
            type_index: function.ty,
            refusal: refusal_of(alloc, function, &body),
        }),
        Ok(ValidPayload::End(types)) => Answer::Ended(types),
        Err(error) => Answer::Refused(error),
    }
}

/// Why the body of this function is refused, where it is.
fn refusal_of<A: Allocator + Copy>(
    alloc: A,
    function: FuncToValidate<ValidatorResources<A>>,
    body: &FunctionBody<'_>,
) -> Option<Error<A>> {
    match function.validate(body, FuncValidatorAllocations::new(alloc)) {
        Ok(_) => None,
        Err(error) => Some(Error::from(error)),
    }
}

/// The payload of this name, if it has no bytes to be read.
fn plain_payload<'a>(
    name: &str,
    offset: u32,
    arguments: &str,
) -> Result<Option<Payload<'a>>, Trouble> {
    let range = range_at(offset);
    Ok(Some(match name {
        "version" => version(arguments, range)?,
        "start_section" => Payload::StartSection {
            func: parse_number(arguments)?,
            range,
        },
        "data_count_section" => Payload::DataCountSection {
            count: parse_number(arguments)?,
            range,
        },
        "code_section_start" => {
            check_no_more(arguments)?;
            Payload::CodeSectionStart {
                count: 0,
                range,
                size: 0,
            }
        }
        "unknown_section" => unknown_section(arguments, range)?,
        "end" => {
            check_no_more(arguments)?;
            Payload::End(range.start)
        }
        _ => return Ok(None),
    }))
}

/// The offsets of a first byte, which is this one, and of the one behind it.
fn range_at(offset: u32) -> Range<u64> {
    let start = u64::from(offset);
    start..start + 1
}

fn parse_number(text: &str) -> Result<u32, Trouble> {
    match text.parse::<u32>() {
        Ok(number) => Ok(number),
        Err(_) => Err(Trouble::Malformed("a number that isn't one")),
    }
}

/// A header: an encoding and a number.
fn version<'a>(arguments: &str, range: Range<u64>) -> Result<Payload<'a>, Trouble> {
    let (encoding, number) = split_word(arguments);
    let encoding = match encoding {
        "module" => Encoding::Module,
        "component" => Encoding::Component,
        _ => return Err(Trouble::Malformed("an unknown encoding")),
    };
    match number.parse::<u16>() {
        Ok(num) => Ok(Payload::Version {
            num,
            encoding,
            range,
        }),
        Err(_) => Err(Trouble::Malformed("a version that isn't a number")),
    }
}

/// A section of this id, of which nothing is known.
fn unknown_section<'a>(id: &str, range: Range<u64>) -> Result<Payload<'a>, Trouble> {
    match id.parse::<u8>() {
        Ok(id) => Ok(Payload::UnknownSection {
            id,
            contents: &[],
            range,
        }),
        Err(_) => Err(Trouble::Malformed("an id that isn't a number")),
    }
}

/// The payload of this name with the bytes of this reader: a body, or a name and bytes, or a count and
/// items.
fn payload_on<'a>(
    alloc: Global,
    name: &str,
    reader: BinaryReader<'a>,
) -> Result<Payload<'a>, Trouble> {
    Ok(match name {
        "code_section_entry" => Payload::CodeSectionEntry(FunctionBody::new(reader)),
        "custom_section" => custom_section(reader)?,
        "type_section" => Payload::TypeSection(section(alloc, reader)?),
        "import_section" => Payload::ImportSection(section(alloc, reader)?),
        "function_section" => Payload::FunctionSection(section(alloc, reader)?),
        "table_section" => Payload::TableSection(section(alloc, reader)?),
        "memory_section" => Payload::MemorySection(section(alloc, reader)?),
        "tag_section" => Payload::TagSection(section(alloc, reader)?),
        "global_section" => Payload::GlobalSection(section(alloc, reader)?),
        "export_section" => Payload::ExportSection(section(alloc, reader)?),
        "element_section" => Payload::ElementSection(section(alloc, reader)?),
        "data_section" => Payload::DataSection(section(alloc, reader)?),
        _ => return Err(Trouble::Malformed("an unknown call")),
    })
}

fn custom_section<'a>(reader: BinaryReader<'a>) -> Result<Payload<'a>, Trouble> {
    match CustomSectionReader::new(reader) {
        Ok(section) => Ok(Payload::CustomSection(section)),
        Err(_) => Err(Trouble::Malformed("a custom section without a name")),
    }
}

/// The section of these bytes.
fn section<'a, T>(
    alloc: Global,
    reader: BinaryReader<'a>,
) -> Result<SectionLimited<'a, T, Global>, Trouble> {
    match SectionLimited::new(alloc, reader) {
        Ok(section) => Ok(section),
        Err(_) => Err(Trouble::Malformed("a section without a count")),
    }
}
