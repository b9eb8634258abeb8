//! The names that a module gives its functions in its name section (Core Specification 3.0, Appendix,
//! Custom Sections, Name Section). No rule of validation reads them, so each is the module's own word.

ghost use Rattle.std.specs.Prelude.{◌≡◌, IfOk, IfErr, length};
ghost use Rattle.std.specs.Option.{option_map};
ghost use Rattle.wasm_readers_bytes.specs.Reader.{rest};
ghost use Rattle.wasm_parser.specs.PayloadViews.{seen};
ghost use Rattle.wasm_parser_ranges.specs.Names.{IsName, IsNameSection, name_in_list, name_in_section, names_behind, part_in};
ghost use Rattle.wasm_parser_ranges.specs.Ranges.{HasNoFraming};

use crate::not_found::NotFound;
use std::alloc::Global;
use wasm_parser::{Parser, Payload};
use wasm_readers_bytes::BinaryReader;

/// The id of the part of a name section that has the names of functions.
const FUNCTION_NAMES: u8 = 1;

/// The name that a module gives the function of this index, if it gives one that can be read: in its
/// first custom section `name`, in the first part that has names of functions, by the first name
/// behind this index.
///
/// # Errors
///
/// Where the bytes aren't divided into sections as a module is. No memory is taken.
pub fn find_function_name<'a>(
    alloc: Global,
    bytes: &'a [u8],
    index: u32,
) -> Result<Option<&'a str>, NotFound>
    ensures found { IfOk result (λ name. IsName bytes.now index (option_map (λ n. n.now) name)) }
    ensures refused { IfErr result (λ why. (why ≡ NotFound.NoModule) × HasNoFraming bytes.now) }
{
    match find_name_section(alloc, bytes) {
        Ok(Some(section)) => Ok(find_in_section(section, index)),
        Ok(None) => Ok(None),
        Err(why) => Err(why),
    }
}

/// What the first custom section `name` has behind its name.
fn find_name_section<'a>(alloc: Global, bytes: &'a [u8]) -> Result<Option<&'a [u8]>, NotFound>
    ensures found { IfOk result (λ found. IsNameSection bytes.now (option_map (λ d. d.now) found)) }
    ensures refused { IfErr result (λ why. (why ≡ NotFound.NoModule) × HasNoFraming bytes.now) }
{
    let mut payloads = Parser::new(alloc, 0).parse_all(bytes);
    let mut section = None;
    'payloads: loop {
        match payloads.next_payload() {
            Ok(Some(payload)) => {
                section = first_of(section, &payload);
                drop(payload);
            }
            Ok(None) => break,
            Err(_) => return Err(NotFound::NoModule),
        }
    }
    Ok(section)
}

/// What was found before, or what this payload has behind its name, if that is `name`.
fn first_of<'a>(before: Option<&'a [u8]>, payload: &Payload<'a>) -> Option<&'a [u8]>
    ensures { option_map (λ d. d.now) result
        ≡ names_behind (option_map (λ d. d.now) before.entry) (seen payload.now) }
{
    match before {
        Some(data) => Some(data),
        None => match payload {
            Payload::CustomSection(section) => {
                if section.name() == "name" {
                    Some(section.data())
                } else {
                    None
                }
            }
            _ => None,
        },
    }
}

/// Looks for the name in what a name section has behind its own name.
fn find_in_section(contents: &[u8], index: u32) -> Option<&str>
    ensures { option_map (λ n. n.now) result ≡ name_in_section index contents.now }
{
    let names = find_part(contents)?;
    find_in_list(names, index)
}

/// The contents of the first part that has names of functions.
fn find_part(contents: &[u8]) -> Option<BinaryReader<'_>>
    ensures { option_map rest result ≡ part_in (length contents.now) 1 contents.now }
{
    let mut reader = BinaryReader::new(contents, 0);
    'parts: for done in 0..contents.len() {
        let id = reader.next_u8()?;
        let Ok(part) = reader.read_sized() else {
            return None;
        };
        if id == FUNCTION_NAMES {
            return Some(part);
        }
    }
    None
}

/// Looks for the name in a list of names, each behind its index.
fn find_in_list<'a>(list: BinaryReader<'a>, index: u32) -> Option<&'a str>
    ensures { option_map (λ n. n.now) result ≡ name_in_list index (rest list.entry) }
{
    let mut reader = list;
    let count = reader.next_var_u32()?;
    'names: for done in 0..count {
        let function = reader.next_var_u32()?;
        let Ok(name) = reader.read_string() else {
            return None;
        };
        if function == index {
            return Some(name);
        }
    }
    None
}
