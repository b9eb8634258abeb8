//! Custom sections (Core Specification 3.0, Binary Format, Custom Section).

ghost use Rattle.std.specs.Prelude.{◌≡◌, ◌++◌, IfOk, IfErr, OnOk};
ghost use Rattle.wasm_readers_bytes.specs.Reader.{original};
ghost use Rattle.wasm_parser.specs.PayloadViews.{data_of, data_reader, name_of};
ghost use Rattle.wasm_parser.specs.Places.{reader_end};
ghost use Rattle.wasm_parser_ranges.specs.Ranges.{AreCustomSections, Refuses, custom_section, customs_in};

use crate::not_found::NotFound;
use std::alloc::{AllocError, Global};
use wasm_parser::{CustomSectionReader, Parser, Payload};

/// How many bytes a [`CustomSection`] takes.
pub const CUSTOM_SECTION_SIZE: u64 = 48;

/// Where a custom section lies, in offsets from the module's first byte. C reads it as `struct
/// ruthvelka_custom_section`.
#[repr(C)]
#[derive(Clone, Copy, Debug)]
pub struct CustomSection {
    /// How many bytes this structure takes.
    pub size: u64,
    /// The first byte of its contents, which begin with the length of its name.
    pub start: u64,
    /// The first byte of its name.
    pub name_start: u64,
    /// How many bytes its name has.
    pub name_length: u64,
    /// The first byte behind its name.
    pub data_start: u64,
    /// The byte behind its contents.
    pub end: u64,
}

/// The custom sections of a module, in their order.
///
/// # Errors
///
/// Where the bytes aren't divided into sections as a module is, and where memory is refused.
pub fn find_custom_sections(alloc: Global, bytes: &[u8]) -> Result<Vec<CustomSection>, NotFound>
    ensures found { IfOk result (λ found. AreCustomSections bytes.now found.items) }
    ensures refused { IfErr result (λ why. Refuses why bytes.now) }
{
    let mut payloads = Parser::new(alloc, 0).parse_all(bytes);
    let mut found = Vec::new(alloc);
    'payloads: loop {
        match payloads.next_payload() {
            Ok(Some(payload)) => match take_custom(&mut found, &payload) {
                Ok(()) => drop(payload),
                Err(_) => {
                    drop(payload);
                    return Err(NotFound::OutOfMemory);
                }
            },
            Ok(None) => break,
            Err(_) => return Err(NotFound::NoModule),
        }
    }
    Ok(found)
}

/// Puts a payload behind the others, if it is a custom section.
fn take_custom(found: &mut Vec<CustomSection>, payload: &Payload<'_>) -> Result<(), AllocError>
    ensures { OnOk result (found.new.items ≡ found.old.items ++ customs_in payload.now) }
{
    if let Payload::CustomSection(section) = payload {
        found.push(place_of(section))?;
    }
    Ok(())
}

/// Where this section lies.
fn place_of(section: &CustomSectionReader<'_>) -> CustomSection
    ensures { result ≡ custom_section (original (data_reader section.now)) (reader_end
        (data_reader section.now)) (name_of section.now) (data_of section.now) }
{
    let range = section.range();
    let data_start = range.end.saturating_sub(section.data().len() as u64);
    let name_length = section.name().len() as u64;
    CustomSection {
        size: CUSTOM_SECTION_SIZE,
        start: range.start,
        name_start: data_start.saturating_sub(name_length),
        name_length,
        data_start,
        end: range.end,
    }
}
