//! Bodies of functions (Core Specification 3.0, Binary Format, Code Section).

ghost use Rattle.std.specs.Prelude.{◌≡◌, ◌++◌, IfOk, IfErr, OnOk};
ghost use Rattle.wasm_parser_ranges.specs.Ranges.{AreBodies, Refuses, bodies_in};

use crate::not_found::NotFound;
use std::alloc::{AllocError, Global};
use wasm_parser::{Parser, Payload};

/// How many bytes a [`Body`] takes.
pub const BODY_SIZE: u64 = 24;

/// Where a body lies, in offsets from the module's first byte: its locals and its instructions,
/// without its size. C reads it as `struct ruthvelka_body`.
#[repr(C)]
#[derive(Clone, Copy, Debug)]
pub struct Body {
    /// How many bytes this structure takes.
    pub size: u64,
    /// Its first byte.
    pub start: u64,
    /// The byte behind it.
    pub end: u64,
}

/// The bodies of a module, in their order: that of the first function which is no import comes first.
///
/// # Errors
///
/// Where the bytes aren't divided into sections as a module is, and where memory is refused.
pub fn find_bodies(alloc: Global, bytes: &[u8]) -> Result<Vec<Body>, NotFound>
    ensures found { IfOk result (λ found. AreBodies bytes.now found.items) }
    ensures refused { IfErr result (λ why. Refuses why bytes.now) }
{
    let mut payloads = Parser::new(alloc, 0).parse_all(bytes);
    let mut found = Vec::new(alloc);
    'payloads: loop {
        match payloads.next_payload() {
            Ok(Some(payload)) => match take_body(&mut found, &payload) {
                Ok(()) => drop(payload),
                Err(_) => {
                    drop(payload);
                    return Err(NotFound::OutOfMemory);
                }
            },
            Ok(None) => break,
            Err(_) => return Err(NotFound::NoModule),
        }
    }
    Ok(found)
}

/// Puts a payload behind the others, if it is a body.
fn take_body(found: &mut Vec<Body>, payload: &Payload<'_>) -> Result<(), AllocError>
    ensures { OnOk result (found.new.items ≡ found.old.items ++ bodies_in payload.now) }
{
    if let Payload::CodeSectionEntry(body) = payload {
        let range = body.range();
        found.push(Body {
            size: BODY_SIZE,
            start: range.start,
            end: range.end,
        })?;
    }
    Ok(())
}
