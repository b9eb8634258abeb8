//! Where custom sections and bodies of a module lie, and the names that it gives its functions.

ghost use Rattle.std.specs.Prelude.{◌≡◌};
ghost use Rattle.wasm_parser_ranges.specs.Ranges.{AreBodies, AreCustomSections};
ghost use Rattle.ruthvelka_c.specs.Sections.{FoundBy, NamedBy, found_status};

use crate::handles::{STATUS_DONE, STATUS_NO_MEMORY, STATUS_REFUSED};
use std::alloc::Global;
use wasm_parser_ranges::{
    Body, CustomSection, NotFound, tell_bodies, tell_custom_sections, tell_function_name,
};

/// There is no such thing.
pub const STATUS_NONE: u32 = 22;

/// Tells how many custom sections a module has, and writes where they lie, as far as there is room.
#[unsafe(no_mangle)]
pub extern "C" fn ruthvelka_proved_custom_sections(
    alloc: Global,
    bytes: &[u8],
    count: &mut u64,
    to: &mut [CustomSection],
) -> u32
    ensures { FoundBy AreCustomSections bytes.now count.old count.new to.old to.new result }
{
    status_of(tell_custom_sections(alloc, bytes, count, to))
}

/// The same of the bodies of its functions.
#[unsafe(no_mangle)]
pub extern "C" fn ruthvelka_proved_bodies(
    alloc: Global,
    bytes: &[u8],
    count: &mut u64,
    to: &mut [Body],
) -> u32
    ensures { FoundBy AreBodies bytes.now count.old count.new to.old to.new result }
{
    status_of(tell_bodies(alloc, bytes, count, to))
}

/// Tells how long the name of a function is, and writes it, as far as there is room.
#[unsafe(no_mangle)]
pub extern "C" fn ruthvelka_proved_function_name(
    alloc: Global,
    bytes: &[u8],
    function: u32,
    length: &mut u64,
    to: &mut [u8],
) -> u32
    ensures { NamedBy bytes.now function length.old length.new to.old to.new result }
{
    status_of(tell_function_name(alloc, bytes, function, length, to))
}

fn status_of(told: Result<(), NotFound>) -> u32
    ensures { result ≡ found_status told }
{
    match told {
        Ok(()) => STATUS_DONE,
        Err(NotFound::NoModule) => STATUS_REFUSED,
        Err(NotFound::NoName) => STATUS_NONE,
        Err(NotFound::OutOfMemory) => STATUS_NO_MEMORY,
    }
}
