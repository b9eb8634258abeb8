//! The same for a caller's arrays, as C has them.

ghost use Rattle.wasm_parser_ranges.specs.Ranges.{AreBodies, AreCustomSections};
ghost use Rattle.wasm_parser_ranges.specs.CallerArrays.{StandIn, TellsFound, TellsName};

use crate::bodies::{Body, find_bodies};
use crate::custom_sections::{CustomSection, find_custom_sections};
use crate::function_names::find_function_name;
use crate::not_found::NotFound;
use std::alloc::Global;

/// Tells how many custom sections a module has, and writes where they lie, as far as there is room.
///
/// # Errors
///
/// As [`find_custom_sections`], and then nothing is told.
pub fn tell_custom_sections(
    alloc: Global,
    bytes: &[u8],
    count: &mut u64,
    to: &mut [CustomSection],
) -> Result<(), NotFound>
    ensures { TellsFound AreCustomSections bytes.now result count.old count.new to.old to.new }
{
    match find_custom_sections(alloc, bytes) {
        Ok(found) => {
            *count = found.len() as u64;
            write_front(to, found.as_slice());
            Ok(())
        }
        Err(why) => Err(why),
    }
}

/// The same of the bodies of its functions.
///
/// # Errors
///
/// As [`find_bodies`], and then nothing is told.
pub fn tell_bodies(
    alloc: Global,
    bytes: &[u8],
    count: &mut u64,
    to: &mut [Body],
) -> Result<(), NotFound>
    ensures { TellsFound AreBodies bytes.now result count.old count.new to.old to.new }
{
    match find_bodies(alloc, bytes) {
        Ok(found) => {
            *count = found.len() as u64;
            write_front(to, found.as_slice());
            Ok(())
        }
        Err(why) => Err(why),
    }
}

/// Tells how long the name is that a module gives the function of this index, and writes it, as far as
/// there is room.
///
/// # Errors
///
/// Where it gives none that can be read, and as [`find_function_name`]; and then nothing is told.
pub fn tell_function_name(
    alloc: Global,
    bytes: &[u8],
    index: u32,
    name_length: &mut u64,
    to: &mut [u8],
) -> Result<(), NotFound>
    ensures { TellsName bytes.now index result name_length.old name_length.new to.old to.new }
{
    match find_function_name(alloc, bytes, index) {
        Ok(Some(name)) => {
            *name_length = name.len() as u64;
            write_front(to, name.as_bytes());
            Ok(())
        }
        Ok(None) => Err(NotFound::NoName),
        Err(why) => Err(why),
    }
}

/// Writes as many of these as there is room for.
fn write_front<T: Copy>(to: &mut [T], given: &[T])
    ensures { StandIn given.now to.old to.new }
{
    let most = to.len().min(given.len());
    to[..most].copy_from_slice(&given[..most]);
}
