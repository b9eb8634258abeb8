//! The items of a module, read and no more: globals, element segments of functions, and data
//! segments of the first memory.

use rows_files::words_behind;
use std::alloc::Global;
use std::env::Env;
use std::fs;
use std::io::{self, Write};
use std::rt::Files;
use wasm_operators::read_expression;
use wasm_parser::{Parser, Payload};
use wasm_readers::BinaryReader;
use wasm_readers::externs::read_global_type;
use wasm_readers_errors::Refusal;

/// Reads one global with its initializer.
fn read_global(reader: &mut BinaryReader<'_>) -> Result<(), Refusal> {
    read_global_type(reader)?;
    read_expression(reader)?;
    Ok(())
}

/// Reads an element segment of functions: an active one of the first table, or another one without
/// a table.
fn read_element(reader: &mut BinaryReader<'_>) -> Result<(), Refusal> {
    if reader.read_var_u32()? == 0 {
        read_expression(reader)?;
    } else {
        reader.read_u8()?;
    }
    for _ in 0..reader.read_var_u32()? {
        reader.read_var_u32()?;
    }
    Ok(())
}

/// Reads a data segment that is active in the first memory.
fn read_data(reader: &mut BinaryReader<'_>) -> Result<(), Refusal> {
    reader.read_var_u32()?;
    read_expression(reader)?;
    reader.read_sized()?;
    Ok(())
}

/// Reads the items of this payload, if it is a section of such, and says how many they are.
fn read_payload(payload: &Payload<'_>) -> Result<u32, Refusal> {
    match payload {
        Payload::GlobalSection(section) => {
            let mut reader = section.reader();
            for _ in 0..section.count() {
                read_global(&mut reader)?;
            }
            Ok(section.count())
        }
        Payload::ElementSection(section) => {
            let mut reader = section.reader();
            for _ in 0..section.count() {
                read_element(&mut reader)?;
            }
            Ok(section.count())
        }
        Payload::DataSection(section) => {
            let mut reader = section.reader();
            for _ in 0..section.count() {
                read_data(&mut reader)?;
            }
            Ok(section.count())
        }
        _ => Ok(0),
    }
}

/// How many such items the module has that these bytes are, each of which is read by the grammar,
/// in sections that can be read to their ends.
fn count_items(alloc: Global, bytes: &[u8]) -> u64 {
    let mut count = 0u64;
    for payload in Parser::new(alloc, 0).parse_all(bytes) {
        if let Ok(payload) = payload {
            if let Ok(items) = read_payload(&payload) {
                count = count.wrapping_add(items as u64);
            }
        }
    }
    count
}

/// Prints how many items each of the modules in the files behind `--items` has.
pub fn print_items<R: Env + Files + AllocGlobal, W: Write>(rt: &R, out: &mut W) -> io::Result<()> {
    for path in words_behind(rt, "--items")? {
        let module = fs::read(rt, path.as_str())?;
        let count = count_items(rt.alloc(), module.as_slice());
        writeln!(out, "{count} items")?;
    }
    Ok(())
}
