//! A tool that only parses: it dumps modules from their bytes, each section with its items, and each
//! expression and body with its operators. Nothing is validated, so only the crates of reading are
//! used.

mod items;
mod modules;

use crate::dump::items::{Dump, print_operators};
use crate::dump::modules::{MALFORMED, MODULE};
use std::alloc::Allocator;
use std::io;
use wasm_parser::{FunctionBody, Parser, Payload};
use wasm_readers::{Error, FromReader, SectionLimited};

/// Prints a module, and some that are malformed.
pub fn run<R: Print + AllocGlobal>(rt: &R) -> io::Result<()> {
    dump(rt, MODULE)?;
    for module in MALFORMED {
        dump(rt, module)?;
    }
    Ok(())
}

/// Prints each part of a module, up to the first that is refused.
fn dump<R: Print + AllocGlobal>(rt: &R, bytes: &[u8]) -> io::Result<()> {
    for payload in Parser::new(rt.alloc(), 0).parse_all(bytes) {
        match payload {
            Ok(payload) => dump_payload(rt, &payload)?,
            Err(refusal) => print_error(rt, Error::Refused(refusal))?,
        }
    }
    Ok(())
}

/// Prints one part of a module.
fn dump_payload<R: Print, A: Allocator + Copy>(rt: &R, payload: &Payload<'_, A>) -> io::Result<()> {
    match payload {
        Payload::Version { num, .. } => println!(rt; "version {num}"),
        Payload::TypeSection(section) => dump_items(rt, "types", section),
        Payload::ImportSection(section) => dump_items(rt, "imports", section),
        Payload::FunctionSection(section) => dump_items(rt, "functions", section),
        Payload::TableSection(section) => dump_items(rt, "tables", section),
        Payload::MemorySection(section) => dump_items(rt, "memories", section),
        Payload::TagSection(section) => dump_items(rt, "tags", section),
        Payload::GlobalSection(section) => dump_items(rt, "globals", section),
        Payload::ExportSection(section) => dump_items(rt, "exports", section),
        Payload::StartSection { func, .. } => println!(rt; "start: function {func}"),
        Payload::ElementSection(section) => dump_items(rt, "element segments", section),
        Payload::DataCountSection { count, .. } => println!(rt; "data count: {count}"),
        Payload::DataSection(section) => dump_items(rt, "data segments", section),
        Payload::CodeSectionStart { count, .. } => println!(rt; "bodies: {count}"),
        Payload::CodeSectionEntry(body) => dump_body(rt, body),
        Payload::CustomSection(section) => println!(rt; "custom section {}", section.name()),
        Payload::UnknownSection { id, .. } => println!(rt; "section {id}"),
        Payload::End(offset) => println!(rt; "end, byte {offset}"),
    }
}

/// Prints the items of a section, up to the first that is refused.
fn dump_items<'a, R: Print, T: FromReader<'a, A> + Dump, A: Allocator + Copy>(
    rt: &R,
    name: &str,
    section: &SectionLimited<'a, T, A>,
) -> io::Result<()> {
    println!(rt; "{name}: {}", section.count())?;
    for item in section.items() {
        match item {
            Ok((offset, item)) => item.dump(rt, offset)?,
            Err(error) => print_error(rt, error)?,
        }
    }
    Ok(())
}

/// Prints the locals and the operators of a body.
fn dump_body<R: Print>(rt: &R, body: &FunctionBody<'_>) -> io::Result<()> {
    println!(rt; "  byte {}: body", body.range().start)?;
    let (locals, operators) = match (body.get_locals_reader(), body.get_operators_reader()) {
        (Ok(locals), Ok(operators)) => (locals, operators),
        (Err(refusal), _) | (_, Err(refusal)) => return print_error(rt, Error::Refused(refusal)),
    };
    for declaration in locals.into_iter_with_offsets() {
        if let Ok((offset, count, ty)) = declaration {
            println!(rt; "    byte {offset}: {count} locals of type {ty}")?;
        }
    }
    print_operators(rt, operators)
}

/// Prints a refusal.
pub fn print_error<R: Print>(rt: &R, error: Error) -> io::Result<()> {
    match error {
        Error::Refused(refusal) => {
            println!(rt; "refused at byte {}: {}", refusal.offset, refusal.fault)
        }
        Error::OutOfMemory => println!(rt; "out of memory"),
    }
}
