//! A body that is measured.

use crate::row::validate;
use examples_in_place::side_table::{
    FuncToValidate, FuncValidatorAllocations, SideTable, validate_with_side_table,
};
use examples_own_module::{OwnFunction, OwnModule, OwnParts};
use rows_files::words_behind;
use std::alloc::{AllocError, Global};
use std::env::Env;
use std::fs;
use std::io::{self, Write};
use std::rt::Files;
use std::time::{Clock, Instant};
use wasm_operators::read_operator;
use wasm_parser::FunctionBody;
use wasm_readers::BinaryReader;
use wasm_readers_errors::WasmFeatures;
use wasm_readers_types::{FuncType, GlobalType, MemoryType, RefType, SubType, TableType, ValType};

/// The declarations of locals that the operators count on: 150 of type i32 and 150 of type i64.
const FRONT: [u8; 7] = [2, 0x96, 1, 0x7f, 0x96, 1, 0x7e];
/// What ends the body with a result: `i32.const 0` and `end`.
const END: [u8; 3] = [0x41, 0, 0x0b];

/// What each function takes and gives: from an i64 and an i32 to an i32.
fn signature(alloc: Global) -> Result<FuncType, AllocError> {
    let mut params = Vec::new(alloc);
    params.push(ValType::I64)?;
    params.push(ValType::I32)?;
    let mut results = Vec::new(alloc);
    results.push(ValType::I32)?;
    Ok(FuncType::new(params, results))
}

/// Globals that can be written.
const I32: GlobalType = GlobalType {
    content_type: ValType::I32,
    mutable: true,
    shared: false,
};

const I64: GlobalType = GlobalType {
    content_type: ValType::I64,
    mutable: true,
    shared: false,
};

/// A function of the first type.
const FUNCTION: OwnFunction = OwnFunction {
    type_index: 0,
    is_exact: true,
};

const TABLE: TableType = TableType {
    element_type: RefType::FUNCREF,
    table64: false,
    initial: 4,
    maximum: None,
    shared: false,
};

const MEMORY: MemoryType = MemoryType {
    memory64: false,
    shared: false,
    initial: 1,
    maximum: None,
    page_size_log2: None,
};

/// How many entries the side table of the body of function 0 has, if the body is valid in the module.
fn count_entries(alloc: Global, module: &OwnModule<'_, Global>, bytes: &[u8]) -> Option<usize> {
    let function = FuncToValidate {
        resources: module,
        index: 0,
        ty: 0,
        features: WasmFeatures::STANDARD,
    };
    let body = FunctionBody::new(BinaryReader::new(bytes, 0));
    let memory = FuncValidatorAllocations::new(alloc);
    let mut table = SideTable::new(alloc);
    match validate_with_side_table(function, &body, memory, &mut table) {
        Ok(_memory) => Some(table.entries().len()),
        Err(_) => None,
    }
}

/// Whether the body of function 0 is valid in a module of four functions, a table, a memory and three
/// globals; and how many entries its side table has, where that is asked for, and else 0.
fn check(alloc: Global, bytes: &[u8], makes_table: bool) -> Result<Option<usize>, AllocError> {
    let mut types = Vec::new(alloc);
    types.push(SubType::func(alloc, signature(alloc)?, false))?;
    let parts = OwnParts {
        types: types.as_slice(),
        functions: &[FUNCTION, FUNCTION, FUNCTION, FUNCTION],
        tables: &[TABLE],
        memories: &[MEMORY],
        globals: &[I32, I64, I32],
        tags: &[],
        elements: &[],
        data_count: None,
        references: &[],
    };
    let Some(module) = OwnModule::new(parts) else {
        return Ok(None);
    };
    if makes_table {
        return Ok(count_entries(alloc, &module, bytes));
    }
    match validate(alloc, &module, WasmFeatures::STANDARD, (0, 0), bytes) {
        Ok(()) => Ok(Some(0)),
        Err(_) => Ok(None),
    }
}

/// How many operators can be read behind the declarations of locals.
fn count_operators(bytes: &[u8]) -> usize {
    let operators = match bytes.get(FRONT.len()..) {
        Some(operators) => operators,
        None => return 0,
    };
    let mut reader = BinaryReader::new(operators, 0);
    for count in 0..operators.len() {
        if read_operator(&mut reader).is_err() {
            return count;
        }
    }
    operators.len()
}

/// The body of the operators in these files: its locals, what the files hold, and its end.
fn read_body<R: Files + AllocGlobal>(rt: &R, paths: &[String]) -> io::Result<Vec<u8>> {
    let mut body = Vec::new(rt.alloc());
    body.extend_from_slice(&FRONT)?;
    for path in paths {
        let part = fs::read(rt, path.as_str())?;
        body.extend_from_slice(part.as_slice())?;
    }
    body.extend_from_slice(&END)?;
    Ok(body)
}

/// Validates the body of the operators in the files behind `--body`, one file behind the other, if
/// there are any, and prints how many operators it has, whether it is valid, and to `err` how long
/// that took.
pub fn time_body<R: Env + Files + Clock + AllocGlobal, W: Write, E: Write>(
    rt: &R,
    out: &mut W,
    err: &mut E,
) -> io::Result<()> {
    let paths = words_behind(rt, "--body")?;
    if paths.is_empty() {
        return Ok(());
    }
    let body = read_body(rt, &paths)?;
    print_time(rt, &body, out, err)
}

/// Validates the body of the operators in the files behind `--table`, if there are any, and makes its
/// side table. It prints how many entries that has, and to `err` how long both took, and how long
/// validation takes alone.
pub fn time_table<R: Env + Files + Clock + AllocGlobal, W: Write, E: Write>(
    rt: &R,
    out: &mut W,
    err: &mut E,
) -> io::Result<()> {
    let paths = words_behind(rt, "--table")?;
    if paths.is_empty() {
        return Ok(());
    }
    let body = read_body(rt, &paths)?;
    let (entries, both) = time_check(rt, &body, true)?;
    match entries {
        Some(count) => writeln!(out, "{count} entries")?,
        None => writeln!(out, "not valid")?,
    }
    let (_verdict, alone) = time_check(rt, &body, false)?;
    writeln!(err, "{both} ns, {alone} ns alone")
}

/// What the check of this body gives where it is valid, and the nanoseconds that it takes.
fn time_check<R: Clock + AllocGlobal>(
    rt: &R,
    body: &[u8],
    makes_table: bool,
) -> io::Result<(Option<usize>, u128)> {
    let start = Instant::now(rt)?;
    let found = match check(rt.alloc(), body, makes_table) {
        Ok(found) => found,
        Err(_) => None,
    };
    Ok((found, start.elapsed(rt)?.as_nanos()))
}

/// Validates this body, and prints how many operators it has, whether it is valid, and how long that
/// took.
fn print_time<R: Clock + AllocGlobal, W: Write, E: Write>(
    rt: &R,
    body: &[u8],
    out: &mut W,
    err: &mut E,
) -> io::Result<()> {
    let (found, time) = time_check(rt, body, false)?;
    let verdict = if found.is_some() { "ok" } else { "not valid" };
    let count = count_operators(body);
    writeln!(out, "{count} operators, {verdict}")?;
    writeln!(err, "{time} ns")
}
