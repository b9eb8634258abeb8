//! What the interpreter keeps of a module: functions from an integer of 64 bits to another, and a
//! memory, looked up in a form of its own.

use crate::engine::Stopped;
use examples_own_module::{OwnFunction, OwnModule, OwnParts};
use std::alloc::{AllocError, Allocator};
use wasm_parser::FunctionBody;
use wasm_readers::BinaryReader;
use wasm_readers_errors::WasmFeatures;
use wasm_readers_types::{FuncType, MemoryType, SubType, ValType};
use wasm_validator_side_table::side_tables::Entry;
use wasm_validator_side_table::validator_func::{FuncToValidate, FuncValidatorAllocations};
use wasm_validator_side_table::{SideTable, validate_with_side_table};

/// A function: its body, where the instructions begin in it, how many parameters, results and locals
/// it has, and its table.
#[derive(Drop)]
pub struct Code<'a, A: Allocator> {
    pub bytes: &'a [u8],
    pub start: usize,
    pub params: usize,
    pub results: usize,
    pub locals: usize,
    pub entries: Vec<Entry, A>,
}

/// A module whose functions are all its own.
#[derive(Drop)]
pub struct Loaded<'a, A: Allocator> {
    functions: Vec<Code<'a, A>, A>,
}

impl<'a, A: Allocator> Loaded<'a, A> {
    /// The function of this index.
    pub fn code(&self, function: usize) -> Result<&Code<'a, A>, Stopped> {
        match self.functions.get(function) {
            Some(code) => Ok(code),
            None => Err(Stopped::Stuck),
        }
    }
}

/// A function of the one type, which is defined in the module.
const FUNCTION: OwnFunction = OwnFunction {
    type_index: 0,
    is_exact: true,
};

/// A memory of one page.
const MEMORY: MemoryType = MemoryType {
    memory64: false,
    shared: false,
    initial: 1,
    maximum: None,
    page_size_log2: None,
};

/// What each function takes and gives: an integer of 64 bits.
fn signature<A: Allocator + Copy>(alloc: A) -> Result<FuncType<A>, AllocError> {
    let mut params = Vec::new(alloc);
    params.push(ValType::I64)?;
    let mut results = Vec::new(alloc);
    results.push(ValType::I64)?;
    Ok(FuncType::new(params, results))
}

/// The one type of the module.
fn types_of<A: Allocator + Copy>(alloc: A) -> Result<Vec<SubType<A>, A>, AllocError> {
    let mut types = Vec::new(alloc);
    types.push(SubType::func(alloc, signature(alloc)?, false))?;
    Ok(types)
}

/// Validates a body, and keeps it with its table.
fn load_body<'a, A: Allocator + Copy>(
    alloc: A,
    module: &OwnModule<'_, A>,
    bytes: &'a [u8],
    table: &mut SideTable<A>,
) -> Result<Code<'a, A>, Stopped> {
    let function = FuncToValidate {
        resources: module,
        index: 0,
        ty: 0,
        features: WasmFeatures::STANDARD,
    };
    let body = FunctionBody::new(BinaryReader::new(bytes, 0));
    let allocations = FuncValidatorAllocations::new(alloc);
    match validate_with_side_table(function, &body, allocations, table) {
        Ok(_memory) => {}
        Err(_) => return Err(Stopped::Unknown),
    }
    let mut entries = Vec::new(alloc);
    entries.extend_from_slice(table.entries())?;
    Ok(Code {
        bytes,
        start: table.first() as usize,
        params: 1,
        results: 1,
        locals: table.locals() as usize,
        entries,
    })
}

/// Validates the bodies of a module, which has three functions at most.
pub fn load<'a, A: Allocator + Copy>(
    alloc: A,
    bodies: &[&'a [u8]],
) -> Result<Loaded<'a, A>, Stopped> {
    let types = types_of(alloc)?;
    let parts = OwnParts {
        types: types.as_slice(),
        functions: &[FUNCTION, FUNCTION, FUNCTION],
        tables: &[],
        memories: &[MEMORY],
        globals: &[],
        tags: &[],
        elements: &[],
        data_count: None,
        references: &[],
    };
    let Some(module) = OwnModule::new(parts) else {
        return Err(Stopped::Unknown);
    };
    let mut table = SideTable::new(alloc);
    let mut functions = Vec::new(alloc);
    for body in bodies {
        let code = load_body(alloc, &module, body, &mut table)?;
        match functions.push(code) {
            Ok(()) => {}
            Err(_) => return Err(Stopped::OutOfMemory),
        }
    }
    Ok(Loaded { functions })
}
