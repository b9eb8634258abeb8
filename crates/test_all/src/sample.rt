//! The sample: one context for all rows, which `tools/body_rows.py` has too.

use crate::types::{reference, sample_types};
use examples_own_module::{OwnFunction, OwnParts};
use rows_files::Trouble;
use std::alloc::Global;
use wasm_readers_types::{GlobalType, MemoryType, RefType, SubType, TableType, ValType};

/// What the rows' bodies stand in.
#[derive(Drop)]
pub struct Sample {
    types: Vec<SubType>,
    functions: [OwnFunction; 8],
    tables: [TableType; 4],
    memories: [MemoryType; 2],
    globals: [GlobalType; 7],
    /// A tag without parameters, and one with a number, by their types.
    tags: [u32; 2],
    /// Two passive segments, and one that declares functions.
    elements: [RefType; 3],
    /// The functions that are declared.
    references: [u32; 3],
}

/// A function that is defined in the module, by the index of its type.
fn defined(type_index: u32) -> OwnFunction {
    OwnFunction {
        type_index,
        is_exact: true,
    }
}

/// A table of at least 10 entries.
fn table(element_type: RefType) -> TableType {
    TableType {
        element_type,
        table64: false,
        initial: 10,
        maximum: None,
        shared: false,
    }
}

/// A memory of at least a page.
fn memory(memory64: bool, maximum: Option<u64>) -> MemoryType {
    MemoryType {
        memory64,
        shared: false,
        initial: 1,
        maximum,
        page_size_log2: None,
    }
}

fn global(content_type: ValType, mutable: bool) -> GlobalType {
    GlobalType {
        content_type,
        mutable,
        shared: false,
    }
}

fn functions() -> [OwnFunction; 8] {
    [
        defined(0),
        defined(1),
        defined(2),
        defined(9),
        defined(0),
        defined(10),
        defined(8),
        defined(14),
    ]
}

/// Tables of functions, of external references with indices of 64 bits, and of functions of type 1.
fn tables() -> Result<[TableType; 4], Trouble> {
    let of_functions = TableType {
        maximum: Some(20),
        ..table(RefType::FUNCREF)
    };
    let of_externals = TableType {
        table64: true,
        initial: 5,
        ..table(RefType::EXTERNREF)
    };
    let others = table(RefType::FUNCREF);
    let of_one_type = table(reference(true, 1)?);
    Ok([of_functions, of_externals, others, of_one_type])
}

fn globals() -> [GlobalType; 7] {
    [
        global(ValType::I32, false),
        global(ValType::I32, true),
        global(ValType::I64, false),
        global(ValType::I64, true),
        global(ValType::FUNCREF, false),
        global(ValType::FUNCREF, true),
        global(ValType::F32, true),
    ]
}

impl Sample {
    /// The sample.
    pub fn new(alloc: Global) -> Result<Sample, Trouble> {
        Ok(Sample {
            types: sample_types(alloc)?,
            functions: functions(),
            tables: tables()?,
            memories: [memory(false, Some(5)), memory(true, None)],
            globals: globals(),
            tags: [0, 8],
            elements: [RefType::FUNCREF, RefType::EXTERNREF, RefType::FUNC],
            references: [1, 2, 6],
        })
    }

    /// All that the sample has.
    pub fn parts(&self) -> OwnParts<'_, Global> {
        OwnParts {
            types: self.types.as_slice(),
            functions: &self.functions,
            tables: &self.tables,
            memories: &self.memories,
            globals: &self.globals,
            tags: &self.tags,
            elements: &self.elements,
            data_count: Some(2),
            references: &self.references,
        }
    }
}
