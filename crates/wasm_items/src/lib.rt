//! Reading of the items that hold expressions: tables, globals, element segments and data segments,
//! and the operators of an expression.
//!
//! Each `offset` counts bytes from the start of the input.
#![tactic(auto)]

mod const_expr;
mod data;
mod elements;
mod globals;
mod operators_reader;
mod tables;

pub use const_expr::{ConstExpr, read_const_expr};
pub use data::{Data, DataKind, read_data};
pub use elements::{
    Element, ElementItems, ElementKind, read_element, read_kind, read_written_type,
};
pub use globals::{Global, read_global};
pub use operators_reader::{OperatorsIterator, OperatorsReader};
pub use tables::{Table, TableInit, read_table};

/// Passed on from `wasm_operators`.
pub mod operators {
    pub use wasm_operators::{Immediate, Listed, Operator, read_listed};
}

/// Passed on from `wasm_readers`.
pub mod readers {
    pub use wasm_readers::{
        BinaryReader, Export, Import, MemoryType, RecGroup, SectionLimited, TagType, ValType, types,
    };
}

/// Passed on from `wasm_readers_errors`.
pub mod readers_errors {
    pub use wasm_readers::readers_errors::{Fault, Malformed, Refusal};
}
