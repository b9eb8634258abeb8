//! The lists that the look-ups are read from.

use std::alloc::Allocator;
use wasm_readers_types::{GlobalType, MemoryType, RefType, SubType, TableType};

/// A function of the module.
#[derive(Clone, Copy)]
pub struct OwnFunction {
    /// The index of its type.
    pub type_index: u32,
    /// Whether it is exactly of that type, and not of a subtype.
    pub is_exact: bool,
}

/// What the module has, by reference, each list in the order of its index space. A reference between
/// types is an id, which is the index of the type that it names.
#[derive(Drop)]
pub struct OwnParts<'a, A: Allocator> {
    /// The types.
    pub types: &'a [SubType<A>],
    /// The functions.
    pub functions: &'a [OwnFunction],
    /// The tables.
    pub tables: &'a [TableType],
    /// The memories.
    pub memories: &'a [MemoryType],
    /// The globals.
    pub globals: &'a [GlobalType],
    /// The tags, by the indices of their types.
    pub tags: &'a [u32],
    /// The types of the element segments.
    pub elements: &'a [RefType],
    /// How many data segments there are, where the module says so in front of its code.
    pub data_count: Option<u32>,
    /// The functions that are referenced outside of bodies.
    pub references: &'a [u32],
}
