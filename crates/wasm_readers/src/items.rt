//! The items of sections, as far as they have no expressions.

use wasm_readers_types::{ExternalKind, TableType, TypeRef};

/// An import (Core Specification 3.0, Binary Format, Import Section).
#[derive(Clone, Copy, Debug)]
pub struct Import<'a> {
    /// The module that it is imported from.
    pub module: &'a str,
    /// The name under which that module exports it.
    pub name: &'a str,
    /// What it is.
    pub ty: TypeRef,
}

/// An export (Core Specification 3.0, Binary Format, Export Section).
#[derive(Clone, Copy, Debug)]
pub struct Export<'a> {
    /// The name under which it is exported.
    pub name: &'a str,
    /// What is exported.
    pub kind: ExternalKind,
    /// Its index in the index space of its kind.
    pub index: u32,
}

/// The part of a table before its initializer.
#[derive(Clone, Copy, Debug)]
pub struct TableHead {
    /// The table's type.
    pub ty: TableType,
    /// Whether it has an initializer, whose bytes come next.
    pub has_init: bool,
}
