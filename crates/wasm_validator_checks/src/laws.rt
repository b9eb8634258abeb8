//! That the tests of items decide the rules of items.

ghost use Rattle.wasm_validator_checks.specs.Laws.{FunctionsAreDecided, AritiesAreKept, TablesAreDecided, DefinedTablesAreDecided, MemoriesAreDecided, TagsAreDecided, GlobalsAreDecided, ExternsAreDecided};

/// A type of a module is a function type of so many parameters and results exactly where the type
/// that a list has under its id is.
pub fn functions_are_decided()
    ensures functions { FunctionsAreDecided }
    ensures arities { AritiesAreKept }
{}

/// The tests of items, made of the types that a list has under the ids of a module's types, are
/// right: what they accept is what the rules of the module allow (Core Specification 3.0,
/// Validation, Types).
pub fn items_are_decided()
    ensures tables { TablesAreDecided }
    ensures defined_tables { DefinedTablesAreDecided }
    ensures memories { MemoriesAreDecided }
    ensures tags { TagsAreDecided }
    ensures globals { GlobalsAreDecided }
    ensures imports { ExternsAreDecided }
{}
