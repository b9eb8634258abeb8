//! Rules of what a module imports and defines, types and operators aside.

/// Rules of imports, tables, memories, tags, globals, start functions, data counts and segments whose
/// texts name no number (Core Specification 3.0, Validation, Types and Modules).
#[derive(Clone, Copy, PartialEq, Eq, Debug)]
pub enum ItemRule {
    /// An exactly typed function import needs `CUSTOM_DESCRIPTORS`.
    ExactFunctionImports,
    /// The minimum is at most the maximum.
    MinimumAboveMaximum,
    /// A 64-bit table needs `MEMORY64`.
    Tables64,
    /// A shared table needs `SHARED_EVERYTHING_THREADS`.
    SharedTables,
    /// The elements of a shared table are shared.
    SharedElements,
    /// The entries of a table are counted by 32 bits, or by 64 where it is a 64-bit one.
    TableSize,
    /// A table with an initializer needs `FUNCTION_REFERENCES`.
    TableInitializers,
    /// The entries of a table without an initializer may be null.
    NonDefaultableElements,
    /// A 64-bit memory needs `MEMORY64`.
    Memories64,
    /// A shared memory needs `THREADS`.
    SharedMemories,
    /// A shared memory has a maximum.
    SharedMemoryMaximum,
    /// A page size that is written needs `CUSTOM_PAGE_SIZES`.
    CustomPageSizes,
    /// The number of bytes of a page is a power of two, and at most 65,536.
    PageSize,
    /// The results of a tag need `STACK_SWITCHING`.
    TagResults,
    /// A shared global needs `SHARED_EVERYTHING_THREADS`.
    SharedGlobals,
    /// What a shared global holds is shared.
    SharedContents,
    /// A mutable global that is imported or exported needs `MUTABLE_GLOBAL`.
    MutableGlobals,
    /// The start function takes and gives nothing.
    StartType,
    /// A data count needs `BULK_MEMORY`.
    DataCounts,
    /// A module has at most 100,000 data segments.
    DataCountLimit,
    /// An element segment that isn't active needs `BULK_MEMORY`.
    PassiveElements,
    /// An element segment has at most 10,000,000 items.
    ElementCount,
    /// The type of an active element segment is below its table's.
    ElementTypes,
    /// A data segment that isn't active needs `BULK_MEMORY`.
    PassiveData,
    /// With `CRATE_LIMITS` a name of an import or export has at most 100,000 bytes.
    NameSize,
}

impl ItemRule {
    pub(crate) fn text<'a>(self) -> &'a str {
        match self {
            ItemRule::ExactFunctionImports =>
                "custom descriptors required for exact function imports",
            ItemRule::MinimumAboveMaximum => "size minimum must not be greater than maximum",
            ItemRule::Tables64 => "memory64 must be enabled for 64-bit tables",
            ItemRule::SharedTables =>
                "shared tables require the shared-everything-threads proposal",
            ItemRule::SharedElements => "shared tables must have a shared element type",
            ItemRule::TableSize => "table size must be at most 0xffffffff entries",
            ItemRule::TableInitializers =>
                "tables with expression initializers require the function-references proposal",
            ItemRule::NonDefaultableElements => "type mismatch: non-defaultable element type",
            ItemRule::Memories64 => "memory64 must be enabled for 64-bit memories",
            ItemRule::SharedMemories => "threads must be enabled for shared memories",
            ItemRule::SharedMemoryMaximum => "shared memory must have maximum size",
            ItemRule::CustomPageSizes =>
                "the custom page sizes proposal must be enabled to customize a memory's page size",
            ItemRule::PageSize => "invalid custom page size",
            ItemRule::TagResults => "invalid exception type: non-empty tag result type",
            ItemRule::SharedGlobals =>
                "shared globals require the shared-everything-threads proposal",
            ItemRule::SharedContents => "shared globals must have a shared value type",
            ItemRule::MutableGlobals => "mutable global support is not enabled",
            ItemRule::StartType => "invalid start function type",
            ItemRule::DataCounts => "data count section requires the bulk-memory proposal",
            ItemRule::DataCountLimit => "data count section specifies too many data segments",
            ItemRule::PassiveElements => "bulk memory must be enabled",
            ItemRule::ElementCount => "number of elements is out of bounds",
            ItemRule::ElementTypes => "type mismatch: invalid element type",
            ItemRule::PassiveData => "passive data segments require the bulk-memory proposal",
            ItemRule::NameSize => "string size out of bounds",
        }
    }
}
