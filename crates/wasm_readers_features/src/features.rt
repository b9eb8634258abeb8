//! The proposals as flags of one set, each under the name that the Rust crate gives it; a test of
//! each flag; and `STANDARD`, the set that is the default.

ghost use Rattle.std.specs.Prelude.{⊤, ◌≡◌, [], ◌∷◌, codes};
ghost use Rattle.wasm_readers_features.specs.ProposalFlags.{mutable_global_on, reference_types_on, multi_value_on, bulk_memory_on, simd_on, threads_on, shared_everything_threads_on, floats_on, multi_memory_on, exceptions_on, memory64_on, extended_const_on, function_references_on, gc_on, gc_types_on, custom_page_sizes_on, custom_descriptors_on, stack_switching_on, component_model_on, vector_operators_on, atomic_operators_on, legacy_exceptions_on, crate_limits_on, wide_arithmetic_on, memory_control_on, descriptor_operators_on, shared_atomic_operators_on, stack_switching_operators_on, compact_imports_on};

use bitflags::{Flag, Flags, bitflag_items};

/// The proposals that a module may use, as a set of flags.
///
/// - `MUTABLE_GLOBAL`: mutable globals are imported and exported.
/// - `REFERENCE_TYPES`: values that are references, and more than one table.
/// - `MULTI_VALUE`: more than one result.
/// - `BULK_MEMORY`: passive segments, and the data count section.
/// - `SIMD`: vectors of 128 bits.
/// - `THREADS`: shared memories.
/// - `SHARED_EVERYTHING_THREADS`: types, tables and globals that are shared between threads.
/// - `FLOATS`: floating-point types.
/// - `MULTI_MEMORY`: more than one memory.
/// - `EXCEPTIONS`: tags, and references to exceptions.
/// - `MEMORY64`: memories and tables whose addresses have 64 bits.
/// - `EXTENDED_CONST`: `add`, `sub` and `mul` of integers in constant expressions.
/// - `FUNCTION_REFERENCES`: references to types by index, and ones that may not be null.
/// - `GC`: recursion groups, sub types, structures and arrays.
/// - `GC_TYPES`: structure, array and continuation types, and references to anything but functions
///   and exceptions.
/// - `CUSTOM_PAGE_SIZES`: memories with a written page size, a power of two up to 65,536 bytes.
/// - `CUSTOM_DESCRIPTORS`: descriptor clauses, and exact references.
/// - `STACK_SWITCHING`: continuations.
/// - `COMPONENT_MODEL`: components, which are not validated.
/// - `VECTOR_OPERATORS`: the operators on vectors, also the relaxed ones. They need `SIMD` too, which
///   alone allows the type of vectors and `v128.const`.
/// - `ATOMIC_OPERATORS`: the atomic operators. They need `THREADS` too, which alone allows shared
///   memories.
/// - `LEGACY_EXCEPTIONS`: `try`, `catch`, `catch_all`, `rethrow` and `delegate`, by which exceptions
///   were handled before references to them. They need `EXCEPTIONS` too.
/// - `WIDE_ARITHMETIC`: sums, differences and products of integers of 128 bits.
/// - `MEMORY_CONTROL`: `memory.discard`, which gives up the content of pages.
/// - `DESCRIPTOR_OPERATORS`: `ref.get_desc`, and casts and branches by descriptors. They need
///   `CUSTOM_DESCRIPTORS` too, which alone allows descriptor clauses and exact references.
/// - `SHARED_ATOMIC_OPERATORS`: atomic accesses to globals, tables, structures and arrays, and
///   `pause`. They need `SHARED_EVERYTHING_THREADS` too, which alone allows what is shared.
/// - `STACK_SWITCHING_OPERATORS`: the operators on continuations. They need `STACK_SWITCHING` too,
///   which alone allows the types of continuations.
/// - `COMPACT_IMPORTS`: entries of the import section that have several imports of one module.
///
/// [`STANDARD`](WasmFeatures::STANDARD) has all but these, which have to be asked for: the last nine,
/// `SHARED_EVERYTHING_THREADS`, `CUSTOM_PAGE_SIZES`, `CUSTOM_DESCRIPTORS`, `STACK_SWITCHING` and
/// `COMPONENT_MODEL`. Of the last nine `LEGACY_EXCEPTIONS`, `WIDE_ARITHMETIC`, `MEMORY_CONTROL` and
/// `COMPACT_IMPORTS` are flags of the Rust crate too, and the others are our own.
///
/// - `CRATE_LIMITS`: the limits of the Rust crate's readers: at most 1,000 parameters and 1,000
///   results of a function type, 10,000 fields of a structure type, 10,000 catch clauses of a
///   `try_table`, and 100,000 bytes of a name of an import or export.
///
/// It is a flag with a name, but no proposal: it only takes away. So it has to be asked for by its
/// own name: [`all`](WasmFeatures::all) hasn't it, and a refusal by one of its limits names no
/// proposal, since what would lift it is to switch `CRATE_LIMITS` off. What the trait `Flags` has of
/// every flag with a name, `<WasmFeatures as Flags>::all()` and complements, has it.
#[derive(Clone, Copy, PartialEq, Eq, Hash, Debug)]
pub struct WasmFeatures(u64);

bitflag_items! {
    impl WasmFeatures: u64 {
        const MUTABLE_GLOBAL = 1;
        const REFERENCE_TYPES = 2;
        const MULTI_VALUE = 4;
        const BULK_MEMORY = 8;
        const SIMD = 16;
        const THREADS = 32;
        const SHARED_EVERYTHING_THREADS = 64;
        const FLOATS = 128;
        const MULTI_MEMORY = 256;
        const EXCEPTIONS = 512;
        const MEMORY64 = 1024;
        const EXTENDED_CONST = 2048;
        const FUNCTION_REFERENCES = 4096;
        const GC = 8192;
        const GC_TYPES = 16384;
        const CUSTOM_PAGE_SIZES = 32768;
        const CUSTOM_DESCRIPTORS = 65536;
        const STACK_SWITCHING = 131072;
        const COMPONENT_MODEL = 262144;
        const VECTOR_OPERATORS = 524288;
        const ATOMIC_OPERATORS = 1048576;
        const LEGACY_EXCEPTIONS = 2097152;
        const CRATE_LIMITS = 4194304;
        const WIDE_ARITHMETIC = 8388608;
        const MEMORY_CONTROL = 16777216;
        const DESCRIPTOR_OPERATORS = 33554432;
        const SHARED_ATOMIC_OPERATORS = 67108864;
        const STACK_SWITCHING_OPERATORS = 134217728;
        const COMPACT_IMPORTS = 268435456;
    }
}

impl WasmFeatures {
    /// All but `SHARED_EVERYTHING_THREADS`, `CUSTOM_DESCRIPTORS`, `STACK_SWITCHING`,
    /// `CUSTOM_PAGE_SIZES`, `COMPONENT_MODEL`, `VECTOR_OPERATORS`, `ATOMIC_OPERATORS`,
    /// `LEGACY_EXCEPTIONS`, `WIDE_ARITHMETIC`, `MEMORY_CONTROL`, `DESCRIPTOR_OPERATORS`,
    /// `SHARED_ATOMIC_OPERATORS`, `STACK_SWITCHING_OPERATORS`, `COMPACT_IMPORTS` and `CRATE_LIMITS`.
    /// So it lacks the standard's operators on vectors, and has shared memories, which the standard
    /// hasn't.
    pub const STANDARD: WasmFeatures = WasmFeatures(32703);

    /// No proposal.
    pub fn empty() -> WasmFeatures
        ensures { result.0 ≡ 0 }
    {
        WasmFeatures(0)
    }

    /// Every proposal, and so not `CRATE_LIMITS`, which takes away.
    pub const ALL: WasmFeatures = WasmFeatures(532676607);

    /// Every proposal: [`ALL`](WasmFeatures::ALL), and so not `CRATE_LIMITS`.
    pub fn all() -> WasmFeatures
        ensures { result.0 ≡ 532676607 }
    {
        WasmFeatures::ALL
    }

    /// Whether `MUTABLE_GLOBAL` is on: mutable globals are imported and exported.
    pub fn mutable_global(&self) -> bool
        ensures { result ≡ mutable_global_on self.now }
    {
        self.contains(WasmFeatures::MUTABLE_GLOBAL)
    }

    /// Whether `REFERENCE_TYPES` is on: values that are references, and more than one table.
    pub fn reference_types(&self) -> bool
        ensures { result ≡ reference_types_on self.now }
    {
        self.contains(WasmFeatures::REFERENCE_TYPES)
    }

    /// Whether `MULTI_VALUE` is on: more than one result.
    pub fn multi_value(&self) -> bool
        ensures { result ≡ multi_value_on self.now }
    {
        self.contains(WasmFeatures::MULTI_VALUE)
    }

    /// Whether `BULK_MEMORY` is on: passive segments, and the data count section.
    pub fn bulk_memory(&self) -> bool
        ensures { result ≡ bulk_memory_on self.now }
    {
        self.contains(WasmFeatures::BULK_MEMORY)
    }

    /// Whether `SIMD` is on: vectors of 128 bits.
    pub fn simd(&self) -> bool
        ensures { result ≡ simd_on self.now }
    {
        self.contains(WasmFeatures::SIMD)
    }

    /// Whether `THREADS` is on: shared memories.
    pub fn threads(&self) -> bool
        ensures { result ≡ threads_on self.now }
    {
        self.contains(WasmFeatures::THREADS)
    }

    /// Whether `SHARED_EVERYTHING_THREADS` is on: types, tables and globals that are shared between threads.
    pub fn shared_everything_threads(&self) -> bool
        ensures { result ≡ shared_everything_threads_on self.now }
    {
        self.contains(WasmFeatures::SHARED_EVERYTHING_THREADS)
    }

    /// Whether `FLOATS` is on: floating-point types.
    pub fn floats(&self) -> bool
        ensures { result ≡ floats_on self.now }
    {
        self.contains(WasmFeatures::FLOATS)
    }

    /// Whether `MULTI_MEMORY` is on: more than one memory.
    pub fn multi_memory(&self) -> bool
        ensures { result ≡ multi_memory_on self.now }
    {
        self.contains(WasmFeatures::MULTI_MEMORY)
    }

    /// Whether `EXCEPTIONS` is on: tags, and references to exceptions.
    pub fn exceptions(&self) -> bool
        ensures { result ≡ exceptions_on self.now }
    {
        self.contains(WasmFeatures::EXCEPTIONS)
    }

    /// Whether `MEMORY64` is on: memories and tables whose addresses have 64 bits.
    pub fn memory64(&self) -> bool
        ensures { result ≡ memory64_on self.now }
    {
        self.contains(WasmFeatures::MEMORY64)
    }

    /// Whether `EXTENDED_CONST` is on: `add`, `sub` and `mul` of integers in constant expressions.
    pub fn extended_const(&self) -> bool
        ensures { result ≡ extended_const_on self.now }
    {
        self.contains(WasmFeatures::EXTENDED_CONST)
    }

    /// Whether `FUNCTION_REFERENCES` is on: references to types by index, and ones that may not be null.
    pub fn function_references(&self) -> bool
        ensures { result ≡ function_references_on self.now }
    {
        self.contains(WasmFeatures::FUNCTION_REFERENCES)
    }

    /// Whether `GC` is on: recursion groups, sub types, structures and arrays.
    pub fn gc(&self) -> bool
        ensures { result ≡ gc_on self.now }
    {
        self.contains(WasmFeatures::GC)
    }

    /// Whether `GC_TYPES` is on: structure, array and continuation types, and references to anything
    /// but functions and exceptions.
    pub fn gc_types(&self) -> bool
        ensures { result ≡ gc_types_on self.now }
    {
        self.contains(WasmFeatures::GC_TYPES)
    }

    /// Whether `CUSTOM_PAGE_SIZES` is on: memories whose page size is written.
    pub fn custom_page_sizes(&self) -> bool
        ensures { result ≡ custom_page_sizes_on self.now }
    {
        self.contains(WasmFeatures::CUSTOM_PAGE_SIZES)
    }

    /// Whether `CUSTOM_DESCRIPTORS` is on: descriptor clauses, and exact references.
    pub fn custom_descriptors(&self) -> bool
        ensures { result ≡ custom_descriptors_on self.now }
    {
        self.contains(WasmFeatures::CUSTOM_DESCRIPTORS)
    }

    /// Whether `STACK_SWITCHING` is on: continuations.
    pub fn stack_switching(&self) -> bool
        ensures { result ≡ stack_switching_on self.now }
    {
        self.contains(WasmFeatures::STACK_SWITCHING)
    }

    /// Whether `COMPONENT_MODEL` is on: components, which are not validated.
    pub fn component_model(&self) -> bool
        ensures { result ≡ component_model_on self.now }
    {
        self.contains(WasmFeatures::COMPONENT_MODEL)
    }

    /// Whether `VECTOR_OPERATORS` is on: the operators on vectors, which need `SIMD` too.
    pub fn vector_operators(&self) -> bool
        ensures { result ≡ vector_operators_on self.now }
    {
        self.contains(WasmFeatures::VECTOR_OPERATORS)
    }

    /// Whether `ATOMIC_OPERATORS` is on: the atomic operators, which need `THREADS` too.
    pub fn atomic_operators(&self) -> bool
        ensures { result ≡ atomic_operators_on self.now }
    {
        self.contains(WasmFeatures::ATOMIC_OPERATORS)
    }

    /// Whether `LEGACY_EXCEPTIONS` is on: `try`, `catch`, `catch_all`, `rethrow` and `delegate`, which
    /// need `EXCEPTIONS` too.
    pub fn legacy_exceptions(&self) -> bool
        ensures { result ≡ legacy_exceptions_on self.now }
    {
        self.contains(WasmFeatures::LEGACY_EXCEPTIONS)
    }

    /// Whether `CRATE_LIMITS` is on: the limits of the Rust crate's readers.
    pub fn crate_limits(&self) -> bool
        ensures { result ≡ crate_limits_on self.now }
    {
        self.contains(WasmFeatures::CRATE_LIMITS)
    }

    /// Whether `WIDE_ARITHMETIC` is on: sums, differences and products of integers of 128 bits.
    pub fn wide_arithmetic(&self) -> bool
        ensures { result ≡ wide_arithmetic_on self.now }
    {
        self.contains(WasmFeatures::WIDE_ARITHMETIC)
    }

    /// Whether `MEMORY_CONTROL` is on: `memory.discard`, which gives up the content of pages.
    pub fn memory_control(&self) -> bool
        ensures { result ≡ memory_control_on self.now }
    {
        self.contains(WasmFeatures::MEMORY_CONTROL)
    }

    /// Whether `DESCRIPTOR_OPERATORS` is on: `ref.get_desc`, and casts and branches by descriptors,
    /// which need `CUSTOM_DESCRIPTORS` too.
    pub fn descriptor_operators(&self) -> bool
        ensures { result ≡ descriptor_operators_on self.now }
    {
        self.contains(WasmFeatures::DESCRIPTOR_OPERATORS)
    }

    /// Whether `SHARED_ATOMIC_OPERATORS` is on: atomic accesses to globals, tables, structures and
    /// arrays, which need `SHARED_EVERYTHING_THREADS` too.
    pub fn shared_atomic_operators(&self) -> bool
        ensures { result ≡ shared_atomic_operators_on self.now }
    {
        self.contains(WasmFeatures::SHARED_ATOMIC_OPERATORS)
    }

    /// Whether `STACK_SWITCHING_OPERATORS` is on: the operators on continuations, which need
    /// `STACK_SWITCHING` too.
    pub fn stack_switching_operators(&self) -> bool
        ensures { result ≡ stack_switching_operators_on self.now }
    {
        self.contains(WasmFeatures::STACK_SWITCHING_OPERATORS)
    }

    /// Whether `COMPACT_IMPORTS` is on: entries of the import section that have several imports of
    /// one module.
    pub fn compact_imports(&self) -> bool
        ensures { result ≡ compact_imports_on self.now }
    {
        self.contains(WasmFeatures::COMPACT_IMPORTS)
    }
}

impl Flags for WasmFeatures {
    type Bits = u64;

    ghost exact = { ⊤ };

    ghost table = { (codes "MUTABLE_GLOBAL", 1) ∷ (codes "REFERENCE_TYPES", 2)
        ∷ (codes "MULTI_VALUE", 4) ∷ (codes "BULK_MEMORY", 8) ∷ (codes "SIMD", 16)
        ∷ (codes "THREADS", 32) ∷ (codes "SHARED_EVERYTHING_THREADS", 64) ∷ (codes "FLOATS", 128)
        ∷ (codes "MULTI_MEMORY", 256) ∷ (codes "EXCEPTIONS", 512) ∷ (codes "MEMORY64", 1024)
        ∷ (codes "EXTENDED_CONST", 2048) ∷ (codes "FUNCTION_REFERENCES", 4096) ∷ (codes "GC", 8192)
        ∷ (codes "GC_TYPES", 16384) ∷ (codes "CUSTOM_PAGE_SIZES", 32768)
        ∷ (codes "CUSTOM_DESCRIPTORS", 65536) ∷ (codes "STACK_SWITCHING", 131072)
        ∷ (codes "COMPONENT_MODEL", 262144) ∷ (codes "VECTOR_OPERATORS", 524288)
        ∷ (codes "ATOMIC_OPERATORS", 1048576) ∷ (codes "LEGACY_EXCEPTIONS", 2097152)
        ∷ (codes "CRATE_LIMITS", 4194304) ∷ (codes "WIDE_ARITHMETIC", 8388608)
        ∷ (codes "MEMORY_CONTROL", 16777216) ∷ (codes "DESCRIPTOR_OPERATORS", 33554432)
        ∷ (codes "SHARED_ATOMIC_OPERATORS", 67108864)
        ∷ (codes "STACK_SWITCHING_OPERATORS", 134217728)
        ∷ (codes "COMPACT_IMPORTS", 268435456) ∷ [] };

    ghost set_of = { λ p. p.0 };

    fn flags<'a>() -> &'a [Flag<WasmFeatures>] {
        WasmFeatures::FLAGS
    }

    fn bits(&self) -> u64 {
        self.0
    }

    fn from_bits_retain(bits: u64) -> WasmFeatures {
        WasmFeatures(bits)
    }
}

impl Default for WasmFeatures {
    ghost is_default = { λ f. f ≡ record { 0 = 32703 } };

    fn default() -> WasmFeatures {
        WasmFeatures::STANDARD
    }
}
