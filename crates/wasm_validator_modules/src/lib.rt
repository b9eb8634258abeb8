//! Validation of WebAssembly modules: states, one method for each payload, and whole modules.
#![tactic(auto)]

pub mod payload;
pub mod validator;

pub use bitflags::Flags;
pub use payload::{ValidPayload, validate};
pub use validator::Validator;
pub use wasm_validator_states::sections::validator_core::{Error, Module};
pub use wasm_validator_states::sections::validator_core_resources::{
    TypesByIds, ValidatorResources,
};
pub use wasm_validator_states::sections::{
    CodeState, Constants, ExpressionMemory, MAX_FUNCTION_SIZE, ModuleState, ReferencedFunctions,
    operator_validator, operators, validator_core, validator_func,
};
pub use wasm_validator_states::types::{
    CoreExports, CoreImports, EntityDisplay, EntityType, IndexSpaces, InternRecGroup, LinkCount,
    MAX_WASM_SUBTYPING_DEPTH, Matches, RecGroupElements, RecGroupId, SnapshotList, TypeAlloc,
    TypeCanonicalizer, TypeData, TypeIdentifier, TypeInfo, TypeList, Types, TypesRef, ValidatorId,
    WasmModuleResources, WithRecGroup, canonicalize_and_intern_rec_group, check_composite_type,
    check_descriptors, check_subtype, func_signature_matches, intern_rec_group_of, types_are_valid,
};
pub use wasm_validator_states::{
    MaybeOwned, one_id_for_one_type, own_id_for_each_type, payloads_decide,
    refused_modules_keep_types, sections_add_their_items, state_table,
};

/// Passed on from `wasm_readers`, `wasm_items` and `wasm_parser`.
pub mod readers {
    pub use wasm_readers::{
        AbstractHeapType, ArrayType, BinaryReader, CompactImports, CompositeInnerType,
        CompositeType, ContType, CoreTypeId, Counted, DescriptorRule, Export, ExternalKind, Fault,
        FieldType, FromReader, FuncType, GlobalType, GroupRule, HeapType, Import, Imports, Integer,
        ItemKind, ItemRule, Items, MAX_IDS, Malformed, MemoryType, OutOfOrder, PackedIndex,
        RecGroup, RefType, Refusal, Rule, SectionItems, SectionLimited, StorageType, StructType,
        SubType, TableHead, TableType, TagKind, TagType, TypeRef, UnpackedIndex, ValType,
        ValueTypeRule, WasmFeatures, readers_errors,
    };
    pub use wasm_validator_states::parser::{
        CustomSectionReader, Encoding, FunctionBody, ParseAll, Parser, Payload, items, locals,
    };
}
