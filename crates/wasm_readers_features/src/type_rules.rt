//! Rules of types: of recursion groups, sub, composite and value types, and descriptor clauses.

ghost use Rattle.std.specs.Prelude.{◌≡◌};
ghost use Rattle.wasm_readers_features.specs.LiftingProposals.{lifting_reference};

use crate::features::WasmFeatures;

/// Rules of recursion groups, sub types and composite types whose texts name no number (Core
/// Specification 3.0, Validation, Types).
#[derive(Clone, Copy, PartialEq, Eq, Debug)]
pub enum GroupRule {
    /// A group that is written as one needs `GC`.
    RecGroups,
    /// A type has at most one supertype.
    MultipleSupertypes,
    /// A type that is not final, or has a supertype, needs `GC`.
    Subtypes,
    /// A supertype is not final.
    FinalSupertype,
    /// A type matches its supertype.
    SupertypeMatch,
    /// A supertype stands before its subtypes.
    SupertypeAfterSubtype,
    /// A shared type needs `SHARED_EVERYTHING_THREADS`.
    SharedComposites,
    /// What a shared type holds is shared.
    SharedMembers,
    /// An array type needs `GC`.
    Arrays,
    /// An array type needs `GC_TYPES`.
    ArrayGcTypes,
    /// A structure type needs `GC`.
    Structs,
    /// A structure type needs `GC_TYPES`.
    StructGcTypes,
    /// A continuation type needs `STACK_SWITCHING`.
    Continuations,
    /// A continuation type needs `GC_TYPES`.
    ContinuationGcTypes,
    /// With `CRATE_LIMITS` a function type has at most 1,000 parameters.
    FunctionParams,
    /// With `CRATE_LIMITS` a function type has at most 1,000 results.
    FunctionReturns,
    /// With `CRATE_LIMITS` a structure type has at most 10,000 fields.
    StructFields,
}

impl GroupRule {
    /// What is said where the rule is broken.
    pub fn text<'a>(self) -> &'a str {
        match self {
            GroupRule::RecGroups => "rec group usage requires `gc` proposal to be enabled",
            GroupRule::MultipleSupertypes => "multiple supertypes",
            GroupRule::Subtypes => "gc proposal must be enabled to use subtypes",
            GroupRule::FinalSupertype => "sub type cannot have a final super type",
            GroupRule::SupertypeMatch => "sub type must match super type",
            GroupRule::SupertypeAfterSubtype => "supertypes must be defined before subtypes",
            GroupRule::SharedComposites =>
                "shared composite types require the shared-everything-threads proposal",
            GroupRule::SharedMembers => "shared composite type must contain shared types",
            GroupRule::Arrays => "array indexed types not supported without the gc feature",
            GroupRule::ArrayGcTypes => "cannot define array types when gc types are disabled",
            GroupRule::Structs => "struct indexed types not supported without the gc feature",
            GroupRule::StructGcTypes => "cannot define struct types when gc types are disabled",
            GroupRule::Continuations =>
                "cannot define continuation types when stack switching is disabled",
            GroupRule::ContinuationGcTypes =>
                "cannot define continuation types when gc types are disabled",
            GroupRule::FunctionParams => "function params size is out of bounds",
            GroupRule::FunctionReturns => "function returns size is out of bounds",
            GroupRule::StructFields => "struct fields size is out of bounds",
        }
    }
}

/// Rules of the descriptor clauses of sub types, of the custom descriptors proposal.
#[derive(Clone, Copy, PartialEq, Eq, Debug)]
pub enum DescriptorRule {
    /// A descriptor clause needs `CUSTOM_DESCRIPTORS`.
    Descriptors,
    /// The type that a type describes stands before it.
    ForwardDescribes,
    /// Only a structure type has a descriptor.
    DescriptorOfNonStruct,
    /// Only a structure type describes another.
    DescribesOfNonStruct,
    /// The supertype of a type with a descriptor has one.
    SubtypeWithDescriptor,
    /// The supertype of a type without a descriptor has none.
    SubtypeWithoutDescriptor,
    /// The descriptor's supertype is the supertype's descriptor.
    DescribedSupertype,
    /// The described type's supertype is what the supertype describes.
    DescriptorSupertype,
    /// The supertype of a type that describes nothing describes nothing.
    NonDescriptorSupertype,
    /// The supertype of a type that describes another describes one.
    DescriptorOfNonDescriptor,
    /// The descriptor of a type describes this type.
    DescriptorWithoutDescribes,
    /// The type that a type describes has this one as its descriptor.
    DescribesWithoutDescriptor,
    /// A type and its descriptor are both final, or both not.
    DescriptorFinality,
}

impl DescriptorRule {
    /// What is said where the rule is broken.
    pub fn text<'a>(self) -> &'a str {
        match self {
            DescriptorRule::Descriptors =>
                "custom descriptors proposal must be enabled to use descriptor and describes",
            DescriptorRule::ForwardDescribes => "forward describes reference",
            DescriptorRule::DescriptorOfNonStruct => "descriptor clause on non-struct type",
            DescriptorRule::DescribesOfNonStruct => "describes clause on non-struct type",
            DescriptorRule::SubtypeWithDescriptor =>
                "sub type with descriptor must have super type with descriptor",
            DescriptorRule::SubtypeWithoutDescriptor =>
                "supertype of type without descriptor cannot have descriptor",
            DescriptorRule::DescribedSupertype =>
                "supertype of described type must be described by supertype of descriptor",
            DescriptorRule::DescriptorSupertype => "supertype of descriptor does not match",
            DescriptorRule::NonDescriptorSupertype =>
                "supertype of non-descriptor type cannot be a descriptor",
            DescriptorRule::DescriptorOfNonDescriptor =>
                "supertype of descriptor must be a descriptor",
            DescriptorRule::DescriptorWithoutDescribes => "descriptor with no matching describes",
            DescriptorRule::DescribesWithoutDescriptor => "describes with no matching descriptor",
            DescriptorRule::DescriptorFinality =>
                "descriptor and described type must have the same finality",
        }
    }
}

/// What reference types need (Core Specification 3.0, Validation, Types, Reference Types).
#[derive(Clone, Copy, PartialEq, Eq, Debug)]
pub enum ValueTypeRule {
    /// References need `REFERENCE_TYPES`.
    ReferenceTypes,
    /// References to types by index need `GC` or `FUNCTION_REFERENCES`.
    IndexReferences,
    /// Exact references need `CUSTOM_DESCRIPTORS`.
    ExactReferences,
    /// Shared references need `SHARED_EVERYTHING_THREADS`.
    SharedReferences,
    /// References to other than functions and exceptions need `GC_TYPES`.
    GcTypes,
    /// References to functions and external values that may not be null need `FUNCTION_REFERENCES`.
    NonNullable,
    /// The heap types of the garbage collection proposal need `GC`.
    GcHeapTypes,
    /// References to exceptions need `EXCEPTIONS`.
    ExceptionReferences,
    /// References to continuations need `STACK_SWITCHING`.
    ContinuationReferences,
}

impl ValueTypeRule {
    /// The proposal that would lift a refusal by this rule: of two, `FUNCTION_REFERENCES`.
    pub fn feature(self) -> WasmFeatures
        ensures { result ≡ lifting_reference self }
    {
        match self {
            ValueTypeRule::ReferenceTypes => WasmFeatures::REFERENCE_TYPES,
            ValueTypeRule::IndexReferences => WasmFeatures::FUNCTION_REFERENCES,
            ValueTypeRule::ExactReferences => WasmFeatures::CUSTOM_DESCRIPTORS,
            ValueTypeRule::SharedReferences => WasmFeatures::SHARED_EVERYTHING_THREADS,
            ValueTypeRule::GcTypes => WasmFeatures::GC_TYPES,
            ValueTypeRule::NonNullable => WasmFeatures::FUNCTION_REFERENCES,
            ValueTypeRule::GcHeapTypes => WasmFeatures::GC,
            ValueTypeRule::ExceptionReferences => WasmFeatures::EXCEPTIONS,
            ValueTypeRule::ContinuationReferences => WasmFeatures::STACK_SWITCHING,
        }
    }

    /// What is said where the rule is broken.
    pub fn text<'a>(self) -> &'a str {
        match self {
            ValueTypeRule::ReferenceTypes => "reference types support is not enabled",
            ValueTypeRule::IndexReferences =>
                "function references required for index reference types",
            ValueTypeRule::ExactReferences =>
                "custom descriptors required for exact reference types",
            ValueTypeRule::SharedReferences =>
                "shared reference types require the shared-everything-threads proposal",
            ValueTypeRule::GcTypes => "gc types are disallowed but found type which requires gc",
            ValueTypeRule::NonNullable => "function references required for non-nullable types",
            ValueTypeRule::GcHeapTypes => "heap types not supported without the gc feature",
            ValueTypeRule::ExceptionReferences =>
                "exception refs not supported without the exception handling feature",
            ValueTypeRule::ContinuationReferences =>
                "continuation refs not supported without the stack switching feature",
        }
    }
}
