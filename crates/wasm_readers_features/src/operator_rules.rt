//! Rules of operators (Core Specification 3.0, Validation, Instructions), and their texts.

ghost use Rattle.std.specs.Prelude.{◌≡◌};
ghost use Rattle.wasm_readers_features.specs.LiftingProposals.{lifting, needed_by};

use crate::atomic_rules::{write_atomic_global, write_atomic_type};
use crate::features::WasmFeatures;
use crate::type_rules::ValueTypeRule;
use std::fmt;

/// Rules of operators, and of the function bodies and constant expressions that they stand in.
#[derive(Clone, Copy, PartialEq, Eq, Debug)]
pub enum OperatorRule {
    /// An operand of a given type is expected.
    Operand,
    /// An operand of any type is expected.
    AnyOperand,
    /// A reference is expected.
    Reference,
    /// A reference below a given abstract heap type is expected.
    ReferenceBelow,
    /// Two references to compare are expected of which both are shared or neither is.
    Comparable,
    /// `select` without a type chooses one of two numbers or vectors of one type.
    Selected,
    /// Operands are left at the end of a frame.
    OperandsLeft,
    /// The last frame has ended.
    Ended,
    /// A frame hasn't ended where the bytes end.
    Unfinished,
    /// `else` stands in no `if`.
    ElseWithoutIf,
    /// An `if` without `else` doesn't give what it takes.
    MissingElse,
    /// A local that the function doesn't have.
    UnknownLocal,
    /// A local without a default is read before it is set.
    UnsetLocal,
    /// A global that the module doesn't have.
    UnknownGlobal,
    /// A global that can't be written.
    ImmutableGlobal,
    /// A label behind the outermost frame.
    UnknownLabel,
    /// The labels of a branch table, or a label and what is sent to it, don't have the types that
    /// they need.
    LabelTypes,
    /// A function that the module doesn't have.
    UnknownFunction,
    /// A function that nothing outside of bodies refers to.
    UndeclaredFunction,
    /// A type that the module doesn't have.
    UnknownType,
    /// A type index of what is no function type.
    NotAFunction,
    /// A type index of what is no structure type.
    NotAStruct,
    /// A type index of what is no array type.
    NotAnArray,
    /// A field that the structure type doesn't have.
    UnknownField,
    /// A field that can't be written.
    ImmutableField,
    /// An array whose elements can't be written.
    ImmutableArray,
    /// A field that is packed is read without a sign.
    FieldPacked,
    /// A field that isn't packed is read with a sign.
    FieldNotPacked,
    /// An array whose elements are packed is read without a sign.
    ArrayPacked,
    /// An array whose elements aren't packed is read with a sign.
    ArrayNotPacked,
    /// A field or an element has no default.
    NoDefault,
    /// Elements that are references are taken from data.
    NotNumeric,
    /// The elements of an element segment or of an array aren't those that are wanted.
    ElementTypes,
    /// A table that the module doesn't have.
    UnknownTable,
    /// The entries of a table aren't those that are wanted.
    TableTypes,
    /// A memory that the module doesn't have.
    UnknownMemory,
    /// The alignment is larger than the access.
    Alignment,
    /// The offset of an access to a 32-bit memory takes more than 32 bits.
    Offset,
    /// A tag that the module doesn't have.
    UnknownTag,
    /// The type of an exception gives nothing.
    TagResults,
    /// A label doesn't have the types that a catch clause sends.
    CatchTypes,
    /// An element segment that the module doesn't have.
    UnknownElements,
    /// A data segment that the module doesn't count.
    UnknownData,
    /// A data segment is used where no section counts them.
    MissingDataCount,
    /// A type isn't below the one that it is cast from.
    CastTypes,
    /// The same of two types of one hierarchy, which is enough with `CUSTOM_DESCRIPTORS`.
    CastTypesOfHierarchy,
    /// The results of a tail call aren't those of the function.
    ReturnTypes,
    /// What isn't shared is reached from a shared function.
    Shared,
    /// References to continuations aren't tested or cast.
    ContinuationTypes,
    /// An operator that no constant expression has.
    NotConstant,
    /// A mutable global in a constant expression.
    MutableGlobal,
    /// A global that the module defines in a constant expression, without `GC`.
    LocalGlobal,
    /// More than 50,000 locals.
    TooManyLocals,
    /// A check of the same body was refused before.
    Failed,
    /// Floating-point operators need `FLOATS`.
    Floats,
    /// Vectors need `SIMD`.
    Simd,
    /// A value type that the module's look-ups refuse, for a reason of their own.
    ValueType,
    /// A block with a function type needs `MULTI_VALUE`.
    MultiValue,
    /// An operator needs `REFERENCE_TYPES`.
    ReferenceTypes,
    /// An operator needs `BULK_MEMORY`.
    BulkMemory,
    /// An operator needs `EXCEPTIONS`.
    Exceptions,
    /// An operator needs `FUNCTION_REFERENCES`.
    FunctionReferences,
    /// An operator needs `GC`.
    Gc,
    /// An operator needs `SHARED_EVERYTHING_THREADS`.
    SharedEverything,
    /// An operator needs `CUSTOM_DESCRIPTORS`.
    CustomDescriptors,
    /// A reference type is written without the proposal that it needs.
    ReferenceProposal(ValueTypeRule),
    /// `struct.new` takes no descriptor, and its type has one.
    NewWithoutDescriptor,
    /// `struct.new_default` takes no descriptor, and its type has one.
    NewDefaultWithoutDescriptor,
    /// `struct.new_desc` takes a descriptor, and its type has none.
    NewDescOfUndescribed,
    /// `struct.new_default_desc` takes a descriptor, and its type has none.
    NewDefaultDescOfUndescribed,
    /// An operator on vectors needs `VECTOR_OPERATORS`.
    VectorOperators,
    /// An atomic operator needs `ATOMIC_OPERATORS`.
    AtomicOperators,
    /// An atomic operator needs `THREADS`.
    Threads,
    /// A lane that the vector doesn't have.
    Lane,
    /// The alignment of an atomic operator isn't the size of its access.
    AtomicAlignment,
    /// The operator of this opcode needs `LEGACY_EXCEPTIONS`.
    LegacyExceptions,
    /// `catch` stands behind no `try` or `catch`.
    CatchOutsideTry,
    /// `catch_all` stands behind no `try` or `catch`.
    CatchAllOutsideTry,
    /// `delegate` stands in no `try`, or behind a `catch` of it.
    DelegateOutsideTry,
    /// `rethrow` names a label of what has caught nothing.
    RethrowLabel,
    /// With `CRATE_LIMITS` a `try_table` has at most 10,000 catch clauses.
    CatchCount,
    /// The operator of this opcode needs a feature of its own, without which the opcode is none.
    Opcode,
    /// The same of the opcode of this number behind this prefix.
    OpcodeBehind(u8),
    /// A global that the atomic access of this number can't write.
    AtomicGlobal,
    /// What the atomic access of this number reaches has a type that it doesn't allow.
    AtomicType,
    /// A cast by descriptors is to a type without one.
    CastToUndescribed,
    /// A cast by descriptors is to an abstract heap type.
    CastToAbstract,
    /// The descriptor of a type that has none.
    UndescribedType,
    /// An operator on continuations needs `STACK_SWITCHING`.
    StackSwitching,
    /// A type index of what is no continuation type.
    NotAContinuation,
    /// A continuation is bound to more arguments than its function takes.
    ContinuationArguments,
    /// What a continuation takes and gives isn't what is wanted.
    ContinuationSignatures,
    /// The last type of a label, or the last parameter of a function, refers to no continuation.
    NoContinuation,
    /// A handler sends other types than its label has.
    HandleTypes,
    /// The tag of a handler for switches isn't one of the continuation.
    SwitchTag,
    /// The tag of a switch takes something.
    SwitchParams,
}

impl OperatorRule {
    /// The proposal that would lift a refusal by this rule, where one would.
    pub fn missing(self) -> Option<WasmFeatures>
        ensures { result ≡ lifting self }
    {
        match self {
            OperatorRule::Floats => Some(WasmFeatures::FLOATS),
            OperatorRule::Simd => Some(WasmFeatures::SIMD),
            OperatorRule::MultiValue => Some(WasmFeatures::MULTI_VALUE),
            OperatorRule::ReferenceTypes => Some(WasmFeatures::REFERENCE_TYPES),
            OperatorRule::BulkMemory => Some(WasmFeatures::BULK_MEMORY),
            OperatorRule::Exceptions => Some(WasmFeatures::EXCEPTIONS),
            OperatorRule::FunctionReferences => Some(WasmFeatures::FUNCTION_REFERENCES),
            OperatorRule::Gc => Some(WasmFeatures::GC),
            OperatorRule::SharedEverything => Some(WasmFeatures::SHARED_EVERYTHING_THREADS),
            OperatorRule::CustomDescriptors => Some(WasmFeatures::CUSTOM_DESCRIPTORS),
            OperatorRule::CastTypesOfHierarchy => Some(WasmFeatures::CUSTOM_DESCRIPTORS),
            OperatorRule::ReferenceProposal(rule) => Some(rule.feature()),
            OperatorRule::LocalGlobal => Some(WasmFeatures::GC),
            OperatorRule::VectorOperators => Some(WasmFeatures::VECTOR_OPERATORS),
            OperatorRule::AtomicOperators => Some(WasmFeatures::ATOMIC_OPERATORS),
            OperatorRule::Threads => Some(WasmFeatures::THREADS),
            OperatorRule::LegacyExceptions => Some(WasmFeatures::LEGACY_EXCEPTIONS),
            OperatorRule::StackSwitching => Some(WasmFeatures::STACK_SWITCHING),
            _ => None,
        }
    }

    /// What the index of an item is called, where the rule is that the item is there.
    fn index<'a>(self) -> Option<&'a str> {
        match self {
            OperatorRule::UnknownLocal => Some("local"),
            OperatorRule::UnknownGlobal => Some("global"),
            OperatorRule::UnknownFunction => Some("function"),
            OperatorRule::UnknownType => Some("type"),
            OperatorRule::UnknownTable => Some("table"),
            OperatorRule::UnknownMemory => Some("memory"),
            OperatorRule::UnknownTag => Some("tag"),
            OperatorRule::UnknownElements | OperatorRule::UnknownData => Some("segment"),
            _ => None,
        }
    }

    /// What is said of each rule, without the number that belongs to it.
    fn text<'a>(self) -> &'a str {
        match self {
            OperatorRule::Operand => "type mismatch: an operand of another type is expected",
            OperatorRule::AnyOperand => "type mismatch: expected a type but nothing on stack",
            OperatorRule::Reference => "type mismatch: expected a reference type",
            OperatorRule::ReferenceBelow => "type mismatch: expected a reference of another type",
            OperatorRule::Comparable =>
                "type mismatch: expected `ref.eq` types to match `shared`-ness",
            OperatorRule::Selected =>
                "type mismatch: select only takes two numbers or vectors of one type",
            OperatorRule::OperandsLeft =>
                "type mismatch: values remaining on stack at end of block",
            OperatorRule::Ended => "operators remaining after end of function body or expression",
            OperatorRule::Unfinished =>
                "control frames remain at end of function body or expression",
            OperatorRule::ElseWithoutIf => "else found outside of an `if` block",
            OperatorRule::MissingElse =>
                "type mismatch: an `if` without `else` must give what it takes",
            OperatorRule::UnknownLocal => "unknown local",
            OperatorRule::UnsetLocal => "uninitialized local",
            OperatorRule::UnknownGlobal => "unknown global",
            OperatorRule::ImmutableGlobal =>
                "global is immutable: cannot modify it with `global.set`",
            OperatorRule::UnknownLabel => "unknown label: branch depth too large",
            OperatorRule::LabelTypes => "type mismatch: label has other types",
            OperatorRule::UnknownFunction => "unknown function",
            OperatorRule::UndeclaredFunction => "undeclared function reference",
            OperatorRule::UnknownType => "unknown type",
            OperatorRule::NotAFunction => "expected func type",
            OperatorRule::NotAStruct => "expected struct type",
            OperatorRule::NotAnArray => "expected array type",
            OperatorRule::UnknownField => "unknown field: field index out of bounds",
            OperatorRule::ImmutableField =>
                "invalid struct modification: struct field is immutable",
            OperatorRule::ImmutableArray => "invalid array modification: array is immutable",
            OperatorRule::FieldPacked => "can only use struct.get with non-packed storage types",
            OperatorRule::FieldNotPacked =>
                "cannot use struct.get_s or struct.get_u with non-packed storage types",
            OperatorRule::ArrayPacked => "cannot use array.get with packed storage types",
            OperatorRule::ArrayNotPacked =>
                "cannot use array.get_s or array.get_u with non-packed storage types",
            OperatorRule::NoDefault => "type mismatch: field or element type is not defaultable",
            OperatorRule::NotNumeric =>
                "type mismatch: arrays from data have numeric or vector elements",
            OperatorRule::ElementTypes => "type mismatch: elements of another type are expected",
            OperatorRule::UnknownTable => "unknown table",
            OperatorRule::TableTypes => "type mismatch: table has another element type",
            OperatorRule::UnknownMemory => "unknown memory",
            OperatorRule::Alignment => "alignment must not be larger than natural",
            OperatorRule::Offset => "offset out of range: must be <= 2**32",
            OperatorRule::UnknownTag => "unknown tag",
            OperatorRule::TagResults => "invalid exception type: non-empty tag result type",
            OperatorRule::CatchTypes =>
                "type mismatch: catch clause sends other types than its label has",
            OperatorRule::UnknownElements => "unknown elem segment",
            OperatorRule::UnknownData => "unknown data segment",
            OperatorRule::MissingDataCount => "data count section required",
            OperatorRule::CastTypes | OperatorRule::CastTypesOfHierarchy =>
                "type mismatch: cast to a type that is not a subtype",
            OperatorRule::ReturnTypes =>
                "type mismatch: callee returns other types than the function",
            OperatorRule::Shared => "shared functions cannot access what is not shared",
            OperatorRule::ContinuationTypes => "cannot test or cast continuation references",
            OperatorRule::NotConstant => "constant expression required: non-constant operator",
            OperatorRule::MutableGlobal =>
                "constant expression required: global.get of mutable global",
            OperatorRule::LocalGlobal =>
                "constant expression required: global.get of locally defined global",
            OperatorRule::TooManyLocals => "too many locals: locals exceed maximum",
            OperatorRule::Failed => "function validator failed: an earlier check was refused",
            OperatorRule::Floats => "floating-point support is disabled",
            OperatorRule::Simd => "SIMD support is not enabled",
            OperatorRule::ValueType => "invalid value type",
            OperatorRule::MultiValue =>
                "blocks, loops, and ifs may only produce a resulttype when multi-value is not enabled",
            OperatorRule::ReferenceTypes => "reference types support is not enabled",
            OperatorRule::BulkMemory => "bulk memory support is not enabled",
            OperatorRule::Exceptions => "exceptions support is not enabled",
            OperatorRule::FunctionReferences => "function references support is not enabled",
            OperatorRule::Gc => "gc support is not enabled",
            OperatorRule::SharedEverything => "shared-everything-threads support is not enabled",
            OperatorRule::CustomDescriptors => "custom descriptors support is not enabled",
            OperatorRule::ReferenceProposal(rule) => rule.text(),
            OperatorRule::NewWithoutDescriptor =>
                "type with descriptor requires descriptor allocation: `struct.new`",
            OperatorRule::NewDefaultWithoutDescriptor =>
                "type with descriptor requires descriptor allocation: `struct.new_default`",
            OperatorRule::NewDescOfUndescribed => "invalid `struct.new_desc`",
            OperatorRule::NewDefaultDescOfUndescribed => "invalid `struct.new_default_desc`",
            OperatorRule::VectorOperators => "vector operators are not served",
            OperatorRule::AtomicOperators => "atomic operators are not served",
            OperatorRule::Threads => "threads support is not enabled",
            OperatorRule::Lane => "SIMD index out of bounds",
            OperatorRule::AtomicAlignment =>
                "atomic instructions must always specify maximum alignment",
            OperatorRule::LegacyExceptions => "illegal opcode",
            OperatorRule::CatchOutsideTry => "catch found outside of a `try` block",
            OperatorRule::CatchAllOutsideTry => "catch_all found outside of a `try` block",
            OperatorRule::DelegateOutsideTry => "delegate found outside of a `try` block",
            OperatorRule::RethrowLabel => "invalid rethrow label: target was not a `catch` block",
            OperatorRule::CatchCount => "catches size is out of bounds",
            OperatorRule::Opcode | OperatorRule::OpcodeBehind(_) => "illegal opcode",
            OperatorRule::AtomicGlobal => "global is immutable",
            OperatorRule::AtomicType => "invalid type",
            OperatorRule::CastToUndescribed => "cast target must have descriptor",
            OperatorRule::CastToAbstract => "unexpected heap type",
            OperatorRule::UndescribedType => "expected type with descriptor",
            OperatorRule::StackSwitching => "stack switching support is not enabled",
            OperatorRule::NotAContinuation => "non-continuation type",
            OperatorRule::ContinuationArguments => "type mismatch in continuation arguments",
            OperatorRule::ContinuationSignatures => "type mismatch in continuation types",
            OperatorRule::NoContinuation => "type mismatch: expected a continuation reference",
            OperatorRule::HandleTypes => "type mismatch between tag type and label type",
            OperatorRule::SwitchTag => "type mismatch: switch tag does not match continuation",
            OperatorRule::SwitchParams => "type mismatch: non-empty tag parameter type",
        }
    }

    /// Writes what is said where the rule is broken, with the number that belongs to it.
    pub fn write<W: fmt::Write>(self, f: &mut fmt::Formatter<W>, number: u32) -> fmt::Result {
        let text = self.text();
        if let Some(index) = self.index() {
            return write!(f, "{text} {number}: {index} index out of bounds");
        }
        match self {
            OperatorRule::UnsetLocal => write!(f, "{text}: {number}"),
            OperatorRule::LegacyExceptions | OperatorRule::Opcode => {
                write!(f, "{text} 0x{number:02x}")
            }
            OperatorRule::OpcodeBehind(prefix) => write!(f, "{text} {prefix:#04x} {number}"),
            OperatorRule::NotAContinuation => write!(f, "{text} {number}"),
            OperatorRule::NotAFunction | OperatorRule::NotAStruct | OperatorRule::NotAnArray => {
                write!(f, "{text} at index {number}")
            }
            OperatorRule::NewWithoutDescriptor | OperatorRule::NewDefaultWithoutDescriptor => {
                write!(f, "{text} with type {number}")
            }
            OperatorRule::NewDescOfUndescribed | OperatorRule::NewDefaultDescOfUndescribed => {
                write!(f, "{text}: type {number} is not described")
            }
            OperatorRule::AtomicGlobal => write_atomic_global(f, number),
            OperatorRule::AtomicType => write_atomic_type(f, number),
            _ => f.write_str(text),
        }
    }
}

/// The operators of constant expressions that need a proposal (Core Specification 3.0, Validation,
/// Constant Expressions).
#[derive(Clone, Copy, PartialEq, Eq, Debug)]
pub enum GatedConstant {
    /// `i32.add`.
    I32Add,
    /// `i32.sub`.
    I32Sub,
    /// `i32.mul`.
    I32Mul,
    /// `i64.add`.
    I64Add,
    /// `i64.sub`.
    I64Sub,
    /// `i64.mul`.
    I64Mul,
    /// `struct.new`.
    StructNew,
    /// `struct.new_default`.
    StructNewDefault,
    /// `struct.new_desc`.
    StructNewDesc,
    /// `struct.new_default_desc`.
    StructNewDefaultDesc,
    /// `array.new`.
    ArrayNew,
    /// `array.new_default`.
    ArrayNewDefault,
    /// `array.new_fixed`.
    ArrayNewFixed,
    /// `ref.i31`.
    RefI31,
    /// `extern.convert_any`.
    ExternConvertAny,
    /// `any.convert_extern`.
    AnyConvertExtern,
    /// `ref.i31_shared`.
    RefI31Shared,
}

impl GatedConstant {
    /// The operator's name.
    pub fn name<'a>(self) -> &'a str {
        match self {
            GatedConstant::I32Add => "i32.add",
            GatedConstant::I32Sub => "i32.sub",
            GatedConstant::I32Mul => "i32.mul",
            GatedConstant::I64Add => "i64.add",
            GatedConstant::I64Sub => "i64.sub",
            GatedConstant::I64Mul => "i64.mul",
            GatedConstant::StructNew => "struct.new",
            GatedConstant::StructNewDefault => "struct.new_default",
            GatedConstant::StructNewDesc => "struct.new_desc",
            GatedConstant::StructNewDefaultDesc => "struct.new_default_desc",
            GatedConstant::ArrayNew => "array.new",
            GatedConstant::ArrayNewDefault => "array.new_default",
            GatedConstant::ArrayNewFixed => "array.new_fixed",
            GatedConstant::RefI31 => "ref.i31",
            GatedConstant::ExternConvertAny => "extern.convert_any",
            GatedConstant::AnyConvertExtern => "any.convert_extern",
            GatedConstant::RefI31Shared => "ref.i31_shared",
        }
    }

    /// The proposal that it needs.
    pub fn feature(self) -> WasmFeatures
        ensures { result ≡ needed_by self }
    {
        match self {
            GatedConstant::I32Add
            | GatedConstant::I32Sub
            | GatedConstant::I32Mul
            | GatedConstant::I64Add
            | GatedConstant::I64Sub
            | GatedConstant::I64Mul => WasmFeatures::EXTENDED_CONST,
            GatedConstant::RefI31Shared => WasmFeatures::SHARED_EVERYTHING_THREADS,
            _ => WasmFeatures::GC,
        }
    }
}
