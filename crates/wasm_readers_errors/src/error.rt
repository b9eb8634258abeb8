//! What a refusal is: a [`Fault`], the byte where it is, counted from the start of the input, and
//! the proposal that would lift it, if one would.
//!
//! A fault is a rule that is broken, with what its text names. Those of the binary format are
//! [`Malformed`]; the rest are rules of validation, in families by the part of the standard. Its text
//! is written only where it is printed. An [`Error`] is a refusal, or memory that was refused.

ghost use Rattle.std.specs.Prelude.{◌≡◌};

use crate::item_rules::ItemRule;
use std::alloc::{AllocError, AllocFailed};
use std::fmt;
use wasm_readers_features::{
    DescriptorRule, GatedConstant, GroupRule, OperatorRule, ValueTypeRule, WasmFeatures,
};
use wasm_readers_values::ValType;

/// Numbers, by sign and width in bits (Core Specification 3.0, Binary Format, Values, Integers).
#[derive(Clone, Copy, PartialEq, Eq, Debug)]
pub enum Integer {
    /// Unsigned, 32 bits: indices, sizes and counts.
    U32,
    /// Unsigned, 64 bits: limits, and offsets of memory arguments.
    U64,
    /// Signed, 33 bits: type indices where a heap type or a block type may stand.
    S33,
    /// Signed, 32 bits: constants.
    I32,
    /// Signed, 64 bits: constants.
    I64,
}

impl Integer {
    fn text<'a>(self) -> &'a str {
        match self {
            Integer::U32 => "u32",
            Integer::U64 => "u64",
            Integer::S33 => "s33",
            Integer::I32 => "i32",
            Integer::I64 => "i64",
        }
    }
}

/// Where bytes don't follow the binary format.
#[derive(Clone, Copy, PartialEq, Eq, Debug)]
pub enum Malformed {
    /// The bytes end where more must stand.
    UnexpectedEnd,
    /// A number takes more bytes than its width allows; one of 33 bits also where its last byte has
    /// bits beyond the width.
    IntegerTooLong(Integer),
    /// The last byte of a number has bits beyond its width.
    IntegerTooLarge(Integer),
    /// A name is not text in UTF-8.
    NotUtf8,
    /// What stands for a heap type is none.
    HeapType,
    /// What stands for a reference type is none.
    ReferenceType,
    /// What stands for a value type is none.
    ValueType,
    /// What stands for a composite type is none.
    CompositeType,
    /// The byte that says whether a field may be set is neither 0 nor 1.
    Mutability,
    /// The byte between `0x40` and the type of a table with an initializer is not 0.
    TableEncoding,
    /// The flags of an element segment are none.
    ElementFlags,
    /// The kind of an element segment's items is not that of functions.
    ElementKind,
    /// The flags of a data segment are none.
    DataFlags,
    /// The flags of a table or memory type have a bit without a meaning.
    LimitsFlags,
    /// The flags of a global type have a bit without a meaning.
    GlobalFlags,
    /// The attribute of a tag is not 0.
    TagAttribute,
    /// The kind of an import is none.
    ImportKind,
    /// The kind of an export is none.
    ExportKind,
    /// The input does not begin as a module does.
    MagicNumber,
    /// The version of the format is not known.
    BinaryVersion,
    /// A section stands behind one that it must stand before, or twice.
    SectionOutOfOrder,
    /// A section has bytes behind its last item.
    SectionSize,
    /// There are not as many bodies as functions.
    FunctionAndCodeCounts,
    /// There are not as many data segments as the data count says.
    DataCounts,
    /// No operator has this opcode, which is one byte.
    Opcode(u8),
    /// No operator has this opcode: a prefix, and the number after it.
    PrefixedOpcode(u8, u32),
    /// The byte behind `atomic.fence` isn't zero.
    FenceByte,
    /// The alignment of a memory operator is too large.
    Alignment,
    /// The flags of a cast have a bit without a meaning.
    CastFlags,
    /// The kind of a catch clause is none.
    CatchKind,
    /// The ordering of an atomic access, which is none.
    Ordering(u32),
    /// The kind of a handler is none.
    HandleKind,
}

impl Malformed {
    fn write<W: fmt::Write>(self, f: &mut fmt::Formatter<W>) -> fmt::Result {
        match self {
            Malformed::IntegerTooLong(integer) => write_integer(
                f,
                integer.text(),
                "integer representation too long",
            ),
            Malformed::IntegerTooLarge(integer) => write_integer(
                f,
                integer.text(),
                "integer too large",
            ),
            Malformed::Opcode(opcode) => write!(f, "illegal opcode {opcode:#04x}"),
            Malformed::PrefixedOpcode(prefix, code) => write!(
                f,
                "illegal opcode {prefix:#04x} {code}"
            ),
            Malformed::Ordering(ordering) => write!(
                f,
                "invalid atomic consistency ordering {ordering}"
            ),
            other => f.write_str(other.text()),
        }
    }

    fn text<'a>(self) -> &'a str {
        match self {
            Malformed::UnexpectedEnd => "unexpected end-of-file",
            Malformed::IntegerTooLong(_) | Malformed::IntegerTooLarge(_) => "invalid integer",
            Malformed::NotUtf8 => "malformed UTF-8 encoding",
            Malformed::HeapType => "invalid heap type",
            Malformed::ReferenceType => "malformed reference type",
            Malformed::ValueType => "invalid value type",
            Malformed::CompositeType => "invalid leading byte for composite type",
            Malformed::Mutability => "malformed mutability byte for field type",
            Malformed::TableEncoding => "invalid table encoding",
            Malformed::ElementFlags => "invalid flags byte in element segment",
            Malformed::ElementKind =>
                "only the function external type is supported in elem segment",
            Malformed::DataFlags => "invalid flags byte in data segment",
            Malformed::LimitsFlags => "invalid limits flags",
            Malformed::GlobalFlags => "malformed mutability -- or shared flags",
            Malformed::TagAttribute => "invalid tag attributes",
            Malformed::ImportKind => "invalid leading byte for external kind of an import",
            Malformed::ExportKind => "invalid leading byte for external kind",
            Malformed::MagicNumber => "magic header not detected: bad magic number",
            Malformed::BinaryVersion => "unknown binary version",
            Malformed::SectionOutOfOrder => "section out of order",
            Malformed::SectionSize =>
                "section size mismatch: unexpected data at the end of the section",
            Malformed::FunctionAndCodeCounts =>
                "function and code section have inconsistent lengths",
            Malformed::DataCounts => "data count and data section have inconsistent lengths",
            Malformed::Opcode(_) | Malformed::PrefixedOpcode(_, _) => "illegal opcode",
            Malformed::FenceByte => "nonzero byte after `atomic.fence`",
            Malformed::Alignment => "malformed memop alignment: alignment too large",
            Malformed::CastFlags => "malformed cast flags",
            Malformed::CatchKind => "invalid leading byte for a catch clause",
            Malformed::Ordering(_) => "invalid atomic consistency ordering",
            Malformed::HandleKind => "invalid leading byte for an on clause",
        }
    }
}

/// Calls that come where the validator doesn't take them.
#[derive(Clone, Copy, PartialEq, Eq, Debug)]
pub enum OutOfOrder {
    /// A section before the header.
    SectionBeforeHeader,
    /// A section behind the end.
    SectionAfterEnd,
    /// A header where a module has begun or the validator has failed.
    Header,
    /// The end before the header.
    EndBeforeHeader,
    /// The end a second time.
    EndAfterEnd,
    /// A section where an earlier call was refused.
    SectionAfterFailure,
    /// A section of a kind that must stand before the bodies.
    SectionAfterCodeStart,
    /// A body before the section of bodies.
    CodeEntryBeforeCodeStart,
    /// More bodies than functions that are defined.
    CodeEntryWithoutFunction,
}

impl OutOfOrder {
    fn text<'a>(self) -> &'a str {
        match self {
            OutOfOrder::SectionBeforeHeader => "unexpected section before header was parsed",
            OutOfOrder::SectionAfterEnd => "unexpected section after parsing has completed",
            OutOfOrder::Header => "wasm version header out of order",
            OutOfOrder::EndBeforeHeader => "cannot call `end` before a header has been parsed",
            OutOfOrder::EndAfterEnd => "cannot call `end` after parsing has completed",
            OutOfOrder::SectionAfterFailure => "validator failed: an earlier section was refused",
            OutOfOrder::SectionAfterCodeStart =>
                "unexpected section after the code section started",
            OutOfOrder::CodeEntryBeforeCodeStart =>
                "code section entry before the code section started",
            OutOfOrder::CodeEntryWithoutFunction => "code section entry without a function",
        }
    }
}

/// Rules of validation whose texts name no number.
#[derive(Clone, Copy, PartialEq, Eq, Debug)]
pub enum Rule {
    /// Floating-point types need `FLOATS`.
    Floats,
    /// Vectors need `SIMD`.
    Simd,
    /// More than one result needs `MULTI_VALUE`.
    MultiValue,
    /// Tags need `EXCEPTIONS`.
    Exceptions,
    /// The list of types has no ids left for the group.
    TooManyTypes,
    /// The effective size of the module's type stays below 1,000,000.
    EffectiveSize,
    /// Components are not validated.
    ComponentModelLeftOut,
}

impl Rule {
    fn text<'a>(self) -> &'a str {
        match self {
            Rule::Floats => "floating-point support is disabled",
            Rule::Simd => "SIMD support is not enabled",
            Rule::MultiValue =>
                "func type returns multiple values but the multi-value feature is not enabled",
            Rule::Exceptions => "exceptions proposal not enabled",
            Rule::TooManyTypes => "implementation limit: too many core types",
            Rule::EffectiveSize => "effective type size exceeds the limit of 1000000",
            Rule::ComponentModelLeftOut =>
                "component model validation support disabled at compile time",
        }
    }
}

/// What a limit counts.
#[derive(Clone, Copy, PartialEq, Eq, Debug)]
pub enum Counted {
    /// Types of a module.
    Types,
    /// Import entries.
    Imports,
    /// Functions, imported and defined.
    Functions,
    /// Tables, imported and defined.
    Tables,
    /// Memories, imported and defined.
    Memories,
    /// Tags, imported and defined.
    Tags,
    /// Globals, imported and defined.
    Globals,
    /// Exports.
    Exports,
    /// Element segments.
    ElementSegments,
    /// Data segments.
    DataSegments,
    /// Bytes of a function body.
    FunctionBodySize,
}

impl Counted {
    fn text<'a>(self) -> &'a str {
        match self {
            Counted::Types => "types",
            Counted::Imports => "imports",
            Counted::Functions => "functions",
            Counted::Tables => "tables",
            Counted::Memories => "memories",
            Counted::Tags => "tags",
            Counted::Globals => "globals",
            Counted::Exports => "exports",
            Counted::ElementSegments => "element segments",
            Counted::DataSegments => "data segments",
            Counted::FunctionBodySize => "function body size",
        }
    }
}

/// The kinds of items of a module that have an index space.
#[derive(Clone, Copy, PartialEq, Eq, Debug)]
pub enum ItemKind {
    /// Functions.
    Function,
    /// Tables.
    Table,
    /// Memories.
    Memory,
    /// Globals.
    Global,
    /// Tags.
    Tag,
}

impl ItemKind {
    fn text<'a>(self) -> &'a str {
        match self {
            ItemKind::Function => "function",
            ItemKind::Table => "table",
            ItemKind::Memory => "memory",
            ItemKind::Global => "global",
            ItemKind::Tag => "tag",
        }
    }
}

/// Why content is refused.
#[derive(Clone, Copy, PartialEq, Eq)]
pub enum Fault {
    /// Bytes that do not follow the binary format.
    Malformed(Malformed),
    /// A call where the validator does not take it.
    OutOfOrder(OutOfOrder),
    /// Another rule whose text names no number.
    Rule(Rule),
    /// A rule of recursion groups and their types.
    Group(GroupRule),
    /// A rule of descriptor clauses.
    Descriptor(DescriptorRule),
    /// A reference type without the proposal that it needs.
    ValueType(ValueTypeRule),
    /// A rule of imports, tables, memories, tags, globals, start functions, data counts or segments.
    Item(ItemRule),
    /// A type index that is not in the type index space.
    UnknownType(u32),
    /// The index of the type that it stands in, where no type refers to itself.
    UnknownTypeWithoutGc(u32),
    /// A type index behind the recursion group that it stands in.
    OutOfGroup(u32),
    /// A sub type with so many types above it.
    SubtypesTooDeep(u32),
    /// A type index of what is no function type.
    NotAFunctionType(u32),
    /// A continuation type of a type, by its id, that is not a function type.
    NotAFunctionId(u32),
    /// A memory of more than so many pages, each of so many bytes.
    MemorySize(u64, u64),
    /// The index of a function that is not in the function index space.
    UnknownFunction(u32),
    /// An export of an index that is not in its index space.
    UnknownExport(ItemKind, u32),
    /// More of something than may be.
    Limit(Counted, u32),
    /// A rule of operators, with the index that belongs to it, where one does.
    Operator(OperatorRule, u32),
    /// An operand of the first type is expected, and there is one of the second, or none.
    OperandType(ValType, Option<ValType>),
    /// An operator of constant expressions without the proposal that it needs.
    GatedConstant(GatedConstant),
    /// A section id that no section has.
    UnknownSection(u8),
    /// A version of the format that is not known.
    UnknownBinaryVersion(u16),
    /// A component header of this number, without the component model.
    ComponentHeader(u16),
}

/// A variant and its field, as a derived `Debug` writes them.
fn write_variant<T: fmt::Debug, W: fmt::Write>(
    f: &mut fmt::Formatter<W>,
    name: &str,
    field: &T,
) -> fmt::Result {
    f.debug_tuple(name).field(field).finish()
}

/// A variant and its two fields, as a derived `Debug` writes them.
fn write_pair<T: fmt::Debug, U: fmt::Debug, W: fmt::Write>(
    f: &mut fmt::Formatter<W>,
    name: &str,
    first: &T,
    second: &U,
) -> fmt::Result {
    f.debug_tuple(name).field(first).field(second).finish()
}

// By hand: so each variant takes one call for it, and not three.
impl fmt::Debug for Fault {
    fn fmt<W: fmt::Write>(&self, f: &mut fmt::Formatter<W>) -> fmt::Result {
        match self {
            Fault::Malformed(malformed) => write_variant(f, "Malformed", malformed),
            Fault::OutOfOrder(order) => write_variant(f, "OutOfOrder", order),
            Fault::Rule(rule) => write_variant(f, "Rule", rule),
            Fault::Group(rule) => write_variant(f, "Group", rule),
            Fault::Descriptor(rule) => write_variant(f, "Descriptor", rule),
            Fault::ValueType(rule) => write_variant(f, "ValueType", rule),
            Fault::Item(rule) => write_variant(f, "Item", rule),
            Fault::UnknownType(index) => write_variant(f, "UnknownType", index),
            Fault::UnknownTypeWithoutGc(index) => write_variant(f, "UnknownTypeWithoutGc", index),
            Fault::OutOfGroup(index) => write_variant(f, "OutOfGroup", index),
            Fault::SubtypesTooDeep(depth) => write_variant(f, "SubtypesTooDeep", depth),
            Fault::NotAFunctionType(index) => write_variant(f, "NotAFunctionType", index),
            Fault::NotAFunctionId(id) => write_variant(f, "NotAFunctionId", id),
            Fault::MemorySize(pages, page) => write_pair(f, "MemorySize", pages, page),
            Fault::UnknownFunction(index) => write_variant(f, "UnknownFunction", index),
            Fault::UnknownExport(kind, index) => write_pair(f, "UnknownExport", kind, index),
            Fault::Limit(what, limit) => write_pair(f, "Limit", what, limit),
            Fault::Operator(rule, number) => write_pair(f, "Operator", rule, number),
            Fault::OperandType(expected, found) => write_pair(f, "OperandType", expected, found),
            Fault::GatedConstant(operator) => write_variant(f, "GatedConstant", operator),
            Fault::UnknownSection(id) => write_variant(f, "UnknownSection", id),
            Fault::UnknownBinaryVersion(number) => write_variant(f, "UnknownBinaryVersion", number),
            Fault::ComponentHeader(number) => write_variant(f, "ComponentHeader", number),
        }
    }
}

impl fmt::Display for Fault {
    fn fmt<W: fmt::Write>(&self, f: &mut fmt::Formatter<W>) -> fmt::Result {
        match self {
            Fault::Malformed(malformed) => malformed.write(f),
            Fault::OutOfOrder(order) => f.write_str(order.text()),
            Fault::Rule(rule) => f.write_str(rule.text()),
            Fault::Group(rule) => f.write_str(rule.text()),
            Fault::Descriptor(rule) => f.write_str(rule.text()),
            Fault::ValueType(rule) => f.write_str(rule.text()),
            Fault::Item(rule) => f.write_str(rule.text()),
            Fault::UnknownType(index) => write_unknown_type(f, *index, "bounds"),
            Fault::UnknownTypeWithoutGc(index) => write_unknown_type(
                f,
                *index,
                "bounds because the GC proposal is disabled",
            ),
            Fault::OutOfGroup(index) => write_unknown_type(f, *index, "rec group bounds"),
            Fault::SubtypesTooDeep(depth) => write_too_deep(f, *depth),
            Fault::NotAFunctionType(index) => write!(
                f,
                "type index {index} is not a function type"
            ),
            Fault::NotAFunctionId(id) => write!(f, "non-function type {id}"),
            Fault::MemorySize(pages, page) => write!(
                f,
                "memory size must be at most {pages:#x} {page}-byte pages"
            ),
            Fault::UnknownFunction(index) => write_unknown_function(f, *index),
            Fault::UnknownExport(kind, index) => write_unknown_export(f, kind.text(), *index),
            Fault::Limit(what, limit) => write_limit(f, what.text(), *limit),
            Fault::Operator(rule, number) => rule.write(f, *number),
            Fault::OperandType(expected, found) => write_operand_type(f, *expected, *found),
            Fault::GatedConstant(operator) => write_gated_constant(f, operator.name()),
            Fault::UnknownSection(id) => write!(f, "malformed section id: {id}"),
            Fault::UnknownBinaryVersion(number) => write!(f, "unknown binary version: {number:#x}"),
            Fault::ComponentHeader(number) => write_component_header(f, *number),
        }
    }
}

fn write_integer<W: fmt::Write>(
    f: &mut fmt::Formatter<W>,
    integer: &str,
    what: &str,
) -> fmt::Result {
    write!(f, "invalid var_{integer}: {what}")
}

fn write_unknown_type<W: fmt::Write>(
    f: &mut fmt::Formatter<W>,
    index: u32,
    bounds: &str,
) -> fmt::Result {
    write!(f, "unknown type {index}: type index out of {bounds}")
}

fn write_too_deep<W: fmt::Write>(f: &mut fmt::Formatter<W>, depth: u32) -> fmt::Result {
    write!(
        f,
        "sub type hierarchy too deep: found depth {depth}, cannot exceed depth 63"
    )
}

fn write_unknown_function<W: fmt::Write>(f: &mut fmt::Formatter<W>, index: u32) -> fmt::Result {
    write!(f, "unknown function {index}: func index out of bounds")
}

fn write_unknown_export<W: fmt::Write>(
    f: &mut fmt::Formatter<W>,
    kind: &str,
    index: u32,
) -> fmt::Result {
    write!(
        f,
        "unknown {kind} {index}: exported {kind} index out of bounds"
    )
}

fn write_component_header<W: fmt::Write>(f: &mut fmt::Formatter<W>, number: u16) -> fmt::Result {
    write!(
        f,
        "unknown binary version and encoding combination: {number:#x} and 0x1, \
         note: encoded as a component but the WebAssembly component model feature is not enabled - \
         enable the feature to allow component validation"
    )
}

fn write_operand_type<W: fmt::Write>(
    f: &mut fmt::Formatter<W>,
    expected: ValType,
    found: Option<ValType>,
) -> fmt::Result {
    match found {
        Some(found) => write!(f, "type mismatch: expected {expected}, found {found}"),
        None => write!(f, "type mismatch: expected {expected} but nothing on stack"),
    }
}

fn write_gated_constant<W: fmt::Write>(f: &mut fmt::Formatter<W>, name: &str) -> fmt::Result {
    write!(
        f,
        "constant expression required: non-constant operator: {name}"
    )
}

fn write_limit<W: fmt::Write>(f: &mut fmt::Formatter<W>, what: &str, limit: u32) -> fmt::Result {
    if limit == 1 {
        write!(f, "multiple {what}")
    } else {
        write!(f, "{what} count exceeds limit of {limit}")
    }
}

/// A refusal of content: why, at which byte from the start of the input, and which proposal would
/// allow it, if one would.
#[derive(Clone, Copy, PartialEq, Eq, Debug)]
pub struct Refusal {
    /// Why.
    pub fault: Fault,
    /// The byte, counted from the start of the input.
    pub offset: u64,
    /// The proposal that would lift the refusal, where one would.
    pub missing: Option<WasmFeatures>,
}

impl Refusal {
    /// A refusal that no proposal lifts.
    pub fn new(fault: Fault, offset: u64) -> Refusal
        ensures { result ≡ record { fault = fault; offset = offset; missing = None } }
    {
        Refusal {
            fault,
            offset,
            missing: None,
        }
    }

    /// A refusal that this proposal would lift.
    pub fn missing(fault: Fault, offset: u64, feature: WasmFeatures) -> Refusal
        ensures { result ≡ record { fault = fault; offset = offset; missing = Some feature } }
    {
        Refusal {
            fault,
            offset,
            missing: Some(feature),
        }
    }
}

/// Why reading is refused: for the content, or for want of memory.
#[derive(Clone, Copy, PartialEq, Eq, Debug)]
pub enum Error {
    /// The content is refused.
    Refused(Refusal),
    /// Memory is refused, and nothing is said of the content.
    OutOfMemory,
}

impl Error {
    ghost use Rattle.std.specs.Prelude.{IsTrue, ◌↔◌};
    ghost use Rattle.wasm_readers_errors.specs.Errors.{IsMemory, offset_of, missing_of};

    /// Whether memory was refused, and nothing is said of the content.
    pub fn is_out_of_memory(&self) -> bool
        ensures { IsTrue result ↔ IsMemory self.now }
    {
        matches!(self, Error::OutOfMemory)
    }

    /// The offset from the start of the input, and 0 where memory was refused.
    pub fn offset(&self) -> u64
        ensures { result ≡ offset_of self.now }
    {
        match self {
            Error::Refused(refusal) => refusal.offset,
            Error::OutOfMemory => 0,
        }
    }

    /// The proposal without which the content is refused, if it is one.
    pub fn missing_features(&self) -> Option<WasmFeatures>
        ensures { result ≡ missing_of self.now }
    {
        match self {
            Error::Refused(refusal) => refusal.missing,
            Error::OutOfMemory => None,
        }
    }

    /// The message, which prints without the offset. A text is printed and never stored, so that
    /// this is the error itself.
    pub fn message(&self) -> &Error
        ensures { result.now ≡ self.now }
    {
        self
    }
}

/// The message alone, without the offset.
impl fmt::Display for Error {
    fn fmt<W: fmt::Write>(&self, f: &mut fmt::Formatter<W>) -> fmt::Result {
        match self {
            Error::Refused(refusal) => {
                let fault = refusal.fault;
                write!(f, "{fault}")
            }
            Error::OutOfMemory => f.write_str("out of memory"),
        }
    }
}

impl std::error::Error for Error {}

impl From<Refusal> for Error {
    ghost use Rattle.wasm_readers_errors.specs.declared.error.Error.TheVariants.{Refused};

    ghost from_gives = { λ r e. e ≡ Refused r };

    fn from(refusal: Refusal) -> Error {
        Error::Refused(refusal)
    }
}

impl From<AllocError> for Error {
    ghost use Rattle.wasm_readers_errors.specs.declared.error.Error.TheVariants.{OutOfMemory};

    ghost from_gives = { λ _ e. e ≡ OutOfMemory };

    fn from(_error: AllocError) -> Error {
        Error::OutOfMemory
    }
}

impl<T: Drop> From<AllocFailed<T>> for Error {
    ghost use Rattle.wasm_readers_errors.specs.declared.error.Error.TheVariants.{OutOfMemory};

    ghost from_gives = { λ _ e. e ≡ OutOfMemory };

    fn from(_error: AllocFailed<T>) -> Error {
        Error::OutOfMemory
    }
}
