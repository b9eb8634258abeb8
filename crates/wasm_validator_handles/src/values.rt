//! Value types, written as numbers.

ghost use Rattle.std.specs.Prelude.{◌≡◌, ◌≤◌, ◌<◌, IfSome};
ghost use Rattle.std.specs.Bool.{Decides};
ghost use Rattle.std.specs.Option.{option_map};
ghost use Rattle.std.specs.declared.option.Option.TheVariants.{Some as Just};
ghost use Rattle.wasm_validator.specs.WasmValidatorTypes.WasmValidatorTypeList.Lookups.{leads_to};
ghost use Rattle.wasm_validator.specs.WasmValidatorTypes.WasmValidatorTypeList.Subtyping.{heap_by_ids, ref_by_ids, val_by_ids};
ghost use Rattle.wasm_spec.specs.BinaryTypes.{abstract_heap_from};
ghost use Rattle.wasm_spec.specs.Syntax.{abstract_heap, map_heap, map_ref, map_val};
ghost use Rattle.wasm_readers_types.specs.WasmReadersValues.Indices.{Fits};
ghost use Rattle.wasm_readers_types.specs.WasmReadersValues.SeenValues.{HeapFits, abstract_heap_of, heap_of, ref_of, val_of};
ghost use Rattle.wasm_validator_handles.specs.Values.{Match, SaysMatch, TellsMatch, abstract_from, heap_from, id_from, reference_from, value_from};
ghost use Rattle.wasm_validator_handles.specs.Values.{abstract_number, heap_numbers, numbers_by_id, numbers_of, plain_numbers, reference_numbers};

use wasm_validator::{
    AbstractHeapType, CoreTypeId, HeapType, RefType, TypeList, UnpackedIndex, ValType,
};

/// The kind of `i32`, by its number in the binary format; and so on.
pub const I32: u32 = 0x7f;
/// `i64`
pub const I64: u32 = 0x7e;
/// `f32`
pub const F32: u32 = 0x7d;
/// `f64`
pub const F64: u32 = 0x7c;
/// `v128`
pub const V128: u32 = 0x7b;
/// A reference that isn't null.
pub const REFERENCE: u32 = 0x64;
/// A reference that may be null.
pub const NULL_OR_REFERENCE: u32 = 0x63;

/// In the place of an abstract heap type, where a reference is to a type by its id.
pub const TYPE_BY_ID: u32 = 0;

/// Ids are below this number.
pub const MOST_IDS: u32 = 1_048_576;

/// The flag of a reference to an abstract heap type that is shared between threads.
pub const SHARED_HEAP: u32 = 1;

/// The flag of a reference to exactly the type with its id.
pub const EXACT_HEAP: u32 = 2;

/// How many bytes a value type takes.
pub const VALUE_SIZE: u64 = 24;

/// A value type: by its number in the binary format, and the heap type of a reference, by its number
/// there or by an id, with a flag. All else is 0. C reads and writes it as `struct
/// ruthvelka_value_type`.
#[repr(C)]
#[derive(Clone, Copy)]
pub struct ValueType {
    pub size: u64,
    pub kind: u32,
    pub heap: u32,
    pub id: u32,
    pub flags: u32,
}

/// The value type of these numbers, if they are those of one.
fn read_value(it: ValueType) -> Option<ValType>
    ensures { option_map val_by_ids result ≡ value_from it }
{
    match it.kind {
        I32 => Some(ValType::I32),
        I64 => Some(ValType::I64),
        F32 => Some(ValType::F32),
        F64 => Some(ValType::F64),
        V128 => Some(ValType::V128),
        NULL_OR_REFERENCE => reference_value(true, it),
        REFERENCE => reference_value(false, it),
        _ => None,
    }
}

fn reference_value(nullable: bool, it: ValueType) -> Option<ValType>
    ensures { option_map val_by_ids result ≡ reference_from nullable it }
{
    match read_heap(it) {
        Some(heap) => Some(ValType::Ref(reference_to(nullable, heap))),
        None => None,
    }
}

fn reference_to(nullable: bool, heap: HeapType) -> RefType
    requires { HeapFits heap }
    ensures { ref_by_ids result ≡ record { nullable = nullable; heap = heap_by_ids heap } }
{
    match RefType::new(nullable, heap) {
        Some(reference) => reference,
        None => unreachable!(),
    }
}

fn read_heap(it: ValueType) -> Option<HeapType>
    ensures value { option_map heap_by_ids result ≡ heap_from it }
    ensures fits { IfSome result HeapFits }
{
    if it.heap == TYPE_BY_ID {
        read_id(it)
    } else {
        read_abstract(it)
    }
}

fn read_id(it: ValueType) -> Option<HeapType>
    ensures value { option_map heap_by_ids result ≡ id_from it }
    ensures fits { IfSome result HeapFits }
{
    if it.id < MOST_IDS {
        let index = UnpackedIndex::Id(CoreTypeId::from_index(it.id));
        match it.flags {
            0 => Some(HeapType::Concrete(index)),
            EXACT_HEAP => Some(HeapType::Exact(index)),
            _ => None,
        }
    } else {
        None
    }
}

fn read_abstract(it: ValueType) -> Option<HeapType>
    ensures value { option_map heap_by_ids result ≡ abstract_from it }
    ensures fits { IfSome result HeapFits }
{
    match it.flags {
        0 => abstract_type(false, it.heap),
        SHARED_HEAP => abstract_type(true, it.heap),
        _ => None,
    }
}

fn abstract_type(shared: bool, number: u32) -> Option<HeapType>
    ensures value { option_map heap_by_ids result
        ≡ option_map (abstract_heap shared) (abstract_heap_from number) }
    ensures fits { IfSome result HeapFits }
{
    match abstract_heap(number) {
        Some(ty) => Some(HeapType::Abstract { shared, ty }),
        None => None,
    }
}

fn abstract_heap(number: u32) -> Option<AbstractHeapType>
    ensures { option_map abstract_heap_of result ≡ abstract_heap_from number }
{
    match number {
        0x70 => Some(AbstractHeapType::Func),
        0x6f => Some(AbstractHeapType::Extern),
        0x6e => Some(AbstractHeapType::Any),
        0x6d => Some(AbstractHeapType::Eq),
        0x6c => Some(AbstractHeapType::I31),
        0x6b => Some(AbstractHeapType::Struct),
        0x6a => Some(AbstractHeapType::Array),
        0x69 => Some(AbstractHeapType::Exn),
        0x68 => Some(AbstractHeapType::Cont),
        0x71 => Some(AbstractHeapType::None),
        0x72 => Some(AbstractHeapType::NoExtern),
        0x73 => Some(AbstractHeapType::NoFunc),
        0x74 => Some(AbstractHeapType::NoExn),
        0x75 => Some(AbstractHeapType::NoCont),
        _ => None,
    }
}

/// Whether the list has all ids that both name, and the first matches the second.
fn is_match(list: &TypeList, first: ValType, second: ValType) -> bool
    ensures { Decides result (Match list.now first second) }
{
    list.holds_value(first) && list.holds_value(second) && list.valtype_is_subtype(first, second)
}

fn match_maybe(list: &TypeList, first: Option<ValType>, second: Option<ValType>) -> Option<bool>
    ensures { SaysMatch list.now first second result }
{
    match first {
        None => None,
        Some(first) => match second {
            None => None,
            Some(second) => Some(is_match(list, first, second)),
        },
    }
}

/// Whether the first matches the second, in a list that has all ids that both name; none where one of
/// them is no value type.
pub fn match_values(list: &TypeList, first: ValueType, second: ValueType) -> Option<bool>
    ensures { TellsMatch list.now first second result }
{
    let a = read_value(first);
    let b = read_value(second);
    match_maybe(list, a, b)
}

/// The numbers of a value type whose references stand in a recursion group with this first id.
pub fn tell_value(start: u32, ty: ValType) -> ValueType
    requires { start ≤ MOST_IDS }
    ensures { result ≡ numbers_of (map_val (leads_to start) (val_of ty)) }
{
    match ty {
        ValType::I32 => plain_value(I32),
        ValType::I64 => plain_value(I64),
        ValType::F32 => plain_value(F32),
        ValType::F64 => plain_value(F64),
        ValType::V128 => plain_value(V128),
        ValType::Ref(ty) => tell_reference(start, ty),
    }
}

/// The same of a reference type.
pub fn tell_reference(start: u32, ty: RefType) -> ValueType
    requires { start ≤ MOST_IDS }
    ensures { result ≡ reference_numbers (map_ref (leads_to start) (ref_of ty)) }
{
    let kind = if ty.is_nullable() {
        NULL_OR_REFERENCE
    } else {
        REFERENCE
    };
    tell_heap(start, kind, ty.heap_type())
}

fn tell_heap(start: u32, kind: u32, heap: HeapType) -> ValueType
    requires start { start ≤ MOST_IDS }
    requires fits { HeapFits heap }
    ensures { result ≡ heap_numbers kind (map_heap (leads_to start) (heap_of heap)) }
{
    match heap {
        HeapType::Abstract { shared, ty } => ValueType {
            size: VALUE_SIZE,
            kind,
            heap: tell_abstract(ty),
            id: 0,
            flags: if shared { SHARED_HEAP } else { 0 },
        },
        HeapType::Concrete(index) => value_by_id(kind, tell_index(start, index), 0),
        HeapType::Exact(index) => value_by_id(kind, tell_index(start, index), EXACT_HEAP),
    }
}

fn value_by_id(kind: u32, id: u32, flags: u32) -> ValueType
    ensures { result ≡ numbers_by_id kind id flags }
{
    ValueType {
        size: VALUE_SIZE,
        kind,
        heap: TYPE_BY_ID,
        id,
        flags,
    }
}

/// The numbers of a value type that is no reference.
fn plain_value(kind: u32) -> ValueType
    ensures { result ≡ plain_numbers kind }
{
    ValueType {
        size: VALUE_SIZE,
        kind,
        heap: 0,
        id: 0,
        flags: 0,
    }
}

/// What stands where there is no value type.
pub fn no_value() -> ValueType
    ensures { result ≡ plain_numbers 0 }
{
    plain_value(0)
}

fn tell_index(start: u32, index: UnpackedIndex) -> u32
    requires start { start ≤ MOST_IDS }
    requires fits { Fits index }
    ensures { result ≡ leads_to start index }
{
    match index {
        UnpackedIndex::Module(number) => number,
        UnpackedIndex::RecGroup(position) => start + position,
        UnpackedIndex::Id(id) => id.index() as u32,
    }
}

fn tell_abstract(ty: AbstractHeapType) -> u32
    ensures number { result ≡ abstract_number (abstract_heap_of ty) }
    ensures read { abstract_heap_from result ≡ Just (abstract_heap_of ty) }
{
    match ty {
        AbstractHeapType::Func => 0x70,
        AbstractHeapType::Extern => 0x6f,
        AbstractHeapType::Any => 0x6e,
        AbstractHeapType::Eq => 0x6d,
        AbstractHeapType::I31 => 0x6c,
        AbstractHeapType::Struct => 0x6b,
        AbstractHeapType::Array => 0x6a,
        AbstractHeapType::Exn => 0x69,
        AbstractHeapType::Cont => 0x68,
        AbstractHeapType::None => 0x71,
        AbstractHeapType::NoExtern => 0x72,
        AbstractHeapType::NoFunc => 0x73,
        AbstractHeapType::NoExn => 0x74,
        AbstractHeapType::NoCont => 0x75,
    }
}
