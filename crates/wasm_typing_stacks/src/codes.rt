//! The codes of heap types.

ghost use Rattle.std.specs.Prelude.{◌≡◌, ◌<◌, ◌+◌, ◌*◌, ◌^◌, ◌/◌, ◌%◌};
ghost use Rattle.wasm_operators_plain.specs.WasmReadersTypes.WasmReadersValues.SeenValues.{abstract_heap_of, heap_of, ref_of, HeapFits};
ghost use Rattle.wasm_operators_plain.specs.WasmReadersTypes.WasmReadersValues.declared.indices.TheConstants.{MAX_IDS};
ghost use Rattle.wasm_typing_stacks.specs.TypeWords.{abstract_at, index_at, heap_at, ref_at, heap_number};

use wasm_operators_plain::readers_types::{
    AbstractHeapType, CoreTypeId, HeapType, RefType, UnpackedIndex,
};

/// The code of an abstract heap type.
pub fn abstract_code(ty: AbstractHeapType) -> u64
    ensures value { abstract_at result ≡ abstract_heap_of ty }
    ensures small { result < 14 }
{
    match ty {
        AbstractHeapType::Any => 0,
        AbstractHeapType::Eq => 1,
        AbstractHeapType::I31 => 2,
        AbstractHeapType::Struct => 3,
        AbstractHeapType::Array => 4,
        AbstractHeapType::None => 5,
        AbstractHeapType::Func => 6,
        AbstractHeapType::NoFunc => 7,
        AbstractHeapType::Extern => 8,
        AbstractHeapType::NoExtern => 9,
        AbstractHeapType::Exn => 10,
        AbstractHeapType::NoExn => 11,
        AbstractHeapType::Cont => 12,
        AbstractHeapType::NoCont => 13,
    }
}

/// The abstract heap type of a code.
#[tactic(auto, using(crate::proofs::TypeWordCodes::last_abstract))]
pub fn abstract_from_code(code: u64) -> AbstractHeapType
    ensures { abstract_heap_of result ≡ abstract_at code }
{
    match code {
        0 => AbstractHeapType::Any,
        1 => AbstractHeapType::Eq,
        2 => AbstractHeapType::I31,
        3 => AbstractHeapType::Struct,
        4 => AbstractHeapType::Array,
        5 => AbstractHeapType::None,
        6 => AbstractHeapType::Func,
        7 => AbstractHeapType::NoFunc,
        8 => AbstractHeapType::Extern,
        9 => AbstractHeapType::NoExtern,
        10 => AbstractHeapType::Exn,
        11 => AbstractHeapType::NoExn,
        12 => AbstractHeapType::Cont,
        _ => AbstractHeapType::NoCont,
    }
}

/// The code of an index.
#[tactic(auto, using(crate::proofs::TypeWordCodes::index_codes))]
pub(crate) fn index_code(index: UnpackedIndex) -> u64
    ensures value { index_at result ≡ index }
    ensures small { result < 2 ^ 34 }
{
    match index {
        UnpackedIndex::Id(id) => id.index() as u64 * 4,
        UnpackedIndex::Module(number) => number as u64 * 4 + 1,
        UnpackedIndex::RecGroup(number) => number as u64 * 4 + 2,
    }
}

/// The index of a code.
#[tactic(auto, using(crate::proofs::TypeWordCodes::index_codes))]
pub(crate) fn index_from_code(code: u64) -> UnpackedIndex
    requires { code < 2 ^ 34 }
    ensures { result ≡ index_at code }
{
    let number = (code / 4) as u32;
    match code % 4 {
        0 => UnpackedIndex::Id(CoreTypeId::from_index(number)),
        1 => UnpackedIndex::Module(number),
        _ => UnpackedIndex::RecGroup(number),
    }
}

/// How a heap type is told apart, and its code.
#[tactic(auto)]
pub(crate) fn heap_code(heap: HeapType) -> (u64, u64)
    requires { HeapFits heap }
    ensures value { heap_at result.0 result.1 ≡ heap_of heap }
    ensures kind { result.0 < 4 }
    ensures small { result.1 < 2 ^ 34 }
{
    match heap {
        HeapType::Abstract { shared, ty } => {
            let code = abstract_code(ty);
            if shared { (1, code) } else { (0, code) }
        }
        HeapType::Concrete(index) => (2, index_code(index)),
        HeapType::Exact(index) => (3, index_code(index)),
    }
}

/// The heap type that this tells.
#[tactic(auto, using(crate::proofs::TypeWordCodes::heap_codes))]
pub(crate) fn heap_from_code(kind: u64, code: u64) -> HeapType
    requires { code < 2 ^ 34 }
    ensures { heap_of result ≡ heap_at kind code }
{
    match kind {
        0 => HeapType::Abstract {
            shared: false,
            ty: abstract_from_code(code),
        },
        1 => HeapType::Abstract {
            shared: true,
            ty: abstract_from_code(code),
        },
        2 => HeapType::Concrete(index_from_code(code)),
        _ => HeapType::Exact(index_from_code(code)),
    }
}

/// The code of a reference type, behind how its heap type is told apart.
#[tactic(auto, using(crate::proofs::TypeWordCodes::ref_codes))]
pub(crate) fn ref_code(ty: RefType) -> (u64, u64)
    ensures value { ref_at result.0 result.1 ≡ ref_of ty }
    ensures kind { result.0 < 4 }
    ensures small { result.1 < 2 ^ 35 }
{
    let (kind, code) = heap_code(ty.heap_type());
    if ty.is_nullable() {
        (kind, code * 2 + 1)
    } else {
        (kind, code * 2)
    }
}

/// The reference type that this tells.
#[tactic(auto, using(crate::proofs::TypeWordCodes::ref_codes))]
pub(crate) fn ref_from_code(kind: u64, code: u64) -> RefType
    requires small { code < 2 ^ 35 }
    requires fits { heap_number (ref_at kind code).heap < MAX_IDS }
    ensures { ref_of result ≡ ref_at kind code }
{
    let nullable = code % 2 == 1;
    RefType::new(nullable, heap_from_code(kind, code / 2)).unwrap()
}
