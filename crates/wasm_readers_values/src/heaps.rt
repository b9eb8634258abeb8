//! Abstract heap types in their hierarchies: which stand below which, and at the top (Core
//! Specification 3.0, Validation, Matching, Heap Types).

ghost use Rattle.std.specs.Prelude.{◌≡◌};
ghost use Rattle.wasm_spec.specs.Matching.{top_of};
ghost use Rattle.wasm_spec.specs.MatchingTests.{same_flag, matches_abstract};
ghost use Rattle.wasm_readers_values.specs.SeenValues.{abstract_heap_of};

use crate::values::AbstractHeapType;

impl AbstractHeapType {
    /// Whether it is the other, or is below it by rules one after another.
    pub fn is_subtype_of(self, other: AbstractHeapType) -> bool
        ensures { result ≡ matches_abstract (abstract_heap_of self) (abstract_heap_of other) }
    {
        use AbstractHeapType::*;
        match self {
            Any => matches!(other, Any),
            Eq => matches!(other, Eq | Any),
            I31 => matches!(other, I31 | Eq | Any),
            Struct => matches!(other, Struct | Eq | Any),
            Array => matches!(other, Array | Eq | Any),
            None => matches!(other, None | I31 | Struct | Array | Eq | Any),
            Func => matches!(other, Func),
            NoFunc => matches!(other, NoFunc | Func),
            Extern => matches!(other, Extern),
            NoExtern => matches!(other, NoExtern | Extern),
            Exn => matches!(other, Exn),
            NoExn => matches!(other, NoExn | Exn),
            Cont => matches!(other, Cont),
            NoCont => matches!(other, NoCont | Cont),
        }
    }

    /// The greatest abstract heap type above it.
    pub fn top(self) -> AbstractHeapType
        ensures { abstract_heap_of result ≡ top_of (abstract_heap_of self) }
    {
        use AbstractHeapType::*;
        match self {
            Any | Eq | I31 | Struct | Array | None => Any,
            Func | NoFunc => Func,
            Extern | NoExtern => Extern,
            Exn | NoExn => Exn,
            Cont | NoCont => Cont,
        }
    }
}

/// Whether both are shared or neither is.
pub fn same_flag(a: bool, b: bool) -> bool
    ensures { result ≡ same_flag a b }
{
    if a { b } else { !b }
}
