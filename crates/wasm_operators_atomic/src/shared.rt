//! The atomic accesses to globals, tables, structures and arrays, and `pause`: their names and their
//! numbers.

ghost use Rattle.std.specs.Prelude.{◌≡◌, ◌≢◌, IfSome, IfNone};
ghost use Rattle.wasm_operators_atomic.specs.SharedCodes.{shared_code, shared_operator_from};
ghost use Rattle.wasm_operators_atomic.specs.declared.shared.SharedAtomicOperator.{SharedAtomicOperator};

/// The atomic accesses to globals, tables, structures and arrays, and `pause` (Shared-Everything
/// Threads, Binary Format, Instructions).
#[derive(Clone, Copy, PartialEq, Eq, Debug)]
pub enum SharedAtomicOperator {
    Pause,
    GlobalAtomicGet,
    GlobalAtomicSet,
    GlobalAtomicRmwAdd,
    GlobalAtomicRmwSub,
    GlobalAtomicRmwAnd,
    GlobalAtomicRmwOr,
    GlobalAtomicRmwXor,
    GlobalAtomicRmwXchg,
    GlobalAtomicRmwCmpxchg,
    TableAtomicGet,
    TableAtomicSet,
    TableAtomicRmwXchg,
    TableAtomicRmwCmpxchg,
    StructAtomicGet,
    StructAtomicGetS,
    StructAtomicGetU,
    StructAtomicSet,
    StructAtomicRmwAdd,
    StructAtomicRmwSub,
    StructAtomicRmwAnd,
    StructAtomicRmwOr,
    StructAtomicRmwXor,
    StructAtomicRmwXchg,
    StructAtomicRmwCmpxchg,
    ArrayAtomicGet,
    ArrayAtomicGetS,
    ArrayAtomicGetU,
    ArrayAtomicSet,
    ArrayAtomicRmwAdd,
    ArrayAtomicRmwSub,
    ArrayAtomicRmwAnd,
    ArrayAtomicRmwOr,
    ArrayAtomicRmwXor,
    ArrayAtomicRmwXchg,
    ArrayAtomicRmwCmpxchg,
}

/// The operator of this number behind the prefix `0xfe`, if there is one of them.
pub fn shared_operator_from_code(code: u32) -> Option<SharedAtomicOperator>
    ensures { result ≡ shared_operator_from code }
{
    shared_operator_with_code(code)
}

/// The operator that has this number, or none where none has.
fn shared_operator_with_code(code: u32) -> Option<SharedAtomicOperator>
    ensures some { IfSome result (λ op. shared_code op ≡ code) }
    ensures none { IfNone result ((op : SharedAtomicOperator) → shared_code op ≢ code) }
{
    match code {
        4 => Some(SharedAtomicOperator::Pause),
        79 => Some(SharedAtomicOperator::GlobalAtomicGet),
        80 => Some(SharedAtomicOperator::GlobalAtomicSet),
        81 => Some(SharedAtomicOperator::GlobalAtomicRmwAdd),
        82 => Some(SharedAtomicOperator::GlobalAtomicRmwSub),
        83 => Some(SharedAtomicOperator::GlobalAtomicRmwAnd),
        84 => Some(SharedAtomicOperator::GlobalAtomicRmwOr),
        85 => Some(SharedAtomicOperator::GlobalAtomicRmwXor),
        86 => Some(SharedAtomicOperator::GlobalAtomicRmwXchg),
        87 => Some(SharedAtomicOperator::GlobalAtomicRmwCmpxchg),
        88 => Some(SharedAtomicOperator::TableAtomicGet),
        89 => Some(SharedAtomicOperator::TableAtomicSet),
        90 => Some(SharedAtomicOperator::TableAtomicRmwXchg),
        91 => Some(SharedAtomicOperator::TableAtomicRmwCmpxchg),
        92 => Some(SharedAtomicOperator::StructAtomicGet),
        93 => Some(SharedAtomicOperator::StructAtomicGetS),
        94 => Some(SharedAtomicOperator::StructAtomicGetU),
        95 => Some(SharedAtomicOperator::StructAtomicSet),
        96 => Some(SharedAtomicOperator::StructAtomicRmwAdd),
        97 => Some(SharedAtomicOperator::StructAtomicRmwSub),
        98 => Some(SharedAtomicOperator::StructAtomicRmwAnd),
        99 => Some(SharedAtomicOperator::StructAtomicRmwOr),
        100 => Some(SharedAtomicOperator::StructAtomicRmwXor),
        101 => Some(SharedAtomicOperator::StructAtomicRmwXchg),
        102 => Some(SharedAtomicOperator::StructAtomicRmwCmpxchg),
        103 => Some(SharedAtomicOperator::ArrayAtomicGet),
        104 => Some(SharedAtomicOperator::ArrayAtomicGetS),
        105 => Some(SharedAtomicOperator::ArrayAtomicGetU),
        106 => Some(SharedAtomicOperator::ArrayAtomicSet),
        107 => Some(SharedAtomicOperator::ArrayAtomicRmwAdd),
        108 => Some(SharedAtomicOperator::ArrayAtomicRmwSub),
        109 => Some(SharedAtomicOperator::ArrayAtomicRmwAnd),
        110 => Some(SharedAtomicOperator::ArrayAtomicRmwOr),
        111 => Some(SharedAtomicOperator::ArrayAtomicRmwXor),
        112 => Some(SharedAtomicOperator::ArrayAtomicRmwXchg),
        113 => Some(SharedAtomicOperator::ArrayAtomicRmwCmpxchg),
        _ => None,
    }
}

/// The number of this operator, which stands behind the prefix `0xfe`.
pub fn shared_code(op: SharedAtomicOperator) -> u32
    ensures { result ≡ shared_code op }
{
    match op {
        SharedAtomicOperator::Pause => 4,
        SharedAtomicOperator::GlobalAtomicGet => 79,
        SharedAtomicOperator::GlobalAtomicSet => 80,
        SharedAtomicOperator::GlobalAtomicRmwAdd => 81,
        SharedAtomicOperator::GlobalAtomicRmwSub => 82,
        SharedAtomicOperator::GlobalAtomicRmwAnd => 83,
        SharedAtomicOperator::GlobalAtomicRmwOr => 84,
        SharedAtomicOperator::GlobalAtomicRmwXor => 85,
        SharedAtomicOperator::GlobalAtomicRmwXchg => 86,
        SharedAtomicOperator::GlobalAtomicRmwCmpxchg => 87,
        SharedAtomicOperator::TableAtomicGet => 88,
        SharedAtomicOperator::TableAtomicSet => 89,
        SharedAtomicOperator::TableAtomicRmwXchg => 90,
        SharedAtomicOperator::TableAtomicRmwCmpxchg => 91,
        SharedAtomicOperator::StructAtomicGet => 92,
        SharedAtomicOperator::StructAtomicGetS => 93,
        SharedAtomicOperator::StructAtomicGetU => 94,
        SharedAtomicOperator::StructAtomicSet => 95,
        SharedAtomicOperator::StructAtomicRmwAdd => 96,
        SharedAtomicOperator::StructAtomicRmwSub => 97,
        SharedAtomicOperator::StructAtomicRmwAnd => 98,
        SharedAtomicOperator::StructAtomicRmwOr => 99,
        SharedAtomicOperator::StructAtomicRmwXor => 100,
        SharedAtomicOperator::StructAtomicRmwXchg => 101,
        SharedAtomicOperator::StructAtomicRmwCmpxchg => 102,
        SharedAtomicOperator::ArrayAtomicGet => 103,
        SharedAtomicOperator::ArrayAtomicGetS => 104,
        SharedAtomicOperator::ArrayAtomicGetU => 105,
        SharedAtomicOperator::ArrayAtomicSet => 106,
        SharedAtomicOperator::ArrayAtomicRmwAdd => 107,
        SharedAtomicOperator::ArrayAtomicRmwSub => 108,
        SharedAtomicOperator::ArrayAtomicRmwAnd => 109,
        SharedAtomicOperator::ArrayAtomicRmwOr => 110,
        SharedAtomicOperator::ArrayAtomicRmwXor => 111,
        SharedAtomicOperator::ArrayAtomicRmwXchg => 112,
        SharedAtomicOperator::ArrayAtomicRmwCmpxchg => 113,
    }
}
