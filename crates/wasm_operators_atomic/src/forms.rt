//! What atomic operators have as immediates, take and give.

ghost use Rattle.std.specs.Prelude.{◌≡◌};
ghost use Rattle.wasm_operators_atomic.specs.Forms.{form_of};

use crate::operators::AtomicOperator;
use wasm_operators_vector::{Alignment, Form, Immediates, Operands, ValueType};

/// The form of an atomic operator (Threads, Validation, Instructions, Atomic Memory Instructions).
pub fn atomic_form(op: AtomicOperator) -> Form
    ensures { result ≡ form_of op }
{
    match op {
        AtomicOperator::MemoryAtomicNotify
        | AtomicOperator::I32AtomicRmwAdd
        | AtomicOperator::I32AtomicRmwSub
        | AtomicOperator::I32AtomicRmwAnd
        | AtomicOperator::I32AtomicRmwOr
        | AtomicOperator::I32AtomicRmwXor
        | AtomicOperator::I32AtomicRmwXchg => Form::Access {
            alignment: Alignment::Exactly(2),
            lanes: None,
            takes: Operands::One(ValueType::I32),
            gives: Some(ValueType::I32),
        },
        AtomicOperator::MemoryAtomicWait32 => Form::Access {
            alignment: Alignment::Exactly(2),
            lanes: None,
            takes: Operands::Two(ValueType::I32, ValueType::I64),
            gives: Some(ValueType::I32),
        },
        AtomicOperator::MemoryAtomicWait64 => Form::Access {
            alignment: Alignment::Exactly(3),
            lanes: None,
            takes: Operands::Two(ValueType::I64, ValueType::I64),
            gives: Some(ValueType::I32),
        },
        AtomicOperator::AtomicFence => Form::Compute {
            immediates: Immediates::Zero,
            takes: Operands::Nothing,
            gives: None,
        },
        AtomicOperator::I32AtomicLoad => Form::Access {
            alignment: Alignment::Exactly(2),
            lanes: None,
            takes: Operands::Nothing,
            gives: Some(ValueType::I32),
        },
        AtomicOperator::I64AtomicLoad => Form::Access {
            alignment: Alignment::Exactly(3),
            lanes: None,
            takes: Operands::Nothing,
            gives: Some(ValueType::I64),
        },
        AtomicOperator::I32AtomicLoad8U => Form::Access {
            alignment: Alignment::Exactly(0),
            lanes: None,
            takes: Operands::Nothing,
            gives: Some(ValueType::I32),
        },
        AtomicOperator::I32AtomicLoad16U => Form::Access {
            alignment: Alignment::Exactly(1),
            lanes: None,
            takes: Operands::Nothing,
            gives: Some(ValueType::I32),
        },
        AtomicOperator::I64AtomicLoad8U => Form::Access {
            alignment: Alignment::Exactly(0),
            lanes: None,
            takes: Operands::Nothing,
            gives: Some(ValueType::I64),
        },
        AtomicOperator::I64AtomicLoad16U => Form::Access {
            alignment: Alignment::Exactly(1),
            lanes: None,
            takes: Operands::Nothing,
            gives: Some(ValueType::I64),
        },
        AtomicOperator::I64AtomicLoad32U => Form::Access {
            alignment: Alignment::Exactly(2),
            lanes: None,
            takes: Operands::Nothing,
            gives: Some(ValueType::I64),
        },
        AtomicOperator::I32AtomicStore => Form::Access {
            alignment: Alignment::Exactly(2),
            lanes: None,
            takes: Operands::One(ValueType::I32),
            gives: None,
        },
        AtomicOperator::I64AtomicStore => Form::Access {
            alignment: Alignment::Exactly(3),
            lanes: None,
            takes: Operands::One(ValueType::I64),
            gives: None,
        },
        AtomicOperator::I32AtomicStore8 => Form::Access {
            alignment: Alignment::Exactly(0),
            lanes: None,
            takes: Operands::One(ValueType::I32),
            gives: None,
        },
        AtomicOperator::I32AtomicStore16 => Form::Access {
            alignment: Alignment::Exactly(1),
            lanes: None,
            takes: Operands::One(ValueType::I32),
            gives: None,
        },
        AtomicOperator::I64AtomicStore8 => Form::Access {
            alignment: Alignment::Exactly(0),
            lanes: None,
            takes: Operands::One(ValueType::I64),
            gives: None,
        },
        AtomicOperator::I64AtomicStore16 => Form::Access {
            alignment: Alignment::Exactly(1),
            lanes: None,
            takes: Operands::One(ValueType::I64),
            gives: None,
        },
        AtomicOperator::I64AtomicStore32 => Form::Access {
            alignment: Alignment::Exactly(2),
            lanes: None,
            takes: Operands::One(ValueType::I64),
            gives: None,
        },
        AtomicOperator::I64AtomicRmwAdd
        | AtomicOperator::I64AtomicRmwSub
        | AtomicOperator::I64AtomicRmwAnd
        | AtomicOperator::I64AtomicRmwOr
        | AtomicOperator::I64AtomicRmwXor
        | AtomicOperator::I64AtomicRmwXchg => Form::Access {
            alignment: Alignment::Exactly(3),
            lanes: None,
            takes: Operands::One(ValueType::I64),
            gives: Some(ValueType::I64),
        },
        AtomicOperator::I32AtomicRmw8AddU
        | AtomicOperator::I32AtomicRmw8SubU
        | AtomicOperator::I32AtomicRmw8AndU
        | AtomicOperator::I32AtomicRmw8OrU
        | AtomicOperator::I32AtomicRmw8XorU
        | AtomicOperator::I32AtomicRmw8XchgU => Form::Access {
            alignment: Alignment::Exactly(0),
            lanes: None,
            takes: Operands::One(ValueType::I32),
            gives: Some(ValueType::I32),
        },
        AtomicOperator::I32AtomicRmw16AddU
        | AtomicOperator::I32AtomicRmw16SubU
        | AtomicOperator::I32AtomicRmw16AndU
        | AtomicOperator::I32AtomicRmw16OrU
        | AtomicOperator::I32AtomicRmw16XorU
        | AtomicOperator::I32AtomicRmw16XchgU => Form::Access {
            alignment: Alignment::Exactly(1),
            lanes: None,
            takes: Operands::One(ValueType::I32),
            gives: Some(ValueType::I32),
        },
        AtomicOperator::I64AtomicRmw8AddU
        | AtomicOperator::I64AtomicRmw8SubU
        | AtomicOperator::I64AtomicRmw8AndU
        | AtomicOperator::I64AtomicRmw8OrU
        | AtomicOperator::I64AtomicRmw8XorU
        | AtomicOperator::I64AtomicRmw8XchgU => Form::Access {
            alignment: Alignment::Exactly(0),
            lanes: None,
            takes: Operands::One(ValueType::I64),
            gives: Some(ValueType::I64),
        },
        AtomicOperator::I64AtomicRmw16AddU
        | AtomicOperator::I64AtomicRmw16SubU
        | AtomicOperator::I64AtomicRmw16AndU
        | AtomicOperator::I64AtomicRmw16OrU
        | AtomicOperator::I64AtomicRmw16XorU
        | AtomicOperator::I64AtomicRmw16XchgU => Form::Access {
            alignment: Alignment::Exactly(1),
            lanes: None,
            takes: Operands::One(ValueType::I64),
            gives: Some(ValueType::I64),
        },
        AtomicOperator::I64AtomicRmw32AddU
        | AtomicOperator::I64AtomicRmw32SubU
        | AtomicOperator::I64AtomicRmw32AndU
        | AtomicOperator::I64AtomicRmw32OrU
        | AtomicOperator::I64AtomicRmw32XorU
        | AtomicOperator::I64AtomicRmw32XchgU => Form::Access {
            alignment: Alignment::Exactly(2),
            lanes: None,
            takes: Operands::One(ValueType::I64),
            gives: Some(ValueType::I64),
        },
        AtomicOperator::I32AtomicRmwCmpxchg => Form::Access {
            alignment: Alignment::Exactly(2),
            lanes: None,
            takes: Operands::Two(ValueType::I32, ValueType::I32),
            gives: Some(ValueType::I32),
        },
        AtomicOperator::I64AtomicRmwCmpxchg => Form::Access {
            alignment: Alignment::Exactly(3),
            lanes: None,
            takes: Operands::Two(ValueType::I64, ValueType::I64),
            gives: Some(ValueType::I64),
        },
        AtomicOperator::I32AtomicRmw8CmpxchgU => Form::Access {
            alignment: Alignment::Exactly(0),
            lanes: None,
            takes: Operands::Two(ValueType::I32, ValueType::I32),
            gives: Some(ValueType::I32),
        },
        AtomicOperator::I32AtomicRmw16CmpxchgU => Form::Access {
            alignment: Alignment::Exactly(1),
            lanes: None,
            takes: Operands::Two(ValueType::I32, ValueType::I32),
            gives: Some(ValueType::I32),
        },
        AtomicOperator::I64AtomicRmw8CmpxchgU => Form::Access {
            alignment: Alignment::Exactly(0),
            lanes: None,
            takes: Operands::Two(ValueType::I64, ValueType::I64),
            gives: Some(ValueType::I64),
        },
        AtomicOperator::I64AtomicRmw16CmpxchgU => Form::Access {
            alignment: Alignment::Exactly(1),
            lanes: None,
            takes: Operands::Two(ValueType::I64, ValueType::I64),
            gives: Some(ValueType::I64),
        },
        AtomicOperator::I64AtomicRmw32CmpxchgU => Form::Access {
            alignment: Alignment::Exactly(2),
            lanes: None,
            takes: Operands::Two(ValueType::I64, ValueType::I64),
            gives: Some(ValueType::I64),
        },
    }
}
