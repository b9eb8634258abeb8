//! What numeric operators take and give.

ghost use Rattle.std.specs.Prelude.{◌≡◌};
ghost use Rattle.wasm_operators_plain.specs.Signatures.{signature_of, saturating_signature_of};

use crate::numeric::{NumericOperator, SaturatingOperator};

/// The number types (Core Specification 3.0, Structure, Types, Number Types).
#[derive(Clone, Copy, PartialEq, Eq, Debug)]
pub enum NumberType {
    I32,
    I64,
    F32,
    F64,
}

/// What a numeric operator takes and gives.
#[derive(Clone, Copy, PartialEq, Eq, Debug)]
pub enum Signature {
    /// It takes a number of the first type and gives one of the second.
    Unary(NumberType, NumberType),
    /// It takes two numbers of the first type and gives one of the second.
    Binary(NumberType, NumberType),
}

/// What a numeric operator takes and gives (Core Specification 3.0, Validation, Instructions,
/// Numeric Instructions).
pub fn numeric_signature(op: NumericOperator) -> Signature
    ensures { result ≡ signature_of op }
{
    signature_in_place(op)
}

/// The same, inlined where it is called: each group of operators has code of its own there.
#[inline(always)]
pub fn signature_in_place(op: NumericOperator) -> Signature
    ensures { result ≡ signature_of op }
{
    use NumberType::*;
    use Signature::{Binary, Unary};
    match op {
        NumericOperator::I32Eqz
        | NumericOperator::I32Clz
        | NumericOperator::I32Ctz
        | NumericOperator::I32Popcnt
        | NumericOperator::I32Extend8S
        | NumericOperator::I32Extend16S => Unary(I32, I32),
        NumericOperator::I32Eq
        | NumericOperator::I32Ne
        | NumericOperator::I32LtS
        | NumericOperator::I32LtU
        | NumericOperator::I32GtS
        | NumericOperator::I32GtU
        | NumericOperator::I32LeS
        | NumericOperator::I32LeU
        | NumericOperator::I32GeS
        | NumericOperator::I32GeU
        | NumericOperator::I32Add
        | NumericOperator::I32Sub
        | NumericOperator::I32Mul
        | NumericOperator::I32DivS
        | NumericOperator::I32DivU
        | NumericOperator::I32RemS
        | NumericOperator::I32RemU
        | NumericOperator::I32And
        | NumericOperator::I32Or
        | NumericOperator::I32Xor
        | NumericOperator::I32Shl
        | NumericOperator::I32ShrS
        | NumericOperator::I32ShrU
        | NumericOperator::I32Rotl
        | NumericOperator::I32Rotr => Binary(I32, I32),
        NumericOperator::I64Eqz | NumericOperator::I32WrapI64 => Unary(I64, I32),
        NumericOperator::I64Eq
        | NumericOperator::I64Ne
        | NumericOperator::I64LtS
        | NumericOperator::I64LtU
        | NumericOperator::I64GtS
        | NumericOperator::I64GtU
        | NumericOperator::I64LeS
        | NumericOperator::I64LeU
        | NumericOperator::I64GeS
        | NumericOperator::I64GeU => Binary(I64, I32),
        NumericOperator::F32Eq
        | NumericOperator::F32Ne
        | NumericOperator::F32Lt
        | NumericOperator::F32Gt
        | NumericOperator::F32Le
        | NumericOperator::F32Ge => Binary(F32, I32),
        NumericOperator::F64Eq
        | NumericOperator::F64Ne
        | NumericOperator::F64Lt
        | NumericOperator::F64Gt
        | NumericOperator::F64Le
        | NumericOperator::F64Ge => Binary(F64, I32),
        NumericOperator::I64Clz
        | NumericOperator::I64Ctz
        | NumericOperator::I64Popcnt
        | NumericOperator::I64Extend8S
        | NumericOperator::I64Extend16S
        | NumericOperator::I64Extend32S => Unary(I64, I64),
        NumericOperator::I64Add
        | NumericOperator::I64Sub
        | NumericOperator::I64Mul
        | NumericOperator::I64DivS
        | NumericOperator::I64DivU
        | NumericOperator::I64RemS
        | NumericOperator::I64RemU
        | NumericOperator::I64And
        | NumericOperator::I64Or
        | NumericOperator::I64Xor
        | NumericOperator::I64Shl
        | NumericOperator::I64ShrS
        | NumericOperator::I64ShrU
        | NumericOperator::I64Rotl
        | NumericOperator::I64Rotr => Binary(I64, I64),
        NumericOperator::F32Abs
        | NumericOperator::F32Neg
        | NumericOperator::F32Ceil
        | NumericOperator::F32Floor
        | NumericOperator::F32Trunc
        | NumericOperator::F32Nearest
        | NumericOperator::F32Sqrt => Unary(F32, F32),
        NumericOperator::F32Add
        | NumericOperator::F32Sub
        | NumericOperator::F32Mul
        | NumericOperator::F32Div
        | NumericOperator::F32Min
        | NumericOperator::F32Max
        | NumericOperator::F32Copysign => Binary(F32, F32),
        NumericOperator::F64Abs
        | NumericOperator::F64Neg
        | NumericOperator::F64Ceil
        | NumericOperator::F64Floor
        | NumericOperator::F64Trunc
        | NumericOperator::F64Nearest
        | NumericOperator::F64Sqrt => Unary(F64, F64),
        NumericOperator::F64Add
        | NumericOperator::F64Sub
        | NumericOperator::F64Mul
        | NumericOperator::F64Div
        | NumericOperator::F64Min
        | NumericOperator::F64Max
        | NumericOperator::F64Copysign => Binary(F64, F64),
        NumericOperator::I32TruncF32S
        | NumericOperator::I32TruncF32U
        | NumericOperator::I32ReinterpretF32 => Unary(F32, I32),
        NumericOperator::I32TruncF64S | NumericOperator::I32TruncF64U => Unary(F64, I32),
        NumericOperator::I64ExtendI32S | NumericOperator::I64ExtendI32U => Unary(I32, I64),
        NumericOperator::I64TruncF32S | NumericOperator::I64TruncF32U => Unary(F32, I64),
        NumericOperator::I64TruncF64S
        | NumericOperator::I64TruncF64U
        | NumericOperator::I64ReinterpretF64 => Unary(F64, I64),
        NumericOperator::F32ConvertI32S
        | NumericOperator::F32ConvertI32U
        | NumericOperator::F32ReinterpretI32 => Unary(I32, F32),
        NumericOperator::F32ConvertI64S | NumericOperator::F32ConvertI64U => Unary(I64, F32),
        NumericOperator::F32DemoteF64 => Unary(F64, F32),
        NumericOperator::F64ConvertI32S | NumericOperator::F64ConvertI32U => Unary(I32, F64),
        NumericOperator::F64ConvertI64S
        | NumericOperator::F64ConvertI64U
        | NumericOperator::F64ReinterpretI64 => Unary(I64, F64),
        NumericOperator::F64PromoteF32 => Unary(F32, F64),
    }
}

/// What a saturating truncation takes and gives (Core Specification 3.0, Validation, Instructions,
/// Numeric Instructions).
pub fn saturating_signature(op: SaturatingOperator) -> Signature
    ensures { result ≡ saturating_signature_of op }
{
    use NumberType::*;
    use SaturatingOperator::*;
    use Signature::Unary;
    match op {
        I32TruncSatF32S | I32TruncSatF32U => Unary(F32, I32),
        I32TruncSatF64S | I32TruncSatF64U => Unary(F64, I32),
        I64TruncSatF32S | I64TruncSatF32U => Unary(F32, I64),
        I64TruncSatF64S | I64TruncSatF64U => Unary(F64, I64),
    }
}
