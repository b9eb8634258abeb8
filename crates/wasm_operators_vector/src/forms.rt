//! What operators on vectors and atomic ones have as immediates, take and give.

ghost use Rattle.std.specs.Prelude.{◌≡◌};
ghost use Rattle.wasm_operators_vector.specs.Forms.{form_of};

use crate::operators::VectorOperator;

/// The types of numbers and vectors.
#[derive(Clone, Copy, PartialEq, Eq, Debug)]
pub enum ValueType {
    I32,
    I64,
    F32,
    F64,
    V128,
}

/// What follows the number of an operator that accesses no memory.
#[derive(Clone, Copy, PartialEq, Eq, Debug)]
pub enum Immediates {
    Nothing,
    /// The index of a lane, below this.
    Lane(u8),
    /// Sixteen indices of lanes, each below 32.
    Lanes,
    /// The byte zero.
    Zero,
}

/// The alignments that an access may have, as logarithms to base 2 of bytes.
#[derive(Clone, Copy, PartialEq, Eq, Debug)]
pub enum Alignment {
    /// This, which is the size of the access, or a lesser one.
    AtMost(u8),
    /// This alone, which is the size of the access.
    Exactly(u8),
}

/// The types of operands, the one on top last. Where a memory is accessed the address is below them.
#[derive(Clone, Copy, PartialEq, Eq, Debug)]
pub enum Operands {
    Nothing,
    One(ValueType),
    Two(ValueType, ValueType),
    Three(ValueType, ValueType, ValueType),
}

/// The immediates, operands and results of an operator.
#[derive(Clone, Copy, PartialEq, Eq, Debug)]
pub enum Form {
    /// One that accesses no memory.
    Compute {
        immediates: Immediates,
        takes: Operands,
        gives: Option<ValueType>,
    },
    /// One with a memory argument and, where there is a number of lanes, the index of a lane below it.
    Access {
        alignment: Alignment,
        lanes: Option<u8>,
        takes: Operands,
        gives: Option<ValueType>,
    },
}

/// The form of an operator on vectors (Core Specification 3.0, Validation, Instructions, Vector
/// Instructions and Memory Instructions).
pub fn vector_form(op: VectorOperator) -> Form
    ensures { result ≡ form_of op }
{
    match op {
        VectorOperator::V128Load => Form::Access {
            alignment: Alignment::AtMost(4),
            lanes: None,
            takes: Operands::Nothing,
            gives: Some(ValueType::V128),
        },
        VectorOperator::V128Load8x8S
        | VectorOperator::V128Load8x8U
        | VectorOperator::V128Load16x4S
        | VectorOperator::V128Load16x4U
        | VectorOperator::V128Load32x2S
        | VectorOperator::V128Load32x2U
        | VectorOperator::V128Load64Splat
        | VectorOperator::V128Load64Zero => Form::Access {
            alignment: Alignment::AtMost(3),
            lanes: None,
            takes: Operands::Nothing,
            gives: Some(ValueType::V128),
        },
        VectorOperator::V128Load8Splat => Form::Access {
            alignment: Alignment::AtMost(0),
            lanes: None,
            takes: Operands::Nothing,
            gives: Some(ValueType::V128),
        },
        VectorOperator::V128Load16Splat => Form::Access {
            alignment: Alignment::AtMost(1),
            lanes: None,
            takes: Operands::Nothing,
            gives: Some(ValueType::V128),
        },
        VectorOperator::V128Load32Splat | VectorOperator::V128Load32Zero => Form::Access {
            alignment: Alignment::AtMost(2),
            lanes: None,
            takes: Operands::Nothing,
            gives: Some(ValueType::V128),
        },
        VectorOperator::V128Store => Form::Access {
            alignment: Alignment::AtMost(4),
            lanes: None,
            takes: Operands::One(ValueType::V128),
            gives: None,
        },
        VectorOperator::I8x16Shuffle => Form::Compute {
            immediates: Immediates::Lanes,
            takes: Operands::Two(ValueType::V128, ValueType::V128),
            gives: Some(ValueType::V128),
        },
        VectorOperator::I8x16Swizzle
        | VectorOperator::I8x16Eq
        | VectorOperator::I8x16Ne
        | VectorOperator::I8x16LtS
        | VectorOperator::I8x16LtU
        | VectorOperator::I8x16GtS
        | VectorOperator::I8x16GtU
        | VectorOperator::I8x16LeS
        | VectorOperator::I8x16LeU
        | VectorOperator::I8x16GeS
        | VectorOperator::I8x16GeU
        | VectorOperator::I16x8Eq
        | VectorOperator::I16x8Ne
        | VectorOperator::I16x8LtS
        | VectorOperator::I16x8LtU
        | VectorOperator::I16x8GtS
        | VectorOperator::I16x8GtU
        | VectorOperator::I16x8LeS
        | VectorOperator::I16x8LeU
        | VectorOperator::I16x8GeS
        | VectorOperator::I16x8GeU
        | VectorOperator::I32x4Eq
        | VectorOperator::I32x4Ne
        | VectorOperator::I32x4LtS => Form::Compute {
            immediates: Immediates::Nothing,
            takes: Operands::Two(ValueType::V128, ValueType::V128),
            gives: Some(ValueType::V128),
        },
        VectorOperator::I32x4LtU
        | VectorOperator::I32x4GtS
        | VectorOperator::I32x4GtU
        | VectorOperator::I32x4LeS
        | VectorOperator::I32x4LeU
        | VectorOperator::I32x4GeS
        | VectorOperator::I32x4GeU
        | VectorOperator::F32x4Eq
        | VectorOperator::F32x4Ne
        | VectorOperator::F32x4Lt
        | VectorOperator::F32x4Gt
        | VectorOperator::F32x4Le
        | VectorOperator::F32x4Ge
        | VectorOperator::F64x2Eq
        | VectorOperator::F64x2Ne
        | VectorOperator::F64x2Lt
        | VectorOperator::F64x2Gt
        | VectorOperator::F64x2Le
        | VectorOperator::F64x2Ge
        | VectorOperator::V128And
        | VectorOperator::V128AndNot
        | VectorOperator::V128Or
        | VectorOperator::V128Xor
        | VectorOperator::I8x16NarrowI16x8S => Form::Compute {
            immediates: Immediates::Nothing,
            takes: Operands::Two(ValueType::V128, ValueType::V128),
            gives: Some(ValueType::V128),
        },
        VectorOperator::I8x16NarrowI16x8U
        | VectorOperator::I8x16Add
        | VectorOperator::I8x16AddSatS
        | VectorOperator::I8x16AddSatU
        | VectorOperator::I8x16Sub
        | VectorOperator::I8x16SubSatS
        | VectorOperator::I8x16SubSatU
        | VectorOperator::I8x16MinS
        | VectorOperator::I8x16MinU
        | VectorOperator::I8x16MaxS
        | VectorOperator::I8x16MaxU
        | VectorOperator::I8x16AvgrU
        | VectorOperator::I16x8Q15MulrSatS
        | VectorOperator::I16x8NarrowI32x4S
        | VectorOperator::I16x8NarrowI32x4U
        | VectorOperator::I16x8Add
        | VectorOperator::I16x8AddSatS
        | VectorOperator::I16x8AddSatU
        | VectorOperator::I16x8Sub
        | VectorOperator::I16x8SubSatS
        | VectorOperator::I16x8SubSatU
        | VectorOperator::I16x8Mul
        | VectorOperator::I16x8MinS
        | VectorOperator::I16x8MinU => Form::Compute {
            immediates: Immediates::Nothing,
            takes: Operands::Two(ValueType::V128, ValueType::V128),
            gives: Some(ValueType::V128),
        },
        VectorOperator::I16x8MaxS
        | VectorOperator::I16x8MaxU
        | VectorOperator::I16x8AvgrU
        | VectorOperator::I16x8ExtMulLowI8x16S
        | VectorOperator::I16x8ExtMulHighI8x16S
        | VectorOperator::I16x8ExtMulLowI8x16U
        | VectorOperator::I16x8ExtMulHighI8x16U
        | VectorOperator::I32x4Add
        | VectorOperator::I32x4Sub
        | VectorOperator::I32x4Mul
        | VectorOperator::I32x4MinS
        | VectorOperator::I32x4MinU
        | VectorOperator::I32x4MaxS
        | VectorOperator::I32x4MaxU
        | VectorOperator::I32x4DotI16x8S
        | VectorOperator::I32x4ExtMulLowI16x8S
        | VectorOperator::I32x4ExtMulHighI16x8S
        | VectorOperator::I32x4ExtMulLowI16x8U
        | VectorOperator::I32x4ExtMulHighI16x8U
        | VectorOperator::I64x2Add
        | VectorOperator::I64x2Sub
        | VectorOperator::I64x2Mul
        | VectorOperator::I64x2Eq
        | VectorOperator::I64x2Ne => Form::Compute {
            immediates: Immediates::Nothing,
            takes: Operands::Two(ValueType::V128, ValueType::V128),
            gives: Some(ValueType::V128),
        },
        VectorOperator::I64x2LtS
        | VectorOperator::I64x2GtS
        | VectorOperator::I64x2LeS
        | VectorOperator::I64x2GeS
        | VectorOperator::I64x2ExtMulLowI32x4S
        | VectorOperator::I64x2ExtMulHighI32x4S
        | VectorOperator::I64x2ExtMulLowI32x4U
        | VectorOperator::I64x2ExtMulHighI32x4U
        | VectorOperator::F32x4Add
        | VectorOperator::F32x4Sub
        | VectorOperator::F32x4Mul
        | VectorOperator::F32x4Div
        | VectorOperator::F32x4Min
        | VectorOperator::F32x4Max
        | VectorOperator::F32x4PMin
        | VectorOperator::F32x4PMax
        | VectorOperator::F64x2Add
        | VectorOperator::F64x2Sub
        | VectorOperator::F64x2Mul
        | VectorOperator::F64x2Div
        | VectorOperator::F64x2Min
        | VectorOperator::F64x2Max
        | VectorOperator::F64x2PMin
        | VectorOperator::F64x2PMax => Form::Compute {
            immediates: Immediates::Nothing,
            takes: Operands::Two(ValueType::V128, ValueType::V128),
            gives: Some(ValueType::V128),
        },
        VectorOperator::I8x16RelaxedSwizzle
        | VectorOperator::F32x4RelaxedMin
        | VectorOperator::F32x4RelaxedMax
        | VectorOperator::F64x2RelaxedMin
        | VectorOperator::F64x2RelaxedMax
        | VectorOperator::I16x8RelaxedQ15MulrS
        | VectorOperator::I16x8RelaxedDotI8x16I7x16S => Form::Compute {
            immediates: Immediates::Nothing,
            takes: Operands::Two(ValueType::V128, ValueType::V128),
            gives: Some(ValueType::V128),
        },
        VectorOperator::I8x16Splat | VectorOperator::I16x8Splat | VectorOperator::I32x4Splat =>
            Form::Compute {
                immediates: Immediates::Nothing,
                takes: Operands::One(ValueType::I32),
                gives: Some(ValueType::V128),
            },
        VectorOperator::I64x2Splat => Form::Compute {
            immediates: Immediates::Nothing,
            takes: Operands::One(ValueType::I64),
            gives: Some(ValueType::V128),
        },
        VectorOperator::F32x4Splat => Form::Compute {
            immediates: Immediates::Nothing,
            takes: Operands::One(ValueType::F32),
            gives: Some(ValueType::V128),
        },
        VectorOperator::F64x2Splat => Form::Compute {
            immediates: Immediates::Nothing,
            takes: Operands::One(ValueType::F64),
            gives: Some(ValueType::V128),
        },
        VectorOperator::I8x16ExtractLaneS | VectorOperator::I8x16ExtractLaneU => Form::Compute {
            immediates: Immediates::Lane(16),
            takes: Operands::One(ValueType::V128),
            gives: Some(ValueType::I32),
        },
        VectorOperator::I8x16ReplaceLane => Form::Compute {
            immediates: Immediates::Lane(16),
            takes: Operands::Two(ValueType::V128, ValueType::I32),
            gives: Some(ValueType::V128),
        },
        VectorOperator::I16x8ExtractLaneS | VectorOperator::I16x8ExtractLaneU => Form::Compute {
            immediates: Immediates::Lane(8),
            takes: Operands::One(ValueType::V128),
            gives: Some(ValueType::I32),
        },
        VectorOperator::I16x8ReplaceLane => Form::Compute {
            immediates: Immediates::Lane(8),
            takes: Operands::Two(ValueType::V128, ValueType::I32),
            gives: Some(ValueType::V128),
        },
        VectorOperator::I32x4ExtractLane => Form::Compute {
            immediates: Immediates::Lane(4),
            takes: Operands::One(ValueType::V128),
            gives: Some(ValueType::I32),
        },
        VectorOperator::I32x4ReplaceLane => Form::Compute {
            immediates: Immediates::Lane(4),
            takes: Operands::Two(ValueType::V128, ValueType::I32),
            gives: Some(ValueType::V128),
        },
        VectorOperator::I64x2ExtractLane => Form::Compute {
            immediates: Immediates::Lane(2),
            takes: Operands::One(ValueType::V128),
            gives: Some(ValueType::I64),
        },
        VectorOperator::I64x2ReplaceLane => Form::Compute {
            immediates: Immediates::Lane(2),
            takes: Operands::Two(ValueType::V128, ValueType::I64),
            gives: Some(ValueType::V128),
        },
        VectorOperator::F32x4ExtractLane => Form::Compute {
            immediates: Immediates::Lane(4),
            takes: Operands::One(ValueType::V128),
            gives: Some(ValueType::F32),
        },
        VectorOperator::F32x4ReplaceLane => Form::Compute {
            immediates: Immediates::Lane(4),
            takes: Operands::Two(ValueType::V128, ValueType::F32),
            gives: Some(ValueType::V128),
        },
        VectorOperator::F64x2ExtractLane => Form::Compute {
            immediates: Immediates::Lane(2),
            takes: Operands::One(ValueType::V128),
            gives: Some(ValueType::F64),
        },
        VectorOperator::F64x2ReplaceLane => Form::Compute {
            immediates: Immediates::Lane(2),
            takes: Operands::Two(ValueType::V128, ValueType::F64),
            gives: Some(ValueType::V128),
        },
        VectorOperator::V128Not
        | VectorOperator::F32x4DemoteF64x2Zero
        | VectorOperator::F64x2PromoteLowF32x4
        | VectorOperator::I8x16Abs
        | VectorOperator::I8x16Neg
        | VectorOperator::I8x16Popcnt
        | VectorOperator::F32x4Ceil
        | VectorOperator::F32x4Floor
        | VectorOperator::F32x4Trunc
        | VectorOperator::F32x4Nearest
        | VectorOperator::F64x2Ceil
        | VectorOperator::F64x2Floor
        | VectorOperator::F64x2Trunc
        | VectorOperator::I16x8ExtAddPairwiseI8x16S
        | VectorOperator::I16x8ExtAddPairwiseI8x16U
        | VectorOperator::I32x4ExtAddPairwiseI16x8S
        | VectorOperator::I32x4ExtAddPairwiseI16x8U
        | VectorOperator::I16x8Abs
        | VectorOperator::I16x8Neg
        | VectorOperator::I16x8ExtendLowI8x16S
        | VectorOperator::I16x8ExtendHighI8x16S
        | VectorOperator::I16x8ExtendLowI8x16U
        | VectorOperator::I16x8ExtendHighI8x16U
        | VectorOperator::F64x2Nearest => Form::Compute {
            immediates: Immediates::Nothing,
            takes: Operands::One(ValueType::V128),
            gives: Some(ValueType::V128),
        },
        VectorOperator::I32x4Abs
        | VectorOperator::I32x4Neg
        | VectorOperator::I32x4ExtendLowI16x8S
        | VectorOperator::I32x4ExtendHighI16x8S
        | VectorOperator::I32x4ExtendLowI16x8U
        | VectorOperator::I32x4ExtendHighI16x8U
        | VectorOperator::I64x2Abs
        | VectorOperator::I64x2Neg
        | VectorOperator::I64x2ExtendLowI32x4S
        | VectorOperator::I64x2ExtendHighI32x4S
        | VectorOperator::I64x2ExtendLowI32x4U
        | VectorOperator::I64x2ExtendHighI32x4U
        | VectorOperator::F32x4Abs
        | VectorOperator::F32x4Neg
        | VectorOperator::F32x4Sqrt
        | VectorOperator::F64x2Abs
        | VectorOperator::F64x2Neg
        | VectorOperator::F64x2Sqrt
        | VectorOperator::I32x4TruncSatF32x4S
        | VectorOperator::I32x4TruncSatF32x4U
        | VectorOperator::F32x4ConvertI32x4S
        | VectorOperator::F32x4ConvertI32x4U
        | VectorOperator::I32x4TruncSatF64x2SZero
        | VectorOperator::I32x4TruncSatF64x2UZero => Form::Compute {
            immediates: Immediates::Nothing,
            takes: Operands::One(ValueType::V128),
            gives: Some(ValueType::V128),
        },
        VectorOperator::F64x2ConvertLowI32x4S
        | VectorOperator::F64x2ConvertLowI32x4U
        | VectorOperator::I32x4RelaxedTruncF32x4S
        | VectorOperator::I32x4RelaxedTruncF32x4U
        | VectorOperator::I32x4RelaxedTruncF64x2SZero
        | VectorOperator::I32x4RelaxedTruncF64x2UZero => Form::Compute {
            immediates: Immediates::Nothing,
            takes: Operands::One(ValueType::V128),
            gives: Some(ValueType::V128),
        },
        VectorOperator::V128Bitselect
        | VectorOperator::F32x4RelaxedMadd
        | VectorOperator::F32x4RelaxedNmadd
        | VectorOperator::F64x2RelaxedMadd
        | VectorOperator::F64x2RelaxedNmadd
        | VectorOperator::I8x16RelaxedLaneselect
        | VectorOperator::I16x8RelaxedLaneselect
        | VectorOperator::I32x4RelaxedLaneselect
        | VectorOperator::I64x2RelaxedLaneselect
        | VectorOperator::I32x4RelaxedDotI8x16I7x16AddS => Form::Compute {
            immediates: Immediates::Nothing,
            takes: Operands::Three(ValueType::V128, ValueType::V128, ValueType::V128),
            gives: Some(ValueType::V128),
        },
        VectorOperator::V128AnyTrue
        | VectorOperator::I8x16AllTrue
        | VectorOperator::I8x16Bitmask
        | VectorOperator::I16x8AllTrue
        | VectorOperator::I16x8Bitmask
        | VectorOperator::I32x4AllTrue
        | VectorOperator::I32x4Bitmask
        | VectorOperator::I64x2AllTrue
        | VectorOperator::I64x2Bitmask => Form::Compute {
            immediates: Immediates::Nothing,
            takes: Operands::One(ValueType::V128),
            gives: Some(ValueType::I32),
        },
        VectorOperator::V128Load8Lane => Form::Access {
            alignment: Alignment::AtMost(0),
            lanes: Some(16),
            takes: Operands::One(ValueType::V128),
            gives: Some(ValueType::V128),
        },
        VectorOperator::V128Load16Lane => Form::Access {
            alignment: Alignment::AtMost(1),
            lanes: Some(8),
            takes: Operands::One(ValueType::V128),
            gives: Some(ValueType::V128),
        },
        VectorOperator::V128Load32Lane => Form::Access {
            alignment: Alignment::AtMost(2),
            lanes: Some(4),
            takes: Operands::One(ValueType::V128),
            gives: Some(ValueType::V128),
        },
        VectorOperator::V128Load64Lane => Form::Access {
            alignment: Alignment::AtMost(3),
            lanes: Some(2),
            takes: Operands::One(ValueType::V128),
            gives: Some(ValueType::V128),
        },
        VectorOperator::V128Store8Lane => Form::Access {
            alignment: Alignment::AtMost(0),
            lanes: Some(16),
            takes: Operands::One(ValueType::V128),
            gives: None,
        },
        VectorOperator::V128Store16Lane => Form::Access {
            alignment: Alignment::AtMost(1),
            lanes: Some(8),
            takes: Operands::One(ValueType::V128),
            gives: None,
        },
        VectorOperator::V128Store32Lane => Form::Access {
            alignment: Alignment::AtMost(2),
            lanes: Some(4),
            takes: Operands::One(ValueType::V128),
            gives: None,
        },
        VectorOperator::V128Store64Lane => Form::Access {
            alignment: Alignment::AtMost(3),
            lanes: Some(2),
            takes: Operands::One(ValueType::V128),
            gives: None,
        },
        VectorOperator::I8x16Shl
        | VectorOperator::I8x16ShrS
        | VectorOperator::I8x16ShrU
        | VectorOperator::I16x8Shl
        | VectorOperator::I16x8ShrS
        | VectorOperator::I16x8ShrU
        | VectorOperator::I32x4Shl
        | VectorOperator::I32x4ShrS
        | VectorOperator::I32x4ShrU
        | VectorOperator::I64x2Shl
        | VectorOperator::I64x2ShrS
        | VectorOperator::I64x2ShrU => Form::Compute {
            immediates: Immediates::Nothing,
            takes: Operands::Two(ValueType::V128, ValueType::I32),
            gives: Some(ValueType::V128),
        },
    }
}
