//! Operators on integers of 128 bits.

ghost use Rattle.std.specs.Prelude.{◌≡◌, ◌≢◌, IfSome, IfNone};
ghost use Rattle.wasm_operators_atomic.specs.WideArithmetic.{wide_code, wide_from};
ghost use Rattle.wasm_operators_atomic.specs.declared.wide.WideOperator.{WideOperator};

/// The operators on integers of 128 bits, each in two halves of 64 bits, the lower one below the
/// upper one, behind the prefix `0xfc` (the wide-arithmetic proposal, Binary Format).
#[derive(Clone, Copy, PartialEq, Eq, Debug)]
pub enum WideOperator {
    I64Add128,
    I64Sub128,
    I64MulWideS,
    I64MulWideU,
}

/// The wide operator of this code behind the prefix, if there is one.
#[inline]
pub fn wide_from_code(code: u32) -> Option<WideOperator>
    ensures { result ≡ wide_from code }
{
    wide_with_code(code)
}

/// The wide operator that has this code, or none where none has.
fn wide_with_code(code: u32) -> Option<WideOperator>
    ensures some { IfSome result (λ op. wide_code op ≡ code) }
    ensures none { IfNone result ((op : WideOperator) → wide_code op ≢ code) }
{
    match code {
        19 => Some(WideOperator::I64Add128),
        20 => Some(WideOperator::I64Sub128),
        21 => Some(WideOperator::I64MulWideS),
        22 => Some(WideOperator::I64MulWideU),
        _ => None,
    }
}

/// The code of a wide operator behind the prefix.
pub fn wide_code(op: WideOperator) -> u32
    ensures { result ≡ wide_code op }
{
    match op {
        WideOperator::I64Add128 => 19,
        WideOperator::I64Sub128 => 20,
        WideOperator::I64MulWideS => 21,
        WideOperator::I64MulWideU => 22,
    }
}
