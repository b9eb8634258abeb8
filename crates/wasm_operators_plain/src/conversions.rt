//! Conversions of references, and unboxed integers.

ghost use Rattle.std.specs.Prelude.{◌≡◌};
ghost use Rattle.wasm_operators_plain.specs.Conversions.{conversion_from, shared_from};

/// Conversions between references, and unboxed integers of 31 bits (Core Specification 3.0, Binary
/// Format, Instructions, Reference Instructions), with the one of shared references.
#[derive(Clone, Copy, PartialEq, Eq, Debug)]
pub enum ConversionOperator {
    AnyConvertExtern,
    ExternConvertAny,
    RefI31,
    I31GetS,
    I31GetU,
    RefI31Shared,
}

/// The conversion of this code behind the prefix `0xfb`, if there is one.
pub fn conversion_from_code(code: u32) -> Option<ConversionOperator>
    ensures { result ≡ conversion_from code }
{
    match code {
        26 => Some(ConversionOperator::AnyConvertExtern),
        27 => Some(ConversionOperator::ExternConvertAny),
        28 => Some(ConversionOperator::RefI31),
        29 => Some(ConversionOperator::I31GetS),
        30 => Some(ConversionOperator::I31GetU),
        _ => None,
    }
}

/// The conversion of this code behind the prefix `0xfe`, if there is one.
pub fn shared_from_code(code: u32) -> Option<ConversionOperator>
    ensures { result ≡ shared_from code }
{
    if code == 0x72 {
        Some(ConversionOperator::RefI31Shared)
    } else {
        None
    }
}
