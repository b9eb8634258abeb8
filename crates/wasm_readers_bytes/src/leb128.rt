//! Signed numbers and long unsigned ones (Core Specification 3.0, Binary Format, Values, Integers),
//! and where a number that is none goes wrong.

ghost use Rattle.std.specs.Prelude.{◌≡◌, ◌≤◌, ◌<◌, ◌^◌, ◌-◌, ◌≤ℤ◌, ◌<ℤ◌, ◌-ℤ◌, ◌+ℤ◌, ◌*ℤ◌, pos, Some, IfSome, IfNone, length, drop};
ghost use Rattle.wasm_readers_errors.specs.WasmSpec.Values.{u32_at, signed_at as encoded_at};
ghost use Rattle.wasm_readers_bytes.specs.Reader.{number_fault, before_wrong};

use wasm_readers_errors::Malformed;

/// The signed number of at most `bits` bits at the front, and how many bytes it takes.
#[tactic(auto, using(crate::proofs::Powers::signed_powers))]
pub(crate) fn signed_at(bytes: &[u8], bits: u8) -> Option<(i64, usize)>
    requires low { 0 < bits }
    requires high { bits ≤ 64 }
    ensures found { IfSome result (λ r. encoded_at bits bytes.now
        ≡ Some (r.0, drop r.1 bytes.now)) }
    ensures within { IfSome result (λ r. r.1 ≤ length bytes.now) }
    ensures some { IfSome result (λ r. 0 < r.1) }
    ensures at_least { IfSome result (λ r. (pos 0 -ℤ pos (2 ^ (bits - 1))) ≤ℤ r.0) }
    ensures below { IfSome result (λ r. r.0 <ℤ pos (2 ^ (bits - 1))) }
    ensures none { IfNone result (encoded_at bits bytes.now ≡ None) }
{
    match bytes {
        [] => None,
        [low, more @ ..] => {
            if *low < 64 {
                if bits >= 7 || *low < 1 << (bits - 1) {
                    Some((i64::from(*low), 1))
                } else {
                    None
                }
            } else if *low < 128 {
                if bits >= 7 || 128 - *low <= 1 << (bits - 1) {
                    Some((i64::from(*low) - 128, 1))
                } else {
                    None
                }
            } else if bits > 7 {
                let (high, used) = signed_at(more, bits - 7)?;
                Some((join_bits(high, *low), used + 1))
            } else {
                None
            }
        }
    }
}

/// The unsigned number of at most 32 bits at the front, and how many bytes it takes, if there are as
/// many as one may take, so that the end is looked for once.
#[inline(always)]
pub(crate) fn u32_in_five(bytes: &[u8]) -> Option<(u32, usize)>
    ensures found { IfSome result (λ r. u32_at bytes.now ≡ Some (r.0, drop r.1 bytes.now)) }
    ensures within { IfSome result (λ r. r.1 ≤ length bytes.now) }
    ensures some { IfSome result (λ r. 0 < r.1) }
{
    match bytes {
        [first, second, third, fourth, fifth, ..] => {
            if *first < 128 {
                return Some((u32::from(*first), 1));
            }
            let low = u32::from(*first - 128);
            if *second < 128 {
                return Some((low + (u32::from(*second) << 7), 2));
            }
            let low = low + (u32::from(*second - 128) << 7);
            if *third < 128 {
                return Some((low + (u32::from(*third) << 14), 3));
            }
            let low = low + (u32::from(*third - 128) << 14);
            if *fourth < 128 {
                return Some((low + (u32::from(*fourth) << 21), 4));
            }
            let low = low + (u32::from(*fourth - 128) << 21);
            if *fifth < 16 {
                return Some((low + (u32::from(*fifth) << 28), 5));
            }
            None
        }
        _ => None,
    }
}

/// The same, where more than one byte is likely.
#[inline(always)]
#[tactic(auto, using(crate::proofs::Powers::signed_powers))]
pub(crate) fn long_signed_at(bytes: &[u8], bits: u8) -> Option<(i64, usize)>
    requires low { 0 < bits }
    requires high { bits ≤ 64 }
    ensures found { IfSome result (λ r. encoded_at bits bytes.now
        ≡ Some (r.0, drop r.1 bytes.now)) }
    ensures within { IfSome result (λ r. r.1 ≤ length bytes.now) }
    ensures some { IfSome result (λ r. 0 < r.1) }
    ensures at_least { IfSome result (λ r. (pos 0 -ℤ pos (2 ^ (bits - 1))) ≤ℤ r.0) }
    ensures below { IfSome result (λ r. r.0 <ℤ pos (2 ^ (bits - 1))) }
    ensures none { IfNone result (encoded_at bits bytes.now ≡ None) }
{
    match bytes {
        [low, more @ ..] if *low >= 128 && bits > 7 => {
            let (high, used) = signed_at(more, bits - 7)?;
            Some((join_bits(high, *low), used + 1))
        }
        _ => signed_at(bytes, bits),
    }
}

/// A number of its low seven bits and the bits above them.
#[inline(always)]
#[tactic(auto, using(crate::proofs::Powers::whole))]
fn join_bits(high: i64, low: u8) -> i64
    requires at_least { (pos 0 -ℤ pos (2 ^ 56)) ≤ℤ high }
    requires below { high <ℤ pos (2 ^ 56) }
    requires more { 2 ^ 7 ≤ low }
    ensures { result ≡ pos (2 ^ 7) *ℤ high +ℤ pos (low - 2 ^ 7) }
{
    high * 128 + i64::from(low - 128)
}

/// What is wrong with bytes that encode no number of at most `bits` bits, and how many bytes come
/// before the wrong one: `large` for a last byte with bits beyond the width, `long` for one byte too
/// many.
pub(crate) fn wrong_number(
    bytes: &[u8],
    bits: u8,
    large: Malformed,
    long: Malformed,
) -> (Malformed, usize)
    ensures fault { result.0 ≡ number_fault large long bits bytes.now }
    ensures before { result.1 ≡ before_wrong bits bytes.now }
    ensures within { result.1 ≤ length bytes.now }
{
    match bytes {
        [] => (Malformed::UnexpectedEnd, 0),
        [byte, more @ ..] => {
            if *byte < 128 {
                (large, 0)
            } else if bits > 7 {
                let (malformed, before) = wrong_number(more, bits - 7, large, long);
                (malformed, before + 1)
            } else {
                (long, 0)
            }
        }
    }
}
