//! Rules that a test or a proposal decides, and what is said where one is broken.

ghost use Rattle.std.specs.Prelude.{◌≡◌, ◌||◌, not, true, is_ok, IfErr};
ghost use Rattle.wasm_readers_features.specs.ProposalFlags.{has_flag};
ghost use Rattle.wasm_readers_errors.specs.Refusals.{refused, plain, unless, lack_if};

use crate::error::{Fault, Refusal};
use bitflags::Flags;
use wasm_readers_features::WasmFeatures;

/// Accepts where the rule holds.
///
/// # Errors
///
/// Refuses, at `offset`, a byte offset from the start of the input, where the rule doesn't hold:
/// with this fault, which no proposal lifts.
pub fn hold(holds: bool, fault: Fault, offset: u64) -> Result<(), Refusal>
    ensures allowed { is_ok result ≡ holds }
    ensures told { refused result ≡ unless holds (plain fault offset) }
    ensures refusal { IfErr result (λ r. r ≡ plain fault offset) }
{
    if holds {
        Ok(())
    } else {
        Err(Refusal::new(fault, offset))
    }
}

/// Accepts where the proposal isn't needed, or is on.
///
/// # Errors
///
/// Refuses, at `offset`, a byte offset from the start of the input, where the proposal is needed
/// and off: with this fault, which the proposal would lift.
pub fn require_if(
    needed: bool,
    features: WasmFeatures,
    feature: WasmFeatures,
    fault: Fault,
    offset: u64,
) -> Result<(), Refusal>
    ensures allowed { is_ok result ≡ (not needed || has_flag feature.0 features) }
    ensures told { refused result ≡ lack_if needed features feature fault offset }
{
    if !needed || features.contains(feature) {
        Ok(())
    } else {
        Err(Refusal::missing(fault, offset, feature))
    }
}

/// Accepts where the proposal is on.
///
/// # Errors
///
/// As [`require_if`] of a proposal that is needed.
pub fn require(
    features: WasmFeatures,
    feature: WasmFeatures,
    fault: Fault,
    offset: u64,
) -> Result<(), Refusal>
    ensures allowed { is_ok result ≡ has_flag feature.0 features }
    ensures told { refused result ≡ lack_if true features feature fault offset }
{
    require_if(true, features, feature, fault, offset)
}
