//! Sizes of tables and memories.

ghost use Rattle.std.specs.Prelude.{◌≡◌, is_ok, IfErr};
ghost use Rattle.wasm_validator_checks.specs.Answers.{IsPlainRefusalAt};
ghost use Rattle.wasm_validator_checks.specs.Items.{are_ordered, are_at_most};
ghost use Rattle.wasm_readers.specs.WasmReadersErrors.Refusals.{refused};
ghost use Rattle.wasm_validator_checks.specs.ItemRefusals.{told_of_limits, told_of_sizes};

use wasm_readers::readers_errors::{Fault, ItemRule, Refusal, hold};

/// Accepts a smallest size that is at most the largest one (Core Specification 3.0, Validation,
/// Types, Limits).
pub(crate) fn check_limits(initial: u64, maximum: Option<u64>, offset: u64) -> Result<(), Refusal>
    ensures allowed { is_ok result ≡ are_ordered initial maximum }
    ensures refusal { IfErr result (IsPlainRefusalAt offset) }
    ensures told { refused result ≡ told_of_limits offset initial maximum }
{
    let Some(maximum) = maximum else {
        return Ok(());
    };
    let fault = Fault::Item(ItemRule::MinimumAboveMaximum);
    hold(initial <= maximum, fault, offset)
}

/// Accepts sizes that are at most `most`, and refuses others with this fault.
pub(crate) fn check_sizes(
    most: u64,
    initial: u64,
    maximum: Option<u64>,
    fault: Fault,
    offset: u64,
) -> Result<(), Refusal>
    ensures allowed { is_ok result ≡ are_at_most most initial maximum }
    ensures refusal { IfErr result (IsPlainRefusalAt offset) }
    ensures told { refused result ≡ told_of_sizes offset most initial maximum fault }
{
    let is_small = match maximum {
        Some(maximum) => initial <= most && maximum <= most,
        None => initial <= most,
    };
    hold(is_small, fault, offset)
}
