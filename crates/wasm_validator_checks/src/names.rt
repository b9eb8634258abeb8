//! Names of imports and exports, with `CRATE_LIMITS`.

ghost use Rattle.std.specs.Prelude.{◌≡◌, ◌&&◌, is_ok, IfErr};
ghost use Rattle.wasm_validator_resources.specs.WasmSpecRules.FeatureFlags.{features_of};
ghost use Rattle.wasm_readers.specs.Items.{import_of};
ghost use Rattle.wasm_readers.specs.WasmReadersErrors.Refusals.{refused};
ghost use Rattle.wasm_validator_checks.specs.Answers.{IsPlainRefusalAt};
ghost use Rattle.wasm_validator_checks.specs.Names.{is_short, told_of_name, told_of_names};

use wasm_readers::Import;
use wasm_readers::readers_errors::{Fault, ItemRule, Refusal, WasmFeatures};

/// The most bytes of a name of an import or export, with `CRATE_LIMITS`.
pub const MAX_STRING_SIZE: usize = 100_000;

/// Accepts a name of at most 100,000 bytes, and without `CRATE_LIMITS` any name.
///
/// # Errors
///
/// Refuses, at `offset`, a longer name with `CRATE_LIMITS`.
pub fn check_name(features: WasmFeatures, name: &str, offset: u64) -> Result<(), Refusal>
    ensures allowed { is_ok result ≡ is_short (features_of features) name.now }
    ensures refusal { IfErr result (IsPlainRefusalAt offset) }
    ensures told { refused result ≡ told_of_name features offset name.now }
{
    if name.len() > MAX_STRING_SIZE && features.crate_limits() {
        return Err(Refusal::new(Fault::Item(ItemRule::NameSize), offset));
    }
    Ok(())
}

/// The same of both names of an import.
///
/// # Errors
///
/// Refuses, at `offset`, a longer name with `CRATE_LIMITS`.
pub fn check_names(features: WasmFeatures, import: &Import, offset: u64) -> Result<(), Refusal>
    ensures allowed { is_ok result
        ≡ (is_short (features_of features) (import_of import.now).module_name
        && is_short (features_of features) (import_of import.now).item_name) }
    ensures refusal { IfErr result (IsPlainRefusalAt offset) }
    ensures told { refused result ≡ told_of_names features offset (import_of import.now) }
{
    check_name(features, import.module, offset)?;
    check_name(features, import.name, offset)
}
