//! The features by their names.

ghost use Rattle.std.specs.Prelude.{◌≡◌};
ghost use Rattle.bitflags.specs.Sets.{known_bits};
ghost use Rattle.wasm_validator_handles.specs.Names.{bits_named, name_in};

use wasm_validator::{Flags, WasmFeatures};

/// The bits of the feature with this name, or none.
pub fn find_feature(name: &[u8]) -> u64
    ensures { result ≡ bits_named ⟦<WasmFeatures as Flags>⟧.table name.now }
{
    match std::str::from_utf8(name) {
        Ok(text) => match WasmFeatures::from_name(text) {
            Some(feature) => feature.bits(),
            None => 0,
        },
        Err(_) => 0,
    }
}

/// The name of the feature with these bits, or the empty one.
pub fn find_name(bits: u64) -> &'static str
    ensures { result.now ≡ name_in ⟦<WasmFeatures as Flags>⟧.table bits }
{
    let flags = WasmFeatures::flags();
    'flags: for k in 0..flags.len() {
        if flags[k].value().bits() == bits {
            return flags[k].name();
        }
    }
    ""
}

/// The bits of all features, `CRATE_LIMITS` among them.
pub fn all_features() -> u64
    ensures { result ≡ known_bits ⟦<WasmFeatures as Flags>⟧.table }
{
    <WasmFeatures as Flags>::all().bits()
}
