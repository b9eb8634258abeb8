//! The proposals that words on the command line name.

ghost use Rattle.std.specs.Prelude.{◌≡◌, IfOk, IfErr, Some, map, option_map};
ghost use Rattle.wasm_check.specs.FeatureWords.{changed, selected, wasm3, bits_named, is_named, flag_letter, IsUnknown};

use bitflags::Flag;
pub use wasm_check_reports::files::validator::{Flags, WasmFeatures};

/// What the Core Specification 3.0 has, as far as features decide it: the default features with vectors
/// and without threads.
pub fn wasm3() -> WasmFeatures
    ensures { result ≡ wasm3 }
{
    WasmFeatures::STANDARD
        .difference(WasmFeatures::THREADS)
        .union(WasmFeatures::VECTOR_OPERATORS)
}

/// The features that these words select, one after another, from the default ones on: `default`, `all`
/// and `wasm3` select those, of which none has `CRATE_LIMITS`, `+name` adds a feature, and `-name` takes
/// one away. A name is that of a flag of [`WasmFeatures`] in small letters, with `-` or `_` between
/// its words.
///
/// # Errors
///
/// The first word that is none of these.
pub fn select_features<'a>(words: &[&'a str]) -> Result<WasmFeatures, &'a str>
    ensures selected { IfOk result (λ features. selected ⟦<WasmFeatures as Flags>⟧.table
        (map (λ word. word.now) words.now) ≡ Some features) }
    ensures unknown { IfErr result (λ word. IsUnknown ⟦<WasmFeatures as Flags>⟧.table
        (map (λ word. word.now) words.now) word.now) }
{
    let mut features = WasmFeatures::STANDARD;
    'words: for word in words {
        match change_features(features, word) {
            Some(changed) => features = changed,
            None => return Err(word),
        }
    }
    Ok(features)
}

/// The features behind this word, if it is one that selects some.
fn change_features(features: WasmFeatures, word: &str) -> Option<WasmFeatures>
    ensures { result ≡ changed ⟦<WasmFeatures as Flags>⟧.table features word.now }
{
    if word == "default" {
        return Some(WasmFeatures::STANDARD);
    }
    if word == "all" {
        return Some(WasmFeatures::ALL);
    }
    if word == "wasm3" {
        return Some(wasm3());
    }
    let (sign, name) = word.as_bytes().split_first()?;
    let feature = find_feature(WasmFeatures::flags(), name)?;
    match *sign {
        b'+' => Some(features.union(feature)),
        b'-' => Some(features.difference(feature)),
        _ => None,
    }
}

/// The first of these features that the name means.
fn find_feature(flags: &[Flag<WasmFeatures>], name: &[u8]) -> Option<WasmFeatures>
    ensures { option_map (λ f. f.0) result
        ≡ bits_named (map (λ f. (f.name.now, f.value.0)) flags.now) name.now }
{
    let (flag, others) = flags.split_first()?;
    if is_named(flag.name.as_bytes(), name) {
        return Some(flag.value);
    }
    find_feature(others, name)
}

/// Whether a flag of this name is meant by the other.
fn is_named(flag: &[u8], name: &[u8]) -> bool
    ensures { result ≡ is_named flag.now name.now }
{
    match (flag.split_first(), name.split_first()) {
        (Some((letter, flag)), Some((given, name))) => {
            *letter == flag_letter(*given) && is_named(flag, name)
        }
        (None, None) => true,
        _ => false,
    }
}

/// The letter of a flag's name that this one stands for.
pub fn flag_letter(letter: u8) -> u8
    ensures { result ≡ flag_letter letter }
{
    if letter == b'-' {
        b'_'
    } else {
        letter.to_ascii_uppercase()
    }
}
