//! Features by name, as rows have them.

use crate::judge::Trouble;
use bitflags::Flags;
use wasm_readers_errors::WasmFeatures;

/// The features that this text names: `default`, `all` or `none`, and then names behind `+` and
/// `-`, which are put in and taken out in turn.
pub fn parse_features(text: &str) -> Result<WasmFeatures, Trouble> {
    let mut features: Option<WasmFeatures> = None;
    for part in text.split('+') {
        features = Some(with_part(features, part)?);
    }
    match features {
        Some(features) => Ok(features),
        None => Err(Trouble::Malformed("no features")),
    }
}

/// With the first name of this part put in, or as the start, and the further names, each behind
/// `-`, taken out.
fn with_part(before: Option<WasmFeatures>, part: &str) -> Result<WasmFeatures, Trouble> {
    let Some((first, others)) = part.split_once('-') else {
        return with_name(before, part);
    };
    let mut features = with_name(before, first)?;
    for name in others.split('-') {
        features.remove(named(name)?);
    }
    Ok(features)
}

/// With this name put in, or as the start.
fn with_name(before: Option<WasmFeatures>, name: &str) -> Result<WasmFeatures, Trouble> {
    match before {
        Some(mut features) => {
            features.insert(named(name)?);
            Ok(features)
        }
        None => match name {
            "default" => Ok(WasmFeatures::default()),
            "all" => Ok(WasmFeatures::all()),
            "none" => Ok(WasmFeatures::empty()),
            _ => Err(Trouble::Malformed("features that begin with no known set")),
        },
    }
}

/// The feature of this name, in lower case.
fn named(name: &str) -> Result<WasmFeatures, Trouble> {
    for flag in WasmFeatures::flags() {
        if flag.name().eq_ignore_ascii_case(name) {
            return Ok(*flag.value());
        }
    }
    Err(Trouble::Malformed("an unknown feature"))
}

/// The name of this feature, in upper case.
pub fn name_of(feature: WasmFeatures) -> &'static str {
    for flag in WasmFeatures::flags() {
        if *flag.value() == feature {
            return flag.name();
        }
    }
    "?"
}
