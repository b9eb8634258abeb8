//! How names are hashed: by SipHash-1-3 with a key in front.

ghost use Rattle.std.specs.Prelude.{◌≡◌};
ghost use Rattle.std.specs.Hash.DefaultHasher as sip;
ghost use Rattle.wasm_validator_types.specs.NameKeys.{keyed};

use std::hash::{BuildHasher, DefaultHasher, Hash, Hasher};

/// The key with which names are hashed.
#[derive(Clone, Copy)]
pub(crate) struct NameKey {
    key: u64,
}

impl NameKey {
    /// The key that is made of these bytes: their hash.
    pub fn of(bytes: &[u8]) -> NameKey
        ensures { result.key ≡ sip.finish (sip.write sip.initial bytes.now) }
    {
        let mut state = DefaultHasher::new();
        state.write(bytes);
        NameKey {
            key: state.finish(),
        }
    }
}

impl BuildHasher for NameKey {
    type Hasher = DefaultHasher;

    ghost build_hasher = { keyed };

    fn build_hasher(&self) -> DefaultHasher {
        let mut state = DefaultHasher::new();
        self.key.hash(&mut state);
        state
    }
}
