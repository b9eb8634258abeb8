//! What may be given where an import asks for something, as far as it needs no list of types
//! (Core Specification 3.0, Validation, Matching, Limits and Memory Types).

ghost use Rattle.std.specs.Prelude.{◌≡◌};
ghost use Rattle.std.specs.Bool.{Decides};
ghost use Rattle.wasm_readers_values.specs.WasmSpec.LinkMatching.{HasMaximumWithin, MatchesLimits, MatchesMemory, page_log};
ghost use Rattle.wasm_readers_types.specs.SeenExterns.{memory_of};

use crate::externs::MemoryType;

/// Whether limits, a minimum and a maximum, may be given where these are asked for: the minimum is
/// not smaller, and where a maximum is asked for there is one, which is not greater (Core
/// Specification 3.0, Validation, Matching, Limits).
pub fn limits_match(
    minimum: u64,
    maximum: Option<u64>,
    asked_minimum: u64,
    asked_maximum: Option<u64>,
) -> bool
    ensures { Decides result (MatchesLimits (minimum, maximum) (asked_minimum, asked_maximum)) }
{
    asked_minimum <= minimum && maximum_is_within(maximum, asked_maximum)
}

/// Whether a maximum is within the one that is asked for, if one is.
fn maximum_is_within(maximum: Option<u64>, asked: Option<u64>) -> bool
    ensures { Decides result (HasMaximumWithin maximum asked) }
{
    match (maximum, asked) {
        (_, None) => true,
        (None, Some(_)) => false,
        (Some(maximum), Some(asked)) => maximum <= asked,
    }
}

impl MemoryType {
    /// The base-2 logarithm of the size of a page in bytes: 16 where it isn't written.
    pub fn page_log2(&self) -> u32
        ensures { result ≡ page_log (memory_of self.now) }
    {
        match self.page_size_log2 {
            Some(log2) => log2,
            None => 16,
        }
    }

    /// Whether a memory of this type may be given where one of the other is asked for (Core
    /// Specification 3.0, Validation, Matching, Memory Types).
    pub fn is_subtype_of(&self, asked: &MemoryType) -> bool
        ensures { Decides result (MatchesMemory (memory_of self.now) (memory_of asked.now)) }
    {
        if self.memory64 != asked.memory64 || self.shared != asked.shared {
            return false;
        }
        let pages = self.page_log2();
        let asked_pages = asked.page_log2();
        if pages != asked_pages {
            return false;
        }
        limits_match(self.initial, self.maximum, asked.initial, asked.maximum)
    }
}
