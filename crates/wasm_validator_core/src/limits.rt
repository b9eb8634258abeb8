//! Limits on the items of a module.

ghost use Rattle.std.specs.Prelude.{◌≡◌, ◌+◌, is_ok, nat_le, IfErr};
ghost use Rattle.wasm_spec_rules.specs.FeatureFlags.{features_of};
ghost use Rattle.wasm_spec_rules.specs.Limits.{most_tables, most_memories};
ghost use Rattle.wasm_validator_checks.specs.Answers.{IsRefusalAt};
ghost use Rattle.wasm_validator_core.specs.Items.{is_data_count};
ghost use Rattle.wasm_validator_core.specs.AddedItemRefusals.{told_of_data_count};
ghost use Rattle.wasm_validator_core.specs.LimitRefusals.{lifting_one, lifting_limit, beyond_limit};
ghost use Rattle.wasm_readers_errors.specs.Refusals.{refused};

use bitflags::Flags;
use wasm_readers::{Counted, Fault, ItemRule, Refusal, WasmFeatures};

/// The most types of a module, and the most recursion groups.
pub const MAX_TYPES: u32 = 1_000_000;

/// The most import entries of a module.
pub const MAX_IMPORTS: u32 = 1_000_000;

/// The most functions of a module, imported ones among them.
pub const MAX_FUNCTIONS: u32 = 1_000_000;

/// The most globals of a module, imported ones among them.
pub const MAX_GLOBALS: u32 = 1_000_000;

/// The most tags of a module, imported ones among them.
pub const MAX_TAGS: u32 = 1_000_000;

/// The most exports of a module.
pub const MAX_EXPORTS: u32 = 1_000_000;

/// The most element segments of a module.
pub const MAX_ELEMENT_SEGMENTS: u32 = 100_000;

/// The most data segments of a module.
pub const MAX_DATA_SEGMENTS: u32 = 100_000;

/// The most tables of a module with `REFERENCE_TYPES`.
pub const MAX_TABLES: u32 = 100;

/// The most memories of a module with `MULTI_MEMORY`.
pub const MAX_MEMORIES: u32 = 100;

/// The most tables of a module.
pub fn max_tables(features: WasmFeatures) -> u32
    ensures { result ≡ most_tables (features_of features) }
{
    if features.contains(WasmFeatures::REFERENCE_TYPES) {
        MAX_TABLES
    } else {
        1
    }
}

/// The most memories of a module.
pub fn max_memories(features: WasmFeatures) -> u32
    ensures { result ≡ most_memories (features_of features) }
{
    if features.contains(WasmFeatures::MULTI_MEMORY) {
        MAX_MEMORIES
    } else {
        1
    }
}

/// The proposal, if so many more items besides those that are there are too many without it, where
/// there may be one, but not with it, where there may be `lifted`.
fn lifting_one(
    proposal: WasmFeatures,
    lifted: u32,
    limit: u32,
    there: usize,
    more: usize,
) -> Option<WasmFeatures>
    ensures { result ≡ lifting_one proposal lifted limit (there + more) }
{
    let most = lifted as usize;
    if limit == 1 && there <= most && more <= most - there {
        Some(proposal)
    } else {
        None
    }
}

/// The proposal under which a module might have so many more items besides those that are there.
fn lifting_limit(what: Counted, limit: u32, there: usize, more: usize) -> Option<WasmFeatures>
    ensures { result ≡ lifting_limit what limit (there + more) }
{
    match what {
        Counted::Tables => lifting_one(
            WasmFeatures::REFERENCE_TYPES,
            MAX_TABLES,
            limit,
            there,
            more,
        ),
        Counted::Memories => lifting_one(
            WasmFeatures::MULTI_MEMORY,
            MAX_MEMORIES,
            limit,
            there,
            more,
        ),
        _ => None,
    }
}

/// Accepts so many more items, besides those that are there, where they keep to the limit.
///
/// # Errors
///
/// Refuses, at `offset`, more in all than `limit`, and names the limit and what it counts, and the
/// proposal under which there might be so many: `REFERENCE_TYPES` of tables, `MULTI_MEMORY` of
/// memories.
pub fn check_max(
    there: usize,
    more: usize,
    limit: u32,
    what: Counted,
    offset: u64,
) -> Result<(), Refusal>
    ensures fits { is_ok result ≡ nat_le (there + more) limit }
    ensures refusal { IfErr result (λ r. r ≡ beyond_limit what limit (there + more) offset) }
{
    let most = limit as usize;
    if there <= most && more <= most - there {
        Ok(())
    } else {
        Err(Refusal {
            fault: Fault::Limit(what, limit),
            offset,
            missing: lifting_limit(what, limit, there, more),
        })
    }
}

/// Accepts the number of data segments that a data count section says (Core Specification 3.0,
/// Binary Format, Modules, Data Count Section).
///
/// # Errors
///
/// Refuses, at `offset`, every number without `BULK_MEMORY`, and more segments than a module may
/// have.
pub fn check_data_count(features: WasmFeatures, count: u32, offset: u64) -> Result<(), Refusal>
    ensures allowed { is_ok result ≡ is_data_count (features_of features) count }
    ensures refusal { IfErr result (IsRefusalAt features offset) }
    ensures told { refused result ≡ told_of_data_count features offset count }
{
    if !features.contains(WasmFeatures::BULK_MEMORY) {
        let fault = Fault::Item(ItemRule::DataCounts);
        return Err(Refusal::missing(fault, offset, WasmFeatures::BULK_MEMORY));
    }
    if count > MAX_DATA_SEGMENTS {
        return Err(Refusal::new(Fault::Item(ItemRule::DataCountLimit), offset));
    }
    Ok(())
}
