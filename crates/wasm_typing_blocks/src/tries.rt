//! `try_table`.

ghost use Rattle.std.specs.Prelude.{◌≡◌, nat_le, length};
ghost use Rattle.wasm_spec.specs.CrateLimits.{most_clauses};
ghost use Rattle.wasm_spec_rules.specs.FeatureFlags.{features_of};
ghost use Rattle.wasm_operators.specs.Control.{try_table, catch_at};
ghost use Rattle.wasm_operators.specs.SeenControl.{block_of};
ghost use Rattle.wasm_operators.specs.SeenLists.{listed};
ghost use Rattle.wasm_typing_control.specs.WasmTypingChecks.WasmSpecSteps.Actions.{few_clauses};
ghost use Rattle.wasm_typing_control.specs.WasmTypingChecks.WasmSpecSteps.Machine.{try_table_kind};
ghost use Rattle.wasm_typing_control.specs.WasmTypingChecks.WasmSpecSteps.Meanings.{is_on};
ghost use Rattle.wasm_typing_control.specs.WasmTypingChecks.WasmSpecSteps.Shapes.{control_shape, opening, nothing};
ghost use Rattle.wasm_typing_control.specs.WasmTypingChecks.WasmTypingStacks.BodyStacks.{Kept};
ghost use Rattle.wasm_typing_control.specs.WasmTypingChecks.Steps.{Performs};
ghost use Rattle.wasm_typing_blocks.specs.KnownBlockTypes.{try_checks};
ghost use Rattle.wasm_typing_blocks.specs.WrittenOperators.{block_written, IsWrittenBlock};

use crate::catches::check_catches;
use crate::openings::resolve;
use std::alloc::Allocator;
use wasm_operators::{Catch, FrameKind, Listed, TryTable};
use wasm_readers::readers_errors::WasmFeatures;
use wasm_typing_control::open_frame;
use wasm_typing_control::typing_checks::{OperatorError, OperatorFault, OperatorRule, has};
use wasm_typing_control::typing_stacks::Stacks;
use wasm_typing_control::validator_resources::WasmModuleResources;

/// The most catch clauses of a `try_table`, with `CRATE_LIMITS`.
pub const MAX_WASM_CATCHES: usize = 10_000;

/// Whether these are at most 10,000 catch clauses.
#[tactic(auto, using(crate::proofs::CatchCounts::counts))]
fn are_few<'a>(clauses: Listed<'a, Catch>) -> bool
    ensures { result ≡ nat_le (length (listed catch_at clauses.entry)) most_clauses }
{
    let mut left = clauses.items();
    let mut room = MAX_WASM_CATCHES;
    'counting: while let Some(_clause) = left.next() {
        if room == 0 {
            return false;
        }
        room -= 1;
    }
    true
}

/// Whether the features allow a `try_table` to have so many catch clauses.
fn allows_clauses<'a, A: Allocator>(stacks: &Stacks<A>, clauses: Listed<'a, Catch>) -> bool
    ensures { result ≡ is_on (features_of stacks.now.features)
        (few_clauses (length (listed catch_at clauses.entry))) }
{
    if !has(stacks, WasmFeatures::CRATE_LIMITS) {
        return true;
    }
    are_few(clauses)
}

/// `try_table` with any number of catch clauses.
#[tactic(auto, using(crate::proofs::Cited::acts, crate::proofs::BlockEntries::tries))]
fn enter_try_table<'a, A: Allocator, T: WasmModuleResources>(
    stacks: &mut Stacks<A>,
    resources: &T,
    table: TryTable<'a>,
) -> Result<(), OperatorError>
    requires { IsWrittenBlock (block_of table.ty) }
    ensures took { Performs result (T.context resources.now)
        (opening (try_checks (block_written table.entry.ty) (listed catch_at table.entry.catches))
        nothing try_table_kind (block_written table.entry.ty)) stacks.old stacks.new }
    ensures same { Kept stacks.old stacks.new }
{
    if !has(stacks, WasmFeatures::EXCEPTIONS) {
        return Err(OperatorError::Refused(OperatorFault::new(OperatorRule::Exceptions)));
    }
    let opening = match resolve(stacks, resources, table.ty) {
        Ok(opening) => opening,
        Err(fault) => return Err(OperatorError::Refused(fault)),
    };
    match check_catches(stacks, resources, table.catches) {
        Ok(()) => open_frame(
            stacks,
            resources,
            FrameKind::TryTable,
            opening.word,
            0,
            opening.takes,
        ),
        Err(fault) => Err(OperatorError::Refused(fault)),
    }
}

/// `try_table` (Core Specification 3.0, Validation, Instructions, Control Instructions): a frame
/// whose catch clauses branch to labels around it. Each label takes what its clause sends.
///
/// # Errors
///
/// Refuses, with `CRATE_LIMITS`, more than 10,000 catch clauses (`CatchCount`), and refuses it
/// without the proposal of exceptions (`Exceptions`), a block type that the features or
/// the module don't have (`ValueType`, `MultiValue`, `UnknownType`, `NotAFunction`, `Shared`), a
/// tag that isn't there (`UnknownTag`) or has results (`TagResults`), a label that isn't there
/// (`UnknownLabel`) or takes other types (`CatchTypes`), and operands that aren't what the block
/// takes (`Operand`). Where it is refused, all stays.
#[tactic(auto, using(crate::proofs::Cited::acts))]
pub fn open_try_table<'a, A: Allocator, T: WasmModuleResources>(
    stacks: &mut Stacks<A>,
    resources: &T,
    table: TryTable<'a>,
) -> Result<(), OperatorError>
    requires { IsWrittenBlock (block_of table.ty) }
    ensures took { Performs result (T.context resources.now)
        (control_shape (try_table (block_written table.entry.ty)
        (listed catch_at table.entry.catches))) stacks.old stacks.new }
    ensures same { Kept stacks.old stacks.new }
{
    if !allows_clauses(stacks, table.catches) {
        return Err(OperatorError::Refused(OperatorFault::new(OperatorRule::CatchCount)));
    }
    enter_try_table(stacks, resources, table)
}
