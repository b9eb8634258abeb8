//! How many operands the operators of legacy exceptions take and give.

ghost use Rattle.std.specs.Prelude.{◌≡◌};
ghost use Rattle.wasm_operators.specs.Maps.{map_legacy};
ghost use Rattle.wasm_operators.specs.SeenLegacy.{legacy_of};
ghost use Rattle.wasm_spec_steps.specs.Shapes.{legacy_shape};
ghost use Rattle.wasm_typing_arity.specs.Arities.{arity, index_number};

use crate::control::opening_counts;
use crate::counts::{innermost_counts, tag_count};
use crate::module::ModuleArity;
use wasm_operators::LegacyOperator;

/// How many operands the operators of a `try` take and give. What turns it to a `catch` takes what
/// it gives, and gives what an exception of the tag holds.
pub(crate) fn legacy_arity<M: ModuleArity>(
    op: &LegacyOperator,
    resources: &M,
) -> Option<(u128, u128)>
    ensures { result ≡ arity (M.asked resources.now)
        (legacy_shape (map_legacy index_number (legacy_of op.now))) }
{
    match *op {
        LegacyOperator::Try { blockty } => opening_counts(resources, blockty, 0),
        LegacyOperator::Catch { tag_index } => match innermost_counts(resources) {
            Some((_, gives)) => match tag_count(resources, tag_index) {
                Some(params) => Some((gives, params)),
                None => None,
            },
            None => None,
        },
        LegacyOperator::Rethrow { .. } => Some((0, 0)),
        LegacyOperator::Delegate { .. } => match innermost_counts(resources) {
            Some((_, gives)) => Some((gives, gives)),
            None => None,
        },
        LegacyOperator::CatchAll => match innermost_counts(resources) {
            Some((_, gives)) => Some((gives, 0)),
            None => None,
        },
    }
}
