//! The start of the code section of a module.

ghost use Rattle.std.specs.Prelude.{◌≡◌, IfOk, OnOk};
ghost use Rattle.wasm_validator_items.specs.WasmValidatorCore.OpenLists.{AreHeld};
ghost use Rattle.wasm_validator_items.specs.WasmValidatorCoreResources.ById.{AreFirstByIds};
ghost use Rattle.wasm_validator_type_list.specs.DefTypes.{types_of_list};
ghost use Rattle.wasm_validator_sections.specs.ModuleNotes.{noted_of};
ghost use Rattle.wasm_validator_sections.specs.CodeProgress.{starting, started_of};

use crate::{CodeState, Constants, ModuleState, tells_types_apart};
use std::alloc::{AllocError, Allocator};
use std::rc::Rc;
use wasm_validator_items::validator_core_resources::ValidatorResources;
use wasm_validator_types::TypeList;

/// The start of the code of a module: its lists are shared from now on, and what bodies look up is
/// made of them.
pub fn started<A: Allocator + Copy>(
    alloc: A,
    types: &mut TypeList<A>,
    constants: &mut Constants<A>,
    state: ModuleState<A>,
) -> Result<CodeState<A>, AllocError>
    requires held { AreHeld types.old state.«module».types }
    requires first { AreFirstByIds types.old.groups constants.old.types }
    ensures same { types.new ≡ types.old }
    ensures first { OnOk result (AreFirstByIds types.old.groups constants.new.types) }
    ensures spaces { IfOk result (λ c. c.spaces.value ≡ state.«module») }
    ensures begun { IfOk result (λ c. started_of c
        ≡ starting (types_of_list types.old) state.«module» (noted_of state)) }
{
    tells_types_apart(types);
    let listed = types.commit()?;
    let by_ids = constants.committed(&listed)?;
    let ModuleState {
        module,
        data_count,
        referenced,
    } = state;
    let spaces = Rc::new(alloc, module.into_spaces())?;
    let resources = ValidatorResources::new(
        alloc,
        spaces.clone()?,
        listed,
        by_ids,
        data_count,
        referenced.into_flags(),
    )?;
    Ok(CodeState::new(spaces, resources))
}
