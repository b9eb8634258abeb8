//! Function types by their ids.

ghost use Rattle.std.specs.Prelude.{◌≡◌, ◌≤◌, IfSome};
ghost use Rattle.std.specs.Option.{option_map};
ghost use Rattle.wasm_spec.specs.Syntax.{map_comp};
ghost use Rattle.wasm_readers_types.specs.SeenTypes.{comp_of};
ghost use Rattle.wasm_validator.specs.WasmValidatorTypes.WasmValidatorTypeList.DeclarationsById.{declares};
ghost use Rattle.wasm_validator.specs.WasmValidatorTypes.WasmValidatorTypeList.Lookups.{leads_to};
ghost use Rattle.wasm_validator_handles.specs.Signatures.{func_in, func_of_comp, signature_by_ids};
ghost use Rattle.wasm_validator_handles.specs.declared.values.TheConstants.{MOST_IDS};

use wasm_validator::{CompositeInnerType, CoreTypeId, TypeList, ValType};

/// What a function of a type takes and gives. Their references stand in a recursion group whose first
/// id this is.
#[derive(Clone, Copy)]
pub struct Signature<'a> {
    pub start: u32,
    pub params: &'a [ValType],
    pub results: &'a [ValType],
}

/// What a function of the type with this id takes and gives, where the list has a function type there.
pub fn find_signature<'a>(list: &'a TypeList, id: u32) -> Option<Signature<'a>>
    ensures found { option_map signature_by_ids result ≡ func_in (declares list.now.groups id) }
    ensures start { IfSome result (λ s. s.start ≤ MOST_IDS) }
{
    list.recall_promises();
    let id = CoreTypeId::from_index(id);
    if list.holds_id(id) {
        let group = list.rec_group_id_of(id);
        let start = list[group].start.index() as u32;
        read_signature(start, &list[id].composite_type.inner)
    } else {
        None
    }
}

/// What a function of this type takes and gives, if it is a function type.
fn read_signature<'a>(start: u32, inner: &'a CompositeInnerType) -> Option<Signature<'a>>
    ensures found { option_map signature_by_ids result
        ≡ func_of_comp (map_comp (leads_to start) (comp_of inner.now)) }
    ensures start { IfSome result (λ s. s.start ≡ start) }
{
    match inner {
        CompositeInnerType::Func(ty) => Some(Signature {
            start,
            params: ty.params(),
            results: ty.results(),
        }),
        _ => None,
    }
}
