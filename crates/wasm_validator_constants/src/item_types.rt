//! Which references are of the type of an element segment's items.

ghost use Rattle.std.specs.Prelude.{◌≡◌, true};
ghost use Rattle.std.specs.Option.{option_map};
ghost use Rattle.wasm_spec.specs.BinaryTypes.{abstract_heap_from};
ghost use Rattle.wasm_validator_resources.specs.WasmSpecRules.FeatureFlags.{features_of};
ghost use Rattle.wasm_validator_resources.specs.WasmReadersTypes.WasmReadersValues.SeenValues.{abstract_heap_of, val_of};
ghost use Rattle.wasm_validator_constants.specs.Items.{TakesType, TakesNull, KnowsType, KnowsNull};

use wasm_readers::readers_errors::WasmFeatures;
use wasm_validator_resources::readers_types::{
    AbstractHeapType, HeapType, RefType, UnpackedIndex, ValType,
};
use wasm_validator_resources::{WasmModuleResources, check_value_type};

/// Whether references to the functions whose type has this index are of this type.
#[inline(never)]
fn takes_type<T: WasmModuleResources>(resources: &T, ty: &ValType, type_index: u32) -> bool
    ensures { result ≡ true → TakesType (T.context resources.now) (val_of ty.now) type_index }
{
    let written = HeapType::Concrete(UnpackedIndex::Module(type_index));
    match RefType::new(false, written) {
        Some(ty_written) => {
            let mut named = ty_written;
            match resources.check_ref_type(&mut named, 0) {
                Ok(()) => resources.is_subtype(ValType::Ref(named), *ty),
                Err(_) => false,
            }
        }
        None => false,
    }
}

/// Whether it is so, asked again only where it is not known of this type index.
#[inline(always)]
pub(crate) fn knows_type<T: WasmModuleResources>(
    resources: &T,
    ty: &ValType,
    known: &mut u64,
    type_index: u32,
) -> bool
    requires { KnowsType (T.context resources.now) (val_of ty.now) known.old }
    ensures known { KnowsType (T.context resources.now) (val_of ty.now) known.new }
    ensures taken { result ≡ true → TakesType (T.context resources.now) (val_of ty.now)
        type_index }
{
    if u64::from(type_index) == *known {
        return true;
    }
    if !takes_type(resources, ty, type_index) {
        return false;
    }
    *known = u64::from(type_index);
    true
}

/// The abstract heap type of this byte, if it is one.
fn abstract_heap_type(byte: u8) -> Option<AbstractHeapType>
    ensures { option_map abstract_heap_of result ≡ abstract_heap_from byte }
{
    match byte {
        0x68 => Some(AbstractHeapType::Cont),
        0x69 => Some(AbstractHeapType::Exn),
        0x6a => Some(AbstractHeapType::Array),
        0x6b => Some(AbstractHeapType::Struct),
        0x6c => Some(AbstractHeapType::I31),
        0x6d => Some(AbstractHeapType::Eq),
        0x6e => Some(AbstractHeapType::Any),
        0x6f => Some(AbstractHeapType::Extern),
        0x70 => Some(AbstractHeapType::Func),
        0x71 => Some(AbstractHeapType::None),
        0x72 => Some(AbstractHeapType::NoExtern),
        0x73 => Some(AbstractHeapType::NoFunc),
        0x74 => Some(AbstractHeapType::NoExn),
        0x75 => Some(AbstractHeapType::NoCont),
        _ => None,
    }
}

/// Whether the features allow null of the abstract heap type of this byte, and it is of this type.
#[inline(never)]
fn takes_null<T: WasmModuleResources>(
    features: WasmFeatures,
    resources: &T,
    ty: &ValType,
    byte: u8,
) -> bool
    ensures { result ≡ true → TakesNull (T.context resources.now) (features_of features)
        (val_of ty.now) byte }
{
    match abstract_heap_type(byte) {
        Some(heap) => match RefType::new(
            true,
            HeapType::Abstract {
                shared: false,
                ty: heap,
            },
        ) {
            Some(null) => {
                let null = ValType::Ref(null);
                check_value_type(features, null, 0).is_ok() && resources.is_subtype(null, *ty)
            }
            None => false,
        },
        None => false,
    }
}

/// Whether it is so, asked again only where it is not known of this byte.
#[inline(always)]
pub(crate) fn knows_null<T: WasmModuleResources>(
    features: WasmFeatures,
    resources: &T,
    ty: &ValType,
    known: &mut u64,
    byte: u8,
) -> bool
    requires { KnowsNull (T.context resources.now) (features_of features) (val_of ty.now)
        known.old }
    ensures known { KnowsNull (T.context resources.now) (features_of features) (val_of ty.now)
        known.new }
    ensures taken { result ≡ true → TakesNull (T.context resources.now) (features_of features)
        (val_of ty.now) byte }
{
    if u64::from(byte) == *known {
        return true;
    }
    if !takes_null(features, resources, ty, byte) {
        return false;
    }
    *known = u64::from(byte);
    true
}
