//! Types, exports and imports of a module by their numbers.

ghost use Rattle.std.specs.Prelude.{◌≡◌, slice_get};
ghost use Rattle.std.specs.Option.{option_map};
ghost use Rattle.wasm_validator.specs.WasmValidatorTypes.Entities.{entity_of};
ghost use Rattle.wasm_validator.specs.WasmValidatorTypes.Rows.{all_imports};
ghost use Rattle.wasm_validator.specs.WasmValidatorTypes.ShownModules.{shown_by};

use wasm_validator::{CoreTypeId, EntityType, TypesRef};

/// The type with this index.
pub fn nth_type(types: &TypesRef<'_>, index: u32) -> Option<CoreTypeId>
    ensures { option_map (λ id. id.index) result ≡ slice_get (shown_by types.now).spaces.types index }
{
    if index < types.core_type_count_in_module() {
        Some(types.core_type_at_in_module(index))
    } else {
        None
    }
}

/// What the module exports behind so many others.
pub fn nth_export(types: &TypesRef<'_>, number: u32) -> Option<EntityType>
    ensures { option_map entity_of result ≡ option_map (λ e. e.1)
        (slice_get (shown_by types.now).spaces.exports number) }
{
    let mut exports = types.core_exports()?;
    let mut left = number;
    'exports: while let Some((_, entity)) = exports.next() {
        if left == 0 {
            return Some(entity);
        }
        left -= 1;
    }
    None
}

/// What the module imports behind so many others.
pub fn nth_import(types: &TypesRef<'_>, number: u32) -> Option<EntityType>
    ensures { option_map entity_of result ≡ option_map (λ i. i.2)
        (slice_get (all_imports (shown_by types.now).spaces.imports) number) }
{
    let mut imports = types.core_imports()?;
    let mut left = number;
    'imports: while let Some((_, _, entity)) = imports.next() {
        if left == 0 {
            return Some(entity);
        }
        left -= 1;
    }
    None
}
