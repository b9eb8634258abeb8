//! Laws of items that hold constant expressions.

ghost use Rattle.std.specs.Prelude.{ℕ};
ghost use Rattle.wasm_spec.specs.Features.{Features};
ghost use Rattle.wasm_spec_rules.specs.Contexts.{Context};
ghost use Rattle.wasm_readers_types.specs.WasmReadersValues.declared.indices.UnpackedIndex.{UnpackedIndex};
ghost use Rattle.wasm_validator_segments.specs.Expressions.{ExpressionsAreFound};

/// What is read and typed in one pass is a constant expression of the type, and each is found.
pub fn expressions_are_found()
    ensures { (C : Context UnpackedIndex) (F : Features) (imported : ℕ)
        → ExpressionsAreFound C F imported }
{}
