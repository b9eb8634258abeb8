//! The start of the next body, in place.

ghost use Rattle.std.specs.Prelude.{◌≡◌, ◌≤◌, not, is_ok, true, length, IfErr, OnOk};
ghost use Rattle.wasm_typing_validator.specs.WasmTypingControl.Blocks.{function_in};
ghost use Rattle.wasm_typing_validator.specs.BodyTyping.{locals_in, BeginsBody};
ghost use Rattle.wasm_validator_func.specs.Functions.{HasMore, StandsFirst};

use crate::func_validator::{FuncToValidate, FuncValidator, FuncValidatorAllocations, begin};
use std::alloc::Allocator;
use wasm_readers_errors::Error;
use wasm_validator_resources::WasmModuleResources;

impl<T: WasmModuleResources + Drop, A: Allocator> FuncValidator<T, A> {
    /// A validator of no body yet, by these look-ups and in memory that was used before. It refuses
    /// all until [`FuncValidator::begin_next`] begins one.
    pub fn without_body(
        resources: T,
        allocations: FuncValidatorAllocations<A>,
    ) -> FuncValidator<T, A>
        ensures resources { result.resources ≡ resources }
        ensures failed { result.validator.failed ≡ true }
        ensures index { result.index ≡ 0 }
    {
        let mut validator = allocations.0.validator;
        validator.fail();
        FuncValidator {
            validator,
            resources,
            index: 0,
        }
    }

    /// Begins the body of another function in place of what was validated before, by its own look-ups
    /// and features, in the same memory. What was refused before counts for nothing then.
    ///
    /// # Errors
    ///
    /// Refuses, at 0, a type's index that names no function type, and more than 50,000 parameters;
    /// answers want of memory. The validator has then failed, and refuses all but another start.
    pub fn begin_next(&mut self, function: FuncToValidate<T>) -> Result<(), Error>
        ensures begins { OnOk result (BeginsBody self.new.validator
            (T.context function.resources) function.ty) }
        ensures few { OnOk result (length (locals_in self.new.validator) ≤ 50000) }
        ensures features { OnOk result (self.new.validator.stacks.features
            ≡ function.features) }
        ensures failed { self.new.validator.failed ≡ not (is_ok result) }
        ensures resources { self.new.resources ≡ function.resources }
        ensures index { self.new.index ≡ function.index }
        ensures many { HasMore result (function_in (T.context function.resources)
            function.ty) }
        ensures first { IfErr result StandsFirst }
    {
        let FuncToValidate {
            resources,
            index,
            ty,
            features,
        } = function;
        self.resources = resources;
        self.index = index;
        match begin(&mut self.validator, &self.resources, ty, features) {
            Ok(()) => Ok(()),
            Err(error) => {
                self.validator.fail();
                Err(error)
            }
        }
    }
}
