//! Copies of the validator of one function.

ghost use Rattle.std.specs.Prelude.{◌≡◌, IfOk};

use crate::func_validator::FuncValidator;
use std::alloc::{AllocError, Allocator};
use wasm_validator_resources::WasmModuleResources;

impl<T: WasmModuleResources + Clone, A: Allocator + Copy> FuncValidator<T, A> {
    /// A validator of the same function with the same operands, frames and locals, failed or not as
    /// this one, in memory of its own. It looks up in a clone of what this one looks up in. Such
    /// clones have the same context.
    ///
    /// # Errors
    ///
    /// Answers want of memory.
    pub fn clone(&self) -> Result<FuncValidator<T, A>, AllocError>
        requires { (r : T) → T.is_clone self.now.resources r
            → T.context r ≡ T.context self.now.resources }
        ensures same { IfOk result (λ copy. copy.validator ≡ self.now.validator) }
        ensures context { IfOk result (λ copy. T.context copy.resources
            ≡ T.context self.now.resources) }
        ensures cloned { IfOk result (λ copy. T.is_clone self.now.resources copy.resources) }
        ensures index { IfOk result (λ copy. copy.index ≡ self.now.index) }
    {
        let resources = self.resources.clone()?;
        let validator = self.validator.clone()?;
        Ok(FuncValidator {
            validator,
            resources,
            index: self.index,
        })
    }
}
