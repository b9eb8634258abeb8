//! Visitors of the body of one function.

ghost use Rattle.std.specs.Prelude.{◌≡◌};
ghost use Rattle.std.specs.Borrow.{Lends, sem};
ghost use Rattle.wasm_typing_validator.specs.contracts.validator.OperatorValidator.{the_row as operators_row};
ghost use Rattle.wasm_validator_func.specs.contracts.func_validator.FuncValidator.{the_row};

use crate::func_validator::FuncValidator;
use std::alloc::Allocator;
use wasm_typing_validator::OperatorVisitor;
use wasm_validator_resources::WasmModuleResources;

impl<T: WasmModuleResources, A: Allocator> FuncValidator<T, A> {
    /// A visitor of the function's body, over what the validator looks up. It begins with the
    /// operands, frames and locals that the validator has, and the validator goes on with those that
    /// the visitor leaves (Core Specification 3.0, Appendix, Validation Algorithm). No offset is given
    /// here, since each call of the visitor is given its operator's.
    ///
    /// A failed validator has a visitor too, which refuses all; and where the visitor refuses, the
    /// validator has failed.
    pub fn visitor(&mut self) -> OperatorVisitor<'_, '_, T, A>
        ensures* writes_back { sem 𝓛 (Lends (the_row T.row A.row A.Allocator)
            (operators_row A.row A.Allocator) self.entry result.validator
            (λ left. record self.old { validator = left })) }
        ensures typed { result.validator.now ≡ self.old.validator }
        ensures looked_up { result.resources.now ≡ self.old.resources }
    {
        OperatorVisitor::new(&mut self.validator, &self.resources)
    }

    /// The same visitor as [`FuncValidator::visitor`], which takes operators on vectors too.
    pub fn simd_visitor(&mut self) -> OperatorVisitor<'_, '_, T, A>
        ensures* writes_back { sem 𝓛 (Lends (the_row T.row A.row A.Allocator)
            (operators_row A.row A.Allocator) self.entry result.validator
            (λ left. record self.old { validator = left })) }
        ensures typed { result.validator.now ≡ self.old.validator }
        ensures looked_up { result.resources.now ≡ self.old.resources }
    {
        self.visitor()
    }
}
