//! The validator of operators.

ghost use Rattle.std.specs.Prelude.{◌≡◌, ◌≤◌, ◌+◌, ◌++◌, true, false, not, ◌||◌, Some, length, map, is_ok, IfErr, IfOk, OnOk, IsSome};
ghost use Rattle.std.specs.Option.{option_map};
ghost use Rattle.wasm_typing_families.specs.WasmTypingBlocks.WasmTypingChecks.WasmSpecRules.FeatureFlags.{features_of};
ghost use Rattle.wasm_readers_types.specs.SeenTypes.{sub_of};
ghost use Rattle.wasm_readers_types.specs.WasmReadersValues.SeenValues.{val_of};
ghost use Rattle.wasm_operators.specs.SeenOperators.{operator_of};
ghost use Rattle.wasm_typing_families.specs.WasmTypingBlocks.WasmTypingChecks.WasmSpecSteps.Meanings.{has_default};
ghost use Rattle.wasm_typing_families.specs.WasmTypingBlocks.WasmTypingChecks.WasmSpecSteps.Steps.{is_finished};
ghost use Rattle.wasm_typing_families.specs.WasmTypingBlocks.WasmTypingChecks.WasmValidatorResources.Answers.{sub_in, val_in, IsWrittenVal};
ghost use Rattle.wasm_typing_families.specs.WasmTypingBlocks.WasmTypingChecks.WasmTypingStacks.BodyStacks.{Kept};
ghost use Rattle.wasm_typing_families.specs.WasmTypingBlocks.WasmTypingChecks.WasmTypingStacks.Locals.{local_of};
ghost use Rattle.wasm_typing_families.specs.WasmTypingSteps.WasmTypingControl.Blocks.{function_in};
ghost use Rattle.wasm_typing_validator.specs.StackSteps.{Steps, IsWrittenInstruction};
ghost use Rattle.wasm_typing_validator.specs.OperatorVisits.{IsToldAt, StepsAt};
ghost use Rattle.wasm_typing_validator.specs.ValidatorFailures.{IsFailure, failure_at};
ghost use Rattle.wasm_typing_validator.specs.BodyTyping.{typed_state, parameter, declared_local, BeginsBody, BeginsConstant, Defines, HasMany, IsRefused};

use std::alloc::{AllocError, Allocator, Global};
use wasm_operators::{FrameKind, Operator};
use wasm_readers::readers_errors::{Error, WasmFeatures};
use wasm_readers_types::{CompositeInnerType, SubType, ValType};
use wasm_typing_families::step;
use wasm_typing_families::typing_blocks::typing_checks::{
    OperatorError, OperatorFault, OperatorRule,
};
use wasm_typing_families::typing_blocks::typing_stacks::{
    BlockWord, LocalWord, Locals, MAX_LOCALS, Stacks, TypeWord,
};
use wasm_typing_families::typing_blocks::validator_resources::WasmModuleResources;

/// The typing of one function body or one constant expression, operator by operator (Core
/// Specification 3.0, Appendix, Validation Algorithm). It keeps operands, frames and locals; what
/// it looks up of the module is handed to each call.
#[derive(Drop)]
pub struct OperatorValidator<A: Allocator = Global> {
    pub(crate) stacks: Stacks<A>,
    failed: bool,
}

/// The memory of a validator of operators, to be handed on from one body to the next.
#[derive(Drop)]
pub struct OperatorValidatorAllocations<A: Allocator = Global> {
    /// The validator that had it last, whose state says nothing.
    pub validator: OperatorValidator<A>,
}

/// The refusal by a rule.
#[inline(never)]
fn refuse(rule: OperatorRule) -> OperatorError
    ensures { IsRefused result }
{
    OperatorError::Refused(OperatorFault::new(rule))
}

/// The refusal of all that comes once something was refused.
#[inline(never)]
fn failure() -> OperatorError
    ensures { IsFailure (Err result) }
{
    let fault = OperatorFault {
        rule: OperatorRule::Failed,
        number: 0,
        expected: TypeWord::new(ValType::I32),
        found: None,
    };
    OperatorError::Refused(fault)
}

impl<A: Allocator + Copy> OperatorValidatorAllocations<A> {
    /// No memory yet.
    pub fn new(alloc: A) -> OperatorValidatorAllocations<A> {
        OperatorValidatorAllocations {
            validator: OperatorValidator {
                stacks: Stacks::new(alloc, WasmFeatures::STANDARD, false),
                failed: true,
            },
        }
    }
}

/// Whether a local of this type begins with a value.
fn has_default_value(ty: ValType) -> bool
    ensures { result ≡ has_default (val_of ty) }
{
    match ty {
        ValType::Ref(ty) => ty.is_nullable(),
        ValType::I32 | ValType::I64 | ValType::F32 | ValType::F64 | ValType::V128 => true,
    }
}

/// A local of this type as it is written, by the identities that the module gives its types, if the
/// features allow it and the module has it.
#[inline(never)]
#[tactic(auto, using(crate::proofs::LocalDefinitions::locals_found))]
fn resolve_local<T: WasmModuleResources>(
    resources: &T,
    features: WasmFeatures,
    ty: ValType,
) -> Option<LocalWord>
    requires { IsWrittenVal (val_of ty) }
    ensures { option_map local_of result ≡ option_map declared_local
        (val_in (T.context resources.now) (features_of features) (val_of ty)) }
{
    let mut resolved = ty;
    match resources.check_value_type(&mut resolved, &features, 0) {
        Ok(()) => {
            let local = LocalWord::new(TypeWord::new(resolved), has_default_value(resolved));
            Some(local)
        }
        Err(_) => None,
    }
}

/// The same. An integer needs no look-up, and is kept in registers: of any other type only a copy is
/// lent.
#[inline(always)]
#[tactic(auto, using(crate::proofs::LocalDefinitions::locals_found))]
fn find_local<T: WasmModuleResources>(
    resources: &T,
    features: WasmFeatures,
    ty: ValType,
) -> Option<LocalWord>
    requires { IsWrittenVal (val_of ty) }
    ensures { option_map local_of result ≡ option_map declared_local
        (val_in (T.context resources.now) (features_of features) (val_of ty)) }
{
    match ty {
        ValType::I32 => Some(LocalWord::new(TypeWord::new(ValType::I32), true)),
        ValType::I64 => Some(LocalWord::new(TypeWord::new(ValType::I64), true)),
        other => resolve_local(resources, features, other),
    }
}

/// The refusal of a type that the features don't allow, or that the module doesn't have.
#[inline(never)]
fn refuse_type<T: WasmModuleResources>(
    resources: &T,
    features: WasmFeatures,
    ty: ValType,
) -> OperatorError
    requires { IsWrittenVal (val_of ty) }
    ensures { IsRefused result }
{
    let mut resolved = ty;
    OperatorError::Refused(
        match resources.check_value_type(&mut resolved, &features, 0) {
            Err(refusal) => OperatorFault::written_type(refusal),
            Ok(()) => OperatorFault::new(OperatorRule::ValueType),
        },
    )
}

/// Adds the parameters of a function, which are set from the start.
#[tactic(auto, using(crate::proofs::LocalDefinitions::parameters_defined))]
fn define_parameters<A: Allocator>(
    locals: &mut Locals<A>,
    params: &[ValType],
) -> Result<(), AllocError>
    requires { length locals.old.content + length params.now ≤ 50000 }
    ensures ok { OnOk result (locals.new.content ≡ locals.old.content
        ++ map parameter (map val_of params.now)) }
    ensures inits { locals.new.inits ≡ locals.old.inits }
{
    'defining: for i in 0..params.len() {
        locals.define(1, LocalWord::new(TypeWord::new(params[i]), true))?;
    }
    Ok(())
}

impl<A: Allocator + Copy> OperatorValidator<A> {
    /// A validator with the same operands, frames and locals, failed or not as this one, in memory
    /// of its own.
    pub fn clone(&self) -> Result<OperatorValidator<A>, AllocError>
        ensures { IfOk result (λ copy. copy ≡ self.now) }
    {
        let stacks = self.stacks.clone()?;
        Ok(OperatorValidator {
            stacks,
            failed: self.failed,
        })
    }
}

impl<A: Allocator> OperatorValidator<A> {
    /// Begins the body of a function of this type in place of what was validated before, in the same
    /// memory.
    ///
    /// # Errors
    ///
    /// Refuses more than 50,000 parameters, and answers want of memory. The validator has then
    /// failed.
    #[tactic(auto, using(crate::proofs::BodyStarts::begins))]
    pub fn begin_func<T: WasmModuleResources>(
        &mut self,
        type_index: u32,
        features: WasmFeatures,
        resources: &T,
    ) -> Result<(), OperatorError>
        requires { IsSome (function_in (T.context resources.now) type_index) }
        ensures begins { OnOk result (BeginsBody self.new (T.context resources.now) type_index) }
        ensures features { self.new.stacks.features ≡ features }
        ensures many { HasMany result (function_in (T.context resources.now) type_index) }
        ensures failed { self.new.failed ≡ not (is_ok result) }
    {
        self.failed = true;
        match resources.sub_type_at(type_index) {
            Some(sub) => self.begin_func_of_type(type_index, features, resources, sub),
            None => Err(refuse(OperatorRule::UnknownType)),
        }
    }

    /// As [`OperatorValidator::begin_func`], where the type of this index has been looked up.
    ///
    /// # Errors
    ///
    /// As [`OperatorValidator::begin_func`].
    #[inline(always)]
    #[tactic(auto, using(crate::proofs::BodyStarts::begins))]
    pub fn begin_func_of_type<T: WasmModuleResources>(
        &mut self,
        type_index: u32,
        features: WasmFeatures,
        _resources: &T,
        sub: &SubType<T::A>,
    ) -> Result<(), OperatorError>
        requires known { IsSome (function_in (T.context _resources.now) type_index) }
        requires found { Some (sub_of sub.now) ≡ sub_in (T.context _resources.now) type_index }
        ensures begins { OnOk result
            (BeginsBody self.new (T.context _resources.now) type_index) }
        ensures features { self.new.stacks.features ≡ features }
        ensures many { HasMany result (function_in (T.context _resources.now) type_index) }
        ensures failed { self.new.failed ≡ not (is_ok result) }
    {
        self.failed = true;
        let params = match &sub.composite_type.inner {
            CompositeInnerType::Func(signature) => signature.params(),
            _ => return Err(refuse(OperatorRule::NotAFunction)),
        };
        self.stacks.clear(features, sub.composite_type.shared);
        if params.len() > MAX_LOCALS as usize {
            return Err(refuse(OperatorRule::TooManyLocals));
        }
        define_parameters(&mut self.stacks.locals, params)?;
        self.stacks
            .open(FrameKind::Block, BlockWord::func(type_index))?;
        self.failed = false;
        Ok(())
    }

    /// The start of the body of a function of this type, in memory that was used before.
    ///
    /// # Errors
    ///
    /// Refuses more than 50,000 parameters, and answers want of memory.
    pub fn new_func<T: WasmModuleResources>(
        type_index: u32,
        features: WasmFeatures,
        resources: &T,
        allocations: OperatorValidatorAllocations<A>,
    ) -> Result<OperatorValidator<A>, OperatorError>
        requires { IsSome (function_in (T.context resources.now) type_index) }
        ensures begins { IfOk result (λ v. BeginsBody v (T.context resources.now) type_index) }
        ensures features { IfOk result (λ v. v.stacks.features ≡ features) }
        ensures many { HasMany result (function_in (T.context resources.now) type_index) }
    {
        let mut validator = allocations.validator;
        match validator.begin_func(type_index, features, resources) {
            Ok(()) => Ok(validator),
            Err(error) => Err(error),
        }
    }

    /// The start of a constant expression of this type, whose types are identities, in memory that
    /// was used before.
    ///
    /// # Errors
    ///
    /// Answers want of memory.
    #[tactic(auto, using(crate::proofs::BodyStarts::begins))]
    pub fn new_const_expr(
        features: WasmFeatures,
        ty: ValType,
        allocations: OperatorValidatorAllocations<A>,
    ) -> Result<OperatorValidator<A>, AllocError>
        ensures begins { IfOk result (λ v. BeginsConstant v (val_of ty)) }
        ensures features { IfOk result (λ v. v.stacks.features ≡ features) }
    {
        let mut stacks = allocations.validator.stacks;
        stacks.clear(features, false);
        stacks.open(FrameKind::Block, BlockWord::value(TypeWord::new(ty)))?;
        Ok(OperatorValidator {
            stacks,
            failed: false,
        })
    }

    /// Declares so many locals of one type, which is written with type indices of the module. At
    /// most 50,000 locals are allowed, parameters included.
    ///
    /// # Errors
    ///
    /// Refuses a type that the features don't allow or that the module doesn't have, and too many
    /// locals; answers want of memory; and refuses all once something was refused.
    #[tactic(auto, using(crate::proofs::LocalDeclarations::declares))]
    pub fn define_locals<T: WasmModuleResources>(
        &mut self,
        resources: &T,
        count: u32,
        ty: ValType,
    ) -> Result<(), OperatorError>
        requires { IsWrittenVal (val_of ty) }
        ensures defined { Defines result (val_in (T.context resources.now)
            (features_of self.old.stacks.features) (val_of ty)) count self.old self.new }
        ensures ended { self.old.failed ≡ true → IsFailure result }
        ensures state { typed_state self.new ≡ typed_state self.old }
        ensures features { self.new.stacks.features ≡ self.old.stacks.features }
        ensures shared { self.new.stacks.is_shared ≡ self.old.stacks.is_shared }
        ensures failed { self.new.failed ≡ (self.old.failed || not (is_ok result)) }
    {
        if self.failed {
            return Err(failure());
        }
        self.failed = true;
        let local = match find_local(resources, self.stacks.features, ty) {
            Some(local) => local,
            None => {
                // Lent as a copy, so that the type itself can be kept in registers.
                let refused = ty;
                return Err(refuse_type(resources, self.stacks.features, refused));
            }
        };
        if !self.stacks.locals.has_room(count) {
            return Err(refuse(OperatorRule::TooManyLocals));
        }
        self.stacks.locals.define(count, local)?;
        self.failed = false;
        Ok(())
    }

    /// Takes one step by an operator, where its types name type indices of the module. Where that
    /// can't be, all stays.
    ///
    /// # Errors
    ///
    /// Refuses an operator that isn't valid here, and any once something was refused by another
    /// call; answers want of memory.
    pub fn try_op<'a, T: WasmModuleResources>(
        &mut self,
        resources: &T,
        op: &Operator<'a>,
    ) -> Result<(), OperatorError>
        requires { IsWrittenInstruction (operator_of op.now) }
        ensures took { self.old.failed ≡ false → Steps result (T.context resources.now)
            (operator_of op.now) self.old.stacks self.new.stacks }
        ensures ended { self.old.failed ≡ true → IsFailure result
            × (typed_state self.new ≡ typed_state self.old) }
        ensures same { Kept self.old.stacks self.new.stacks }
        ensures failed { self.new.failed ≡ self.old.failed }
    {
        if self.failed {
            return Err(failure());
        }
        step(&mut self.stacks, resources, op)
    }

    /// Takes one step by an operator, where its types name type indices of the module. Once one is
    /// refused the validator has failed.
    ///
    /// # Errors
    ///
    /// Refuses an operator that isn't valid here, and any once something was refused; answers want
    /// of memory.
    pub fn op<'a, T: WasmModuleResources>(
        &mut self,
        resources: &T,
        op: &Operator<'a>,
    ) -> Result<(), OperatorError>
        requires { IsWrittenInstruction (operator_of op.now) }
        ensures took { self.old.failed ≡ false → Steps result (T.context resources.now)
            (operator_of op.now) self.old.stacks self.new.stacks }
        ensures ended { self.old.failed ≡ true → IsFailure result
            × (typed_state self.new ≡ typed_state self.old) }
        ensures same { Kept self.old.stacks self.new.stacks }
        ensures failed { self.new.failed ≡ (self.old.failed || not (is_ok result)) }
    {
        if self.failed {
            return Err(failure());
        }
        match step(&mut self.stacks, resources, op) {
            Ok(()) => Ok(()),
            Err(error) => {
                self.failed = true;
                Err(error)
            }
        }
    }

    /// As [`OperatorValidator::op`] of the operator at this offset, a byte counted from the start
    /// of the input.
    ///
    /// # Errors
    ///
    /// Refuses at the offset what `op` refuses, by the rule that is broken, and with the proposal
    /// that would lift the refusal, where one would; answers want of memory.
    #[tactic(auto, using(crate::proofs::OffsetSteps::visits, crate::proofs::ReadingFailures::ends))]
    pub fn op_at<'a, T: WasmModuleResources>(
        &mut self,
        resources: &T,
        offset: u64,
        op: &Operator<'a>,
    ) -> Result<(), Error>
        requires { IsWrittenInstruction (operator_of op.now) }
        ensures took { self.old.failed ≡ false → StepsAt result offset (T.context resources.now)
            (operator_of op.now) self.old.stacks self.new.stacks }
        ensures told { IfErr result (IsToldAt offset) }
        ensures ended { self.old.failed ≡ true → (result ≡ failure_at offset)
            × (typed_state self.new ≡ typed_state self.old) }
        ensures same { Kept self.old.stacks self.new.stacks }
        ensures failed { self.new.failed ≡ (self.old.failed || not (is_ok result)) }
    {
        match self.op(resources, op) {
            Ok(()) => Ok(()),
            Err(error) => Err(error.at(offset)),
        }
    }

    /// Whether every frame has ended.
    pub fn is_finished(&self) -> bool
        ensures { result ≡ is_finished (typed_state self.now) }
    {
        !self.stacks.is_open
    }

    /// Whether something was refused.
    pub fn has_failed(&self) -> bool
        ensures { result ≡ self.now.failed }
    {
        self.failed
    }

    /// Refuses all from now on, as where what comes next can't be read.
    pub fn fail(&mut self)
        ensures failed { self.new.failed ≡ true }
        ensures same { self.new.stacks ≡ self.old.stacks }
    {
        self.failed = true;
    }

    /// The memory, for the next body.
    pub fn into_allocations(self) -> OperatorValidatorAllocations<A> {
        OperatorValidatorAllocations { validator: self }
    }
}
