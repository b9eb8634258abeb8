//! The validator of one function body.

ghost use Rattle.std.specs.Prelude.{◌≡◌, ◌≤◌, ◌<◌, ◌^◌, ◌-◌, ◌||◌, true, false, not, is_ok, is_some, Some, length, slice_get, IfOk, IfErr, OnOk};
ghost use Rattle.std.specs.Option.{option_map};
ghost use Rattle.wasm_readers_bytes.specs.Reader.{SameInput, position_in, place_of_next, rest};
ghost use Rattle.wasm_spec_rules.specs.FeatureFlags.{features_of};
ghost use Rattle.wasm_parser.specs.PayloadViews.{body_of, body_reader};
ghost use Rattle.wasm_readers_types.specs.SeenTypes.{sub_of};
ghost use Rattle.wasm_readers_types.specs.WasmReadersValues.SeenValues.{val_of};
ghost use Rattle.wasm_operators.specs.SeenOperators.{operator_of};
ghost use Rattle.wasm_validator_resources.specs.Answers.{sub_in, IsWrittenVal};
ghost use Rattle.wasm_typing_validator.specs.WasmTypingStacks.BodyStacks.{Kept};
ghost use Rattle.wasm_typing_validator.specs.WasmTypingControl.Blocks.{function_in};
ghost use Rattle.wasm_typing_validator.specs.StackSteps.{IsWrittenInstruction};
ghost use Rattle.wasm_typing_validator.specs.OperatorVisits.{StepsAt};
ghost use Rattle.wasm_typing_validator.specs.BodyTyping.{typed_state, locals_in, BeginsBody};
ghost use Rattle.wasm_typing_validator.specs.QueryResults.{known_type, shown_frame};
ghost use Rattle.wasm_typing_validator.specs.TypedInstructions.{StandsIn};
ghost use Rattle.wasm_typing_validator.specs.ValidatorFailures.{failure_at};
ghost use Rattle.wasm_validator_func.specs.Functions.{IsFunctionBody, Decides, HasMore, StandsFirst, StandsInOrFirst};
ghost use Rattle.wasm_validator_func.specs.BodyValidation.{declaration_of, declared_in, listed_in, body_in, Goes, DeclaredAt, KeepsLocals, Declares, Validates};

use crate::bodies::{check_body, refused};
use crate::locals::{define, read_declarations};
use std::alloc::{Allocator, Global};
use wasm_operators::Operator;
use wasm_parser::FunctionBody;
use wasm_readers::BinaryReader;
use wasm_readers_errors::{Error, Fault, OperatorRule, Refusal, WasmFeatures};
use wasm_readers_types::{CompositeInnerType, SubType, ValType};
use wasm_typing_validator::{Frame, MAX_LOCALS, OperatorValidator, OperatorValidatorAllocations};
use wasm_validator_resources::WasmModuleResources;

/// A function whose body is to be validated: what is looked up of its module, its index, its type's
/// index, and the features.
#[derive(Drop)]
pub struct FuncToValidate<T> {
    /// What is looked up of the module.
    pub resources: T,
    /// The function's index.
    pub index: u32,
    /// The index of the function's type.
    pub ty: u32,
    /// The features.
    pub features: WasmFeatures,
}

/// The memory of a validator of bodies, to be handed on from one body to the next.
#[derive(Drop)]
pub struct FuncValidatorAllocations<A: Allocator = Global>(
    pub(crate) OperatorValidatorAllocations<A>,
);

/// The validation of one function body. Once any call but `try_op` was refused, it refuses all.
pub struct FuncValidator<T, A: Allocator = Global> {
    pub(crate) validator: OperatorValidator<A>,
    pub(crate) resources: T,
    pub(crate) index: u32,
}

// By hand: so each way out takes one call for it, and not a step for each field.
impl<T: Drop, A: Allocator> Drop for FuncValidator<T, A> {
    fn drop(self) {
        let FuncValidator {
            validator: _,
            resources: _,
            index: _,
        } = self;
    }
}

impl<A: Allocator + Copy> FuncValidatorAllocations<A> {
    /// No memory yet.
    pub fn new(alloc: A) -> FuncValidatorAllocations<A> {
        FuncValidatorAllocations(OperatorValidatorAllocations::new(alloc))
    }
}

/// No memory yet, where the allocator has a default.
impl<A: Allocator + Copy + Default> Default for FuncValidatorAllocations<A> {
    fn default() -> FuncValidatorAllocations<A> {
        FuncValidatorAllocations::new(A::default())
    }
}

/// The function type of this index.
///
/// # Errors
///
/// Refuses any other index, at 0.
#[inline(always)]
fn find_function_type<'a, T: WasmModuleResources>(
    resources: &'a T,
    ty: u32,
) -> Result<&'a SubType<T::A>, Error>
    ensures known { is_ok result ≡ is_some (function_in (T.context resources.now) ty) }
    ensures found { IfOk result (λ s. Some (sub_of s.now)
        ≡ sub_in (T.context resources.now) ty) }
    ensures first { IfErr result StandsFirst }
{
    match resources.sub_type_at(ty) {
        Some(sub) => match &sub.composite_type.inner {
            CompositeInnerType::Func(_) => Ok(sub),
            _ => Err(Error::Refused(Refusal::new(Fault::NotAFunctionType(ty), 0))),
        },
        None => Err(Error::Refused(Refusal::new(Fault::UnknownType(ty), 0))),
    }
}

/// Begins the body of a function of this type in place of what was validated before.
///
/// # Errors
///
/// Refuses, at 0, a type's index that names no function type, and more than 50,000 parameters;
/// answers want of memory.
#[tactic(auto, using(crate::proofs::Functions::starts))]
pub(crate) fn begin<A: Allocator, T: WasmModuleResources>(
    validator: &mut OperatorValidator<A>,
    resources: &T,
    ty: u32,
    features: WasmFeatures,
) -> Result<(), Error>
    ensures begins { OnOk result (BeginsBody validator.new (T.context resources.now) ty) }
    ensures few { OnOk result (length (locals_in validator.new) ≤ 50000) }
    ensures features { OnOk result (validator.new.stacks.features ≡ features) }
    ensures kept { validator.old.stacks.features ≡ features
        → validator.new.stacks.features ≡ features }
    ensures many { HasMore result (function_in (T.context resources.now) ty) }
    ensures first { IfErr result StandsFirst }
{
    let sub = match find_function_type(resources, ty) {
        Ok(sub) => sub,
        Err(error) => return Err(error),
    };
    let begun = validator.begin_func_of_type(ty, features, resources, sub);
    match begun {
        Ok(()) => {}
        Err(error) => return Err(error.at(0)),
    }
    if validator.len_locals() > MAX_LOCALS {
        return Err(refused(OperatorRule::TooManyLocals, 0));
    }
    Ok(())
}

impl<T: WasmModuleResources + Drop> FuncToValidate<T> {
    /// The validator of the function's body, at its start, in memory that was used before.
    ///
    /// # Errors
    ///
    /// Refuses, at 0, a type's index that names no function type, and more than 50,000 parameters;
    /// answers want of memory.
    pub fn into_validator<A: Allocator>(
        self,
        allocations: FuncValidatorAllocations<A>,
    ) -> Result<FuncValidator<T, A>, Error>
        ensures begins { IfOk result (λ v. BeginsBody v.validator (T.context self.resources)
            self.ty) }
        ensures few { IfOk result (λ v. length (locals_in v.validator) ≤ 50000) }
        ensures features { IfOk result (λ v. v.validator.stacks.features ≡ self.features) }
        ensures resources { IfOk result (λ v. v.resources ≡ self.resources) }
        ensures index { IfOk result (λ v. v.index ≡ self.index) }
        ensures many { HasMore result (function_in (T.context self.resources) self.ty) }
        ensures first { IfErr result StandsFirst }
    {
        let FuncToValidate {
            resources,
            index,
            ty,
            features,
        } = self;
        let mut validator = allocations.0.validator;
        match begin(&mut validator, &resources, ty, features) {
            Ok(()) => Ok(FuncValidator {
                validator,
                resources,
                index,
            }),
            Err(error) => Err(error),
        }
    }

    /// Validates the function's body, in memory that was used before, and gives the memory back.
    ///
    /// # Errors
    ///
    /// Refused exactly where it isn't the body of a function of this type (Core Specification 3.0,
    /// Validation, Modules, Functions), and where memory is. Where the type's index names no
    /// function type, nothing is.
    pub fn validate<A: Allocator>(
        self,
        body: &FunctionBody<'_>,
        allocations: FuncValidatorAllocations<A>,
    ) -> Result<FuncValidatorAllocations<A>, Error>
        ensures decides { Decides (IsFunctionBody (features_of self.features)
            (T.context self.resources) self.ty (body_of body.now)) result }
        ensures place { IfErr result (StandsInOrFirst (body_reader body.now)) }
    {
        let mut allocations = allocations;
        match validate_body(
            &self.resources,
            self.ty,
            self.features,
            body,
            &mut allocations,
        ) {
            Ok(()) => Ok(allocations),
            Err(error) => Err(error),
        }
    }
}

/// Validates the body of a function of this type by these look-ups, as [`FuncToValidate::validate`]
/// does, in memory that is lent for it.
///
/// # Errors
///
/// As [`FuncToValidate::validate`]. The memory is there for the next body all the same.
#[tactic(auto, using(crate::proofs::Functions::functions))]
pub fn validate_body<T: WasmModuleResources, A: Allocator>(
    resources: &T,
    ty: u32,
    features: WasmFeatures,
    body: &FunctionBody<'_>,
    allocations: &mut FuncValidatorAllocations<A>,
) -> Result<(), Error>
    ensures decides { Decides (IsFunctionBody (features_of features) (T.context resources.now) ty
        (body_of body.now)) result }
    ensures place { IfErr result (StandsInOrFirst (body_reader body.now)) }
{
    let validator = &mut allocations.0.validator;
    match begin(validator, resources, ty, features) {
        Ok(()) => {}
        Err(error) => return Err(error),
    }
    match check_body(validator, resources, body) {
        Ok(()) => Ok(()),
        Err(error) => Err(error),
    }
}

impl<T: WasmModuleResources, A: Allocator> FuncValidator<T, A> {
    /// Validates a whole body: its declarations of locals, and its instructions up to the `end`
    /// that closes it, with nothing behind it.
    ///
    /// # Errors
    ///
    /// Refused at the first declaration or instruction that can't be read or isn't valid, and at
    /// the first byte behind the closing `end`; all once something was refused; and where memory
    /// is.
    pub fn validate(&mut self, body: &FunctionBody<'_>) -> Result<(), Error>
        ensures took { self.old.validator.failed ≡ false → Validates result
            (body_in self.old.validator (T.context self.old.resources) (body_of body.now))
            (locals_in self.new.validator) (typed_state self.new.validator) }
        ensures ended { self.old.validator.failed ≡ true
            → (result ≡ failure_at (place_of_next (body_reader body.now)))
            × (self.new.validator ≡ self.old.validator) }
        ensures failed { self.new.validator.failed
            ≡ (self.old.validator.failed || not (is_ok result)) }
        ensures goes { Goes self.old.validator self.new.validator }
        ensures same { (self.new.resources ≡ self.old.resources)
            × (self.new.index ≡ self.old.index) }
        ensures place { IfErr result (StandsIn (body_reader body.now)) }
    {
        if self.validator.has_failed() {
            let offset = body.get_binary_reader().original_position();
            return Err(refused(OperatorRule::Failed, offset));
        }
        check_body(&mut self.validator, &self.resources, body)
    }

    /// Reads the list of declarations that a body begins with, and declares its locals.
    ///
    /// # Errors
    ///
    /// Refused where the bytes begin with no list of declarations, and at a declaration whose type
    /// the features don't allow or the module doesn't have, or with which there are more than 50,000
    /// locals; all once something was refused; and where memory is.
    pub fn read_locals<'a>(&mut self, reader: &mut BinaryReader<'a>) -> Result<(), Error>
        ensures declared { self.old.validator.failed ≡ false → Declares result
            (listed_in self.old.validator (T.context self.old.resources) (rest reader.old))
            (locals_in self.new.validator) (rest reader.new) }
        ensures ended { self.old.validator.failed ≡ true
            → (result ≡ failure_at (place_of_next reader.old))
            × (self.new.validator ≡ self.old.validator) × (reader.new ≡ reader.old) }
        ensures failed { self.new.validator.failed
            ≡ (self.old.validator.failed || not (is_ok result)) }
        ensures state { typed_state self.new.validator ≡ typed_state self.old.validator }
        ensures goes { Goes self.old.validator self.new.validator }
        ensures same { (self.new.resources ≡ self.old.resources)
            × (self.new.index ≡ self.old.index) }
        ensures input { SameInput reader.old reader.new }
        ensures onward { position_in reader.old ≤ position_in reader.new }
        ensures place { IfErr result (StandsIn reader.old) }
    {
        if self.validator.has_failed() {
            return Err(refused(OperatorRule::Failed, reader.original_position()));
        }
        read_declarations(&mut self.validator, &self.resources, reader)
    }

    /// Declares so many locals of one type, which is written with type indices of the module, at
    /// this offset.
    ///
    /// # Errors
    ///
    /// Refused, at the offset, where the features don't allow the type, where the module doesn't
    /// have it, and where there are more than 50,000 locals with it; all once something was refused;
    /// and where memory is.
    pub fn define_locals(&mut self, offset: u64, count: u32, ty: ValType) -> Result<(), Error>
        requires { IsWrittenVal (val_of ty) }
        ensures declared { self.old.validator.failed ≡ false → DeclaredAt offset result
            (declared_in self.old.validator (T.context self.old.resources)
            (declaration_of count ty)) (locals_in self.new.validator) }
        ensures kept { KeepsLocals result (locals_in self.old.validator)
            (locals_in self.new.validator) }
        ensures ended { self.old.validator.failed ≡ true → result ≡ failure_at offset }
        ensures state { typed_state self.new.validator ≡ typed_state self.old.validator }
        ensures goes { Goes self.old.validator self.new.validator }
        ensures same { (self.new.resources ≡ self.old.resources)
            × (self.new.index ≡ self.old.index) }
        ensures failed { self.new.validator.failed
            ≡ (self.old.validator.failed || not (is_ok result)) }
    {
        define(&mut self.validator, &self.resources, offset, count, ty)
    }

    /// Takes one step by the operator at this offset, where its types name type indices of the
    /// module.
    ///
    /// # Errors
    ///
    /// Refuses at the offset an operator that isn't valid here, and any once something was refused;
    /// answers want of memory.
    pub fn op<'a>(&mut self, offset: u64, op: &Operator<'a>) -> Result<(), Error>
        requires { IsWrittenInstruction (operator_of op.now) }
        ensures took { self.old.validator.failed ≡ false → StepsAt result offset
            (T.context self.old.resources) (operator_of op.now)
            self.old.validator.stacks self.new.validator.stacks }
        ensures ended { self.old.validator.failed ≡ true → (result ≡ failure_at offset)
            × (typed_state self.new.validator ≡ typed_state self.old.validator) }
        ensures kept { Kept self.old.validator.stacks self.new.validator.stacks }
        ensures same { (self.new.resources ≡ self.old.resources)
            × (self.new.index ≡ self.old.index) }
        ensures failed { self.new.validator.failed
            ≡ (self.old.validator.failed || not (is_ok result)) }
    {
        self.validator.op_at(&self.resources, offset, op)
    }

    /// As [`FuncValidator::op`], but where the operator is refused all stays.
    ///
    /// # Errors
    ///
    /// As [`FuncValidator::op`].
    #[tactic(auto, using(crate::proofs::OperatorSteps::tries))]
    pub fn try_op<'a>(&mut self, offset: u64, op: &Operator<'a>) -> Result<(), Error>
        requires { IsWrittenInstruction (operator_of op.now) }
        ensures took { self.old.validator.failed ≡ false → StepsAt result offset
            (T.context self.old.resources) (operator_of op.now)
            self.old.validator.stacks self.new.validator.stacks }
        ensures ended { self.old.validator.failed ≡ true → (result ≡ failure_at offset)
            × (typed_state self.new.validator ≡ typed_state self.old.validator) }
        ensures kept { Kept self.old.validator.stacks self.new.validator.stacks }
        ensures same { (self.new.resources ≡ self.old.resources)
            × (self.new.index ≡ self.old.index) }
        ensures failed { self.new.validator.failed ≡ self.old.validator.failed }
    {
        match self.validator.try_op(&self.resources, op) {
            Ok(()) => Ok(()),
            Err(error) => Err(error.at(offset)),
        }
    }

    /// The features.
    pub fn features(&self) -> &WasmFeatures
        ensures { result.now ≡ self.now.validator.stacks.features }
    {
        self.validator.features()
    }

    /// What is looked up of the module.
    pub fn resources(&self) -> &T
        ensures { result.now ≡ self.now.resources }
    {
        &self.resources
    }

    /// The function's index.
    pub fn index(&self) -> u32
        ensures { result ≡ self.now.index }
    {
        self.index
    }

    /// How many locals there are, parameters included.
    pub fn len_locals(&self) -> u32
        ensures { result ≡ length (locals_in self.now.validator) }
    {
        self.validator.len_locals()
    }

    /// The type of a local, if there is one of this index.
    pub fn get_local_type(&self, index: u32) -> Option<ValType>
        ensures { option_map val_of result ≡ option_map (λ l. l.content)
            (slice_get (locals_in self.now.validator) index) }
    {
        self.validator.get_local_type(index)
    }

    /// How many operands there are, as far as 32 bits count.
    pub fn operand_stack_height(&self) -> u32
        ensures few { length (typed_state self.now.validator).operands < 2 ^ 32
            → result ≡ length (typed_state self.now.validator).operands }
        ensures many { 2 ^ 32 ≤ length (typed_state self.now.validator).operands
            → result ≡ 2 ^ 32 - 1 }
    {
        self.validator.operand_stack_height()
    }

    /// The type of the operand at this depth, the top at 0: nothing where there is no such
    /// operand, and no type where the operand's type isn't known, in code that isn't reached.
    pub fn get_operand_type(&self, depth: usize) -> Option<Option<ValType>>
        ensures { option_map (option_map val_of) result
            ≡ option_map known_type (slice_get (typed_state self.now.validator).operands depth) }
    {
        self.validator.get_operand_type(depth)
    }

    /// How many frames are open, as far as 32 bits count.
    pub fn control_stack_height(&self) -> u32
        ensures few { length (typed_state self.now.validator).frames < 2 ^ 32
            → result ≡ length (typed_state self.now.validator).frames }
        ensures many { 2 ^ 32 ≤ length (typed_state self.now.validator).frames
            → result ≡ 2 ^ 32 - 1 }
    {
        self.validator.control_stack_height()
    }

    /// The frame at this depth, the innermost at 0, if there is one.
    pub fn get_control_frame(&self, depth: usize) -> Option<Frame>
        ensures { option_map shown_frame result
            ≡ slice_get (typed_state self.now.validator).frames depth }
    {
        self.validator.get_control_frame(depth)
    }

    /// Whether something was refused, other than by [`FuncValidator::try_op`].
    pub fn has_failed(&self) -> bool
        ensures { result ≡ self.now.validator.failed }
    {
        self.validator.has_failed()
    }
}

impl<T: Drop, A: Allocator> FuncValidator<T, A> {
    /// The memory, for the next body.
    pub fn into_allocations(self) -> FuncValidatorAllocations<A> {
        let FuncValidator {
            validator,
            resources: _,
            index: _,
        } = self;
        FuncValidatorAllocations(validator.into_allocations())
    }
}
