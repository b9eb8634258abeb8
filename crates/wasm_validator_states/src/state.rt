//! What a validator is doing: the module that it reads, if it reads one.
//!
//! A section is added to a module that is taken out of the state, which leaves `Failed` there
//! (`take_module`), and is put back only if all of the section was added (`put_back`). So what was
//! added in part is dropped with the module, and no code undoes it.

ghost use Rattle.std.specs.Prelude.{◌≡◌, ◌+◌, List, IfOk, IfErr, IfSome, IfNone, OnOk, OnErr, Some, None, true, false, is_ok, length, nat_le};
ghost use Rattle.wasm_parser.specs.PayloadViews.{body_of, body_reader};
ghost use Rattle.wasm_readers.specs.WasmReadersBytes.Reader.{original, position_in};
ghost use Rattle.wasm_readers_errors.specs.Refusals.{plain};
ghost use Rattle.wasm_readers_types.specs.declared.types.SubType.{SubType};
ghost use Rattle.wasm_spec_rules.specs.FeatureFlags.{features_of};
ghost use Rattle.wasm_validator_sections.specs.SectionFaults.{OfContent};
ghost use Rattle.wasm_validator_sections.specs.WasmValidatorCore.Answers.{TypesSoFar};
ghost use Rattle.wasm_validator_sections.specs.declared.code_state.TheConstants.{MAX_FUNCTION_SIZE};
ghost use Rattle.wasm_validator_states.specs.ModuleInvariants.{AreIdsIn, AreValidIn, AreFirstIn};
ghost use Rattle.wasm_validator_states.specs.BodyAnswers.{TakesBody};
ghost use Rattle.wasm_validator_states.specs.Views.{open_of, read_of, ended_spaces, stage_of, order_at, end_order_at, body_order_at, state_kept};
ghost use Rattle.wasm_validator_type_list.specs.GroupInterning.{AreOnce};
ghost use Rattle.wasm_validator_type_list.specs.ListViews.{Listing, committed};
ghost use Rattle.wasm_validator_types.specs.ShownModules.{shown_of};

use std::alloc::{AllocError, Allocator};
use std::mem;
use std::rc::Rc;
use wasm_parser::FunctionBody;
use wasm_readers::{Counted, Fault, OutOfOrder, Refusal, WasmFeatures};
use wasm_validator_sections::validator_core::{Error, Module};
use wasm_validator_sections::validator_core_resources::ValidatorResources;
use wasm_validator_sections::validator_func::FuncToValidate;
use wasm_validator_sections::{CodeState, MAX_FUNCTION_SIZE, ModuleState};
use wasm_validator_types::{IndexSpaces, TypeList, Types, ValidatorId};

/// What a validator is doing.
pub enum State<A: Allocator> {
    Unparsed,
    Module(ModuleState<A>),
    /// The code section has started.
    Code(CodeState<A>),
    End,
    Failed,
}

// By hand: so each way out, and each new state, takes one call for it, and not a step for each field.
impl<A: Allocator> Drop for State<A> {
    fn drop(self) {
        match self {
            State::Unparsed | State::End | State::Failed => {}
            State::Module(_module) => {}
            State::Code(_code) => {}
        }
    }
}

impl<A: Allocator> State<A> {
    /// The module that is being read, where its code has not started; else the state as it is.
    fn into_module(self) -> Result<ModuleState<A>, State<A>>
        ensures ok { IfOk result (λ m. self ≡ State.Module m) }
        ensures none { OnErr result (open_of self ≡ None) }
        ensures same { IfErr result (λ state. state ≡ self) }
    {
        match self {
            State::Module(module) => Ok(module),
            other => Err(other),
        }
    }

    /// The index spaces of the module that is being read, where one is; else the state as it is.
    fn into_spaces(self) -> Result<EndedSpaces<A>, State<A>>
        ensures ok { IfOk result (λ m. read_of self ≡ Some (ended_spaces m)) }
        ensures none { OnErr result (read_of self ≡ None) }
        ensures same { IfErr result (λ state. state ≡ self) }
    {
        match self {
            State::Module(state) => Ok(EndedSpaces::Owned(state.module)),
            State::Code(state) => Ok(EndedSpaces::Shared(state.spaces)),
            other => Err(other),
        }
    }
}

/// Why a section may not come now, where it may not.
pub fn out_of_order<A: Allocator>(state: &State<A>) -> OutOfOrder
    ensures { result ≡ order_at state.now }
{
    match state {
        State::Unparsed => OutOfOrder::SectionBeforeHeader,
        State::Code(_) => OutOfOrder::SectionAfterCodeStart,
        State::End => OutOfOrder::SectionAfterEnd,
        State::Module(_) | State::Failed => OutOfOrder::SectionAfterFailure,
    }
}

/// Why `end` may not come now, where it may not.
fn end_out_of_order<A: Allocator>(state: &State<A>) -> OutOfOrder
    ensures { result ≡ end_order_at state.now }
{
    match state {
        State::Unparsed => OutOfOrder::EndBeforeHeader,
        State::End => OutOfOrder::EndAfterEnd,
        State::Module(_) | State::Code(_) | State::Failed => OutOfOrder::SectionAfterFailure,
    }
}

/// Takes the module out, where one is being read whose code has not started, and leaves `Failed` in
/// its place.
pub fn take_module<A: Allocator>(
    state: &mut State<A>,
    offset: u64,
) -> Result<ModuleState<A>, Refusal>
    ensures ok { IfOk result (λ m. open_of state.old ≡ Some m.«module») }
    ensures was { IfOk result (λ m. state.old ≡ State.Module m) }
    ensures left { OnOk result (state.new ≡ State.Failed) }
    ensures none { OnErr result (open_of state.old ≡ None) }
    ensures place { IfErr result (λ r. r.offset ≡ offset) }
    ensures refusal { IfErr result (λ r. r ≡ record
        { fault = Fault.OutOfOrder (order_at state.old); offset = offset; missing = None }) }
    ensures unchanged { OnErr result (state.new ≡ state.old) }
{
    match mem::replace(state, State::Failed).into_module() {
        Ok(module) => Ok(module),
        Err(other) => {
            let order = out_of_order(&other);
            *state = other;
            Err(Refusal::new(Fault::OutOfOrder(order), offset))
        }
    }
}

/// The index spaces of a module that ends.
#[derive(Drop)]
pub enum EndedSpaces<A: Allocator> {
    Owned(Module<A>),
    Shared(Rc<IndexSpaces<A>, A>),
}

/// Takes the module out, where one is being read, and leaves `Failed` in its place.
pub fn close_module<A: Allocator>(state: &mut State<A>) -> Result<EndedSpaces<A>, OutOfOrder>
    ensures ok { IfOk result (λ m. read_of state.old ≡ Some (ended_spaces m)) }
    ensures left { OnOk result (state.new ≡ State.Failed) }
    ensures none { OnErr result (read_of state.old ≡ None) }
    ensures order { IfErr result (λ order. order ≡ end_order_at state.old) }
    ensures unchanged { OnErr result (state.new ≡ state.old) }
{
    match mem::replace(state, State::Failed).into_spaces() {
        Ok(spaces) => Ok(spaces),
        Err(other) => {
            let order = end_out_of_order(&other);
            *state = other;
            Err(order)
        }
    }
}

/// The index spaces of the module that is being read, where one is.
pub fn find_spaces<A: Allocator + Copy>(state: &State<A>) -> Option<&IndexSpaces<A>>
    ensures some { IfSome result (λ m. read_of state.now ≡ Some m.now) }
    ensures none { IfNone result (read_of state.now ≡ None) }
{
    match state {
        State::Module(state) => Some(state.module.spaces()),
        State::Code(state) => Some(state.spaces.as_ref()),
        _ => None,
    }
}

/// Why a body may not come now.
fn body_out_of_order<A: Allocator>(state: &State<A>) -> OutOfOrder
    ensures { result ≡ body_order_at state.now }
{
    match state {
        State::Unparsed => OutOfOrder::SectionBeforeHeader,
        State::Module(_) => OutOfOrder::CodeEntryBeforeCodeStart,
        State::Code(_) => OutOfOrder::CodeEntryWithoutFunction,
        State::End => OutOfOrder::SectionAfterEnd,
        State::Failed => OutOfOrder::SectionAfterFailure,
    }
}

/// Accepts a body that isn't too long.
fn check_size(body: &FunctionBody<'_>, offset: u64) -> Result<(), Refusal>
    ensures fits { is_ok result ≡ nat_le (length (body_of body.now)) MAX_FUNCTION_SIZE }
    ensures refusal { IfErr result (λ r. r
        ≡ plain (Fault.Limit Counted.FunctionBodySize MAX_FUNCTION_SIZE) offset) }
{
    if body.as_bytes().len() <= MAX_FUNCTION_SIZE as usize {
        Ok(())
    } else {
        let fault = Fault::Limit(Counted::FunctionBodySize, MAX_FUNCTION_SIZE);
        Err(Refusal::new(fault, offset))
    }
}

/// Hands out the function with this index and this index of its type, whose body these bytes are.
#[inline(always)]
fn hand_out<A: Allocator + Copy>(
    code: &CodeState<A>,
    index: u32,
    ty: u32,
    features: WasmFeatures,
    body: &FunctionBody<'_>,
) -> Result<FuncToValidate<ValidatorResources<A>>, Error<A>>
    ensures small { OnOk result (nat_le (length (body_of body.now)) MAX_FUNCTION_SIZE ≡ true) }
    ensures function { IfOk result (λ f. f ≡ record {
      resources = code.now.resources;
      index = index;
      ty = ty;
      features = features;
    }) }
    ensures refused { IfErr result (OfContent (λ e.
        (nat_le (length (body_of body.now)) MAX_FUNCTION_SIZE ≡ false) × (e ≡ Error.Refused
        (plain (Fault.Limit Counted.FunctionBodySize MAX_FUNCTION_SIZE)
        (original (body_reader body.now) + position_in (body_reader body.now)))))) }
{
    check_size(body, body.range().start)?;
    Ok(FuncToValidate {
        resources: code.resources.clone()?,
        index,
        ty,
        features,
    })
}

/// Takes one body more, where one is to come. Where it is too long, or memory is refused, the
/// validator has failed.
#[inline(always)]
pub fn take_body<A: Allocator + Copy>(
    state: &mut State<A>,
    features: WasmFeatures,
    body: &FunctionBody<'_>,
) -> Result<FuncToValidate<ValidatorResources<A>>, Error<A>>
    ensures takes { (types : TypesSoFar) → TakesBody result features body.now
        (stage_of types state.old) (stage_of types state.new) }
    ensures ids { (list : Listing A) → AreIdsIn list state.old → AreIdsIn list state.new }
    ensures valid { (list : Listing A) → AreValidIn features list state.old
        → AreValidIn features list state.new }
    ensures first { (list : Listing A) (types : List (SubType A)) → AreFirstIn list types state.old
        → AreFirstIn list types state.new }
{
    let offset = body.range().start;
    match state {
        State::Code(code) => match code.next_code_index_and_type(offset) {
            Ok((index, ty)) => match hand_out(code, index, ty, features, body) {
                Ok(function) => Ok(function),
                Err(error) => {
                    *state = State::Failed;
                    Err(error)
                }
            },
            Err(refusal) => Err(Error::Refused(refusal)),
        },
        _ => {
            let fault = Fault::OutOfOrder(body_out_of_order(state));
            Err(Error::Refused(Refusal::new(fault, offset)))
        }
    }
}

/// Puts the module back where a section was added to it. Where one was refused, the validator has
/// failed.
pub fn put_back<A: Allocator>(
    state: &mut State<A>,
    read: ModuleState<A>,
    added: Result<(), Error<A>>,
) -> Result<(), Error<A>>
    requires { state.old ≡ State.Failed }
    ensures same { result ≡ added }
    ensures kept { state.new ≡ state_kept added read }
{
    match added {
        Ok(()) => {
            *state = State::Module(read);
            Ok(())
        }
        Err(error) => Err(error),
    }
}

/// The index spaces of a module that has ended, to be shared.
fn share_spaces<A: Allocator + Copy>(
    alloc: A,
    ended: EndedSpaces<A>,
) -> Result<Rc<IndexSpaces<A>, A>, AllocError>
    ensures { IfOk result (λ spaces. spaces.value ≡ ended_spaces ended) }
{
    match ended {
        EndedSpaces::Owned(module) => Ok(Rc::new(alloc, module.into_spaces())?),
        EndedSpaces::Shared(spaces) => Ok(spaces),
    }
}

/// The types of a module that has ended.
pub fn finish_types<A: Allocator + Copy>(
    id: ValidatorId,
    features: WasmFeatures,
    alloc: A,
    types: &mut TypeList<A>,
    ended: EndedSpaces<A>,
) -> Result<Types<A>, AllocError>
    ensures same { types.new ≡ types.old }
    ensures shown { IfOk result (λ t. shown_of t ≡ record {
      id = id;
      features = features_of features;
      list = committed types.old;
      spaces = ended_spaces ended;
    }) }
    ensures once { types.old.is_canonical ≡ true → AreOnce types.old.groups }
{
    // Asked for what it promises: where equal types are one, no type has two ids.
    let _is_canonical = types.is_canonical();
    let spaces = share_spaces(alloc, ended)?;
    let list = types.commit()?;
    Ok(Types::new(id, features, list, spaces))
}
