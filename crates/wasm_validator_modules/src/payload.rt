//! Payloads, handed in one by one or as a parser finds them in the bytes of a whole module.
//!
//! `Validator::payload` gives each payload to the method of its section (`validator.rt`), and hands
//! out a function for each body and the types at the end. `Validator::validate_all` does this for
//! all payloads of the bytes (`run`), up to the first that is refused, and collects the bodies
//! (`Bodies`): what they look up is the same for all, and kept once. Behind the end it validates
//! them in their order, in the same memory. So a module whose sections are refused is refused
//! before any body is looked at, and a validator whose module was refused for a body stands at the
//! end, where it may be reset.
//!
//! Offsets count bytes from the start of the input (Core Specification 3.0, Binary Format, Modules,
//! and Validation, Modules).

ghost use Rattle.wasm_readers_errors.specs.WasmReadersFeatures.declared.features.TheConstants.WasmFeatures.{STANDARD};
ghost use Rattle.std.specs.Prelude.{ℕ, true, false, ◌≡◌, ◌≤◌, ◌++◌, ◌∷◌, [], IfOk, IfErr, OnOk, OnErr, IfSome, IfNone, Some, None, length, map};
ghost use Rattle.std.specs.Option.{option_map};
ghost use Rattle.wasm_validator_states.specs.WasmParser.Machine.{next_of};
ghost use Rattle.wasm_validator_states.specs.WasmParser.Places.{starts_at, ends_at, reader_end, input_end, refused_with, ReadsInput};
ghost use Rattle.wasm_validator_states.specs.WasmParser.PayloadViews.{seen, state, body_of, body_reader};
ghost use Rattle.wasm_spec.specs.Framing.{CodeEntry};
ghost use Rattle.wasm_validator_states.specs.WasmValidatorSections.SectionFaults.{StandsBetween};
ghost use Rattle.wasm_validator_states.specs.WasmValidatorSections.WasmValidatorCore.Errors.{IsContent};
ghost use Rattle.wasm_validator_states.specs.WasmValidatorTypes.ShownModules.{shown_of, HoldsIds};
ghost use Rattle.wasm_validator_states.specs.ValidatorStages.{Leaves};
ghost use Rattle.wasm_validator_states.specs.WasmValidatorSections.WasmValidatorFunc.Functions.{Decides, StandsInOrFirst};
ghost use Rattle.wasm_validator_states.specs.States.{after_piece, handed, left_by, takes_memory, IsSection};
ghost use Rattle.wasm_validator_states.specs.Payloads.{HoldsTypes, IsBodyOfIts, DecidesBodies, Validates};
ghost use Rattle.wasm_validator_modules.specs.PayloadAnswers.{ShowsModule, HoldsIdsAtEnd, KeepsBodies, IsKept, IsGivenIn, kept_behind, latest_of, bodies_given, bodies_seen, pending_seen, EndsBy, EachEndsBy, AllEndBy, GivenEndBy, GoesWith, Gathers, GathersNothing, StandsAt, TellsFormat};
ghost use Rattle.wasm_validator_states.specs.BodyAnswers.{body_seen};
ghost use Rattle.wasm_validator_states.specs.Verdict.{DecidesModule, DecidesAlone, EndsModule, StopsModule};

use crate::validator::Validator;
use std::alloc::{AllocError, Allocator, Global};
use wasm_readers::WasmFeatures;
use wasm_validator_states::parser::{FunctionBody, ParseAll, Parser, Payload};
use wasm_validator_states::sections::validator_core::Error;
use wasm_validator_states::sections::validator_core_resources::ValidatorResources;
use wasm_validator_states::sections::validator_func::{
    FuncToValidate, FuncValidatorAllocations, validate_body,
};
use wasm_validator_states::types::{Types, ValidatorId};

/// A function whose body is to be validated.
#[derive(Drop)]
pub struct PendingBody<'a> {
    index: u32,
    ty: u32,
    body: FunctionBody<'a>,
}

/// The functions of a module whose bodies are to be validated. What all of them share is kept once:
/// the features, and from the first on what bodies look up.
pub struct Bodies<'a, A: Allocator> {
    features: WasmFeatures,
    resources: Option<ValidatorResources<A>>,
    pending: Vec<PendingBody<'a>, A>,
}

// By hand, as that of `Gathered`: so each way out takes one call for it, and not a step for each field.
impl<A: Allocator> Drop for Bodies<'_, A> {
    fn drop(self) {
        let Bodies {
            features: _,
            resources: _,
            pending: _,
        } = self;
    }
}

/// What a payload that is accepted gives.
#[derive(Drop)]
pub enum ValidPayload<'a, A: Allocator = Global> {
    /// Nothing more is to be done for it.
    Ok,
    /// A function, whose body is to be validated.
    Func(FuncToValidate<ValidatorResources<A>>, FunctionBody<'a>),
    /// The module has ended, and these are its types.
    End(Types<A>),
}

impl<A: Allocator + Copy> Validator<A> {
    /// Checks one payload of a module, as the parser gives it (Core Specification 3.0, Validation,
    /// Modules). A function's body is handed out to be validated, by
    /// [`FuncToValidate::validate`]; and the end gives the types.
    ///
    /// # Errors
    ///
    /// Refused as by the method of its section, at an offset from the payload's first byte to the
    /// one behind it, and where memory is.
    pub fn payload<'a>(&mut self, payload: &Payload<'a, A>) -> Result<ValidPayload<'a, A>, Error<A>>
        ensures moves { Leaves result (after_piece self.old (seen payload.now))
            (left_by self.old (seen payload.now)) self.old self.new }
        ensures shown { IfOk result (ShowsModule self.old (seen payload.now)) }
        ensures given { IfOk result (λ v. handed self.old (seen payload.now)
            ≡ bodies_given v) }
        ensures within { IfOk result (GivenEndBy (ends_at payload.now)) }
        ensures held { IfOk result HoldsIdsAtEnd }
        ensures memory { takes_memory self.old.features (seen payload.now) ≡ false
            → IfErr result IsContent }
        ensures place { starts_at payload.now ≤ ends_at payload.now
            → IfErr result (StandsBetween (starts_at payload.now) (ends_at payload.now)) }
    {
        match payload {
            Payload::End(offset) => match self.end(*offset) {
                Ok(types) => Ok(ValidPayload::End(types)),
                Err(error) => Err(error),
            },
            Payload::CodeSectionEntry(body) => match self.code_section_entry(body) {
                Ok(function) => Ok(ValidPayload::Func(function, *body)),
                Err(error) => Err(error),
            },
            other => match self.section(other) {
                Ok(()) => Ok(ValidPayload::Ok),
                Err(error) => Err(error),
            },
        }
    }

    /// Checks a payload that is neither a body nor the end.
    fn section<'a>(&mut self, payload: &Payload<'a, A>) -> Result<(), Error<A>>
        requires { IsSection (seen payload.now) }
        ensures moves { Leaves result (after_piece self.old (seen payload.now))
            (left_by self.old (seen payload.now)) self.old self.new }
        ensures memory { takes_memory self.old.features (seen payload.now) ≡ false
            → IfErr result IsContent }
        ensures place { starts_at payload.now ≤ ends_at payload.now
            → IfErr result (StandsBetween (starts_at payload.now) (ends_at payload.now)) }
    {
        match payload {
            Payload::Version {
                num,
                encoding,
                range,
            } => self.version(*num, *encoding, range),
            Payload::TypeSection(section) => self.type_section(section),
            Payload::ImportSection(section) => self.import_section(section),
            Payload::FunctionSection(section) => self.function_section(section),
            Payload::TableSection(section) => self.table_section(section),
            Payload::MemorySection(section) => self.memory_section(section),
            Payload::TagSection(section) => self.tag_section(section),
            Payload::GlobalSection(section) => self.global_section(section),
            Payload::ExportSection(section) => self.export_section(section),
            Payload::StartSection { func, range } => self.start_section(*func, range),
            Payload::ElementSection(section) => self.element_section(section),
            Payload::DataCountSection { count, range } => self.data_count_section(*count, range),
            Payload::CodeSectionStart {
                count: _,
                range,
                size: _,
            } => self.code_section_start(range),
            Payload::CodeSectionEntry(_) => unreachable!(),
            Payload::DataSection(section) => self.data_section(section),
            Payload::CustomSection(_) => Ok(()),
            Payload::UnknownSection {
                id,
                contents: _,
                range,
            } => self.unknown_section(*id, range),
            Payload::End(_) => unreachable!(),
        }
    }

    /// Checks the module that these bytes are, and gives its types, which show its index spaces. It
    /// is accepted exactly where it is valid (Core Specification 3.0, Validation, Modules), as far
    /// as the list of types has room for new ones. Where the validator is neither fresh nor reset the
    /// header is refused. The types that it gives name only ids of their list.
    ///
    /// # Errors
    ///
    /// Refused where the parser refuses the bytes; as by [`Validator::payload`] where that refuses a
    /// payload; behind the end, where a function's body isn't valid, with the function's index, and
    /// then the validator may be reset; and where memory is. The offset is in the input or its end.
    #[tactic(auto, using(crate::proofs::Cited::answer_held))]
    pub fn validate_all(&mut self, bytes: &[u8]) -> Result<Types<A>, Error<A>>
        ensures decided { DecidesModule result bytes.now self.old self.new }
        ensures place { IfErr result (StandsBetween 0 (length bytes.now)) }
        ensures held { IfOk result (λ t. HoldsIds (shown_of t)) }
        ensures types { IfOk result HoldsTypes }
    {
        answer_all(self, bytes).answer
    }

    /// Goes over the payloads of these bytes, up to one that is refused, and collects the bodies.
    fn run<'a>(&mut self, bytes: &'a [u8]) -> Result<(Types<A>, Bodies<'a, A>), Error<A>>
        ensures validates { Validates (λ b. bodies_seen b) result bytes.now self.old self.new }
        ensures within { IfOk result (λ x. AllEndBy (length bytes.now) x.1) }
        ensures place { IfErr result (StandsBetween 0 (length bytes.now)) }
    {
        let alloc = self.allocator();
        let mut payloads = Parser::new(alloc, 0).parse_all(bytes);
        let mut gathered = Gathered::new(alloc, *self.features());
        'payloads: loop {
            match next_of_input(&mut payloads) {
                Ok(Some(payload)) => match self.gather(&payload, &mut gathered) {
                    Ok(()) => drop(payload),
                    Err(error) => {
                        drop(payload);
                        return Err(error);
                    }
                },
                Ok(None) => break,
                Err(refused) => return Err(refused),
            }
        }
        match gathered.finish() {
            Some(ended) => Ok(ended),
            None => unreachable!(),
        }
    }

    /// Checks one payload, and keeps what it gives. Bodies, of which there are many, have a way of
    /// their own, without the room that types take.
    fn gather<'a>(
        &mut self,
        payload: &Payload<'a, A>,
        gathered: &mut Gathered<'a, A>,
    ) -> Result<(), Error<A>>
        requires { GoesWith self.old (seen payload.now) gathered.old.bodies }
        ensures taken { OnOk result (Gathers (seen payload.now) (ends_at payload.now)
            self.old self.new gathered.old gathered.new) }
        ensures refused { IfErr result (GathersNothing (seen payload.now) self.old self.new) }
        ensures place { starts_at payload.now ≤ ends_at payload.now
            → IfErr result (StandsBetween (starts_at payload.now) (ends_at payload.now)) }
    {
        match payload {
            Payload::CodeSectionEntry(body) => self.gather_body(body, gathered),
            other => self.gather_other(other, gathered),
        }
    }

    /// Takes a body.
    #[inline(always)]
    fn gather_body<'a>(
        &mut self,
        body: &FunctionBody<'a>,
        gathered: &mut Gathered<'a, A>,
    ) -> Result<(), Error<A>>
        requires { GoesWith self.old (CodeEntry (body_of body.now)) gathered.old.bodies }
        ensures taken { OnOk result (Gathers (CodeEntry (body_of body.now))
            (reader_end (body_reader body.now)) self.old self.new gathered.old gathered.new) }
        ensures refused { IfErr result
            (GathersNothing (CodeEntry (body_of body.now)) self.old self.new) }
        ensures place { IfErr result (StandsAt (body_reader body.now)) }
    {
        match self.code_section_entry(body) {
            Ok(function) => match gathered.bodies.take(function, *body) {
                Ok(()) => Ok(()),
                Err(_) => Err(Error::OutOfMemory),
            },
            Err(error) => Err(error),
        }
    }

    /// The same of any payload.
    fn gather_other<'a>(
        &mut self,
        payload: &Payload<'a, A>,
        gathered: &mut Gathered<'a, A>,
    ) -> Result<(), Error<A>>
        requires { GoesWith self.old (seen payload.now) gathered.old.bodies }
        ensures taken { OnOk result (Gathers (seen payload.now) (ends_at payload.now)
            self.old self.new gathered.old gathered.new) }
        ensures refused { IfErr result (GathersNothing (seen payload.now) self.old self.new) }
        ensures place { starts_at payload.now ≤ ends_at payload.now
            → IfErr result (StandsBetween (starts_at payload.now) (ends_at payload.now)) }
    {
        match self.payload(payload) {
            Ok(valid) => match gathered.take(payload, valid) {
                Ok(()) => Ok(()),
                Err(_) => Err(Error::OutOfMemory),
            },
            Err(error) => Err(error),
        }
    }
}

/// What became of whole bytes.
#[derive(Drop)]
pub struct Answered<A: Allocator = Global> {
    /// The types of the module, or why it was refused.
    pub answer: Result<Types<A>, Error<A>>,
    /// Whether all payloads were accepted, so that the validator stands at the module's end: if it was
    /// refused, then for a body.
    pub has_ended: bool,
}

/// Checks the module that these bytes are as [`Validator::validate_all`] does, and says besides
/// whether it came to its end.
pub fn answer_all<A: Allocator + Copy>(validator: &mut Validator<A>, bytes: &[u8]) -> Answered<A>
    ensures decided { DecidesModule result.answer bytes.now validator.old validator.new }
    ensures ended { result.has_ended ≡ true → EndsModule bytes.now validator.old validator.new }
    ensures stopped { result.has_ended ≡ false
        → StopsModule result.answer bytes.now validator.old validator.new }
    ensures place { IfErr result.answer (StandsBetween 0 (length bytes.now)) }
    ensures held { IfOk result.answer (λ t. HoldsIds (shown_of t)) }
{
    // Asked for what they promise: the types that are held are valid, and told apart.
    let _has_failed = validator.has_failed();
    validator.types_stand_apart();
    let (types, bodies) = match validator.run(bytes) {
        Ok(ended) => ended,
        Err(error) => {
            return Answered {
                answer: Err(error),
                has_ended: false,
            };
        }
    };
    match bodies.validate(validator.allocator()) {
        Ok(()) => Answered {
            answer: Ok(types),
            has_ended: true,
        },
        Err(error) => Answered {
            answer: Err(error),
            has_ended: true,
        },
    }
}

impl<'a, A: Allocator> Bodies<'a, A> {
    /// Puts the body of this function behind the others, which are checked by the same look-ups.
    #[inline(always)]
    fn take(
        &mut self,
        function: FuncToValidate<ValidatorResources<A>>,
        body: FunctionBody<'a>,
    ) -> Result<(), AllocError>
        requires features { function.features ≡ self.old.features }
        requires kept { IsKept self.old.resources function.resources }
        ensures seen { OnOk result (bodies_seen self.new ≡ bodies_seen self.old
            ++ body_seen function body.entry ∷ []) }
        ensures features { OnOk result (self.new.features ≡ self.old.features) }
        ensures resources { OnOk result (self.new.resources ≡ Some function.resources) }
        ensures within { (end : ℕ) → AllEndBy end self.old → EndsBy end body.entry
            → OnOk result (AllEndBy end self.new) }
    {
        let FuncToValidate {
            resources,
            index,
            ty,
            features: _,
        } = function;
        self.push(resources, PendingBody { index, ty, body })
    }

    /// Puts a body behind the others.
    #[inline(always)]
    fn push(
        &mut self,
        resources: ValidatorResources<A>,
        waiting: PendingBody<'a>,
    ) -> Result<(), AllocError>
        requires { IsKept self.old.resources resources }
        ensures seen { OnOk result (bodies_seen self.new ≡ bodies_seen self.old
            ++ pending_seen self.old.features resources waiting.entry ∷ []) }
        ensures features { OnOk result (self.new.features ≡ self.old.features) }
        ensures resources { OnOk result (self.new.resources ≡ Some resources) }
        ensures within { (end : ℕ) → AllEndBy end self.old → EndsBy end waiting.entry.body
            → OnOk result (AllEndBy end self.new) }
    {
        if self.resources.is_none() {
            // Nothing is pending before the first.
            self.pending.clear();
            self.resources = Some(resources);
        }
        self.pending.push(waiting)?;
        Ok(())
    }
}

impl<'a, A: Allocator + Copy> Bodies<'a, A> {
    /// Validates the bodies of a module, if its code has some.
    fn validate(self, alloc: A) -> Result<(), Error<A>>
        ensures decided { DecidesBodies (bodies_seen self.entry) result }
        ensures place { (end : ℕ) → AllEndBy end self.entry → IfErr result (StandsBetween 0 end) }
    {
        let Bodies {
            features,
            resources,
            pending,
        } = self;
        match resources {
            Some(resources) => validate_each(alloc, features, &resources, pending),
            None => Ok(()),
        }
    }
}

/// What payloads gave so far.
pub struct Gathered<'a, A: Allocator> {
    ended: Option<Types<A>>,
    bodies: Bodies<'a, A>,
}

impl<A: Allocator> Drop for Gathered<'_, A> {
    fn drop(self) {
        let Gathered {
            ended: _,
            bodies: _,
        } = self;
    }
}

impl<'a, A: Allocator + Copy> Gathered<'a, A> {
    /// Nothing, of a module under these features.
    fn new(alloc: A, features: WasmFeatures) -> Gathered<'a, A>
        ensures ended { result.ended ≡ None }
        ensures bodies { result.bodies.pending.items ≡ [] }
        ensures resources { result.bodies.resources ≡ None }
        ensures features { result.bodies.features ≡ features }
    {
        Gathered {
            ended: None,
            bodies: Bodies {
                features,
                resources: None,
                pending: Vec::new(alloc),
            },
        }
    }

    /// Keeps what a payload gave: the types of the module that has ended last, and each body. Where a
    /// code section starts, memory is taken for all its bodies at once: the parser has found as many
    /// functions.
    fn take(
        &mut self,
        payload: &Payload<'a, A>,
        valid: ValidPayload<'a, A>,
    ) -> Result<(), AllocError>
        requires given { IsGivenIn self.old.bodies.features self.old.bodies.resources valid }
        ensures ended { OnOk result (self.new.ended ≡ latest_of self.old.ended valid.entry) }
        ensures bodies { OnOk result (bodies_seen self.new.bodies
            ≡ bodies_seen self.old.bodies ++ bodies_given valid.entry) }
        ensures features { OnOk result (self.new.bodies.features ≡ self.old.bodies.features) }
        ensures resources { OnOk result (self.new.bodies.resources
            ≡ kept_behind self.old.bodies.resources valid.entry) }
        ensures within { (end : ℕ) → AllEndBy end self.old.bodies → GivenEndBy end valid.entry
            → OnOk result (AllEndBy end self.new.bodies) }
        ensures memory { OnErr result (KeepsBodies (seen payload.now) valid.entry) }
    {
        match valid {
            ValidPayload::Ok => {
                if let Payload::CodeSectionStart { count, .. } = payload {
                    self.bodies.pending.reserve_exact(*count as usize)?;
                }
                Ok(())
            }
            ValidPayload::Func(function, body) => self.bodies.take(function, body),
            ValidPayload::End(types) => {
                self.ended = Some(types);
                Ok(())
            }
        }
    }

    /// The types of the module that has ended last, if one has, and all bodies.
    fn finish(self) -> Option<(Types<A>, Bodies<'a, A>)>
        ensures ended { IfSome result (λ x. self.entry.ended ≡ Some x.0) }
        ensures bodies { IfSome result (λ x. x.1 ≡ self.entry.bodies) }
        ensures none { IfNone result (self.entry.ended ≡ None) }
    {
        let Gathered { ended, bodies } = self;
        match ended {
            Some(types) => Some((types, bodies)),
            None => None,
        }
    }
}

/// Validates bodies one after another, in the same memory.
fn validate_each<'a, A: Allocator + Copy>(
    alloc: A,
    features: WasmFeatures,
    resources: &ValidatorResources<A>,
    pending: Vec<PendingBody<'a>, A>,
) -> Result<(), Error<A>>
    ensures decided { DecidesBodies
        (map (pending_seen features resources.now) pending.entry.items) result }
    ensures place { (end : ℕ) → EachEndsBy end pending.entry.items
        → IfErr result (StandsBetween 0 end) }
{
    let mut allocations = FuncValidatorAllocations::new(alloc);
    'bodies: for waiting in pending {
        let index = waiting.index;
        match validate_pending(features, resources, waiting, &mut allocations) {
            Ok(()) => {}
            Err(error) => return Err(Error::in_function(index, error)),
        }
    }
    Ok(())
}

/// Validates the body of one function under these features, by these look-ups.
fn validate_pending<'a, A: Allocator + Copy>(
    features: WasmFeatures,
    resources: &ValidatorResources<A>,
    waiting: PendingBody<'a>,
    allocations: &mut FuncValidatorAllocations<A>,
) -> Result<(), wasm_readers::Error>
    ensures decides { Decides
        (IsBodyOfIts (pending_seen features resources.now waiting.entry)) result }
    ensures place { IfErr result (StandsInOrFirst (body_reader waiting.entry.body)) }
{
    validate_body(resources, waiting.ty, features, &waiting.body, allocations)
}

/// The next payload of the input. What the parser refuses is handed on as it is.
fn next_of_input<'a, A: Allocator + Copy>(
    payloads: &mut ParseAll<'a, A>,
) -> Result<Option<Payload<'a, A>>, Error<A>>
    ensures ok { IfOk result (λ p. next_of (state payloads.old)
        ≡ Some (option_map (λ q. (seen q, state payloads.new)) p)) }
    ensures err { OnErr result (next_of (state payloads.old) ≡ None) }
    ensures handed { IfErr result (λ e. option_map Error.Refused
        (refused_with payloads.new) ≡ Some e) }
    ensures format { refused_with payloads.old ≡ None → IfErr result TellsFormat }
    ensures place { ReadsInput payloads.old → IfErr result
        (StandsBetween 0 (input_end payloads.old)) }
    ensures within { ReadsInput payloads.old → IfOk result
        (λ p. IfSome p (λ q. ends_at q ≤ input_end payloads.old)) }
    ensures order { IfOk result (λ p. IfSome p (λ q. starts_at q ≤ ends_at q)) }
    ensures reads { ReadsInput payloads.old → ReadsInput payloads.new }
    ensures whole { input_end payloads.new ≡ input_end payloads.old }
{
    match payloads.next_payload() {
        Ok(payload) => Ok(payload),
        Err(refusal) => Err(Error::Refused(refusal)),
    }
}

/// Checks with the default features the module that these bytes are, and gives its types, which
/// show its index spaces. It is accepted exactly where it is valid (Core Specification 3.0,
/// Validation, Modules). `id` is that of the validator that is made for it.
///
/// # Errors
///
/// Refused as by [`Validator::validate_all`].
pub fn validate<A: Allocator + Copy>(
    alloc: A,
    bytes: &[u8],
    id: ValidatorId,
) -> Result<Types<A>, Error<A>>
    ensures decided { DecidesAlone result bytes.now id STANDARD }
    ensures place { IfErr result (StandsBetween 0 (length bytes.now)) }
    ensures held { IfOk result (λ t. HoldsIds (shown_of t)) }
    ensures types { IfOk result HoldsTypes }
{
    Validator::new(alloc, id).validate_all(bytes)
}
