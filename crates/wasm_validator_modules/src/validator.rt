//! A validator: where it stands, and one method for each payload but custom sections.
//!
//! # States
//!
//! A validator is in one of five states: before a header (`Unparsed`), in a module whose code has
//! not started (`Module`), behind the start of its code (`Code`), at its end (`End`), or failed.
//!
//! | Call | in | leads to | refused for its content or memory |
//! |---|---|---|---|
//! | `version` | `Unparsed` | `Module` | stays |
//! | a section, `start_section`, `data_count_section` | `Module` | `Module` | `Failed` |
//! | `code_section_start` | `Module` | `Code` | `Failed` |
//! | `code_section_entry` | `Code`, while bodies are to come | `Code` | `Failed` |
//! | `data_section` | `Module`, `Code` | stays | `Failed` |
//! | `end` | `Module`, `Code` | `End` | `Failed` |
//! | `reset` | `Unparsed`, `End` | `Unparsed` | never |
//!
//! In any other state a call is refused and changes nothing, but for two: `end` before a header
//! leads to `End`, and tags without their proposal fail a validator behind the start of the code
//! too. An unknown section is refused everywhere. `wasm_spec_rules` has this table as a definition
//! (`StateTable`), and `state_table` says that the machine keeps it.
//!
//! `wasm_validator_states` has the state itself (`state.rt`), and says how a section is added to the
//! module in it.
//!
//! # Units
//!
//! Offsets count bytes from the start of the input. A range has the offsets of the first byte and of
//! the one behind the last. Sections, bodies and the end have the meaning that the Core
//! Specification 3.0 gives them (Validation, Modules; Binary Format, Modules).

ghost use Rattle.wasm_readers_errors.specs.WasmReadersFeatures.declared.features.TheConstants.WasmFeatures.{STANDARD};
ghost use Rattle.std.specs.Prelude.{◌≡◌, ◌∷◌, ◌-◌, [], IfOk, IfErr, IfSome, IsSome, IsErr, Some, None, true, false, is_ok, ◌↔◌, ◌+◌};
ghost use Rattle.wasm_validator_states.specs.WasmValidatorSections.WasmValidatorCore.Errors.{IsContent, offset_of};
ghost use Rattle.wasm_readers.specs.WasmReadersBytes.Reader.{original, position_in};
ghost use Rattle.wasm_readers_errors.specs.Refusals.{plain};
ghost use Rattle.wasm_spec_rules.specs.FeatureFlags.{features_of};
ghost use Rattle.wasm_readers.specs.SectionsSeen.{count_of, bytes_of, section_start, section_end};
ghost use Rattle.wasm_validator_states.specs.WasmParser.PayloadViews.{body_of, body_reader};
ghost use Rattle.wasm_validator_states.specs.WasmValidatorTypeList.DefTypes.{types_of_list};
ghost use Rattle.wasm_validator_states.specs.WasmValidatorTypes.ShownModules.{shown_of, shown_by, HoldsIds};
ghost use Rattle.wasm_validator_states.specs.Payloads.{Show};
ghost use Rattle.wasm_validator_states.specs.BodyAnswers.{body_seen};
ghost use Rattle.wasm_validator_states.specs.ValidatorStages.{HoldsValid, Leaves, Moves, read_refused_at, body_refused_at, ended_at, fresh, is_failed, may_reset, after_reset, shown_at};
ghost use Rattle.wasm_validator_states.specs.Verdict.{StandsApart};
ghost use Rattle.wasm_validator_states.specs.BodyAnswers.{body_told};
ghost use Rattle.wasm_validator_states.specs.OrderRefusals.{TellsWithin, TellsReading, TellsOrder, TellsTagSection, TellsStart, TellsDataCount, header_told, end_order_told};
ghost use Rattle.wasm_validator_states.specs.WasmValidatorSections.SectionFaults.{OfContent, StandsBetween, TellsTypes, TellsImports, TellsExports, TellsFunctions, TellsTables, TellsMemories, TellsGlobals, TellsElements, TellsData};
ghost use Rattle.wasm_validator_states.specs.States.{after_version, after_section, section_refused_at, after_start, after_data_count, after_code_start, body_at, after_body, after_end};
ghost use Rattle.wasm_validator_modules.specs.Views.{is_module};

use bitflags::Flags;
use std::alloc::{Allocator, Global};
use std::marker::Model;
use std::ops::Range;
use wasm_readers::{
    Export, Fault, Import, MemoryType, OutOfOrder, RecGroup, Refusal, Rule, SectionLimited,
    TagType, WasmFeatures,
};
use wasm_validator_states::parser::items::{Data, Element, Global as GlobalItem, Table};
use wasm_validator_states::parser::{Encoding, FunctionBody};
use wasm_validator_states::sections::validator_core::{Error, check_data_count};
use wasm_validator_states::sections::validator_core_resources::ValidatorResources;
use wasm_validator_states::sections::validator_func::FuncToValidate;
use wasm_validator_states::sections::{
    Constants, ModuleState, add_elements, add_exports, add_functions, add_globals, add_imports,
    add_memories, add_tables, add_tags, add_types, check_data_segments, started, tells_types_apart,
};
use wasm_validator_states::state::{
    State, close_module, find_spaces, finish_types, out_of_order, put_back, take_body, take_module,
};
use wasm_validator_states::types::{
    TypeList, Types, TypesRef, ValidatorId, needs_type_canonicalization, types_are_apart,
};

/// Checks modules, section by section, and keeps the types of all that it has seen.
pub struct Validator<A: Allocator = Global> {
    id: ValidatorId,
    features: WasmFeatures,
    types: TypeList<A>,
    constants: Constants<A>,
    state: State<A>,
    alloc: A,
}

// By hand: so each way out takes one call for it, and not a step for each field.
impl<A: Allocator> Drop for Validator<A> {
    fn drop(self) {
        let Validator {
            id: _,
            features: _,
            types: _,
            constants: _,
            state: _,
            alloc: _,
        } = self;
    }
}

impl<A: Allocator> Model for Validator<A> {
    ghost use Rattle.wasm_validator_states.specs.ValidatorStages.{Standing};

    ghost Value = { Standing };

    ghost use Rattle.wasm_validator_modules.specs.Codes.{coded_standing};

    ghost coded = { coded_standing };

    ghost use Rattle.wasm_validator_modules.specs.Views.{standing_of};

    ghost view = { standing_of };

    ghost use Rattle.wasm_validator_modules.specs.ValidatorInvariants.{IsSound};

    ghost invariant = { IsSound };
}

/// What a check of a module says, as the answer of a section.
fn lift_refusal<A: Allocator>(answer: Result<(), Refusal>) -> Result<(), Error<A>>
    ensures same { is_ok result ≡ is_ok answer }
    ensures refusal { IfErr answer (λ r. IfErr result (λ e. e ≡ Error.Refused r)) }
{
    match answer {
        Ok(()) => Ok(()),
        Err(refusal) => Err(Error::Refused(refusal)),
    }
}

impl<A: Allocator + Copy> Validator<A> {
    /// A validator with the default features that has seen no module.
    pub fn new(alloc: A, id: ValidatorId) -> Validator<A>
        ensures { result ≡ fresh id STANDARD }
    {
        Validator::new_with_features(alloc, WasmFeatures::default(), id)
    }

    /// A validator with these features that has seen no module.
    pub fn new_with_features(alloc: A, features: WasmFeatures, id: ValidatorId) -> Validator<A>
        ensures { result ≡ fresh id features }
    {
        Validator {
            id,
            features,
            types: TypeList::new(alloc, needs_type_canonicalization(features)),
            constants: Constants::new(alloc),
            state: State::Unparsed,
            alloc,
        }
    }

    /// The features that modules may use.
    pub fn features(&self) -> &WasmFeatures
        ensures { result.now ≡ self.now.features }
    {
        &self.features
    }

    /// Where the validator takes memory from.
    pub fn allocator(&self) -> A {
        self.alloc
    }

    /// The number of this validator.
    pub fn id(&self) -> ValidatorId
        ensures { result ≡ self.now.id }
    {
        self.id
    }

    /// Whether a section or a body that was handed in was refused for its content while a module was
    /// being read, or memory was: then every further section but custom ones, and `end`, are
    /// refused. Elsewhere each type that the validator holds is valid.
    pub fn has_failed(&self) -> bool
        ensures failed { result ≡ is_failed self.now }
        ensures valid { HoldsValid self.now }
    {
        matches!(self.state, State::Failed)
    }

    /// The types that the validator holds are all different.
    pub(crate) fn types_stand_apart(&self)
        ensures { StandsApart self.now }
    {
        types_are_apart(&self.types);
    }

    /// Whether `reset` may be called: no module is being read, and none was refused by a section.
    pub fn can_reset(&self) -> bool
        ensures { result ≡ may_reset self.now }
    {
        matches!(self.state, State::Unparsed | State::End)
    }

    /// Makes ready for another module. Types, features and id stay. It may be called where
    /// `can_reset` says so.
    pub fn reset(&mut self)
        requires { may_reset self.old ≡ true }
        ensures { self.new ≡ after_reset self.old }
    {
        self.state = State::Unparsed;
    }

    /// The types of the module that is being read: at level 0, and while one is.
    pub fn types(&self, level: usize) -> Option<TypesRef<'_, A>>
        ensures some { IsSome result ↔ (level ≡ 0) × IsSome (shown_at self.now.stage) }
        ensures shown { IfSome result (λ t. shown_at self.now.stage
            ≡ Some (types_of_list (shown_by t).list, (shown_by t).spaces)) }
        ensures id { IfSome result (λ t. (shown_by t).id ≡ self.now.id) }
        ensures features { IfSome result (λ t. (shown_by t).features
            ≡ features_of self.now.features) }
        ensures held { IfSome result (λ t. HoldsIds (shown_by t)) }
    {
        if level != 0 {
            return None;
        }
        match find_spaces(&self.state) {
            Some(spaces) => {
                let list = &self.types;
                Some(TypesRef::new(self.id, self.features, list, spaces))
            }
            None => None,
        }
    }

    /// The header, with the version that it has, the encoding, and the offsets of its first byte
    /// and of the one behind it, in bytes from the start of the input (Core Specification 3.0,
    /// Binary Format, Modules).
    ///
    /// # Errors
    ///
    /// Refused, at its first byte, where a header came before, for a module of another version than
    /// 1, and for a component. The validator stays as it was. It takes no memory.
    pub fn version(
        &mut self,
        number: u16,
        encoding: Encoding,
        range: &Range<u64>,
    ) -> Result<(), Error<A>>
        ensures moves { Leaves result (after_version self.old number (is_module encoding))
            self.old.stage self.old self.new }
        ensures content { IfErr result IsContent }
        ensures place { IfErr result (λ e. offset_of e ≡ range.now.start) }
        ensures told { IfErr result (λ e. e ≡ Error.Refused
            (header_told self.old.features number (is_module encoding)
            range.now.start self.old.stage)) }
    {
        if !matches!(self.state, State::Unparsed) {
            return Err(Error::Refused(Refusal::new(
                Fault::OutOfOrder(OutOfOrder::Header),
                range.start,
            )));
        }
        match encoding {
            Encoding::Module => {
                if number != 1 {
                    return Err(Error::Refused(Refusal::new(
                        Fault::UnknownBinaryVersion(number),
                        range.start,
                    )));
                }
            }
            Encoding::Component => {
                if !self.features.contains(WasmFeatures::COMPONENT_MODEL) {
                    return Err(Error::Refused(Refusal::new(
                        Fault::ComponentHeader(number),
                        range.start,
                    )));
                }
                return Err(Error::Refused(Refusal::new(
                    Fault::Rule(Rule::ComponentModelLeftOut),
                    range.start,
                )));
            }
        }
        self.state = State::Module(ModuleState::new(self.alloc));
        Ok(())
    }

    /// The types of a module (Core Specification 3.0, Validation, Modules, Types).
    ///
    /// # Errors
    ///
    /// Refused, at the section's start, where no module is being read or its code has started,
    /// which changes nothing. In a module refused, at the section's start, where a module would
    /// have too many types; at the first recursion group that can't be read or added, or has a type
    /// that isn't valid; and where memory is. The validator has then failed.
    pub fn type_section(
        &mut self,
        section: &SectionLimited<'_, RecGroup<A>, A>,
    ) -> Result<(), Error<A>>
        ensures moves { Moves result (after_section self.old 1 (count_of section.now)
            (bytes_of section.now)) self.old self.new }
        ensures place { IfErr result (StandsBetween (section_start section.now)
            (section_end section.now)) }
        ensures told { IfErr result (OfContent (TellsWithin
            (TellsTypes self.old.features section.now)
            (section_start section.now) self.old.stage)) }
    {
        match take_module(&mut self.state, section.range().start) {
            Ok(mut state) => {
                // What is kept of the list stays the first of it, since it tells types apart.
                tells_types_apart(&self.types);
                let added = add_types(
                    self.features,
                    self.alloc,
                    &mut self.types,
                    &mut state.module,
                    section,
                );
                tells_types_apart(&self.types);
                put_back(&mut self.state, state, added)
            }
            Err(refusal) => Err(Error::Refused(refusal)),
        }
    }

    /// The imports of a module (Core Specification 3.0, Validation, Modules, Imports).
    ///
    /// # Errors
    ///
    /// Refused, at the section's start, where no module is being read or its code has started,
    /// which changes nothing. In a module refused, at the section's start, where a module would
    /// have too many imports, by its count of entries; at the first import that can't be read or
    /// breaks a rule; and where memory is. The validator has then failed.
    pub fn import_section<'a>(
        &mut self,
        section: &SectionLimited<'a, Import<'a>, A>,
    ) -> Result<(), Error<A>>
        ensures moves { Moves result (after_section self.old 2 (count_of section.now)
            (bytes_of section.now)) self.old self.new }
        ensures place { IfErr result (StandsBetween (section_start section.now)
            (section_end section.now)) }
        ensures told { IfErr result (OfContent (TellsWithin
            (TellsImports self.old.features section.now)
            (section_start section.now) self.old.stage)) }
    {
        match take_module(&mut self.state, section.range().start) {
            Ok(mut state) => {
                let added = add_imports(self.features, &self.types, &mut state.module, section);
                put_back(&mut self.state, state, added)
            }
            Err(refusal) => Err(Error::Refused(refusal)),
        }
    }

    /// The exports of a module (Core Specification 3.0, Validation, Modules, Exports).
    ///
    /// # Errors
    ///
    /// Refused, at the section's start, where no module is being read or its code has started,
    /// which changes nothing. In a module refused, at the section's start, where a module would
    /// have too many exports; at the first export that can't be read or breaks a rule, or whose
    /// name is taken; and where memory is. The validator has then failed.
    pub fn export_section<'a>(
        &mut self,
        section: &SectionLimited<'a, Export<'a>, A>,
    ) -> Result<(), Error<A>>
        ensures moves { Moves result (after_section self.old 7 (count_of section.now)
            (bytes_of section.now)) self.old self.new }
        ensures place { IfErr result (StandsBetween (section_start section.now)
            (section_end section.now)) }
        ensures told { IfErr result (OfContent (TellsWithin
            (TellsExports self.old.features section.now)
            (section_start section.now) self.old.stage)) }
    {
        match take_module(&mut self.state, section.range().start) {
            Ok(mut state) => {
                let added = add_exports(
                    self.features,
                    self.alloc,
                    &self.types,
                    &mut state,
                    section,
                );
                put_back(&mut self.state, state, added)
            }
            Err(refusal) => Err(Error::Refused(refusal)),
        }
    }

    /// The functions of a module, by their type indices (Core Specification 3.0, Validation,
    /// Modules, Functions).
    ///
    /// # Errors
    ///
    /// Refused, at the section's start, where no module is being read or its code has started,
    /// which changes nothing. In a module refused, at the section's start, where a module would
    /// have too many functions; at the first one that can't be read or is no function type's; and
    /// where memory is. The validator has then failed.
    pub fn function_section(&mut self, section: &SectionLimited<'_, u32, A>) -> Result<(), Error<A>>
        ensures moves { Moves result (after_section self.old 3 (count_of section.now)
            (bytes_of section.now)) self.old self.new }
        ensures place { IfErr result (StandsBetween (section_start section.now)
            (section_end section.now)) }
        ensures told { IfErr result (OfContent (TellsWithin (TellsFunctions section.now)
            (section_start section.now) self.old.stage)) }
    {
        match take_module(&mut self.state, section.range().start) {
            Ok(mut state) => {
                let added = add_functions(&self.types, &mut state.module, section);
                put_back(&mut self.state, state, added)
            }
            Err(refusal) => Err(Error::Refused(refusal)),
        }
    }

    /// The tables of a module, with what their entries begin with (Core Specification 3.0,
    /// Validation, Modules, Tables).
    ///
    /// # Errors
    ///
    /// Refused, at the section's start, where no module is being read or its code has started,
    /// which changes nothing. In a module refused, at the section's start, where a module would
    /// have too many tables; in the first table that can't be read or breaks a rule, or whose
    /// initializer is no constant expression of its type; and where memory is. The validator has
    /// then failed.
    pub fn table_section<'a>(
        &mut self,
        section: &SectionLimited<'a, Table<'a>, A>,
    ) -> Result<(), Error<A>>
        ensures moves { Moves result (after_section self.old 4 (count_of section.now)
            (bytes_of section.now)) self.old self.new }
        ensures place { IfErr result (StandsBetween (section_start section.now)
            (section_end section.now)) }
        ensures told { IfErr result (OfContent (TellsWithin
            (λ us. TellsTables section.now self.old.features)
            (section_start section.now) self.old.stage)) }
    {
        match take_module(&mut self.state, section.range().start) {
            Ok(mut state) => {
                let added = add_tables(
                    self.features,
                    &self.types,
                    &mut self.constants,
                    &mut state,
                    section,
                );
                put_back(&mut self.state, state, added)
            }
            Err(refusal) => Err(Error::Refused(refusal)),
        }
    }

    /// The memories of a module (Core Specification 3.0, Validation, Modules, Memories).
    ///
    /// # Errors
    ///
    /// Refused, at the section's start, where no module is being read or its code has started,
    /// which changes nothing. In a module refused, at the section's start, where a module would
    /// have too many memories; at the first memory that can't be read or breaks a rule; and where
    /// memory is. The validator has then failed.
    pub fn memory_section(
        &mut self,
        section: &SectionLimited<'_, MemoryType, A>,
    ) -> Result<(), Error<A>>
        ensures moves { Moves result (after_section self.old 5 (count_of section.now)
            (bytes_of section.now)) self.old self.new }
        ensures place { IfErr result (StandsBetween (section_start section.now)
            (section_end section.now)) }
        ensures told { IfErr result (OfContent (TellsWithin
            (λ us. TellsMemories section.now self.old.features)
            (section_start section.now) self.old.stage)) }
    {
        match take_module(&mut self.state, section.range().start) {
            Ok(mut state) => {
                let added = add_memories(self.features, &mut state.module, section);
                put_back(&mut self.state, state, added)
            }
            Err(refusal) => Err(Error::Refused(refusal)),
        }
    }

    /// The tags of a module (Core Specification 3.0, Validation, Modules, Tags). Without the
    /// exceptions proposal it is refused for that, at the section's start, before anything else,
    /// which fails the validator wherever a module is being read.
    ///
    /// # Errors
    ///
    /// Refused, at the section's start, where no module is being read or its code has started,
    /// which changes nothing. In a module refused, at the section's start, where a module would
    /// have too many tags; at the first tag that can't be read or breaks a rule; and where memory
    /// is. The validator has then failed.
    pub fn tag_section(&mut self, section: &SectionLimited<'_, TagType, A>) -> Result<(), Error<A>>
        ensures moves { Leaves result (after_section self.old 13 (count_of section.now)
            (bytes_of section.now)) (section_refused_at self.old.features 13
            self.old.stage) self.old self.new }
        ensures place { IfErr result (StandsBetween (section_start section.now)
            (section_end section.now)) }
        ensures told { IfErr result (OfContent (TellsTagSection self.old.features
            section.now self.old.stage)) }
        ensures content { (features_of self.old.features).exceptions ≡ false
            → IfErr result IsContent }
    {
        let offset = section.range().start;
        if !self.features.contains(WasmFeatures::EXCEPTIONS) {
            if matches!(self.state, State::Module(_) | State::Code(_)) {
                self.state = State::Failed;
            }
            return Err(Error::Refused(Refusal::missing(
                Fault::Rule(Rule::Exceptions),
                offset,
                WasmFeatures::EXCEPTIONS,
            )));
        }
        match take_module(&mut self.state, offset) {
            Ok(mut state) => {
                let added = add_tags(self.features, &self.types, &mut state.module, section);
                put_back(&mut self.state, state, added)
            }
            Err(refusal) => Err(Error::Refused(refusal)),
        }
    }

    /// The globals of a module, with their initializers, which may read the immutable globals before
    /// them, without `GC` only imported ones (Core Specification 3.0, Validation, Modules, Globals).
    ///
    /// # Errors
    ///
    /// Refused, at the section's start, where no module is being read or its code has started,
    /// which changes nothing. In a module refused, at the section's start, where a module would
    /// have too many globals; in the first global that can't be read or breaks a rule, or whose
    /// initializer is no constant expression of its type; and where memory is. The validator has
    /// then failed.
    pub fn global_section<'a>(
        &mut self,
        section: &SectionLimited<'a, GlobalItem<'a>, A>,
    ) -> Result<(), Error<A>>
        ensures moves { Moves result (after_section self.old 6 (count_of section.now)
            (bytes_of section.now)) self.old self.new }
        ensures place { IfErr result (StandsBetween (section_start section.now)
            (section_end section.now)) }
        ensures told { IfErr result (OfContent (TellsWithin (λ us. TellsGlobals section.now)
            (section_start section.now) self.old.stage)) }
    {
        match take_module(&mut self.state, section.range().start) {
            Ok(mut state) => {
                let added = add_globals(
                    self.features,
                    &self.types,
                    &mut self.constants,
                    &mut state,
                    section,
                );
                put_back(&mut self.state, state, added)
            }
            Err(refusal) => Err(Error::Refused(refusal)),
        }
    }

    /// The function that starts a module, by its index (Core Specification 3.0, Validation,
    /// Modules, Start Function). The range has the offsets of the section's first byte and of the
    /// one behind it, in bytes from the start of the input.
    ///
    /// # Errors
    ///
    /// Refused, at the section's start, where no module is being read or its code has started,
    /// which changes nothing; and where there is no such function or it takes or gives something,
    /// and the validator has then failed. It takes no memory.
    pub fn start_section(&mut self, function: u32, range: &Range<u64>) -> Result<(), Error<A>>
        ensures moves { Moves result (after_start self.old function) self.old self.new }
        ensures place { IfErr result (λ e. offset_of e ≡ range.now.start) }
        ensures content { IfErr result IsContent }
        ensures told { IfErr result (TellsWithin (TellsStart range.now.start function)
            range.now.start self.old.stage) }
    {
        match take_module(&mut self.state, range.start) {
            Ok(state) => {
                let answer = state.module.check_start(&self.types, function, range.start);
                put_back(&mut self.state, state, lift_refusal(answer))
            }
            Err(refusal) => Err(Error::Refused(refusal)),
        }
    }

    /// The element segments of a module (Core Specification 3.0, Validation, Modules, Element
    /// Segments).
    ///
    /// # Errors
    ///
    /// Refused, at the section's start, where no module is being read or its code has started,
    /// which changes nothing. In a module refused, at the section's start, where it would have too
    /// many element segments; in the first segment that can't be read or breaks a rule, or whose
    /// offset or items are no constant expressions of their types; and where memory is. The
    /// validator has then failed.
    pub fn element_section<'a>(
        &mut self,
        section: &SectionLimited<'a, Element<'a>, A>,
    ) -> Result<(), Error<A>>
        ensures moves { Moves result (after_section self.old 9 (count_of section.now)
            (bytes_of section.now)) self.old self.new }
        ensures place { IfErr result (StandsBetween (section_start section.now)
            (section_end section.now)) }
        ensures told { IfErr result (OfContent (TellsWithin (λ us. TellsElements section.now)
            (section_start section.now) self.old.stage)) }
    {
        match take_module(&mut self.state, section.range().start) {
            Ok(mut state) => {
                let added = add_elements(
                    self.features,
                    &self.types,
                    &mut self.constants,
                    &mut state,
                    section,
                );
                put_back(&mut self.state, state, added)
            }
            Err(refusal) => Err(Error::Refused(refusal)),
        }
    }

    /// The number of data segments that the data section is to have (Core Specification 3.0, Binary
    /// Format, Modules, Data Count Section). The range has the offsets of the section's first byte
    /// and of the one behind it, in bytes from the start of the input.
    ///
    /// # Errors
    ///
    /// Refused, at the section's start, where no module is being read or its code has started,
    /// which changes nothing; and without `BULK_MEMORY` and where there would be too many, and the
    /// validator has then failed. It takes no memory.
    pub fn data_count_section(&mut self, count: u32, range: &Range<u64>) -> Result<(), Error<A>>
        ensures moves { Moves result (after_data_count self.old count) self.old self.new }
        ensures place { IfErr result (λ e. offset_of e ≡ range.now.start) }
        ensures content { IfErr result IsContent }
        ensures told { IfErr result (TellsWithin
            (TellsDataCount self.old.features range.now.start count)
            range.now.start self.old.stage) }
    {
        match take_module(&mut self.state, range.start) {
            Ok(mut state) => {
                let accepted = lift_refusal(check_data_count(self.features, count, range.start));
                state.data_count = Some(count);
                put_back(&mut self.state, state, accepted)
            }
            Err(refusal) => Err(Error::Refused(refusal)),
        }
    }

    /// The start of the code section, with the offsets of its first byte and of the one behind it,
    /// in bytes from the start of the input (Core Specification 3.0, Binary Format, Modules, Code
    /// Section).
    ///
    /// # Errors
    ///
    /// Refused, at the section's start, where no module is being read or its code has started,
    /// which changes nothing; and where memory is, and the validator has then failed.
    pub fn code_section_start(&mut self, range: &Range<u64>) -> Result<(), Error<A>>
        ensures moves { Moves result (after_code_start self.old) self.old self.new }
        ensures place { IfErr result (λ e. IsContent e → offset_of e ≡ range.now.start) }
        ensures told { IfErr result (OfContent (TellsOrder range.now.start self.old.stage)) }
    {
        match take_module(&mut self.state, range.start) {
            Ok(state) => {
                match started(self.alloc, &mut self.types, &mut self.constants, state) {
                    Ok(code) => {
                        self.state = State::Code(code);
                        Ok(())
                    }
                    Err(_) => Err(Error::OutOfMemory),
                }
            }
            Err(refusal) => Err(Error::Refused(refusal)),
        }
    }

    /// The body of a function, which is handed out to be validated: bodies come in the order of the
    /// functions that are defined (Core Specification 3.0, Validation, Modules, Functions).
    ///
    /// # Errors
    ///
    /// Refused, at the body's first byte: where none may come, which changes nothing; and where the
    /// body is longer than 7,654,321 bytes, or memory is refused, and the validator has then failed.
    #[inline(always)]
    pub fn code_section_entry(
        &mut self,
        body: &FunctionBody<'_>,
    ) -> Result<FuncToValidate<ValidatorResources<A>>, Error<A>>
        ensures moves { Leaves result (after_body self.old (body_of body.now))
            (body_refused_at self.old.stage) self.old self.new }
        ensures given { IfOk result (λ f. body_at self.old.features (body_of body.now)
            self.old.stage ≡ body_seen f body.now ∷ []) }
        ensures told { IfErr result (OfContent (λ e. e ≡ Error.Refused
            (plain (body_told self.old.stage)
            (original (body_reader body.now) + position_in (body_reader body.now))))) }
    {
        take_body(&mut self.state, self.features, body)
    }

    /// The data segments of a module (Core Specification 3.0, Validation, Modules, Data Segments).
    ///
    /// # Errors
    ///
    /// Refused, at the section's start, where no module is being read, which changes nothing. In a
    /// module refused, at the section's start, where it would have too many data segments; in the
    /// first segment that can't be read or breaks a rule, or whose offset is no constant expression
    /// of its type; and where memory is. The validator has then failed.
    pub fn data_section<'a>(
        &mut self,
        section: &SectionLimited<'a, Data<'a>, A>,
    ) -> Result<(), Error<A>>
        ensures moves { Leaves result (after_section self.old 11 (count_of section.now)
            (bytes_of section.now)) (read_refused_at self.old.stage) self.old self.new }
        ensures place { IfErr result (StandsBetween (section_start section.now)
            (section_end section.now)) }
        ensures told { IfErr result (OfContent (TellsReading (λ us m. TellsData section.now)
            (section_start section.now) self.old.stage)) }
    {
        let checked = match find_spaces(&self.state) {
            Some(spaces) => check_data_segments(
                self.features,
                &self.types,
                &mut self.constants,
                spaces,
                section,
            ),
            None => {
                let fault = Fault::OutOfOrder(out_of_order(&self.state));
                return Err(Error::Refused(Refusal::new(fault, section.range().start)));
            }
        };
        match checked {
            Ok(()) => Ok(()),
            Err(error) => {
                self.state = State::Failed;
                Err(error)
            }
        }
    }

    /// A section of an id that the standard does not know, with the offsets of its first byte and
    /// of the one behind it, in bytes from the start of the input (Core Specification 3.0, Binary
    /// Format, Modules, Sections).
    ///
    /// # Errors
    ///
    /// Refused always, at its start, which changes nothing.
    pub fn unknown_section(&mut self, id: u8, range: &Range<u64>) -> Result<(), Error<A>>
        ensures moves { Leaves result None self.old.stage self.old self.new }
        ensures content { IfErr result IsContent }
        ensures refusal { IfErr result (λ e. e ≡ Error.Refused
            (record {
              fault = Fault.UnknownSection id;
              offset = range.now.start;
              missing = None;
            })) }
        ensures refused { IsErr result }
    {
        Err(Error::Refused(Refusal::new(Fault::UnknownSection(id), range.start)))
    }

    /// The end of a module at this offset, in bytes from the start of the input, with its types
    /// (Core Specification 3.0, Validation, Modules).
    ///
    /// # Errors
    ///
    /// Refused, at the offset, where no module is being read: before a header, behind an end, and
    /// behind a refusal. Before a header this leaves the validator as behind an end, and elsewhere
    /// as it was. While a module is being read only memory can be refused, and that fails the
    /// validator.
    pub fn end(&mut self, offset: u64) -> Result<Types<A>, Error<A>>
        ensures moves { Leaves result (after_end self.old)
            (ended_at self.old.stage) self.old self.new }
        ensures place { IfErr result (λ e. IsContent e → offset_of e ≡ offset) }
        ensures shown { IfOk result (Show self.old) }
        ensures held { IfOk result (λ t. HoldsIds (shown_of t)) }
        ensures content { shown_at self.old.stage ≡ None → IfErr result IsContent }
        ensures told { IfErr result (OfContent (λ e. e
            ≡ Error.Refused (plain (Fault.OutOfOrder (end_order_told self.old.stage)) offset))) }
    {
        match close_module(&mut self.state) {
            Ok(state) => match finish_types(
                self.id,
                self.features,
                self.alloc,
                &mut self.types,
                state,
            ) {
                Ok(types) => {
                    self.state = State::End;
                    Ok(types)
                }
                Err(_) => Err(Error::OutOfMemory),
            },
            Err(order) => {
                if !matches!(self.state, State::Failed) {
                    self.state = State::End;
                }
                Err(Error::Refused(Refusal::new(Fault::OutOfOrder(order), offset)))
            }
        }
    }
}
