//! All bodies of a module.

ghost use Rattle.std.specs.Prelude.{◌≡◌, ◌<◌, ◌^◌, [], IfSome, IfNone, IfOk, IfErr, OnOk, Some, None, Ok, Err};
ghost use Rattle.wasm_parser.specs.Places.{ends_at, reader_end};
ghost use Rattle.wasm_parser.specs.PayloadViews.{body_of, body_reader, seen};
ghost use Rattle.wasm_spec.specs.Framing.{CodeEntry};
ghost use Rattle.wasm_validator_modules.specs.Verdict.{DecidesAlone};
ghost use Rattle.wasm_validator_side_table.specs.Answers.{end_of};
ghost use Rattle.wasm_validator_tables.specs.FunctionTables.{IsMade, found_at, found_seen};
ghost use Rattle.wasm_validator_tables.specs.ModuleTables.{Adds, AreMade, DecidesTables, Gathers, GivesLarge, HasSomeLargeBody, IsLarge, IsLargeBody, Keeps, Makes, TellsLarge};

use crate::function::{Found, NoTable, make_for, make_next};
use crate::report::{TableCounts, counts_of};
use std::alloc::{AllocError, Allocator, Global};
use wasm_spec_side_tables::Entry;
use wasm_validator_modules::readers::{FunctionBody, Parser, Payload, WasmFeatures};
use wasm_validator_modules::validator_func::FuncValidatorAllocations;
use wasm_validator_modules::{
    Error, Types, ValidPayload, Validator, ValidatorId, ValidatorResources,
};
use wasm_validator_side_table::validator_func::FuncValidator;
use wasm_validator_side_table::{SideTable, is_too_large};

/// What is told of the table of one body among those of all. C reads it as `struct
/// ruthvelka_body_table`.
#[repr(C)]
#[derive(Clone, Copy)]
pub struct BodyTable {
    /// How many entries the bodies before have, behind which its own stand.
    pub start: u64,
    /// What is told of any table.
    pub counts: TableCounts,
    /// The index of the function, imported ones counted.
    pub function: u32,
    /// Always 0.
    pub reserved: u32,
}

/// The types of a valid module, and the side tables of its bodies, in their order: what is told of
/// each, and the entries of all, one body's behind the other's.
#[derive(Drop)]
pub struct ModuleTables<A: Allocator = Global> {
    pub types: Types<A>,
    pub tables: Vec<BodyTable, A>,
    pub entries: Vec<Entry, A>,
}

/// Why there are no side tables of a module.
#[derive(Drop)]
pub enum NoTables<A: Allocator = Global> {
    /// The module isn't valid, or memory was refused.
    Refused(Error<A>),
    /// The module is valid, with these types, and the offset behind a body has more than 32 bits.
    TooLarge(Types<A>),
}

/// Validates a module, and makes the side tables of all its bodies meanwhile.
///
/// # Errors
///
/// Refused as by [`Validator::validate_all`] of a new validator, which then goes over the module
/// again; and there are none where a body of a valid module ends where offsets have more than 32
/// bits.
pub fn make_tables<A: Allocator + Copy>(
    alloc: A,
    bytes: &[u8],
    features: WasmFeatures,
) -> Result<ModuleTables<A>, NoTables<A>>
    ensures decides { DecidesTables bytes.now features result }
{
    match go_through(alloc, bytes, features) {
        Ok(made) => Ok(made),
        Err(NoTable::Refused(Error::OutOfMemory)) => Err(NoTables::Refused(Error::OutOfMemory)),
        Err(why) => Err(answer_again(alloc, bytes, features, why)),
    }
}

/// Why there are no tables, by what the validator says of the whole module.
fn answer_again<A: Allocator + Copy>(
    alloc: A,
    bytes: &[u8],
    features: WasmFeatures,
    why: NoTable<A>,
) -> NoTables<A>
    requires { IsLarge (HasSomeLargeBody bytes.now features) why }
    ensures decides { DecidesTables bytes.now features (Err result) }
{
    let mut validator = Validator::new_with_features(alloc, features, ValidatorId::from_number(0));
    match validator.validate_all(bytes) {
        Ok(types) => match why {
            NoTable::TooLarge => NoTables::TooLarge(types),
            NoTable::Refused(_) => NoTables::Refused(Error::OutOfMemory),
            NoTable::NoBody => NoTables::Refused(Error::OutOfMemory),
        },
        Err(error) => NoTables::Refused(error),
    }
}

/// Goes over the payloads of these bytes, up to one that is refused or has no table, and makes the
/// tables of the bodies on the way.
fn go_through<A: Allocator + Copy>(
    alloc: A,
    bytes: &[u8],
    features: WasmFeatures,
) -> Result<ModuleTables<A>, NoTable<A>>
    ensures made { IfOk result (λ m. AreMade bytes.now features m) }
    ensures accepted { IfOk result (λ m. DecidesAlone (Ok m.types) bytes.now 0 features) }
    ensures large { IfErr result (IsLarge (HasSomeLargeBody bytes.now features)) }
{
    let mut validator = Validator::new_with_features(alloc, features, ValidatorId::from_number(0));
    let mut payloads = Parser::new(alloc, 0).parse_all(bytes);
    let mut making = Making::new(alloc);
    'payloads: loop {
        let payload = match payloads.next_payload() {
            Ok(Some(payload)) => payload,
            Ok(None) => break,
            Err(refusal) => return Err(NoTable::Refused(Error::Refused(refusal))),
        };
        match gather(&mut validator, &payload, &mut making) {
            Ok(()) => drop(payload),
            Err(why) => {
                drop(payload);
                return Err(why);
            }
        }
    }
    match making.finish() {
        Some(made) => Ok(made),
        None => unreachable!(),
    }
}

/// Lets the validator take a payload, and makes the table of the body that it hands out, if it does.
/// Bodies, of which there are many, have a way of their own, without the room that types take.
fn gather<'a, A: Allocator + Copy>(
    validator: &mut Validator<A>,
    payload: &Payload<'a, A>,
    making: &mut Making<A>,
) -> Result<(), NoTable<A>>
    ensures taken { OnOk result (Gathers (seen payload.now) (ends_at payload.now) validator.old
        validator.new making.old making.new) }
    ensures large { IfErr result (TellsLarge (seen payload.now) (ends_at payload.now)
        validator.old) }
{
    match payload {
        Payload::CodeSectionEntry(body) => gather_body(validator, body, making),
        other => gather_other(validator, other, making),
    }
}

/// Takes a body.
fn gather_body<'a, A: Allocator + Copy>(
    validator: &mut Validator<A>,
    body: &FunctionBody<'a>,
    making: &mut Making<A>,
) -> Result<(), NoTable<A>>
    ensures taken { OnOk result (Gathers (CodeEntry (body_of body.now))
        (reader_end (body_reader body.now)) validator.old validator.new making.old making.new) }
    ensures large { IfErr result (TellsLarge (CodeEntry (body_of body.now))
        (reader_end (body_reader body.now)) validator.old) }
{
    match validator.code_section_entry(body) {
        Ok(function) => match making.make(Found {
            function,
            body: *body,
        }) {
            Ok(()) => Ok(()),
            Err(why) => Err(why),
        },
        Err(error) => Err(NoTable::Refused(error)),
    }
}

/// The same of any payload.
fn gather_other<'a, A: Allocator + Copy>(
    validator: &mut Validator<A>,
    payload: &Payload<'a, A>,
    making: &mut Making<A>,
) -> Result<(), NoTable<A>>
    ensures taken { OnOk result (Gathers (seen payload.now) (ends_at payload.now) validator.old
        validator.new making.old making.new) }
    ensures large { IfErr result (TellsLarge (seen payload.now) (ends_at payload.now)
        validator.old) }
{
    match validator.payload(payload) {
        Ok(valid) => match making.take(valid) {
            Ok(()) => Ok(()),
            Err(why) => Err(why),
        },
        Err(error) => Err(NoTable::Refused(error)),
    }
}

/// What payloads gave so far: the types of the module that has ended, what is told of the tables of
/// bodies, and their entries; and the table and the validator in which one body comes after another.
pub struct Making<A: Allocator> {
    pub(crate) alloc: A,
    pub(crate) ended: Option<Types<A>>,
    pub(crate) tables: Vec<BodyTable, A>,
    pub(crate) entries: Vec<Entry, A>,
    pub(crate) table: SideTable<A>,
    pub(crate) validator: Option<FuncValidator<ValidatorResources<A>, A>>,
}

// By hand: so each way out takes one call for it, and not a step for each field.
impl<A: Allocator> Drop for Making<A> {
    fn drop(self) {
        let Making {
            alloc: _,
            ended: _,
            tables: _,
            entries: _,
            table: _,
            validator: _,
        } = self;
    }
}

impl<A: Allocator + Copy> Making<A> {
    fn new(alloc: A) -> Making<A>
        ensures ended { result.ended ≡ None }
        ensures tables { result.tables.items ≡ [] }
        ensures entries { result.entries.items ≡ [] }
    {
        Making {
            alloc,
            ended: None,
            tables: Vec::new(alloc),
            entries: Vec::new(alloc),
            table: SideTable::new(alloc),
            validator: None,
        }
    }

    /// Keeps what a payload gave: the types of the module that has ended, and of a body its table.
    fn take(&mut self, valid: ValidPayload<'_, A>) -> Result<(), NoTable<A>>
        ensures kept { OnOk result (Keeps valid.entry self.old self.new) }
        ensures large { IfErr result (IsLarge (GivesLarge valid.entry)) }
    {
        match valid {
            ValidPayload::Ok => Ok(()),
            ValidPayload::Func(function, body) => self.make(Found { function, body }),
            ValidPayload::End(types) => {
                self.ended = Some(types);
                Ok(())
            }
        }
    }

    /// Makes the table of a body that was handed out.
    fn make_table(&mut self, found: Found<'_, A>) -> Result<(), NoTable<A>>
        ensures made { OnOk result
            (IsMade (found_seen found.entry) (found_at found.entry) self.new.table) }
        ensures told { (self.new.tables ≡ self.old.tables)
            × (self.new.entries ≡ self.old.entries) × (self.new.ended ≡ self.old.ended) }
        ensures large { IfErr result
            (IsLarge (IsLargeBody (found_seen found.entry) (found_at found.entry))) }
    {
        if is_too_large(&found.body) {
            let memory = FuncValidatorAllocations::new(self.alloc);
            return match make_for(memory, found, &mut self.table) {
                Ok(_memory) => Ok(()),
                Err(why) => Err(why),
            };
        }
        match &mut self.validator {
            Some(validator) => match make_next(validator, found, &mut self.table) {
                Ok(()) => Ok(()),
                Err(why) => Err(why),
            },
            None => self.make_first(found),
        }
    }

    /// The same of the first body, which ends where 32 bits have the offset.
    fn make_first(&mut self, found: Found<'_, A>) -> Result<(), NoTable<A>>
        requires few { end_of (body_reader found.body) < 2 ^ 32 }
        ensures made { OnOk result
            (IsMade (found_seen found.entry) (found_at found.entry) self.new.table) }
        ensures told { (self.new.tables ≡ self.old.tables)
            × (self.new.entries ≡ self.old.entries) × (self.new.ended ≡ self.old.ended) }
        ensures large { IfErr result
            (IsLarge (IsLargeBody (found_seen found.entry) (found_at found.entry))) }
    {
        let resources = match found.function.resources.clone() {
            Ok(resources) => resources,
            Err(_) => return Err(NoTable::Refused(Error::OutOfMemory)),
        };
        let memory = FuncValidatorAllocations::new(self.alloc);
        let mut validator = FuncValidator::without_body(resources, memory);
        match make_next(&mut validator, found, &mut self.table) {
            Ok(()) => {}
            Err(why) => return Err(why),
        }
        self.validator = Some(validator);
        Ok(())
    }

    /// Makes the table of a body that was handed out, and tells it behind the others.
    fn make(&mut self, found: Found<'_, A>) -> Result<(), NoTable<A>>
        ensures made { OnOk result (Makes (found_seen found.entry) (found_at found.entry)
            self.old self.new) }
        ensures large { IfErr result
            (IsLarge (IsLargeBody (found_seen found.entry) (found_at found.entry))) }
    {
        let function = found.function.index;
        match self.make_table(found) {
            Ok(()) => {}
            Err(why) => return Err(why),
        }
        match push_table(&mut self.tables, &mut self.entries, function, &self.table) {
            Ok(()) => Ok(()),
            Err(_) => Err(NoTable::Refused(Error::OutOfMemory)),
        }
    }

    /// The types of the module that has ended, if one has, and the tables.
    fn finish(self) -> Option<ModuleTables<A>>
        ensures ended { IfSome result (λ m. self.ended ≡ Some m.types) }
        ensures tables { IfSome result (λ m. m.tables.items ≡ self.tables.items) }
        ensures entries { IfSome result (λ m. m.entries.items ≡ self.entries.items) }
        ensures none { IfNone result (self.ended ≡ None) }
    {
        let Making {
            alloc: _,
            ended,
            tables,
            entries,
            table: _,
            validator: _,
        } = self;
        match ended {
            Some(types) => Some(ModuleTables {
                types,
                tables,
                entries,
            }),
            None => None,
        }
    }
}

/// One more table, whose entries come behind the others.
fn push_table<A: Allocator>(
    tables: &mut Vec<BodyTable, A>,
    entries: &mut Vec<Entry, A>,
    function: u32,
    table: &SideTable<A>,
) -> Result<(), AllocError>
    ensures { OnOk result (Adds function table.now tables.old.items entries.old.items
        tables.new.items entries.new.items) }
{
    let start = entries.len() as u64;
    entries.extend_from_slice(table.entries())?;
    tables.push(BodyTable {
        start,
        counts: counts_of(table),
        function,
        reserved: 0,
    })?;
    Ok(())
}
