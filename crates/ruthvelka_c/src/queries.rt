//! Questions about the modules of one list: whether a type is below another one, and whether an
//! export may be given for an import.

ghost use Rattle.std.specs.Prelude.{◌≡◌, if◌then◌else◌};
ghost use Rattle.std.specs.Bool.{Decides};
ghost use Rattle.std.specs.Option.{option_map};
ghost use Rattle.wasm_validator_handles.specs.WasmValidator.WasmValidatorTypes.Entities.{entity_of};
ghost use Rattle.ruthvelka_c.specs.Queries.{AnswersQuery, IsBelow, IsSaid, MayBeGiven, QueriesTell, Says, SaysBelow, SaysGiven};
ghost use Rattle.ruthvelka_c.specs.Queries.{accepted, exported_at, imported_at, list_behind, type_at, types_at};

use crate::report::Answer;
use wasm_validator_handles::validator::{CoreTypeId, EntityType, TypeList, Types};
use wasm_validator_handles::{item_at, nth_export, nth_import, nth_type};

/// The kind of a question: is the first type the second one or below it?
pub const IS_SUBTYPE: u32 = 0;
/// The kind of a question: may the export be given for the import?
pub const MAY_BE_GIVEN: u32 = 1;
/// The answer of a question: no.
pub const NO: u32 = 0;
/// The answer of a question: yes.
pub const YES: u32 = 1;
/// The answer of a question whose kind is unknown, or where one of the two isn't there.
pub const UNKNOWN: u32 = 2;

/// A question about two types, or about an export and an import. C writes it as `struct
/// ruthvelka_query`, and reads the answer from it.
#[repr(C)]
#[derive(Clone, Copy)]
pub struct Query {
    pub kind: u32,
    pub first_module: u32,
    pub first: u32,
    pub second_module: u32,
    pub second: u32,
    pub answer: u32,
}

/// Writes the answer to each of these questions.
pub fn answer_queries(answers: &[Answer], queries: &mut [Query])
    ensures { QueriesTell answers.now queries.old queries.new }
{
    'queries: for k in 0..queries.len() {
        let asked = item_at(queries, k);
        let answered = answer_query(answers, asked);
        queries[k] = answered;
    }
}

/// The question with its answer.
fn answer_query(answers: &[Answer], query: Query) -> Query
    ensures { AnswersQuery answers.now query result }
{
    match query.kind {
        IS_SUBTYPE => with_answer(query, answer_subtype(answers, query)),
        MAY_BE_GIVEN => with_answer(query, answer_given(answers, query)),
        _ => with_answer(query, UNKNOWN),
    }
}

fn with_answer(query: Query, answer: u32) -> Query
    ensures { result ≡ record query { answer = answer } }
{
    Query { answer, ..query }
}

fn answer_subtype(answers: &[Answer], query: Query) -> u32
    ensures { SaysBelow answers.now query result }
{
    let first = find_type(answers, query.first_module, query.first);
    let second = find_type(answers, query.second_module, query.second);
    let list = find_list(answers, query.first_module.max(query.second_module));
    say_below(first, second, list)
}

fn answer_given(answers: &[Answer], query: Query) -> u32
    ensures { SaysGiven answers.now query result }
{
    let first = find_export(answers, query.first_module, query.first);
    let second = find_import(answers, query.second_module, query.second);
    let list = find_list(answers, query.first_module.max(query.second_module));
    say_given(first, second, list)
}

fn say_below(first: Option<CoreTypeId>, second: Option<CoreTypeId>, list: Option<&TypeList>) -> u32
    ensures { Says IsBelow (option_map (λ id. id.index) first) (option_map (λ id. id.index) second)
        (option_map (λ list. list.now) list.entry) result }
{
    match first {
        None => UNKNOWN,
        Some(first) => match second {
            None => UNKNOWN,
            Some(second) => match list {
                None => UNKNOWN,
                Some(list) => judge_below(list, first, second),
            },
        },
    }
}

pub fn say_given(
    first: Option<EntityType>,
    second: Option<EntityType>,
    list: Option<&TypeList>,
) -> u32
    ensures { Says MayBeGiven (option_map entity_of first) (option_map entity_of second)
        (option_map (λ list. list.now) list.entry) result }
{
    match first {
        None => UNKNOWN,
        Some(first) => match second {
            None => UNKNOWN,
            Some(second) => match list {
                None => UNKNOWN,
                Some(list) => judge_given(list, first, second),
            },
        },
    }
}

pub fn judge_below(list: &TypeList, first: CoreTypeId, second: CoreTypeId) -> u32
    ensures { IsSaid result (IsBelow list.now first.index second.index) }
{
    say(is_below(list, first, second))
}

fn judge_given(list: &TypeList, first: EntityType, second: EntityType) -> u32
    ensures { IsSaid result (MayBeGiven list.now (entity_of first) (entity_of second)) }
{
    say(may_be_given(list, first, second))
}

pub fn say(yes: bool) -> u32
    ensures { result ≡ (if yes then YES else NO) }
{
    if yes { YES } else { NO }
}

/// Whether the list has both types, and the first is the second or below it.
fn is_below(list: &TypeList, first: CoreTypeId, second: CoreTypeId) -> bool
    ensures { Decides result (IsBelow list.now first.index second.index) }
{
    list.holds_id(first) && list.holds_id(second) && list.id_is_subtype(first, second)
}

/// Whether the list has all types that both name, and what is of the first type may be given where
/// the second is asked for.
fn may_be_given(list: &TypeList, first: EntityType, second: EntityType) -> bool
    ensures { Decides result (MayBeGiven list.now (entity_of first) (entity_of second)) }
{
    list.holds_entity(first) && list.holds_entity(second) && list.entity_is_subtype(first, second)
}

/// The types of the accepted module at this place, if there is one.
fn find_types(answers: &[Answer], place: u32) -> Option<&Types>
    ensures { option_map (λ types. types.now) result ≡ types_at answers.now place }
{
    match answers.get(place as usize) {
        Some(answer) => accepted(answer),
        None => None,
    }
}

fn accepted(answer: &Answer) -> Option<&Types>
    ensures { option_map (λ types. types.now) result ≡ accepted answer.now }
{
    match answer {
        Ok(types) => Some(types),
        Err(_) => None,
    }
}

/// The list of types of the accepted module at this place.
fn find_list(answers: &[Answer], place: u32) -> Option<&TypeList>
    ensures { option_map (λ list. list.now) result ≡ list_behind (types_at answers.now place) }
{
    let types = find_types(answers, place)?;
    Some(types.as_ref().type_list())
}

/// The type with this index of the accepted module at this place.
fn find_type(answers: &[Answer], place: u32, index: u32) -> Option<CoreTypeId>
    ensures { option_map (λ id. id.index) result ≡ type_at (types_at answers.now place) index }
{
    let types = find_types(answers, place)?;
    nth_type(&types.as_ref(), index)
}

/// What the accepted module at this place exports behind so many others.
fn find_export(answers: &[Answer], place: u32, number: u32) -> Option<EntityType>
    ensures { option_map entity_of result ≡ exported_at (types_at answers.now place) number }
{
    let types = find_types(answers, place)?;
    nth_export(&types.as_ref(), number)
}

/// What the accepted module at this place imports behind so many others.
fn find_import(answers: &[Answer], place: u32, number: u32) -> Option<EntityType>
    ensures { option_map entity_of result ≡ imported_at (types_at answers.now place) number }
{
    let types = find_types(answers, place)?;
    nth_import(&types.as_ref(), number)
}
