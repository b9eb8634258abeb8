//! That what a list says of ids is what the standard says of the types that they stand for.

ghost use Rattle.wasm_validator_type_list.specs.Laws.{TypesDeclareWhatIdsDeclare, TypesHaveTheirPlaces, IdsAreOrderedAsTypes, IdsMatchAsTypes};
ghost use Rattle.wasm_validator_type_list.specs.Worlds.{IdsAreAWorld};

/// In a list of types, what an id declares over ids is what its type declares, with each id as the
/// type that it stands for.
pub fn types_declare_what_ids_declare<A>()
    ensures { TypesDeclareWhatIdsDeclare A }
{}

/// The tests of the world of a list of types are right: what they answer of ids is the declared
/// order and equality.
#[tactic(auto, using(crate::proofs::Worlds::ids_are_a_world))]
pub fn ids_are_a_world<A>()
    ensures { IdsAreAWorld A }
{}

/// Where equal types aren't one, each type of a list has its place, so that no type has two ids.
#[tactic(auto, using(crate::proofs::TypePlaces::types_have_their_places))]
pub fn types_have_their_places<A>()
    ensures { TypesHaveTheirPlaces A }
{}

/// Where no type has two ids, which `TypeList` says of each list, the order of ids is that of the
/// types that they stand for, and value types over ids match exactly where they do with those types
/// in place of ids.
pub fn ids_match_as_types<A>()
    ensures order { IdsAreOrderedAsTypes A }
    ensures value_types { IdsMatchAsTypes A }
{}
