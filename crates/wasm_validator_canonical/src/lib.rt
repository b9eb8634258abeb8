//! Recursion groups of a module in the list of types of its validator: their type indices as ids,
//! their rules, and the ids of their types. No type comes twice in such a list (Core Specification 3.0,
//! Validation, Types, Recursive Types).
//!
//! Each `offset` counts bytes from the start of the input.
#![tactic(auto)]

ghost use Rattle.wasm_validator_canonical.specs.Sections.{AddedSectionsAreValid, ValidSectionsAreAdded, OneIdForOneType};
ghost use Rattle.wasm_validator_canonical.specs.TypeTotals.{CountedSectionsAreAdded, AddedTypesAreCounted};
ghost use Rattle.wasm_validator_canonical.specs.Arities.{IdsKeepArities};
ghost use Rattle.wasm_validator_type_list.specs.DefTypes.{types_of_list};
ghost use Rattle.wasm_validator_canonical.specs.DistinctTypes.{AreApart, ApartTypesAreDistinct, ListedTypesAreApart, AddedTypesStayApart};

use std::alloc::Allocator;
use wasm_validator_type_list::TypeList;

mod depths;
mod intern_rec_group;
mod modules;
mod type_canonicalizer;
mod valid_lists;

pub use intern_rec_group::{canonicalize_and_intern_rec_group, needs_type_canonicalization};
pub use modules::{InternRecGroup, intern_rec_group_of};
pub use type_canonicalizer::TypeCanonicalizer;
pub use valid_lists::types_are_valid;

/// The groups of a module's type section, added one after another, are accepted exactly where the
/// section is valid (Core Specification 3.0, Validation, Modules, Types) and there are ids for its
/// types; and then each type stands in the list under the id at its index. Where equal types aren't
/// one, these are the next ids, and the list has so many types more. Where they are, types that the
/// list has take no ids.
pub fn type_sections_are_added_where_valid()
    ensures accepted { AddedSectionsAreValid }
    ensures valid { ValidSectionsAreAdded }
    ensures known { CountedSectionsAreAdded }
    ensures counted { AddedTypesAreCounted }
{}

/// Where equal types are one, types of any two modules whose types went to one list have the same
/// id exactly where they are equal: the same place of equal recursive types.
pub fn equal_types_have_one_id()
    ensures { OneIdForOneType }
{}

/// The type of a list has as many parameters and results as the type of a module that its id stands
/// for.
pub fn ids_keep_arities()
    ensures { IdsKeepArities }
{}

/// Types that are told apart are all different.
pub fn apart_types_are_distinct()
    ensures { ApartTypesAreDistinct }
{}

/// The types of the groups of a list are told apart.
pub fn listed_types_are_apart<A>()
    ensures { ListedTypesAreApart A }
{}

/// They stay told apart when the types of a module are added.
pub fn added_types_stay_apart()
    ensures { AddedTypesStayApart }
{}

/// The types of this list are told apart.
pub fn types_are_apart<A: Allocator + Copy>(types: &TypeList<A>)
    ensures { AreApart types.now.is_canonical (types_of_list types.now) }
{
    // Asked for what it promises: where equal types are one, no type has two ids.
    let _is_canonical = types.is_canonical();
}

/// Passed on from `wasm_validator_type_checks`.
pub mod type_checks {
    pub use wasm_validator_type_checks::{
        MAX_WASM_SUBTYPING_DEPTH, check_composite_type, check_descriptors, check_subtype,
    };
}
