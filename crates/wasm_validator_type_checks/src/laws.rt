//! That the rules of types hold over ids exactly where they hold of the types that the ids stand
//! for.

ghost use Rattle.wasm_validator_type_checks.specs.Laws.{IdsKeepRulesAsTypes, GroupsKeepRulesAsTypes, SubTypesMatchAsTypes};

/// In a list of types in which no type has two ids, as in a canonical one, what an id declares over
/// ids keeps the rules of a type exactly where the type that the id stands for does. And the types
/// of a group do exactly where the recursive type that its ids stand for is valid.
pub fn ids_keep_rules_as_types<A>()
    ensures types { IdsKeepRulesAsTypes A }
    ensures groups { GroupsKeepRulesAsTypes A }
{}

/// In such a list sub types over ids match exactly where they do with the types that the ids stand
/// for in place of ids.
pub fn sub_types_match_as_types<A>()
    ensures { SubTypesMatchAsTypes A }
{}
