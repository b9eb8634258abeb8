//! What operators look up of a module that is being read: its own index spaces, and the list of
//! types that it stands over; and what is owned and handed out with each function body once its code
//! section has started (Core Specification 3.0, Validation, Conventions, Contexts).
//!
//! A context that declares what the ids of a list do has the tests of the list, so that the list's own
//! test of subtyping may stand for the context's (Core Specification 3.0, Validation, Matching).
#![tactic(auto)]

ghost use Rattle.wasm_validator_core_resources.specs.ListContexts.{ListsAreSeen, ListContextsAreWorlds};
ghost use Rattle.wasm_validator_core_resources.specs.IndexContexts.{ListsAreListed};

mod by_ids;
mod resources;
mod types_by_ids;
mod validator_resources;

pub use resources::{ModuleResources, flags_say_references};
pub use types_by_ids::{TypesByIds, first_types};
pub use validator_resources::ValidatorResources;

/// In a context that declares what the ids of a list of types do, ids declare, are ordered and
/// match as in the list, and what is no id declares nothing.
pub fn lists_are_seen<A, R>()
    ensures { ListsAreSeen A R }
{}

/// The tests of such a context are right.
pub fn list_contexts_are_worlds<A, R>()
    ensures { ListContextsAreWorlds A R }
{}

/// So it is of contexts over the references of types as they are read, where value types match
/// exactly where they do by the numbers of their ids.
pub fn lists_are_listed<A>()
    ensures { ListsAreListed A }
{}
