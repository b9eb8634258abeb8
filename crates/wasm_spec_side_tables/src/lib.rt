//! Side tables: what an interpreter that runs a body in place wants to know of its branches (Core
//! Specification 3.0, Execution, Control Instructions).
#![tactic(auto)]

mod counted;
mod entry;
mod places;

ghost use Rattle.wasm_spec_side_tables.specs.Laws.{TablesAreRight};

pub use counted::Counted;
pub use entry::{Entry, OpenBlock, Place};
pub use places::{label_of, make_dropping_entry, make_entry, narrow_offset};

/// The table that is made in one pass is the side table of the definition.
#[tactic(auto, using(crate::proofs::Entries::tables_are_right))]
pub fn tables_are_right<R>()
    ensures { TablesAreRight R }
{}
