//! The side table of the body of one function, or those of all bodies, by the bytes of their module.
#![tactic(auto)]

mod function;
mod module;
mod report;
mod totals;

pub use function::{NoTable, make_table};
pub use module::{BodyTable, ModuleTables, NoTables, make_tables};
pub use report::{TableCounts, tell_table};
pub use totals::{TableTotals, TablesAnswer, tell_tables};
pub use wasm_spec_side_tables::Entry;
