//! What `wasm-check` prints of a file: whether it is a valid WebAssembly module, where it is refused,
//! and on request its types, imports, exports and index spaces, as text or as JSON; and of all files,
//! how many ended in which way.
#![tactic(auto)]

mod imports;
mod items;
mod json;
mod lines;
mod places;
mod settings;
mod summary;

pub use json::write_unread;
pub use lines::write_report;
pub use settings::{Form, Settings};
pub use summary::{Summary, write_summary};
pub use wasm_validate_files as files;
