//! What the crates of rows share: rows are lines of files, each with the answer that is wanted, and a
//! judge answers one line after another.
#![tactic(auto)]

mod digits;
mod features;
mod files;
mod judge;
mod words;

pub use digits::parse_digits;
pub use features::{name_of, parse_features};
pub use files::{Input, STATUS_RIGHT, STATUS_TROUBLE, STATUS_WRONG, print_error, run};
pub use judge::{Difference, Judge, NOT, Trouble, WrongRows, take_part};
pub use words::{files_behind, has_option, words_behind};
