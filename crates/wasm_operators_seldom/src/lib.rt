//! Operators that compilers write less often, by families, read without refusals. Each function takes
//! the opcode, or the code behind a prefix, that was read before, and answers `None` where that is of
//! another family or what should follow isn't there; the reader may stand further on then.
#![tactic(auto)]

mod aggregates;
mod control;
mod forms;
mod types;
mod values;

pub use aggregates::{next_array, next_cast, next_conversion, next_struct};
pub use control::{next_call, next_control, next_select, next_write};
pub use forms::{next_atomic, next_bits_32, next_bits_64, next_on_vectors, next_vector_constant};
pub use values::{
    next_memory_size, next_on_memories, next_on_references, next_on_tables, next_saturating,
    next_table_access,
};
