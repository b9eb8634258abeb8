//! What keeps the functions that are named.

ghost use Rattle.std.specs.Prelude.{◌≡◌, ℕ, OnOk};
ghost use Rattle.wasm_validator_references.specs.Notes.{noting};
ghost use Rattle.wasm_validator_references.specs.References.{mark};

use crate::flags::ReferencedFunctions;
use std::alloc::{AllocError, Allocator};

/// What functions are noted in where something names them.
pub trait NotesFunctions {
    /// What is kept behind one more function.
    ghost note: { ℕ → Self → Self };

    /// Notes a function.
    ///
    /// # Errors
    ///
    /// Fails where memory is refused.
    fn note(&mut self, function_index: u32) -> Result<(), AllocError>
        ensures { OnOk result (self.new ≡ note function_index self.old) };

    /// Notes the functions whose indices are these bytes, one after another.
    ///
    /// # Errors
    ///
    /// Fails where memory is refused.
    fn note_bytes(&mut self, function_indices: &[u8]) -> Result<(), AllocError>
        ensures { OnOk result (self.new ≡ noting note function_indices.now self.old) };
}

impl<A: Allocator + Copy> NotesFunctions for ReferencedFunctions<A> {
    ghost note = { mark };

    #[inline(always)]
    fn note(&mut self, function_index: u32) -> Result<(), AllocError> {
        self.mark(function_index)
    }

    fn note_bytes(&mut self, function_indices: &[u8]) -> Result<(), AllocError> {
        self.mark_bytes(function_indices)
    }
}

/// Keeps nothing: for expressions that name no functions, as the offsets of data segments.
#[derive(Drop)]
pub struct NoNotes {}

impl NotesFunctions for NoNotes {
    ghost note = { λ x kept. kept };

    #[inline(always)]
    fn note(&mut self, _function_index: u32) -> Result<(), AllocError> {
        Ok(())
    }

    #[tactic(auto, using(crate::proofs::FunctionNotes::nothing_noted))]
    fn note_bytes(&mut self, _function_indices: &[u8]) -> Result<(), AllocError> {
        Ok(())
    }
}
