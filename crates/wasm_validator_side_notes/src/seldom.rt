//! Operators that are less frequent, foreseen by their first bytes before their steps are taken.

ghost use Rattle.std.specs.Prelude.{◌≡◌, ◌<◌, true, false, Some, IfSome};
ghost use Rattle.wasm_readers.specs.WasmReadersBytes.Reader.{SameInput, position_in, place_of_next, rest};
ghost use Rattle.wasm_validator_resources.specs.Answers.{world};
ghost use Rattle.wasm_typing_stacks.specs.BodyStacks.{Kept};
ghost use Rattle.wasm_validator_func.specs.WasmTypingValidator.BodyTyping.{typed_state};
ghost use Rattle.wasm_validator_func.specs.WasmTypingValidator.TypedInstructions.{within};
ghost use Rattle.wasm_validator_func.specs.WasmTypingValidator.StepsFromBytes.{stepped};
ghost use Rattle.wasm_validator_side_notes.specs.TableViews.{shown};
ghost use Rattle.wasm_validator_side_notes.specs.Tables.{Advances};
ghost use Rattle.wasm_validator_side_notes.specs.OperatorNotes.{Foresees, IsQuiet};

use crate::frequent::Noted;
use crate::table::SideTable;
use std::alloc::Allocator;
use wasm_readers::BinaryReader;
use wasm_spec_side_tables::narrow_offset;
use wasm_validator_func::FuncValidator;
use wasm_validator_resources::WasmModuleResources;

/// What became of the next operator.
#[derive(Clone, Copy)]
pub enum Taken {
    /// It is noted, and its step is taken.
    Yes,
    /// It isn't, and all stays.
    No,
    /// Memory was refused.
    NoMemory,
}

/// Whether an operator with this first byte branches nowhere and leaves the blocks as they are.
#[tactic(auto, using(crate::proofs::Opcodes::quiets))]
fn is_quiet(opcode: u8) -> bool
    ensures { result ≡ true → IsQuiet opcode }
{
    if 0x20 <= opcode && opcode < 0xd0 {
        return true;
    }
    match opcode {
        0x1b => true,
        _ => false,
    }
}

/// Whether a `br_table` is next.
#[inline(always)]
fn is_table(reader: &BinaryReader) -> bool {
    let mut ahead = *reader;
    match ahead.next_u8() {
        Some(opcode) => opcode == 0x0e,
        None => false,
    }
}

impl<A: Allocator> SideTable<A> {
    /// What is to be noted of the next operator, if it is one of these.
    fn foresee<'a, T: WasmModuleResources, B: Allocator>(
        &self,
        validator: &FuncValidator<T, B>,
        reader: &BinaryReader<'a>,
        at: u32,
    ) -> Option<Noted>
        ensures { IfSome result (Foresees (T.context validator.now.resources)
            validator.now.validator at (shown self.now) (rest reader.now)) }
    {
        let mut ahead = *reader;
        let opcode = ahead.next_u8()?;
        if is_quiet(opcode) {
            return Some(Noted::Stays);
        }
        match opcode {
            0x05 => match self.label_entry(validator, at, 0, 0) {
                Some(entry) => Some(Noted::Turns(entry)),
                None => None,
            },
            0x0b => Some(Noted::Closes),
            _ => None,
        }
    }

    /// Notes the next operator, and lets the validator take its step, if it is one of these.
    pub fn read_other<'a, T: WasmModuleResources, B: Allocator>(
        &mut self,
        validator: &mut FuncValidator<T, B>,
        reader: &mut BinaryReader<'a>,
    ) -> Taken
        requires { validator.old.validator.failed ≡ false }
        ensures advances { result ≡ Taken.Yes → Advances
            (world (T.context validator.old.resources))
            (within validator.old.validator (T.context validator.old.resources))
            (typed_state validator.old.validator) (shown self.old) (place_of_next reader.old)
            (rest reader.old) (typed_state validator.new.validator) (shown self.new)
            (place_of_next reader.new) (rest reader.new) }
        ensures took { result ≡ Taken.Yes → stepped (T.context validator.old.resources)
            validator.old.validator.stacks reader.old
            ≡ Some (typed_state validator.new.validator, rest reader.new) }
        ensures further { result ≡ Taken.Yes → position_in reader.old < position_in reader.new }
        ensures table { result ≡ Taken.No → shown self.new ≡ shown self.old }
        ensures unread { result ≡ Taken.No → reader.new ≡ reader.old }
        ensures left { result ≡ Taken.No
            → typed_state validator.new.validator ≡ typed_state validator.old.validator }
        ensures going { validator.new.validator.failed ≡ false }
        ensures kept { Kept validator.old.validator.stacks validator.new.validator.stacks }
        ensures resources { validator.new.resources ≡ validator.old.resources }
        ensures index { validator.new.index ≡ validator.old.index }
        ensures input { SameInput reader.old reader.new }
    {
        let Some(at) = narrow_offset(reader.original_position()) else {
            return Taken::No;
        };
        if is_table(reader) {
            return self.read_table(validator, reader, at);
        }
        let Some(noted) = self.foresee(validator, reader, at) else {
            return Taken::No;
        };
        match validator.other_op(reader) {
            Ok(()) => {}
            Err(_) => return Taken::No,
        }
        let Some(behind) = narrow_offset(reader.original_position()) else {
            return Taken::NoMemory;
        };
        if self.put(noted, behind) {
            Taken::Yes
        } else {
            Taken::NoMemory
        }
    }
}
