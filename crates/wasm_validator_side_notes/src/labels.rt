//! Branches by a table, noted once their step is taken.

ghost use Rattle.std.specs.Prelude.{◌≡◌, ◌<◌, ◌-◌, true, false, Some};
ghost use Rattle.wasm_readers.specs.WasmReadersBytes.Reader.{SameInput, position_in, place_of_next, rest};
ghost use Rattle.wasm_validator_resources.specs.Answers.{world};
ghost use Rattle.wasm_typing_stacks.specs.BodyStacks.{Kept};
ghost use Rattle.wasm_validator_func.specs.WasmTypingValidator.BodyTyping.{typed_state};
ghost use Rattle.wasm_validator_func.specs.WasmTypingValidator.TypedInstructions.{within};
ghost use Rattle.wasm_validator_func.specs.WasmTypingValidator.StepsFromBytes.{stepped};
ghost use Rattle.wasm_validator_side_notes.specs.TableViews.{shown};
ghost use Rattle.wasm_validator_side_notes.specs.Tables.{Advances};
ghost use Rattle.wasm_validator_side_notes.specs.LabelEntries.{AreBranchedTo, IsBranchedByTable};

use crate::branches::count_operands;
use crate::seldom::Taken;
use crate::table::SideTable;
use std::alloc::Allocator;
use wasm_readers::BinaryReader;
use wasm_validator_func::FuncValidator;
use wasm_validator_resources::WasmModuleResources;

impl<A: Allocator> SideTable<A> {
    /// Adds an entry of a branch to each of so many labels that are next, where there were so many
    /// operands for it. Says no where memory is refused.
    #[inline(never)]
    #[tactic(auto, using(crate::proofs::LabelNotes::adds))]
    fn add_labels<'a, T: WasmModuleResources, B: Allocator>(
        &mut self,
        validator: &FuncValidator<T, B>,
        reader: &mut BinaryReader<'a>,
        many: u32,
        at: u32,
        count: u32,
    ) -> bool
        ensures same { SameInput reader.old reader.new }
        ensures added { result ≡ true → AreBranchedTo (T.context validator.now.resources)
            (typed_state validator.now.validator) at count many (rest reader.old)
            (rest reader.new) (shown self.old) (shown self.new) }
    {
        let mut ahead = *reader;
        let mut left = many;
        'labels: while left > 0 {
            let Some(label) = ahead.next_var_u32() else {
                return false;
            };
            if !self.add_to(validator, at, label, count) {
                return false;
            }
            left -= 1;
        }
        reader.go_on_from(&ahead);
        true
    }

    /// Notes the branches of a `br_table` whose labels are next, where there were so many operands.
    /// Says no where memory is refused.
    #[inline(always)]
    #[tactic(auto, using(crate::proofs::LabelNotes::tables))]
    fn note_labels<'a, T: WasmModuleResources, B: Allocator>(
        &mut self,
        validator: &FuncValidator<T, B>,
        labels: BinaryReader<'a>,
        at: u32,
        count: u32,
    ) -> bool
        ensures { result ≡ true → IsBranchedByTable (T.context validator.now.resources)
            (typed_state validator.now.validator) at (count - 1) (rest labels.entry)
            (shown self.old) (shown self.new) }
    {
        let count = count.saturating_sub(1);
        let mut ahead = labels;
        let Some(many) = ahead.next_var_u32() else {
            return false;
        };
        if !self.add_labels(validator, &mut ahead, many, at, count) {
            return false;
        }
        self.add_labels(validator, &mut ahead, 1, at, count)
    }

    /// Lets the validator take the step of the next operator at this offset, and notes its branches,
    /// if it is a `br_table` whose step is a fast one.
    #[inline(never)]
    #[tactic(auto, using(crate::proofs::LabelNotes::leads))]
    pub(crate) fn read_table<'a, T: WasmModuleResources, B: Allocator>(
        &mut self,
        validator: &mut FuncValidator<T, B>,
        reader: &mut BinaryReader<'a>,
        at: u32,
    ) -> Taken
        requires failed { validator.old.validator.failed ≡ false }
        requires at { at ≡ place_of_next reader.old }
        ensures advances { result ≡ Taken.Yes → Advances
            (world (T.context validator.old.resources))
            (within validator.old.validator (T.context validator.old.resources))
            (typed_state validator.old.validator) (shown self.old) (place_of_next reader.old)
            (rest reader.old) (typed_state validator.new.validator) (shown self.new)
            (place_of_next reader.new) (rest reader.new) }
        ensures took { result ≡ Taken.Yes → stepped (T.context validator.old.resources)
            validator.old.validator.stacks reader.old
            ≡ Some (typed_state validator.new.validator, rest reader.new) }
        ensures further { result ≡ Taken.Yes → position_in reader.old < position_in reader.new }
        ensures table { result ≡ Taken.No → shown self.new ≡ shown self.old }
        ensures unread { result ≡ Taken.No → reader.new ≡ reader.old }
        ensures left { result ≡ Taken.No
            → typed_state validator.new.validator ≡ typed_state validator.old.validator }
        ensures going { validator.new.validator.failed ≡ false }
        ensures kept { Kept validator.old.validator.stacks validator.new.validator.stacks }
        ensures resources { validator.new.resources ≡ validator.old.resources }
        ensures index { validator.new.index ≡ validator.old.index }
        ensures input { SameInput reader.old reader.new }
    {
        let mut labels = *reader;
        let Some(opcode) = labels.next_u8() else {
            return Taken::No;
        };
        if opcode != 0x0e {
            return Taken::No;
        }
        let Some(count) = count_operands(validator) else {
            return Taken::No;
        };
        match validator.other_op(reader) {
            Ok(()) => {}
            Err(_) => return Taken::No,
        }
        if self.note_labels(validator, labels, at, count) {
            Taken::Yes
        } else {
            Taken::NoMemory
        }
    }
}
