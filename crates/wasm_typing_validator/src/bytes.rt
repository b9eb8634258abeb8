//! Steps from bytes.

ghost use Rattle.std.specs.Prelude.{◌≡◌, ◌≤◌, ◌<◌, ◌||◌, Some, true, false, not, is_ok, IfErr, OnOk, OnErr};
ghost use Rattle.wasm_readers.specs.WrittenIndices.{written};
ghost use Rattle.wasm_readers.specs.WasmReadersBytes.Reader.{SameInput, position_in, place_of_next, rest};
ghost use Rattle.wasm_operators.specs.Instructions.{instruction_at};
ghost use Rattle.wasm_typing_families.specs.WasmTypingBlocks.WasmTypingChecks.WasmSpecRules.FeatureFlags.{features_of};
ghost use Rattle.wasm_typing_families.specs.WasmTypingBlocks.WasmTypingChecks.WasmSpecSteps.ServedInstructions.{served};
ghost use Rattle.wasm_typing_families.specs.WasmTypingBlocks.WasmTypingChecks.WasmTypingStacks.BodyStacks.{state_of, Kept};
ghost use Rattle.wasm_typing_families.specs.WasmTypingSteps.ToldSteps.{OnLeft, OnTaken, told_at};
ghost use Rattle.wasm_typing_validator.specs.BodyTyping.{typed_state};
ghost use Rattle.wasm_typing_validator.specs.TypedInstructions.{StandsIn};
ghost use Rattle.wasm_typing_validator.specs.StepsFromBytes.{ReadsStep, stepped};
ghost use Rattle.wasm_typing_validator.specs.ValidatorFailures.{EndsReading};

use crate::labels::table_step;
use crate::validator::OperatorValidator;
use std::alloc::Allocator;
use wasm_readers::BinaryReader;
use wasm_readers::readers_errors::Error;
use wasm_typing_arity::read_served;
use wasm_typing_families::seldom_step;
use wasm_typing_families::typing_blocks::typing_stacks::Stacks;
use wasm_typing_families::typing_blocks::validator_resources::WasmModuleResources;
use wasm_typing_families::typing_steps::{NotTaken, Told, told_step};

/// Reads the next operator and takes its step, where it is one that compilers write less often or
/// `br_table` to labels that take nothing. Where that isn't done all stays.
#[inline(always)]
#[tactic(auto, using(crate::proofs::UntakenSteps::tries))]
fn step_otherwise<'a, A: Allocator, T: WasmModuleResources>(
    reader: &mut BinaryReader<'a>,
    stacks: &mut Stacks<A>,
    resources: &T,
) -> Result<(), NotTaken>
    ensures input { SameInput reader.old reader.new }
    ensures further { OnOk result (position_in reader.old < position_in reader.new) }
    ensures took { OnOk result (stepped (T.context resources.now) stacks.old reader.old
        ≡ Some (state_of stacks.new, rest reader.new)) }
    ensures unread { OnErr result (reader.new ≡ reader.old) }
    ensures left { OnErr result (state_of stacks.new ≡ state_of stacks.old) }
    ensures same { Kept stacks.old stacks.new }
{
    match seldom_step(reader, stacks, resources) {
        Ok(()) => Ok(()),
        Err(NotTaken::Left) => match table_step(reader, stacks, resources) {
            Ok(()) => Ok(()),
            Err(error) => Err(error),
        },
        Err(NotTaken::OutOfMemory) => Err(NotTaken::OutOfMemory),
    }
}

impl<A: Allocator> OperatorValidator<A> {
    /// As [`OperatorValidator::frequent_op`], where nothing was refused.
    ///
    /// # Errors
    ///
    /// As [`OperatorValidator::frequent_op`].
    #[inline(always)]
    #[tactic(auto, using(crate::proofs::UntakenSteps::tries))]
    pub fn fast_op<'a, T: WasmModuleResources>(
        &mut self,
        resources: &T,
        reader: &mut BinaryReader<'a>,
    ) -> Result<(), NotTaken>
        requires { self.old.failed ≡ false }
        ensures took { OnOk result (stepped (T.context resources.now) self.old.stacks reader.old
            ≡ Some (typed_state self.new, rest reader.new)) }
        ensures unread { OnErr result (reader.new ≡ reader.old) }
        ensures left { OnErr result (typed_state self.new ≡ typed_state self.old) }
        ensures input { SameInput reader.old reader.new }
        ensures further { OnOk result (position_in reader.old < position_in reader.new) }
        ensures same { Kept self.old.stacks self.new.stacks }
        ensures failed { self.new.failed ≡ false }
    {
        match told_step(reader, &mut self.stacks, resources) {
            Told::Left => match step_otherwise(reader, &mut self.stacks, resources) {
                Ok(()) => Ok(()),
                Err(error) => Err(error),
            },
            Told::NoMemory => Err(NotTaken::OutOfMemory),
            _ => Ok(()),
        }
    }

    /// As [`OperatorValidator::fast_op`] of the most frequent operators alone, and tells what each does
    /// to blocks and labels, or that none was taken.
    #[inline(always)]
    pub fn told_op<'a, T: WasmModuleResources>(
        &mut self,
        resources: &T,
        reader: &mut BinaryReader<'a>,
    ) -> Told
        requires { self.old.failed ≡ false }
        ensures took { OnTaken result (stepped (T.context resources.now) self.old.stacks reader.old
            ≡ Some (typed_state self.new, rest reader.new)) }
        ensures unread { OnLeft result (reader.new ≡ reader.old) }
        ensures left { OnLeft result (typed_state self.new ≡ typed_state self.old) }
        ensures input { SameInput reader.old reader.new }
        ensures further { OnTaken result (position_in reader.old < position_in reader.new) }
        ensures same { Kept self.old.stacks self.new.stacks }
        ensures failed { self.new.failed ≡ false }
        ensures told { OnTaken result (told_at (rest reader.old) ≡ Some result) }
    {
        told_step(reader, &mut self.stacks, resources)
    }

    /// As [`OperatorValidator::fast_op`] of those that [`OperatorValidator::told_op`] leaves.
    ///
    /// # Errors
    ///
    /// As [`OperatorValidator::frequent_op`].
    #[inline(always)]
    pub fn other_op<'a, T: WasmModuleResources>(
        &mut self,
        resources: &T,
        reader: &mut BinaryReader<'a>,
    ) -> Result<(), NotTaken>
        requires { self.old.failed ≡ false }
        ensures took { OnOk result (stepped (T.context resources.now) self.old.stacks reader.old
            ≡ Some (typed_state self.new, rest reader.new)) }
        ensures unread { OnErr result (reader.new ≡ reader.old) }
        ensures left { OnErr result (typed_state self.new ≡ typed_state self.old) }
        ensures input { SameInput reader.old reader.new }
        ensures further { OnOk result (position_in reader.old < position_in reader.new) }
        ensures same { Kept self.old.stacks self.new.stacks }
        ensures failed { self.new.failed ≡ false }
    {
        step_otherwise(reader, &mut self.stacks, resources)
    }

    /// Reads the next operator and takes its step, where it is a frequent one, its operands are of
    /// known types and nothing was refused.
    ///
    /// # Errors
    ///
    /// Where that isn't done, all stays: [`OperatorValidator::read_op`] goes on from here, and says
    /// what is wrong.
    #[inline(always)]
    pub fn frequent_op<'a, T: WasmModuleResources>(
        &mut self,
        resources: &T,
        reader: &mut BinaryReader<'a>,
    ) -> Result<(), NotTaken>
        ensures took { OnOk result (stepped (T.context resources.now) self.old.stacks reader.old
            ≡ Some (typed_state self.new, rest reader.new)) }
        ensures unread { OnErr result (reader.new ≡ reader.old) }
        ensures left { OnErr result (typed_state self.new ≡ typed_state self.old) }
        ensures input { SameInput reader.old reader.new }
        ensures further { OnOk result (position_in reader.old < position_in reader.new) }
        ensures same { Kept self.old.stacks self.new.stacks }
        ensures going { OnOk result (self.new.failed ≡ false) }
        ensures ended { self.old.failed ≡ true → result ≡ Err NotTaken.Left }
        ensures failed { self.new.failed ≡ self.old.failed }
    {
        if self.has_failed() {
            return Err(NotTaken::Left);
        }
        self.fast_op(resources, reader)
    }

    /// Reads the next operator, and takes its step: [`read_served`] and then
    /// [`OperatorValidator::op`].
    ///
    /// # Errors
    ///
    /// Refuses bytes that aren't an operator that the features serve, and at its offset an operator
    /// that isn't valid here; and all once something was refused. Answers want of memory.
    #[cold]
    #[inline(never)]
    #[tactic(auto, using(crate::proofs::ReadingFailures::ends))]
    pub fn read_op<'a, T: WasmModuleResources>(
        &mut self,
        resources: &T,
        reader: &mut BinaryReader<'a>,
    ) -> Result<(), Error>
        ensures took { self.old.failed ≡ false → ReadsStep result
            (stepped (T.context resources.now) self.old.stacks reader.old)
            (typed_state self.new) (rest reader.new) }
        ensures ended { self.old.failed ≡ true → EndsReading result (place_of_next reader.old)
            (served (features_of self.old.stacks.features)
            (instruction_at written (rest reader.old)))
            × (typed_state self.new ≡ typed_state self.old) }
        ensures input { SameInput reader.old reader.new }
        ensures onward { position_in reader.old ≤ position_in reader.new }
        ensures further { OnOk result (position_in reader.old < position_in reader.new) }
        ensures same { Kept self.old.stacks self.new.stacks }
        ensures failed { self.new.failed ≡ (self.old.failed || not (is_ok result)) }
        ensures place { IfErr result (StandsIn reader.old) }
    {
        let offset = reader.original_position();
        let op = match read_served(reader, *self.features()) {
            Ok(op) => op,
            Err(refusal) => {
                self.fail();
                return Err(Error::Refused(refusal));
            }
        };
        match self.op(resources, &op) {
            Ok(()) => Ok(()),
            Err(error) => Err(error.at(offset)),
        }
    }
}
