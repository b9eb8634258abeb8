//! Operators as they stand in bytes, one by one and fast.

ghost use Rattle.std.specs.Prelude.{◌≡◌, ◌<◌, Some, true, false, is_ok, length, OnOk, OnErr};
ghost use Rattle.wasm_readers_bytes.specs.Reader.{SameInput, position_in, rest};
ghost use Rattle.wasm_spec_steps.specs.Steps.{is_finished};
ghost use Rattle.wasm_typing_validator.specs.WasmTypingStacks.BodyStacks.{Kept};
ghost use Rattle.wasm_typing_validator.specs.WasmTypingSteps.ToldSteps.{OnLeft, OnTaken, told_at};
ghost use Rattle.wasm_typing_validator.specs.BodyTyping.{typed_state};
ghost use Rattle.wasm_typing_validator.specs.StepsFromBytes.{stepped};

use crate::func_validator::FuncValidator;
use std::alloc::Allocator;
use wasm_readers::BinaryReader;
use wasm_typing_validator::{NotTaken, Told};
use wasm_validator_resources::WasmModuleResources;

impl<T: WasmModuleResources, A: Allocator> FuncValidator<T, A> {
    /// Reads the next operator and takes its step, as [`crate::read_operator`] and then
    /// [`FuncValidator::op`] do, where it is a frequent one, its operands are of known types and
    /// nothing was refused.
    ///
    /// # Errors
    ///
    /// Where that isn't done, all stays: the operator is another one, or isn't valid, or memory was
    /// refused. [`crate::read_operator`] and [`FuncValidator::op`] go on from here, and say what is
    /// wrong. A validator that has failed takes none.
    #[inline(always)]
    pub fn frequent_op<'a>(&mut self, reader: &mut BinaryReader<'a>) -> Result<(), NotTaken>
        ensures took { OnOk result (stepped (T.context self.old.resources)
            self.old.validator.stacks reader.old
            ≡ Some (typed_state self.new.validator, rest reader.new)) }
        ensures unread { OnErr result (reader.new ≡ reader.old) }
        ensures left { OnErr result (typed_state self.new.validator
            ≡ typed_state self.old.validator) }
        ensures input { SameInput reader.old reader.new }
        ensures further { OnOk result (position_in reader.old < position_in reader.new) }
        ensures kept { Kept self.old.validator.stacks self.new.validator.stacks }
        ensures same { (self.new.resources ≡ self.old.resources)
            × (self.new.index ≡ self.old.index) }
        ensures ended { self.old.validator.failed ≡ true → is_ok result ≡ false }
        ensures failed { self.new.validator.failed ≡ self.old.validator.failed }
    {
        if self.validator.has_failed() {
            return Err(NotTaken::Left);
        }
        self.validator.fast_op(&self.resources, reader)
    }

    /// As [`FuncValidator::frequent_op`], where nothing was refused.
    ///
    /// # Errors
    ///
    /// As [`FuncValidator::frequent_op`].
    #[inline(always)]
    pub fn fast_op<'a>(&mut self, reader: &mut BinaryReader<'a>) -> Result<(), NotTaken>
        requires { self.old.validator.failed ≡ false }
        ensures took { OnOk result (stepped (T.context self.old.resources)
            self.old.validator.stacks reader.old
            ≡ Some (typed_state self.new.validator, rest reader.new)) }
        ensures unread { OnErr result (reader.new ≡ reader.old) }
        ensures left { OnErr result (typed_state self.new.validator
            ≡ typed_state self.old.validator) }
        ensures input { SameInput reader.old reader.new }
        ensures further { OnOk result (position_in reader.old < position_in reader.new) }
        ensures kept { Kept self.old.validator.stacks self.new.validator.stacks }
        ensures same { (self.new.resources ≡ self.old.resources)
            × (self.new.index ≡ self.old.index) }
        ensures failed { self.new.validator.failed ≡ false }
    {
        self.validator.fast_op(&self.resources, reader)
    }

    /// As [`FuncValidator::fast_op`] of the most frequent operators alone, and tells what each does to
    /// blocks and labels, or that none was taken.
    #[inline(always)]
    pub fn told_op<'a>(&mut self, reader: &mut BinaryReader<'a>) -> Told
        requires { self.old.validator.failed ≡ false }
        ensures took { OnTaken result (stepped (T.context self.old.resources)
            self.old.validator.stacks reader.old
            ≡ Some (typed_state self.new.validator, rest reader.new)) }
        ensures unread { OnLeft result (reader.new ≡ reader.old) }
        ensures left { OnLeft result (typed_state self.new.validator
            ≡ typed_state self.old.validator) }
        ensures input { SameInput reader.old reader.new }
        ensures further { OnTaken result (position_in reader.old < position_in reader.new) }
        ensures kept { Kept self.old.validator.stacks self.new.validator.stacks }
        ensures same { (self.new.resources ≡ self.old.resources)
            × (self.new.index ≡ self.old.index) }
        ensures failed { self.new.validator.failed ≡ false }
        ensures told { OnTaken result (told_at (rest reader.old) ≡ Some result) }
    {
        self.validator.told_op(&self.resources, reader)
    }

    /// As [`FuncValidator::fast_op`] of those that [`FuncValidator::told_op`] leaves.
    ///
    /// # Errors
    ///
    /// As [`FuncValidator::frequent_op`].
    #[inline(always)]
    pub fn other_op<'a>(&mut self, reader: &mut BinaryReader<'a>) -> Result<(), NotTaken>
        requires { self.old.validator.failed ≡ false }
        ensures took { OnOk result (stepped (T.context self.old.resources)
            self.old.validator.stacks reader.old
            ≡ Some (typed_state self.new.validator, rest reader.new)) }
        ensures unread { OnErr result (reader.new ≡ reader.old) }
        ensures left { OnErr result (typed_state self.new.validator
            ≡ typed_state self.old.validator) }
        ensures input { SameInput reader.old reader.new }
        ensures further { OnOk result (position_in reader.old < position_in reader.new) }
        ensures kept { Kept self.old.validator.stacks self.new.validator.stacks }
        ensures same { (self.new.resources ≡ self.old.resources)
            × (self.new.index ≡ self.old.index) }
        ensures failed { self.new.validator.failed ≡ false }
    {
        self.validator.other_op(&self.resources, reader)
    }

    /// How many operands there are.
    #[inline(always)]
    pub fn len_operands(&self) -> usize
        ensures { result ≡ length (typed_state self.now.validator).operands }
    {
        self.validator.len_operands()
    }

    /// Whether every frame has ended.
    #[inline(always)]
    pub fn is_finished(&self) -> bool
        ensures { result ≡ is_finished (typed_state self.now.validator) }
    {
        self.validator.is_finished()
    }
}
