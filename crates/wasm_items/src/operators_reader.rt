//! Operators, read one after another.

ghost use Rattle.std.specs.Prelude.{◌≡◌, ◌≤◌, ◌<◌, ◌==◌, length, Some, None, false, IfOk, IfErr, OnOk, OnErr};
ghost use Rattle.wasm_readers.specs.WasmReadersBytes.Reader.{SameInput, position_in, rest, RefusedFrom, place_of_next};
ghost use Rattle.wasm_readers.specs.WrittenIndices.{written};
ghost use Rattle.wasm_operators.specs.Instructions.{instruction_at};
ghost use Rattle.wasm_operators.specs.SeenOperators.{operator_of};
ghost use Rattle.wasm_items.specs.SeenReaders.{operators_left, operators_to_come, operators_done};

use wasm_operators::{Operator, read_operator};
use wasm_readers::BinaryReader;
use wasm_readers::readers_errors::Refusal;

/// The operators that the bytes encode one after another. How they nest isn't checked: the last
/// `end` of an expression or a body is an operator like the others.
#[derive(Clone, Copy, Debug)]
pub struct OperatorsReader<'a> {
    reader: BinaryReader<'a>,
}

impl<'a> OperatorsReader<'a> {
    /// The operators that are left in this reader.
    pub fn new(reader: BinaryReader<'a>) -> OperatorsReader<'a>
        ensures { operators_left result ≡ reader.entry }
    {
        OperatorsReader { reader }
    }

    /// Whether no bytes are left.
    pub fn eof(&self) -> bool
        ensures { result ≡ (length (rest (operators_left self.now)) == 0) }
    {
        self.reader.eof()
    }

    /// The offset of the next operator.
    pub fn original_position(&self) -> u64
        ensures { result ≡ place_of_next (operators_left self.now) }
    {
        self.reader.original_position()
    }

    /// The bytes that are left.
    pub fn get_binary_reader(&self) -> BinaryReader<'a>
        ensures { result ≡ operators_left self.now }
    {
        self.reader
    }

    /// The next operator.
    ///
    /// # Errors
    ///
    /// Refused where the bytes encode none, as where none are left.
    pub fn read(&mut self) -> Result<Operator<'a>, Refusal>
        ensures same { SameInput (operators_left self.old) (operators_left self.new) }
        ensures onward { position_in (operators_left self.old) ≤ position_in
            (operators_left self.new) }
        ensures refusal { IfErr result (RefusedFrom (operators_left self.old)) }
        ensures ok { IfOk result (λ op. instruction_at written (rest (operators_left self.old))
            ≡ Some (operator_of op, rest (operators_left self.new))) }
        ensures further { OnOk result (position_in (operators_left self.old) < position_in
            (operators_left self.new)) }
        ensures err { OnErr result (instruction_at written (rest (operators_left self.old))
            ≡ None) }
    {
        read_operator(&mut self.reader)
    }

    /// The next operator with its offset.
    ///
    /// # Errors
    ///
    /// Refused where the bytes encode none, as where none are left.
    pub fn read_with_offset(&mut self) -> Result<(Operator<'a>, u64), Refusal>
        ensures same { SameInput (operators_left self.old) (operators_left self.new) }
        ensures onward { position_in (operators_left self.old) ≤ position_in
            (operators_left self.new) }
        ensures refusal { IfErr result (RefusedFrom (operators_left self.old)) }
        ensures ok { IfOk result (λ x. instruction_at written (rest (operators_left self.old))
            ≡ Some (operator_of x.0, rest (operators_left self.new))) }
        ensures place { IfOk result (λ x. x.1 ≡ place_of_next (operators_left self.old)) }
        ensures further { OnOk result (position_in (operators_left self.old) < position_in
            (operators_left self.new)) }
        ensures err { OnErr result (instruction_at written (rest (operators_left self.old))
            ≡ None) }
    {
        let offset = self.original_position();
        let operator = self.read()?;
        Ok((operator, offset))
    }

    /// The operators, each with its offset, up to the end of the bytes or the first refusal.
    pub fn into_iter_with_offsets(self) -> OperatorsIterator<'a>
        ensures left { operators_to_come result ≡ operators_left self.entry }
        ensures going { operators_done result ≡ false }
    {
        OperatorsIterator {
            operators: self,
            done: false,
        }
    }
}

/// The operators that are still to come, each with its offset.
#[derive(Clone, Copy, Debug)]
pub struct OperatorsIterator<'a> {
    operators: OperatorsReader<'a>,
    done: bool,
}

impl<'a> Iterator for OperatorsIterator<'a> {
    type Item = Result<(Operator<'a>, u64), Refusal>;

    ghost use Rattle.std.specs.Iterator.{at_most};
    ghost use Rattle.wasm_items.specs.SeenReaders.{OperatorGives, most_operators};

    ghost can_next = { λ _. Unit {0} };

    ghost next_gives = { λ s r t. OperatorGives (operators_done s) (operators_to_come s) r
        (operators_done t) (operators_to_come t) };

    ghost remaining = { λ s. at_most (most_operators s) };

    #[tactic(auto, using(crate::proofs::Remainders::shorter))]
    fn next(&mut self) -> Option<Result<(Operator<'a>, u64), Refusal>> {
        if self.done || self.operators.eof() {
            return None;
        }
        match self.operators.read_with_offset() {
            Ok(operator) => Some(Ok(operator)),
            Err(refusal) => {
                self.done = true;
                Some(Err(refusal))
            }
        }
    }
}
