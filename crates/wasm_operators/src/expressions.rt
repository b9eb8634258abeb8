//! Expressions as their bytes.

ghost use Rattle.std.specs.Prelude.{◌≡◌, ◌≤◌, ◌<◌, ◌+◌, ◌^◌, Some, None, IfOk, IfErr, OnOk, OnErr, length};
ghost use Rattle.wasm_operators_proposals.specs.WasmOperatorsPlain.WasmReaders.WasmReadersBytes.Reader.{SameInput, input, position_in, original, rest, RefusedFrom};
ghost use Rattle.wasm_operators_proposals.specs.WasmOperatorsPlain.WasmReaders.WrittenIndices.{written};
ghost use Rattle.wasm_operators.specs.Expressions.{nesting_of, depth_after, behind_expression, expression_at};
ghost use Rattle.wasm_operators.specs.SeenOperators.{operator_of};

use crate::control::ControlOperator;
use crate::legacy::LegacyOperator;
use crate::operators::{Operator, read_operator};
use wasm_operators_proposals::operators_plain::readers::BinaryReader;
use wasm_operators_proposals::operators_plain::readers_errors::Refusal;

/// Whether an operator begins a block or ends one.
#[derive(Clone, Copy, PartialEq, Eq, Debug)]
pub enum Nesting {
    /// It begins a block.
    Opens,
    /// It is the `end` of a block or of the expression.
    Closes,
    /// It is a `delegate`, which ends a block.
    Delegates,
    /// It does neither.
    Keeps,
}

/// Whether an operator begins a block or ends one.
fn nesting_of(operator: &Operator) -> Nesting
    ensures { result ≡ nesting_of (operator_of operator.now) }
{
    match operator {
        Operator::Control(op) => match op {
            ControlOperator::Block { .. }
            | ControlOperator::Loop { .. }
            | ControlOperator::If { .. }
            | ControlOperator::TryTable { .. } => Nesting::Opens,
            ControlOperator::End => Nesting::Closes,
            _ => Nesting::Keeps,
        },
        Operator::Legacy(op) => match op {
            LegacyOperator::Try { .. } => Nesting::Opens,
            LegacyOperator::Delegate { .. } => Nesting::Delegates,
            _ => Nesting::Keeps,
        },
        _ => Nesting::Keeps,
    }
}

/// The number of open blocks behind such an operator, or none where it ends the expression.
fn depth_behind(nesting: Nesting, depth: usize) -> Option<usize>
    requires { depth + 1 < 2 ^ 64 }
    ensures { result ≡ depth_after nesting depth }
{
    match nesting {
        Nesting::Opens => Some(depth + 1),
        Nesting::Closes if depth == 0 => None,
        Nesting::Closes => Some(depth - 1),
        Nesting::Delegates if depth == 0 => Some(0),
        Nesting::Delegates => Some(depth - 1),
        Nesting::Keeps => Some(depth),
    }
}

/// Operators up to the `end` that belongs to no block among them.
#[tactic(auto, unfolding(crate::specs::Expressions::behind_expression))]
fn skip_expression(reader: &mut BinaryReader) -> Result<(), Refusal>
    ensures same { SameInput reader.old reader.new }
    ensures onward { position_in reader.old ≤ position_in reader.new }
    ensures refusal { IfErr result (RefusedFrom reader.old) }
    ensures ok { OnOk result (behind_expression written (rest reader.old)
        ≡ Some (rest reader.new)) }
    ensures further { OnOk result (position_in reader.old < position_in reader.new) }
    ensures err { OnErr result (behind_expression written (rest reader.old) ≡ None) }
{
    let mut depth = 0usize;
    'operators: loop {
        let operator = read_operator(reader)?;
        match depth_behind(nesting_of(&operator), depth) {
            Some(now) => depth = now,
            None => return Ok(()),
        }
    }
}

/// An expression with its `end`, as a reader of its bytes.
#[tactic(auto, unfolding(crate::specs::Expressions::expression_at))]
pub fn read_expression<'a>(reader: &mut BinaryReader<'a>) -> Result<BinaryReader<'a>, Refusal>
    ensures same { SameInput reader.old reader.new }
    ensures onward { position_in reader.old ≤ position_in reader.new }
    ensures refusal { IfErr result (RefusedFrom reader.old) }
    ensures start { IfOk result (λ part. original part
        ≡ original reader.old + position_in reader.old) }
    ensures end { IfOk result (λ part. original part + length (input part)
        ≡ original reader.new + position_in reader.new) }
    ensures whole { IfOk result (λ part. input part ≡ rest part) }
    ensures ok { IfOk result (λ part. expression_at written (rest reader.old)
        ≡ Some (rest part, rest reader.new)) }
    ensures further { OnOk result (position_in reader.old < position_in reader.new) }
    ensures err { OnErr result (expression_at written (rest reader.old) ≡ None) }
{
    let mut start = *reader;
    skip_expression(reader)?;
    let size = reader.original_position() - start.original_position();
    start.read_reader(size as usize)
}
