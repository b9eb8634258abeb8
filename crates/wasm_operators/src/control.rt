//! Control operators, calls aside, and parametric operators.

ghost use Rattle.std.specs.Prelude.{◌≡◌, ◌≤◌, ◌<◌, ◌+◌, Some, None, IfOk, IfErr, OnOk, OnErr};
ghost use Rattle.wasm_operators_proposals.specs.WasmOperatorsPlain.WasmReaders.WasmReadersBytes.Reader.{SameInput, position_in, original, rest, RefusedFrom};
ghost use Rattle.wasm_operators_proposals.specs.WasmOperatorsPlain.WasmReaders.WrittenIndices.{written};
ghost use Rattle.wasm_operators_proposals.specs.WasmOperatorsPlain.Refusals.{RefusedBetween};
ghost use Rattle.wasm_operators.specs.Control.{block_at, catch_at, br_table_at, try_table_at, control_from, parametric_from};
ghost use Rattle.wasm_operators.specs.SeenControl.{block_of, labels_of, catches_of, control_of, parametric_of};

use wasm_operators_proposals::operators_plain::readers::BinaryReader;
use wasm_operators_proposals::operators_plain::readers::types::read_val_type;
use wasm_operators_proposals::operators_plain::readers_errors::{Fault, Malformed, Refusal};
use wasm_operators_proposals::operators_plain::readers_types::ValType;
use wasm_operators_proposals::operators_plain::unknown_opcode;
use wasm_operators_proposals::{Immediate, Listed, read_listed};

/// The type of a block (Core Specification 3.0, Binary Format, Instructions, Control Instructions).
#[derive(Clone, Copy, PartialEq, Eq, Debug)]
pub enum BlockType {
    /// It takes and gives nothing.
    Empty,
    /// It takes nothing and gives one value.
    Value(ValType),
    /// It takes and gives what the function type of this index does.
    FuncType(u32),
}

/// The kinds of blocks.
#[derive(Clone, Copy, PartialEq, Eq, Debug)]
pub enum FrameKind {
    /// A `block`, and a function's body.
    Block,
    /// An `if` before its `else`.
    If,
    /// An `if` behind its `else`.
    Else,
    /// A `loop`.
    Loop,
    /// A `try_table`.
    TryTable,
    /// A `try` before its first `catch` or `catch_all`.
    LegacyTry,
    /// A `try` behind a `catch`.
    LegacyCatch,
    /// A `try` behind its `catch_all`.
    LegacyCatchAll,
}

/// A catch clause of `try_table` (Core Specification 3.0, Binary Format, Instructions, Control
/// Instructions).
#[derive(Clone, Copy, PartialEq, Eq, Debug)]
pub enum Catch {
    /// Exceptions of this tag.
    One { tag: u32, label: u32 },
    /// Exceptions of this tag, with a reference to them.
    OneRef { tag: u32, label: u32 },
    /// Every exception.
    All { label: u32 },
    /// Every exception, with a reference to it.
    AllRef { label: u32 },
}

/// What `br_table` branches to.
#[derive(Clone, Copy, Debug)]
pub struct BrTable<'a> {
    /// The labels by number.
    pub targets: Listed<'a, u32>,
    /// The label for every number past them.
    pub default: u32,
}

/// The block type and the catch clauses of `try_table`.
#[derive(Clone, Copy, Debug)]
pub struct TryTable<'a> {
    /// The type of the block.
    pub ty: BlockType,
    /// The catch clauses in order.
    pub catches: Listed<'a, Catch>,
}

/// Control operators, calls aside (Core Specification 3.0, Binary Format, Instructions, Control
/// Instructions).
#[derive(Clone, Copy, Debug)]
pub enum ControlOperator<'a> {
    Unreachable,
    Nop,
    Block { blockty: BlockType },
    Loop { blockty: BlockType },
    If { blockty: BlockType },
    Else,
    TryTable { try_table: TryTable<'a> },
    Throw { tag_index: u32 },
    ThrowRef,
    End,
    Br { relative_depth: u32 },
    BrIf { relative_depth: u32 },
    BrTable { targets: BrTable<'a> },
    Return,
}

/// Parametric operators (Core Specification 3.0, Binary Format, Instructions, Parametric
/// Instructions).
#[derive(Clone, Copy, Debug)]
pub enum ParametricOperator<'a> {
    Drop,
    Select,
    /// A `select` with its types. Validation asks for one.
    TypedSelect { tys: Listed<'a, ValType> },
}

impl<'a> Immediate<'a> for Catch {
    ghost use Rattle.wasm_operators.specs.declared.control.Catch.{Catch};

    ghost Value = { Catch };

    ghost encoded = { catch_at };

    ghost value = { λ c. c };

    #[tactic(auto, unfolding(crate::specs::Control::catch_at))]
    fn read(reader: &mut BinaryReader<'a>) -> Result<Catch, Refusal> {
        let offset = reader.original_position();
        match reader.read_u8()? {
            0 => Ok(Catch::One {
                tag: reader.read_var_u32()?,
                label: reader.read_var_u32()?,
            }),
            1 => Ok(Catch::OneRef {
                tag: reader.read_var_u32()?,
                label: reader.read_var_u32()?,
            }),
            2 => Ok(Catch::All {
                label: reader.read_var_u32()?,
            }),
            3 => Ok(Catch::AllRef {
                label: reader.read_var_u32()?,
            }),
            _ => Err(Refusal::new(Fault::Malformed(Malformed::CatchKind), offset)),
        }
    }
}

/// A block type.
#[inline(always)]
#[tactic(auto, unfolding(crate::specs::Control::block_at))]
pub fn read_block_type(reader: &mut BinaryReader) -> Result<BlockType, Refusal>
    ensures same { SameInput reader.old reader.new }
    ensures onward { position_in reader.old ≤ position_in reader.new }
    ensures refusal { IfErr result (RefusedFrom reader.old) }
    ensures ok { IfOk result (λ b. block_at written (rest reader.old)
        ≡ Some (block_of b, rest reader.new)) }
    ensures further { OnOk result (position_in reader.old < position_in reader.new) }
    ensures err { OnErr result (block_at written (rest reader.old) ≡ None) }
{
    let start = *reader;
    let byte = reader.read_u8()?;
    if byte == 0x40 {
        return Ok(BlockType::Empty);
    }
    *reader = start;
    if 0x40 <= byte && byte < 0x80 {
        Ok(BlockType::Value(read_val_type(reader)?))
    } else {
        Ok(BlockType::FuncType(reader.read_var_s33_index()?))
    }
}

/// A branch table: a list of labels, and one more.
fn read_br_table<'a>(reader: &mut BinaryReader<'a>) -> Result<BrTable<'a>, Refusal>
    ensures same { SameInput reader.old reader.new }
    ensures onward { position_in reader.old ≤ position_in reader.new }
    ensures refusal { IfErr result (RefusedFrom reader.old) }
    ensures ok { IfOk result (λ t. br_table_at (rest reader.old)
        ≡ Some (labels_of t, rest reader.new)) }
    ensures err { OnErr result (br_table_at (rest reader.old) ≡ None) }
{
    let targets = read_listed(reader)?;
    let default = reader.read_var_u32()?;
    Ok(BrTable { targets, default })
}

/// A block type and a list of catch clauses.
fn read_try_table<'a>(reader: &mut BinaryReader<'a>) -> Result<TryTable<'a>, Refusal>
    ensures same { SameInput reader.old reader.new }
    ensures onward { position_in reader.old ≤ position_in reader.new }
    ensures refusal { IfErr result (RefusedFrom reader.old) }
    ensures ok { IfOk result (λ t. try_table_at written (rest reader.old)
        ≡ Some (catches_of t, rest reader.new)) }
    ensures err { OnErr result (try_table_at written (rest reader.old) ≡ None) }
{
    let ty = read_block_type(reader)?;
    let catches = read_listed(reader)?;
    Ok(TryTable { ty, catches })
}

/// The control operator of this opcode, which stood at this offset.
#[inline(always)]
#[tactic(auto, unfolding(crate::specs::Control::control_from))]
pub(crate) fn read_control<'a>(
    reader: &mut BinaryReader<'a>,
    opcode: u8,
    offset: u64,
) -> Result<ControlOperator<'a>, Refusal>
    requires { offset ≤ original reader.old + position_in reader.old }
    ensures same { SameInput reader.old reader.new }
    ensures onward { position_in reader.old ≤ position_in reader.new }
    ensures refusal { IfErr result (RefusedBetween offset reader.old) }
    ensures ok { IfOk result (λ op. control_from written opcode (rest reader.old)
        ≡ Some (control_of op, rest reader.new)) }
    ensures err { OnErr result (control_from written opcode (rest reader.old) ≡ None) }
{
    match opcode {
        0x00 => Ok(ControlOperator::Unreachable),
        0x01 => Ok(ControlOperator::Nop),
        0x02 => Ok(ControlOperator::Block {
            blockty: read_block_type(reader)?,
        }),
        0x03 => Ok(ControlOperator::Loop {
            blockty: read_block_type(reader)?,
        }),
        0x04 => Ok(ControlOperator::If {
            blockty: read_block_type(reader)?,
        }),
        0x05 => Ok(ControlOperator::Else),
        0x08 => Ok(ControlOperator::Throw {
            tag_index: reader.read_var_u32()?,
        }),
        0x0a => Ok(ControlOperator::ThrowRef),
        0x0b => Ok(ControlOperator::End),
        0x0c => Ok(ControlOperator::Br {
            relative_depth: reader.read_var_u32()?,
        }),
        0x0d => Ok(ControlOperator::BrIf {
            relative_depth: reader.read_var_u32()?,
        }),
        0x0e => Ok(ControlOperator::BrTable {
            targets: read_br_table(reader)?,
        }),
        0x0f => Ok(ControlOperator::Return),
        0x1f => Ok(ControlOperator::TryTable {
            try_table: read_try_table(reader)?,
        }),
        _ => Err(unknown_opcode(opcode, offset)),
    }
}

/// The parametric operator of this opcode, which stood at this offset.
#[inline(always)]
#[tactic(auto, unfolding(crate::specs::Control::parametric_from))]
pub(crate) fn read_parametric<'a>(
    reader: &mut BinaryReader<'a>,
    opcode: u8,
    offset: u64,
) -> Result<ParametricOperator<'a>, Refusal>
    requires { offset ≤ original reader.old + position_in reader.old }
    ensures same { SameInput reader.old reader.new }
    ensures onward { position_in reader.old ≤ position_in reader.new }
    ensures refusal { IfErr result (RefusedBetween offset reader.old) }
    ensures ok { IfOk result (λ op. parametric_from written opcode (rest reader.old)
        ≡ Some (parametric_of op, rest reader.new)) }
    ensures err { OnErr result (parametric_from written opcode (rest reader.old) ≡ None) }
{
    match opcode {
        0x1a => Ok(ParametricOperator::Drop),
        0x1b => Ok(ParametricOperator::Select),
        0x1c => Ok(ParametricOperator::TypedSelect {
            tys: read_listed(reader)?,
        }),
        _ => Err(unknown_opcode(opcode, offset)),
    }
}
