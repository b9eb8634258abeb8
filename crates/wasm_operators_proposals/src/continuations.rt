//! Operators on continuations (the stack-switching proposal).

ghost use Rattle.std.specs.Prelude.{◌≡◌, ◌≤◌, ◌+◌, Some, None, IfOk, IfErr, OnErr};
ghost use Rattle.wasm_operators_plain.specs.WasmReaders.WasmReadersBytes.Reader.{SameInput, position_in, original, rest, RefusedFrom};
ghost use Rattle.wasm_operators_plain.specs.Refusals.{RefusedBetween};
ghost use Rattle.wasm_operators_proposals.specs.Continuations.{continuation_from, handle_at, handles_at};
ghost use Rattle.wasm_operators_proposals.specs.SeenContinuations.{continuation_of, handles_of};

use crate::lists::{Immediate, Listed, read_listed};
use wasm_operators_plain::readers::BinaryReader;
use wasm_operators_plain::readers_errors::{Fault, Malformed, Refusal};
use wasm_operators_plain::unknown_opcode;

/// What becomes of a suspension while a continuation runs, by its tag (the stack-switching proposal,
/// Binary Format).
#[derive(Clone, Copy, PartialEq, Eq, Debug)]
pub enum Handle {
    /// A suspension by this tag branches to the label, with what it gives and its continuation.
    OnLabel { tag: u32, label: u32 },
    /// A switch by this tag is allowed.
    OnSwitch { tag: u32 },
}

/// The handlers of an operator that resumes a continuation.
#[derive(Clone, Copy, Debug)]
pub struct ResumeTable<'a> {
    /// The handlers in order.
    pub handlers: Listed<'a, Handle>,
}

/// Operators on continuations (the stack-switching proposal, Binary Format). Validation asks for
/// `STACK_SWITCHING_OPERATORS` and `STACK_SWITCHING`.
#[derive(Clone, Copy, Debug)]
pub enum ContinuationOperator<'a> {
    /// A continuation that calls a function.
    ContNew {
        cont_type_index: u32,
    },
    /// A continuation with its first arguments.
    ContBind {
        argument_index: u32,
        result_index: u32,
    },
    /// Gives values to the handler of a tag, and waits.
    Suspend {
        tag_index: u32,
    },
    /// Runs a continuation on from where it waits.
    Resume {
        cont_type_index: u32,
        resume_table: ResumeTable<'a>,
    },
    /// The same by an exception of this tag, which is thrown there.
    ResumeThrow {
        cont_type_index: u32,
        tag_index: u32,
        resume_table: ResumeTable<'a>,
    },
    /// The same by a reference to an exception.
    ResumeThrowRef {
        cont_type_index: u32,
        resume_table: ResumeTable<'a>,
    },
    /// Waits, and runs another continuation in its own place.
    Switch {
        cont_type_index: u32,
        tag_index: u32,
    },
}

impl<'a> ContinuationOperator<'a> {
    ghost use Rattle.std.specs.Prelude.{◌≡◌};
    ghost use Rattle.wasm_operators_proposals.specs.Continuations.{continuation_opcode};
    ghost use Rattle.wasm_operators_proposals.specs.SeenContinuations.{continuation_of};

    /// The opcode, a byte.
    pub fn opcode(self) -> u8
        ensures { result ≡ continuation_opcode (continuation_of self.entry) }
    {
        match self {
            ContinuationOperator::ContNew { .. } => 0xe0,
            ContinuationOperator::ContBind { .. } => 0xe1,
            ContinuationOperator::Suspend { .. } => 0xe2,
            ContinuationOperator::Resume { .. } => 0xe3,
            ContinuationOperator::ResumeThrow { .. } => 0xe4,
            ContinuationOperator::ResumeThrowRef { .. } => 0xe5,
            ContinuationOperator::Switch { .. } => 0xe6,
        }
    }
}

impl<'a> Immediate<'a> for Handle {
    ghost use Rattle.wasm_operators_proposals.specs.declared.continuations.Handle.{Handle};

    ghost Value = { Handle };

    ghost encoded = { handle_at };

    ghost value = { λ h. h };

    #[tactic(auto, unfolding(crate::specs::Continuations::handle_at))]
    fn read(reader: &mut BinaryReader<'a>) -> Result<Handle, Refusal> {
        let offset = reader.original_position();
        match reader.read_u8()? {
            0 => Ok(Handle::OnLabel {
                tag: reader.read_var_u32()?,
                label: reader.read_var_u32()?,
            }),
            1 => Ok(Handle::OnSwitch {
                tag: reader.read_var_u32()?,
            }),
            _ => Err(Refusal::new(Fault::Malformed(Malformed::HandleKind), offset)),
        }
    }
}

/// The handlers of an operator that resumes a continuation.
#[tactic(auto, unfolding(crate::specs::Continuations::handles_at))]
fn read_handles<'a>(reader: &mut BinaryReader<'a>) -> Result<ResumeTable<'a>, Refusal>
    ensures same { SameInput reader.old reader.new }
    ensures onward { position_in reader.old ≤ position_in reader.new }
    ensures refusal { IfErr result (RefusedFrom reader.old) }
    ensures ok { IfOk result (λ t. handles_at (rest reader.old)
        ≡ Some (handles_of t, rest reader.new)) }
    ensures err { OnErr result (handles_at (rest reader.old) ≡ None) }
{
    let handlers = read_listed(reader)?;
    Ok(ResumeTable { handlers })
}

/// The operator on continuations of this opcode, which stood at this offset.
#[tactic(auto, unfolding(crate::specs::Continuations::continuation_from))]
pub fn read_continuation<'a>(
    reader: &mut BinaryReader<'a>,
    opcode: u8,
    offset: u64,
) -> Result<ContinuationOperator<'a>, Refusal>
    requires { offset ≤ original reader.old + position_in reader.old }
    ensures same { SameInput reader.old reader.new }
    ensures onward { position_in reader.old ≤ position_in reader.new }
    ensures refusal { IfErr result (RefusedBetween offset reader.old) }
    ensures ok { IfOk result (λ op. continuation_from opcode (rest reader.old)
        ≡ Some (continuation_of op, rest reader.new)) }
    ensures err { OnErr result (continuation_from opcode (rest reader.old) ≡ None) }
{
    match opcode {
        0xe0 => Ok(ContinuationOperator::ContNew {
            cont_type_index: reader.read_var_u32()?,
        }),
        0xe1 => Ok(ContinuationOperator::ContBind {
            argument_index: reader.read_var_u32()?,
            result_index: reader.read_var_u32()?,
        }),
        0xe2 => Ok(ContinuationOperator::Suspend {
            tag_index: reader.read_var_u32()?,
        }),
        0xe3 => Ok(ContinuationOperator::Resume {
            cont_type_index: reader.read_var_u32()?,
            resume_table: read_handles(reader)?,
        }),
        0xe4 => Ok(ContinuationOperator::ResumeThrow {
            cont_type_index: reader.read_var_u32()?,
            tag_index: reader.read_var_u32()?,
            resume_table: read_handles(reader)?,
        }),
        0xe5 => Ok(ContinuationOperator::ResumeThrowRef {
            cont_type_index: reader.read_var_u32()?,
            resume_table: read_handles(reader)?,
        }),
        0xe6 => Ok(ContinuationOperator::Switch {
            cont_type_index: reader.read_var_u32()?,
            tag_index: reader.read_var_u32()?,
        }),
        _ => Err(unknown_opcode(opcode, offset)),
    }
}
