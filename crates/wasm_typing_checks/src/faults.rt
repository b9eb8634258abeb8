//! Why an operator is refused.

ghost use Rattle.std.specs.Prelude.{◌≡◌};
ghost use Rattle.wasm_typing_checks.specs.declared.faults.OperatorError.TheVariants.{Refused, OutOfMemory};
ghost use Rattle.wasm_typing_checks.specs.OperatorRefusals.{is_operand, rule_of_type, index_of_type};

use std::alloc::AllocError;
use wasm_typing_stacks::operators_plain::NumberType;
use wasm_typing_stacks::{Operand, TypeWord, Word};
use wasm_validator_resources::readers_errors::{Error, Fault, OperatorRule, Refusal, Rule};

/// A rule that is broken, with a number that belongs to it, the type that is expected, and the
/// operand that is found in its place, if there is one.
#[derive(Clone, Copy)]
pub struct OperatorFault {
    /// The rule.
    pub rule: OperatorRule,
    /// The index, depth or number that the rule's text names, and 0 where it names none.
    pub number: u32,
    /// The type that is expected, where the rule is that an operand has one.
    pub expected: TypeWord,
    /// The operand that is found in its place, if there is one.
    pub found: Option<Word>,
}

/// Whether the rule is that an operand of a given type is expected.
fn is_operand(rule: OperatorRule) -> bool
    ensures { result ≡ is_operand rule }
{
    match rule {
        OperatorRule::Operand => true,
        _ => false,
    }
}

/// The rule by which an operator is refused that writes a value type, where the type is refused for
/// this fault.
fn rule_of_type(fault: Fault) -> OperatorRule
    ensures { result ≡ rule_of_type fault }
{
    match fault {
        Fault::Rule(Rule::Floats) => OperatorRule::Floats,
        Fault::Rule(Rule::Simd) => OperatorRule::Simd,
        Fault::ValueType(rule) => OperatorRule::ReferenceProposal(rule),
        Fault::UnknownType(_) => OperatorRule::UnknownType,
        _ => OperatorRule::ValueType,
    }
}

/// The type index that is told then, and 0 where the fault is of none.
fn index_of_type(fault: Fault) -> u32
    ensures { result ≡ index_of_type fault }
{
    match fault {
        Fault::UnknownType(index) => index,
        _ => 0,
    }
}

impl OperatorFault {
    ghost use Rattle.wasm_typing_checks.specs.OperatorRefusals.{TellsOperand, Tells, TellsType, IsLackOfType, rule_of_type, index_of_type};

    /// A rule with its number, and no operand.
    fn plain(rule: OperatorRule, number: u32) -> OperatorFault
        ensures rule { result.rule ≡ rule }
        ensures number { result.number ≡ number }
    {
        OperatorFault {
            rule,
            number,
            expected: TypeWord::number(NumberType::I32),
            found: None,
        }
    }

    /// A rule that has no number.
    #[inline(never)]
    pub fn new(rule: OperatorRule) -> OperatorFault {
        OperatorFault::plain(rule, 0)
    }

    /// A rule on this index.
    #[inline(never)]
    pub fn at(rule: OperatorRule, number: u32) -> OperatorFault {
        OperatorFault::plain(rule, number)
    }

    /// Why a value type may not be written: for want of a proposal, which is named, or since the
    /// module doesn't have the type of its index.
    #[inline(never)]
    #[tactic(auto, using(crate::proofs::WrittenTypes::lacks))]
    pub fn written_type(refusal: Refusal) -> OperatorFault
        ensures rule { result.rule ≡ rule_of_type refusal.fault }
        ensures index { result.number ≡ index_of_type refusal.fault }
        ensures lack { IsLackOfType refusal → TellsType refusal result }
    {
        OperatorFault::plain(rule_of_type(refusal.fault), index_of_type(refusal.fault))
    }

    /// An operand of this type is expected, and this one is found, or none.
    #[inline(never)]
    pub fn operand(expected: TypeWord, found: Option<Word>) -> OperatorFault {
        OperatorFault {
            rule: OperatorRule::Operand,
            number: 0,
            expected,
            found,
        }
    }

    /// What is told where an operand of another type is expected: both types, but where the type of
    /// the one that is found isn't known.
    fn operand_fault(&self) -> Fault
        ensures { TellsOperand self.now result }
    {
        let expected = self.expected.ty();
        match self.found {
            None => Fault::OperandType(expected, None),
            Some(word) => match word.seen() {
                Operand::Known(found) => Fault::OperandType(expected, Some(found)),
                Operand::Bottom | Operand::BottomReference | Operand::Open(_) => Fault::Operator(
                    OperatorRule::Operand,
                    0,
                ),
            },
        }
    }

    /// The refusal by the rule at this offset, a byte counted from the start of the input, with the
    /// proposal that would lift it, where one would.
    #[inline(never)]
    pub fn refusal(&self, offset: u64) -> Refusal
        ensures { Tells self.now offset result }
    {
        let fault = if is_operand(self.rule) {
            self.operand_fault()
        } else {
            Fault::Operator(self.rule, self.number)
        };
        Refusal {
            fault,
            offset,
            missing: self.rule.missing(),
        }
    }
}

/// Why a step isn't taken: for the code, or for want of memory.
#[derive(Clone, Copy)]
pub enum OperatorError {
    /// The code is refused.
    Refused(OperatorFault),
    /// Memory is refused, and nothing is said of the code.
    OutOfMemory,
}

impl OperatorError {
    ghost use Rattle.wasm_typing_checks.specs.OperatorRefusals.{TellsError};

    /// The error at this offset, a byte counted from the start of the input.
    #[inline(never)]
    pub fn at(self, offset: u64) -> Error
        ensures { TellsError self offset result }
    {
        match self {
            OperatorError::Refused(fault) => Error::Refused(fault.refusal(offset)),
            OperatorError::OutOfMemory => Error::OutOfMemory,
        }
    }
}

impl From<OperatorFault> for OperatorError {
    ghost from_gives = { λ f e. e ≡ Refused f };

    fn from(fault: OperatorFault) -> OperatorError {
        OperatorError::Refused(fault)
    }
}

impl From<AllocError> for OperatorError {
    ghost from_gives = { λ _ e. e ≡ OutOfMemory };

    fn from(_error: AllocError) -> OperatorError {
        OperatorError::OutOfMemory
    }
}
