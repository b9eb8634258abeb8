//! What atomic accesses to globals, tables, structures and arrays reach, and what they do there.

ghost use Rattle.std.specs.Prelude.{◌≡◌};
ghost use Rattle.wasm_operators_atomic.specs.SharedForms.{shared_form_of};

use crate::shared::SharedAtomicOperator;

/// What an atomic access does with a value that is stored.
#[derive(Clone, Copy, PartialEq, Eq, Debug)]
pub enum Access {
    /// Gives it.
    Get,
    /// Stores an operand.
    Set,
    /// Stores what it computes of it and an operand, and gives the value as it was.
    Compute,
    /// Stores an operand, and gives the value as it was.
    Exchange,
    /// The same where the value is that of a further operand.
    Compare,
}

/// What an atomic access reaches, and what it does there.
#[derive(Clone, Copy, PartialEq, Eq, Debug)]
pub enum SharedForm {
    /// It reaches nothing.
    Pause,
    /// A global.
    Global(Access),
    /// An entry of a table.
    Table(Access),
    /// A field of a structure.
    Field(Access),
    /// A packed field of a structure, which is given with a sign or without.
    PackedField,
    /// An element of an array.
    Element(Access),
    /// A packed element of an array, which is given with a sign or without.
    PackedElement,
}

/// The form of an operator (Shared-Everything Threads, Validation, Instructions).
pub fn shared_form(op: SharedAtomicOperator) -> SharedForm
    ensures { result ≡ shared_form_of op }
{
    match op {
        SharedAtomicOperator::Pause => SharedForm::Pause,
        SharedAtomicOperator::GlobalAtomicGet => SharedForm::Global(Access::Get),
        SharedAtomicOperator::GlobalAtomicSet => SharedForm::Global(Access::Set),
        SharedAtomicOperator::GlobalAtomicRmwAdd
        | SharedAtomicOperator::GlobalAtomicRmwSub
        | SharedAtomicOperator::GlobalAtomicRmwAnd
        | SharedAtomicOperator::GlobalAtomicRmwOr
        | SharedAtomicOperator::GlobalAtomicRmwXor => SharedForm::Global(Access::Compute),
        SharedAtomicOperator::GlobalAtomicRmwXchg => SharedForm::Global(Access::Exchange),
        SharedAtomicOperator::GlobalAtomicRmwCmpxchg => SharedForm::Global(Access::Compare),
        SharedAtomicOperator::TableAtomicGet => SharedForm::Table(Access::Get),
        SharedAtomicOperator::TableAtomicSet => SharedForm::Table(Access::Set),
        SharedAtomicOperator::TableAtomicRmwXchg => SharedForm::Table(Access::Exchange),
        SharedAtomicOperator::TableAtomicRmwCmpxchg => SharedForm::Table(Access::Compare),
        SharedAtomicOperator::StructAtomicGet => SharedForm::Field(Access::Get),
        SharedAtomicOperator::StructAtomicGetS | SharedAtomicOperator::StructAtomicGetU =>
            SharedForm::PackedField,
        SharedAtomicOperator::StructAtomicSet => SharedForm::Field(Access::Set),
        SharedAtomicOperator::StructAtomicRmwAdd
        | SharedAtomicOperator::StructAtomicRmwSub
        | SharedAtomicOperator::StructAtomicRmwAnd
        | SharedAtomicOperator::StructAtomicRmwOr
        | SharedAtomicOperator::StructAtomicRmwXor => SharedForm::Field(Access::Compute),
        SharedAtomicOperator::StructAtomicRmwXchg => SharedForm::Field(Access::Exchange),
        SharedAtomicOperator::StructAtomicRmwCmpxchg => SharedForm::Field(Access::Compare),
        SharedAtomicOperator::ArrayAtomicGet => SharedForm::Element(Access::Get),
        SharedAtomicOperator::ArrayAtomicGetS | SharedAtomicOperator::ArrayAtomicGetU =>
            SharedForm::PackedElement,
        SharedAtomicOperator::ArrayAtomicSet => SharedForm::Element(Access::Set),
        SharedAtomicOperator::ArrayAtomicRmwAdd
        | SharedAtomicOperator::ArrayAtomicRmwSub
        | SharedAtomicOperator::ArrayAtomicRmwAnd
        | SharedAtomicOperator::ArrayAtomicRmwOr
        | SharedAtomicOperator::ArrayAtomicRmwXor => SharedForm::Element(Access::Compute),
        SharedAtomicOperator::ArrayAtomicRmwXchg => SharedForm::Element(Access::Exchange),
        SharedAtomicOperator::ArrayAtomicRmwCmpxchg => SharedForm::Element(Access::Compare),
    }
}
