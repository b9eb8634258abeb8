//! Operators on vectors, and atomic ones: their counts, by their forms.

ghost use Rattle.std.specs.Prelude.{◌≡◌, ◌+◌, ◌≤◌, ℕ, length};
ghost use Rattle.wasm_spec_steps.specs.Forms.{operand_types, result_types, memarg_of, addresses_in, counts_in};
ghost use Rattle.wasm_typing_arity.specs.AccessCounts.{counts_above, counts_of_access};

use wasm_operators::ImmediateValues;
use wasm_operators::operators_atomic::{Access, Form, Operands, SharedForm, ValueType};

/// How many operands these are.
fn operand_count(takes: Operands) -> u128
    ensures count { length (operand_types {R = ℕ} takes) ≡ result }
    ensures small { result ≤ 3 }
{
    match takes {
        Operands::Nothing => 0,
        Operands::One(_) => 1,
        Operands::Two(_, _) => 2,
        Operands::Three(_, _, _) => 3,
    }
}

/// How many results these are.
fn result_count(gives: Option<ValueType>) -> u128
    ensures { length (result_types {R = ℕ} gives) ≡ result }
{
    match gives {
        None => 0,
        Some(_) => 1,
    }
}

/// One for an address, where there is a memory argument.
fn address_count(values: ImmediateValues) -> u128
    ensures count { result ≡ addresses_in (memarg_of values) }
    ensures small { result ≤ 1 }
{
    match values {
        ImmediateValues::MemArg(_) | ImmediateValues::MemArgLane(_, _) => 1,
        _ => 0,
    }
}

/// How many operands an operator of this form takes, and how many it gives.
pub(crate) fn form_counts(form: Form, values: ImmediateValues) -> (u128, u128)
    ensures { result ≡ counts_in form values }
{
    match form {
        Form::Compute { takes, gives, .. } => {
            (
                address_count(values) + operand_count(takes),
                result_count(gives),
            )
        }
        Form::Access { takes, gives, .. } => {
            (
                address_count(values) + operand_count(takes),
                result_count(gives),
            )
        }
    }
}

/// How many operands an access takes above so many that say where it goes, and how many it gives.
fn counts_above(place: u128, access: Access) -> (u128, u128)
    requires { place ≤ 2 }
    ensures { result ≡ counts_above place access }
{
    match access {
        Access::Get => (place, 1),
        Access::Set => (place + 1, 0),
        Access::Compute | Access::Exchange => (place + 1, 1),
        Access::Compare => (place + 2, 1),
    }
}

/// How many operands an atomic access of this form takes, and how many it gives.
pub(crate) fn access_counts(form: SharedForm) -> (u128, u128)
    ensures { result ≡ counts_of_access form }
{
    match form {
        SharedForm::Pause => (0, 0),
        SharedForm::Global(access) => counts_above(0, access),
        SharedForm::Table(access) | SharedForm::Field(access) => counts_above(1, access),
        SharedForm::PackedField => (1, 1),
        SharedForm::Element(access) => counts_above(2, access),
        SharedForm::PackedElement => (2, 1),
    }
}
