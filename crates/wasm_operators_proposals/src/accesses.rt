//! The immediates of atomic accesses to globals, tables, structures and arrays.

ghost use Rattle.std.specs.Prelude.{◌≡◌, ◌≤◌, ◌<◌, Some, None, IfOk, IfErr, OnErr};
ghost use Rattle.wasm_operators_plain.specs.WasmReaders.WasmReadersBytes.Reader.{SameInput, position_in, rest, RefusedFrom};
ghost use Rattle.wasm_operators_proposals.specs.Accesses.{ordering_from, ordering_at, place_of, access_values_at};

use wasm_operators_atomic::SharedForm;
use wasm_operators_plain::readers::BinaryReader;
use wasm_operators_plain::readers_errors::{Fault, Malformed, Refusal};

/// How an atomic access is ordered with others (Shared-Everything Threads, Binary Format, Instructions).
#[derive(Clone, Copy, PartialEq, Eq, Debug)]
pub enum Ordering {
    /// All such accesses are in one order.
    SeqCst,
    /// What a thread wrote before it is seen behind an access that sees its value.
    AcqRel,
}

/// The immediates of an atomic access to a global, a table, a structure or an array. `pause` has
/// none: here it has the first ordering and zeros.
#[derive(Clone, Copy, PartialEq, Eq, Debug)]
pub struct AccessValues {
    pub ordering: Ordering,
    /// The index of the global, the table, the structure type or the array type.
    pub index: u32,
    /// The index of a structure's field, and otherwise zero.
    pub field_index: u32,
}

/// The ordering of this number, if there is one.
fn ordering_of(number: u32) -> Option<Ordering>
    ensures { result ≡ ordering_from number }
{
    if number == 0 {
        Some(Ordering::SeqCst)
    } else if number == 1 {
        Some(Ordering::AcqRel)
    } else {
        None
    }
}

/// An ordering.
#[tactic(auto, unfolding(crate::specs::Accesses::ordering_at))]
fn read_ordering(reader: &mut BinaryReader) -> Result<Ordering, Refusal>
    ensures same { SameInput reader.old reader.new }
    ensures onward { position_in reader.old ≤ position_in reader.new }
    ensures refusal { IfErr result (RefusedFrom reader.old) }
    ensures ok { IfOk result (λ o. ordering_at (rest reader.old) ≡ Some (o, rest reader.new)) }
    ensures err { OnErr result (ordering_at (rest reader.old) ≡ None) }
{
    let number = reader.read_var_u32()?;
    match ordering_of(number) {
        Some(ordering) => Ok(ordering),
        None => {
            let offset = reader.original_position() - 1;
            Err(Refusal::new(Fault::Malformed(Malformed::Ordering(number)), offset))
        }
    }
}

/// An ordering, an index, and a second one where there is a field.
#[tactic(auto, unfolding(crate::specs::Accesses::place_of))]
fn read_place(reader: &mut BinaryReader, has_field: bool) -> Result<AccessValues, Refusal>
    ensures same { SameInput reader.old reader.new }
    ensures onward { position_in reader.old ≤ position_in reader.new }
    ensures refusal { IfErr result (RefusedFrom reader.old) }
    ensures ok { IfOk result (λ v. place_of has_field (rest reader.old) ≡ Some (v, rest reader.new)) }
    ensures err { OnErr result (place_of has_field (rest reader.old) ≡ None) }
{
    let ordering = read_ordering(reader)?;
    let index = reader.read_var_u32()?;
    let field_index = if has_field { reader.read_var_u32()? } else { 0 };
    Ok(AccessValues {
        ordering,
        index,
        field_index,
    })
}

/// The immediates of an operator of this form.
pub fn read_access_values(
    reader: &mut BinaryReader,
    form: SharedForm,
) -> Result<AccessValues, Refusal>
    ensures same { SameInput reader.old reader.new }
    ensures onward { position_in reader.old ≤ position_in reader.new }
    ensures refusal { IfErr result (RefusedFrom reader.old) }
    ensures ok { IfOk result (λ v. access_values_at form (rest reader.old)
        ≡ Some (v, rest reader.new)) }
    ensures err { OnErr result (access_values_at form (rest reader.old) ≡ None) }
{
    match form {
        SharedForm::Pause => Ok(AccessValues {
            ordering: Ordering::SeqCst,
            index: 0,
            field_index: 0,
        }),
        SharedForm::Field(_) | SharedForm::PackedField => read_place(reader, true),
        SharedForm::Global(_)
        | SharedForm::Table(_)
        | SharedForm::Element(_)
        | SharedForm::PackedElement => read_place(reader, false),
    }
}
