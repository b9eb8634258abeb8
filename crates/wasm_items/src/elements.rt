//! Element segments.

ghost use Rattle.std.specs.Prelude.{◌≡◌, ◌≤◌, Some, None, IfOk, IfErr, OnErr};
ghost use Rattle.wasm_readers.specs.WasmReadersBytes.Reader.{SameInput, position_in, rest, RefusedFrom, place_of_next};
ghost use Rattle.wasm_readers.specs.WasmSpec.BinaryTypes.{flags_at};
ghost use Rattle.wasm_readers.specs.WasmSpec.BinarySections.{functions_with, expressions_with, element_from, element_at};
ghost use Rattle.wasm_readers.specs.WasmReadersTypes.WasmReadersValues.SeenValues.{ref_of};
ghost use Rattle.wasm_readers.specs.WrittenIndices.{written};
ghost use Rattle.wasm_operators.specs.Expressions.{expression_at};
ghost use Rattle.wasm_operators.specs.WasmOperatorsPlain.Refusals.{RefusedBetween};
ghost use Rattle.wasm_readers.specs.WasmSpec.Values.{u32_at, list_at};
ghost use Rattle.wasm_items.specs.ItemExpressions.{active_at, written_type_at};
ghost use Rattle.wasm_items.specs.SeenItems.{mode_of, element_parts_of, element_of};

use crate::const_expr::{ConstExpr, read_const_expr};
use std::alloc::Allocator;
use std::ops::Range;
use wasm_operators::{Listed, read_listed};
use wasm_readers::readers_errors::{Error, Fault, Malformed, Refusal};
use wasm_readers::types::read_ref_type;
use wasm_readers::{BinaryReader, FromReader, RefType};

/// How an element segment is used.
#[derive(Clone, Copy, Debug)]
pub enum ElementKind<'a> {
    Passive,
    /// Written into a table at the start; without an index, into table 0.
    Active {
        table_index: Option<u32>,
        offset_expr: ConstExpr<'a>,
    },
    Declared,
}

/// The items of an element segment, which have been read once.
#[derive(Clone, Copy, Debug)]
pub enum ElementItems<'a> {
    /// Functions, by their indices.
    Functions(Listed<'a, u32>),
    /// What expressions of this type give.
    Expressions(RefType, Listed<'a, ConstExpr<'a>>),
}

/// An element segment (Core Specification 3.0, Binary Format, Modules, Element Section).
#[derive(Clone, Debug, Drop)]
pub struct Element<'a> {
    pub kind: ElementKind<'a>,
    pub items: ElementItems<'a>,
    /// The offsets, from the start of the input, of the segment's first byte and of the byte after
    /// it.
    pub range: Range<u64>,
}

/// The kind of items that are indices of functions: 0.
///
/// # Errors
///
/// Refused at the next byte, where it is another kind or there is none.
#[tactic(auto, unfolding(crate::proofs::Cited::flags_at))]
pub fn read_kind(reader: &mut BinaryReader<'_>) -> Result<u8, Refusal>
    ensures same { SameInput reader.old reader.new }
    ensures onward { position_in reader.old ≤ position_in reader.new }
    ensures refusal { IfErr result (RefusedFrom reader.old) }
    ensures ok { IfOk result (λ x. flags_at 0 (rest reader.old) ≡ Some (x, rest reader.new)) }
    ensures err { OnErr result (flags_at 0 (rest reader.old) ≡ None) }
{
    let offset = reader.original_position();
    let kind = reader.read_u8()?;
    if kind > 0 {
        return Err(Refusal::new(Fault::Malformed(Malformed::ElementKind), offset));
    }
    Ok(kind)
}

/// The type of the expressions of a segment with this flag: references to functions for the flag 4,
/// and else as it is written.
///
/// # Errors
///
/// Refused where none is written and one is wanted.
pub fn read_written_type(flag: u32, reader: &mut BinaryReader<'_>) -> Result<RefType, Refusal>
    ensures same { SameInput reader.old reader.new }
    ensures onward { position_in reader.old ≤ position_in reader.new }
    ensures refusal { IfErr result (RefusedFrom reader.old) }
    ensures ok { IfOk result (λ x. written_type_at flag (rest reader.old)
        ≡ Some (ref_of x, rest reader.new)) }
    ensures err { OnErr result (written_type_at flag (rest reader.old) ≡ None) }
{
    if flag == 4 {
        Ok(RefType::FUNCREF)
    } else {
        read_ref_type(reader)
    }
}

/// An active segment's table, whose index is written or not, and its offset.
fn read_active<'a>(
    reader: &mut BinaryReader<'a>,
    has_index: bool,
) -> Result<ElementKind<'a>, Refusal>
    ensures same { SameInput reader.old reader.new }
    ensures onward { position_in reader.old ≤ position_in reader.new }
    ensures refusal { IfErr result (RefusedFrom reader.old) }
    ensures ok { IfOk result (λ k. active_at has_index (rest reader.old)
        ≡ Some (mode_of k, rest reader.new)) }
    ensures err { OnErr result (active_at has_index (rest reader.old) ≡ None) }
{
    if has_index {
        let table_index = reader.read_var_u32()?;
        let offset_expr = read_const_expr(reader)?;
        return Ok(ElementKind::Active {
            table_index: Some(table_index),
            offset_expr,
        });
    }
    let offset_expr = read_const_expr(reader)?;
    Ok(ElementKind::Active {
        table_index: None,
        offset_expr,
    })
}

/// How a segment is used, and its items.
type Parts<'a> = (ElementKind<'a>, ElementItems<'a>);

/// Functions, for a segment that is used so.
fn read_functions<'a>(
    reader: &mut BinaryReader<'a>,
    kind: ElementKind<'a>,
) -> Result<Parts<'a>, Refusal>
    ensures same { SameInput reader.old reader.new }
    ensures onward { position_in reader.old ≤ position_in reader.new }
    ensures refusal { IfErr result (RefusedFrom reader.old) }
    ensures ok { IfOk result (λ p. functions_with (expression_at written) (mode_of kind.entry)
        (rest reader.old) ≡ Some (element_parts_of p.0 p.1, rest reader.new)) }
    ensures err { OnErr result (list_at u32_at (rest reader.old) ≡ None) }
{
    let functions = read_listed::<u32>(reader)?;
    Ok((kind, ElementItems::Functions(functions)))
}

/// Expressions of this type, for a segment that is used so.
fn read_expressions<'a>(
    reader: &mut BinaryReader<'a>,
    kind: ElementKind<'a>,
    ty: RefType,
) -> Result<Parts<'a>, Refusal>
    ensures same { SameInput reader.old reader.new }
    ensures onward { position_in reader.old ≤ position_in reader.new }
    ensures refusal { IfErr result (RefusedFrom reader.old) }
    ensures ok { IfOk result (λ p. expressions_with (expression_at written) (mode_of kind.entry)
        (ref_of ty) (rest reader.old)
        ≡ Some (element_parts_of p.0 p.1, rest reader.new)) }
    ensures err { OnErr result (list_at (expression_at written) (rest reader.old) ≡ None) }
{
    let expressions = read_listed::<ConstExpr<'a>>(reader)?;
    Ok((kind, ElementItems::Expressions(ty, expressions)))
}

/// The parts of a segment with this flag, which stood at this offset: bit 0 is set in those that
/// are passive or declared, bit 1 in those that are declared or name a table, and bit 2 in those
/// with expressions.
fn read_parts<'a>(
    reader: &mut BinaryReader<'a>,
    flag: u32,
    offset: u64,
) -> Result<Parts<'a>, Refusal>
    requires { offset ≤ place_of_next reader.old }
    ensures same { SameInput reader.old reader.new }
    ensures onward { position_in reader.old ≤ position_in reader.new }
    ensures refusal { IfErr result (RefusedBetween offset reader.old) }
    ensures ok { IfOk result (λ p. element_from (expression_at written) written flag
        (rest reader.old) ≡ Some (element_parts_of p.0 p.1, rest reader.new)) }
    ensures err { OnErr result (element_from (expression_at written) written flag
        (rest reader.old) ≡ None) }
{
    match flag {
        0 => {
            let kind = read_active(reader, false)?;
            Ok(read_functions(reader, kind)?)
        }
        1 => {
            read_kind(reader)?;
            Ok(read_functions(reader, ElementKind::Passive)?)
        }
        2 => {
            let kind = read_active(reader, true)?;
            read_kind(reader)?;
            Ok(read_functions(reader, kind)?)
        }
        3 => {
            read_kind(reader)?;
            Ok(read_functions(reader, ElementKind::Declared)?)
        }
        4 => {
            let kind = read_active(reader, false)?;
            let ty = read_written_type(4, reader)?;
            Ok(read_expressions(reader, kind, ty)?)
        }
        5 => {
            let ty = read_written_type(5, reader)?;
            Ok(read_expressions(reader, ElementKind::Passive, ty)?)
        }
        6 => {
            let kind = read_active(reader, true)?;
            let ty = read_written_type(6, reader)?;
            Ok(read_expressions(reader, kind, ty)?)
        }
        7 => {
            let ty = read_written_type(7, reader)?;
            Ok(read_expressions(reader, ElementKind::Declared, ty)?)
        }
        _ => Err(Refusal::new(Fault::Malformed(Malformed::ElementFlags), offset)),
    }
}

/// Reads an element segment.
///
/// # Errors
///
/// Refused where the bytes begin with none: a flag above 7 at its first byte, and a kind of items
/// other than functions at its byte.
#[tactic(auto, unfolding(crate::proofs::Cited::element_at))]
pub fn read_element<'a>(reader: &mut BinaryReader<'a>) -> Result<Element<'a>, Refusal>
    ensures same { SameInput reader.old reader.new }
    ensures onward { position_in reader.old ≤ position_in reader.new }
    ensures refusal { IfErr result (RefusedFrom reader.old) }
    ensures ok { IfOk result (λ e. element_at (expression_at written) written (rest reader.old)
        ≡ Some (element_of e, rest reader.new)) }
    ensures start { IfOk result (λ e. e.range.start ≡ place_of_next reader.old) }
    ensures end { IfOk result (λ e. e.range.end ≡ place_of_next reader.new) }
    ensures err { OnErr result (element_at (expression_at written) written (rest reader.old)
        ≡ None) }
{
    let start = reader.original_position();
    let flag = reader.read_var_u32()?;
    let (kind, items) = read_parts(reader, flag, start)?;
    Ok(Element {
        kind,
        items,
        range: start..reader.original_position(),
    })
}

impl<'a, A: Allocator> FromReader<'a, A> for Element<'a> {
    ghost use Rattle.std.specs.Prelude.{ℕ, List};
    ghost use Rattle.wasm_readers.specs.WasmSpec.BinarySections.{Element};
    ghost use Rattle.wasm_readers.specs.WasmReadersTypes.WasmReadersValues.declared.indices.UnpackedIndex.{UnpackedIndex};

    ghost Value = { Element (List ℕ) UnpackedIndex };

    ghost encoded = { element_at (expression_at written) written };

    ghost value = { element_of };

    ghost refuses = { RefusedFrom };

    fn from_reader(_alloc: A, reader: &mut BinaryReader<'a>) -> Result<Element<'a>, Error> {
        Ok(read_element(reader)?)
    }
}
