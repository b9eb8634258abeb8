use crate::row::parse_bytes;
use rows_files::{Difference, Trouble};
use std::alloc::Global;
use std::fmt::Write;
use wasm_operators::{Operator, read_operator};
use wasm_readers::BinaryReader;

/// What the row of a single operator begins with.
pub const OPERATOR: &str = "operator ";

/// The answer that is wanted of an operator with a list, which doesn't print its items.
const LISTED: &str = "read";

/// The answer to the row of a single operator, where it isn't right.
pub fn judge_operator<'a>(alloc: Global, row: &'a str) -> Result<Option<Difference<'a>>, Trouble> {
    let Some((digits, wanted)) = row.split_once(" | ") else {
        return Err(Trouble::Malformed("an operator without a wanted answer"));
    };
    let mut bytes = parse_bytes(alloc, digits.trim())?;
    let wanted = wanted.trim();
    let mut given = String::new(alloc);
    push_operator(&mut given, &mut bytes, wanted == LISTED)?;
    if given.as_str() == wanted {
        return Ok(None);
    }
    Ok(Some(Difference { wanted, given }))
}

/// Adds the operator as it prints itself, or `read` for one with a list, and what else is to be
/// said if these bytes aren't those that it takes; or `refused`.
fn push_operator(text: &mut String, bytes: &mut Vec<u8>, is_listed: bool) -> Result<(), Trouble> {
    match first(bytes.as_slice()) {
        Some(_) if is_listed => text.push_str(LISTED)?,
        Some(op) => write!(text, "{op:?}")?,
        None => return Ok(text.push_str("refused")?),
    }
    let size = bytes.len();
    bytes.push(0xff)?;
    if taken(bytes.as_slice()) != Some(size as u64) {
        text.push_str(" of another size")?;
    }
    if !has_no_front(bytes.as_slice(), size) {
        text.push_str(" behind a smaller one")?;
    }
    Ok(())
}

/// The first operator, if one is read.
fn first(bytes: &[u8]) -> Option<Operator<'_>> {
    read_operator(&mut BinaryReader::new(bytes, 0)).ok()
}

/// How many bytes the first operator takes, if one is read.
fn taken(bytes: &[u8]) -> Option<u64> {
    let mut reader = BinaryReader::new(bytes, 0);
    match read_operator(&mut reader) {
        Ok(_) => Some(reader.original_position()),
        Err(_) => None,
    }
}

/// Whether no operator stands in the first bytes, fewer than this many.
fn has_no_front(bytes: &[u8], size: usize) -> bool {
    (0..size).all(|size| match bytes.get(..size) {
        Some(front) => taken(front).is_none(),
        None => false,
    })
}
