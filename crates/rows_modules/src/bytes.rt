use crate::text::split_word;
use rows_files::{Trouble, parse_digits};
use std::alloc::{AllocError, Global};

/// The bytes that this text stands for: hexadecimal digits, `H` for the header of a module,
/// `(BYTES)*N` for these bytes N times, and `-` for none.
pub fn parse_bytes(alloc: Global, text: &str) -> Result<Vec<u8>, Trouble> {
    let mut bytes = Vec::new(alloc);
    if text == "-" {
        return Ok(bytes);
    }
    let mut is_first = true;
    'pieces: for piece in text.split('(') {
        if is_first {
            push_words(alloc, &mut bytes, piece)?;
        } else {
            push_repeated(alloc, &mut bytes, piece)?;
        }
        is_first = false;
    }
    Ok(bytes)
}

/// Adds `BYTES)*N MORE` to the bytes: N times those before the parenthesis, and once those behind
/// the number.
fn push_repeated(alloc: Global, bytes: &mut Vec<u8>, piece: &str) -> Result<(), Trouble> {
    let Some((inner, rest)) = piece.split_once(")*") else {
        return Err(Trouble::Malformed("a parenthesis without a number of times"));
    };
    let (number, more) = split_word(rest);
    let Ok(count) = number.parse::<u32>() else {
        return Err(Trouble::Malformed("a number of times that isn't one"));
    };
    let mut repeated = Vec::new(alloc);
    push_words(alloc, &mut repeated, inner)?;
    push_times(bytes, repeated.as_slice(), count)?;
    push_words(alloc, bytes, more)
}

fn push_times(bytes: &mut Vec<u8>, repeated: &[u8], count: u32) -> Result<(), AllocError> {
    'times: for _ in 0..count {
        bytes.extend_from_slice(repeated)?;
    }
    Ok(())
}

/// Adds the bytes of these words, each of hexadecimal digits that may follow `H`.
fn push_words(alloc: Global, bytes: &mut Vec<u8>, text: &str) -> Result<(), Trouble> {
    'words: for word in text.split_whitespace() {
        match word.strip_prefix('H') {
            Some(digits) => {
                bytes.extend_from_slice(b"\0asm\x01\0\0\0")?;
                push_digits(alloc, bytes, digits)?;
            }
            None => push_digits(alloc, bytes, word)?,
        }
    }
    Ok(())
}

fn push_digits(alloc: Global, bytes: &mut Vec<u8>, digits: &str) -> Result<(), Trouble> {
    let more = parse_digits(alloc, digits)?;
    bytes.extend_from_slice(more.as_slice())?;
    Ok(())
}
