//! Bytes of rows.

use crate::judge::Trouble;
use std::alloc::Global;

/// The bytes that these hexadecimal digits stand for.
pub fn parse_digits(alloc: Global, digits: &str) -> Result<Vec<u8>, Trouble> {
    match hex::decode(alloc, digits) {
        Ok(bytes) => Ok(bytes),
        Err(hex::FromHexError::OutOfMemory) => Err(Trouble::OutOfMemory),
        Err(_) => Err(Trouble::Malformed("bytes that aren't hexadecimal")),
    }
}
