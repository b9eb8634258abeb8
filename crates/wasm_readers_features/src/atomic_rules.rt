//! What is said of atomic accesses to globals, tables, structures and arrays, by their numbers behind
//! the prefix `0xfe` (Shared-Everything Threads, Validation, Instructions).

use std::fmt;

/// The name of the access, as messages have it: those that compute with a global share one.
fn access_name<'a>(code: u32) -> &'a str {
    match code {
        0x4f => "global.atomic.get",
        0x50 => "global.atomic.set",
        0x51..=0x55 => "global.atomic.rmw.*",
        0x56 => "global.atomic.rmw.xchg",
        0x57 => "global.atomic.rmw.cmpxchg",
        0x58 => "table.atomic.get",
        0x59 => "table.atomic.set",
        0x5a => "table.atomic.rmw.xchg",
        0x5b => "table.atomic.rmw.cmpxchg",
        _ => item_access_name(code),
    }
}

/// The same of an access to a structure or an array.
fn item_access_name<'a>(code: u32) -> &'a str {
    match code {
        0x5c => "struct.atomic.get",
        0x5f => "struct.atomic.set",
        0x60 => "struct.atomic.rmw.add",
        0x61 => "struct.atomic.rmw.sub",
        0x62 => "struct.atomic.rmw.and",
        0x63 => "struct.atomic.rmw.or",
        0x64 => "struct.atomic.rmw.xor",
        0x65 => "struct.atomic.rmw.xchg",
        0x66 => "struct.atomic.rmw.cmpxchg",
        0x67 => "array.atomic.get",
        0x6a => "array.atomic.set",
        0x6b => "array.atomic.rmw.add",
        0x6c => "array.atomic.rmw.sub",
        0x6d => "array.atomic.rmw.and",
        0x6e => "array.atomic.rmw.or",
        0x6f => "array.atomic.rmw.xor",
        0x70 => "array.atomic.rmw.xchg",
        0x71 => "array.atomic.rmw.cmpxchg",
        _ => "atomic access",
    }
}

/// The types that it allows.
fn allowed_types<'a>(code: u32) -> &'a str {
    match code {
        0x51..=0x55 | 0x60..=0x64 | 0x6b..=0x6f => "`i32` and `i64`",
        0x58..=0x5a => "subtypes of `anyref`",
        0x5b => "subtypes of `eqref`",
        0x5f | 0x6a => "`i8`, `i16`, `i32`, `i64` and subtypes of `anyref`",
        0x57 | 0x66 | 0x71 => "`i32`, `i64` and subtypes of `eqref`",
        _ => "`i32`, `i64` and subtypes of `anyref`",
    }
}

/// What is said of a type that the access of this number doesn't allow.
pub(crate) fn write_atomic_type<W: fmt::Write>(
    f: &mut fmt::Formatter<W>,
    code: u32,
) -> fmt::Result {
    let name = access_name(code);
    let types = allowed_types(code);
    write!(f, "invalid type: `{name}` only allows {types}")
}

/// What is said of an immutable global that the access of this number would write.
pub(crate) fn write_atomic_global<W: fmt::Write>(
    f: &mut fmt::Formatter<W>,
    code: u32,
) -> fmt::Result {
    let name = access_name(code);
    write!(f, "global is immutable: cannot modify it with `{name}`")
}
