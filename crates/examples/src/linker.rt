//! A linker of two modules: each import of one is looked up among the exports of the other by its
//! own name, whatever its module's name is, and linked where the type of what is found matches the
//! type that is asked for (Core Specification 3.0, Validation, Matching, External Types).

use crate::refusals::print_refusal;
use std::alloc::Allocator;
use std::io;
use wasm_validator::{EntityType, Error, TypeList, Types, Validator, ValidatorId};

/// A module that exports one item of each kind: the function `f`, of type `[i32] -> []`; the table
/// `t`, of 2 entries; the memory `m`, of 1 to 3 pages; the global `g`, which can be written; and the
/// tag `e`, of the type of `f`.
const EXPORTER: &[u8] =
    b"\0asm\x01\0\0\0\x01\x05\x01\x60\x01\x7f\0\x03\x02\x01\0\x04\x04\x01\x70\0\x02\x05\x04\
\x01\x01\x01\x03\x0d\x03\x01\0\0\x06\x06\x01\x7f\x01\x41\0\x0b\x07\x15\x05\x01f\0\0\x01t\
\x01\0\x01m\x02\0\x01g\x03\0\x01e\x04\0\x0a\x04\x01\x02\0\x0b";
/// A module that imports two items of each kind from `m`, of which only the first fits, or for a tag
/// one that fits; and the function `h`, which isn't there. Its second type is `[i32] -> []`.
const IMPORTER: &[u8] =
    b"\0asm\x01\0\0\0\x01\x08\x02\x60\0\0\x60\x01\x7f\0\x02\x48\x0a\x01m\x01f\0\x01\x01m\x01f\
\0\0\x01m\x01t\x01\x70\0\x01\x01m\x01t\x01\x6f\0\x01\x01m\x01m\x02\x01\x01\x04\x01m\x01m\
\x02\x01\x01\x02\x01m\x01g\x03\x7f\x01\x01m\x01g\x03\x7f\0\x01m\x01e\x04\0\x01\x01m\x01h\
\0\0";

/// The type of what the module exports under this name, if it exports anything so.
fn exported<A: Allocator + Copy>(types: &Types<A>, wanted: &str) -> Option<EntityType> {
    'exports: for (name, entity) in types.as_ref().core_exports()? {
        if name == wanted {
            return Some(entity);
        }
    }
    None
}

/// Whether what has one type may be linked to an import that asks for the other: the list has all
/// types that both name, and the first matches the second.
fn may_be_linked<A: Allocator + Copy>(
    list: &TypeList<A>,
    given: EntityType,
    asked: EntityType,
) -> bool {
    list.holds_entity(given) && list.holds_entity(asked) && list.entity_is_subtype(given, asked)
}

/// Prints of each import of one module what the other one exports under its name, and whether this
/// may be linked to it. The list of the module that was checked last has the types of both.
fn print_links<A: Allocator + Copy, R: Print>(
    rt: &R,
    exporter: &Types<A>,
    importer: &Types<A>,
) -> io::Result<()> {
    let shown = importer.as_ref();
    let imports = match shown.core_imports() {
        Some(imports) => imports,
        None => return Ok(()),
    };
    'imports: for (_, name, asked) in imports {
        let given = exported(exporter, name);
        print_link(rt, shown.type_list(), name, asked, given)?;
    }
    Ok(())
}

/// Prints what an import of this name and type is linked to, where it may be linked to what is
/// exported.
fn print_link<A: Allocator + Copy, R: Print>(
    rt: &R,
    list: &TypeList<A>,
    name: &str,
    asked: EntityType,
    given: Option<EntityType>,
) -> io::Result<()> {
    let wanted = list.display(asked);
    let Some(given) = given else {
        return println!(rt; "{name} {wanted}: not exported");
    };
    let linked = if may_be_linked(list, given, asked) {
        "linked"
    } else {
        "not linked"
    };
    let found = list.display(given);
    println!(rt; "{name} {wanted}: {linked} to {found}")
}

/// Checks both modules by one validator, so that one list has the types of both.
fn check<A: Allocator + Copy>(alloc: A) -> Result<(Types<A>, Types<A>), Error<A>> {
    let mut validator = Validator::new(alloc, ValidatorId::from_number(0));
    let exporter = validator.validate_all(EXPORTER)?;
    if validator.can_reset() {
        validator.reset();
    }
    let importer = validator.validate_all(IMPORTER)?;
    Ok((exporter, importer))
}

/// Prints what of one module may be linked to the imports of another.
pub fn run<R: Print + AllocGlobal>(rt: &R) -> io::Result<()> {
    match check(rt.alloc()) {
        Ok((exporter, importer)) => print_links(rt, &exporter, &importer),
        Err(error) => print_refusal(rt, &error),
    }
}
