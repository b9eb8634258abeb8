//! A client of the theorem on lists of modules: a linker that gives a function of one module where
//! another asks for one, by their ids alone.
ghost use Rattle.std.specs.Prelude.{◌≡◌, true, IfOk};
ghost use Rattle.wasm_validator.specs.Lists.{lent};
ghost use Rattle.wasm_validator.specs.WasmValidatorTypes.ShownModules.{shown_of};
ghost use Rattle.examples.specs.Links.{HaveOneId, MayLink};

use std::alloc::Allocator;
use std::io;
use wasm_validator::{Error, Types, Validator, ValidatorId, validate_list};

/// A module that exports the function `f`, of type `[i32] -> []`.
const EXPORTER: &[u8] =
    b"\0asm\x01\0\0\0\x01\x05\x01\x60\x01\x7f\0\x02\x07\x01\x01x\x01f\0\0\x07\x05\x01\x01f\0\0";
/// A module that imports the function `m.f`, of its second type, which is `[i32] -> []`.
const IMPORTER: &[u8] =
    b"\0asm\x01\0\0\0\x01\x08\x02\x60\0\0\x60\x01\x7f\0\x02\x07\x01\x01m\x01f\0\x01";

/// Whether the functions with these indices are there, and their types have one id.
fn have_one_id<A: Allocator + Copy>(
    exporter: &Types<A>,
    given: u32,
    importer: &Types<A>,
    wanted: u32,
) -> bool
    ensures { result ≡ true → HaveOneId (shown_of exporter.now) given (shown_of importer.now) wanted }
{
    let (exporter, importer) = (exporter.as_ref(), importer.as_ref());
    given < exporter.function_count()
        && wanted < importer.function_count()
        && exporter.core_function_at(given).index() == importer.core_function_at(wanted).index()
}

/// Checks modules by one validator, and says whether the function with one index in the first may be
/// given for the one with another index in the second: both modules are valid, and the functions
/// have one type.
pub fn may_link<A: Allocator + Copy>(
    alloc: A,
    modules: &[&[u8]],
    given: u32,
    wanted: u32,
) -> Result<bool, Error<A>>
    ensures { IfOk result (λ b. b ≡ true → MayLink (lent modules.now) given wanted) }
{
    let mut validator = Validator::new(alloc, ValidatorId::from_number(0));
    let answers = validate_list(&mut validator, modules)?;
    match (answers.first(), answers.get(1)) {
        (Some(Ok(exporter)), Some(Ok(importer))) => {
            Ok(have_one_id(exporter, given, importer, wanted))
        }
        _ => Ok(false),
    }
}

/// Prints whether the first function of one module may be given for the first one of another.
pub fn run<R: Print + AllocGlobal>(rt: &R) -> io::Result<()> {
    match may_link(rt.alloc(), &[EXPORTER, IMPORTER], 0, 0) {
        Ok(linked) => println!(rt; "may be given: {linked}"),
        Err(error) => println!(rt; "{error}"),
    }
}
