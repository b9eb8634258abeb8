//! The lines that are printed, one on each file.

ghost use Rattle.std.specs.Prelude.{ℕ, ◌<◌, length, IfOk, IsTrue, ◌↔◌};
ghost use Rattle.wasm_validate_files.specs.Answers.{IsOkAt};

use crate::files::{Input, bytes_of};
use crate::printable::Printable;
use crate::text_format::hint_of;
use std::alloc::Allocator;
use std::io::{self, Write};
use wasm_validator::{CoreExports, CoreImports, Error, Types};

/// What the validator answers on a file.
pub type Answer<A> = Result<Types<A>, Error<A>>;

/// Prints the line of each file, and says whether all were checked and are valid. Those behind the
/// last answer were not checked.
pub fn print_lines<A: Allocator + Copy, W: Write>(
    files: &[Input<A>],
    answers: &[Answer<A>],
    out: &mut W,
) -> io::Result<bool>
    ensures { IfOk result (λ all. IsTrue all ↔ ((k : ℕ) → k < length files.now → IsOkAt answers.now k)) }
{
    let mut all = true;
    'files: for (place, file) in files.iter().enumerate() {
        let is_valid = print_line(file, answers, place, out)?;
        all &= is_valid;
    }
    Ok(all)
}

/// Prints the line of the file at this place, and says whether it was checked and is valid.
fn print_line<A: Allocator + Copy, W: Write>(
    file: &Input<A>,
    answers: &[Answer<A>],
    place: usize,
    out: &mut W,
) -> io::Result<bool>
    ensures { IfOk result (λ is_valid. IsTrue is_valid ↔ IsOkAt answers.now place) }
{
    match answers.get(place) {
        Some(Ok(types)) => {
            print_ok(file.name.as_str(), types, out)?;
            Ok(true)
        }
        Some(Err(error)) => {
            print_refused(file, error, out)?;
            Ok(false)
        }
        None => {
            let name = Printable(file.name.as_str());
            writeln!(out, "{name}: not checked")?;
            Ok(false)
        }
    }
}

fn print_ok<A: Allocator + Copy, W: Write>(
    name: &str,
    types: &Types<A>,
    out: &mut W,
) -> io::Result<()> {
    let name = Printable(name);
    let shown = types.as_ref();
    let type_count = shown.core_type_count_in_module();
    let function_count = shown.function_count();
    let import_count = match shown.core_imports() {
        Some(imports) => count_imports(imports),
        None => 0,
    };
    let export_count = match shown.core_exports() {
        Some(exports) => count_exports(exports),
        None => 0,
    };
    writeln!(
        out,
        "{name}: ok types {type_count} functions {function_count} imports {import_count} exports {export_count}"
    )
}

fn print_refused<A: Allocator, W: Write>(
    file: &Input<A>,
    error: &Error<A>,
    out: &mut W,
) -> io::Result<()> {
    let name = Printable(file.name.as_str());
    let offset = error.offset();
    let message = Printable(error);
    let hint = hint_of(bytes_of(file));
    writeln!(out, "{name}: refused at {offset}: {message}{hint}")
}

/// How many imports these are.
pub fn count_imports<A: Allocator>(imports: CoreImports<'_, A>) -> u64 {
    let mut count = 0u64;
    for _import in imports {
        count = count.saturating_add(1);
    }
    count
}

/// How many exports these are.
pub fn count_exports<A: Allocator>(exports: CoreExports<'_, A>) -> u64 {
    let mut count = 0u64;
    for _export in exports {
        count = count.saturating_add(1);
    }
    count
}
