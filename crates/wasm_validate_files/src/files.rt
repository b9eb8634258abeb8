ghost use Rattle.std.specs.Prelude.{◌≡◌, ◌≤◌, [], map, Any, find, IfOk, IsTrue, ◌↔◌, true, false};
ghost use Rattle.std.specs.Option.{option_map};
ghost use Rattle.wasm_validate_files.specs.Files.{AreAllAccepted, HasRoomForAll, IsUnread, bytes_held, is_unread};
ghost use Rattle.wasm_validate_files.specs.Answers.{AreAnswers, Tells, LacksMemory};

use crate::lines::{Answer, print_lines};
use crate::printable::Printable;
use std::alloc::{AllocError, Allocator, Global};
use std::io::{self, Write};
use wasm_validator::{Validator, ValidatorId, WasmFeatures, validate_list};

/// The exit status where all files are valid modules.
pub const STATUS_OK: u8 = 0;
/// The exit status where a file is refused.
pub const STATUS_REFUSED: u8 = 1;
/// The exit status where the program could not do its work: a wrong call, a file that can't be
/// read, no memory, a stream that can't be written.
pub const STATUS_TROUBLE: u8 = 2;

/// A file by its name, with its bytes where it could be read.
#[derive(Drop)]
pub struct Input<A: Allocator = Global> {
    pub name: String<A>,
    pub bytes: Option<Vec<u8, A>>,
}

/// Validates files one after another by one validator, prints one line on each, and answers the
/// exit status. That is `STATUS_OK` only where every file is a valid module, and `STATUS_REFUSED`
/// only where not all are, as far as one list has room for the types of all.
pub fn run<A: Allocator + Copy, W: Write, E: Write>(
    alloc: A,
    files: &[Input<A>],
    out: &mut W,
    err: &mut E,
) -> u8
    ensures known { result ≤ 2 }
    ensures accepted { result ≡ STATUS_OK → AreAllAccepted WasmFeatures.STANDARD files.now }
    ensures refused { result ≡ STATUS_REFUSED → HasRoomForAll WasmFeatures.STANDARD files.now
        → AreAllAccepted WasmFeatures.STANDARD files.now → ⊥ }
    ensures quiet { (result ≡ STATUS_TROUBLE → ⊥) → err.new ≡ err.old }
    ensures no_files { files.now ≡ [] → (result ≡ STATUS_TROUBLE) × (out.new ≡ out.old) }
    ensures unread { Any IsUnread files.now → (result ≡ STATUS_TROUBLE) × (out.new ≡ out.old) }
{
    if files.is_empty() {
        let _printed = writeln!(err, "usage: wasm-validate FILE...");
        return STATUS_TROUBLE;
    }
    if let Some(file) = first_unread(files) {
        let name = Printable(file.name.as_str());
        let _printed = writeln!(err, "wasm-validate: cannot read {name}");
        return STATUS_TROUBLE;
    }
    match answer_with_memory(alloc, files) {
        Ok(answers) => status_of(print_lines(files, answers.as_slice(), out)),
        Err(_) => print_error(err, "out of memory"),
    }
}

/// Prints what the program could not do, and answers the status that says so.
pub fn print_error<E: Write>(err: &mut E, message: &str) -> u8
    ensures { result ≡ STATUS_TROUBLE }
{
    let _printed = writeln!(err, "wasm-validate: {message}");
    STATUS_TROUBLE
}

/// The first file that could not be read.
fn first_unread<A: Allocator>(files: &[Input<A>]) -> Option<&Input<A>>
    ensures { option_map (λ file. file.now) result ≡ find is_unread files.now }
{
    files.iter().find(|file| file.bytes.is_none())
}

/// What one new validator with these features answers on files one after another, with no bytes for
/// one that could not be read.
///
/// # Errors
///
/// Fails where memory for the answers is refused.
pub fn answer_files<A: Allocator + Copy>(
    alloc: A,
    files: &[Input<A>],
    features: WasmFeatures,
) -> Result<Vec<Answer<A>, A>, AllocError>
    ensures { IfOk result (λ answers. AreAnswers features files.now answers.items) }
{
    let modules = lend_bytes(alloc, files)?;
    let mut validator = Validator::new_with_features(alloc, features, ValidatorId::from_number(0));
    match validate_list(&mut validator, modules.as_slice()) {
        Ok(answers) => Ok(answers),
        Err(_) => Err(AllocError),
    }
}

/// The same with the default features. Where memory was refused for one of them, nothing is answered.
fn answer_with_memory<A: Allocator + Copy>(
    alloc: A,
    files: &[Input<A>],
) -> Result<Vec<Answer<A>, A>, AllocError>
    ensures { IfOk result (λ answers. Tells WasmFeatures.STANDARD files.now answers.items) }
{
    let answers = answer_files(alloc, files, WasmFeatures::STANDARD)?;
    if lacks_memory(answers.as_slice()) {
        return Err(AllocError);
    }
    Ok(answers)
}

/// The bytes of files, and none of one that could not be read.
fn lend_bytes<A: Allocator>(alloc: A, files: &[Input<A>]) -> Result<Vec<&[u8], A>, AllocError>
    ensures { IfOk result (λ modules. map (λ bytes. bytes.now) modules.items ≡ map bytes_held files.now) }
{
    let mut modules = Vec::with_capacity(alloc, files.len())?;
    'files: for file in files {
        modules.push_reserved(bytes_of(file));
    }
    Ok(modules)
}

/// The bytes of a file, and none of one that could not be read.
pub fn bytes_of<A: Allocator>(file: &Input<A>) -> &[u8]
    ensures { result.now ≡ bytes_held file.now }
{
    match &file.bytes {
        Some(bytes) => bytes.as_slice(),
        None => &[],
    }
}

/// Whether an answer is that memory was refused.
fn lacks_memory<A: Allocator>(answers: &[Answer<A>]) -> bool
    ensures { IsTrue result ↔ Any LacksMemory answers.now }
{
    'answers: for answer in answers {
        if is_memory_refusal(answer) {
            return true;
        }
    }
    false
}

fn is_memory_refusal<A: Allocator>(answer: &Answer<A>) -> bool
    ensures { IsTrue result ↔ LacksMemory answer.now }
{
    match answer {
        Ok(_) => false,
        Err(error) => error.is_out_of_memory(),
    }
}

/// The status where all lines were printed, of which each may be of an accepted file, or where one
/// could not be.
fn status_of(printed: io::Result<bool>) -> u8
    ensures known { result ≤ 2 }
    ensures accepted { (result ≡ STATUS_OK) ↔ (printed ≡ Ok true) }
    ensures refused { (result ≡ STATUS_REFUSED) ↔ (printed ≡ Ok false) }
{
    match printed {
        Ok(true) => STATUS_OK,
        Ok(false) => STATUS_REFUSED,
        Err(_) => STATUS_TROUBLE,
    }
}
