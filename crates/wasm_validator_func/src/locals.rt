//! The locals that a body declares.

ghost use Rattle.std.specs.Prelude.{◌≡◌, ◌≤◌, ◌<◌, ◌||◌, true, false, not, is_ok, Some, None, IfOk, IfErr, OnOk, OnErr};
ghost use Rattle.wasm_readers_bytes.specs.Reader.{SameInput, position_in, rest, RefusedFrom};
ghost use Rattle.wasm_readers_types.specs.WasmReadersValues.SeenValues.{val_of};
ghost use Rattle.wasm_validator_resources.specs.Answers.{IsWrittenVal};
ghost use Rattle.wasm_typing_validator.specs.BodyTyping.{typed_state, locals_in};
ghost use Rattle.wasm_typing_validator.specs.TypedInstructions.{StandsIn};
ghost use Rattle.wasm_spec_steps.specs.FunctionBodies.{declaration_at};
ghost use Rattle.wasm_validator_func.specs.BodyValidation.{declaration_of, declared_in, counted_in, listed_in, Goes, DeclaredAt, KeepsLocals, Declares};
ghost use Rattle.wasm_typing_validator.specs.ValidatorFailures.{failure_at};

use std::alloc::Allocator;
use wasm_readers::types::read_val_type;
use wasm_readers::{BinaryReader, Error, Refusal, ValType};
use wasm_typing_validator::OperatorValidator;
use wasm_validator_resources::WasmModuleResources;

/// A declaration: how many locals, and their type, which names type indices of the module (Core
/// Specification 3.0, Binary Format, Modules, Code Section).
#[tactic(auto, using(crate::proofs::DeclarationReads::declarations), unfolding(wasm_spec_steps::specs::FunctionBodies::declaration_at))]
#[inline(always)]
fn read_declaration(reader: &mut BinaryReader<'_>) -> Result<(u32, ValType), Refusal>
    ensures same { SameInput reader.old reader.new }
    ensures onward { position_in reader.old ≤ position_in reader.new }
    ensures refusal { IfErr result (RefusedFrom reader.old) }
    ensures ok { IfOk result (λ d. declaration_at (rest reader.old)
        ≡ Some (declaration_of d.0 d.1, rest reader.new)) }
    ensures written { IfOk result (λ d. IsWrittenVal (val_of d.1)) }
    ensures further { OnOk result (position_in reader.old < position_in reader.new) }
    ensures err { OnErr result (declaration_at (rest reader.old) ≡ None) }
{
    let count = reader.read_var_u32()?;
    let ty = read_val_type(reader)?;
    Ok((count, ty))
}

/// Declares so many locals of one type, which is written with type indices of the module, at this
/// offset.
///
/// # Errors
///
/// Refused, at the offset, where the features don't allow the type, where the module doesn't have
/// it, and where there are too many locals; and all once something was refused.
#[tactic(auto, using(crate::proofs::LocalDeclarations::declares))]
pub(crate) fn define<A: Allocator, T: WasmModuleResources>(
    validator: &mut OperatorValidator<A>,
    resources: &T,
    offset: u64,
    count: u32,
    ty: ValType,
) -> Result<(), Error>
    requires { IsWrittenVal (val_of ty) }
    ensures declared { validator.old.failed ≡ false → DeclaredAt offset result
        (declared_in validator.old (T.context resources.now) (declaration_of count ty))
        (locals_in validator.new) }
    ensures kept { KeepsLocals result (locals_in validator.old) (locals_in validator.new) }
    ensures ended { validator.old.failed ≡ true → result ≡ failure_at offset }
    ensures state { typed_state validator.new ≡ typed_state validator.old }
    ensures goes { Goes validator.old validator.new }
    ensures failed { validator.new.failed ≡ (validator.old.failed || not (is_ok result)) }
{
    match validator.define_locals(resources, count, ty) {
        Ok(()) => Ok(()),
        Err(error) => Err(error.at(offset)),
    }
}

/// So many declarations, one after another.
fn read_counted<'a, A: Allocator, T: WasmModuleResources>(
    validator: &mut OperatorValidator<A>,
    resources: &T,
    reader: &mut BinaryReader<'a>,
    count: u32,
) -> Result<(), Error>
    requires { validator.old.failed ≡ false }
    ensures declared { Declares result (counted_in validator.old (T.context resources.now) count
        (rest reader.old)) (locals_in validator.new) (rest reader.new) }
    ensures state { typed_state validator.new ≡ typed_state validator.old }
    ensures goes { Goes validator.old validator.new }
    ensures failed { validator.new.failed ≡ not (is_ok result) }
    ensures input { SameInput reader.old reader.new }
    ensures onward { position_in reader.old ≤ position_in reader.new }
    ensures place { IfErr result (StandsIn reader.old) }
{
    let mut left = count;
    'declarations: while left > 0 {
        let offset = reader.original_position();
        let (count, ty) = match read_declaration(reader) {
            Ok(declaration) => declaration,
            Err(refusal) => {
                validator.fail();
                return Err(Error::Refused(refusal));
            }
        };
        match define(validator, resources, offset, count, ty) {
            Ok(()) => left -= 1,
            Err(error) => return Err(error),
        }
    }
    Ok(())
}

/// The list of declarations that a body begins with.
///
/// # Errors
///
/// Refused where the bytes begin with no list of declarations, and at a declaration that can't be
/// made; and where memory is.
#[tactic(auto, unfolding(crate::specs::Bodies::locals_from))]
pub(crate) fn read_declarations<'a, A: Allocator, T: WasmModuleResources>(
    validator: &mut OperatorValidator<A>,
    resources: &T,
    reader: &mut BinaryReader<'a>,
) -> Result<(), Error>
    requires { validator.old.failed ≡ false }
    ensures declared { Declares result (listed_in validator.old (T.context resources.now)
        (rest reader.old)) (locals_in validator.new) (rest reader.new) }
    ensures state { typed_state validator.new ≡ typed_state validator.old }
    ensures goes { Goes validator.old validator.new }
    ensures failed { validator.new.failed ≡ not (is_ok result) }
    ensures input { SameInput reader.old reader.new }
    ensures onward { position_in reader.old ≤ position_in reader.new }
    ensures place { IfErr result (StandsIn reader.old) }
{
    match reader.read_var_u32() {
        Ok(count) => read_counted(validator, resources, reader, count),
        Err(refusal) => {
            validator.fail();
            Err(Error::Refused(refusal))
        }
    }
}
