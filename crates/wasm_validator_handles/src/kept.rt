//! What stands behind a handle.

ghost use Rattle.std.specs.Prelude.{◌≡◌};
ghost use Rattle.std.specs.Option.{option_map};
ghost use Rattle.std.specs.declared.option.Option.TheVariants.{Some as Just};
ghost use Rattle.wasm_validator_handles.specs.HandleContents.{Answers, AnswersNext, Resets, ResetsNext, Shares, types_of};

use std::alloc::{AllocError, Global};
use std::rc::Rc;
use wasm_validator::{Error, Types, Validator, answer_all};

/// What the validator answers.
pub type Answer = Result<Types, Error>;

/// A validator, or the types of a module that one accepted, which several handles may share.
#[derive(Drop)]
pub enum Kept {
    Validator(Validator),
    Types(Rc<Types>),
}

/// Why a validator behind a handle was not asked.
#[derive(Drop)]
pub enum NotAsked {
    /// There is none.
    NoValidator,
    /// It stands within a module that it refused, or has failed, and stays so.
    HasFailed,
}

impl Kept {
    /// Validates a module as [`validate_list`] does each: behind a reset, so that ids go on.
    ///
    /// [`validate_list`]: wasm_validator::validate_list
    pub fn validate(&mut self, bytes: &[u8]) -> Result<Answer, NotAsked>
        ensures { Answers result bytes.now (Just self.old) (Just self.new) }
    {
        match self {
            Kept::Validator(validator) => validate_next(validator, bytes),
            Kept::Types(_) => Err(NotAsked::NoValidator),
        }
    }

    /// Makes a validator ready for its next module. Its types keep their ids.
    pub fn reset(&mut self) -> Result<(), NotAsked>
        ensures { Resets result (Just self.old) (Just self.new) }
    {
        match self {
            Kept::Validator(validator) => reset(validator),
            Kept::Types(_) => Err(NotAsked::NoValidator),
        }
    }

    /// The types, if it is types.
    pub fn types(&self) -> Option<&Types>
        ensures { option_map (λ types. types.now) result ≡ types_of (Just self.now) }
    {
        match self {
            Kept::Types(types) => Some(types.as_ref()),
            Kept::Validator(_) => None,
        }
    }

    /// The same types once more, if it is types.
    pub fn share(&self) -> Option<Result<Kept, AllocError>>
        ensures { Shares result (Just self.now) }
    {
        match self {
            Kept::Types(types) => match types.clone() {
                Ok(types) => Some(Ok(Kept::Types(types))),
                Err(error) => Some(Err(error)),
            },
            Kept::Validator(_) => None,
        }
    }
}

fn validate_next(validator: &mut Validator, bytes: &[u8]) -> Result<Answer, NotAsked>
    ensures { AnswersNext result bytes.now validator.old validator.new }
{
    if validator.can_reset() {
        validator.reset();
        Ok(answer_all(validator, bytes).answer)
    } else {
        Err(NotAsked::HasFailed)
    }
}

fn reset(validator: &mut Validator) -> Result<(), NotAsked>
    ensures { ResetsNext result validator.old validator.new }
{
    if validator.can_reset() {
        validator.reset();
        Ok(())
    } else {
        Err(NotAsked::HasFailed)
    }
}
