use wasm_validator::{Error, Types};

/// What a validator answers to a module or to a call.
pub enum Answer {
    /// It is accepted, and gives nothing.
    Accepted,
    /// The module has ended, and these are its types.
    Ended(Types),
    /// It gives a function.
    HandedOut(HandedOut),
    Refused(Error),
    /// There is nothing, and this text says so.
    Nothing(&'static str),
}

/// A function that was handed out.
#[derive(Drop)]
pub struct HandedOut {
    pub index: u32,
    /// The index of its type.
    pub type_index: u32,
    /// Why its body was refused, where it was.
    pub refusal: Option<Error>,
}

// By hand: so each way out takes one call for it, and not a step for each part.
impl Drop for Answer {
    fn drop(self) {
        match self {
            Answer::Accepted | Answer::Nothing(_) => {}
            Answer::Ended(_types) => {}
            Answer::HandedOut(_function) => {}
            Answer::Refused(_error) => {}
        }
    }
}

impl Answer {
    /// The answer to a whole module.
    pub fn of_module(given: Result<Types, Error>) -> Answer {
        match given {
            Ok(types) => Answer::Ended(types),
            Err(error) => Answer::Refused(error),
        }
    }

    /// The types of the module that has ended, if one has.
    pub fn into_types(self) -> Option<Types> {
        match self {
            Answer::Ended(types) => Some(types),
            _ => None,
        }
    }
}
