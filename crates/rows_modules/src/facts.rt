use crate::answer::{Answer, HandedOut};
use crate::shown::push_shown;
use crate::text::{push_behind, split_word};
use rows_files::{Trouble, name_of};
use std::alloc::AllocError;
use wasm_validator::{Error, Validator};

/// Adds the verdict, and behind it each of the wanted facts as it is.
pub fn push_answer(
    text: &mut String,
    answer: &Answer,
    validator: &Validator,
    wanted: &str,
) -> Result<(), Trouble> {
    let Some((verdict, facts)) = wanted.split_once("; ") else {
        return push_verdict(text, answer, wanted);
    };
    push_verdict(text, answer, verdict)?;
    'facts: for fact in facts.split("; ") {
        text.push_str("; ")?;
        push_fact(text, answer, validator, fact)?;
    }
    Ok(())
}

/// Adds `ok`, what says that there is nothing, or the refusal.
fn push_verdict(text: &mut String, answer: &Answer, wanted: &str) -> Result<(), Trouble> {
    match answer {
        Answer::Accepted | Answer::Ended(_) | Answer::HandedOut(_) => text.push_str("ok")?,
        Answer::Nothing(what) => text.push_str(what)?,
        Answer::Refused(error) => push_refusal(text, error, wanted)?,
    }
    Ok(())
}

/// Adds `refused`, with the offset and the message unless `refused` alone is wanted.
fn push_refusal(text: &mut String, error: &Error, wanted: &str) -> Result<(), Trouble> {
    if error.is_out_of_memory() {
        return Err(Trouble::OutOfMemory);
    }
    text.push_str("refused")?;
    if wanted != "refused" {
        push_behind(text, " ", error.offset())?;
        push_behind(text, " ", error)?;
    }
    Ok(())
}

/// Adds the fact that is wanted so, as it is.
fn push_fact(
    text: &mut String,
    answer: &Answer,
    validator: &Validator,
    fact: &str,
) -> Result<(), Trouble> {
    let (name, wanted) = split_word(fact);
    if let Some(flag) = flag_of(validator, name) {
        text.push_str(name)?;
        return Ok(push_behind(text, " ", flag)?);
    }
    if name == "state" {
        return Ok(text.push_str(state_of(validator))?);
    }
    match answer {
        Answer::Ended(types) => push_shown(text, &types.as_ref(), name),
        Answer::Refused(error) if name == "missing" => push_missing(text, error),
        Answer::HandedOut(function) => push_handed_out(text, function, name, wanted),
        _ => push_being_read(text, validator, name),
    }
}

/// The fact of this name on the validator, if it is one that is true or false.
fn flag_of(validator: &Validator, name: &str) -> Option<bool> {
    match name {
        "can_reset" => Some(validator.can_reset()),
        "has_failed" => Some(validator.has_failed()),
        "level_0" => Some(validator.types(0).is_some()),
        "level_1" => Some(validator.types(1).is_some()),
        _ => None,
    }
}

/// What can be seen of the validator's state: `ready` before a header and after the end, `reading`
/// in a module, `failed` after a section that was refused.
fn state_of(validator: &Validator) -> &'static str {
    let has_types = (validator.types(0).is_some(), validator.types(1).is_some());
    match (validator.can_reset(), validator.has_failed(), has_types) {
        (true, false, (false, false)) => "state ready",
        (false, false, (true, false)) => "state reading",
        (false, true, (false, false)) => "state failed",
        _ => "state unknown",
    }
}

/// Adds the feature that a refusal names.
fn push_missing(text: &mut String, error: &Error) -> Result<(), Trouble> {
    text.push_str("missing ")?;
    match error.missing_features() {
        Some(feature) => push_lowercase(text, name_of(feature))?,
        None => text.push_str("nothing")?,
    }
    Ok(())
}

fn push_lowercase(text: &mut String, name: &str) -> Result<(), AllocError> {
    'characters: for character in name.chars() {
        text.push(character.to_ascii_lowercase())?;
    }
    Ok(())
}

/// Adds the fact of this name on a function that was handed out.
fn push_handed_out(
    text: &mut String,
    function: &HandedOut,
    name: &str,
    wanted: &str,
) -> Result<(), Trouble> {
    text.push_str(name)?;
    text.push_str(" ")?;
    match name {
        "index" => Ok(text.write(function.index)?),
        "type_index" => Ok(text.write(function.type_index)?),
        "body" => match &function.refusal {
            None => Ok(text.push_str("ok")?),
            Some(error) => push_refusal(text, error, wanted),
        },
        _ => Err(Trouble::Malformed("an unknown fact of a function")),
    }
}

/// Adds the fact of this name on the module that is being read.
fn push_being_read(text: &mut String, validator: &Validator, name: &str) -> Result<(), Trouble> {
    match validator.types(0) {
        Some(shown) => push_shown(text, &shown, name),
        None => Err(Trouble::Malformed("a fact of no module")),
    }
}
