use crate::text::split_word;
use rows_files::Trouble;

/// What the parts of a row are, each of which comes before what is wanted of it.
#[derive(Clone, Copy)]
pub enum Form {
    /// Modules, with `reset` between two where it may be called.
    Modules,
    /// Calls, with nothing between.
    Calls,
    /// The first bytes of a module, as many as the row's number.
    Fronts,
    /// A module whose byte at the offset that is the row's number is 0xff instead.
    WithFf,
    /// The same with 0.
    WithZero,
}

impl Form {
    /// Why a row is none that has no parts.
    pub fn without_parts(self) -> &'static str {
        match self {
            Form::Calls => "a row without calls",
            _ => "a row without bytes",
        }
    }

    /// Why a row is none whose last part stands before nothing.
    pub fn without_answer(self) -> &'static str {
        match self {
            Form::Calls => "a call without a wanted answer",
            _ => "bytes without a wanted answer",
        }
    }

    /// Cuts the bytes of a module, or replaces one of them, where the form says so.
    pub fn change(self, number: usize, bytes: &mut Vec<u8>) -> Result<(), Trouble> {
        match self {
            Form::Modules | Form::Calls => {}
            Form::Fronts if number < bytes.len() => bytes.truncate(number),
            Form::WithFf if number < bytes.len() => bytes[number] = 0xff,
            Form::WithZero if number < bytes.len() => bytes[number] = 0,
            _ => return Err(Trouble::Malformed("fewer bytes than that")),
        }
        Ok(())
    }
}

/// A form, with the first and the last of the row's numbers.
pub type Forms = (Form, usize, usize);

/// What the text before a row's name says of its form, if it says anything: `calls`, or `fronts`,
/// `ff` or `00` with a first and a last number.
pub fn forms_of(head: &str) -> Option<Forms> {
    let (word, numbers) = split_word(head);
    let form = match word {
        "calls" if numbers.is_empty() => return Some((Form::Calls, 0, 0)),
        "fronts" => Form::Fronts,
        "ff" => Form::WithFf,
        "00" => Form::WithZero,
        _ => return None,
    };
    let (first, last) = numbers.split_once(" to ")?;
    match (first.parse::<usize>(), last.parse::<usize>()) {
        (Ok(first), Ok(last)) if first <= last => Some((form, first, last)),
        _ => None,
    }
}
