use crate::answer::Answer;
use crate::bytes::parse_bytes;
use crate::call::answer_call;
use crate::facts::push_answer;
use crate::form::{Form, Forms, forms_of};
use crate::text::push_behind;
use rows_files::{Difference, Judge, NOT, Trouble, parse_features};
use std::alloc::{AllocError, Global};
use wasm_validator::{Types, Validator, ValidatorId};

/// What judges rows of modules.
pub struct ModuleRows;

impl Judge for ModuleRows {
    fn name(&self) -> &'static str {
        "rows of modules"
    }

    fn judge<'a>(&self, alloc: Global, line: &'a str) -> Result<Option<Difference<'a>>, Trouble> {
        judge(alloc, line)
    }
}

/// A row: features, and modules or calls with what is wanted of each.
#[derive(Clone, Copy)]
pub struct Row<'a> {
    forms: Forms,
    features: &'a str,
    parts: &'a str,
}

impl<'a> Row<'a> {
    /// The row that this line is.
    pub fn of(line: &'a str) -> Result<Row<'a>, Trouble> {
        let Some((head, rest)) = line.split_once(" | ") else {
            return Err(Trouble::Malformed("a row without features"));
        };
        let (forms, line) = match forms_of(head) {
            Some(forms) => (forms, rest),
            None => ((Form::Modules, 0, 0), line),
        };
        let Some((_name, rest)) = line.split_once(" | ") else {
            return Err(Trouble::Malformed("a row without features"));
        };
        let Some((features, parts)) = rest.split_once(" | ") else {
            return Err(Trouble::Malformed(forms.0.without_parts()));
        };
        Ok(Row {
            forms,
            features,
            parts,
        })
    }
}

/// What stands before a line that must not be a row.
const NO_ROW: &str = "no row | ";

/// The first answer of the row that this line is, where one isn't right. Of a line that must not be
/// a row: why it is none, where that isn't the wanted reason.
fn judge<'a>(alloc: Global, line: &'a str) -> Result<Option<Difference<'a>>, Trouble> {
    match line.strip_prefix(NO_ROW) {
        Some(rest) => judge_no_row(alloc, rest),
        None => row_difference(alloc, Row::of(line)?),
    }
}

/// The reason why this line, behind the wanted reason, is no row, where it isn't the wanted one.
fn judge_no_row<'a>(alloc: Global, text: &'a str) -> Result<Option<Difference<'a>>, Trouble> {
    let Some((wanted, line)) = text.split_once(" | ") else {
        return Err(Trouble::Malformed("no row, and no reason why"));
    };
    let given = reason(alloc, line)?;
    if given == wanted {
        return Ok(None);
    }
    let given = String::from_str(alloc, given)?;
    Ok(Some(Difference { wanted, given }))
}

/// Why this line is no row, or that it is one.
fn reason(alloc: Global, line: &str) -> Result<&'static str, AllocError> {
    let answer = match Row::of(line) {
        Ok(row) => row_difference(alloc, row),
        Err(trouble) => Err(trouble),
    };
    match answer {
        Ok(_) => Ok("a row"),
        Err(Trouble::OutOfMemory) => Err(AllocError),
        Err(Trouble::Malformed(reason)) => Ok(reason),
    }
}

/// Gives the parts of a row to a validator of its own for each of its numbers, up to the first
/// answer that isn't right; what is given then ends with the number, where there are several.
fn row_difference<'a>(alloc: Global, row: Row<'a>) -> Result<Option<Difference<'a>>, Trouble> {
    let (_, first, last) = row.forms;
    for number in first..last.saturating_add(1) {
        let difference = first_difference(alloc, row, number)?;
        if let Some(Difference { wanted, mut given }) = difference {
            if first < last {
                push_behind(&mut given, ", at ", number)?;
            }
            return Ok(Some(Difference { wanted, given }));
        }
    }
    Ok(None)
}

/// What the parts of a row are given to.
struct Bench {
    form: Form,
    number: usize,
    validator: Validator,
    /// The types of the module that was accepted last.
    kept: Option<Types>,
}

// By hand: so each way out takes one call for it, and not a step for each field.
impl Drop for Bench {
    fn drop(self) {
        let Bench {
            form: _,
            number: _,
            validator: _,
            kept: _,
        } = self;
    }
}

/// Gives the parts of a row to a validator of its own for this number, up to the first whose answer
/// isn't right.
fn first_difference<'a>(
    alloc: Global,
    row: Row<'a>,
    number: usize,
) -> Result<Option<Difference<'a>>, Trouble> {
    let features = parse_features(row.features.trim())?;
    let mut bench = Bench {
        form: row.forms.0,
        number,
        validator: Validator::new_with_features(alloc, features, ValidatorId::from_number(0)),
        kept: None,
    };
    difference_among_parts(alloc, &mut bench, row.parts)
}

/// Gives parts, each before what is wanted of it, to one validator, up to the first whose answer
/// isn't right.
fn difference_among_parts<'a>(
    alloc: Global,
    bench: &mut Bench,
    parts: &'a str,
) -> Result<Option<Difference<'a>>, Trouble> {
    let mut before: Option<&'a str> = None;
    'parts: for text in parts.split(" | ") {
        match before {
            None => before = Some(text.trim()),
            Some(part) => {
                let difference = difference_among_times(alloc, bench, part, text.trim())?;
                if difference.is_some() {
                    return Ok(difference);
                }
                before = None;
            }
        }
    }
    match before {
        None => Ok(None),
        Some(_) => Err(Trouble::Malformed(bench.form.without_answer())),
    }
}

/// Gives a part to the validator as often as it is to be, up to the first time that its answer
/// isn't right: the named answer where that must not be given, or another one where it is wanted.
fn difference_among_times<'a>(
    alloc: Global,
    bench: &mut Bench,
    part: &'a str,
    wanted: &'a str,
) -> Result<Option<Difference<'a>>, Trouble> {
    let (times, once) = times_of(part)?;
    let (named, is_wanted) = named_by(wanted);
    'times: for _ in 0..times {
        let given = answer(alloc, bench, once, named)?;
        if (given.as_str() == named) != is_wanted {
            return Ok(Some(Difference { wanted, given }));
        }
    }
    Ok(None)
}

/// How often a part is to be given, and the part itself: `N times PART`, or `PART` for once.
fn times_of(part: &str) -> Result<(u32, &str), Trouble> {
    let Some((number, once)) = part.split_once(" times ") else {
        return Ok((1, part));
    };
    match number.parse::<u32>() {
        Ok(times) => Ok((times, once)),
        Err(_) => Err(Trouble::Malformed("a number of times that isn't one")),
    }
}

/// The answer that the wanted part of a row names, and whether it is wanted, or must not be given.
fn named_by(wanted: &str) -> (&str, bool) {
    match wanted.strip_prefix(NOT) {
        Some(unwanted) => (unwanted, false),
        None => (wanted, true),
    }
}

/// What the validator says of this part: its verdict, and the facts that are named, as text.
fn answer(alloc: Global, bench: &mut Bench, part: &str, named: &str) -> Result<String, Trouble> {
    let answer = match bench.form {
        Form::Calls => answer_call(alloc, &mut bench.validator, &mut bench.kept, part)?,
        _ => answer_module(alloc, bench, part)?,
    };
    let mut text = String::new(alloc);
    push_answer(&mut text, &answer, &bench.validator, named)?;
    keep(&mut bench.kept, answer);
    Ok(text)
}

/// Keeps the types of a module that was accepted.
fn keep(kept: &mut Option<Types>, answer: Answer) {
    if let Some(types) = answer.into_types() {
        *kept = Some(types);
    }
}

/// What the validator says of the module that these bytes are, cut or changed where the form says
/// so.
fn answer_module(alloc: Global, bench: &mut Bench, bytes: &str) -> Result<Answer, Trouble> {
    let mut bytes = parse_bytes(alloc, bytes)?;
    bench.form.change(bench.number, &mut bytes)?;
    if bench.validator.can_reset() {
        bench.validator.reset();
    }
    Ok(Answer::of_module(bench.validator.validate_all(bytes.as_slice())))
}
