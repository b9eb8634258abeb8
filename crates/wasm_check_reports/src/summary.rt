//! How many files ended in which way.

ghost use Rattle.std.specs.Prelude.{◌≡◌, ◌∷◌, ◌++◌, [], OnOk, string_bytes, option_map};
ghost use Rattle.serde_json.specs.Written.{compact_text};
ghost use Rattle.wasm_check_reports.specs.Lines.{summary_data};
ghost use Rattle.wasm_check_reports.specs.Summaries.{with_answer, with_error, one_more, summary_line};

use crate::json;
use crate::settings::Form;
use std::alloc::{AllocError, Global};
use wasm_validate_files::Answer;
use wasm_validate_files::validator::Error;

/// How many files ended in which way.
#[derive(Clone, Copy, Default)]
pub struct Summary {
    /// Files that are valid modules.
    pub valid: u64,
    /// Files that are not.
    pub invalid: u64,
    /// Files behind one that ended the list.
    pub not_checked: u64,
    /// Files that could not be read, or for which memory was refused.
    pub failed: u64,
}

impl Summary {
    /// Counts a file that was read, with its answer if it was checked.
    pub fn count(&mut self, answer: Option<&Answer<Global>>)
        ensures { self.new ≡ with_answer self.old (option_map (λ a. a.now) answer.entry) }
    {
        match answer {
            Some(Ok(_)) => add_one(&mut self.valid),
            Some(Err(error)) => self.count_error(error),
            None => add_one(&mut self.not_checked),
        }
    }

    /// Counts a file that was read and is not accepted.
    fn count_error(&mut self, error: &Error<Global>)
        ensures { self.new ≡ with_error self.old error.now }
    {
        match error {
            Error::OutOfMemory => add_one(&mut self.failed),
            Error::Refused(_) => add_one(&mut self.invalid),
            Error::DuplicateExport { name: _, offset: _ } => add_one(&mut self.invalid),
            Error::InFunction {
                index: _,
                refusal: _,
            } => add_one(&mut self.invalid),
        }
    }

    /// Counts a file that could not be read.
    pub fn count_unread(&mut self)
        ensures { self.new ≡ record self.old { failed = one_more self.old.failed } }
    {
        add_one(&mut self.failed);
    }
}

/// Counts one more.
fn add_one(count: &mut u64)
    ensures { count.new ≡ one_more count.old }
{
    *count = count.saturating_add(1);
}

/// Writes how many files ended in which way.
pub fn write_summary(
    text: &mut String,
    alloc: Global,
    summary: &Summary,
    form: Form,
) -> Result<(), AllocError>
    ensures text { form ≡ Form.Text → OnOk result (string_bytes text.new
        ≡ string_bytes text.old ++ summary_line summary.now) }
    ensures json { form ≡ Form.Json → OnOk result (string_bytes text.new
        ≡ string_bytes text.old ++ (compact_text (summary_data summary.now) ++ 10 ∷ [])) }
    ensures quiet { form ≡ Form.Quiet → text.new ≡ text.old }
{
    match form {
        Form::Text => write_line(text, summary),
        Form::Json => json::write_summary(text, alloc, summary),
        Form::Quiet => Ok(()),
    }
}

fn write_line(text: &mut String, summary: &Summary) -> Result<(), AllocError>
    ensures { OnOk result (string_bytes text.new ≡ string_bytes text.old ++ summary_line summary.now) }
{
    let Summary {
        valid,
        invalid,
        not_checked,
        failed,
    } = *summary;
    writeln!(
        text,
        "{valid} valid, {invalid} invalid, {not_checked} not checked, {failed} failed"
    )
}
