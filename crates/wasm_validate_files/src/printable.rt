//! Text that others wrote, as the name of a file or of an export, in a line that is printed: a character that
//! would end the line, move what stands beside it or not be seen is written as its escape.

ghost use Rattle.std.specs.Prelude.{◌≡◌, OnOk, All, chars, encode_utf8_all, false};
ghost use Rattle.std.specs.Fmt.{WritesInCalls};
ghost use Rattle.wasm_validate_files.specs.Printable.{escape, is_hidden, printable};

use std::fmt::{self, Display};

/// Writes a text with the escapes of its hidden characters, as [`char::escape_debug`] writes them:
/// `\0`, `\t`, `\r`, `\n`, and `\u{..}` with the code in hexadecimal. Hidden are the control characters,
/// the line and paragraph separators, and the marks that change the direction of text. All others stay as
/// they are, a backslash and a quote among them.
pub fn write_printable<W: fmt::Write>(out: &mut W, text: &str) -> fmt::Result
    ensures { OnOk result (WritesInCalls W.write_str_gives out.old (printable text.now) out.new) }
{
    if !has_hidden(text) {
        // in one call, which may be one of the system
        return out.write_str(text);
    }
    'letters: for letter in text.chars() {
        if is_hidden(letter) {
            write_escape(out, letter)?;
        } else {
            out.write_char(letter)?;
        }
    }
    Ok(())
}

/// Writes the escape of a hidden character.
fn write_escape<W: fmt::Write>(out: &mut W, letter: char) -> fmt::Result
    ensures { OnOk result (WritesInCalls W.write_str_gives out.old (encode_utf8_all (escape letter)) out.new) }
{
    if letter == '\0' {
        return out.write_str("\\0");
    }
    'letters: for letter in letter.escape_default() {
        out.write_char(letter)?;
    }
    Ok(())
}

/// Whether a text has a hidden character.
fn has_hidden(text: &str) -> bool
    ensures { result ≡ false → All (λ c. is_hidden c ≡ false) (chars text.now) }
{
    'letters: for letter in text.chars() {
        if is_hidden(letter) {
            return true;
        }
    }
    false
}

/// Whether a character isn't printed as it is.
fn is_hidden(letter: char) -> bool
    ensures { result ≡ is_hidden letter }
{
    matches!(
        letter,
        '\0'..='\u{1f}'
            | '\u{7f}'..='\u{9f}'
            | '\u{61c}'
            | '\u{200e}'..='\u{200f}'
            | '\u{2028}'..='\u{202e}'
            | '\u{2066}'..='\u{2069}'
    )
}

/// What a value displays, with escapes, as [`write_printable`] writes them.
#[derive(Drop)]
pub struct Printable<D: Drop>(pub D);

impl<D: Display + Drop> Display for Printable<D> {
    ghost use Rattle.std.specs.Prelude.{option_map};

    ghost output = { λ p. option_map printable (D.output p.0) };

    fn fmt<W: fmt::Write>(&self, f: &mut fmt::Formatter<W>) -> fmt::Result {
        let mut escaping = Escaping { inner: f };
        let value = &self.0;
        let result = fmt::Write::write(&mut escaping, value);
        // No effect at run time. The proof reads what `f` holds from this use of `inner`.
        let Escaping { inner } = escaping;
        let _ = &*inner;
        result
    }
}

/// A writer that writes what it is given with escapes.
#[derive(Drop)]
struct Escaping<'f, W> {
    inner: &'f mut W,
}

impl<W: fmt::Write> fmt::Write for Escaping<'_, W> {
    ghost use Rattle.std.specs.Prelude.{IsUtf8};

    ghost write_str_gives = { λ s bs t. IsUtf8 bs × (t.inner.ghost_name ≡ s.inner.ghost_name)
        × WritesInCalls W.write_str_gives s.inner.now (printable bs) t.inner.now };

    fn write_str(&mut self, text: &str) -> fmt::Result {
        write_printable(self.inner, text)
    }
}
