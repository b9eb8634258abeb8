//! The text format, which isn't read: bytes that look like it are told apart from other bytes that
//! aren't a module.

ghost use Rattle.std.specs.Prelude.{◌≡◌};
ghost use Rattle.wasm_validate_files.specs.TextFormat.{hint_of, is_space, opens_text, looks_like_text};

/// What stands behind the message where bytes are refused that look like the text format, and nothing
/// behind the message of others.
pub fn hint_of<'a>(bytes: &[u8]) -> &'a str
    ensures { result.now ≡ hint_of bytes.now }
{
    if looks_like_text(bytes) {
        "; this looks like the text format, which is not read"
    } else {
        ""
    }
}

/// Whether bytes look like the text format: behind white space they begin with `(` or with `;;`. No
/// binary module does (Core Specification 3.0, Text Format, Lexical Format).
pub fn looks_like_text(bytes: &[u8]) -> bool
    ensures { result ≡ looks_like_text bytes.now }
{
    let mut rest = bytes;
    'spaces: while let Some((first, others)) = rest.split_first() {
        if !is_space(*first) {
            break;
        }
        rest = others;
    }
    opens_text(rest)
}

fn is_space(byte: u8) -> bool
    ensures { result ≡ is_space byte }
{
    matches!(byte, b' ' | b'\t' | b'\n' | b'\r')
}

/// Whether a parenthesis or a comment comes first.
fn opens_text(bytes: &[u8]) -> bool
    ensures { result ≡ opens_text bytes.now }
{
    match bytes {
        [b'(', ..] | [b';', b';', ..] => true,
        _ => false,
    }
}
