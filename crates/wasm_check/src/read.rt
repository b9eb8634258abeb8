//! Files are read.

ghost use Rattle.std.specs.Prelude.{◌≡◌, IfOk, IfSome};

use std::alloc::Global;
use std::fs::{self, OpenFile};
use std::io::{self, Read};
use std::rt::Files;

/// What stands behind a word on the command line that isn't UTF-8, whose name is its place. No word
/// has it otherwise.
pub const NO_TEXT: char = '\0';

/// Where files are read from, by their names.
pub trait Source {
    ghost use Rattle.std.specs.Prelude.{ℕ, List, IfOk};

    ghost gives: { Self → List ℕ → List ℕ → Type 0 };

    /// Bytes that this source gives for the name.
    ///
    /// # Errors
    ///
    /// Where there is nothing of this name, or it can't be read.
    fn read_named(&self, name: &str) -> io::Result<Vec<u8>>
        ensures { IfOk result (λ bytes. gives self.now name.now bytes.items) };
}

// What a file system has under a name, and what stands on standard input, is not known to a proof, so
// nothing is said of what is given: that is the file's bytes because this function opens that file.
impl<R: Files + io::Input + AllocGlobal> Source for R {
    ghost use Rattle.std.specs.Prelude.{⊤};

    ghost gives = { λ _ _ _. ⊤ };

    fn read_named(&self, name: &str) -> io::Result<Vec<u8>> {
        if name == "-" {
            return read_known_size(self.alloc(), &mut self.reader(), 0);
        }
        if name.ends_with(NO_TEXT) {
            let message = "the name is not UTF-8";
            return Err(io::Error::new(io::ErrorKind::InvalidInput, message));
        }
        let mut file = fs::open(self, name)?;
        let size = file.metadata()?.len();
        read_known_size(self.alloc(), &mut file, size)
    }
}

/// What a file is called where it's spoken of.
pub fn shown_name(name: &str) -> &str {
    name.trim_end_matches(NO_TEXT)
}

/// What a reader has left, where that is expected to be so many bytes: memory for as many is asked for
/// at once.
pub fn read_known_size<R: Read>(alloc: Global, reader: &mut R, size: u64) -> io::Result<Vec<u8>>
    ensures { IfOk result (λ bytes. IfSome (R.remaining reader.old) (λ left. bytes.items ≡ left)) }
{
    // one more, into which the end is read
    let room = match usize::try_from(size) {
        Ok(size) => size.saturating_add(1),
        Err(_) => usize::MAX,
    };
    let mut bytes = Vec::with_capacity(alloc, room)?;
    reader.read_to_end(&mut bytes)?;
    Ok(bytes)
}
