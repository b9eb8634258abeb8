//! The locals that a body declares.

ghost use Rattle.std.specs.Prelude.{◌≡◌, ◌≤◌, ◌<◌, Some, None, IfOk, IfErr, OnErr};
ghost use Rattle.wasm_spec.specs.Values.{u32_at};
ghost use Rattle.wasm_items.specs.WasmReaders.WasmReadersBytes.Reader.{SameInput, position_in, rest, RefusedFrom, place_of_next};
ghost use Rattle.wasm_parser.specs.Locals.{Declaration, declaration_at};
ghost use Rattle.wasm_parser.specs.SeenLocals.{declaration_of, declared, locals_count, locals_left, declarations_left, declarations_to_come};

use wasm_items::operators::Immediate;
use wasm_items::readers::types::read_val_type;
use wasm_items::readers::{BinaryReader, ValType};
use wasm_items::readers_errors::Refusal;

/// A declaration: so many locals of one type.
#[derive(Clone, Copy, Debug)]
pub struct LocalDeclaration {
    /// How many.
    pub count: u32,
    /// Their type.
    pub ty: ValType,
}

impl<'a> Immediate<'a> for LocalDeclaration {
    ghost Value = { Declaration };

    ghost encoded = { declaration_at };

    ghost value = { declared };

    fn read(reader: &mut BinaryReader<'a>) -> Result<LocalDeclaration, Refusal> {
        let count = reader.read_var_u32()?;
        let ty = read_val_type(reader)?;
        Ok(LocalDeclaration { count, ty })
    }
}

/// The declarations of a body's locals: a count, and that many declarations, which are read as they
/// are asked for.
#[derive(Clone, Copy, Debug)]
pub struct LocalsReader<'a> {
    reader: BinaryReader<'a>,
    count: u32,
}

impl<'a> LocalsReader<'a> {
    /// The declarations that these bytes begin with.
    ///
    /// # Errors
    ///
    /// Refused where the count is, as by [`BinaryReader::read_var_u32`].
    pub fn new(reader: BinaryReader<'a>) -> Result<LocalsReader<'a>, Refusal>
        ensures ok { IfOk result (λ l. u32_at (rest reader.entry)
            ≡ Some (locals_count l, rest (locals_left l))) }
        ensures part { IfOk result (λ l. SameInput reader.entry (locals_left l)) }
        ensures refusal { IfErr result (RefusedFrom reader.entry) }
        ensures err { OnErr result (u32_at (rest reader.entry) ≡ None) }
    {
        let mut reader = reader;
        let count = reader.read_var_u32()?;
        Ok(LocalsReader { reader, count })
    }

    /// The number of declarations that the body says it has, each of which may be of several locals.
    pub fn get_count(&self) -> u32
        ensures { result ≡ locals_count self.now }
    {
        self.count
    }

    /// The offset of the next declaration.
    pub fn original_position(&self) -> u64
        ensures { result ≡ place_of_next (locals_left self.now) }
    {
        self.reader.original_position()
    }

    /// The bytes that are left.
    pub fn get_binary_reader(&self) -> BinaryReader<'a>
        ensures { result ≡ locals_left self.now }
    {
        self.reader
    }

    /// The next declaration: how many locals, and their type. The caller counts them.
    ///
    /// # Errors
    ///
    /// Refused where the bytes encode none.
    pub fn read(&mut self) -> Result<(u32, ValType), Refusal>
        ensures same { SameInput (locals_left self.old) (locals_left self.new) }
        ensures onward { position_in (locals_left self.old) ≤ position_in (locals_left self.new) }
        ensures count { locals_count self.new ≡ locals_count self.old }
        ensures refusal { IfErr result (RefusedFrom (locals_left self.old)) }
        ensures ok { IfOk result (λ x. declaration_at (rest (locals_left self.old))
            ≡ Some (declaration_of x.0 x.1, rest (locals_left self.new))) }
        ensures err { OnErr result (declaration_at (rest (locals_left self.old)) ≡ None) }
    {
        let declaration = LocalDeclaration::read(&mut self.reader)?;
        Ok((declaration.count, declaration.ty))
    }

    /// The declarations, each with its offset, up to the last or the first refusal. None may have
    /// been read yet.
    pub fn into_iter_with_offsets(self) -> LocalsIterator<'a>
        ensures left { declarations_left result ≡ locals_count self.entry }
        ensures rest { declarations_to_come result ≡ locals_left self.entry }
    {
        LocalsIterator {
            locals: self,
            left: self.count,
        }
    }
}

/// The declarations that are still to come, each with its offset.
#[derive(Clone, Copy, Debug)]
pub struct LocalsIterator<'a> {
    locals: LocalsReader<'a>,
    left: u32,
}

impl<'a> Iterator for LocalsIterator<'a> {
    type Item = Result<(u64, u32, ValType), Refusal>;

    ghost use Rattle.std.specs.Iterator.{at_most};
    ghost use Rattle.wasm_parser.specs.SeenLocals.{DeclarationGives};

    ghost can_next = { λ _. Unit {0} };

    ghost next_gives = { λ s r t. DeclarationGives (declarations_left s) (declarations_to_come s) r
        (declarations_left t) (declarations_to_come t) };

    ghost remaining = { λ s. at_most (declarations_left s) };

    fn next(&mut self) -> Option<Result<(u64, u32, ValType), Refusal>> {
        if self.left == 0 {
            return None;
        }
        let offset = self.locals.original_position();
        match self.locals.read() {
            Ok((count, ty)) => {
                self.left -= 1;
                Some(Ok((offset, count, ty)))
            }
            Err(refusal) => {
                self.left = 0;
                Some(Err(refusal))
            }
        }
    }
}
