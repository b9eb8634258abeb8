//! Tables, while they are made and once they are.

ghost use Rattle.std.specs.Prelude.{◌≡◌, ◌++◌, ◌∷◌, [], true, false, OnOk, IfErr, Some, None};
ghost use Rattle.wasm_validator_side_notes.specs.TableViews.{shown};
ghost use Rattle.wasm_validator_side_notes.specs.Tables.{IsEmptyTable};
ghost use Rattle.wasm_spec_side_tables.specs.OnePassTables.{begun, resolved_each};

use std::alloc::{AllocError, Allocator, Global};
use wasm_readers_errors::Error;
use wasm_spec_side_tables::{Counted, Entry, OpenBlock, Place};
use wasm_typing_stacks::Stack;

/// A side table, and the memory in which the next one is made.
pub struct SideTable<A: Allocator = Global> {
    pub(crate) entries: Counted<Entry, A>,
    pub(crate) places: Counted<Place, A>,
    pub(crate) blocks: Stack<OpenBlock, A>,
    pub(crate) operands: u32,
    pub(crate) locals: u32,
    pub(crate) first: u32,
    pub(crate) end: u32,
}

// By hand: so each way out takes one call for it, and not a step for each field.
impl<A: Allocator> Drop for SideTable<A> {
    fn drop(self) {
        let SideTable {
            entries: _,
            places: _,
            blocks: _,
            operands: _,
            locals: _,
            first: _,
            end: _,
        } = self;
    }
}

impl<A: Allocator + Copy> SideTable<A> {
    /// No memory yet.
    pub fn new(alloc: A) -> SideTable<A> {
        SideTable {
            entries: Counted::new(alloc),
            places: Counted::new(alloc),
            blocks: Stack::new(alloc),
            operands: 0,
            locals: 0,
            first: 0,
            end: 0,
        }
    }
}

impl<A: Allocator> SideTable<A> {
    /// The entries, in the order of the branches.
    pub fn entries(&self) -> &[Entry]
        ensures { result.now ≡ self.now.entries }
    {
        self.entries.as_slice()
    }

    /// The greatest number of operands that the body has at once.
    pub fn operands(&self) -> u32
        ensures { result ≡ self.now.operands }
    {
        self.operands
    }

    /// How many locals the body has, parameters included.
    pub fn locals(&self) -> u32
        ensures { result ≡ self.now.locals }
    {
        self.locals
    }

    /// The offset of the body's first instruction, behind its declarations of locals.
    pub fn first(&self) -> u32
        ensures { result ≡ self.now.first }
    {
        self.first
    }

    /// The offset behind the body's last instruction.
    pub fn end(&self) -> u32
        ensures { result ≡ self.now.end }
    {
        self.end
    }

    /// Makes room for the table of another body.
    ///
    /// # Errors
    ///
    /// Answers want of memory.
    pub fn begin(&mut self) -> Result<(), Error>
        ensures begun { OnOk result (shown self.new ≡ begun) }
        ensures low { OnOk result (self.new.operands ≡ 0) }
        ensures memory { IfErr result (λ e. e ≡ Error.OutOfMemory) }
    {
        self.clear();
        match self.open_block(false, 0) {
            Ok(()) => Ok(()),
            Err(_) => Err(Error::OutOfMemory),
        }
    }

    /// Leaves nothing of the table that was made.
    pub fn clear(&mut self)
        ensures shown { shown self.new ≡ record {
          entries = [];
          nest = record {
            places = [];
            open_blocks = [];
          };
        } }
        ensures empty { IsEmptyTable self.new }
    {
        self.entries.clear();
        self.places.clear();
        self.blocks.truncate(0);
        self.operands = 0;
        self.locals = 0;
        self.first = 0;
        self.end = 0;
    }

    /// Notes the greatest number of operands that the body has at once.
    pub fn set_operands(&mut self, operands: u32)
        ensures { self.new ≡ record self.old { operands = operands } }
    {
        self.operands = operands;
    }

    /// Notes how many locals the body has, parameters included.
    pub fn set_locals(&mut self, locals: u32)
        ensures { self.new ≡ record self.old { locals = locals } }
    {
        self.locals = locals;
    }

    /// Notes where the body's first instruction stands, and where its last one ends.
    pub fn set_places(&mut self, first: u32, end: u32)
        ensures { self.new ≡ record self.old { first = first; end = end } }
    {
        self.first = first;
        self.end = end;
    }

    /// Puts the places into the entries, where all blocks are closed, and says whether that was done.
    pub fn finish(&mut self) -> bool
        ensures resolved { result ≡ true → resolved_each self.old.places self.old.entries
            ≡ Some self.new.entries }
        ensures closed { result ≡ true → self.old.blocks ≡ [] }
        ensures not_done { result ≡ false → self.old.blocks ≡ []
            → resolved_each self.old.places self.old.entries ≡ None }
        ensures counts { (self.new.operands ≡ self.old.operands)
            × (self.new.locals ≡ self.old.locals) }
        ensures places { (self.new.first ≡ self.old.first) × (self.new.end ≡ self.old.end) }
    {
        if self.blocks.len() != 0 {
            return false;
        }
        self.entries.resolve(self.places.as_slice())
    }

    /// One entry more.
    #[inline(always)]
    pub(crate) fn add(&mut self, entry: Entry) -> Result<(), AllocError>
        ensures added { OnOk result (shown self.new ≡ record {
          entries = (shown self.old).entries
              ++ entry ∷ [];
          nest = (shown self.old).nest;
        }) }
        ensures operands { OnOk result (self.new.operands ≡ self.old.operands) }
    {
        match self.entries.push(entry) {
            Ok(()) => Ok(()),
            Err(_) => Err(AllocError),
        }
    }
}
