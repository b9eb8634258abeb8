//! What C keeps: a pointer to a box, or null.

ghost use Rattle.std.specs.Prelude.{◌≡◌, IfErr, IfOk, MatchOption};
ghost use Rattle.std.specs.declared.option.Option.{Option as Perhaps};
ghost use Rattle.std.specs.declared.option.Option.TheVariants.{None as Nothing, Some as Just};
ghost use Rattle.wasm_validator_handles.specs.declared.kept.Kept.{Kept as Stored};
ghost use Rattle.wasm_validator_handles.specs.Codes.{coded_held};
ghost use Rattle.wasm_validator_handles.specs.HandleContents.{Answers, Resets, Shares, types_of};

use crate::kept::{Answer, Kept, NotAsked};
use crate::loose::Loose;
use std::alloc::{AllocError, Global};
use std::marker::Model;
use std::mem::replace;
use std::ptr::null_mut;
use std::rc::Rc;
use wasm_validator::Types;

/// A place where a validator or types lie, or null. It is as large as a pointer. C moves it and never
/// copies it, and begins with null.
#[repr(C)]
pub struct Handle {
    at: *mut u8,
    alloc: Global,
    pub ghost value: { Perhaps Stored } by { coded_held },
}

impl Model for Handle {
    ghost use Rattle.wasm_validator_handles.specs.Handle.{handle_owns};
    ghost use Rattle.wasm_validator_handles.specs.contracts.kept.Kept.{the_row};

    ghost also_owns = { λ h. handle_owns the_row h.alloc h.at h.value };
}

impl Handle {
    /// A handle of nothing.
    pub fn empty(alloc: Global) -> Handle
        ensures { result.value ≡ Nothing }
    {
        Handle {
            at: null_mut(),
            alloc,
        }
    }

    fn of(it: Loose<Kept, Global>) -> Handle
        ensures { result.value ≡ Just it.value }
    {
        let Loose { at, alloc } = it;
        Handle {
            at: at as *mut u8,
            alloc,
        }
    }

    fn into_loose(self) -> Option<Loose<Kept, Global>>
        ensures { MatchOption result (self.value ≡ Nothing) (λ l. self.value ≡ Just l.value) }
    {
        let Handle { at, alloc } = self;
        if at.is_null() {
            None
        } else {
            Some(Loose {
                at: at as *mut Kept,
                alloc,
            })
        }
    }

    /// Takes what stands behind the handle, and leaves nothing there.
    pub fn open(&mut self, alloc: Global) -> Option<Box<Kept>>
        ensures taken { self.new.value ≡ Nothing }
        ensures held { MatchOption result (self.old.value ≡ Nothing) (λ b. self.old.value ≡ Just b.value) }
    {
        match replace(self, Handle::empty(alloc)).into_loose() {
            Some(it) => Some(it.into_box()),
            None => None,
        }
    }

    /// Puts this behind the handle. What stood there before is let go.
    pub fn close(&mut self, it: Box<Kept>)
        ensures { self.new.value ≡ Just it.value }
    {
        drop(replace(self, Handle::of(Loose::of(it))));
    }
}

impl Handle {
    /// Puts this behind the handle, if there is memory for it. What stood there before is let go.
    pub fn hold(&mut self, alloc: Global, kept: Kept) -> Result<(), AllocError>
        ensures held { IfOk result (λ _. self.new.value ≡ Just kept) }
        ensures unchanged { IfErr result (λ _. self.new.value ≡ self.old.value) }
    {
        let it = Box::new(alloc, kept)?;
        self.close(it);
        Ok(())
    }

    /// The same with the types of a module.
    pub fn hold_types(&mut self, alloc: Global, types: Types) -> Result<(), AllocError>
        ensures held { IfOk result (λ _. types_of self.new.value ≡ Just types) }
        ensures unchanged { IfErr result (λ _. self.new.value ≡ self.old.value) }
    {
        let shared = Rc::new(alloc, types)?;
        self.hold(alloc, Kept::Types(shared))
    }

    /// Asks the validator behind the handle about a module, as [`Kept::validate`] does.
    pub fn validate(&mut self, alloc: Global, bytes: &[u8]) -> Result<Answer, NotAsked>
        ensures { Answers result bytes.now self.old.value self.new.value }
    {
        let Some(mut it) = self.open(alloc) else {
            return Err(NotAsked::NoValidator);
        };
        let answer = it.as_mut().validate(bytes);
        self.close(it);
        answer
    }

    /// Makes the validator behind the handle ready for its next module.
    pub fn reset(&mut self, alloc: Global) -> Result<(), NotAsked>
        ensures { Resets result self.old.value self.new.value }
    {
        let Some(mut it) = self.open(alloc) else {
            return Err(NotAsked::NoValidator);
        };
        let answer = it.as_mut().reset();
        self.close(it);
        answer
    }

    /// The types behind the handle once more, if there are some.
    pub fn share(&mut self, alloc: Global) -> Option<Result<Kept, AllocError>>
        ensures unchanged { self.new.value ≡ self.old.value }
        ensures shared { Shares result self.old.value }
    {
        let it = self.open(alloc)?;
        let copy = it.as_ref().share();
        self.close(it);
        copy
    }
}

impl Drop for Handle {
    fn drop(self) {
        if let Some(it) = self.into_loose() {
            drop(it.into_box());
        }
    }
}
