//! A value that is written while it is owned and only read once it is shared.
ghost use Rattle.std.specs.Prelude.{◌≡◌, ◌↔◌, IfOk, IfSome, IsOk, IsSome, OnErr, OnOk, false, true};
ghost use Rattle.std.specs.Borrow.{sem};
ghost use Rattle.wasm_validator_states.specs.MaybeOwnedValues.{Held, owned, shared, is_owned, value_of};
ghost use Rattle.wasm_validator_states.specs.LentValues.{lends_owned, lends_value, ends_shared};

use core::mem::replace_with;
use std::alloc::{AllocError, Allocator, Global};
use std::default::Default;
use std::marker::Model;
use std::ops::Deref;
use std::rc::Rc;

/// Where the value is.
#[derive(Drop)]
enum Inner<T, A: Allocator> {
    Owned(T),
    Shared(Rc<T, A>),
}

/// A value that is written while it is owned, and only read once it is shared.
///
/// It is never without its value: where there is no memory to share it, it stays owned.
#[derive(Drop)]
pub struct MaybeOwned<T, A: Allocator = Global> {
    inner: Inner<T, A>,
}

impl<T, A: Allocator> Model for MaybeOwned<T, A> {
    ghost use Rattle.wasm_validator_states.specs.MaybeOwnedValues.{Held};

    ghost Value = { Held T };

    ghost use Rattle.wasm_validator_states.specs.MaybeOwnedFields.{seen};

    ghost view = { λ a. seen a.inner };
}

impl<T, A: Allocator> MaybeOwned<T, A> {
    /// The value, owned.
    pub fn new(value: T) -> MaybeOwned<T, A>
        ensures { result ≡ owned value }
    {
        MaybeOwned {
            inner: Inner::Owned(value),
        }
    }

    /// Whether the value was lost. It never is: a share that is refused memory gives it back.
    pub fn is_lost(&self) -> bool
        ensures { result ≡ false }
    {
        false
    }

    /// The value to write to, exactly while it is owned.
    pub fn as_mut(&mut self) -> Option<&mut T>
        ensures* writes_back { sem 𝓛 (lends_owned T.row A.row A.Allocator self.entry result) }
        ensures value { IfSome result (λ place. self.old ≡ owned place.now) }
        ensures when { IsSome result ↔ (is_owned self.old ≡ true) }
    {
        self.inner.as_mut()
    }

    /// The value to write to, where it is known to be owned ([`MaybeOwned::as_mut`] asks).
    pub fn assert_mut(&mut self) -> &mut T
        requires { is_owned self.old ≡ true }
        ensures* writes_back { sem 𝓛 (lends_value T.row A.row A.Allocator self.entry result) }
        ensures value { self.old ≡ owned result.now }
    {
        self.inner.assert_mut()
    }

    /// Shares the value where it is, and lends its owner, of which the caller may take more. A
    /// value that was shared stays as it was, and that takes no memory.
    ///
    /// # Errors
    ///
    /// Fails where memory is refused for a value that is owned, which stays as it was.
    pub fn arc(&mut self, alloc: A) -> Result<&Rc<T, A>, AllocError>
        ensures* shares { sem 𝓛 (ends_shared T.row A.row A.Allocator self.entry result) }
        ensures ok { IfOk result (λ owner. owner.now.value ≡ value_of self.old) }
        ensures when_shared { is_owned self.old ≡ false → IsOk result }
    {
        replace_with(&mut self.inner, alloc, Inner::share)?;
        Ok(self.inner.owner())
    }
}

impl<T, A: Allocator> Deref for MaybeOwned<T, A> {
    type Target = T;

    ghost deref_gives = { λ m x. x ≡ value_of m };

    /// The value to read, owned or shared.
    fn deref(&self) -> &T
        ensures { result.now ≡ value_of self.now }
    {
        match &self.inner {
            Inner::Owned(value) => value,
            Inner::Shared(owner) => owner.as_ref(),
        }
    }
}

impl<T: Default, A: Allocator> Default for MaybeOwned<T, A> {
    ghost is_default = { λ m. (is_owned m ≡ true) × T.is_default (value_of m) };

    /// A default value, owned.
    fn default() -> MaybeOwned<T, A> {
        MaybeOwned::new(T::default())
    }
}

impl<T, A: Allocator> Inner<T, A> {
    ghost use Rattle.wasm_validator_states.specs.LentInners.{lends_inner, lends_inner_value};
    ghost use Rattle.wasm_validator_states.specs.MaybeOwnedFields.{seen};

    /// The value to write to, exactly while it is owned.
    fn as_mut(&mut self) -> Option<&mut T>
        ensures* writes_back { sem 𝓛 (lends_inner T.row A.row A.Allocator self.entry result) }
        ensures value { IfSome result (λ place. seen self.old ≡ owned place.now) }
        ensures when { IsSome result ↔ (is_owned (seen self.old) ≡ true) }
    {
        match self {
            Inner::Owned(value) => Some(value),
            Inner::Shared(_) => None,
        }
    }

    /// The value to write to, where it is known to be owned.
    fn assert_mut(&mut self) -> &mut T
        requires { is_owned (seen self.old) ≡ true }
        ensures* writes_back { sem 𝓛 (lends_inner_value T.row A.row A.Allocator self.entry result) }
        ensures value { seen self.old ≡ owned result.now }
    {
        match self {
            Inner::Owned(value) => value,
            Inner::Shared(_) => unreachable!(),
        }
    }

    /// The value shared, and whether that succeeded. Where there is no memory it stays owned.
    fn share(self, alloc: A) -> (Inner<T, A>, Result<(), AllocError>)
        ensures ok { OnOk result.1 (seen result.0 ≡ shared (value_of (seen self))) }
        ensures err { OnErr result.1 (seen result.0 ≡ seen self) }
        ensures when_shared { is_owned (seen self) ≡ false → IsOk result.1 }
    {
        match self {
            Inner::Owned(value) => match Rc::new(alloc, value) {
                Ok(owner) => (Inner::Shared(owner), Ok(())),
                Err(refused) => (Inner::Owned(refused.value), Err(AllocError)),
            },
            Inner::Shared(owner) => (Inner::Shared(owner), Ok(())),
        }
    }

    /// The owner of a value that is known to be shared.
    fn owner(&self) -> &Rc<T, A>
        requires { is_owned (seen self.now) ≡ false }
        ensures { seen self.now ≡ shared result.now.value }
    {
        match self {
            Inner::Owned(_) => unreachable!(),
            Inner::Shared(owner) => owner,
        }
    }
}
