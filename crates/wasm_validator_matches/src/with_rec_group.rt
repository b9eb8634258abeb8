//! Parts of types, each with the group that its references stand in.

ghost use Rattle.std.specs.Prelude.{◌≡◌};
ghost use Rattle.std.specs.Borrow.{Lends, sem};
ghost use Rattle.wasm_validator_matches.specs.contracts.with_rec_group.WithRecGroup.{the_row};

use std::ops::{Deref, DerefMut};
use wasm_validator_type_list::RecGroupId;

/// A part of a type, with the group that its references stand in.
#[derive(Clone, Copy)]
pub struct WithRecGroup<T> {
    pub(crate) inner: T,
    pub(crate) rec_group: RecGroupId,
}

impl<T> WithRecGroup<T> {
    /// This part, in the group.
    pub fn new(inner: T, rec_group: RecGroupId) -> WithRecGroup<T>
        ensures inner { result.inner ≡ inner }
        ensures group { result.rec_group ≡ rec_group }
    {
        WithRecGroup { inner, rec_group }
    }

    /// The group of the part.
    pub fn rec_group(x: &WithRecGroup<T>) -> RecGroupId
        ensures { result ≡ x.now.rec_group }
    {
        x.rec_group
    }

    /// What the function makes of the part, in the same group.
    pub fn map<U, F: FnOnce(T) -> U>(x: WithRecGroup<T>, f: F) -> WithRecGroup<U>
        requires { F.pre f x.inner }
        ensures made { F.post f x.inner result.inner }
        ensures group { result.rec_group ≡ x.rec_group }
    {
        WithRecGroup {
            inner: f(x.inner),
            rec_group: x.rec_group,
        }
    }
}

impl<T> Deref for WithRecGroup<T> {
    type Target = T;

    ghost deref_gives = { λ x part. part ≡ x.inner };

    fn deref(&self) -> &T {
        &self.inner
    }
}

impl<T> DerefMut for WithRecGroup<T> {
    ghost deref_mut_gives = { λ x part. part ≡ x.inner };

    fn deref_mut(&mut self) -> &mut T
        ensures* writes_back { sem 𝓛 (Lends (the_row T.row) T.row self.entry result
            (λ part. record { inner = part; rec_group = self.old.rec_group })) }
        ensures value { result.now ≡ self.old.inner }
    {
        &mut self.inner
    }
}
