//! Lists inside types. An [`Items`] is a `Vec` that a contract sees as the list of its items, and
//! that is compared and hashed item by item.

ghost use Rattle.std.specs.Prelude.{◌≡◌, ◌++◌, ◌∷◌, [], length, OnOk, OnErr, IfErr, IsTrue, ◌↔◌};
ghost use Rattle.std.specs.List.{AllZip};
ghost use Rattle.std.specs.Cmp.Lexicographic.{pointwise, lists_equiv, lists_per};
ghost use Rattle.core.specs.Slice.Iter.{iter_rest};
ghost use Rattle.core.specs.Iterator.Adapters.{IterYieldsInOrder, IterYieldsInReverse};
ghost use Rattle.std.specs.Hash as fed;
ghost use Rattle.std.specs.Hash.{items_Alike};

use std::alloc::{AllocError, AllocFailed, Allocator, Global};
use std::fmt;
use std::hash::{Hash, Hasher};
use std::marker::Model;
use std::slice::Iter;
use wasm_readers_values::{Exact, Faithful};

/// A list of `T`. A contract sees the list alone, and neither capacity nor allocator.
#[derive(Drop)]
pub struct Items<T, A: Allocator = Global> {
    vec: Vec<T, A>,
}

impl<T, A: Allocator> Model for Items<T, A> {
    ghost use Rattle.std.specs.Prelude.{List};

    ghost Value = { List T };

    ghost view = { λ a. a.vec.items };
}

impl<T, A: Allocator> Items<T, A> {
    /// The list of nothing. It takes no memory until the first `push`.
    pub fn new(alloc: A) -> Items<T, A>
        ensures { result ≡ [] }
    {
        Items {
            vec: Vec::new(alloc),
        }
    }

    /// The list of what `vec` holds, in its order and in its memory.
    pub fn from_vec(vec: Vec<T, A>) -> Items<T, A>
        ensures { result ≡ vec.items }
    {
        Items { vec }
    }

    /// The items as a `Vec`, in the memory that they are in.
    pub fn into_vec(self) -> Vec<T, A>
        ensures { result.items ≡ self }
    {
        let Items { vec } = self;
        vec
    }

    /// The number of items.
    pub fn len(&self) -> usize
        ensures { result ≡ length self.now }
    {
        self.vec.len()
    }

    /// Whether there is no item.
    pub fn is_empty(&self) -> bool
        ensures { IsTrue result ↔ (length self.now ≡ 0) }
    {
        self.vec.is_empty()
    }

    /// The items in order.
    pub fn as_slice(&self) -> &[T]
        ensures { result.now ≡ self.now }
    {
        self.vec.as_slice()
    }

    /// An iterator over the items, in order.
    pub fn iter(&self) -> Iter<'_, T>
        ensures rest { iter_rest result ≡ self.now }
        ensures runs { IterYieldsInOrder T }
        ensures runs_back { IterYieldsInReverse T }
    {
        self.vec.as_slice().iter()
    }

    /// Puts `item` at the end. Where memory is refused, the list stays as it was and `item` comes
    /// back.
    pub fn push(&mut self, item: T) -> Result<(), AllocFailed<T>>
        ensures ok { OnOk result (self.new ≡ self.old ++ item ∷ []) }
        ensures err { OnErr result (self.new ≡ self.old) }
        ensures returned { IfErr result (λ e. e.value ≡ item) }
    {
        self.vec.push(item)
    }
}

impl<T: PartialEq, A: Allocator> PartialEq for Items<T, A> {
    ghost eq = { pointwise T.eq };

    ghost laws = { lists_per T.laws };

    fn eq(&self, other: &Items<T, A>) -> bool {
        self.vec == other.vec
    }
}

impl<T: Eq, A: Allocator> Eq for Items<T, A> {
    ghost laws = { lists_equiv T.Eq.laws };
}

impl<T: Exact, A: Allocator> Exact for Items<T, A> {
    ghost use Rattle.wasm_readers_values.specs.Exactness.{list-exact};

    ghost exact = { list-exact T.exact };
}

impl<T: Hash, A: Allocator> Hash for Items<T, A> {
    ghost hash_input = { fed.slice T.hash_input };

    ghost respects_eq = { (items_Alike (record { fed = T.respects_eq })).fed };

    fn hash<H: Hasher>(&self, state: &mut H) {
        self.vec.hash(state);
    }
}

impl<T: Clone, A: Allocator + Clone> Clone for Items<T, A> {
    ghost is_clone = { λ x y. AllZip T.is_clone x y };

    fn clone(&self) -> Result<Items<T, A>, AllocError> {
        Ok(Items {
            vec: self.vec.clone()?,
        })
    }
}

impl<T: fmt::Debug, A: Allocator> fmt::Debug for Items<T, A> {
    fn fmt<W: fmt::Write>(&self, f: &mut fmt::Formatter<W>) -> fmt::Result {
        self.vec.fmt(f)
    }
}

impl<T: Faithful, A: Allocator + Clone> Faithful for Items<T, A> {
    ghost use Rattle.std.proofs.lemmas.List.Elements.{same_from_all_zip};

    ghost faithful = { λ xs ys h. same_from_all_zip T.is_clone xs ys h T.faithful };
}
