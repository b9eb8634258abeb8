//! `==` and `clone` that contracts can rely on: a type is `Exact` where `==` says whether two
//! values are the same to a contract, and `Faithful` where a clone is its source to one.

ghost use Rattle.std.specs.Prelude.{◌≡◌, IfOk};
ghost use Rattle.std.specs.Bool.{Decides};
ghost use Rattle.std.proofs.Common.{rules};

use std::alloc::AllocError;

/// A type whose `==` says whether two values are the same to a contract.
pub trait Exact: PartialEq {
    ghost exact: { (x y : Self) → Decides (Self.PartialEq.eq x y) (x ≡ y) };
}

/// `==` at such a type, with what it says.
pub fn same<T: Exact>(a: &T, b: &T) -> bool
    ensures { Decides result (a.now ≡ b.now) }
{
    *a == *b
}

impl Exact for u32 {
    ghost use Rattle.std.proofs.lemmas.Bool.Decides.{Decides-eqb};

    ghost exact = { Decides-eqb };
}

impl Exact for u64 {
    ghost use Rattle.std.proofs.lemmas.Bool.Decides.{Decides-eqb};

    ghost exact = { Decides-eqb };
}

impl Exact for bool {
    ghost use Rattle.wasm_readers_values.specs.Exactness.{bool-exact};

    ghost exact = { bool-exact };
}

impl<T: Exact> Exact for Option<T> {
    ghost use Rattle.wasm_readers_values.specs.Exactness.{option-exact};

    ghost exact = { option-exact T.exact };
}

/// A type whose clones are the values themselves, to a contract.
pub trait Faithful: Clone {
    ghost faithful: { (x y : Self) → Self.Clone.is_clone x y → y ≡ x };
}

/// A clone that a contract cannot tell from its source.
pub fn copied<T: Faithful>(item: &T) -> Result<T, AllocError>
    ensures { IfOk result (λ copy. copy ≡ item.now) }
{
    item.clone()
}

impl Faithful for u32 {
    ghost faithful = { Prim.search rules };
}

impl Faithful for u64 {
    ghost faithful = { Prim.search rules };
}

impl Faithful for bool {
    ghost faithful = { Prim.search rules };
}

impl<T: Faithful> Faithful for Option<T> {
    ghost use Rattle.wasm_readers_values.specs.Exactness.{option-faithful};

    ghost faithful = { option-faithful _ T.faithful (λ b h. h) (λ a h. h) };
}
