//! Defined types (Core Specification 3.0, Structure, Types), as plain data.
//!
//! A [`RecGroup`] holds the [`SubType`]s of one recursion group; each is a [`CompositeType`] with
//! what it extends and whether it may be extended, and a composite type is a function's, an
//! array's, a structure's or a continuation's, with its shared flag and its descriptor clauses.
//! References to other types are [`PackedIndex`]es in whatever form the type is in: as a module
//! writes it, or as a list of types has it.
//!
//! Groups are compared and hashed by their sub types alone, and not by whether `rec` is written:
//! the standard has one recursive type for both. Lists are in memory of the caller's choice (`A`),
//! so a clone may be refused. What each type says in the abstract syntax is in
//! `specs/SeenTypes.antt`.

ghost use Rattle.std.specs.Prelude.{◌≡◌, ◌∷◌, [], true, false, length, IfOk, IfErr};
ghost use Rattle.std.specs.Bool.{Decides};
ghost use Rattle.wasm_readers_values.specs.WasmSpec.Syntax as syntax;
ghost use Rattle.wasm_readers_types.specs.SeenTypes.{func_of, sub_of, rec_of, final_func, IsFunc, IsArray, IsStruct};
ghost use Rattle.std.proofs.Common.{rules};

use crate::items::Items;
use std::alloc::{AllocError, AllocFailed, Allocator, Global};
use std::hash::Hash;
use wasm_readers_values::{Exact, Faithful, FieldType, PackedIndex, ValType};

/// A function type (Core Specification 3.0, Structure, Types, Composite Types): what a function
/// takes and what it gives.
#[derive(Clone)]
#[derive_where(PartialEq, Eq, Hash, Debug)]
pub struct FuncType<A: Allocator = Global> {
    params: Items<ValType, A>,
    results: Items<ValType, A>,
}

// By hand: so each way out takes one call for it, and not a step for each field.
impl<A: Allocator> Drop for FuncType<A> {
    fn drop(self) {
        let FuncType {
            params: _,
            results: _,
        } = self;
    }
}

/// An array type (Core Specification 3.0, Structure, Types, Aggregate Types): what each place
/// holds.
#[derive(Clone, Copy, PartialEq, Eq, Hash, Debug)]
pub struct ArrayType(pub FieldType);

/// A structure type (Core Specification 3.0, Structure, Types, Aggregate Types).
#[derive(Clone, Drop)]
#[derive_where(PartialEq, Eq, Hash, Debug)]
pub struct StructType<A: Allocator = Global> {
    /// The fields in order.
    pub fields: Items<FieldType, A>,
}

/// A continuation type: the function type of what is resumed, by its index.
#[derive(Clone, Copy, PartialEq, Eq, Hash, Debug)]
pub struct ContType(pub PackedIndex);

/// What a defined type is, its flags aside (Core Specification 3.0, Structure, Types, Composite
/// Types).
#[derive(Drop)]
#[derive_where(Hash, Debug)]
pub enum CompositeInnerType<A: Allocator = Global> {
    /// A function type.
    Func(FuncType<A>),
    /// An array type.
    Array(ArrayType),
    /// A structure type.
    Struct(StructType<A>),
    /// A continuation type.
    Cont(ContType),
}

/// A composite type (Core Specification 3.0, Structure, Types, Composite Types).
#[derive(Clone, Drop)]
#[derive_where(PartialEq, Eq, Hash, Debug)]
pub struct CompositeType<A: Allocator = Global> {
    /// What it is.
    pub inner: CompositeInnerType<A>,
    /// Whether it is shared between threads.
    pub shared: bool,
    /// The type of its descriptors, if it has one.
    pub descriptor_idx: Option<PackedIndex>,
    /// The type that its values are descriptors of, if there is one.
    pub describes_idx: Option<PackedIndex>,
}

/// A sub type (Core Specification 3.0, Structure, Types, Recursive Types): a composite type with
/// what it extends.
#[derive(Clone, Drop)]
#[derive_where(PartialEq, Eq, Hash, Debug)]
pub struct SubType<A: Allocator = Global> {
    /// Whether no other type may extend it.
    pub is_final: bool,
    /// The types that it extends.
    pub supertype_idxs: Items<PackedIndex, A>,
    /// The composite type.
    pub composite_type: CompositeType<A>,
}

/// A recursion group (Core Specification 3.0, Structure, Types, Recursive Types). `==` and the hash
/// read its sub types alone, and not whether `rec` is written.
#[derive(Clone)]
#[derive_where(PartialEq, Eq, Hash, Debug)]
pub struct RecGroup<A: Allocator = Global> {
    #[derive_where(skip(EqHashOrd))]
    is_explicit: bool,
    types: Items<SubType<A>, A>,
}

// By hand: so each way out takes one call for it, and not a step for each field.
impl<A: Allocator> Drop for RecGroup<A> {
    fn drop(self) {
        let RecGroup {
            is_explicit: _,
            types: _,
        } = self;
    }
}

impl<A: Allocator> FuncType<A> {
    /// The function type from these values to those. It takes no memory of its own.
    pub fn new(params: Vec<ValType, A>, results: Vec<ValType, A>) -> FuncType<A>
        ensures params { result.params ≡ params.items }
        ensures results { result.results ≡ results.items }
    {
        FuncType {
            params: Items::from_vec(params),
            results: Items::from_vec(results),
        }
    }

    /// What the function takes, in order.
    pub fn params(&self) -> &[ValType]
        ensures { result.now ≡ self.now.params }
    {
        self.params.as_slice()
    }

    /// What the function gives, in order.
    pub fn results(&self) -> &[ValType]
        ensures { result.now ≡ self.now.results }
    {
        self.results.as_slice()
    }

    /// How many values the function takes.
    pub fn len_inputs(&self) -> usize
        ensures { result ≡ length self.now.params }
    {
        self.params.len()
    }

    /// How many values the function gives.
    pub fn len_outputs(&self) -> usize
        ensures { result ≡ length self.now.results }
    {
        self.results.len()
    }

    /// What the function takes and what it gives, in the memory that they are in.
    pub fn into_parts(self) -> (Vec<ValType, A>, Vec<ValType, A>)
        ensures params { result.0.items ≡ self.params }
        ensures results { result.1.items ≡ self.results }
    {
        let FuncType { params, results } = self;
        (params.into_vec(), results.into_vec())
    }
}

impl<A: Allocator> SubType<A> {
    /// The final sub type of a function, which extends nothing. It takes no memory.
    pub fn func(alloc: A, signature: FuncType<A>, shared: bool) -> SubType<A>
        ensures seen { sub_of result ≡ final_func (func_of signature) shared }
        ensures same { result.composite_type.inner ≡ CompositeInnerType.Func signature }
    {
        SubType {
            is_final: true,
            supertype_idxs: Items::new(alloc),
            composite_type: CompositeType {
                inner: CompositeInnerType::Func(signature),
                shared,
                descriptor_idx: None,
                describes_idx: None,
            },
        }
    }

    /// The function type of a sub type that is a function's.
    pub fn unwrap_func(&self) -> &FuncType<A>
        requires { IsFunc self.now.composite_type.inner }
        ensures { self.now.composite_type.inner ≡ CompositeInnerType.Func result.now }
    {
        self.composite_type.unwrap_func()
    }

    /// The array type of a sub type that is an array's.
    pub fn unwrap_array(&self) -> &ArrayType
        requires { IsArray self.now.composite_type.inner }
        ensures { self.now.composite_type.inner ≡ CompositeInnerType.Array result.now }
    {
        self.composite_type.unwrap_array()
    }

    /// The structure type of a sub type that is a structure's.
    pub fn unwrap_struct(&self) -> &StructType<A>
        requires { IsStruct self.now.composite_type.inner }
        ensures { self.now.composite_type.inner ≡ CompositeInnerType.Struct result.now }
    {
        self.composite_type.unwrap_struct()
    }
}

impl<A: Allocator> CompositeType<A> {
    /// The function type of a composite type that is a function's.
    pub fn unwrap_func(&self) -> &FuncType<A>
        requires { IsFunc self.now.inner }
        ensures { self.now.inner ≡ CompositeInnerType.Func result.now }
    {
        match &self.inner {
            CompositeInnerType::Func(signature) => signature,
            _ => unreachable!(),
        }
    }

    /// The array type of a composite type that is an array's.
    pub fn unwrap_array(&self) -> &ArrayType
        requires { IsArray self.now.inner }
        ensures { self.now.inner ≡ CompositeInnerType.Array result.now }
    {
        match &self.inner {
            CompositeInnerType::Array(array) => array,
            _ => unreachable!(),
        }
    }

    /// The structure type of a composite type that is a structure's.
    pub fn unwrap_struct(&self) -> &StructType<A>
        requires { IsStruct self.now.inner }
        ensures { self.now.inner ≡ CompositeInnerType.Struct result.now }
    {
        match &self.inner {
            CompositeInnerType::Struct(structure) => structure,
            _ => unreachable!(),
        }
    }
}

impl<A: Allocator> RecGroup<A> {
    /// The group of one sub type that is written without `rec`. Where memory is refused, the sub
    /// type comes back.
    pub fn implicit(alloc: A, ty: SubType<A>) -> Result<RecGroup<A>, AllocFailed<SubType<A>>>
        ensures flag { IfOk result (λ g. g.is_explicit ≡ false) }
        ensures types { IfOk result (λ g. g.types ≡ ty ∷ []) }
        ensures returned { IfErr result (λ e. e.value ≡ ty) }
    {
        let mut types = Items::new(alloc);
        types.push(ty)?;
        Ok(RecGroup {
            is_explicit: false,
            types,
        })
    }

    /// The group that is written with `rec`, of any number of sub types.
    pub fn explicit(types: Vec<SubType<A>, A>) -> RecGroup<A>
        ensures flag { result.is_explicit ≡ true }
        ensures types { result.types ≡ types.items }
    {
        RecGroup {
            is_explicit: true,
            types: Items::from_vec(types),
        }
    }

    /// Whether `rec` is written.
    pub fn is_explicit_rec_group(&self) -> bool
        ensures { result ≡ self.now.is_explicit }
    {
        self.is_explicit
    }

    /// The sub types in order.
    pub fn types(&self) -> &[SubType<A>]
        ensures { result.now ≡ self.now.types }
    {
        self.types.as_slice()
    }

    /// The sub types in order, in the memory that they are in.
    pub fn into_types(self) -> Vec<SubType<A>, A>
        ensures { result.items ≡ self.types }
    {
        let RecGroup {
            is_explicit: _,
            types,
        } = self;
        types.into_vec()
    }
}

impl<A: Allocator> Exact for FuncType<A> {
    ghost use Rattle.wasm_readers_types.specs.TypesExact.{func-exact};

    ghost exact = { func-exact };
}

impl Exact for ArrayType {
    ghost use Rattle.wasm_readers_types.specs.TypesExact.{array-exact};

    ghost exact = { array-exact };
}

impl<A: Allocator> Exact for StructType<A> {
    ghost use Rattle.wasm_readers_types.specs.TypesExact.{struct-exact};

    ghost exact = { struct-exact };
}

impl Exact for ContType {
    ghost use Rattle.wasm_readers_types.specs.TypesExact.{cont-exact};

    ghost exact = { cont-exact };
}

impl<A: Allocator> PartialEq for CompositeInnerType<A> {
    ghost use Rattle.std.specs.Cmp.{partial_equiv_from_equiv};
    ghost use Rattle.wasm_readers_values.specs.Exactness.{equiv_from_exact};
    ghost use Rattle.wasm_readers_types.specs.TypesExact.{inner_equal, inner-exact};

    ghost eq = { inner_equal };

    ghost laws = { partial_equiv_from_equiv (equiv_from_exact inner-exact) };

    fn eq(&self, other: &CompositeInnerType<A>) -> bool {
        match (self, other) {
            (CompositeInnerType::Func(a), CompositeInnerType::Func(b)) => a == b,
            (CompositeInnerType::Array(a), CompositeInnerType::Array(b)) => a == b,
            (CompositeInnerType::Struct(a), CompositeInnerType::Struct(b)) => a == b,
            (CompositeInnerType::Cont(a), CompositeInnerType::Cont(b)) => a == b,
            _ => false,
        }
    }
}

impl<A: Allocator> Eq for CompositeInnerType<A> {
    ghost use Rattle.wasm_readers_values.specs.Exactness.{equiv_from_exact};
    ghost use Rattle.wasm_readers_types.specs.TypesExact.{inner-exact};

    ghost laws = { equiv_from_exact inner-exact };
}

#[derived]
impl<A> Hash for CompositeInnerType<A> {
    ghost use Rattle.std.specs.Hash.{same_Alike};
    ghost use Rattle.wasm_readers_types.specs.TypesExact.{inner-exact};

    ghost respects_eq = { (same_Alike _ inner-exact).fed };
}

impl<A: Allocator> Exact for CompositeInnerType<A> {
    ghost use Rattle.wasm_readers_types.specs.TypesExact.{inner-exact};

    ghost exact = { inner-exact };
}

impl<A: Allocator> Exact for CompositeType<A> {
    ghost use Rattle.wasm_readers_types.specs.TypesExact.{composite-exact};

    ghost exact = { composite-exact };
}

impl<A: Allocator> Exact for SubType<A> {
    ghost use Rattle.wasm_readers_types.specs.TypesExact.{sub-exact};

    ghost exact = { sub-exact };
}

impl<A: Allocator + Clone> Faithful for FuncType<A> {
    ghost use Rattle.wasm_readers_types.specs.TypesFaithful.{func-faithful};

    ghost faithful = { func-faithful };
}

impl Faithful for ArrayType {
    ghost faithful = { Prim.search rules };
}

impl<A: Allocator + Clone> Faithful for StructType<A> {
    ghost use Rattle.wasm_readers_types.specs.TypesFaithful.{struct-faithful};

    ghost faithful = { struct-faithful };
}

impl Faithful for ContType {
    ghost faithful = { Prim.search rules };
}

impl<A: Allocator + Clone> Clone for CompositeInnerType<A> {
    ghost is_clone = { λ x y. y ≡ x };

    #[tactic(auto, using(crate::proofs::Clones::clones))]
    fn clone(&self) -> Result<CompositeInnerType<A>, AllocError> {
        match self {
            CompositeInnerType::Func(signature) => Ok(CompositeInnerType::Func(signature.clone()?)),
            CompositeInnerType::Array(array) => Ok(CompositeInnerType::Array(*array)),
            CompositeInnerType::Struct(structure) => Ok(CompositeInnerType::Struct(
                structure.clone()?,
            )),
            CompositeInnerType::Cont(continuation) => Ok(CompositeInnerType::Cont(*continuation)),
        }
    }
}

impl<A: Allocator + Clone> Faithful for CompositeInnerType<A> {
    ghost faithful = { λ x y e. e };
}

impl<A: Allocator + Clone> Faithful for CompositeType<A> {
    ghost use Rattle.wasm_readers_values.specs.Exactness.{option-faithful};
    ghost use Rattle.wasm_readers_types.specs.TypesFaithful.{composite-faithful};

    ghost faithful = { composite-faithful ⟦<Option<PackedIndex> as Clone>⟧.is_clone
        (option-faithful _ (λ a b e. e) (λ b e. e) (λ a e. e)) };
}

impl<A: Allocator + Clone> Faithful for SubType<A> {
    ghost use Rattle.wasm_readers_values.specs.Exactness.{option-faithful};
    ghost use Rattle.wasm_readers_types.specs.TypesFaithful.{sub-faithful};

    ghost faithful = { sub-faithful ⟦<Option<PackedIndex> as Clone>⟧.is_clone
        (option-faithful _ (λ a b e. e) (λ b e. e) (λ a e. e)) };
}

impl<A: Allocator + Clone> Faithful for RecGroup<A> {
    ghost use Rattle.wasm_readers_values.specs.Exactness.{option-faithful};
    ghost use Rattle.wasm_readers_types.specs.TypesFaithful.{group-faithful};

    ghost faithful = { group-faithful ⟦<Option<PackedIndex> as Clone>⟧.is_clone
        (option-faithful _ (λ a b e. e) (λ b e. e) (λ a e. e)) };
}

/// Whether two sub types are the same, and so say the same: what `==` says.
pub fn same_sub<A: Allocator>(a: &SubType<A>, b: &SubType<A>) -> bool
    ensures same { Decides result (a.now ≡ b.now) }
    ensures seen { Decides result (sub_of a.now ≡ sub_of b.now) }
{
    *a == *b
}

/// Whether two groups have the same sub types, whether or not `rec` is written: what `==` says.
pub fn same_group<A: Allocator>(group: &RecGroup<A>, other: &RecGroup<A>) -> bool
    ensures same { Decides result (group.now.types ≡ other.now.types) }
    ensures seen { Decides result ((rec_of group.now).types ≡ (rec_of other.now).types) }
{
    *group == *other
}
