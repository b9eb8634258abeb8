//! Types of a module written as a list of types has them.
//!
//! The unit is a recursion group (Core Specification 3.0, Validation, Types, Recursive Types). All
//! types before the group already have ids in the list, so each type index in it becomes one of two
//! things:
//!
//! - the id of a type of the module, where the index is of a type before the group;
//! - a position in the group, where the index is of one of its own types.
//!
//! So two groups that say the same are the same, wherever they stand in whichever module:
//!
//!     as written    (rec (struct (field (ref 4))) (struct (field (ref 3))))
//!                   (rec (struct (field (ref 6))) (struct (field (ref 5))))
//!     in the list   (rec (struct (field (rec 1))) (struct (field (rec 0)))) for both
//!
//! A list that keeps equal groups once finds them by one look-up of their hash
//! (`wasm_validator_type_list`, `interning.rt`).
//!
//! Each index is checked on the way: it must be of a type before the group, or with garbage
//! collection of one of the group; and what a type extends or describes must come before it
//! (`type_canonicalizer/sub_types.rt`). These are the only refusals for content here.

ghost use Rattle.std.specs.Prelude.{◌≡◌, ◌+◌, ◌<◌, ◌^◌, map, length, is_ok, IfOk, IfErr, true, false};
ghost use Rattle.std.specs.List.{list_all};
ghost use Rattle.wasm_spec.specs.Syntax.{map_ref, map_val, map_field, map_comp};
ghost use Rattle.wasm_spec.specs.References.{refs_heap, refs_comp};
ghost use Rattle.wasm_readers_types.specs.WasmReadersValues.declared.indices.TheConstants.{MAX_IDS};
ghost use Rattle.wasm_readers_types.specs.WasmReadersValues.Indices.{Fits};
ghost use Rattle.wasm_readers_types.specs.WasmReadersValues.SeenValues.{index_of, ref_of, val_of, field_of};
ghost use Rattle.wasm_readers_types.specs.SeenTypes.{func_of, comp_of};
ghost use Rattle.wasm_validator_canonical.specs.Answers.{Says, IsAt};
ghost use Rattle.wasm_validator_canonical.specs.Indices.{has_no_index};
ghost use Rattle.wasm_validator_canonical.specs.GroupFaults.{IfContent, ToldOfIndexBy};

use std::alloc::{AllocError, Allocator};
use wasm_readers_errors::{Error, Fault, Refusal, WasmFeatures};
use wasm_readers_types::{
    ArrayType, CompositeInnerType, ContType, CoreTypeId, FieldType, FuncType, HeapType, Items,
    PackedIndex, RefType, StorageType, StructType, UnpackedIndex, ValType,
};

mod sub_types;

pub use sub_types::extend_at_most_one;

/// Writes the types of one recursion group as a list of types has them: each type index of the
/// module as the id of its type, or as a position in the group.
#[derive(Clone, Copy)]
pub struct TypeCanonicalizer<'a> {
    ids: &'a [CoreTypeId],
    end: u32,
    has_gc: bool,
    offset: u64,
}

impl<'a> TypeCanonicalizer<'a> {
    ghost use Rattle.wasm_validator_canonical.specs.Refusals.{unknown_by};
    ghost use Rattle.wasm_validator_canonical.specs.Indices.{IsSmall, canonical_by, is_known_by, knows_val, knows_field};

    /// Of a group of `count` types behind those of the module, which have these ids. With `has_gc`
    /// types of the group may refer to one another. `offset` is where the group stands in the
    /// input.
    ///
    /// The types of the module and of the group must be fewer than 2³² together.
    pub fn new(
        ids: &'a [CoreTypeId],
        count: u32,
        has_gc: bool,
        offset: u64,
    ) -> TypeCanonicalizer<'a>
        requires room { length ids.now + count < 2 ^ 32 }
        ensures ids { result.ids.now ≡ ids.now }
        ensures end { result.end ≡ length ids.now + count }
        ensures gc { result.has_gc ≡ has_gc }
        ensures offset { result.offset ≡ offset }
    {
        TypeCanonicalizer {
            ids,
            end: ids.len() as u32 + count,
            has_gc,
            offset,
        }
    }

    /// The type index as the list has it: the id of the module's type, or a position in the group.
    fn resolve(&self, number: u32) -> UnpackedIndex
        requires small { IsSmall self.now }
        requires room { number < length self.now.ids.now + MAX_IDS }
        ensures value { result ≡ canonical_by self.now (UnpackedIndex.Module number) }
        ensures fits { Fits result }
    {
        let place = number as usize;
        if place < self.ids.len() {
            UnpackedIndex::Id(self.ids[place])
        } else {
            UnpackedIndex::RecGroup((place - self.ids.len()) as u32)
        }
    }

    /// The index as the list has it: the id of the module's type, or a position in the group.
    ///
    /// # Errors
    ///
    /// Refused, at the offset of the group, where it is no index of a module, where it is behind
    /// the group, and where it is of a type of the group but types of a group may not refer to one
    /// another.
    pub fn index(&self, index: UnpackedIndex) -> Result<UnpackedIndex, Refusal>
        requires { IsSmall self.now }
        ensures value { IfOk result (λ i. i ≡ canonical_by self.now index) }
        ensures fits { IfOk result Fits }
        ensures known { is_ok result ≡ is_known_by self.now index }
        ensures refusal { IfErr result (λ r. r ≡ unknown_by self.now index) }
        ensures told { IfErr result (ToldOfIndexBy self.now) }
    {
        let UnpackedIndex::Module(number) = index else {
            return Err(Refusal::new(Fault::UnknownType(0), self.offset));
        };
        if (number as usize) < self.ids.len() {
            return Ok(self.resolve(number));
        }
        if number >= self.end {
            return Err(Refusal::new(Fault::UnknownType(number), self.offset));
        }
        if !self.has_gc {
            let fault = Fault::UnknownTypeWithoutGc(number);
            return Err(Refusal::missing(fault, self.offset, WasmFeatures::GC));
        }
        Ok(self.resolve(number))
    }

    /// A packed index as the list has it.
    fn canonical_index(&self, index: PackedIndex) -> Result<PackedIndex, Refusal>
        requires { IsSmall self.now }
        ensures value { IfOk result (λ p. index_of p ≡ canonical_by self.now (index_of index)) }
        ensures known { is_ok result ≡ is_known_by self.now (index_of index) }
        ensures refusal { IfErr result (λ r. r ≡ unknown_by self.now (index_of index)) }
        ensures told { IfErr result (ToldOfIndexBy self.now) }
    {
        match self.index(index.unpack())?.pack() {
            Some(packed) => Ok(packed),
            None => unreachable!(),
        }
    }

    /// A reference type with its index as the list has it.
    fn reference(&self, ty: RefType) -> Result<RefType, Refusal>
        requires { IsSmall self.now }
        ensures value { IfOk result (λ r. ref_of r ≡ map_ref (canonical_by self.now) (ref_of ty)) }
        ensures known { is_ok result ≡ list_all (is_known_by self.now)
            (refs_heap (ref_of ty).heap) }
        ensures place { IfErr result (λ r. r.offset ≡ self.now.offset) }
        ensures told { IfErr result (ToldOfIndexBy self.now) }
    {
        let heap = match ty.heap_type() {
            HeapType::Abstract { .. } => return Ok(ty),
            HeapType::Concrete(index) => HeapType::Concrete(self.index(index)?),
            HeapType::Exact(index) => HeapType::Exact(self.index(index)?),
        };
        match RefType::new(ty.is_nullable(), heap) {
            Some(reference) => Ok(reference),
            None => unreachable!(),
        }
    }

    /// A value type with its index as the list has it.
    fn value(&self, ty: ValType) -> Result<ValType, Refusal>
        requires { IsSmall self.now }
        ensures value { IfOk result (λ v. val_of v ≡ map_val (canonical_by self.now) (val_of ty)) }
        ensures known { is_ok result ≡ knows_val self.now (val_of ty) }
        ensures place { IfErr result (λ r. r.offset ≡ self.now.offset) }
        ensures told { IfErr result (ToldOfIndexBy self.now) }
    {
        match ty {
            ValType::Ref(reference) => Ok(ValType::Ref(self.reference(reference)?)),
            other => Ok(other),
        }
    }

    /// A field with its index as the list has it.
    fn field(&self, ty: FieldType) -> Result<FieldType, Refusal>
        requires { IsSmall self.now }
        ensures value { IfOk result (λ x. field_of x
            ≡ map_field (canonical_by self.now) (field_of ty)) }
        ensures known { is_ok result ≡ knows_field self.now (field_of ty) }
        ensures place { IfErr result (λ r. r.offset ≡ self.now.offset) }
        ensures told { IfErr result (ToldOfIndexBy self.now) }
    {
        match ty.element_type {
            StorageType::Val(value) => Ok(FieldType {
                element_type: StorageType::Val(self.value(value)?),
                mutable: ty.mutable,
            }),
            _ => Ok(ty),
        }
    }

    /// Value types, each with its index as the list has it, in as much memory as they take.
    #[tactic(auto, using(crate::proofs::CanonicalTypes::values_laws))]
    fn values<A: Allocator + Copy>(
        &self,
        alloc: A,
        types: Vec<ValType, A>,
    ) -> Result<Vec<ValType, A>, Error>
        requires { IsSmall self.now }
        ensures value { IfOk result (λ vs. map val_of vs.items
            ≡ map (map_val (canonical_by self.now)) (map val_of types.items)) }
        ensures known { Says result (list_all (knows_val self.now) (map val_of types.items)) }
        ensures place { IfErr result (IsAt self.now.offset) }
        ensures told { IfErr result (IfContent (ToldOfIndexBy self.now)) }
    {
        if !have_index(types.as_slice()) {
            return Ok(fitting(alloc, types)?);
        }
        let mut canonical = Vec::with_capacity(alloc, types.len())?;
        for ty in types.as_slice() {
            match self.value(*ty) {
                Ok(value) => canonical.push(value)?,
                Err(refusal) => return Err(Error::Refused(refusal)),
            }
        }
        Ok(canonical)
    }

    /// Fields, each with its index as the list has it.
    fn fields<A: Allocator + Copy>(
        &self,
        alloc: A,
        types: &[FieldType],
    ) -> Result<Vec<FieldType, A>, Error>
        requires { IsSmall self.now }
        ensures value { IfOk result (λ xs. map field_of xs.items
            ≡ map (map_field (canonical_by self.now)) (map field_of types.now)) }
        ensures known { Says result (list_all (knows_field self.now) (map field_of types.now)) }
        ensures place { IfErr result (IsAt self.now.offset) }
        ensures told { IfErr result (IfContent (ToldOfIndexBy self.now)) }
    {
        let mut canonical = Vec::with_capacity(alloc, types.len())?;
        for ty in types {
            match self.field(*ty) {
                Ok(field) => canonical.push(field)?,
                Err(refusal) => return Err(Error::Refused(refusal)),
            }
        }
        Ok(canonical)
    }

    /// A function type with its indices as the list has them.
    #[tactic(auto, using(crate::proofs::CanonicalTypes::known_laws))]
    fn function<A: Allocator + Copy>(&self, alloc: A, ty: FuncType<A>) -> Result<FuncType<A>, Error>
        requires { IsSmall self.now }
        ensures value { IfOk result (λ f. func_of f
            ≡ map_comp (canonical_by self.now) (func_of ty)) }
        ensures known { Says result (list_all (is_known_by self.now) (refs_comp (func_of ty))) }
        ensures place { IfErr result (IsAt self.now.offset) }
        ensures told { IfErr result (IfContent (ToldOfIndexBy self.now)) }
    {
        let (params, results) = ty.into_parts();
        match self.values(alloc, params) {
            Ok(params) => match self.values(alloc, results) {
                Ok(results) => Ok(FuncType::new(params, results)),
                Err(error) => Err(error),
            },
            Err(error) => Err(error),
        }
    }

    /// A composite type with its indices as the list has them.
    #[tactic(auto, using(crate::proofs::CanonicalTypes::known_laws))]
    fn composite<A: Allocator + Copy>(
        &self,
        alloc: A,
        ty: CompositeInnerType<A>,
    ) -> Result<CompositeInnerType<A>, Error>
        requires small { IsSmall self.now }
        ensures value { IfOk result (λ c. comp_of c
            ≡ map_comp (canonical_by self.now) (comp_of ty)) }
        ensures known { Says result (list_all (is_known_by self.now) (refs_comp (comp_of ty))) }
        ensures place { IfErr result (IsAt self.now.offset) }
        ensures told { IfErr result (IfContent (ToldOfIndexBy self.now)) }
    {
        match ty {
            CompositeInnerType::Func(signature) => match self.function(alloc, signature) {
                Ok(signature) => Ok(CompositeInnerType::Func(signature)),
                Err(error) => Err(error),
            },
            CompositeInnerType::Array(array) => match self.field(array.0) {
                Ok(field) => Ok(CompositeInnerType::Array(ArrayType(field))),
                Err(refusal) => Err(Error::Refused(refusal)),
            },
            CompositeInnerType::Struct(structure) => {
                match self.fields(alloc, structure.fields.as_slice()) {
                    Ok(fields) => Ok(CompositeInnerType::Struct(StructType {
                        fields: Items::from_vec(fields),
                    })),
                    Err(error) => Err(error),
                }
            }
            CompositeInnerType::Cont(continuation) => match self.canonical_index(continuation.0) {
                Ok(index) => Ok(CompositeInnerType::Cont(ContType(index))),
                Err(refusal) => Err(Error::Refused(refusal)),
            },
        }
    }
}

/// The same value types in as much memory as they take: a list that was read may have more.
fn fitting<A: Allocator + Copy>(
    alloc: A,
    types: Vec<ValType, A>,
) -> Result<Vec<ValType, A>, AllocError>
    ensures { IfOk result (λ vs. vs.items ≡ types.items) }
{
    if types.len() == types.capacity() {
        return Ok(types);
    }
    Vec::from_slice(alloc, types.as_slice())
}

/// Whether one of the value types has a type index.
fn have_index(types: &[ValType]) -> bool
    ensures { (result ≡ false) → (list_all has_no_index (map val_of types.now) ≡ true) }
{
    for ty in types {
        if let ValType::Ref(reference) = ty {
            if reference.type_index().is_some() {
                return true;
            }
        }
    }
    false
}
