//! The sub types of a group: what a type extends and what it describes must come before it, and all
//! else is written as any reference is.

ghost use Rattle.std.specs.Prelude.{◌≡◌, ◌+◌, ◌≤◌, ◌<◌, map, length, is_ok, IfOk, IfErr, option_map};
ghost use Rattle.std.specs.List.{list_all};
ghost use Rattle.wasm_spec.specs.Syntax.{map_comp, map_sub};
ghost use Rattle.wasm_spec.specs.References.{refs_option};
ghost use Rattle.wasm_readers_types.specs.WasmReadersValues.SeenValues.{index_of};
ghost use Rattle.wasm_readers_types.specs.SeenTypes.{comp_of, sub_of};
ghost use Rattle.wasm_validator_canonical.specs.Answers.{Says, IsAt};
ghost use Rattle.wasm_validator_canonical.specs.Refusals.{late_by};
ghost use Rattle.wasm_validator_canonical.specs.Indices.{IsSmall, IsCanonicalOf, knows_composite, canonical_by, is_known_by, is_earlier, extends_at_most_one, is_bound_by, are_bound_by};
ghost use Rattle.wasm_validator_canonical.specs.GroupFaults.{IfContent, ToldOfIndexBy};

use crate::type_canonicalizer::TypeCanonicalizer;
use std::alloc::Allocator;
use wasm_readers_errors::{DescriptorRule, Error, Fault, GroupRule, Refusal};
use wasm_readers_types::{CompositeType, Items, PackedIndex, SubType, UnpackedIndex};

impl<'a> TypeCanonicalizer<'a> {
    /// The index of a type before the one at the index `before`, as the list has it. Any other type
    /// index is refused for this fault.
    fn earlier(&self, index: PackedIndex, before: u32, fault: Fault) -> Result<PackedIndex, Refusal>
        requires small { IsSmall self.now }
        requires inside { before ≤ self.now.end }
        ensures value { IfOk result (λ p. index_of p ≡ canonical_by self.now (index_of index)) }
        ensures known { is_ok result ≡ is_earlier before (index_of index) }
        ensures refusal { IfErr result (λ r. r ≡ late_by self.now fault (index_of index)) }
    {
        let UnpackedIndex::Module(number) = index.unpack() else {
            return Err(Refusal::new(Fault::UnknownType(0), self.offset));
        };
        if number >= before {
            return Err(Refusal::new(fault, self.offset));
        }
        match self.resolve(number).pack() {
            Some(packed) => Ok(packed),
            None => unreachable!(),
        }
    }

    /// The supertypes of the type at the index `before`, as the list has them. It takes memory only
    /// where there is one.
    fn supertypes<A: Allocator + Copy>(
        &self,
        alloc: A,
        before: u32,
        indices: &[PackedIndex],
    ) -> Result<Items<PackedIndex, A>, Error>
        requires small { IsSmall self.now }
        requires inside { before ≤ self.now.end }
        ensures value { IfOk result (λ ps. map index_of ps
            ≡ map (canonical_by self.now) (map index_of indices.now)) }
        ensures known { Says result (list_all (is_earlier before) (map index_of indices.now)) }
        ensures place { IfErr result (IsAt self.now.offset) }
        ensures told { IfErr result (IfContent (ToldOfIndexBy self.now)) }
    {
        let mut canonical = Vec::new(alloc);
        for index in indices {
            let fault = Fault::Group(GroupRule::SupertypeAfterSubtype);
            match self.earlier(*index, before, fault) {
                Ok(supertype) => canonical.push(supertype)?,
                Err(refusal) => return Err(Error::Refused(refusal)),
            }
        }
        Ok(Items::from_vec(canonical))
    }

    /// What the type at the index `before` describes, as the list has it.
    fn described_index(
        &self,
        before: u32,
        index: Option<PackedIndex>,
    ) -> Result<Option<PackedIndex>, Refusal>
        requires small { IsSmall self.now }
        requires inside { before ≤ self.now.end }
        ensures value { IfOk result (λ o. option_map index_of o
            ≡ option_map (canonical_by self.now) (option_map index_of index)) }
        ensures known { is_ok result ≡ list_all (is_earlier before)
            (refs_option (option_map index_of index)) }
        ensures place { IfErr result (λ r. r.offset ≡ self.now.offset) }
        ensures told { IfErr result (ToldOfIndexBy self.now) }
    {
        match index {
            Some(index) => {
                let fault = Fault::Descriptor(DescriptorRule::ForwardDescribes);
                Ok(Some(self.earlier(index, before, fault)?))
            }
            None => Ok(None),
        }
    }

    /// The type of a type's descriptors, as the list has it.
    fn descriptor(&self, index: Option<PackedIndex>) -> Result<Option<PackedIndex>, Refusal>
        requires { IsSmall self.now }
        ensures value { IfOk result (λ o. option_map index_of o
            ≡ option_map (canonical_by self.now) (option_map index_of index)) }
        ensures known { is_ok result ≡ list_all (is_known_by self.now)
            (refs_option (option_map index_of index)) }
        ensures place { IfErr result (λ r. r.offset ≡ self.now.offset) }
        ensures told { IfErr result (ToldOfIndexBy self.now) }
    {
        match index {
            Some(index) => Ok(Some(self.canonical_index(index)?)),
            None => Ok(None),
        }
    }

    /// The composite type of the type at this index, with its indices as the list has them.
    fn composite_type<A: Allocator + Copy>(
        &self,
        alloc: A,
        index: u32,
        ty: CompositeType<A>,
    ) -> Result<CompositeType<A>, Error>
        requires small { IsSmall self.now }
        requires inside { index ≤ self.now.end }
        ensures inner { IfOk result (λ c. comp_of c.inner
            ≡ map_comp (canonical_by self.now) (comp_of ty.inner)) }
        ensures shared { IfOk result (λ c. c.shared ≡ ty.shared) }
        ensures descriptor { IfOk result (λ c. IsCanonicalOf self.now
            ty.descriptor_idx c.descriptor_idx) }
        ensures describes { IfOk result (λ c. IsCanonicalOf self.now
            ty.describes_idx c.describes_idx) }
        ensures known { Says result (knows_composite self.now index ty) }
        ensures place { IfErr result (IsAt self.now.offset) }
        ensures told { IfErr result (IfContent (ToldOfIndexBy self.now)) }
    {
        let describes_idx = match self.described_index(index, ty.describes_idx) {
            Ok(described) => described,
            Err(refusal) => return Err(Error::Refused(refusal)),
        };
        let descriptor_idx = match self.descriptor(ty.descriptor_idx) {
            Ok(descriptor) => descriptor,
            Err(refusal) => return Err(Error::Refused(refusal)),
        };
        let shared = ty.shared;
        match self.composite(alloc, ty.inner) {
            Ok(inner) => Ok(CompositeType {
                inner,
                shared,
                descriptor_idx,
                describes_idx,
            }),
            Err(error) => Err(error),
        }
    }

    /// The sub type at this index, with its indices as the list has them.
    fn sub_type<A: Allocator + Copy>(
        &self,
        alloc: A,
        index: u32,
        ty: SubType<A>,
    ) -> Result<SubType<A>, Error>
        requires small { IsSmall self.now }
        requires inside { index ≤ self.now.end }
        ensures value { IfOk result (λ s. sub_of s ≡ map_sub (canonical_by self.now) (sub_of ty)) }
        ensures known { Says result (is_bound_by self.now index (sub_of ty)) }
        ensures place { IfErr result (IsAt self.now.offset) }
        ensures told { IfErr result (IfContent (ToldOfIndexBy self.now)) }
    {
        let is_final = ty.is_final;
        match self.supertypes(alloc, index, ty.supertype_idxs.as_slice()) {
            Ok(supertype_idxs) => match self.composite_type(alloc, index, ty.composite_type) {
                Ok(composite_type) => Ok(SubType {
                    is_final,
                    supertype_idxs,
                    composite_type,
                }),
                Err(error) => Err(error),
            },
            Err(error) => Err(error),
        }
    }

    /// The sub types of the group, with their indices as the list has them. What a type extends and
    /// what it describes come before it; any other reference is to a type before the group, or with
    /// gc to one in it.
    ///
    /// Core Specification 3.0, Validation, Types (Recursive Types).
    ///
    /// # Errors
    ///
    /// Refused, at the offset of the group, where an index is out of these bounds; and where memory
    /// is.
    pub fn sub_types<A: Allocator + Copy>(
        &self,
        alloc: A,
        types: Vec<SubType<A>, A>,
    ) -> Result<Vec<SubType<A>, A>, Error>
        requires small { IsSmall self.now }
        requires whole { self.now.end ≡ length self.now.ids.now + length types.items }
        ensures value { IfOk result (λ ss. map sub_of ss.items
            ≡ map (map_sub (canonical_by self.now)) (map sub_of types.items)) }
        ensures known { Says result (are_bound_by self.now (length self.now.ids.now)
            (map sub_of types.items)) }
        ensures place { IfErr result (IsAt self.now.offset) }
        ensures told { IfErr result (IfContent (ToldOfIndexBy self.now)) }
    {
        let mut canonical = Vec::new(alloc);
        for ty in types {
            let index = (self.ids.len() + canonical.len()) as u32;
            match self.sub_type(alloc, index, ty) {
                Ok(sub_type) => canonical.push(sub_type)?,
                Err(error) => return Err(error),
            }
        }
        Ok(canonical)
    }
}

/// Whether each of the types has at most one supertype.
pub fn extend_at_most_one<A: Allocator>(types: &[SubType<A>]) -> bool
    ensures { result ≡ list_all extends_at_most_one (map sub_of types.now) }
{
    for ty in types {
        if ty.supertype_idxs.len() > 1 {
            return false;
        }
    }
    true
}
