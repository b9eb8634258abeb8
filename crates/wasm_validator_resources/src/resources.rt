//! The look-ups.

ghost use Rattle.std.specs.Prelude.{◌≡◌, length, Some, slice_get, OnOk, IsSome};
ghost use Rattle.std.specs.Option.{option_map};
ghost use Rattle.wasm_readers_errors.specs.WasmSpec.Matching.{is_shared_heap, top_of_heap};
ghost use Rattle.wasm_readers_errors.specs.WasmSpec.MatchingTests.{matches_val};
ghost use Rattle.wasm_spec_rules.specs.Contexts.{Context};
ghost use Rattle.wasm_spec_rules.specs.FeatureFlags.{features_of};
ghost use Rattle.wasm_readers_types.specs.SeenExterns.{table_of, memory_of, global_of};
ghost use Rattle.wasm_readers_types.specs.SeenTypes.{sub_of};
ghost use Rattle.wasm_readers_types.specs.WasmReadersValues.SeenValues.{heap_of, ref_of, val_of, HeapFits};
ghost use Rattle.wasm_readers_types.specs.WasmReadersValues.declared.indices.UnpackedIndex.{UnpackedIndex};
ghost use Rattle.wasm_readers_types.specs.WasmReadersValues.declared.indices.UnpackedIndex.TheVariants.{Id};
ghost use Rattle.wasm_spec_rules.specs.Attempts.{passes, among};
ghost use Rattle.wasm_validator_resources.specs.Answers.{world, sub_in, sub_of_id, function_type_in, tag_in, heap_in, ref_in, val_in, signature_seen, IsWrittenHeap, IsWrittenVal, Puts};

use crate::check_value_type;
use std::alloc::Allocator;
use wasm_readers_errors::{Refusal, WasmFeatures};
use wasm_readers_types::{
    CoreTypeId, FuncType, GlobalType, HeapType, MemoryType, RefType, SubType, TableType,
    UnpackedIndex, ValType,
};

/// What operators look up of a module. Every answer is read from one context, and its types are
/// identities, as ids are.
pub trait WasmModuleResources {
    /// The memory that the types are in.
    type A: Allocator;

    /// What the answers are read from.
    ghost context: { Self → Context UnpackedIndex };

    /// The type of the table of this index, if there is one.
    fn table_at(&self, at: u32) -> Option<TableType>
        ensures { option_map table_of result ≡ slice_get (context self.now).tables at };

    /// The type of the memory of this index, if there is one.
    fn memory_at(&self, at: u32) -> Option<MemoryType>
        ensures { option_map memory_of result ≡ slice_get (context self.now).memories at };

    /// The function type of the tag of this index, if there is one.
    fn tag_at(&self, at: u32) -> Option<&FuncType<Self::A>>
        ensures { option_map (λ f. signature_seen f.now) result ≡ tag_in (context self.now) at };

    /// The type of the global of this index, if there is one.
    fn global_at(&self, at: u32) -> Option<GlobalType>
        ensures { option_map global_of result ≡ slice_get (context self.now).globals at };

    /// The type of this type index, if there is one.
    fn sub_type_at(&self, type_index: u32) -> Option<&SubType<Self::A>>
        ensures { option_map (λ t. sub_of t.now) result ≡ sub_in (context self.now) type_index };

    /// The type of an identity, if it is known. What is no id has none.
    fn sub_type_of(&self, identity: UnpackedIndex) -> Option<&SubType<Self::A>>
        ensures { option_map (λ t. sub_of t.now) result
            ≡ (world (context self.now)).declared identity };

    /// The type of an id that is known.
    fn sub_type_at_id(&self, id: CoreTypeId) -> &SubType<Self::A>
        requires { IsSome (sub_of_id (context self.now) id) }
        ensures { sub_of_id (context self.now) id ≡ Some (sub_of result.now) };

    /// The id of a function's type, if there is such a function.
    fn type_id_of_function(&self, function_index: u32) -> Option<CoreTypeId>
        ensures { option_map Id result ≡ function_type_in (context self.now) function_index };

    /// The type index of a function, if there is one.
    fn type_index_of_function(&self, function_index: u32) -> Option<u32>
        ensures { result ≡ slice_get (context self.now).functions function_index };

    /// The type of the element segment of this index, if there is one.
    fn element_type_at(&self, at: u32) -> Option<RefType>
        ensures { option_map ref_of result ≡ slice_get (context self.now).elements at };

    /// Whether the first type matches the second (Core Specification 3.0, Validation, Matching).
    fn is_subtype(&self, a: ValType, b: ValType) -> bool
        ensures { result ≡ matches_val (world (context self.now)) (val_of a) (val_of b) };

    /// Whether what a reference of this type points to is shared between threads.
    fn is_shared(&self, ty: RefType) -> bool
        ensures { result ≡ is_shared_heap (world (context self.now)).declared (ref_of ty).heap };

    /// Accepts a value type as it is written in the module, where the features allow it and the
    /// module has the type that it names, and puts the identity in the place of the type index.
    ///
    /// # Errors
    ///
    /// Refuses, at `offset`, a type that the features don't allow, and an unknown type index.
    fn check_value_type(
        &self,
        ty: &mut ValType,
        features: &WasmFeatures,
        offset: u64,
    ) -> Result<(), Refusal>
        requires { IsWrittenVal (val_of ty.old) }
        ensures { Puts result (val_in (context self.now) (features_of features.now)
            (val_of ty.old)) (val_of ty.new) }
    {
        check_value_type(*features, *ty, offset)?;
        match *ty {
            ValType::Ref(written) => {
                let mut named = written;
                self.check_ref_type(&mut named, offset)?;
                *ty = ValType::Ref(named);
                Ok(())
            }
            ValType::I32 | ValType::I64 | ValType::F32 | ValType::F64 | ValType::V128 => Ok(()),
        }
    }

    /// Accepts a reference type as it is written, where the module has the type that it names, and
    /// puts the identity in the place of the type index.
    ///
    /// # Errors
    ///
    /// Refuses an unknown type index, at `offset`.
    fn check_ref_type(&self, ty: &mut RefType, offset: u64) -> Result<(), Refusal>
        requires { IsWrittenHeap (ref_of ty.old).heap }
        ensures { Puts result (ref_in (context self.now) (ref_of ty.old)) (ref_of ty.new) }
    {
        let nullable = ty.is_nullable();
        let mut heap = ty.heap_type();
        self.check_heap_type(&mut heap, offset)?;
        *ty = RefType::new(nullable, heap).unwrap();
        Ok(())
    }

    /// Accepts a heap type as it is written, where the module has the type that it names, and puts
    /// the identity in the place of the type index. Every identity can be packed.
    ///
    /// # Errors
    ///
    /// Refuses an unknown type index, at `offset`.
    fn check_heap_type(&self, heap_type: &mut HeapType, offset: u64) -> Result<(), Refusal>
        requires { IsWrittenHeap (heap_of heap_type.old) }
        ensures puts { Puts result (heap_in (context self.now) (heap_of heap_type.old))
            (heap_of heap_type.new) }
        ensures fits { OnOk result (HeapFits heap_type.new) };

    /// The greatest heap type of the hierarchy that this one stands in. A type that it names is
    /// known.
    fn top_type(&self, heap_type: &HeapType) -> HeapType
        requires { IsSome (top_of_heap (world (context self.now)).declared
            (heap_of heap_type.now)) }
        ensures { top_of_heap (world (context self.now)).declared (heap_of heap_type.now)
            ≡ Some (heap_of result) };

    /// How many element segments there are.
    fn element_count(&self) -> u32
        ensures { result ≡ length (context self.now).elements };

    /// How many data segments there are, where the module says so in front of its code.
    fn data_count(&self) -> Option<u32>
        ensures { result ≡ (context self.now).data_count };

    /// Whether a function is referenced outside of the bodies.
    fn is_function_referenced(&self, function_index: u32) -> bool
        ensures { result ≡ among function_index (context self.now).references };

    /// Whether a function is exactly of its type, and not of a subtype: one that is defined in the
    /// module, or imported as such.
    fn has_function_exact_type(&self, function_index: u32) -> bool
        ensures exact { result ≡ passes (λ b. b)
            (slice_get (context self.now).exact function_index) }
        ensures told { IsSome (slice_get (context self.now).functions function_index)
            → IsSome (slice_get (context self.now).exact function_index) };
}
