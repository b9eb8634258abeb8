//! The imports and the exports of a module, as iterators.

ghost use Rattle.std.specs.Prelude.{◌≡◌, map};
ghost use Rattle.wasm_validator_types.specs.Rows.{all_imports};
ghost use Rattle.wasm_validator_types.specs.IteratorItems.{imports_left, exports_left};
ghost use Rattle.wasm_validator_types.specs.SpacesSeen.{shown_import, shown_export};

use crate::index_spaces::{ExportMap, ImportMap};
use indexmap::map::Iter;
use std::alloc::{Allocator, Global};
use wasm_readers::readers_types::{EntityType, Items};

/// The imports of a module, each with its two names: pairs of names in the order in which they
/// first came, and the imports of one pair together.
#[derive(Drop)]
pub struct CoreImports<'a, A: Allocator = Global> {
    source: &'a str,
    name: &'a str,
    entities: &'a [EntityType],
    pairs: Iter<'a, (String<A>, String<A>), Items<EntityType, A>>,
}

impl<'a, A: Allocator> CoreImports<'a, A> {
    /// All that `imports` holds.
    pub(crate) fn new(imports: &'a ImportMap<A>) -> CoreImports<'a, A>
        ensures { imports_left result ≡ all_imports (map shown_import imports.now.entries) }
    {
        CoreImports {
            source: "",
            name: "",
            entities: &[],
            pairs: imports.iter(),
        }
    }
}

impl<'a, A: Allocator> Iterator for CoreImports<'a, A> {
    type Item = (&'a str, &'a str, EntityType);

    ghost use Rattle.std.specs.Iterator.{YieldsFirstBy, item_count};
    ghost use Rattle.wasm_validator_types.specs.Entities.{entity_of};
    ghost use Rattle.wasm_validator_types.specs.IteratorItems.{imports_left};

    ghost next_gives = { YieldsFirstBy (λ item. (item.0.now, item.1.now, entity_of item.2))
        imports_left };

    ghost remaining = { item_count imports_left };

    fn next(&mut self) -> Option<(&'a str, &'a str, EntityType)> {
        'pairs: loop {
            if let Some((first, others)) = self.entities.split_first() {
                self.entities = others;
                return Some((self.source, self.name, *first));
            }
            let (pair, entities) = self.pairs.next()?;
            self.source = pair.0.as_str();
            self.name = pair.1.as_str();
            self.entities = entities.as_slice();
        }
    }
}

/// The exports of a module in order, each with its name.
#[derive(Drop)]
pub struct CoreExports<'a, A: Allocator = Global> {
    entries: Iter<'a, String<A>, EntityType>,
}

impl<'a, A: Allocator> CoreExports<'a, A> {
    /// All that `exports` holds.
    pub(crate) fn new(exports: &'a ExportMap<A>) -> CoreExports<'a, A>
        ensures { exports_left result ≡ map shown_export exports.now.entries }
    {
        CoreExports {
            entries: exports.iter(),
        }
    }
}

impl<'a, A: Allocator> Iterator for CoreExports<'a, A> {
    type Item = (&'a str, EntityType);

    ghost use Rattle.std.specs.Iterator.{YieldsFirstBy, item_count};
    ghost use Rattle.wasm_validator_types.specs.Entities.{entity_of};
    ghost use Rattle.wasm_validator_types.specs.IteratorItems.{exports_left};

    ghost next_gives = { YieldsFirstBy (λ item. (item.0.now, entity_of item.1)) exports_left };

    ghost remaining = { item_count exports_left };

    fn next(&mut self) -> Option<(&'a str, EntityType)> {
        let (name, entity) = self.entries.next()?;
        Some((name.as_str(), *entity))
    }
}
