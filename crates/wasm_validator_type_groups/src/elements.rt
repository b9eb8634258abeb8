//! The ids of one group's types, which follow one another, as an iterator.

ghost use Rattle.std.specs.Prelude.{◌≡◌, ◌-◌, ◌<◌, ◌^◌};
ghost use Rattle.wasm_validator_type_groups.specs.Elements.{numbers_from, ids_left};

use std::ops::Range;
use wasm_readers_types::CoreTypeId;

/// The ids of the types of a group, in order.
#[derive(Clone, Copy, Debug)]
pub struct RecGroupElements {
    next: u32,
    end: u32,
}

impl RecGroupElements {
    /// All that are in the range.
    pub fn new(ids: &Range<CoreTypeId>) -> RecGroupElements
        requires start { ids.now.start.index < 2 ^ 32 }
        requires end { ids.now.end.index < 2 ^ 32 }
        ensures { ids_left result ≡ numbers_from ids.now.start.index
            (ids.now.end.index - ids.now.start.index) }
    {
        RecGroupElements {
            next: ids.start.index() as u32,
            end: ids.end.index() as u32,
        }
    }
}

impl Iterator for RecGroupElements {
    type Item = CoreTypeId;

    ghost use Rattle.std.specs.Iterator.{YieldsFirstBy, item_count};
    ghost use Rattle.wasm_validator_type_groups.specs.Elements.{ids_left};

    ghost next_gives = { YieldsFirstBy (λ id. id.index) ids_left };

    ghost remaining = { item_count ids_left };

    #[tactic(auto, using(crate::proofs::RemainingNumbers::none_left, crate::proofs::RemainingNumbers::one_left))]
    fn next(&mut self) -> Option<CoreTypeId> {
        if self.next >= self.end {
            return None;
        }
        let id = CoreTypeId::from_index(self.next);
        self.next += 1;
        Some(id)
    }
}

impl ExactSizeIterator for RecGroupElements {
    #[tactic(auto, using(crate::proofs::RemainingNumbers::length_numbers))]
    fn len(&self) -> usize {
        self.end.saturating_sub(self.next) as usize
    }
}
