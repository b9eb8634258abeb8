//! The one loop over the items of a section: its count is tested against the limit of its kind of
//! items, and then each item is read and added.

ghost use Rattle.std.specs.Prelude.{◌≡◌, ◌≤◌, ◌+◌, nat_le, true, suc, ℕ, List, length, Option, OnOk, IfErr, ⊤};
ghost use Rattle.std.specs.declared.option.Option.TheVariants.{Some};
ghost use Rattle.wasm_readers.specs.WasmReadersBytes.Reader.{SameInput, input, original, position_in, rest};
ghost use Rattle.wasm_readers_errors.specs.declared.error.Counted.{Counted};
ghost use Rattle.wasm_readers.specs.SectionsSeen.{count_of, bytes_of, section_start, section_end};
ghost use Rattle.wasm_validator_items.specs.Answers.{StandsBetween, StandsBehind};
ghost use Rattle.wasm_validator_core.specs.Answers.{AddsWhere};
ghost use Rattle.wasm_validator_core.specs.declared.error.Error.{Error};
ghost use Rattle.wasm_validator_items.specs.SectionRefusals.{OfContent, TellsCount};
ghost use Rattle.wasm_validator_items.specs.ItemSteps.{steps_of, TellsSteps};

use std::alloc::Allocator;
use wasm_readers::{BinaryReader, Counted, Fault, Malformed, Refusal, SectionLimited};
use wasm_validator_core::{Error, check_max};

/// How many items of a kind a module has, and may have.
#[derive(Clone, Copy)]
pub struct ItemLimit {
    /// What is counted.
    pub what: Counted,
    /// How many are there.
    pub there: usize,
    /// The most that there may be.
    pub most: u32,
}

/// A kind of items of sections, with what they are added to and what that takes.
pub trait SectionItem<A: Allocator + Copy> {
    /// What contracts see of what items are added to.
    ghost State: { Type 0 };

    /// What no item changes.
    ghost Kept: { Type 0 };

    ghost state: { Self → State };

    ghost kept: { Self → Kept };

    /// What reading and adding the item that these bytes begin with leads to, and the bytes behind
    /// it.
    ghost step: { Kept → State → List ℕ → Option (State × List ℕ) };

    /// An item is accepted only where this then holds.
    ghost accepts: { Kept → State → Type 0 };

    /// What is told of an item that is refused, in a part of the input that ends at this offset.
    ghost tells: { Kept → ℕ → State → List ℕ → Error A → Type 0 };

    /// What an item needs.
    ghost ready: { Self → Type 0 } = { λ a. ⊤ };

    /// What holds behind a refused item too.
    ghost stands: { Self → Type 0 } = { λ a. ⊤ };

    /// There is room for so many more.
    ghost room: { Self → ℕ → Type 0 } = { λ a n. ⊤ };

    /// What is counted, how many are there, and the most that there may be.
    ghost what: { Counted };

    ghost there: { State → ℕ };

    ghost most: { Kept → ℕ };

    /// How many there are, and may be.
    fn limit(&self) -> ItemLimit
        ensures what { result.what ≡ what }
        ensures there { result.there ≡ there (state self.now) }
        ensures most { result.most ≡ most (kept self.now) };

    /// Reads the item that the bytes begin with, and adds it. The reader goes behind it. There must
    /// be room for it.
    ///
    /// # Errors
    ///
    /// Refused where the bytes don't begin with such an item that may be added, and where memory is.
    /// What it was to be added to is then only to be dropped.
    fn add_next<'a>(&mut self, reader: &mut BinaryReader<'a>) -> Result<(), Error<A>>
        requires ready { ready self.old }
        requires stands { stands self.old }
        requires room { (n : ℕ) × room self.old (suc n) }
        ensures added { AddsWhere (λ x. accepts (kept self.old) x.0) result
            (step (kept self.old) (state self.old) (rest reader.old))
            (state self.new, rest reader.new) }
        ensures kept { kept self.new ≡ kept self.old }
        ensures ready { OnOk result (ready self.new) }
        ensures stands { stands self.new }
        ensures room { OnOk result ((n : ℕ) → room self.old (suc n) → room self.new n) }
        ensures input { SameInput reader.old reader.new }
        ensures onward { position_in reader.old ≤ position_in reader.new }
        ensures place { IfErr result (StandsBehind reader.old) }
        ensures told { IfErr result (OfContent (tells (kept self.old)
            (original reader.old + length (input reader.old)) (state self.old)
            (rest reader.old))) };
}

/// Adds the items of a section, and refuses one whose count passes the limit of its kind. An item that
/// is accepted must lead back to what is; and what keeps to the limit must have room.
///
/// # Errors
///
/// Refused at the section's start where its count passes the limit; at the first item that is
/// refused; where bytes are left behind the last one; and where memory is. What the items were to be
/// added to is then only to be dropped.
pub fn add_items<'a, A: Allocator + Copy, T, I: SectionItem<A>>(
    kind: &mut I,
    section: &SectionLimited<'a, T, A>,
) -> Result<(), Error<A>>
    requires ready { I.ready kind.old }
    requires stands { I.stands kind.old }
    requires room { nat_le (I.there (I.state kind.old) + count_of section.now)
        (I.most (I.kept kind.old)) ≡ true → I.room kind.old (count_of section.now) }
    requires back { (s t : I.State) (bytes more : List ℕ)
        → I.step (I.kept kind.old) s bytes ≡ Some (t, more)
        → I.accepts (I.kept kind.old) t → I.accepts (I.kept kind.old) s }
    ensures added { AddsWhere (I.accepts (I.kept kind.old)) result
        (steps_of (I.step (I.kept kind.old)) (I.there (I.state kind.old))
        (I.most (I.kept kind.old)) (count_of section.now) (bytes_of section.now)
        (I.state kind.old)) (I.state kind.new) }
    ensures kept { I.kept kind.new ≡ I.kept kind.old }
    ensures ready { OnOk result (I.ready kind.new) }
    ensures stands { I.stands kind.new }
    ensures place { IfErr result (StandsBetween (section_start section.now)
        (section_end section.now)) }
    ensures told { IfErr result (OfContent (λ e. TellsCount I.what (I.there (I.state kind.old))
        (I.most (I.kept kind.old)) (section_start section.now) (count_of section.now) e
        (TellsSteps (I.step (I.kept kind.old)) (I.tells (I.kept kind.old))
        (section_end section.now) e (count_of section.now) (bytes_of section.now)
        (I.state kind.old)))) }
{
    let limit = kind.limit();
    let count = section.count();
    let start = section.range().start;
    check_max(limit.there, count as usize, limit.most, limit.what, start)?;
    let mut reader = section.reader();
    let mut left = count;
    'items: while left > 0 {
        kind.add_next(&mut reader)?;
        left -= 1;
    }
    if reader.is_empty() {
        return Ok(());
    }
    let fault = Fault::Malformed(Malformed::SectionSize);
    let offset = reader.original_position();
    Err(Error::Refused(Refusal::new(fault, offset)))
}
