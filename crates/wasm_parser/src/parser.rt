ghost use Rattle.std.specs.Prelude.{◌≡◌, ◌≢◌, ◌≤◌, ◌<◌, ◌^◌, ◌-◌, ◌+◌, IfOk, OnOk, OnErr, IfErr, IfSome, length, drop, [], Some, None, nat_eq};
ghost use Rattle.std.specs.List.{starts_with};
ghost use Rattle.std.specs.Option.{option_map};
ghost use Rattle.wasm_items.specs.WasmReaders.WasmReadersBytes.Reader.{SameInput, position_in, original, rest, RefusedFrom};
ghost use Rattle.wasm_spec.specs.Framing.{place, piece_of, number_of, u16_at};
ghost use Rattle.wasm_parser.specs.Machine.{start, core_header, header_of, numbers_of, entry_of, contents_of, alone_of, section_of, ending_of, part_of, behind, at_sections, failed, next_of};
ghost use Rattle.wasm_parser.specs.PayloadViews.{offset_of, seen, state};
ghost use Rattle.wasm_parser.specs.Places.{reader_end, IsPartOf, OfSameInput, IsInInput, ReadsInput, starts_at, ends_at, stands_at, stands_in_code, input_end, section_size, body_size, part_size, part_end, next_size, next_end, IsFormat, refused_with, CodeIsLast, BodiesAreLast};

use crate::custom_section::CustomSectionReader;
use crate::function_body::FunctionBody;
use crate::payload::{Encoding, Payload};
use std::alloc::{Allocator, Global};
use wasm_items::readers::{BinaryReader, SectionLimited};
use wasm_items::readers_errors::{Fault, Malformed, Refusal};

/// A parser of modules, and of the header of components, from its allocator and the offset at which
/// the input begins. Parsing allocates nothing: the allocator is for the sections' items.
#[derive(Drop)]
pub struct Parser<A: Allocator = Global> {
    alloc: A,
    offset: u64,
}

/// What comes next.
#[derive(Clone, Copy)]
enum Progress {
    Header,
    Sections,
    Ended,
    Failed(Refusal),
}

/// The payloads of one module that are still to come.
pub struct ParseAll<'a, A: Allocator = Global> {
    alloc: A,
    progress: Progress,
    reader: BinaryReader<'a>,
    place: u8,
    code: BinaryReader<'a>,
    bodies_left: u32,
    functions: u32,
    bodies: u32,
    declared: Option<u32>,
    segments: u32,
}

// By hand: so each way out takes one call for it, and not a step for each field.
impl<A: Allocator> Drop for ParseAll<'_, A> {
    fn drop(self) {
        let ParseAll {
            alloc: _,
            progress: _,
            reader: _,
            place: _,
            code: _,
            bodies_left: _,
            functions: _,
            bodies: _,
            declared: _,
            segments: _,
        } = self;
    }
}

/// The bytes with which each module begins (Core Specification 3.0, Binary Format, Modules).
const MAGIC: [u8; 4] = [0x00, 0x61, 0x73, 0x6d];

/// The magic number, the version 1 and the kind 0, each of the two in two bytes.
const CORE_HEADER: [u8; 8] = [0x00, 0x61, 0x73, 0x6d, 0x01, 0x00, 0x00, 0x00];

/// The place of each section among the others, by the section's id; custom sections have none.
const PLACES: [u8; 14] = [0, 1, 2, 3, 4, 5, 7, 8, 9, 10, 12, 13, 11, 6];

fn refusal(malformed: Malformed, offset: u64) -> Refusal
    ensures { result ≡ record {
      fault = Fault.Malformed malformed;
      offset = offset;
      missing = None;
    } }
{
    Refusal::new(Fault::Malformed(malformed), offset)
}

#[tactic(auto, unfolding(wasm_spec::specs::Framing::place))]
fn place_of(id: u8) -> u8
    ensures { result ≡ place id }
{
    if id < 14 { PLACES[id as usize] } else { 0 }
}

/// Two bytes, the low one first.
fn read_u16(reader: &mut BinaryReader) -> Result<u16, Refusal>
    ensures same { SameInput reader.old reader.new }
    ensures onward { position_in reader.old ≤ position_in reader.new }
    ensures two { OnOk result (position_in reader.new ≡ position_in reader.old + 2) }
    ensures ok { IfOk result (λ n. u16_at (rest reader.old) ≡ Some (n, rest reader.new)) }
    ensures refusal { IfErr result (RefusedFrom reader.old) }
    ensures err { OnErr result (u16_at (rest reader.old) ≡ None) }
{
    let low = reader.read_u8()?;
    let high = reader.read_u8()?;
    Ok(u16::from(low) + 256 * u16::from(high))
}

/// One number and nothing else.
fn read_number(body: BinaryReader) -> Result<u32, Refusal>
    ensures ok { IfOk result (λ n. number_of (rest body.entry) ≡ Some n) }
    ensures refusal { IfErr result (RefusedFrom body.entry) }
    ensures err { OnErr result (number_of (rest body.entry) ≡ None) }
{
    let mut body = body;
    let number = body.read_var_u32()?;
    if body.is_empty() {
        Ok(number)
    } else {
        Err(refusal(Malformed::SectionSize, body.original_position()))
    }
}

/// The section of this id other than the code section with these contents.
#[tactic(auto, unfolding(wasm_spec::specs::Framing::piece_of))]
fn read_piece<'a, A: Allocator + Copy>(
    alloc: A,
    id: u8,
    body: BinaryReader<'a>,
) -> Result<Payload<'a, A>, Refusal>
    requires { id ≢ 10 }
    ensures ok { IfOk result (λ p. piece_of id (rest body.entry) ≡ Some (seen p)) }
    ensures start { IfOk result (λ p. starts_at p ≡ original body.entry) }
    ensures end { IfOk result (λ p. ends_at p ≡ reader_end body.entry) }
    ensures refusal { IfErr result (RefusedFrom body.entry) }
    ensures err { OnErr result (piece_of id (rest body.entry) ≡ None) }
{
    match id {
        0 => Ok(Payload::CustomSection(CustomSectionReader::new(body)?)),
        1 => Ok(Payload::TypeSection(SectionLimited::new(alloc, body)?)),
        2 => Ok(Payload::ImportSection(SectionLimited::new(alloc, body)?)),
        3 => Ok(Payload::FunctionSection(SectionLimited::new(alloc, body)?)),
        4 => Ok(Payload::TableSection(SectionLimited::new(alloc, body)?)),
        5 => Ok(Payload::MemorySection(SectionLimited::new(alloc, body)?)),
        6 => Ok(Payload::GlobalSection(SectionLimited::new(alloc, body)?)),
        7 => Ok(Payload::ExportSection(SectionLimited::new(alloc, body)?)),
        8 => Ok(Payload::StartSection {
            func: read_number(body)?,
            range: body.range(),
        }),
        9 => Ok(Payload::ElementSection(SectionLimited::new(alloc, body)?)),
        11 => Ok(Payload::DataSection(SectionLimited::new(alloc, body)?)),
        12 => Ok(Payload::DataCountSection {
            count: read_number(body)?,
            range: body.range(),
        }),
        13 => Ok(Payload::TagSection(SectionLimited::new(alloc, body)?)),
        _ => Ok(Payload::UnknownSection {
            id,
            contents: body.remaining(),
            range: body.range(),
        }),
    }
}

impl Parser {
    /// Whether these bytes begin as those of a module do: with the magic number, the version 1 and
    /// the kind 0 (Core Specification 3.0, Binary Format, Modules). What follows is not looked at.
    pub fn is_core_wasm(bytes: &[u8]) -> bool
        ensures { result ≡ starts_with nat_eq bytes.now core_header }
    {
        bytes.starts_with(&CORE_HEADER)
    }
}

impl<A: Allocator + Copy> Parser<A> {
    /// A parser of input whose first byte has this offset.
    pub fn new(alloc: A, offset: u64) -> Parser<A>
        ensures { offset_of result ≡ offset }
    {
        Parser { alloc, offset }
    }

    /// The payloads of the module that these bytes are.
    pub fn parse_all<'a>(self, bytes: &'a [u8]) -> ParseAll<'a, A>
        requires { offset_of self + length bytes.now < 2 ^ 64 }
        ensures begun { state result ≡ start bytes.now }
        ensures position { stands_at result ≡ offset_of self }
        ensures whole { input_end result ≡ offset_of self + length bytes.now }
        ensures reads { ReadsInput result }
    {
        ParseAll {
            alloc: self.alloc,
            progress: Progress::Header,
            reader: BinaryReader::new(bytes, self.offset),
            place: 0,
            code: BinaryReader::new(&[], self.offset),
            bodies_left: 0,
            functions: 0,
            bodies: 0,
            declared: None,
            segments: 0,
        }
    }
}

impl<'a, A: Allocator + Copy> ParseAll<'a, A> {
    /// The header behind the magic.
    fn read_version(&mut self, start: u64) -> Result<Payload<'a, A>, Refusal>
        ensures whole { OfSameInput self.old self.new }
        ensures ok { IfOk result (λ p. numbers_of (state self.old) (state self.old).bytes
            ≡ Some (seen p, state self.new)) }
        ensures start { IfOk result (λ p. starts_at p ≡ start) }
        ensures end { IfOk result (λ p. ends_at p ≡ stands_at self.new) }
        ensures four { OnOk result (stands_at self.new ≡ stands_at self.old + 4) }
        ensures format { IfErr result IsFormat }
        ensures place { IfErr result (IsInInput self.old) }
        ensures reads { ReadsInput self.old → ReadsInput self.new }
        ensures err { OnErr result (numbers_of (state self.old) (state self.old).bytes ≡ None) }
    {
        let num = read_u16(&mut self.reader)?;
        let kind_position = self.reader.original_position();
        let kind = read_u16(&mut self.reader)?;
        let encoding = match kind {
            0 => Encoding::Module,
            1 => Encoding::Component,
            _ => return Err(refusal(Malformed::BinaryVersion, kind_position)),
        };
        self.progress = Progress::Sections;
        Ok(Payload::Version {
            num,
            encoding,
            range: start..self.reader.original_position(),
        })
    }

    fn read_header(&mut self) -> Result<Payload<'a, A>, Refusal>
        ensures whole { OfSameInput self.old self.new }
        ensures ok { IfOk result (λ p. header_of (state self.old) ≡ Some (seen p, state self.new)) }
        ensures size { IfOk result (λ p. starts_at p + 8 ≡ ends_at p) }
        ensures end { IfOk result (λ p. ends_at p ≡ stands_at self.new) }
        ensures format { IfErr result IsFormat }
        ensures place { IfErr result (IsInInput self.old) }
        ensures reads { ReadsInput self.old → ReadsInput self.new }
        ensures err { OnErr result (header_of (state self.old) ≡ None) }
    {
        let start = self.reader.original_position();
        let magic = self.reader.read_reader(4)?;
        if magic.remaining() == MAGIC.as_slice() {
            self.read_version(start)
        } else {
            Err(refusal(Malformed::MagicNumber, start))
        }
    }

    fn read_entry(&mut self) -> Result<Payload<'a, A>, Refusal>
        requires { 0 < self.old.bodies_left }
        ensures whole { OfSameInput self.old self.new }
        ensures ok { IfOk result (λ p. entry_of (state self.old) ≡ Some (seen p, state self.new)) }
        ensures size { IfOk result (λ p. starts_at p + body_size
            (state self.old).code ≡ ends_at p) }
        ensures end { IfOk result (λ p. ends_at p ≡ stands_in_code self.new) }
        ensures bodies { CodeIsLast self.old → OnOk result (CodeIsLast self.new) }
        ensures format { IfErr result IsFormat }
        ensures place { ReadsInput self.old → IfErr result (IsInInput self.old) }
        ensures reads { ReadsInput self.old → ReadsInput self.new }
        ensures err { OnErr result (entry_of (state self.old) ≡ None) }
    {
        let body = self.code.read_sized()?;
        self.bodies_left -= 1;
        Ok(Payload::CodeSectionEntry(FunctionBody::new(body)))
    }

    /// Notes a section of this id that is this payload.
    fn go_behind(&mut self, id: u8, payload: &Payload<'a, A>)
        ensures whole { OfSameInput self.old self.new }
        ensures notes { state self.new ≡ behind (state self.old) id
            (state self.old).bytes (seen payload.now) }
        ensures code { stands_in_code self.new ≡ stands_in_code self.old }
        ensures reads { ReadsInput self.old → ReadsInput self.new }
        ensures position { stands_at self.new ≡ stands_at self.old }
    {
        let place = place_of(id);
        if place != 0 {
            self.place = place;
        }
        match payload {
            Payload::CodeSectionStart {
                count,
                range: _,
                size: _,
            } => self.bodies = *count,
            Payload::FunctionSection(functions) => self.functions = functions.count(),
            Payload::DataSection(segments) => self.segments = segments.count(),
            Payload::DataCountSection { count, range: _ } => self.declared = Some(*count),
            _ => {}
        }
    }

    /// The front of the code section with these contents.
    fn open_code(&mut self, body: BinaryReader<'a>) -> Result<Payload<'a, A>, Refusal>
        requires short { length (rest body) < 2 ^ 32 }
        requires last { reader_end body ≡ stands_at self.old }
        requires part { IsPartOf self.old.reader body }
        ensures whole { OfSameInput self.old self.new }
        ensures ok { IfOk result (λ p. contents_of (state self.old) 10 (rest body.entry)
            (state self.old).bytes ≡ Some (seen p, state self.new)) }
        ensures start { IfOk result (λ p. starts_at p ≡ original body.entry) }
        ensures end { IfOk result (λ p. ends_at p ≡ reader_end body.entry) }
        ensures bodies { OnOk result (CodeIsLast self.new) }
        ensures position { stands_at self.new ≡ stands_at self.old }
        ensures format { IfErr result IsFormat }
        ensures place { IfErr result (IsInInput self.old) }
        ensures reads { ReadsInput self.old → ReadsInput self.new }
        ensures err { OnErr result (contents_of (state self.old) 10 (rest body.entry)
            (state self.old).bytes ≡ None) }
    {
        let mut code = body;
        let count = code.read_var_u32()?;
        let payload = Payload::CodeSectionStart {
            count,
            range: body.range(),
            size: code.remaining().len() as u32,
        };
        self.code = code;
        self.bodies_left = count;
        self.go_behind(10, &payload);
        Ok(payload)
    }

    /// A section, whatever the counts of others.
    fn read_alone(&mut self) -> Result<Payload<'a, A>, Refusal>
        ensures whole { OfSameInput self.old self.new }
        ensures ok { IfOk result (λ p. alone_of (state self.old) ≡ Some (seen p, state self.new)) }
        ensures size { IfOk result (λ p. starts_at p + section_size
            (state self.old).bytes ≡ ends_at p) }
        ensures end { IfOk result (λ p. ends_at p ≡ stands_at self.new) }
        ensures bodies { (state self.old).left ≡ 0 → OnOk result (BodiesAreLast self.new) }
        ensures format { IfErr result IsFormat }
        ensures place { IfErr result (IsInInput self.old) }
        ensures first { IfOk result (λ p. original self.old.reader ≤ starts_at p) }
        ensures reads { ReadsInput self.old → ReadsInput self.new }
        ensures err { OnErr result (alone_of (state self.old) ≡ None) }
    {
        let id = self.reader.read_u8()?;
        let size = self.reader.read_var_u32()?;
        let body = self.reader.read_reader(size as usize)?;
        let place = place_of(id);
        if place != 0 && place <= self.place {
            return Err(refusal(Malformed::SectionOutOfOrder, body.original_position()));
        }
        if id == 10 {
            return self.open_code(body);
        }
        let payload = read_piece(self.alloc, id, body)?;
        self.go_behind(id, &payload);
        Ok(payload)
    }

    fn read_section(&mut self) -> Result<Payload<'a, A>, Refusal>
        ensures whole { OfSameInput self.old self.new }
        ensures ok { IfOk result (λ p. section_of (state self.old)
            ≡ Some (seen p, state self.new)) }
        ensures size { IfOk result (λ p. starts_at p + section_size
            (state self.old).bytes ≡ ends_at p) }
        ensures end { IfOk result (λ p. ends_at p ≡ stands_at self.new) }
        ensures bodies { (state self.old).left ≡ 0 → OnOk result (BodiesAreLast self.new) }
        ensures format { IfErr result IsFormat }
        ensures place { IfErr result (IsInInput self.old) }
        ensures reads { ReadsInput self.old → ReadsInput self.new }
        ensures err { OnErr result (section_of (state self.old) ≡ None) }
    {
        let payload = self.read_alone()?;
        match &payload {
            Payload::CodeSectionStart {
                count: _,
                range,
                size: _,
            } => {
                if self.functions != self.bodies {
                    return Err(refusal(Malformed::FunctionAndCodeCounts, range.start));
                }
            }
            Payload::DataSection(segments) => {
                if let Some(count) = self.declared
                    && count != self.segments
                {
                    return Err(refusal(Malformed::DataCounts, segments.range().end));
                }
            }
            _ => {}
        }
        Ok(payload)
    }

    fn read_end(&mut self) -> Result<Payload<'a, A>, Refusal>
        ensures whole { OfSameInput self.old self.new }
        ensures ok { IfOk result (λ p. ending_of (state self.old) ≡ Some (seen p, state self.new)) }
        ensures size { IfOk result (λ p. starts_at p ≡ ends_at p) }
        ensures end { IfOk result (λ p. ends_at p ≡ stands_at self.new) }
        ensures format { IfErr result IsFormat }
        ensures place { IfErr result (IsInInput self.old) }
        ensures reads { ReadsInput self.old → ReadsInput self.new }
        ensures err { OnErr result (ending_of (state self.old) ≡ None) }
    {
        let position = self.reader.original_position();
        if self.functions != self.bodies {
            return Err(refusal(Malformed::FunctionAndCodeCounts, position));
        }
        if let Some(count) = self.declared
            && count != self.segments
        {
            return Err(refusal(Malformed::DataCounts, position));
        }
        self.progress = Progress::Ended;
        Ok(Payload::End(position))
    }

    /// What is next behind the header.
    #[tactic(auto, unfolding(crate::specs::Machine::part_of))]
    fn read_part(&mut self) -> Result<Payload<'a, A>, Refusal>
        ensures whole { OfSameInput self.old self.new }
        ensures ok { IfOk result (λ p. part_of (state self.old) ≡ Some (seen p, state self.new)) }
        ensures size { IfOk result (λ p. starts_at p + part_size (state self.old) ≡ ends_at p) }
        ensures end { IfOk result (λ p. ends_at p ≡ part_end (state self.old) self.new) }
        ensures code { 0 < (state self.old).left → CodeIsLast self.old
            → OnOk result (CodeIsLast self.new) }
        ensures bodies { (state self.old).left ≡ 0 → OnOk result (BodiesAreLast self.new) }
        ensures format { IfErr result IsFormat }
        ensures place { ReadsInput self.old → IfErr result (IsInInput self.old) }
        ensures reads { ReadsInput self.old → ReadsInput self.new }
        ensures err { OnErr result (part_of (state self.old) ≡ None) }
    {
        if self.bodies_left > 0 {
            return self.read_entry();
        }
        if !self.code.is_empty() {
            return Err(refusal(Malformed::SectionSize, self.code.original_position()));
        }
        if self.reader.is_empty() {
            self.read_end()
        } else {
            self.read_section()
        }
    }

    fn advance(&mut self) -> Result<Option<Payload<'a, A>>, Refusal>
        ensures whole { OfSameInput self.old self.new }
        ensures ok { IfOk result (λ p. next_of (state self.old)
            ≡ Some (option_map (λ q. (seen q, state self.new)) p)) }
        ensures size { IfOk result (λ p. IfSome p
            (λ q. starts_at q + next_size (state self.old).stage (state self.old) ≡ ends_at q)) }
        ensures end { IfOk result (λ p. IfSome p
            (λ q. ends_at q ≡ next_end (state self.old).stage (state self.old) self.new)) }
        ensures over { IfOk result (λ p. p ≡ None → state self.new ≡ state self.old) }
        ensures code { (state self.old).stage ≡ at_sections → 0 < (state self.old).left
            → CodeIsLast self.old → OnOk result (CodeIsLast self.new) }
        ensures bodies { (state self.old).left ≡ 0 → OnOk result (BodiesAreLast self.new) }
        ensures within { ReadsInput self.old → IfOk result
            (λ p. IfSome p (λ q. ends_at q ≤ input_end self.new)) }
        ensures format { refused_with self.old ≡ None → IfErr result IsFormat }
        ensures place { ReadsInput self.old → IfErr result (IsInInput self.old) }
        ensures reads { ReadsInput self.old → ReadsInput self.new }
        ensures again { IfSome (refused_with self.old) (λ r. result ≡ Err r) }
        ensures err { OnErr result (next_of (state self.old) ≡ None) }
    {
        match self.progress {
            Progress::Header => Ok(Some(self.read_header()?)),
            Progress::Sections => Ok(Some(self.read_part()?)),
            Progress::Ended => Ok(None),
            Progress::Failed(refusal) => Err(refusal),
        }
    }

    /// The next payload, the last of which is the end, and `None` from then on (Core Specification
    /// 3.0, Binary Format, Modules).
    ///
    /// # Errors
    ///
    /// Refused where the bytes don't go on as a module does, at a byte offset from the start of the
    /// input; and then, with the same refusal, at each further call.
    pub fn next_payload(&mut self) -> Result<Option<Payload<'a, A>>, Refusal>
        ensures whole { OfSameInput self.old self.new }
        ensures ok { IfOk result (λ p. next_of (state self.old)
            ≡ Some (option_map (λ q. (seen q, state self.new)) p)) }
        ensures size { IfOk result (λ p. IfSome p
            (λ q. starts_at q + next_size (state self.old).stage (state self.old) ≡ ends_at q)) }
        ensures end { IfOk result (λ p. IfSome p
            (λ q. ends_at q ≡ next_end (state self.old).stage (state self.old) self.new)) }
        ensures over { IfOk result (λ p. p ≡ None → state self.new ≡ state self.old) }
        ensures code { (state self.old).stage ≡ at_sections → 0 < (state self.old).left
            → CodeIsLast self.old → OnOk result (CodeIsLast self.new) }
        ensures bodies { (state self.old).left ≡ 0 → OnOk result (BodiesAreLast self.new) }
        ensures within { ReadsInput self.old → IfOk result
            (λ p. IfSome p (λ q. ends_at q ≤ input_end self.new)) }
        ensures format { refused_with self.old ≡ None → IfErr result IsFormat }
        ensures place { ReadsInput self.old → IfErr result (IsInInput self.old) }
        ensures reads { ReadsInput self.old → ReadsInput self.new }
        ensures again { IfSome (refused_with self.old) (λ r. result ≡ Err r) }
        ensures err { OnErr result (next_of (state self.old) ≡ None) }
        ensures failed { OnErr result ((state self.new).stage ≡ failed) }
        ensures kept { IfErr result (λ r. refused_with self.new ≡ Some r) }
    {
        match self.advance() {
            Ok(payload) => Ok(payload),
            Err(refusal) => {
                self.progress = Progress::Failed(refusal);
                Err(refusal)
            }
        }
    }
}

/// The payloads, up to the end or the first refusal.
impl<'a, A: Allocator + Copy> Iterator for ParseAll<'a, A> {
    type Item = Result<Payload<'a, A>, Refusal>;

    ghost use Rattle.std.specs.Iterator.{at_most};
    ghost use Rattle.wasm_parser.specs.Machine.{most_left};
    ghost use Rattle.wasm_parser.specs.PayloadViews.{NextGives};

    ghost can_next = { λ _. Unit {0} };

    ghost next_gives = { λ s r t. NextGives (state s) r (state t) };

    ghost remaining = { λ s. at_most (most_left (state s)) };

    #[tactic(auto, using(crate::proofs::PieceCounts::falls))]
    fn next(&mut self) -> Option<Result<Payload<'a, A>, Refusal>> {
        if let Progress::Failed(_) = self.progress {
            return None;
        }
        match self.next_payload() {
            Ok(Some(payload)) => Some(Ok(payload)),
            Ok(None) => None,
            Err(refusal) => Some(Err(refusal)),
        }
    }
}
