//! Where in a module an offset is.

ghost use Rattle.std.specs.Prelude.{◌≡◌, ◌≤◌, ◌-◌, IfSome, drop, length, min, take};
ghost use Rattle.wasm_check_reports.specs.Places.{IsIn, before, from, section_name};

use std::cmp;
use wasm_validate_files::validator::BinaryReader;

/// How many bytes the header has (Core Specification 3.0, Binary Format, Modules).
const HEADER: u64 = 8;

/// How many bytes are shown on each side of an offset.
const BESIDE: usize = 8;

/// A section of a module (Core Specification 3.0, Binary Format, Modules, Sections).
#[derive(Clone, Copy)]
pub struct Section {
    /// Its id.
    pub id: u8,
    /// The offset of the first byte of its contents.
    pub start: u64,
    /// The offset of the byte behind its contents.
    pub end: u64,
}

/// Where an offset is.
#[derive(Clone, Copy)]
pub enum Place {
    Header,
    /// In the contents of a section, or at their end.
    In(Section),
    /// In the id or the size of a section, or in a section that the input cuts off.
    Between,
}

/// Where in a module this offset is.
pub fn find_place(bytes: &[u8], offset: u64) -> Place
    ensures { IsIn offset result }
{
    if offset < HEADER {
        return Place::Header;
    }
    match find_section(bytes, offset) {
        Some(section) => Place::In(section),
        None => Place::Between,
    }
}

/// The first section whose contents have this offset, or end there.
fn find_section(bytes: &[u8], offset: u64) -> Option<Section>
    ensures start { IfSome result (λ s. s.start ≤ offset) }
    ensures end { IfSome result (λ s. offset ≤ s.end) }
{
    let mut reader = BinaryReader::new(bytes, 0);
    let _header = reader.read_reader(8).ok()?;
    'sections: for _ in 0..bytes.len() {
        let section = next_section(&mut reader)?;
        if offset <= section.end {
            return if section.start <= offset {
                Some(section)
            } else {
                None
            };
        }
    }
    None
}

/// Reads a section that the input doesn't cut off.
fn next_section(reader: &mut BinaryReader<'_>) -> Option<Section> {
    let id = reader.next_u8()?;
    let range = reader.read_sized().ok()?.range();
    Some(Section {
        id,
        start: range.start,
        end: range.end,
    })
}

/// What the standard calls a section of this id.
pub fn section_name<'a>(id: u8) -> &'a str
    ensures { result.now ≡ section_name id }
{
    match id {
        0 => "custom",
        1 => "type",
        2 => "import",
        3 => "function",
        4 => "table",
        5 => "memory",
        6 => "global",
        7 => "export",
        8 => "start",
        9 => "element",
        10 => "code",
        11 => "data",
        12 => "data count",
        13 => "tag",
        _ => "unknown",
    }
}

/// The bytes around an offset: up to eight in front of it, and up to eight from it on.
pub fn bytes_around(bytes: &[u8], offset: u64) -> (&[u8], &[u8])
    ensures front { result.0.now ≡ before offset bytes.now }
    ensures back { result.1.now ≡ from offset bytes.now }
{
    let at = match usize::try_from(offset) {
        Ok(at) => cmp::min(at, bytes.len()),
        Err(_) => bytes.len(),
    };
    let (front, back) = bytes.split_at(at);
    (last_of(front), first_of(back))
}

fn last_of(bytes: &[u8]) -> &[u8]
    ensures { result.now ≡ drop (length bytes.now - 8) bytes.now }
{
    let (_, last) = bytes.split_at(bytes.len().saturating_sub(BESIDE));
    last
}

fn first_of(bytes: &[u8]) -> &[u8]
    ensures { result.now ≡ take (min (length bytes.now) 8) bytes.now }
{
    let (first, _) = bytes.split_at(cmp::min(bytes.len(), BESIDE));
    first
}
