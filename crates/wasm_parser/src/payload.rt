use crate::custom_section::CustomSectionReader;
use crate::function_body::FunctionBody;
use std::alloc::{Allocator, Global as GlobalAllocator};
use std::ops::Range;
use wasm_items::readers::{Export, Import, MemoryType, RecGroup, SectionLimited, TagType};
use wasm_items::{Data, Element, Global, Table};

/// What the header says that follows it.
#[derive(Clone, Copy, PartialEq, Eq, Debug)]
pub enum Encoding {
    Module,
    Component,
}

/// One part of a module, in the order of its bytes. Each `range` holds the offsets, from the start
/// of the input, of the part's first byte and of the byte behind it.
#[derive(Drop)]
pub enum Payload<'a, A: Allocator = GlobalAllocator> {
    /// The header: any version number is given, and either encoding.
    Version {
        num: u16,
        encoding: Encoding,
        range: Range<u64>,
    },
    TypeSection(SectionLimited<'a, RecGroup<A>, A>),
    ImportSection(SectionLimited<'a, Import<'a>, A>),
    /// The type index of each function.
    FunctionSection(SectionLimited<'a, u32, A>),
    TableSection(SectionLimited<'a, Table<'a>, A>),
    MemorySection(SectionLimited<'a, MemoryType, A>),
    TagSection(SectionLimited<'a, TagType, A>),
    GlobalSection(SectionLimited<'a, Global<'a>, A>),
    ExportSection(SectionLimited<'a, Export<'a>, A>),
    /// The index of the function that starts the module.
    StartSection {
        func: u32,
        range: Range<u64>,
    },
    ElementSection(SectionLimited<'a, Element<'a>, A>),
    /// How many data segments the data section is to have.
    DataCountSection {
        count: u32,
        range: Range<u64>,
    },
    DataSection(SectionLimited<'a, Data<'a>, A>),
    /// The front of the code section: how many bodies follow, each as a payload of its own, and the
    /// size in bytes of what is behind that count. The range begins with the count.
    CodeSectionStart {
        count: u32,
        range: Range<u64>,
        size: u32,
    },
    CodeSectionEntry(FunctionBody<'a>),
    CustomSection(CustomSectionReader<'a>),
    /// A section of an id that the standard does not know, with all its contents.
    UnknownSection {
        id: u8,
        contents: &'a [u8],
        range: Range<u64>,
    },
    /// The end of the module, at this offset from the start of the input.
    End(u64),
}
