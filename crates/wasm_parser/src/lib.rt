//! Parsing of WebAssembly modules into their sections.
//!
//! Each `offset` counts bytes from the start of the input.
#![tactic(auto)]

ghost use Rattle.wasm_parser.specs.Laws.{RunsAreFramings, FramingsAreRuns, OneFraming, GivenIsFront, RefusedIsNotFramed, GivenGrows, GivenEnds, PiecesEnd};

pub mod custom_section;
pub mod function_body;
pub mod locals;
pub mod parser;
pub mod payload;

pub use custom_section::CustomSectionReader;
pub use function_body::FunctionBody;
pub use locals::{LocalDeclaration, LocalsIterator, LocalsReader};
pub use parser::{ParseAll, Parser};
pub use payload::{Encoding, Payload};

/// The laws of parsing: a complete run of the machine that the contracts of `ParseAll` speak of is
/// a framing of the bytes, as the definition says it, and the other way round; there is one framing
/// at most; and what has been given at any point is the front of it.
pub fn laws()
    ensures framed { RunsAreFramings }
    ensures run { FramingsAreRuns }
    ensures one { OneFraming }
    ensures front { GivenIsFront }
    ensures refused { RefusedIsNotFramed }
    ensures grows { GivenGrows }
    ensures ends { GivenEnds }
    ensures fewer { PiecesEnd }
{}

/// Passed on from `wasm_items`.
pub mod items {
    pub use wasm_items::{
        ConstExpr, Data, DataKind, Element, ElementItems, ElementKind, Global, OperatorsIterator,
        OperatorsReader, Table, TableInit,
    };
}
