//! What the section methods of a validator do in whatever state calls by hand have led to, in the
//! words of the definition (Core Specification 3.0, Validation, Modules).
#![tactic(auto)]

ghost use Rattle.wasm_laws_sections.specs.AnyOrder.{StartsAnywhere, DataCountsAnywhere, CodeStartsAnywhere, BodiesAnywhere, TypesAnywhere, ImportsAnywhere, FunctionsAnywhere, MemoriesAnywhere, TagsAnywhere, ExportsAnywhere, TablesAnywhere, GlobalsAnywhere, ElementsAnywhere, SegmentsAnywhere, SegmentsAfterCode};
ghost use Rattle.wasm_laws_sections.specs.CallStates.{NewStatesAreReached, CallsLeadOn, ResetsLeadOn};
ghost use Rattle.wasm_laws_sections.specs.StateInvariants.{ReachedStatesAreRead};

/// The states that calls lead to from a new validator, in whatever order they come: that of a new
/// one, and each that a call leaves in the words of its contract, or a reset.
pub fn calls_lead_on<T, A>()
    ensures new { NewStatesAreReached }
    ensures call { CallsLeadOn T A }
    ensures reset { ResetsLeadOn }
{}

/// Wherever calls lead from a new validator, in whatever order they come, the lists of the module
/// that is being read are index spaces whose items keep their rules and limits, and the types of
/// all modules are valid, and none comes twice.
pub fn reached_states_are_read()
    ensures { ReachedStatesAreRead }
{}

/// In each of these states a section is accepted, memory aside, exactly where its bytes are items
/// that keep their rules on the lists so far and the limit, and then the lists have these items
/// after the others (Core Specification 3.0, Validation, Modules). Constant expressions are typed
/// in the context of the lists so far, and each global in that of those before it. Data segments
/// and a start function change nothing. There is one body for each function that is defined.
pub fn sections_in_any_order()
    ensures types { TypesAnywhere }
    ensures imports { ImportsAnywhere }
    ensures functions { FunctionsAnywhere }
    ensures tables { TablesAnywhere }
    ensures memories { MemoriesAnywhere }
    ensures tags { TagsAnywhere }
    ensures globals { GlobalsAnywhere }
    ensures exports { ExportsAnywhere }
    ensures start { StartsAnywhere }
    ensures elements { ElementsAnywhere }
    ensures data_count { DataCountsAnywhere }
    ensures code_start { CodeStartsAnywhere }
    ensures bodies { BodiesAnywhere }
    ensures segments { SegmentsAnywhere }
    ensures segments_after_code { SegmentsAfterCode }
{}
