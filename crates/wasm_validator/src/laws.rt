//! Laws over lists of calls of one validator, and over lists of modules.

ghost use Rattle.wasm_validator.specs.Calls.{CallsFollowStateTable, UnacceptedModulesKeepTypes};
ghost use Rattle.wasm_validator.specs.Limits.{ConstantsAreLimits};

/// Calls of one validator, each of a payload or of `reset`, in any order and with any answers, are a
/// run of the state table, which begins at `unparsed` where the validator is fresh. A call is
/// accepted only where the table has a way for it, and one that is refused leads where the table
/// says. A refusal counts as one of the content where it was the call's turn, and as one of the order
/// where it was not; which fault is told is in the clause `told` of each method. A custom section is
/// never refused. Memory is refused only while a module is being read, and then the validator has
/// failed. What one call promises is the clause `moves` of `Validator::payload` and of the method
/// of each section, and the clause of `Validator::reset`.
pub fn calls_follow_state_table<T, A>()
    ensures { CallsFollowStateTable T A }
{}

/// A module that is not accepted, for whatever error, leaves a list that begins with the types
/// before it, where the validator may be reset: also one for a body of which memory was refused. So
/// it may be among the modules of `one_id_for_one_type`.
pub fn unaccepted_modules_keep_types<A>()
    ensures { UnacceptedModulesKeepTypes A }
{}

/// The public constants `MAX_WASM_TYPES` and so on are the limits by which a module is valid: one
/// that has more isn't accepted (Core Specification 3.0, Appendix, Implementation Limitations).
pub fn constants_are_limits()
    ensures { ConstantsAreLimits }
{}
