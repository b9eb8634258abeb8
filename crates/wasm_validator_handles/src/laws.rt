//! Laws over calls on one handle.

ghost use Rattle.wasm_validator_handles.specs.Calls.{CallsSayOfAll};

/// What [`validate_list`] says of a list of modules holds of all modules that the validator behind one
/// handle was given one after another, with resets between them or not, whatever it answered and
/// however long it lived: what is accepted is a valid module, and what is refused isn't; equal types
/// have one id, which keeps its data; types and value types match over ids as they do by the
/// standard's rules. A module that was refused and left the validator where it stood is left out: of
/// it the same holds as of a list of one. Those that were given behind a failure count as not looked
/// at.
///
/// [`validate_list`]: wasm_validator::validate_list
pub fn calls_say_of_all()
    ensures { CallsSayOfAll }
{}
