//! Laws of the definitions.

ghost use Rattle.std.specs.Prelude.{ℕ};
ghost use Rattle.wasm_operators_proposals.specs.WasmOperatorsPlain.WasmSpec.Laws.{ReadingRenames, ReadingGoesOn, ReadingIgnoresWhatFollows};
ghost use Rattle.wasm_operators.specs.Instructions.{instruction_at};
ghost use Rattle.wasm_operators.specs.Expressions.{expression_at};
ghost use Rattle.wasm_operators.specs.Maps.{map_instruction};
ghost use Rattle.wasm_operators.specs.Laws.{ExpressionIsFront, ReadingIsOfBytes};

pub use wasm_operators_proposals::operators_plain::accesses_are_a_table;

/// What is read takes at least one byte, and leaves the bytes behind it as they are.
pub fn reading_goes_on<R>()
    ensures instructions { (to : ℕ → R) → ReadingGoesOn (instruction_at to) }
    ensures expressions { (to : ℕ → R) → ReadingGoesOn (expression_at to) }
    ensures fronts { (to : ℕ → R) → ExpressionIsFront (expression_at to) }
{}

/// What is read does not depend on the bytes behind it.
pub fn reading_ignores_what_follows<R>()
    ensures instructions { (to : ℕ → R) → ReadingIgnoresWhatFollows (instruction_at to) }
    ensures expressions { (to : ℕ → R) → ReadingIgnoresWhatFollows (expression_at to) }
{}

/// Reading with renamed type indices is reading, and renaming what was read. An expression is the
/// same bytes whatever type indices stand for.
pub fn reading_renames<R, S>()
    ensures instructions { ReadingRenames R S map_instruction instruction_at instruction_at }
    ensures expressions { ReadingIsOfBytes R S expression_at expression_at }
{}
