//! What reading asks of the frames of a body.

ghost use Rattle.std.specs.Prelude.{◌≡◌, List, slice_get};
ghost use Rattle.std.specs.Option.{option_map};
ghost use Rattle.wasm_spec_steps.specs.Machine.{Kind};
ghost use Rattle.wasm_typing_arity.specs.ArityQueries.{kind_of};

use wasm_operators::FrameKind;

/// The frames that a body has open: `else` may stand only in an `if`, and where no frame is left
/// the body has ended (Core Specification 3.0, Binary Format, Instructions, Control Instructions,
/// and Expressions).
pub trait FrameStack {
    /// The kinds of the frames, the innermost first.
    ghost kinds: { Self → List Kind };

    /// The kind of the innermost frame, or none where no frame is open.
    fn current_frame(&self) -> Option<FrameKind>
        ensures { option_map kind_of result ≡ slice_get (kinds self.now) 0 };
}
