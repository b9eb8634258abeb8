//! What a step is to those who note blocks and branches.

ghost use Rattle.std.specs.Prelude.{◌≡◌, true, false};
ghost use Rattle.wasm_typing_steps.specs.ToldSteps.{is_taken, left_for, told_as};

use wasm_typing_fast::NotTaken;

/// What a fast step did, as far as blocks and branches are concerned, or why none was taken. It is one
/// byte, so that a compiler sees behind each step what it tells.
#[derive(Clone, Copy)]
pub enum Told {
    /// It branches nowhere and leaves the blocks as they are.
    Quiet,
    /// A `block` without parameters.
    Opens,
    /// A `loop` without parameters.
    OpensLoop,
    /// An `if` without parameters.
    OpensThen,
    /// An `end`.
    Closes,
    /// A `br`.
    Branches,
    /// A `br_if`.
    BranchesPerhaps,
    /// None was taken: the operator is left to the general way, which goes on from the same place.
    Left,
    /// None was taken: a stack's growth was refused its memory.
    NoMemory,
}

impl Told {
    /// Whether a step was taken that branches nowhere and leaves the blocks as they are. A loop over
    /// operators asks this first, so that behind most steps nothing else is asked.
    #[inline(always)]
    pub fn is_quiet(self) -> bool
        ensures quiet { result ≡ true → self ≡ Told.Quiet }
        ensures otherwise { self ≡ Told.Quiet → result ≡ true }
    {
        match self {
            Told::Quiet => true,
            _ => false,
        }
    }

    /// Whether a step was taken.
    #[inline(always)]
    pub fn is_taken(self) -> bool
        ensures { result ≡ is_taken self }
    {
        match self {
            Told::Left | Told::NoMemory => false,
            _ => true,
        }
    }
}

/// Why no step was taken.
#[inline(always)]
pub(crate) fn leave(why: NotTaken) -> Told
    ensures why { result ≡ left_for why }
    ensures left { is_taken result ≡ false }
{
    match why {
        NotTaken::Left => Told::Left,
        NotTaken::OutOfMemory => Told::NoMemory,
    }
}

/// A step, told so if it is taken.
#[inline(always)]
#[tactic(auto, unfolding(crate::specs::ToldSteps::told_as))]
pub(crate) fn tell(step: Result<(), NotTaken>, told: Told) -> Told
    ensures { result ≡ told_as step told }
{
    match step {
        Ok(()) => told,
        Err(why) => leave(why),
    }
}
