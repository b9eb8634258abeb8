//! Ids of validators.

ghost use Rattle.std.specs.Prelude.{◌≡◌};

use std::marker::Model;

/// The name of one validator, which tells its types from those of another. A contract sees a
/// number.
#[derive(Clone, Copy, PartialEq, Eq, PartialOrd, Ord, Hash, Debug)]
pub struct ValidatorId {
    number: usize,
}

impl Model for ValidatorId {
    ghost use Rattle.std.specs.Prelude.{ℕ};

    ghost Value = { ℕ };

    ghost view = { λ a. a.number };

    ghost inverse = { λ n. record { number = n } };
}

impl ValidatorId {
    /// The id with this number.
    pub fn from_number(number: usize) -> ValidatorId
        ensures { result ≡ number }
    {
        ValidatorId { number }
    }
}
