//! A call of a desk, with the name that it was given.
use issuer_base::DeskCall;
use std::marker::Model;

/// A call of a desk that failed.
#[derive(Drop)]
pub struct NamedCall {
    /// Which call failed.
    pub call: DeskCall,

    /// The name that it was given.
    pub name: String,
}

impl Model for NamedCall {
    ghost use Rattle.std.specs.Prelude.{string_bytes};
    ghost use Rattle.issuer_base.specs.Desk.{FailedCall};

    ghost Value = { FailedCall };

    ghost view = { λ c. record { call = c.call; name = string_bytes c.name } };
}
