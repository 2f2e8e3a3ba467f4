//! What a thread waits for before it begins with a number that it has claimed.
ghost use Rattle.campaign_claims.specs.Views.{IsLastNumber};

use crate::Claimer;

/// It is called with each number that is begun (own). It may make its caller wait, and has no other effect on it.
pub trait Gate {
    /// A thread begins with this number, the last that its claimer drew.
    fn begin(&self, claimer: &Claimer, index: u64)
        requires { IsLastNumber claimer.now.view.numbers index };
}

/// The gate that never makes a thread wait.
#[derive(Clone, Copy, Debug, Drop)]
pub struct OpenGate;

impl Gate for OpenGate {
    fn begin(&self, _claimer: &Claimer, _index: u64) {}
}
