//! What holds of all chains.

ghost use Rattle.probe.specs.Chains.{ChainsGoOn};

/// A chain that starts with the value of another one goes on over the objects of both.
pub fn chains_go_on()
    ensures { ChainsGoOn }
{}
