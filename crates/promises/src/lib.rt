#![tactic(auto)]
// What is promised of more than one call. No code of its own.
ghost use Rattle.promises.specs.Promises.{Promises};

// Does nothing; its contract is the record of all promises, so the gate fails where a theorem is gone.
pub fn kept()
    ensures { Promises }
{}
