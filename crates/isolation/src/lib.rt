// The isolation of lines. specs/ has it as a type, over the model; the one function has the theorem as its promise.
#![tactic(auto)]

ghost use Rattle.isolation.specs.Isolation.{Isolated};

// The theorem as a promise: a function is what the prover's verdict counts, so that a theorem that is gone is seen.
pub fn isolated()
    ensures { Isolated }
{}
