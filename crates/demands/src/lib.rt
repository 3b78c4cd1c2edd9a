// The three demands, and the isolation of lines. specs/ has lists of calls on a store, and the demands as types over the plain model; each function has a theorem
// as its promise: a function is what the prover's verdict counts, so that a theorem that is gone is seen.
#![tactic(auto)]

ghost use Rattle.demands.specs.Demands.{Demanded, Isolated};

// All three demands.
pub fn promised()
    ensures { Demanded }
{}

// What is done on other lines reaches a line's answers only through what the request lists.
pub fn isolated()
    ensures { Isolated }
{}
