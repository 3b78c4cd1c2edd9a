// The theorems as a client uses them. specs/ has the corollaries as types; each function has one as its promise, which only a theorem can give, since the areas are any
// that FORMAT accepts: where a theorem is weakened, the proofs here no longer hold.
#![tactic(auto)]

ghost use Rattle.uses.specs.Accepted.{InAll};
ghost use Rattle.uses.specs.Uses.{ExampleAnswers, EveryAnswer, Compared, AllKept, Reaches, Held, Fetches, Begins};
ghost use Rattle.uses.specs.Isolated.{FromFormat, Unreached, Woven, BegunAlike};
ghost use Rattle.uses.specs.Sized.{AllSized};

// Document 01's example.
pub fn example_answers()
    ensures { ExampleAnswers }
{}

// Any call after any others.
pub fn every_answer()
    ensures { EveryAnswer }
{}

// Published versions, after one list of calls.
pub fn compared()
    ensures { InAll Compared }
{}

// The same after any more calls.
pub fn kept()
    ensures { AllKept }
{}

// PUBLISH repeated.
pub fn reaches()
    ensures { InAll Reaches }
{}

// PUBLISH inside a window.
pub fn held()
    ensures { InAll Held }
{}

// What a stamp tells.
pub fn fetches()
    ensures { InAll Fetches }
{}

// A line that begins.
pub fn begins()
    ensures { InAll Begins }
{}

// A line's first update, alone and beside a planner's.
pub fn from_format()
    ensures { InAll FromFormat }
{}

// What a line reads as, alone and beside a planner.
pub fn unreached()
    ensures { InAll Unreached }
{}

// What it weaves.
pub fn woven()
    ensures { InAll Woven }
{}

// Two lines that begin from one version of sources that went on differently.
pub fn begun_alike()
    ensures { InAll BegunAlike }
{}

// The node count of an update, and a store with room for every one.
pub fn sized()
    ensures { AllSized }
{}
