// The root span of a size in pages, read from a table.
#![tactic(auto)]

ghost use Rattle.std.specs.Prelude.{◌≡◌, ℕ, ◌<◌, ◌≤◌};
ghost use Rattle.spans.specs.Span.{root_span, SmallestPower};

mod entries;

use entries::SPANS;

// The table as it stands in memory: the array of a `const` is built anew at each use, and that of a `static` is not.
static TABLE: [u16; 4097] = SPANS;

// The span of the root for a size in pages: the smallest power of two not below it, or 0 for a size that no tree has: no `Option`, as the record that
// C lends keeps it.
#[tactic(auto, using(crate::proofs::Rule::rule), unfolding(crate::proofs::Rule::spans))]
pub fn root_span(size: u64) -> u64
    ensures { result ≡ root_span size }
{
    if size > 4096 {
        return 0;
    }
    u64::from(TABLE[size as usize])
}

// Each entry but that of 0 is the smallest power of two not below its size, as a promise.
pub fn smallest_powers()
    ensures { (s : ℕ) → 0 < s → s ≤ 4096 → SmallestPower s (root_span s) }
{}
