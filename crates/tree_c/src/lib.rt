// The three functions that size areas, for C: a static library over `spans` and `tree`, since a crate is a library or a static library and not both.
#![tactic(auto)]

ghost use Rattle.std.specs.Prelude.{◌≡◌};
ghost use Rattle.tree.specs.Contract.{root_span, nodes_for};
ghost use Rattle.tree.specs.Worst.{worst_for};

// The span of the root for a size in pages, or 0.
#[unsafe(no_mangle)]
pub extern "C" fn pit_root_span(size: u64) -> u64
    ensures { result ≡ root_span size }
{
    spans::root_span(size)
}

// The node count of an update of n pages from f on that leaves the blob at a size in pages, or 0 where there is no such update.
#[unsafe(no_mangle)]
pub extern "C" fn pit_node_count(f: u64, n: u64, size: u64) -> u64
    ensures { result ≡ nodes_for f n size }
{
    tree::nodes_for(f, n, size)
}

// The worst node count of a write of n pages into a blob of exactly r pages that stays inside them, or 0 for an r or n that it is not asked for.
#[unsafe(no_mangle)]
pub extern "C" fn pit_worst(r: u64, n: u64) -> u64
    ensures { result ≡ worst_for r n }
{
    tree::worst(r, n)
}
