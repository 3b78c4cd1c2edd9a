// The tree of a version: spans, the nodes that an update makes and their order, and the node area.
#![tactic(auto)]

ghost use Rattle.std.specs.Prelude.{◌≡◌, ℕ, ◌+◌, ◌-◌, ◌*◌, ◌^◌, ◌<◌, min, true, count_ones};
ghost use Rattle.tree.specs.Place.{kth, first, halvings, node_numbered};
ghost use Rattle.tree.specs.NodeArea.{node_at, with_node};
ghost use Rattle.tree.specs.Cases.{table, every};
ghost use Rattle.tree.specs.Worst.{worst_for, WorstCases};
ghost use Rattle.tree.specs.Contract.{root_span, root_in, height_in, height_for, nodes_for, Pages, Counted, Names};

use spans::root_span;

// A version, a page's index in the blob and a ticket are counters of different sorts, and each has a type of its own.
#[repr(C)]
#[derive(Clone, Copy, PartialEq, Eq, PartialOrd, Ord, Default)]
pub struct Version(pub u64);

#[repr(C)]
#[derive(Clone, Copy, PartialEq, Eq, PartialOrd, Ord, Default)]
pub struct PageIndex(pub u64);

#[repr(C)]
#[derive(Clone, Copy, PartialEq, Eq, PartialOrd, Ord, Default)]
pub struct Ticket(pub u64);

// A stored node's two numbers: its children's versions, or a leaf's page number and 0.
#[derive(Clone, Copy)]
pub struct Stored {
    pub left: u32,
    pub right: u32,
}

// A leaf that a walk ends at: the number of its version, line x 65,536 + version, and its page number.
#[derive(Clone, Copy)]
pub struct Leaf {
    pub version: u64,
    pub page: u64,
}

// The name of a node: its first page and its span. The span and not the height, which the definitions have: halves are by it, and C's answer has it.
#[derive(Clone, Copy)]
pub struct Named {
    pub first: PageIndex,
    pub span: u64,
}

// The root's span of a tree: a power of two, up to that of the largest blob.
#[derive(Clone, Copy)]
pub struct RootSpan {
    pub span: u64,
    ghost is_root: { root_in span ≡ span },
}

// The number that a place of the node area holds twice where no node is stored.
const NO_NODE: u32 = u32::MAX;

// The most pages that an update has.
pub const MOST_UPDATED: u64 = 64;

// The most pages that a blob has, and the last page of such a blob.
pub const MOST_PAGES: u64 = 4096;

pub const LAST_PAGE: u64 = 4095;

// The height of a span, which is a power of two: the zeros below its one bit.
pub fn height_of(span: u64) -> u64
    requires { 0 < span }
    ensures { (h : ℕ) → span ≡ 2 ^ h → result ≡ h }
{
    u64::from(span.trailing_zeros())
}

// The root's span that a word holds, or that of the largest blob where it holds none. A power of two shares no bit with the number below it, and of the numbers above 0
// no other does.
pub fn root_within(span: u64) -> RootSpan
    ensures { result.span ≡ root_in span }
{
    let below = span.wrapping_sub(1);
    let held = if below < MOST_PAGES && span & below == 0 {
        span
    } else {
        MOST_PAGES
    };
    RootSpan { span: held }
}

// The height of the root for a size in pages, that of the root's span, or 0 for a size that no tree has: there `root_span`, which C calls too, answers 0.
pub fn root_height(size: u64) -> u64
    ensures { result ≡ height_for size }
{
    let span = root_span(size);
    if span == 0 { 0 } else { height_of(span) }
}

// x + x / 2 + x / 4 + .., for an x that is not too large to double.
pub fn halvings(x: u64) -> u64
    requires { x < 2 ^ 63 }
    ensures { (result ≡ halvings x) × (result + count_ones x ≡ 2 * x) }
{
    2 * x - u64::from(x.count_ones())
}

// The number of nodes of an update of the pages f .. last, in a tree whose root has this height.
pub fn node_count(f: PageIndex, last: PageIndex, height: u64) -> u64
    requires { Pages f.0 last.0 height }
    ensures { Counted f.0 last.0 height result }
{
    halvings(last.0) - halvings(f.0) + height + 1
}

// The worst node count of a write of n pages into a blob of exactly r pages that stays inside them, or 0, as C has it, for an r or n that it is not asked for.
// Blobs of a power of two of pages are those that are their own root's span. It is the count of the write from page r / 2 - 1 on, so that no sum is made.
pub fn worst(r: u64, n: u64) -> u64
    ensures { result ≡ worst_for r n }
{
    let half = r / 2;
    if n == 0 {
        return 0;
    }
    if n > MOST_UPDATED.min(half) {
        return 0;
    }
    if root_span(r) != r {
        return 0;
    }
    let f = half - 1;
    let last = f + n - 1;
    node_count(PageIndex(f), PageIndex(last), height_of(r))
}

// The first page of the node of a height over page p.
fn first_over(p: PageIndex, height: u64) -> PageIndex
    requires { height < 64 }
    ensures { result.0 ≡ first p.0 height }
{
    PageIndex((p.0 >> height) << height)
}

// The node at number i, root first, of the whole tree of a root. Each turn goes into the half that the number lies in: a node's left half has one node
// less than the node has pages. A `while`, since no index is counted: the span halves.
fn numbered(root: RootSpan, i: u64) -> Named
    ensures { Names (kth 0 (2 ^ height_in root.span - 1) 0 (height_in root.span) i) result.first.0 result.span }
{
    let mut a = 0;
    let mut span = root.span;
    let mut k = i;
    while span > 1 && k > 0 {
        let left = span - 1;
        span /= 2;
        k -= 1;
        if k >= left {
            k -= left;
            a += span;
        }
    }
    Named {
        first: PageIndex(a),
        span,
    }
}

// The k-th node, in weaving order, of an update from page f on in a tree of a root; `past` is the halvings of f. The order begins with the nodes over
// page f, root first: of these no search is made.
pub fn node_by_number(f: PageIndex, root: RootSpan, past: u64, k: u64) -> Named
    ensures { Names (node_numbered f.0 (height_in root.span) past k) result.first.0 result.span }
{
    let height = height_of(root.span);
    if k > height {
        return numbered(root, k.wrapping_add(past));
    }
    Named {
        first: first_over(f, height - k),
        span: root.span >> k,
    }
}

// The node stored at a place; none where both its numbers are all ones, or the place is past the area's end. C lends the area as a run of numbers, two a node.
pub fn node_at(nodes: &[u32], place: u64) -> Option<Stored>
    ensures { result ≡ node_at nodes.now place }
{
    let q = place as usize;
    if q >= nodes.len() / 2 {
        return None;
    }
    let left = nodes[2 * q];
    let right = nodes[2 * q + 1];
    if left == NO_NODE && right == NO_NODE {
        None
    } else {
        Some(Stored { left, right })
    }
}

// Stores a node's two numbers at a place; past the area's end it stores nothing.
pub fn store_node(nodes: &mut [u32], place: u64, left: u32, right: u32)
    ensures { nodes.new ≡ with_node nodes.old place left right }
{
    let q = place as usize;
    if q >= nodes.len() / 2 {
        return;
    }
    nodes[2 * q] = left;
    nodes[2 * q + 1] = right;
}

// The node count of an update of n pages from f on that leaves the blob at a size in pages, or 0 where there is no such update, as C has it.
pub fn nodes_for(f: u64, n: u64, size: u64) -> u64
    ensures { result ≡ nodes_for f n size }
{
    if n == 0 {
        return 0;
    }
    if n > MOST_UPDATED {
        return 0;
    }
    if size > MOST_PAGES {
        return 0;
    }
    if n > size {
        return 0;
    }
    let latest = size - n;
    if f > latest {
        return 0;
    }
    let last = f + n - 1;
    node_count(PageIndex(f), PageIndex(last), root_height(size))
}

// The twelve proved cases of the tree rule, as a promise: a function is what the prover's verdict counts, so that a theorem that is gone is seen.
pub fn twelve_cases()
    ensures { every table ≡ true }
{}

// That a write reaches the worst count and none exceeds it, for every r and n that it is asked for: a theorem as a promise, likewise.
pub fn worst_cases()
    ensures { WorstCases }
{}
