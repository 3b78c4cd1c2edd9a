// Where a version's nodes lie, and the walk from a root down the halves to a node of a smaller span. The tree is held in the areas that C lends, its nodes by the numbers of
// their versions and by places: there is no heap.
#![tactic(auto)]

ghost use Rattle.std.specs.Prelude.{◌≡◌, ℕ, ◌+◌, ◌-◌, ◌/◌, ◌^◌, ◌<◌, nat_lt, IfSome};
ghost use Rattle.tree.specs.Walk.{visit, reach_by};
ghost use Rattle.tree.specs.Contract.{height_in};
ghost use Rattle.lines.specs.Lines.{pick};
ghost use Rattle.descent.specs.Level.{Carries};
ghost use Rattle.descent.specs.Places.{unless_most, has_node_by, place_in, place_at, leaf_place};

use register::{Areas, Part, version_part};
use tree::{MOST_PAGES, PageIndex, RootSpan, Stored, halvings, height_of, node_at};

// Where a walk to a page stands: the node over the page at a level, by its first page and its span, and what its place asks, the halvings of that first page,
// and these less its height, in 64 bits.
#[derive(Clone, Copy)]
pub struct Level {
    pub page: u64,
    pub first: u64,
    pub span: u64,
    pub halved: u64,
    pub carried: u64,
    ghost carries: { Carries page first span halved carried },
}

impl Level {
    // At the root, over a page within it.
    fn of_root(root: RootSpan, page: u64) -> Level
        requires { page < root.span }
        ensures { (result.page ≡ page) × (result.span ≡ root.span) }
    {
        Level {
            page,
            first: 0,
            span: root.span,
            halved: 0,
            carried: 0_u64.wrapping_sub(height_of(root.span)),
        }
    }

    // At the leaf over a page.
    fn of_leaf(page: u64) -> Level
        requires { page < 4096 }
        ensures { (result.page ≡ page) × (result.span ≡ 1) }
    {
        let halved = halvings(page);
        Level {
            page,
            first: page,
            span: 1,
            halved,
            carried: halved,
        }
    }

    // Whether the page lies in the node's left half.
    fn is_left(self) -> bool
        ensures { result ≡ nat_lt self.page (self.first + self.span / 2) }
    {
        self.page < self.first + self.span / 2
    }

    // At the node's half that the page lies in. One comparison chooses each number that a level carries down, so that there is no branch to foresee.
    fn below(self) -> Level
        requires { 1 < self.span }
        ensures { (result.page ≡ self.page) × (result.span ≡ self.span / 2) }
    {
        let left = self.is_left();
        let half = self.span / 2;
        Level {
            page: self.page,
            first: if left { self.first } else { self.first + half },
            span: half,
            halved: if left {
                self.halved
            } else {
                self.halved + (self.span - 1)
            },
            carried: self.carried.wrapping_add(if left { 1 } else { self.span }),
        }
    }
}

// Whether an update has a node at a level, by what its part says.
fn has_node(q: Part, at: Level) -> bool
    ensures { result ≡ has_node_by q at.page (height_in at.span) }
{
    at.span <= q.span && q.f.0 < at.first + at.span && at.first <= q.last.0
}

// The place of the node at a level in the version numbered c, whose part q should be; none where c is no version's number, or q another's, or the version has no
// such node. Two words of the part give the place. Over areas that no call left the sums may wrap.
fn place_of(q: Part, c: u64, at: Level) -> Option<u64>
    ensures { result ≡ place_in q c at.page (height_in at.span) }
{
    if c == 0 || c == u64::MAX {
        return None;
    }
    if q.name != c || !has_node(q, at) {
        return None;
    }
    Some(
        q.top
            .wrapping_add(at.carried)
            .wrapping_sub(at.halved.min(q.past)),
    )
}

// The place of the leaf over a page of the version numbered c, whose part q should be; none where there is none.
pub fn leaf_place(q: Part, c: u64, page: PageIndex) -> Option<u64>
    ensures { result ≡ leaf_place q c page.0 }
{
    if page.0 >= MOST_PAGES {
        return None;
    }
    place_of(q, c, Level::of_leaf(page.0))
}

// The number that a node has for one of its halves.
fn child_at(x: Stored, left: bool) -> u64
    ensures { (result ≡ pick left x.left x.right) × (result < 2 ^ 32) }
{
    u64::from(if left { x.left } else { x.right })
}

// The node at a level in the version numbered c; none where it is not stored.
fn node_over(areas: &Areas, c: u64, at: Level) -> Option<Stored>
    ensures { result ≡ visit areas.now.nodes.now (place_at areas.now.register.now c at.page (height_in at.span)) }
{
    let place = place_of(version_part(areas.register, c), c, at)?;
    node_at(areas.nodes, place)
}

// The number of the node of span `to` over a page, from the node at a level in the version numbered c: 0 where no version has pages there, and the largest
// number, which is no version's, where a node is not stored. One record and one place a level. A recursion, the form that document 01 names: the span halves at
// each call. The compiler makes a loop of it where the level is lent and the answer is a number: with an `Option` here a walk to a page took an eighth to a
// third longer.
pub fn descend(areas: &Areas, c: u64, at: &mut Level, to: u64) -> u64
    requires { (c < 2 ^ 64 - 1) × (0 < to) }
    ensures { (j : ℕ) → to ≡ 2 ^ j → unless_most result ≡ reach_by (place_at areas.now.register.now) areas.now.nodes.now j (height_in at.old.span - j) c at.old.page }
{
    if c == 0 || at.span <= to {
        return c;
    }
    let Some(x) = node_over(areas, c, *at) else {
        return u64::MAX;
    };
    let child = child_at(x, at.is_left());
    *at = at.below();
    descend(areas, child, at, to)
}

// The same from the root of the version numbered c; none where a node is not stored, as of the largest number, which is no version's.
pub fn reach(areas: &Areas, c: u64, page: PageIndex, root: RootSpan, to: u64) -> Option<u64>
    requires { (page.0 < root.span) × (0 < to) }
    ensures found { (j : ℕ) → to ≡ 2 ^ j → result ≡ reach_by (place_at areas.now.register.now) areas.now.nodes.now j (height_in root.span - j) c page.0 }
    ensures small { c < 2 ^ 64 - 1 → IfSome result (λ n. n < 2 ^ 64 - 1) }
{
    if root.span <= to {
        return Some(c);
    }
    if c == u64::MAX {
        return None;
    }
    let d = descend(areas, c, &mut Level::of_root(root, page.0), to);
    if d == u64::MAX { None } else { Some(d) }
}
