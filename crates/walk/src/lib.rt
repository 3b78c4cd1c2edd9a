// The walk from a version's root down the halves: to a page, for READ, STAMP and VIEW; to a node of a span, for WEAVE.
#![tactic(auto)]

ghost use Rattle.std.specs.Prelude.{◌≡◌, ℕ, ◌-◌, ◌^◌, ◌<◌, IfSome};
ghost use Rattle.tree.specs.Walk.{visit, ends};
ghost use Rattle.register.specs.Register.{version_part};
ghost use Rattle.versions.specs.Store.{lent};
ghost use Rattle.descent.specs.Places.{leaf_place};
ghost use Rattle.walk.specs.FindPage.{reach_from, find_page, number_within};

use descent::{leaf_place, reach};
use register::{Areas, version_part};
use tree::{Leaf, PageIndex, node_at, root_within};

// The number of the node of span `to` over a page, from the root of the version numbered c, of the span that its record keeps: 0, which is no version's, as in
// the node area, where the page lies past the root, and none where a node is not stored.
pub fn reach_from(areas: &Areas, c: u64, span: u64, page: PageIndex, to: u64) -> Option<u64>
    requires { 0 < to }
    ensures found { (j : ℕ) → to ≡ 2 ^ j → result ≡ reach_from (lent areas.now) c span page.0 j }
    ensures small { c < 2 ^ 64 - 1 → IfSome result (λ n. n < 2 ^ 64 - 1) }
{
    let root = root_within(span);
    if page.0 >= root.span {
        return Some(0);
    }
    reach(areas, c, page, root, to)
}

// The leaf over a page of the version numbered c; none where it is not stored.
fn leaf_over(areas: &Areas, c: u64, page: PageIndex) -> Option<Leaf>
    ensures { result ≡ ends c (visit areas.now.nodes.now (leaf_place (version_part areas.now.register.now c) c page.0)) }
{
    let place = leaf_place(version_part(areas.register, c), c, page)?;
    let x = node_at(areas.nodes, place)?;
    Some(Leaf {
        version: c,
        page: u64::from(x.left),
    })
}

// The walk to a page from the root of the version numbered c; none where a node is not stored.
pub fn find_page(areas: &Areas, c: u64, page: PageIndex) -> Option<Leaf>
    ensures { result ≡ find_page (lent areas.now) c page.0 }
{
    let d = reach_from(areas, c, version_part(areas.register, c).span, page, 1)?;
    leaf_over(areas, d, page)
}

// The page number that a walk ends at, where it lies within an area of so many pages.
pub fn number_within(pages: u64, x: Option<Leaf>) -> Option<u64>
    ensures { result ≡ number_within pages x }
{
    let leaf = x?;
    if leaf.page < pages {
        Some(leaf.page)
    } else {
        None
    }
}
