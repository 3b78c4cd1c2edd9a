// STAMP: the version of a line since which a page has had the bytes that it has in a version.
#![tactic(auto)]

ghost use Rattle.std.specs.Prelude.{◌≡◌, ◌-◌};
ghost use Rattle.lines.specs.Lines.{version_of};
ghost use Rattle.table.specs.Refused.{numbered};
ghost use Rattle.stamp.specs.Stamp.{page_found, leaf_out, leaf_as_of, same_below, since, stamp_out};
ghost use Rattle.versions.specs.Store.{lent};

use lines::{Line, version_of};
use pages::same_page;
use register::{Areas, version_part};
use table::Refusal;
use tree::{Leaf, PageIndex, Version};
use versions::{Store, lengths_in, number_on, opened_number, pages_by};
use walk::find_page;

// The leaf of a page of version v, numbered c; refused where the version's record is not there, the version has no such page, or the walk is lost.
// Version and number stay two, as in the definition: the number is found once, and the size asks for the version.
#[tactic(auto, using(crate::proofs::Pages::pages))]
fn page_found(
    s: &Store,
    areas: &Areas,
    c: u64,
    v: Version,
    page: PageIndex,
) -> Result<Leaf, Refusal>
    ensures { numbered result ≡ page_found s.now (lent areas.now) c v.0 page.0 }
{
    let q = version_part(areas.register, c);
    if q.name != c {
        return Err(Refusal::Damaged);
    }
    if pages_by(v, q) <= page.0 {
        return Err(Refusal::OutsideSnapshot);
    }
    match find_page(areas, c, page) {
        Some(leaf) if leaf.page < s.pages => Ok(leaf),
        _ => Err(Refusal::Damaged),
    }
}

// The leaf of a page of version v of a line, with which STAMP and VIEW begin. Line, version and page are three parameters here as in the calls: each
// is one field of STAMP and VIEW.
#[tactic(auto, using(crate::proofs::Pages::leaves))]
pub fn leaf_of(
    s: &Store,
    areas: &Areas,
    l: Line,
    v: Version,
    page: PageIndex,
) -> Result<Leaf, Refusal>
    ensures { numbered result ≡ leaf_out s.now (lent areas.now) l.0 v.0 page.0 }
{
    let c = opened_number(s, lengths_in(areas), l, v)?;
    page_found(s, areas, c, v, page)
}

// The leaf of a page as of a version of a line; none where the version has no such page.
#[tactic(auto, using(crate::proofs::Pages::as_of))]
fn leaf_as_of(s: &Store, areas: &Areas, l: Line, v: Version, page: PageIndex) -> Option<Leaf>
    ensures { result ≡ leaf_as_of s.now (lent areas.now) l.0 v.0 page.0 }
{
    page_found(s, areas, number_on(s, l, v), v, page).ok()
}

// The leaf of the page as of the version before a leaf's, where it is of a lower version and has the same bytes. Below version 0 there is none.
fn same_below(s: &Store, areas: &Areas, l: Line, page: PageIndex, leaf: Leaf) -> Option<Leaf>
    ensures { let a = lent areas.now in let w = version_of leaf.version in
        result ≡ same_below a.pages s.now.size w leaf.page (leaf_as_of s.now a l.0 (w - 1) page.0) }
{
    let w = version_of(leaf.version);
    let before = Version(w.0.saturating_sub(1));
    leaf_as_of(s, areas, l, before, page).filter(|lower| {
        version_of(lower.version) < w && same_page(areas.pages, s.size, lower.page, leaf.page)
    })
}

// The version since which the page has had the bytes of a leaf: down the versions that cover it, while the page as of the version before has the same bytes.
#[tactic(auto, using(crate::proofs::SinceLaws::steps))]
fn since(s: &Store, areas: &Areas, l: Line, page: PageIndex, leaf: Leaf) -> Version
    ensures { result.0 ≡ since s.now (lent areas.now) l.0 page.0 (version_of leaf.version) leaf.page }
{
    let mut first = leaf;
    while let Some(lower) = same_below(s, areas, l, page, first) {
        first = lower;
    }
    version_of(first.version)
}

// STAMP line, v, page: the lowest version of the line from which on the page has the same bytes up to version v.
#[tactic(auto, using(crate::proofs::Pages::stamp_of_leaf))]
pub fn stamp(
    s: &Store,
    areas: &Areas,
    l: Line,
    v: Version,
    page: PageIndex,
) -> Result<Version, Refusal>
    ensures { numbered result ≡ stamp_out s.now (lent areas.now) l.0 v.0 page.0 }
{
    let leaf = leaf_of(s, areas, l, v, page)?;
    Ok(since(s, areas, l, page, leaf))
}
