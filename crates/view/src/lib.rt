// VIEW: the bytes of a page as of a version of a line, as a part of the page area.
#![tactic(auto)]

ghost use Rattle.std.specs.Prelude.{◌≡◌};
ghost use Rattle.table.specs.Refused.{numbered};
ghost use Rattle.versions.specs.Store.{lent};
ghost use Rattle.view.specs.View.{view_part, view_at};

use lines::Line;
use pages::view_page;
use register::Areas;
use stamp::leaf_of;
use table::Refusal;
use tree::{PageIndex, Version};
use versions::Store;

// VIEW line, v, page: the bytes of the page as of version v, as a part of the page area; the empty part where STAMP refuses.
// A part is always handed out, as docs/PROMISES.md has it; `view_at` says why there is none. Line, version and page are its fields.
pub fn view<'a>(s: &Store, areas: &Areas<'a>, l: Line, v: Version, page: PageIndex) -> &'a [u8]
    ensures { result.now ≡ view_part s.now (lent areas.now) l.0 v.0 page.0 }
{
    match leaf_of(s, areas, l, v, page) {
        Ok(leaf) => view_page(areas.pages, s.size, leaf.page),
        Err(_) => &areas.pages[..0],
    }
}

// VIEW line, v, page, by the place of its part: the byte of the page area where the page begins; refused where STAMP refuses.
#[tactic(auto, using(crate::proofs::Views::places))]
pub fn view_at(
    s: &Store,
    areas: &Areas,
    l: Line,
    v: Version,
    page: PageIndex,
) -> Result<u64, Refusal>
    ensures { numbered result ≡ view_at s.now (lent areas.now) l.0 v.0 page.0 }
{
    let leaf = leaf_of(s, areas, l, v, page)?;
    Ok(s.size * leaf.page)
}
