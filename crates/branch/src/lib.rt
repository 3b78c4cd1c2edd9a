// BRANCH: a new line from a published version of a line, sharing all up to it.
#![tactic(auto, unfolding(crate::specs::Branch::branch_number, table::specs::Table::branch_rows, table::specs::Table::size_rows, versions::specs::Size::refusal_by, table::specs::Table::first_refusal, table::specs::Table::holds, table::specs::Table::unless))]

ghost use Rattle.std.specs.Prelude.{◌≡◌};
ghost use Rattle.table.specs.Refused.{numbered};
ghost use Rattle.versions.specs.Store.{lent};
ghost use Rattle.branch.specs.Branch.{branch_out};

use lines::{Branch, Line};
use register::{Areas, version_part};
use table::Refusal;
use tree::Version;
use versions::{LINES, Store, lengths_in, lines_begun, opened_number, pages_by, set_line};

// BRANCH line, v: a new line that shares the line's versions up to v, published there too. Nothing is copied: the new line goes on with version v + 1.
pub fn branch(s: &mut Store, areas: &Areas, l: Line, v: Version) -> Result<Line, Refusal>
    ensures { let a = lent areas.now in
        (numbered result ≡ (branch_out s.old a l.0 v.0).answer)
        × (s.new ≡ (branch_out s.old a l.0 v.0).store) }
{
    let c = opened_number(s, lengths_in(areas), l, v)?;
    let new = Line(lines_begun(s));
    if new.0 >= LINES {
        return Err(Refusal::LinesFull);
    }
    let q = version_part(areas.register, c);
    if q.name != c {
        return Err(Refusal::Damaged);
    }
    let state = Branch {
        source: l,
        start: v,
        assigned: v,
        published: v,
        blob: pages_by(v, q),
    };
    set_line(s, new, state);
    s.begun = new.0 + 1;
    Ok(new)
}
