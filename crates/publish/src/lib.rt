// PUBLISH: the version after a line's last published one, if it is woven whole; inside a window none.
#![tactic(auto, unfolding(crate::specs::Publish::publish_number, crate::specs::Publish::due_by, versions::specs::Recent::line_refusal, table::specs::Table::publish_rows, table::specs::Table::line_rows, table::specs::Table::first_refusal, table::specs::Table::holds, table::specs::Table::unless))]

ghost use Rattle.std.specs.Prelude.{◌≡◌};
ghost use Rattle.table.specs.Refused.{numbered};
ghost use Rattle.versions.specs.Store.{lent};
ghost use Rattle.publish.specs.Publish.{publish_out};

use lines::{Line, number_of};
use register::{Areas, version_part};
use table::Refusal;
use tree::Version;
use versions::{Store, lengths_in, line_refusal, line_state, set_line};
use windows::{LAST_MINUTE, Windows, is_inside};

// What PUBLISH comes to: a version that is published now, or that none is due, or that the minute is inside a window.
#[derive(Clone, Copy)]
pub enum Published {
    Now(Version),
    Waiting,
    Held,
}

// PUBLISH line, minute: the version after the last published one of the line, if it is woven whole and the minute is inside no window.
pub fn publish(
    s: &mut Store,
    w: &Windows,
    areas: &Areas,
    l: Line,
    minute: u64,
) -> Result<Published, Refusal>
    ensures { let a = lent areas.now in
        (numbered result ≡ (publish_out s.old w.now a l.0 minute).answer)
        × (s.new ≡ (publish_out s.old w.now a l.0 minute).store) }
{
    line_refusal(s, lengths_in(areas), l)?;
    if minute > u64::from(LAST_MINUTE) {
        return Err(Refusal::NoSuchMinute);
    }
    if is_inside(w, minute) {
        return Ok(Published::Held);
    }
    let mut b = line_state(s, l);
    if b.assigned <= b.published {
        return Ok(Published::Waiting);
    }
    let next = Version(b.published.0 + 1);
    let c = number_of(l, next);
    let q = version_part(areas.register, c);
    if q.name != c {
        return Err(Refusal::Damaged);
    }
    if q.woven != q.count {
        return Ok(Published::Waiting);
    }
    b.published = next;
    set_line(s, l, b);
    Ok(Published::Now(next))
}
