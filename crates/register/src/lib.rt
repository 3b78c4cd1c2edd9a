// The register of updates: a lent run of records, one an update, and the search in it for the newest update over a range.
#![tactic(auto)]

ghost use Rattle.std.specs.Prelude.{◌≡◌, ◌+◌, ◌-◌, ◌^◌, ◌<◌, min, max, leb, get_or};
ghost use Rattle.tree.specs.Tree.{nth};
ghost use Rattle.register.specs.Register.{no_record, part_of, in_limits, limited, update_of, extent_of, with_record, version_part, newest_own, highest};

use lines::{Entries, Line, entry_at, line_of, number_of, version_of};
use tree::{LAST_PAGE, MOST_PAGES, PageIndex, Ticket, Version};

// A record of the register. Record k holds the k-th ticket's part, the part of the k-th update in the order of ASSIGN on all lines, and for each line which
// update is its own version k. Each is counted up to the number of updates, so all fit, and each is found with no search. C lends the records, and their
// layout is C's.
#[repr(C)]
#[derive(Clone, Copy, Default)]
pub struct Record {
    // The ticket's pages, its first page number, which pages are put (bit i for page i), and the number of its update (0: none yet).
    pub n: u64,
    pub number: u64,
    pub put: u64,
    pub update: u64,
    // The update's ticket, its version as line x 65,536 + version, its first and last page; where its nodes lie: its first node place and its root's
    // height together, the halvings of its first page, and its root's span, as the table of root spans has it; the size in pages after it, its node
    // count, and how many of its nodes are woven.
    pub ticket: Ticket,
    pub name: u64,
    pub f: PageIndex,
    pub last: PageIndex,
    pub top: u64,
    pub past: u64,
    pub span: u64,
    pub size: u64,
    pub count: u64,
    pub woven: u64,
    // The lines' own versions.
    pub entries: Entries,
}

// The areas that a call is lent and changes none of: the bytes of pages, the numbers of nodes, and the register.
#[derive(Clone, Copy)]
pub struct Areas<'a> {
    pub pages: &'a [u8],
    pub nodes: &'a [u32],
    pub register: &'a [Record],
}

// What a record says of its update, by the same names: what a reader needs, so that no record is copied on the way to it.
#[derive(Clone, Copy)]
pub struct Part {
    pub name: u64,
    pub f: PageIndex,
    pub last: PageIndex,
    pub top: u64,
    pub past: u64,
    pub span: u64,
    pub size: u64,
    pub count: u64,
    pub woven: u64,
}

// An update within the limits: its first and last page, and the size in pages after it.
#[derive(Clone, Copy)]
pub struct Extent {
    pub f: PageIndex,
    pub last: PageIndex,
    pub size: u64,
}

// Whether pages and a size are within the limits: f <= last < size <= 4,096. Three parameters: an `Extent` is what this test, or the bounds, have let pass.
#[tactic(auto, unfolding(crate::specs::Register::in_limits))]
fn in_limits(f: PageIndex, last: PageIndex, size: u64) -> bool
    ensures { result ≡ in_limits f.0 last.0 size }
{
    f <= last && last.0 < size && size <= MOST_PAGES
}

// Pages and a size brought within the limits. What the calls accepted is within them, and is handed on as it is: one branch foreseen, where the bounds alone
// are a chain of steps.
#[tactic(auto, unfolding(crate::specs::Register::in_limits))]
pub fn within_limits(f: PageIndex, last: PageIndex, size: u64) -> Extent
    ensures { result ≡ extent_of (limited f.0 last.0 size) }
{
    if in_limits(f, last, size) {
        return Extent { f, last, size };
    }
    let from = f.0.min(LAST_PAGE);
    let to = from.max(last.0.min(LAST_PAGE));
    let size = (to + 1).max(size.min(MOST_PAGES));
    Extent {
        f: PageIndex(from),
        last: PageIndex(to),
        size,
    }
}

// The update of a record's part. No `From`: an `into` would not say at the call that the pages are brought within the limits.
#[tactic(auto, unfolding(crate::specs::Register::update_of))]
pub fn extent_of(q: Part) -> Extent
    ensures { result ≡ extent_of (update_of q) }
{
    within_limits(q.f, q.last, q.size)
}

// What a record says of its update. No `From`: an `into` would not say at the call which part of a record is read.
pub fn part_of(r: &Record) -> Part
    ensures { result ≡ part_of r.now }
{
    Part {
        name: r.name,
        f: r.f,
        last: r.last,
        top: r.top,
        past: r.past,
        span: r.span,
        size: r.size,
        count: r.count,
        woven: r.woven,
    }
}

// The empty record: `default()`, by the definition's name.
pub fn no_record() -> Record
    ensures { result ≡ no_record }
{
    Record::default()
}

// The record at an index, and past the register's end the empty one: a record that is not there reads as one that FORMAT left, as the definitions have it.
pub fn record_at(register: &[Record], i: usize) -> Record
    ensures { result ≡ get_or register.now i no_record }
{
    match register.get(i) {
        Some(r) => *r,
        None => no_record(),
    }
}

// The k-th record, counted from 1; the empty one where there is none. The index of record 0 wraps past any register.
pub fn nth_record(register: &[Record], k: u64) -> Record
    ensures { result ≡ nth no_record register.now k }
{
    record_at(register, k.wrapping_sub(1) as usize)
}

// The record that has a ticket's part. A record has parts of a ticket, an update and a line's versions: each is read by a name of its own.
pub fn ticket_record(register: &[Record], t: Ticket) -> Record
    ensures { result ≡ nth no_record register.now t.0 }
{
    nth_record(register, t.0)
}

// The part of the k-th update.
pub fn update_part(register: &[Record], k: u64) -> Part
    ensures { result ≡ part_of (nth no_record register.now k) }
{
    part_of(&nth_record(register, k))
}

// The part of the version numbered c: the record of the version's own number is tried first, so that a store with one line reads one record, and no more of
// it than the part. Where there is none it is the empty part, as in `record_at`. Whether it is the version's own, its name says: each call compares
// it at the place of row 19 among its own, READ after the row of its buffer.
#[tactic(auto, using(crate::proofs::Records::past), unfolding(crate::specs::Register::version_record))]
pub fn version_part(register: &[Record], c: u64) -> Part
    ensures { result ≡ version_part register.now c }
{
    let v = version_of(c);
    let Some(r) = register.get(v.0.wrapping_sub(1) as usize) else {
        return part_of(&no_record());
    };
    if r.name == c {
        return part_of(r);
    }
    update_part(register, entry_at(r.entries, line_of(c)))
}

// Writes the record at an index; past the register's end nothing changes. By its index: after a slice's `get_mut` a proof knows the slice's length
// and no record.
#[tactic(auto, unfolding(crate::specs::Register::with_record))]
pub fn set_record(register: &mut [Record], i: usize, r: Record)
    ensures { register.new ≡ with_record register.old i r }
{
    if i < register.len() {
        register[i] = r;
    }
}

// The highest page that a record may begin at to meet the `span` pages from `first` on: past the last page of any blob it is no bound. Pages 0 and the largest
// stand for none and any, so that `part_within` is one comparison.
#[tactic(auto, using(crate::proofs::Within::highs))]
fn highest(first: PageIndex, span: u64) -> PageIndex
    requires { first.0 + span < 2 ^ 64 }
    ensures { result ≡ record { 0 = highest first.0 span } }
{
    if first.0 > LAST_PAGE {
        return PageIndex(0);
    }
    if first.0 + span > LAST_PAGE {
        return PageIndex(u64::MAX);
    }
    PageIndex((first.0 + span).saturating_sub(1))
}

// Whether a record's update, its pages as they stand in the record, meets the pages lo .. hi. One comparison of a larger and a smaller number is one
// branch, which goes the same way for most records.
fn part_within(q: Part, lo: PageIndex, hi: PageIndex) -> bool
    ensures { result ≡ leb (max q.f.0 lo.0) (min (max q.f.0 q.last.0) hi.0) }
{
    q.f.0.max(lo.0) <= q.f.0.max(q.last.0).min(hi.0)
}

// The newest of line l's own versions above `start` and up to `below` whose update meets the `span` pages from `first` on; version 0 where there is
// none, as the definition and the node area have it. First page and span stay two here and in `highest`: they are two in the definitions.
#[tactic(auto, using(crate::proofs::Newest::newest))]
pub fn newest_own(
    register: &[Record],
    l: Line,
    start: Version,
    below: Version,
    first: PageIndex,
    span: u64,
) -> Version
    requires { (first.0 + span < 2 ^ 64) × (0 < below.0 → 0 < span) }
    ensures { result ≡ record { 0 = newest_own register.now l.0 start.0 below.0 first.0 span } }
{
    let hi = highest(first, span);
    for v in (start.0..below.0).rev() {
        let own = Version(v + 1);
        let q = version_part(register, number_of(l, own));
        if part_within(q, first, hi) {
            return own;
        }
    }
    Version(0)
}
