// The version keeper: the store, its lines, areas and records, and what every call asks of them; SIZE and RECENT. The other calls stand above, a crate each.
// A call takes the store and its areas lent. No call has a `requires`. A call refuses first, by the rows of the table in their order; then it acts.
#![tactic(auto)]

ghost use Rattle.std.specs.Prelude.{◌≡◌, pred, ◌*◌, [], ◌∷◌, eqb};
ghost use Rattle.lines.specs.Lines.{owner_of};
ghost use Rattle.table.specs.Table.{◌gives◌, first_refusal, holds, no_such_ticket};
ghost use Rattle.table.specs.Refused.{number_in, numbered};
ghost use Rattle.versions.specs.Store.{areas_of, lent, lengths_of, differ, lines_in, line_in, with_line, number_on};
ghost use Rattle.versions.specs.Size.{snapshot_refusal, opened_by, pages_by, bytes_by, size_out};
ghost use Rattle.versions.specs.Recent.{line_refusal, recent_out};

use lines::{
    Branch, Line, field_of, no_branch, number_of, packed_state, source_at, unpacked_state,
    with_source,
};
use register::{Areas, Part, Record, extent_of, version_part};
use table::Refusal;
use tree::{Ticket, Version};

// A byte's place in the blob.
#[derive(Clone, Copy, PartialEq, Eq, PartialOrd, Ord, Default)]
pub struct ByteOffset(pub u64);

// One store: page size and capacities; the last ticket given and how many page numbers are taken; how many updates are assigned, on all lines, and
// how many node places are taken; how many lines have begun, and their states: the sources, 4 bits a line, and for each line a word with the rest. C
// has it by value: words, and no array of states.
#[repr(C)]
#[derive(Clone, Copy)]
pub struct Store {
    pub size: u64,
    pub pages: u64,
    pub nodes: u64,
    pub updates: u64,
    pub tickets: Ticket,
    pub taken: u64,
    pub assigned: u64,
    pub places: u64,
    pub begun: u64,
    pub sources: u64,
    pub lines: [u64; 16],
}

// The lengths of the areas that a call is lent: bytes, numbers and records. They go beside the store, and not in one struct with it: a call that
// changes the store borrows it anew for each function.
#[derive(Clone, Copy)]
pub struct Lengths {
    pub pages: usize,
    pub nodes: usize,
    pub register: usize,
}

// How many lines a store has words for.
pub const LINES: u64 = 16;

// Whether x is a times b, which may be more than 64 bits hold.
fn is_product(x: u64, a: u64, b: u64) -> bool
    ensures { result ≡ eqb x (a * b) }
{
    a.checked_mul(b) == Some(x)
}

// Row 3: the areas' lengths are not those of the store.
#[tactic(auto, unfolding(table::specs::Table::holds))]
pub fn areas_differ(s: &Store, g: Lengths) -> bool
    ensures { result ≡ holds (differ s.now g) }
{
    !is_product(g.pages as u64, s.size, s.pages)
        || !is_product(g.nodes as u64, 2, s.nodes)
        || g.register as u64 != s.updates
}

// The index of the k-th record, counted from 1. A number of the register is C's, so that it is no type of its own.
pub fn record_index(k: u64) -> usize
    ensures { result ≡ pred k }
{
    k.saturating_sub(1) as usize
}

// The lengths of the areas that a call is lent. One that changes an area has the three slices, of which C lends some const and some not.
pub fn lengths_of(pages: &[u8], nodes: &[u32], register: &[Record]) -> Lengths
    ensures { let a = areas_of pages.now nodes.now register.now in
        result ≡ lengths_of a }
{
    Lengths {
        pages: pages.len(),
        nodes: nodes.len(),
        register: register.len(),
    }
}

// The lengths of areas that a call changes none of. No `From`: it goes by a name as `lengths_of` does, and has the same definition.
pub fn lengths_in(areas: &Areas) -> Lengths
    ensures { result ≡ lengths_of (lent areas.now) }
{
    lengths_of(areas.pages, areas.nodes, areas.register)
}

// Rows 3 and 7, with which the calls on a ticket begin.
#[tactic(auto, unfolding(table::specs::Table::first_refusal, table::specs::Table::holds))]
pub fn ticket_refusal(s: &Store, g: Lengths, t: Ticket) -> Result<(), Refusal>
    ensures { number_in result ≡ first_refusal ((differ s.now g gives 3) ∷ (no_such_ticket t.0 s.now.tickets.0 gives 7) ∷ []) }
{
    if areas_differ(s, g) {
        return Err(Refusal::AreaLength);
    }
    if t.0 == 0 || s.tickets < t {
        return Err(Refusal::NoSuchTicket);
    }
    Ok(())
}

// ---- the lines: a line and a version stay two parameters, here and in the calls, as each is one field of the call

// How many lines have begun: at most sixteen.
pub fn lines_begun(s: &Store) -> u64
    ensures { result ≡ lines_in s.now }
{
    s.begun.min(LINES)
}

// A line's state; past the sixteen that of a line that has not begun. By the index, here and below: after the test `get` would answer an `Option`
// that cannot be none.
#[tactic(auto, unfolding(crate::specs::Store::line_in))]
pub fn line_state(s: &Store, l: Line) -> Branch
    ensures { result ≡ line_in s.now l.0 }
{
    let i = l.0;
    if i < LINES {
        unpacked_state(source_at(s.sources, i), s.lines[i as usize])
    } else {
        no_branch()
    }
}

// Sets a line's state; past the sixteen nothing changes.
pub fn set_line(s: &mut Store, l: Line, b: Branch)
    ensures { s.new ≡ with_line s.old l.0 b }
{
    let i = l.0;
    if i < LINES {
        s.sources = with_source(s.sources, i, b.source.0);
        s.lines[i as usize] = packed_state(b);
    }
}

// The line on which version v of line l got its number. A line comes from one before it, so that as many steps as there are other lines reach it.
#[tactic(auto, using(lines::proofs::Owner::turns))]
pub fn owner_of(s: &Store, l: Line, v: Version) -> Line
    ensures { result ≡ record { 0 = owner_of (line_in s.now) l.0 v.0 } }
{
    let mut at = l.0;
    for _ in 1..LINES {
        let b = line_state(s, Line(at));
        if b.start < v {
            return Line(at);
        }
        at = b.source.0.min(LINES - 1);
    }
    Line(at)
}

// The number of version v of line l. One of the line's own has its number by the line, for which one word is read and no state is unpacked; a shared one is
// looked for on the lines that the line comes from.
#[tactic(auto, using(crate::proofs::Own::own))]
pub fn number_on(s: &Store, l: Line, v: Version) -> u64
    ensures { result ≡ number_on s.now l.0 v.0 }
{
    let i = l.0;
    if i < LINES && field_of(s.lines[i as usize], 0) < v.0 {
        return number_of(l, v);
    }
    number_of(owner_of(s, l, v), v)
}

// Rows 3 and 20, with which PUBLISH and RECENT begin.
#[tactic(auto, unfolding(crate::specs::Recent::line_refusal, table::specs::Table::line_rows, table::specs::Table::first_refusal, table::specs::Table::holds))]
pub fn line_refusal(s: &Store, g: Lengths, l: Line) -> Result<(), Refusal>
    ensures { number_in result ≡ line_refusal s.now g l.0 }
{
    if areas_differ(s, g) {
        return Err(Refusal::AreaLength);
    }
    if lines_begun(s) <= l.0 {
        return Err(Refusal::NoSuchLine);
    }
    Ok(())
}

// Rows 3, 20 and 16, with which every call on a version begins.
#[tactic(auto, using(table::proofs::Refused::refusals, crate::proofs::Rows::rows), unfolding(table::specs::Table::or_else))]
pub fn snapshot_refusal(s: &Store, g: Lengths, l: Line, v: Version) -> Result<(), Refusal>
    ensures { number_in result ≡ snapshot_refusal s.now g l.0 v.0 }
{
    line_refusal(s, g, l)?;
    if line_state(s, l).published < v {
        return Err(Refusal::NotPublished);
    }
    Ok(())
}

// Whether the rows with which a call on a version begins refuse it, and the version's number, which is there in any case.
#[derive(Clone, Copy)]
pub struct Opened {
    pub refusal: Result<(), Refusal>,
    pub number: u64,
}

// A version of a line, opened: its number, and whether a call on it is refused.
pub fn open_version(s: &Store, g: Lengths, l: Line, v: Version) -> Opened
    ensures refusal { number_in result.refusal ≡ snapshot_refusal s.now g l.0 v.0 }
    ensures number { result.number ≡ number_on s.now l.0 v.0 }
{
    Opened {
        refusal: snapshot_refusal(s, g, l, v),
        number: number_on(s, l, v),
    }
}

// What every call on a version begins with: refused by these rows, or the version's number.
pub fn opened_number(s: &Store, g: Lengths, l: Line, v: Version) -> Result<u64, Refusal>
    ensures { numbered result ≡ opened_by s.now g l.0 v.0 }
{
    let opened = open_version(s, g, l, v);
    opened.refusal?;
    Ok(opened.number)
}

// ---- SIZE

// The size in pages of version v, as its record's part q says; version 0 is empty, and has no record.
pub fn pages_by(v: Version, q: Part) -> u64
    ensures { result ≡ pages_by v.0 q }
{
    if v.0 == 0 { 0 } else { extent_of(q).size }
}

// So many pages in bytes. A product that would wrap answers the largest number.
#[tactic(auto, unfolding(crate::specs::Size::bytes_by))]
pub fn bytes_by(size: u64, pages: u64) -> u64
    ensures { result ≡ bytes_by size pages }
{
    size.saturating_mul(pages)
}

// SIZE line, v: the bytes of a published version.
#[tactic(auto, using(table::proofs::Refused::refusals, crate::proofs::Rows::rows), unfolding(table::specs::Table::or_else))]
pub fn size(s: &Store, areas: &Areas, l: Line, v: Version) -> Result<u64, Refusal>
    ensures { let a = lent areas.now in
        numbered result ≡ size_out s.now a l.0 v.0 }
{
    let c = opened_number(s, lengths_in(areas), l, v)?;
    let q = version_part(areas.register, c);
    if q.name != c {
        return Err(Refusal::Damaged);
    }
    Ok(bytes_by(s.size, pages_by(v, q)))
}

// ---- RECENT

// RECENT line: the last version published on a line; 0 before the first.
#[tactic(auto, using(table::proofs::Refused::refusals, crate::proofs::Rows::rows), unfolding(table::specs::Table::or_else))]
pub fn recent(s: &Store, areas: &Areas, l: Line) -> Result<Version, Refusal>
    ensures { let a = lent areas.now in
        numbered result ≡ recent_out s.now a l.0 }
{
    line_refusal(s, lengths_in(areas), l)?;
    Ok(line_state(s, l).published)
}
