// ASSIGN, as a write or an append: the next version of a line and its node count.
#![tactic(auto)]

ghost use Rattle.std.specs.Prelude.{◌≡◌, suc, ◌+◌, ◌^◌, ◌<◌};
ghost use Rattle.tree.specs.Tree.{nth};
ghost use Rattle.register.specs.Register.{no_record, with_update_fields};
ghost use Rattle.table.specs.Refused.{number_in, numbered};
ghost use Rattle.versions.specs.Store.{areas_of, line_in};
ghost use Rattle.assign.specs.Assign.{all_put, room_by, refusal_by, with_update, with_assigned, assign_out, assign_register};
ghost use Rattle.assign.specs.NewUpdate.{new_update, Fits, Known};

use lines::{Line, number_of, with_entry};
use register::{Part, Record, ticket_record, within_limits};
use spans::root_span;
use table::Refusal;
use tree::{PageIndex, Ticket, Version, halvings, height_of, node_count};
use versions::{
    Lengths, Store, lengths_of, line_state, lines_begun, record_index, set_line, ticket_refusal,
};

// What ASSIGN gives: the version and its node count.
#[derive(Clone, Copy)]
pub struct Assigned {
    pub version: Version,
    pub nodes: u64,
}

// An update that is to be: its line, its ticket and how many pages that has, and what its record will say of it.
#[derive(Clone, Copy)]
struct NewUpdate {
    line: Line,
    ticket: Ticket,
    n: u64,
    part: Part,
}

// Whether all n pages of a ticket are put: the low n bits of its mask decide, as in PUT. A mask has 64 bits.
fn all_put(r: Record) -> bool
    ensures { result ≡ all_put r }
{
    u64::from(r.put.trailing_ones()) >= r.n
}

// The update of a ticket's n pages at page f of a line. The root's span is looked up here, once for a call. A sum that would wrap is capped: the rows refuse it.
fn new_update(s: &Store, l: Line, t: Ticket, f: PageIndex, n: u64) -> NewUpdate
    ensures { result ≡ new_update s.now l.0 t.0 f.0 n }
{
    let b = line_state(s, l);
    let end = f.0.saturating_add(n);
    let last = PageIndex(end.saturating_sub(1));
    let size = b.blob.max(end);
    let e = within_limits(f, last, size);
    let span = root_span(e.size);
    let height = height_of(span);
    let part = Part {
        name: number_of(l, Version(b.assigned.0.saturating_add(1))),
        f,
        last,
        top: s.places.saturating_add(height),
        past: halvings(e.f.0),
        span,
        size,
        count: node_count(e.f, e.last, height),
        woven: 0,
    };
    NewUpdate {
        line: l,
        ticket: t,
        n,
        part,
    }
}

// The refusal of ASSIGN as update u, with its ticket's record r. Where that lies past the register no row that reads it holds, and 19 does.
fn assign_refusal(s: &Store, g: Lengths, r: Record, u: NewUpdate) -> Result<(), Refusal>
    ensures refused { number_in result ≡ refusal_by s.now g r u.line.0 u.ticket.0 u.part.f.0 u.part.count }
    ensures accepted { number_in result ≡ 0 → s.now.places + u.part.count < 2 ^ 64 }
{
    ticket_refusal(s, g, u.ticket)?;
    let there = u.ticket.0 <= s.updates;
    if there && r.update != 0 {
        return Err(Refusal::OutOfTurn);
    }
    if lines_begun(s) <= u.line.0 {
        return Err(Refusal::NoSuchLine);
    }
    let full = all_put(r);
    if there && !full {
        return Err(Refusal::NotAllPut);
    }
    let end = line_state(s, u.line).blob;
    if end < u.part.f.0 {
        return Err(Refusal::PastEnd);
    }
    if !there {
        return Err(Refusal::Damaged);
    }
    room_refusal(s, r.n, u)
}

// The rows from 14 on, for the n pages of update u.
fn room_refusal(s: &Store, n: u64, u: NewUpdate) -> Result<(), Refusal>
    ensures refused { number_in result ≡ room_by s.now u.line.0 u.part.f.0 n u.part.count }
    ensures accepted { number_in result ≡ 0 → s.now.places + u.part.count < 2 ^ 64 }
{
    if 4096 < u.part.f.0.saturating_add(n) {
        return Err(Refusal::BlobFull);
    }
    if u128::from(s.nodes) < u128::from(s.places) + u128::from(u.part.count) {
        return Err(Refusal::NodesFull);
    }
    let own = line_state(s, u.line);
    if s.updates <= s.assigned || s.updates <= own.assigned.0 {
        return Err(Refusal::Damaged);
    }
    Ok(())
}

// Writes an update's part in a record.
fn note_part(r: &mut Record, t: Ticket, q: Part)
    ensures { r.new ≡ with_update_fields r.old t q }
{
    r.ticket = t;
    r.name = q.name;
    r.f = q.f;
    r.last = q.last;
    r.top = q.top;
    r.past = q.past;
    r.span = q.span;
    r.size = q.size;
    r.count = q.count;
    r.woven = q.woven;
}

// Writes what update u leaves in the register: its ticket's record gets the number of the next update, that update's record its part, and the record of the line's
// next version the number. The three may be one.
fn note_update(register: &mut [Record], s: &Store, u: NewUpdate)
    requires known { Known s.now register.old u }
    requires fits { Fits s.now u }
    ensures { let rs = register.old in
        register.new ≡ with_assigned s.now rs (nth no_record rs u.ticket.0) u.line.0 u.ticket.0 u.part.f.0 }
{
    let number = s.assigned + 1;
    let version = line_state(s, u.line).assigned;
    register[record_index(u.ticket.0)].update = number;
    note_part(&mut register[s.assigned as usize], u.ticket, u.part);
    let r = &mut register[version.0 as usize];
    r.entries = with_entry(r.entries, u.line, number);
}

// Adds update u to its line and to the store's counts, and answers what ASSIGN gives.
fn add_update(s: &mut Store, u: NewUpdate) -> Assigned
    requires { Fits s.old u }
    ensures { let v = suc (line_in s.old u.line.0).assigned.0 in
        (s.new ≡ with_update s.old u.line.0 u.part.count u.part.size)
        × (result ≡ record { version = record { 0 = v }; nodes = u.part.count }) }
{
    let mut b = line_state(s, u.line);
    b.assigned = Version(b.assigned.0 + 1);
    b.blob = u.part.size;
    set_line(s, u.line, b);
    s.assigned += 1;
    s.places += u.part.count;
    Assigned {
        version: b.assigned,
        nodes: u.part.count,
    }
}

// ASSIGN ticket to line l as a write at page f. The areas come apart here and below: C lends the pages and nodes as const, and the register to be written.
pub fn write(
    s: &mut Store,
    pages: &[u8],
    nodes: &[u32],
    register: &mut [Record],
    l: Line,
    t: Ticket,
    f: PageIndex,
) -> Result<Assigned, Refusal>
    ensures { let a = areas_of pages.now nodes.now register.old in
        (numbered result ≡ (assign_out s.old a l.0 t.0 f.0).answer)
        × (s.new ≡ (assign_out s.old a l.0 t.0 f.0).store)
        × (register.new ≡ assign_register s.old a l.0 t.0 f.0) }
{
    let r = ticket_record(register, t);
    let g = lengths_of(pages, nodes, register);
    let u = new_update(s, l, t, f, r.n);
    assign_refusal(s, g, r, u)?;
    note_update(register, s, u);
    Ok(add_update(s, u))
}

// ASSIGN ticket to line l as an append: a write at the size of the line's last assigned version.
pub fn append(
    s: &mut Store,
    pages: &[u8],
    nodes: &[u32],
    register: &mut [Record],
    l: Line,
    t: Ticket,
) -> Result<Assigned, Refusal>
    ensures { let a = areas_of pages.now nodes.now register.old in
        let f = (line_in s.old l.0).blob in
        (numbered result ≡ (assign_out s.old a l.0 t.0 f).answer)
        × (s.new ≡ (assign_out s.old a l.0 t.0 f).store)
        × (register.new ≡ assign_register s.old a l.0 t.0 f) }
{
    let f = PageIndex(line_state(s, l).blob);
    write(s, pages, nodes, register, l, t, f)
}
