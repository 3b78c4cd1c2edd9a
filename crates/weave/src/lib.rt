// WEAVE: one node of a version's tree, stored at its place.
#![tactic(auto)]

ghost use Rattle.std.specs.Prelude.{◌≡◌, false, ℕ, suc, pred, ◌+◌, ◌-◌, ◌^◌, ◌<◌, min, IfOk, IfSome};
ghost use Rattle.tree.specs.Tree.{Node, nth};
ghost use Rattle.lines.specs.Lines.{pick};
ghost use Rattle.descent.specs.Places.{or_most};
ghost use Rattle.register.specs.Register.{no_record, update_of, with_record};
ghost use Rattle.table.specs.Table.{◌≤?◌, ◌or◌, holds};
ghost use Rattle.table.specs.Refused.{number_in, numbered};
ghost use Rattle.versions.specs.Store.{areas_of, lent};
ghost use Rattle.weave.specs.Weave.{next_node, next_place, leaf_past, weave_refusal, older_number, lost_half, lost_child, lost_by, kept, woven_node, with_woven, weave_number, weave_out, weave_nodes, weave_register};
ghost use Rattle.weave.specs.Next.{name_of, halves_of, next_found, Counted};

use lines::{line_of, number_of, version_of};
use register::{
    Areas, Part, Record, extent_of, newest_own, ticket_record, update_part, version_part,
};
use table::Refusal;
use tree::{Named, PageIndex, Ticket, Version, height_of, node_by_number, root_within, store_node};
use versions::{Lengths, Store, lengths_in, line_state, number_on, record_index, ticket_refusal};
use walk::reach_from;

// A node that was stored: its name, its version as line x 65,536 + version; its two numbers, and how many nodes of its version are left.
#[derive(Clone, Copy)]
pub struct WovenNode {
    pub version: u64,
    pub first: PageIndex,
    pub span: u64,
    pub left: u32,
    pub right: u32,
    pub rest: u64,
}

// The halves of a node that is no leaf.
#[derive(Clone, Copy)]
struct Halves {
    left: Named,
    right: Named,
}

// The next node, in weaving order, of the update with this part: its name, its halves, none of a leaf, and its place. For a place that is more than 64 bits
// hold stands the largest number, which lies past any node area too.
#[derive(Clone, Copy)]
struct Next {
    part: Part,
    node: Named,
    halves: Option<Halves>,
    place: u64,
    ghost named: { node ≡ name_of (next_node part) },
    ghost parted: { halves ≡ halves_of (next_node part) },
    ghost placed: { place ≡ min (next_place part) (2 ^ 64 - 1) },
}

// What WEAVE stores: the number of the ticket's update, and that update's next node, with its place and its numbers.
#[derive(Clone, Copy)]
struct NextFound {
    update: u64,
    place: u64,
    node: WovenNode,
}

// The halves of a node. That its pages end within 64 bits is asked here, and of a half below: `Named` has it as no ghost field, since `node_by_number` names nodes
// over any first page.
#[tactic(auto, using(crate::proofs::Room::halves_rules))]
fn halves_of(x: Named) -> Option<Halves>
    requires { x.first.0 + x.span < 2 ^ 64 }
    ensures { (y : Node) → x ≡ name_of y → result ≡ halves_of y }
{
    if x.span == 1 {
        return None;
    }
    let span = x.span / 2;
    let left = Named {
        first: x.first,
        span,
    };
    let right = Named {
        first: PageIndex(x.first.0 + span),
        span,
    };
    Some(Halves { left, right })
}

// The next node of the update with this part.
#[tactic(auto, using(crate::proofs::Room::root_rules))]
fn next_node(part: Part) -> Next
    ensures { result.part ≡ part }
{
    let root = root_within(part.span);
    let node = node_by_number(extent_of(part).f, root, part.past, part.woven);
    let start = part.top.saturating_sub(height_of(root.span));
    Next {
        part,
        node,
        halves: halves_of(node),
        place: start.saturating_add(part.woven),
    }
}

// How far the next node's first page lies from the first page of its update.
fn pages_before(x: &Next) -> u64
    ensures { result ≡ x.now.node.first.0 - (update_of x.now.part).f }
{
    x.node.first.0.saturating_sub(extent_of(x.part).f.0)
}

// Whether the next node has no place in the node area, or is a leaf whose page number lies past the page area.
#[tactic(auto, using(crate::proofs::Room::past_rules), unfolding(table::specs::Table::holds))]
fn node_lost(s: &Store, r: &Record, x: &Next) -> bool
    ensures lost { result ≡ holds (s.now.nodes ≤? next_place x.now.part or leaf_past s.now r.now x.now.part (next_node x.now.part)) }
    ensures placed { result ≡ false → x.now.place ≡ next_place x.now.part }
{
    if s.nodes <= x.place {
        return true;
    }
    x.halves.is_none() && s.pages <= r.number.saturating_add(pages_before(x))
}

// The refusal of WEAVE, with the ticket's record r and its update's next node, before the search for the node's numbers.
#[tactic(auto, unfolding(crate::specs::Weave::weave_refusal, table::specs::Table::weave_rows, table::specs::Table::first_refusal, table::specs::Table::holds))]
fn weave_refusal(s: &Store, g: Lengths, r: &Record, x: &Next, t: Ticket) -> Result<(), Refusal>
    ensures number { number_in result ≡ weave_refusal s.now g r.now x.now.part t.0 }
    ensures placed { IfOk result (λ u. x.now.place ≡ next_place x.now.part) }
    ensures counted { IfOk result (λ u. (0 < r.now.update) × (suc x.now.part.woven < 2 ^ 64)) }
{
    ticket_refusal(s, g, t)?;
    // The ticket's record lies past the register; below, its update's does.
    if s.updates < t.0 {
        return Err(Refusal::Damaged);
    }
    if r.update == 0 {
        return Err(Refusal::OutOfTurn);
    }
    if s.updates < r.update {
        return Err(Refusal::Damaged);
    }
    if x.part.count <= x.part.woven {
        return Err(Refusal::OutOfTurn);
    }
    if node_lost(s, r, x) {
        return Err(Refusal::Damaged);
    }
    Ok(())
}

// The number of the newest update below the version numbered c, on its line, that meets the pages of node x, as the node area keeps it: 0 where there is no
// such update. Updates after the last published version are in work, or complete and not yet due: the register is walked over these. Where none of them meets
// the pages, the last published version's tree has the answer; none where a node of it is not there.
#[tactic(auto, using(crate::proofs::Older::older_rules))]
fn far_child(s: &Store, areas: &Areas, c: u64, x: Named) -> Option<u64>
    requires { (x.first.0 + x.span < 2 ^ 64) × (0 < x.span) }
    ensures found { let a = lent areas.now in
        (h : ℕ) → x.span ≡ 2 ^ h → or_most result ≡ older_number s.now a.nodes a.register c x.first.0 h }
    ensures small { (h : ℕ) → x.span ≡ 2 ^ h → IfSome result (λ n. n < 2 ^ 64 - 1) }
{
    let l = line_of(c);
    let last = line_state(s, l).published;
    let before = Version(version_of(c).0.saturating_sub(1));
    let own = newest_own(areas.register, l, last, before, x.first, x.span);
    if own.0 > 0 {
        return Some(number_of(l, own));
    }
    let d = number_on(s, l, last);
    let root = version_part(areas.register, d).span;
    reach_from(areas, d, root, x.first, x.span)
}

// The number for half x of a node of the version numbered c: the version's own where its update meets the half, whether or not the half is stored yet; else
// that of the newest update below it that does.
fn half_number(s: &Store, areas: &Areas, c: u64, met: bool, x: Named) -> Result<u64, Refusal>
    requires { (x.first.0 + x.span < 2 ^ 64) × (0 < x.span) }
    ensures number { let a = lent areas.now in
        (h : ℕ) → x.span ≡ 2 ^ h → number_in result ≡ lost_by (lost_half met (older_number s.now a.nodes a.register c x.first.0 h)) }
    ensures found { let a = lent areas.now in
        (h : ℕ) → x.span ≡ 2 ^ h → IfOk result (λ n. n ≡ pick met c (older_number s.now a.nodes a.register c x.first.0 h)) }
{
    if met {
        return Ok(c);
    }
    far_child(s, areas, c, x).ok_or(Refusal::Damaged)
}

// A number as the node area keeps it: its low 32 bits. A cast takes only what fits.
fn kept_of(x: u64) -> u32
    ensures { result ≡ kept x }
{
    (x % 4294967296) as u32
}

// The next node with its numbers: its children's, or a leaf's page number.
fn woven_node(s: &Store, areas: &Areas, r: &Record, x: &Next) -> Result<WovenNode, Refusal>
    ensures number { let a = lent areas.now in
        number_in result ≡ lost_by (lost_child s.now a.nodes a.register x.now.part (next_node x.now.part)) }
    ensures node { let a = lent areas.now in
        IfOk result (λ n. n ≡ woven_node s.now a.nodes a.register r.now x.now.part (next_node x.now.part)) }
{
    let q = x.part;
    let e = extent_of(q);
    let (left, right) = match x.halves {
        None => (r.number.wrapping_add(pages_before(x)), 0),
        Some(h) => (
            half_number(s, areas, q.name, e.f.0 < h.right.first.0, h.left)?,
            half_number(s, areas, q.name, h.right.first.0 <= e.last.0, h.right)?,
        ),
    };
    Ok(WovenNode {
        version: q.name,
        first: x.node.first,
        span: x.node.span,
        left: kept_of(left),
        right: kept_of(right),
        rest: q.count.saturating_sub(q.woven).saturating_sub(1),
    })
}

// What WEAVE finds in the register and the tree of the last published version: nothing is stored yet.
#[tactic(auto, using(table::proofs::Refused::refusals), unfolding(table::specs::Table::or_else))]
fn find_next(s: &Store, areas: &Areas, t: Ticket) -> Result<NextFound, Refusal>
    ensures number { number_in result ≡ weave_number s.now (lent areas.now) t.0 }
    ensures found { IfOk result (λ w. w ≡ next_found s.now (lent areas.now) t.0) }
    ensures counted { IfOk result (λ w. Counted areas.now.register.now w.update) }
{
    let r = ticket_record(areas.register, t);
    let x = next_node(update_part(areas.register, r.update));
    weave_refusal(s, lengths_in(areas), &r, &x, t)?;
    let node = woven_node(s, areas, &r, &x)?;
    Ok(NextFound {
        update: r.update,
        place: x.place,
        node,
    })
}

// Counts one node more as woven in the record of the update of this number: the one field that it changes is written. By its index: after a slice's `get_mut` a
// proof knows the slice's length and not its elements.
#[tactic(auto, unfolding(register::specs::Register::with_record))]
fn count_woven(register: &mut [Record], update: u64)
    requires { Counted register.old update }
    ensures { let rs = register.old in
        register.new ≡ with_record rs (pred update) (with_woven (nth no_record rs update)) }
{
    let at = record_index(update);
    if at < register.len() {
        register[at].woven += 1;
    }
}

// WEAVE ticket: stores the next node of the ticket's update at its place. The areas come as three slices, since a call of C lends some as const and some not.
#[tactic(auto, using(table::proofs::Refused::refusals), unfolding(table::specs::Table::unless))]
pub fn weave(
    s: &Store,
    pages: &[u8],
    nodes: &mut [u32],
    register: &mut [Record],
    t: Ticket,
) -> Result<WovenNode, Refusal>
    ensures { let a = areas_of pages.now nodes.old register.old in
        (numbered result ≡ weave_out s.now a t.0)
        × (nodes.new ≡ weave_nodes s.now a t.0)
        × (register.new ≡ weave_register s.now a t.0) }
{
    let areas = Areas {
        pages,
        nodes,
        register,
    };
    let w = find_next(s, &areas, t)?;
    store_node(nodes, w.place, w.node.left, w.node.right);
    count_woven(register, w.update);
    Ok(w.node)
}
