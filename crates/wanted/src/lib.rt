// What a line of the step program asks for, within the program's own limits, and the lengths of the areas that it is lent. `parse` has read the text;
// `respond` does it.
#![tactic(auto)]

ghost use Rattle.std.specs.Prelude.{◌≡◌, ◌≤◌};
ghost use Rattle.text.specs.Buffer.{front};
ghost use Rattle.parse.specs.Cut.{cut_meant};
ghost use Rattle.wanted.specs.Wanted.{beyond, format_wanted, read_wanted, wanted_by, store_for, lengths_for, lent_lengths};

use format::fresh_store;
use parse::{Cutter, Step};
use versions::{Lengths, Store};

// What a step asks for, by whether it needs an open store and changes areas; `Format` holds the limits of the store that it would make. The numbers
// get their sorts where the call is made: here they would be one more struct in every pattern. `parse::Step` is what the text says, of which
// `cut_means` speaks; these stand by what the call needs.
#[derive(Clone, Copy)]
pub enum Wanted {
    Format(u64, u64, u64, u64),
    Worst(u64, u64),
    Read(u64, u64, u64, u64),
    Change(Change),
    Look(Look),
}

// The steps that change pages, nodes or the register of the open store. `Put` holds how many page bytes the line has; they stand in a buffer that is lent.
#[derive(Clone, Copy)]
pub enum Change {
    Put(u64, u64, usize),
    Weave(u64),
    Begin(u64),
    Write(u64, u64, u64),
    Append(u64, u64),
}

// Those that change no area and answer no bytes.
#[derive(Clone, Copy)]
pub enum Look {
    Publish(u64, u64),
    Branch(u64, u64),
    Size(u64, u64),
    Recent(u64),
    Stamp(u64, u64, u64),
}

// The program's own limits: page size, page bytes, nodes and updates of a store.
const MOST_SIZE: u64 = 256;

const MOST_BYTES: u64 = 32768;

const MOST_NODES: u64 = 2048;

const MOST_UPDATES: u64 = 256;

// The most bytes that a READ gives.
const MOST_READ: u64 = 256;

// ---- what a step asks for

// Whether a store is beyond the program's own limits.
#[tactic(auto, unfolding(crate::specs::Wanted::beyond))]
fn is_beyond(size: u64, pages: u64, nodes: u64, updates: u64) -> bool
    ensures { result ≡ beyond size pages nodes updates }
{
    if size > MOST_SIZE || size.saturating_mul(pages) > MOST_BYTES {
        return true;
    }
    nodes > MOST_NODES || updates > MOST_UPDATES
}

// FORMAT is asked only within the program's own limits.
#[tactic(auto, unfolding(crate::specs::Wanted::format_wanted))]
fn format_wanted(size: u64, pages: u64, nodes: u64, updates: u64) -> Option<Wanted>
    ensures { result ≡ format_wanted size pages nodes updates }
{
    if is_beyond(size, pages, nodes, updates) {
        return None;
    }
    Some(Wanted::Format(size, pages, nodes, updates))
}

// READ is asked only within the program's own limit.
#[tactic(auto, unfolding(crate::specs::Wanted::read_wanted))]
fn read_wanted(l: u64, v: u64, offset: u64, n: u64) -> Option<Wanted>
    ensures { result ≡ read_wanted l v offset n }
{
    if n > MOST_READ {
        return None;
    }
    Some(Wanted::Read(l, v, offset, n))
}

// What a step asks for; nothing where its line is malformed, or it is beyond the program's own limits. No `From`: both ends are an `Option`,
// which is std's. A `match`, since each step has numbers of its own.
#[tactic(auto, unfolding(crate::specs::Wanted::wanted_by))]
fn wanted_by(step: Option<Step>) -> Option<Wanted>
    ensures { result ≡ wanted_by step }
{
    match step? {
        Step::Format(s, p, n, u) => format_wanted(s, p, n, u),
        Step::Begin(n) => Some(Wanted::Change(Change::Begin(n))),
        Step::Put(t, i, n) => Some(Wanted::Change(Change::Put(t, i, n))),
        Step::Write(l, t, f) => Some(Wanted::Change(Change::Write(l, t, f))),
        Step::Append(l, t) => Some(Wanted::Change(Change::Append(l, t))),
        Step::Weave(t) => Some(Wanted::Change(Change::Weave(t))),
        Step::Publish(l, k) => Some(Wanted::Look(Look::Publish(l, k))),
        Step::Branch(l, v) => Some(Wanted::Look(Look::Branch(l, v))),
        Step::Read(l, v, o, n) => read_wanted(l, v, o, n),
        Step::Size(l, v) => Some(Wanted::Look(Look::Size(l, v))),
        Step::Recent(l) => Some(Wanted::Look(Look::Recent(l))),
        Step::Stamp(l, v, p) => Some(Wanted::Look(Look::Stamp(l, v, p))),
        Step::Worst(r, n) => Some(Wanted::Worst(r, n)),
    }
}

// What the line of text that the cutter holds asks for; its page bytes go to the front of the buffer, where they fit.
pub fn wanted_cut(c: Cutter, text: &[u8], out: &mut [u8]) -> Option<Wanted>
    ensures { (result ≡ wanted_by (cut_meant c text.now).step) × (out.new ≡ front (cut_meant c text.now).bytes out.old) }
{
    wanted_by(c.step(text, out))
}

// ---- the areas that a step is lent

// The store whose areas a step is lent: the one that is open, if one is, and for FORMAT the one that it would make.
#[tactic(auto, unfolding(crate::specs::Wanted::store_for))]
fn store_for(kept: Option<Store>, wanted: Option<Wanted>) -> Option<Store>
    ensures { result ≡ store_for kept wanted }
{
    match wanted {
        Some(Wanted::Format(s, p, n, u)) => Some(fresh_store(s, p, n, u)),
        _ => kept,
    }
}

// The lengths of the areas of a store, none past the array it lies in; with no store nothing is lent. A store that this program formats fits the arrays, so
// these are exact.
#[tactic(auto, unfolding(crate::specs::Wanted::lengths_for))]
fn lengths_for(store: Option<Store>, most: Lengths) -> Lengths
    ensures exact { result ≡ lengths_for store most }
    ensures within { (result.pages ≤ most.pages) × (result.nodes ≤ most.nodes) × (result.register ≤ most.register) }
{
    let Some(s) = store else {
        return Lengths {
            pages: 0,
            nodes: 0,
            register: 0,
        };
    };
    Lengths {
        pages: s.size.saturating_mul(s.pages).min(most.pages as u64) as usize,
        nodes: s.nodes.saturating_mul(2).min(most.nodes as u64) as usize,
        register: s.updates.min(most.register as u64) as usize,
    }
}

// The lengths of the areas that a step is lent, of arrays of these lengths.
#[tactic(auto, unfolding(crate::specs::Wanted::lent_lengths))]
pub fn lent_lengths(kept: Option<Store>, wanted: Option<Wanted>, most: Lengths) -> Lengths
    ensures exact { result ≡ lent_lengths kept wanted most }
    ensures within { (result.pages ≤ most.pages) × (result.nodes ≤ most.nodes) × (result.register ≤ most.register) }
{
    lengths_for(store_for(kept, wanted), most)
}
