// BEGIN: the next ticket, with the next page numbers.
#![tactic(auto, using(table::proofs::Refused::tells), unfolding(crate::specs::Begin::begin_refusal, table::specs::Table::begin_rows, table::specs::Table::first_refusal, table::specs::Table::holds))]

ghost use Rattle.std.specs.Prelude.{◌≡◌, ◌+◌};
ghost use Rattle.table.specs.Refused.{numbered, answered};
ghost use Rattle.versions.specs.Store.{areas_of};
ghost use Rattle.begin.specs.Begin.{begin_refusal, begin_out, begin_register};

use register::{Record, record_at, set_record};
use table::Refusal;
use tree::{MOST_UPDATED, Ticket};
use versions::{Lengths, Store, areas_differ, lengths_of};

// The refusal of BEGIN, or how many page numbers are taken with its own.
fn taken_with(s: &Store, l: Lengths, n: u64) -> Result<u64, Refusal>
    ensures { numbered result ≡ answered (begin_refusal s.now l n) (s.now.taken + n) }
{
    if areas_differ(s, l) {
        return Err(Refusal::AreaLength);
    }
    if n == 0 || n > MOST_UPDATED {
        return Err(Refusal::UpdateSize);
    }
    if s.updates <= s.tickets.0 {
        return Err(Refusal::RegisterFull);
    }
    if n > s.pages.saturating_sub(s.taken) {
        return Err(Refusal::PagesFull);
    }
    Ok(s.taken + n)
}

// BEGIN n: the next ticket, with the next n page numbers.
// (Three areas, and no struct of them: C lends the register to be changed, and the others to be read.)
pub fn begin(
    s: &mut Store,
    pages: &[u8],
    nodes: &[u32],
    register: &mut [Record],
    n: u64,
) -> Result<Ticket, Refusal>
    ensures { let a = areas_of pages.now nodes.now register.old in
        (numbered result ≡ (begin_out s.old a n).answer)
        × (s.new ≡ (begin_out s.old a n).store)
        × (register.new ≡ begin_register s.old a n) }
{
    let taken = taken_with(s, lengths_of(pages, nodes, register), n)?;
    let i = s.tickets.0 as usize;
    let r = Record {
        n,
        number: s.taken,
        put: 0,
        update: 0,
        ..record_at(register, i)
    };
    set_record(register, i, r);
    s.tickets = Ticket(s.tickets.0 + 1);
    s.taken = taken;
    Ok(s.tickets)
}
