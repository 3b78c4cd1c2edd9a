// PUT: one page of a ticket's update.
#![tactic(auto)]

ghost use Rattle.std.specs.Prelude.{◌≡◌, ◌+◌};
ghost use Rattle.table.specs.Refused.{numbered, answered};
ghost use Rattle.versions.specs.Store.{areas_of};
ghost use Rattle.put.specs.Put.{bit_of, with_bit, put_refusal, put_out, put_pages, put_register};

use register::{Record, ticket_record};
use table::Refusal;
use tree::Ticket;
use versions::{Lengths, Store, lengths_of, record_index, ticket_refusal};

// The pages that a record's mask has a bit for, one a page: the record's layout gives it a `u64`.
const MASK_BITS: u64 = 64;

// Bit i of a mask, 0 past its end. (std has no word for one bit of a number.)
#[tactic(auto, using(crate::proofs::Bits::bits))]
fn bit_of(mask: u64, i: u64) -> u64
    ensures { result ≡ bit_of mask i }
{
    if i < MASK_BITS { (mask >> i) % 2 } else { 0 }
}

// The mask with 1 added at bit i, none past its end. (For this too std has no word.)
#[tactic(auto, using(crate::proofs::Bits::bits))]
fn with_bit(mask: u64, i: u64) -> u64
    ensures { result ≡ with_bit mask i }
{
    if i < MASK_BITS {
        mask.wrapping_add(1 << i)
    } else {
        mask
    }
}

// The refusal of PUT, or the number of page i, with the ticket's record r.
#[tactic(auto, using(table::proofs::Refused::number_positive), unfolding(crate::specs::Put::put_refusal, table::specs::Table::put_rows, table::specs::Table::first_refusal, table::specs::Table::holds))]
fn page_number(
    s: &Store,
    l: Lengths,
    r: Record,
    t: Ticket,
    i: u64,
    bytes: usize,
) -> Result<u64, Refusal>
    ensures { numbered result ≡ answered (put_refusal s.now l r t.0 i bytes) (r.number + i) }
{
    ticket_refusal(s, l, t)?;
    let whole = bytes as u64 == s.size;
    // The record lies past the register.
    if s.updates < t.0 {
        return Err(if whole {
            Refusal::Damaged
        } else {
            Refusal::PageLength
        });
    }
    if r.update != 0 {
        return Err(Refusal::OutOfTurn);
    }
    if r.n <= i {
        return Err(Refusal::NoSuchPage);
    }
    if bit_of(r.put, i) == 1 {
        return Err(Refusal::AlreadyPut);
    }
    if !whole {
        return Err(Refusal::PageLength);
    }
    if s.pages <= r.number.saturating_add(i) {
        return Err(Refusal::Damaged);
    }
    Ok(r.number + i)
}

// PUT ticket, i, bytes: stores page i of the update. The store stays as it is, and of the ticket's record the one field that changes is written.
// (Three areas, and no struct of them: C lends two to be changed and one to be read.)
#[tactic(auto, using(table::proofs::Refused::tells, crate::proofs::Passed::put_ticket), unfolding(register::specs::Register::with_record))]
pub fn put(
    s: &Store,
    pages: &mut [u8],
    nodes: &[u32],
    register: &mut [Record],
    t: Ticket,
    i: u64,
    bytes: &[u8],
) -> Result<(), Refusal>
    ensures { let a = areas_of pages.old nodes.now register.old in
        (numbered result ≡ put_out s.now a t.0 i bytes.now)
        × (pages.new ≡ put_pages s.now a t.0 i bytes.now)
        × (register.new ≡ put_register s.now a t.0 i bytes.now) }
{
    let r = ticket_record(register, t);
    let l = lengths_of(pages, nodes, register);
    let number = page_number(s, l, r, t, i, bytes.len())?;
    pages::put_page(pages, s.size, number, bytes);
    register[record_index(t.0)].put = with_bit(r.put, i);
    Ok(())
}
