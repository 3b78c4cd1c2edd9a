// FORMAT: the store that limits make, and its areas filled.
#![tactic(auto)]

ghost use Rattle.std.specs.Prelude.{◌≡◌};
ghost use Rattle.table.specs.Table.{holds, outside};
ghost use Rattle.table.specs.Refused.{number_in, numbered};
ghost use Rattle.versions.specs.Store.{areas_of};
ghost use Rattle.format.specs.Format.{fresh, format_refusal, format_answer, format_areas};

use register::{Record, no_record};
use table::Refusal;
use tree::Ticket;
use versions::{Lengths, Store, areas_differ, lengths_of};
use windows::{Windows, no_windows};

// What FORMAT makes: a store, and no windows.
#[derive(Clone, Copy)]
pub struct Formatted {
    pub store: Store,
    pub windows: Windows,
}

// Not from 1 to most.
#[tactic(auto, unfolding(table::specs::Table::holds))]
fn out_of_range(most: u64, n: u64) -> bool
    ensures { result ≡ holds (outside most n) }
{
    !(1..=most).contains(&n)
}

// The refusal of FORMAT for the store that it would make.
#[tactic(auto, unfolding(crate::specs::Format::format_refusal, table::specs::Table::format_rows, table::specs::Table::first_refusal, table::specs::Table::holds))]
fn format_refusal(s: &Store, l: Lengths) -> Result<(), Refusal>
    ensures { number_in result ≡ format_refusal s.now l }
{
    if s.size < 16 || 4096 % s.size != 0 {
        return Err(Refusal::PageSize);
    }
    if out_of_range(65535, s.pages)
        || out_of_range(131072, s.nodes)
        || out_of_range(4096, s.updates)
    {
        return Err(Refusal::Capacity);
    }
    if areas_differ(s, l) {
        return Err(Refusal::AreaLength);
    }
    Ok(())
}

// The store that FORMAT makes.
pub fn fresh_store(size: u64, pages: u64, nodes: u64, updates: u64) -> Store
    ensures { result ≡ fresh size pages nodes updates }
{
    let lines = [0u64; 16];
    Store {
        size,
        pages,
        nodes,
        updates,
        tickets: Ticket(0),
        taken: 0,
        assigned: 0,
        places: 0,
        begun: 1,
        sources: 0,
        lines,
    }
}

// FORMAT: the store that these limits make, and its areas filled: pages of 0, no node stored, empty records. A refusal yields no store and leaves the areas.
// The limits are four numbers and the areas three slices, as C hands them over: the store has the limits from here on, and no other call writes all areas.
#[tactic(auto, using(table::proofs::Refused::refusals), unfolding(table::specs::Table::unless))]
pub fn format(
    size: u64,
    page_count: u64,
    node_count: u64,
    updates: u64,
    pages: &mut [u8],
    nodes: &mut [u32],
    register: &mut [Record],
) -> Result<Formatted, Refusal>
    ensures { let a = areas_of pages.old nodes.old register.old in
        let s = fresh size page_count node_count updates in
        (numbered result ≡ format_answer s a)
        × (pages.new ≡ (format_areas s a).pages)
        × (nodes.new ≡ (format_areas s a).nodes)
        × (register.new ≡ (format_areas s a).register) }
{
    let store = fresh_store(size, page_count, node_count, updates);
    format_refusal(&store, lengths_of(pages, nodes, register))?;
    pages.fill(0);
    nodes.fill(u32::MAX);
    register.fill(no_record());
    Ok(Formatted {
        store,
        windows: no_windows(),
    })
}
