// The step program: it reads steps from standard input, a line each, and writes one answer line each. `main` lends the arrays; `parse` cuts lines out of
// what is read, and `respond` answers them.
#![tactic(auto)]

ghost use Rattle.std.specs.Prelude.{◌≡◌, ◌≤◌, length};
ghost use Rattle.versions.specs.Store.{areas_of};
ghost use Rattle.answers.specs.Answers.{written};
ghost use Rattle.steps.specs.Inputs.{line_taken, line_begun, line_at_end, within, anew};
ghost use Rattle.steps.specs.Places.{first_place, unread_after, line_said, line_areas};

use answers::AnswerLine;
use parse::Cutter;
use register::Record;
use std::io::{Read, Stdin};
use versions::{Store, lengths_of};

// What is read of the input and not yet taken: the bytes of the block from index `at` up to `end`. The block is lent: fixed memory.
#[derive(Clone, Copy)]
struct Unread {
    at: usize,
    end: usize,
}

// Where the program stands between two lines: the store that is open, if one is, and what is read of the input; none where it has ended.
#[derive(Clone, Copy)]
struct Place {
    kept: Option<Store>,
    unread: Option<Unread>,
}

// The place where the program begins: no store is open, and nothing is read.
fn first_place() -> Place
    ensures { result ≡ first_place }
{
    Place {
        kept: None,
        unread: Some(Unread { at: 0, end: 0 }),
    }
}

// Takes the bytes that were read, to the end of a line or of the block, and says whether the line ended.
fn take_line(unread: &mut Unread, cutter: &mut Cutter, block: &[u8], text: &mut [u8]) -> bool
    requires { unread.old.end ≤ length block.now }
    ensures { let z = line_taken unread.old cutter.old block.now text.old in
        (result ≡ z.ended)
        × (cutter.new ≡ z.cutter)
        × (text.new ≡ z.text)
        × (unread.new.at ≡ z.at)
        × (unread.new.end ≡ unread.old.end) }
{
    for at in unread.at..unread.end {
        unread.at = at + 1;
        if cutter.feed(text, block[at]) {
            return true;
        }
    }
    false
}

// Reads on in a line: at most a block of standard input, and waits where nothing is there. At its end, or where it cannot be read, none is unread from
// here on, and a last line without its line feed is to be answered.
#[tactic(auto, unfolding(crate::specs::Inputs::last_line))]
fn read_on(
    unread: &mut Option<Unread>,
    stdin: Stdin,
    block: &mut [u8],
    cutter: Cutter,
) -> Option<Cutter>
    ensures within { within unread.new (length block.old) }
    ensures anew { anew unread.new }
    ensures last { result ≡ line_at_end unread.new cutter }
{
    let mut reader = stdin;
    *unread = match reader.read(block) {
        Ok(0) => None,
        Ok(n) => Some(Unread { at: 0, end: n }),
        Err(_) => None,
    };
    if unread.is_none() && cutter.unended() {
        Some(cutter)
    } else {
        None
    }
}

// Takes the next line of the input, of what was read or of what is read on; none where the input has ended, after which nothing more is read.
fn next_line(
    unread: &mut Option<Unread>,
    stdin: Stdin,
    block: &mut [u8],
    text: &mut [u8],
) -> Option<Cutter>
    requires { within unread.old (length block.old) }
    ensures within { within unread.new (length block.old) }
    ensures begun { line_begun unread.old block.old text.old result unread.new text.new }
{
    let mut cutter = Cutter::fresh();
    let Some(left) = unread else {
        return None;
    };
    if take_line(left, &mut cutter, block, text) {
        return Some(cutter);
    }
    rest_of_line(unread, stdin, block, text, cutter)
}

// Takes the rest of a line, of which the cutter holds the beginning, as often as it has to be read on. A proved loop has to end, and nothing says that the
// input does, so the turns count up to a number that no run reaches.
fn rest_of_line(
    unread: &mut Option<Unread>,
    stdin: Stdin,
    block: &mut [u8],
    text: &mut [u8],
    begun: Cutter,
) -> Option<Cutter>
    requires { within unread.old (length block.old) }
    ensures { within unread.new (length block.old) }
{
    let mut cutter = begun;
    for _turn in 0..u64::MAX {
        let last = read_on(unread, stdin, block, cutter);
        let Some(left) = unread else {
            return last;
        };
        if take_line(left, &mut cutter, block, text) {
            return Some(cutter);
        }
    }
    None
}

// Answers the line that the cutter holds. The store's areas are the first parts of the arrays lent. A line's page bytes are fewer than its own, of which
// there are at most 600.
#[tactic(auto, unfolding(crate::specs::Places::line_said, crate::specs::Places::line_areas, crate::specs::Places::line_bytes))]
fn answer(
    kept: &mut Option<Store>,
    c: Cutter,
    text: &[u8],
    pages: &mut [u8],
    nodes: &mut [u32],
    register: &mut [Record],
) -> AnswerLine
    ensures { let a = areas_of pages.old nodes.old register.old in
        let x = text.now in
        (kept.new ≡ (line_said kept.old c x a).kept)
        × (result ≡ written (line_said kept.old c x a).line)
        × (pages.new ≡ (line_areas kept.old c x a).pages)
        × (nodes.new ≡ (line_areas kept.old c x a).nodes)
        × (register.new ≡ (line_areas kept.old c x a).register) }
{
    let mut bytes = [0u8; 600];
    let wanted = wanted::wanted_cut(c, text, &mut bytes);
    let l = wanted::lent_lengths(*kept, wanted, lengths_of(pages, nodes, register));
    respond::respond(
        kept,
        wanted,
        &mut pages[..l.pages],
        &mut nodes[..l.nodes],
        &mut register[..l.register],
        &bytes,
    )
}

// What is left of the input after an answer: nothing where it could not be written, which ends the program.
fn unread_after(unread: Option<Unread>, written: bool) -> Option<Unread>
    ensures { result ≡ unread_after unread written }
{
    if written { unread } else { None }
}

// The turns count up as in `rest_of_line`. The arrays are fixed memory: there is no heap.
#[tactic(auto, using(answers::proofs::Written::written_fits))]
fn main(rt: HostRuntime) {
    let stdin = rt.stdin();
    let stdout = rt.stdout();
    let mut block = [0u8; 4096];
    let mut text = [0u8; 600];
    let mut pages = [0u8; 32768];
    let mut nodes = [0u32; 4096];
    let empty = register::no_record();
    let mut register = [empty; 256];
    let mut place = first_place();
    for _turn in 0..u64::MAX {
        let Some(cutter) = next_line(&mut place.unread, stdin, &mut block, &mut text) else {
            return;
        };
        let line = answer(
            &mut place.kept,
            cutter,
            &text,
            &mut pages,
            &mut nodes,
            &mut register,
        );
        let written = stdout.write_all(&line.bytes[..line.len]).is_ok();
        place.unread = unread_after(place.unread, written);
    }
}
