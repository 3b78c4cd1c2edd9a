// Blast windows, while which no new version may be published: a site's windows by value, whether a minute is inside one, and the text of a list. No
// public function has a `requires`.
#![tactic(auto)]

ghost use Rattle.std.specs.Prelude.{◌≡◌, [], ◌∷◌, ◌++◌};
ghost use Rattle.table.specs.Refused.{numbered};
ghost use Rattle.windows.specs.Windows.{inside_one, inside, no_windows};
ghost use Rattle.windows.specs.Listed.{entry_of, line_entry, listed_of, InsideMeans};

use fields::{field, field_count, number_in};
use table::Refusal;

// The last minute of the week, which counts them from 0.
pub const LAST_MINUTE: u16 = 10079;

// A weekly window, in minutes of the week 0 to 10,079. One with equal ends has no minute. No `PartialEq`: nothing compares two windows.
#[repr(C)]
#[derive(Clone, Copy)]
pub struct Window {
    pub from: u16,
    pub to: u16,
}

// A site's windows: at most 32, in the order of their list; the places after them are 0. C has it by value, so that it is an array and no list.
#[repr(C)]
#[derive(Clone, Copy)]
pub struct Windows {
    pub places: [Window; 32],
}

// No windows. No `Default`: callers read this name, and a derive would not show that an unused place has equal ends.
pub fn no_windows() -> Windows
    ensures { result ≡ no_windows }
{
    Windows {
        places: [Window { from: 0, to: 0 }; 32],
    }
}

// Whether a minute is inside a window. Both cases are comparisons: of a window that goes on over the week's end no range speaks.
#[tactic(auto, unfolding(crate::specs::Windows::inside_one))]
fn inside_one(w: Window, minute: u64) -> bool
    ensures { result ≡ inside_one w minute }
{
    let from = u64::from(w.from);
    let to = u64::from(w.to);
    if from <= to {
        from <= minute && minute < to
    } else {
        from <= minute || minute < to
    }
}

// Whether a minute is inside one of the windows. The first place that is not used ends them, so that a short list costs little.
#[tactic(auto, unfolding(crate::specs::Windows::inside))]
pub fn is_inside(w: &Windows, minute: u64) -> bool
    ensures { result ≡ inside w.now.places minute }
{
    for place in &w.places {
        if place.from == place.to {
            return false;
        }
        if inside_one(*place, minute) {
            return true;
        }
    }
    false
}

// The window of two numbers, if they are minutes of the week and differ.
#[tactic(auto, unfolding(crate::specs::Listed::entry_of))]
fn entry_of(a: Option<u64>, b: Option<u64>) -> Option<Window>
    ensures { result ≡ entry_of a b }
{
    let from = u16::try_from(a?).ok()?;
    let to = u16::try_from(b?).ok()?;
    if from > LAST_MINUTE || to > LAST_MINUTE || from == to {
        return None;
    }
    Some(Window { from, to })
}

// The window that a line is, if it is one: its line feed is no part of it.
#[tactic(auto, using(crate::proofs::Entries::entries))]
fn line_entry(line: &[u8]) -> Option<Window>
    ensures { result ≡ line_entry line.now }
{
    if field_count(line) != 2 {
        return None;
    }
    entry_of(number_in(field(line, 0)), number_in(field(line, 1)))
}

// The windows of lines, without the line feed that ends the last one. A window past the 32nd place is counted and not stored, so that a wrong line
// after it is still found. They are counted by hand, since how many they are is asked after the loop.
fn read_lines(lines: &[u8]) -> Result<Windows, Refusal>
    ensures { numbered result ≡ listed_of (lines.now ++ (10 ∷ [])) }
{
    let mut windows = no_windows();
    let mut n: usize = 0;
    for line in lines.split(|b| *b == b'\n') {
        let w = line_entry(line).ok_or(Refusal::WrongWindow)?;
        if n < 32 {
            windows.places[n] = w;
        }
        n += 1;
    }
    if n > 32 {
        return Err(Refusal::TooManyWindows);
    }
    Ok(windows)
}

// The windows of a text, line by line: each line ends in a line feed, and the empty text is the empty list.
#[tactic(auto, using(crate::proofs::Lines::reads))]
pub fn read_list(text: &[u8]) -> Result<Windows, Refusal>
    ensures { numbered result ≡ listed_of text.now }
{
    let Some((last, lines)) = text.split_last() else {
        return Ok(no_windows());
    };
    if *last != b'\n' {
        return Err(Refusal::WrongWindow);
    }
    read_lines(lines)
}

// The theorem of a text's windows, as a promise: a function is what the prover's verdict counts, so that a theorem that is gone is seen.
pub fn inside_means()
    ensures { InsideMeans }
{}
