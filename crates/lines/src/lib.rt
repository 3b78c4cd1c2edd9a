// Planning lines: a line's state, the numbers that name a version of a line, and for each line the record of its own version. A store holds sixteen states in
// words; what packs and unpacks one stands here, and what reads the store's where the store does.
#![tactic(auto)]

ghost use Rattle.std.specs.Prelude.{◌≡◌, ◌+◌, ◌-◌, ◌*◌, ◌/◌, ◌%◌, ◌^◌, ◌<◌, ◌≤◌};
ghost use Rattle.lines.specs.Lines.{no_branch, line_of, version_of, number_of, field_of, packed, unpacked, source_at, with_source, no_entries, entry_at, with_entry};

use tree::Version;

// A line, counted from 0 in the order in which they begin.
#[repr(C)]
#[derive(Clone, Copy, PartialEq, Eq, PartialOrd, Ord, Default)]
pub struct Line(pub u64);

// A line's state: the line and the version that it begins from, the last version assigned, the last one published, and the size in pages of the last
// assigned one.
#[derive(Clone, Copy, Default)]
pub struct Branch {
    pub source: Line,
    pub start: Version,
    pub assigned: Version,
    pub published: Version,
    pub blob: u64,
}

// For each line the number of the update that is its own version, 16 bits a line, four lines a word; 0 where it has none. C lends the records that hold
// these, so that their layout is C's: four words by name and no array, which the code picks from by an arm each.
#[repr(C)]
#[derive(Clone, Copy, Default)]
pub struct Entries {
    pub from0: u64,
    pub from4: u64,
    pub from8: u64,
    pub from12: u64,
}

// ---- the lines

// The state of a line that has not begun; line 0 begins with it. It is `default()`, by the definition's name.
pub fn no_branch() -> Branch
    ensures { result ≡ no_branch }
{
    Branch::default()
}

// ---- the numbers of versions: plain words, as the node area keeps them, which a `From` could not tell from a line's or a version's own

// How many lines, and versions of a line, a number has room for: each has 16 bits of it.
const ROOM: u64 = 65536;

// A version's number: line x 65,536 + version, of the line on which it got its number; 0 for no version, as C and the node area have it.
pub fn number_of(l: Line, v: Version) -> u64
    ensures { result ≡ number_of l.0 v.0 }
{
    if v.0 == 0 {
        return 0;
    }
    l.0 % ROOM * ROOM + v.0 % ROOM
}

// The line in a version's number.
pub fn line_of(number: u64) -> Line
    ensures { result ≡ record { 0 = line_of number } }
{
    Line(number / ROOM)
}

// The version in a version's number.
pub fn version_of(number: u64) -> Version
    ensures { result ≡ record { 0 = version_of number } }
{
    Version(number % ROOM)
}

// ---- numbers in a word

// The i-th W bits of a word.
fn bits_of<const W: u64>(word: u64, i: u64) -> u64
    requires { (W < 64) × (W * i + W ≤ 64) }
    ensures { result ≡ word / 2 ^ (W * i) % 2 ^ W }
{
    (word >> (W * i)) % (1 << W)
}

// The word with its i-th W bits anew.
#[tactic(auto, using(crate::proofs::Bits::anew))]
fn with_bits<const W: u64>(word: u64, i: u64, k: u64) -> u64
    requires { (W < 64) × (W * i + W ≤ 64) }
    ensures { result ≡ word - word / 2 ^ (W * i) % 2 ^ W * 2 ^ (W * i) + k % 2 ^ W * 2 ^ (W * i) }
{
    word - (bits_of::<W>(word, i) << (W * i)) + ((k % (1 << W)) << (W * i))
}

// The i-th 16 bits of a word.
pub fn field_of(word: u64, i: u64) -> u64
    requires { i < 4 }
    ensures { result ≡ field_of word i }
{
    bits_of::<16>(word, i)
}

// ---- the lines in a store

// A line's state but its source in a word: start, assigned, published and blob, 16 bits each. Packed by hand, here and below: the words are the layout of the
// store, which C has by value.
#[tactic(auto, unfolding(crate::specs::Lines::packed))]
pub fn packed_state(b: Branch) -> u64
    ensures { result ≡ packed b }
{
    b.start.0 % ROOM
        + ROOM * (b.assigned.0 % ROOM + ROOM * (b.published.0 % ROOM + ROOM * (b.blob % ROOM)))
}

// The state that a source and such a word say.
pub fn unpacked_state(source: u64, word: u64) -> Branch
    ensures { result ≡ unpacked source word }
{
    Branch {
        source: Line(source),
        start: Version(field_of(word, 0)),
        assigned: Version(field_of(word, 1)),
        published: Version(field_of(word, 2)),
        blob: field_of(word, 3),
    }
}

// Line i's source in a word that has those of the sixteen lines, 4 bits each.
pub fn source_at(word: u64, i: u64) -> u64
    requires { i < 16 }
    ensures { result ≡ source_at word i }
{
    bits_of::<4>(word, i)
}

// The word with line i's source anew.
pub fn with_source(word: u64, i: u64, l: u64) -> u64
    requires { i < 16 }
    ensures { result ≡ with_source word i l }
{
    with_bits::<4>(word, i, l)
}

// ---- the records of a line's own versions

// The empty entries: `default()`, by the definition's name.
pub fn no_entries() -> Entries
    ensures { result ≡ no_entries }
{
    Entries::default()
}

// A line's entry; 0 past the sixteen, as where it has none.
#[tactic(auto, using(crate::proofs::Words::quarters))]
pub fn entry_at(e: Entries, l: Line) -> u64
    ensures { result ≡ entry_at e l.0 }
{
    let i = l.0 % 4;
    match l.0 / 4 {
        0 => field_of(e.from0, i),
        1 => field_of(e.from4, i),
        2 => field_of(e.from8, i),
        3 => field_of(e.from12, i),
        _ => 0,
    }
}

// The entries with one line's anew; past the sixteen nothing changes.
#[tactic(auto, using(crate::proofs::Words::quarters))]
pub fn with_entry(e: Entries, l: Line, k: u64) -> Entries
    ensures { result ≡ with_entry e l.0 k }
{
    let i = l.0 % 4;
    match l.0 / 4 {
        0 => Entries {
            from0: with_bits::<16>(e.from0, i, k),
            ..e
        },
        1 => Entries {
            from4: with_bits::<16>(e.from4, i, k),
            ..e
        },
        2 => Entries {
            from8: with_bits::<16>(e.from8, i, k),
            ..e
        },
        3 => Entries {
            from12: with_bits::<16>(e.from12, i, k),
            ..e
        },
        _ => e,
    }
}
