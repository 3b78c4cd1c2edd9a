// The step program's text, read: lines cut out of a stream of bytes, and the step that a line means. No public function has a `requires`.
#![tactic(auto)]

ghost use Rattle.std.specs.Prelude.{◌≡◌, length, eqb};
ghost use Rattle.text.specs.Text.{line_feed};
ghost use Rattle.text.specs.Buffer.{front};
ghost use Rattle.fields.specs.Fields.{hex_of};
ghost use Rattle.parse.specs.Steps.{one_of, two_of, three_of, put_of, put_or_three, four_of, step_of, bytes_of};
ghost use Rattle.parse.specs.Cut.{fresh, fed_by, kept_by, unended_in, cut_meant, CutMeans};

use fields::{decode, field, field_count, number_in, word_is};

// What a line of text asks for. A step that names a planning line has it first, and Publish the minute of the week last. Put holds how many page bytes the
// text has; they stand in a buffer that is lent, since there is no heap.
#[derive(Clone, Copy)]
pub enum Step {
    Format(u64, u64, u64, u64),
    Begin(u64),
    Put(u64, u64, usize),
    Write(u64, u64, u64),
    Append(u64, u64),
    Weave(u64),
    Publish(u64, u64),
    Branch(u64, u64),
    Read(u64, u64, u64, u64),
    Size(u64, u64),
    Recent(u64),
    Stamp(u64, u64, u64),
    Worst(u64, u64),
}

// The most bytes of a line, its line feed not counted.
const MOST: usize = 600;

// The byte that ends a line; `print` has its own, since `text` below both has definitions alone.
const LINE_FEED: u8 = 10;

// Here and below the words are tested one after another by `word_is`: of a `match` on the bytes the proof did not close, since in its last arm nothing is
// known of the byte that differs. A function for each count of numbers, as `specs/Steps` has a definition for each.

// The step of a word and a number.
#[tactic(auto, unfolding(crate::specs::Steps::one_of))]
fn one(w: &[u8], a: Option<u64>) -> Option<Step>
    ensures { result ≡ one_of w.now a }
{
    let a = a?;
    if word_is(w, b"BEGIN") {
        return Some(Step::Begin(a));
    }
    if word_is(w, b"WEAVE") {
        return Some(Step::Weave(a));
    }
    if word_is(w, b"RECENT") {
        return Some(Step::Recent(a));
    }
    None
}

// The step of a word and two numbers.
#[tactic(auto, unfolding(crate::specs::Steps::two_of))]
fn two(w: &[u8], a: Option<u64>, b: Option<u64>) -> Option<Step>
    ensures { result ≡ two_of w.now a b }
{
    let a = a?;
    let b = b?;
    if word_is(w, b"APPEND") {
        return Some(Step::Append(a, b));
    }
    if word_is(w, b"PUBLISH") {
        return Some(Step::Publish(a, b));
    }
    if word_is(w, b"BRANCH") {
        return Some(Step::Branch(a, b));
    }
    if word_is(w, b"SIZE") {
        return Some(Step::Size(a, b));
    }
    if word_is(w, b"WORST") {
        return Some(Step::Worst(a, b));
    }
    None
}

// The step of a word and three numbers.
#[tactic(auto, unfolding(crate::specs::Steps::three_of))]
fn three(w: &[u8], a: Option<u64>, b: Option<u64>, c: Option<u64>) -> Option<Step>
    ensures { result ≡ three_of w.now a b c }
{
    let a = a?;
    let b = b?;
    let c = c?;
    if word_is(w, b"WRITE") {
        return Some(Step::Write(a, b, c));
    }
    if word_is(w, b"STAMP") {
        return Some(Step::Stamp(a, b, c));
    }
    None
}

// The step of PUT's two numbers and its page bytes, which go to the front of the buffer where they fit.
#[tactic(auto, using(crate::proofs::Steps::puts), unfolding(crate::specs::Steps::put_of))]
fn put(a: Option<u64>, b: Option<u64>, h: &[u8], bytes: &mut [u8]) -> Option<Step>
    ensures { (result ≡ (put_of a b (hex_of h.now)).step) × (bytes.new ≡ front (put_of a b (hex_of h.now)).bytes bytes.old) }
{
    let a = a?;
    let b = b?;
    if !decode(h, bytes) {
        return None;
    }
    Some(Step::Put(a, b, h.len() / 2))
}

// The step of a word and three fields; PUT's page bytes go to the front of the buffer where they fit.
#[tactic(auto, using(crate::proofs::Steps::puts), unfolding(crate::specs::Steps::put_or_three))]
fn put_or_three(w: &[u8], a: &[u8], b: &[u8], c: &[u8], bytes: &mut [u8]) -> Option<Step>
    ensures { (result ≡ (put_or_three w.now a.now b.now c.now).step) × (bytes.new ≡ front (put_or_three w.now a.now b.now c.now).bytes bytes.old) }
{
    if word_is(w, b"PUT") {
        return put(number_in(a), number_in(b), c, bytes);
    }
    three(w, number_in(a), number_in(b), number_in(c))
}

// The step of a word and four numbers.
#[tactic(auto, unfolding(crate::specs::Steps::four_of))]
fn four(w: &[u8], a: Option<u64>, b: Option<u64>, c: Option<u64>, d: Option<u64>) -> Option<Step>
    ensures { result ≡ four_of w.now a b c d }
{
    let a = a?;
    let b = b?;
    let c = c?;
    let d = d?;
    if word_is(w, b"FORMAT") {
        return Some(Step::Format(a, b, c, d));
    }
    if word_is(w, b"READ") {
        return Some(Step::Read(a, b, c, d));
    }
    None
}

// The step of a line, without its line feed; none where the line is malformed. The page bytes of a PUT line go to the front of the buffer; where they do not
// fit, and for any other line, the buffer is as it was. No `FromStr`: a line is bytes, and a step's page bytes go to a buffer that is lent. By how
// many fields there are a `match` decides: each arm is one call with its own parameters, where a table of functions would need one type for all.
#[tactic(auto, using(crate::proofs::Steps::means))]
pub fn step_of(line: &[u8], bytes: &mut [u8]) -> Option<Step>
    ensures { (result ≡ step_of line.now) × (bytes.new ≡ front (bytes_of line.now) bytes.old) }
{
    if line.len() > MOST {
        return None;
    }
    let w = field(line, 0);
    let a = field(line, 1);
    let b = field(line, 2);
    let c = field(line, 3);
    let d = field(line, 4);
    match field_count(line) {
        2 => one(w, number_in(a)),
        3 => two(w, number_in(a), number_in(b)),
        4 => put_or_three(w, a, b, c, bytes),
        5 => four(w, number_in(a), number_in(b), number_in(c), number_in(d)),
        _ => None,
    }
}

// Where the cutting of lines stands: how many bytes of the line are kept in the buffer; none where the line has more than the buffer holds. The buffer is lent:
// fixed memory.
#[derive(Clone, Copy)]
pub struct Cutter {
    pub kept: Option<usize>,
}

impl Cutter {
    // The cutter at the start of a line.
    pub fn fresh() -> Cutter
        ensures { result ≡ fresh }
    {
        Cutter { kept: Some(0) }
    }

    // Takes one byte of the text, and says whether it ended the line. The byte goes into the buffer, unless it is a line feed or the buffer is full. A line
    // that ended is the one that the cutter holds; the next begins with a fresh cutter.
    #[tactic(auto, unfolding(crate::specs::Cut::fed_by, crate::specs::Cut::kept_by))]
    pub fn feed(&mut self, line: &mut [u8], b: u8) -> bool
        ensures { (result ≡ eqb b line_feed) × (self.new ≡ fed_by self.old (length line.old) b) × (line.new ≡ kept_by self.old b line.old) }
    {
        if b == LINE_FEED {
            return true;
        }
        let Some(at) = self.kept else {
            return false;
        };
        if at < line.len() {
            line[at] = b;
            self.kept = Some(at + 1);
        } else {
            self.kept = None;
        }
        false
    }

    // Whether, at the end of the text, a last line without a line feed stands in the buffer.
    #[tactic(auto, unfolding(crate::specs::Cut::unended_in))]
    pub fn unended(self) -> bool
        ensures { result ≡ unended_in self }
    {
        self.kept != Some(0)
    }

    // The step of the line that the cutter holds in the buffer; its page bytes go where those of `step_of` go.
    #[tactic(auto, using(crate::proofs::Steps::puts), unfolding(crate::specs::Cut::cut_meant))]
    pub fn step(self, line: &[u8], bytes: &mut [u8]) -> Option<Step>
        ensures { (result ≡ (cut_meant self line.now).step) × (bytes.new ≡ front (cut_meant self line.now).bytes bytes.old) }
    {
        let n = self.kept?;
        step_of(&line[..n.min(line.len())], bytes)
    }
}

// The theorem of the cutting, as a promise: a function is what the prover's verdict counts, so that a theorem that is gone is seen.
pub fn cut_means()
    ensures { CutMeans }
{}
