// What the store answers to a step of the step program, written as a line of text. What is kept between steps is the store that is open, if one is.
#![tactic(auto)]

ghost use Rattle.std.specs.Prelude.{◌≡◌, Option, take};
ghost use Rattle.print.specs.Print.{reply_line, bytes_line};
ghost use Rattle.print.specs.declared.Reply.TheVariants as Reply;
ghost use Rattle.table.specs.Refused.{numbered};
ghost use Rattle.versions.specs.declared.Store.{Store};
ghost use Rattle.answers.specs.Answers.{written, reply_of, format_said, read_line, worst_said};

use format::Formatted;
use print::Reply;
use table::Refusal;
use versions::Store;

// The line of an answer: the first `len` bytes. The longest is READ's, with 256 bytes: 519. There is no heap, so it is an array with its length;
// that the length is within it is `proofs/Written`: with a ghost field for it `written`, which builds such a line, would have to carry the proof.
#[derive(Clone, Copy)]
pub struct AnswerLine {
    pub bytes: [u8; 520],
    pub len: usize,
}

// The line of a reply.
#[tactic(auto, unfolding(crate::specs::Answers::written, crate::specs::Answers::blank))]
fn line_of(reply: Reply) -> AnswerLine
    ensures { result ≡ written (reply_line reply) }
{
    let mut bytes = [0u8; 520];
    let len = print::write_reply(reply, &mut bytes);
    AnswerLine { bytes, len }
}

// `refused,0`: the line is malformed, or beyond the program's own limits, or no store is open. It is no row of the table.
pub fn refused_line() -> AnswerLine
    ensures { result ≡ written (reply_line (Reply.Refused 0)) }
{
    line_of(Reply::Refused(0))
}

// The line of a call's reply, or of its refusal.
pub fn reply_line(answer: Result<Reply, Refusal>) -> AnswerLine
    ensures { result ≡ written (reply_line (reply_of answer)) }
{
    match answer {
        Ok(reply) => line_of(reply),
        Err(e) => line_of(Reply::Refused(e.number())),
    }
}

// FORMAT's line. It keeps the store that it made, or else what there was.
pub fn format_line(kept: &mut Option<Store>, made: Result<Formatted, Refusal>) -> AnswerLine
    ensures { let x = format_said kept.old (numbered made) in (kept.new ≡ x.kept) × (result ≡ written x.line) }
{
    match made {
        Ok(x) => {
            *kept = Some(x.store);
            line_of(Reply::Ok)
        }
        Err(e) => line_of(Reply::Refused(e.number())),
    }
}

// WORST's count needs no store; 0 is none, as `tree::worst` has it, which answers C too.
pub fn worst_line(n: u64) -> AnswerLine
    ensures { (k : Option Store) → result ≡ written (worst_said k n).line }
{
    if n == 0 {
        return refused_line();
    }
    line_of(Reply::Worst(n))
}

// READ's answer is the first n bytes of the buffer that it filled, or all where there are fewer.
pub fn read_line(n: u64, answer: Result<(), Refusal>, bytes: &[u8]) -> AnswerLine
    ensures { result ≡ written (read_line n bytes.now (numbered answer)) }
{
    match answer {
        Ok(()) => bytes_line(n, bytes),
        Err(e) => line_of(Reply::Refused(e.number())),
    }
}

// The line of the first n bytes, or of all where there are fewer.
#[tactic(auto, using(std::proofs::lemmas::List::take_min), unfolding(crate::specs::Answers::written, crate::specs::Answers::blank))]
fn bytes_line(n: u64, given: &[u8]) -> AnswerLine
    ensures { result ≡ written (bytes_line (take n given.now)) }
{
    let most = n.min(given.len() as u64) as usize;
    let mut bytes = [0u8; 520];
    let len = print::write_bytes(&given[..most], &mut bytes);
    AnswerLine { bytes, len }
}
