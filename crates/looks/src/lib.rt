// The steps of the step program that change no area, each by its call: the crates of the calls decide, and `answers` writes the answer.
#![tactic(auto)]

ghost use Rattle.std.specs.Prelude.{◌≡◌, Some, Ok};
ghost use Rattle.versions.specs.Store.{lent};
ghost use Rattle.read.specs.Read.{read_out, read_buffer};
ghost use Rattle.answers.specs.Answers.{plainly, reply_of, published_reply, written, no_bytes, read_said};
ghost use Rattle.wanted.specs.Steps.{look_said};

use answers::{AnswerLine, read_line};
use lines::Line;
use print::Reply;
use publish::Published;
use register::Areas;
use table::Refusal;
use tree::{PageIndex, Version};
use versions::{ByteOffset, Store};
use wanted::Look;
use windows::no_windows;

// The reply of what PUBLISH comes to. A function of its own: the program has no windows, so that no step comes to `Held`, and its promise says of that too.
fn published_reply(published: Published) -> Reply
    ensures { result ≡ published_reply (Ok published) }
{
    match published {
        Published::Now(v) => Reply::Published(v.0),
        Published::Waiting => Reply::Waiting,
        Published::Held => Reply::Held,
    }
}

// A step that answers no bytes. The program has no line that sets windows: there are none. A `match`: each arm is one call with its own parameters,
// where a table of functions would need one type for all.
#[tactic(auto, unfolding(wanted::specs::Steps::look_said))]
pub fn look_step(s: &mut Store, step: Look, areas: &Areas) -> Result<Reply, Refusal>
    ensures { plainly (Some s.new) (reply_of result) ≡ look_said s.old step (lent areas.now) }
{
    match step {
        Look::Publish(l, minute) => {
            let published = publish::publish(s, &no_windows(), areas, Line(l), minute)?;
            Ok(published_reply(published))
        }
        Look::Branch(l, v) => {
            let line = branch::branch(s, areas, Line(l), Version(v))?;
            Ok(Reply::Line(line.0))
        }
        Look::Size(l, v) => {
            let bytes = versions::size(s, areas, Line(l), Version(v))?;
            Ok(Reply::Size(bytes))
        }
        Look::Recent(l) => {
            let v = versions::recent(s, areas, Line(l))?;
            Ok(Reply::Recent(v.0))
        }
        Look::Stamp(l, v, page) => {
            let v = stamp::stamp(s, areas, Line(l), Version(v), PageIndex(page))?;
            Ok(Reply::Stamp(v.0))
        }
    }
}

// READ: the bytes stand in an array of as many as it gives at most, since there is no heap.
#[tactic(auto, unfolding(answers::specs::Answers::read_said, answers::specs::Answers::no_bytes))]
pub fn read_step(s: &Store, l: u64, v: u64, offset: u64, n: u64, areas: &Areas) -> AnswerLine
    ensures { let a = lent areas.now in
        result ≡ written (read_said s.now n (read_buffer s.now a l v offset n no_bytes) (read_out s.now a l v offset n no_bytes)).line }
{
    let mut bytes = [0u8; 256];
    let answer = read::read(
        s,
        areas,
        Line(l),
        Version(v),
        ByteOffset(offset),
        n,
        &mut bytes,
    );
    read_line(n, answer, &bytes)
}
