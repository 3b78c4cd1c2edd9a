// The steps of the step program that change an area of the open store, each by its call, on areas of the store's lengths: the crates of the calls decide, and
// `answers` writes the answer.
#![tactic(auto)]

ghost use Rattle.std.specs.Prelude.{◌≡◌, Some, Ok};
ghost use Rattle.versions.specs.Store.{areas_of};
ghost use Rattle.answers.specs.Answers.{plainly, reply_of, woven_reply};
ghost use Rattle.wanted.specs.Steps.{change_said, change_areas};

use lines::Line;
use print::Reply;
use register::Record;
use table::Refusal;
use tree::{PageIndex, Ticket};
use versions::Store;
use wanted::Change;
use weave::WovenNode;

// A step by its call, a `match`: each arm is one call with its own parameters, where a table of functions would need one type for all. PUT's page
// bytes stand at the front of the buffer. The areas are three parameters, since each call is lent some as `&` and some as `&mut`.
#[tactic(auto, unfolding(wanted::specs::Steps::change_said, wanted::specs::Steps::change_areas))]
pub fn change_step(
    s: &mut Store,
    step: Change,
    pages: &mut [u8],
    nodes: &mut [u32],
    register: &mut [Record],
    bytes: &[u8],
) -> Result<Reply, Refusal>
    ensures { let a = areas_of pages.old nodes.old register.old in
        let b = bytes.now in
        (plainly (Some s.new) (reply_of result) ≡ change_said s.old step a b)
        × (pages.new ≡ (change_areas s.old step a b).pages)
        × (nodes.new ≡ (change_areas s.old step a b).nodes)
        × (register.new ≡ (change_areas s.old step a b).register) }
{
    match step {
        Change::Put(t, i, n) => {
            let page = &bytes[..n.min(bytes.len())];
            put::put(s, pages, nodes, register, Ticket(t), i, page)?;
            Ok(Reply::Put)
        }
        Change::Weave(t) => {
            let x = weave::weave(s, pages, nodes, register, Ticket(t))?;
            Ok(node_reply(x))
        }
        Change::Begin(n) => {
            let t = begin::begin(s, pages, nodes, register, n)?;
            Ok(Reply::Ticket(t.0))
        }
        Change::Write(l, t, f) => {
            let x = assign::write(s, pages, nodes, register, Line(l), Ticket(t), PageIndex(f))?;
            Ok(Reply::Version(x.version.0, x.nodes))
        }
        Change::Append(l, t) => {
            let x = assign::append(s, pages, nodes, register, Line(l), Ticket(t))?;
            Ok(Reply::Version(x.version.0, x.nodes))
        }
    }
}

// The reply of a node that was stored.
fn node_reply(x: WovenNode) -> Reply
    ensures { result ≡ woven_reply (Ok x) }
{
    let left = u64::from(x.left);
    let right = u64::from(x.right);
    Reply::Node(x.version, x.first.0, x.span, left, right, x.rest)
}
