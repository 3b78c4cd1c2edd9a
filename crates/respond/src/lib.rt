// One step of the step program, lent its store's areas. `wanted` has said what it asks for; `changes` and `looks` make the call.
#![tactic(auto)]

ghost use Rattle.std.specs.Prelude.{◌≡◌};
ghost use Rattle.versions.specs.Store.{areas_of, lent};
ghost use Rattle.answers.specs.Answers.{written};
ghost use Rattle.wanted.specs.Steps.{step_said, step_areas};

use answers::{AnswerLine, format_line, refused_line, reply_line, worst_line};
use changes::change_step;
use looks::{look_step, read_step};
use register::{Areas, Record};
use versions::Store;
use wanted::Wanted;

// Answers a step, on the store that is open, if one is: with none open every step but FORMAT and WORST is refused. PUT's page bytes stand at the
// front of the buffer. The areas come as three slices, and go on as three or as `Areas`, by what the step changes. A `match`: each arm is one call
// with its own parameters, where a table of functions would need one type for all.
#[tactic(auto, using(crate::proofs::Kept::worst_keeps), unfolding(wanted::specs::Steps::step_said, wanted::specs::Steps::step_areas))]
pub fn respond(
    kept: &mut Option<Store>,
    wanted: Option<Wanted>,
    pages: &mut [u8],
    nodes: &mut [u32],
    register: &mut [Record],
    bytes: &[u8],
) -> AnswerLine
    ensures { let a = areas_of pages.old nodes.old register.old in
        let b = bytes.now in
        (kept.new ≡ (step_said kept.old wanted a b).kept)
        × (result ≡ written (step_said kept.old wanted a b).line)
        × (pages.new ≡ (step_areas kept.old wanted a b).pages)
        × (nodes.new ≡ (step_areas kept.old wanted a b).nodes)
        × (register.new ≡ (step_areas kept.old wanted a b).register) }
{
    match wanted {
        None => refused_line(),
        Some(Wanted::Format(size, page_count, node_count, updates)) => {
            let made = format::format(
                size, page_count, node_count, updates, pages, nodes, register,
            );
            format_line(kept, made)
        }
        Some(Wanted::Worst(r, n)) => worst_line(tree::worst(r, n)),
        Some(Wanted::Read(l, v, offset, n)) => match kept {
            Some(s) => read_step(s, l, v, offset, n, &shared(pages, nodes, register)),
            None => refused_line(),
        },
        Some(Wanted::Change(step)) => match kept {
            Some(s) => reply_line(change_step(s, step, pages, nodes, register, bytes)),
            None => refused_line(),
        },
        Some(Wanted::Look(step)) => match kept {
            Some(s) => reply_line(look_step(s, step, &shared(pages, nodes, register))),
            None => refused_line(),
        },
    }
}

// The areas, lent to a step that changes none.
fn shared<'a>(pages: &'a [u8], nodes: &'a [u32], register: &'a [Record]) -> Areas<'a>
    ensures { lent result ≡ areas_of pages.now nodes.now register.now }
{
    Areas {
        pages,
        nodes,
        register,
    }
}
