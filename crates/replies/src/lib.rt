// What each call replies to C: structs of plain numbers, from the call's own answer, each by its definition in specs/Replies.
// C has a struct a call, with fields of its own, so that each reply is made by a function of its own.
// A reply begins with the number of the refusal, 0 where the call was accepted. No `From`: most replies are of a store and an answer, and a name says
// which call's it is.
#![tactic(auto)]

ghost use Rattle.std.specs.Prelude.{◌≡◌};
ghost use Rattle.table.specs.Refused.{numbered};
ghost use Rattle.replies.specs.Replies.{no_store, format_reply, begin_reply, done_reply, assign_reply, weave_reply, publish_reply, windows_reply, branch_reply, size_reply, version_reply, view_reply};

use assign::Assigned;
use format::{Formatted, fresh_store};
use lines::Line;
use publish::Published;
use table::Refusal;
use tree::{Ticket, Version};
use versions::Store;
use weave::WovenNode;
use windows::{Windows, no_windows};

// What FORMAT replies: the store, which is all zeros where FORMAT is refused, and its windows, of which there are none.
#[repr(C)]
#[derive(Clone, Copy)]
pub struct FormatReply {
    pub refusal: u64,
    pub store: Store,
    pub windows: Windows,
}

// What BEGIN replies. The ticket is 0 where BEGIN is refused.
#[repr(C)]
#[derive(Clone, Copy)]
pub struct BeginReply {
    pub refusal: u64,
    pub store: Store,
    pub ticket: u64,
}

// What ASSIGN replies: the version and its node count, both 0 where it is refused.
#[repr(C)]
#[derive(Clone, Copy)]
pub struct AssignReply {
    pub refusal: u64,
    pub store: Store,
    pub version: u64,
    pub nodes: u64,
}

// What WEAVE replies: the node's name, its version as line x 65,536 + version; its two numbers and how many nodes are left; all 0 where it is refused.
#[repr(C)]
#[derive(Clone, Copy)]
pub struct WeaveReply {
    pub refusal: u64,
    pub version: u64,
    pub first: u64,
    pub span: u64,
    pub left: u64,
    pub right: u64,
    pub rest: u64,
}

// What PUBLISH replies: the version that it published, and 1 where it is held; both 0 is "waiting", or a refusal.
#[repr(C)]
#[derive(Clone, Copy)]
pub struct PublishReply {
    pub refusal: u64,
    pub store: Store,
    pub version: u64,
    pub held: u64,
}

// What SETWINDOWS replies: the windows as it leaves them.
#[repr(C)]
#[derive(Clone, Copy)]
pub struct WindowsReply {
    pub refusal: u64,
    pub windows: Windows,
}

// What BRANCH replies: the new line; 0 where it is refused.
#[repr(C)]
#[derive(Clone, Copy)]
pub struct BranchReply {
    pub refusal: u64,
    pub store: Store,
    pub line: u64,
}

// What SIZE replies, in bytes.
#[repr(C)]
#[derive(Clone, Copy)]
pub struct SizeReply {
    pub refusal: u64,
    pub bytes: u64,
}

// What RECENT and STAMP reply.
#[repr(C)]
#[derive(Clone, Copy)]
pub struct VersionReply {
    pub refusal: u64,
    pub version: u64,
}

// What VIEW replies: where in the page area the part begins, and how long it is; both 0 where VIEW is refused.
#[repr(C)]
#[derive(Clone, Copy)]
pub struct ViewReply {
    pub refusal: u64,
    pub begin: u64,
    pub length: u64,
}

// A store of all zeros: not even line 0 has begun. By the definition's name: `Store` has no `Default`, since FORMAT makes none of zeros.
fn no_store() -> Store
    ensures { result ≡ no_store }
{
    let mut store = fresh_store(0, 0, 0, 0);
    store.begun = 0;
    store
}

pub fn format_reply(out: Result<Formatted, Refusal>) -> FormatReply
    ensures { result ≡ format_reply (numbered out) }
{
    match out {
        Ok(made) => FormatReply {
            refusal: 0,
            store: made.store,
            windows: made.windows,
        },
        Err(e) => FormatReply {
            refusal: e.number(),
            store: no_store(),
            windows: no_windows(),
        },
    }
}

pub fn begin_reply(store: Store, out: Result<Ticket, Refusal>) -> BeginReply
    ensures { result ≡ begin_reply (record { store = store; answer = numbered out }) }
{
    match out {
        Ok(t) => BeginReply {
            refusal: 0,
            store,
            ticket: t.0,
        },
        Err(e) => BeginReply {
            refusal: e.number(),
            store,
            ticket: 0,
        },
    }
}

// The number alone: what PUT and READ reply.
pub fn done_reply(out: Result<(), Refusal>) -> u64
    ensures { result ≡ done_reply (numbered out) }
{
    match out {
        Ok(()) => 0,
        Err(e) => e.number(),
    }
}

pub fn assign_reply(store: Store, out: Result<Assigned, Refusal>) -> AssignReply
    ensures { result ≡ assign_reply (record { store = store; answer = numbered out }) }
{
    match out {
        Ok(x) => AssignReply {
            refusal: 0,
            store,
            version: x.version.0,
            nodes: x.nodes,
        },
        Err(e) => AssignReply {
            refusal: e.number(),
            store,
            version: 0,
            nodes: 0,
        },
    }
}

pub fn weave_reply(out: Result<WovenNode, Refusal>) -> WeaveReply
    ensures { result ≡ weave_reply (numbered out) }
{
    match out {
        Ok(x) => WeaveReply {
            refusal: 0,
            version: x.version,
            first: x.first.0,
            span: x.span,
            left: u64::from(x.left),
            right: u64::from(x.right),
            rest: x.rest,
        },
        Err(e) => WeaveReply {
            refusal: e.number(),
            version: 0,
            first: 0,
            span: 0,
            left: 0,
            right: 0,
            rest: 0,
        },
    }
}

pub fn publish_reply(store: Store, out: Result<Published, Refusal>) -> PublishReply
    ensures { result ≡ publish_reply (record { store = store; answer = numbered out }) }
{
    let mut reply = PublishReply {
        refusal: 0,
        store,
        version: 0,
        held: 0,
    };
    match out {
        Ok(Published::Now(v)) => reply.version = v.0,
        Ok(Published::Waiting) => {}
        Ok(Published::Held) => reply.held = 1,
        Err(e) => reply.refusal = e.number(),
    }
    reply
}

pub fn windows_reply(windows: Windows, out: Result<(), Refusal>) -> WindowsReply
    ensures { result ≡ windows_reply (record { windows = windows; answer = numbered out }) }
{
    WindowsReply {
        refusal: done_reply(out),
        windows,
    }
}

pub fn branch_reply(store: Store, out: Result<Line, Refusal>) -> BranchReply
    ensures { result ≡ branch_reply (record { store = store; answer = numbered out }) }
{
    match out {
        Ok(l) => BranchReply {
            refusal: 0,
            store,
            line: l.0,
        },
        Err(e) => BranchReply {
            refusal: e.number(),
            store,
            line: 0,
        },
    }
}

pub fn size_reply(out: Result<u64, Refusal>) -> SizeReply
    ensures { result ≡ size_reply (numbered out) }
{
    match out {
        Ok(bytes) => SizeReply { refusal: 0, bytes },
        Err(e) => SizeReply {
            refusal: e.number(),
            bytes: 0,
        },
    }
}

// What RECENT and STAMP reply.
pub fn version_reply(out: Result<Version, Refusal>) -> VersionReply
    ensures { result ≡ version_reply (numbered out) }
{
    match out {
        Ok(v) => VersionReply {
            refusal: 0,
            version: v.0,
        },
        Err(e) => VersionReply {
            refusal: e.number(),
            version: 0,
        },
    }
}

pub fn view_reply(size: u64, out: Result<u64, Refusal>) -> ViewReply
    ensures { result ≡ view_reply size (numbered out) }
{
    match out {
        Ok(begin) => ViewReply {
            refusal: 0,
            begin,
            length: size,
        },
        Err(e) => ViewReply {
            refusal: e.number(),
            begin: 0,
            length: 0,
        },
    }
}
