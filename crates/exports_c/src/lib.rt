// Every call for C: a static library over `exports`, since a crate is a library or a static library and not both.
// A reply begins with the number of the refusal, 0 where the call was accepted. No function has a `requires`; C must keep what references say in Rattle:
// no pointer is null, and the areas of one call do not overlap.
#![tactic(auto)]

ghost use Rattle.std.specs.Prelude.{◌≡◌};
ghost use Rattle.pages.specs.Pages.{part};
ghost use Rattle.versions.specs.Store.{areas_of, line_in};
ghost use Rattle.format.specs.Format.{fresh, format_answer, format_areas};
ghost use Rattle.begin.specs.Begin.{begin_out, begin_register};
ghost use Rattle.put.specs.Put.{put_out, put_pages, put_register};
ghost use Rattle.assign.specs.Assign.{assign_out, assign_register};
ghost use Rattle.weave.specs.Weave.{weave_out, weave_nodes, weave_register};
ghost use Rattle.publish.specs.Publish.{publish_out};
ghost use Rattle.branch.specs.Branch.{branch_out};
ghost use Rattle.set_windows.specs.SetWindows.{set_out};
ghost use Rattle.read.specs.Read.{read_out, read_buffer};
ghost use Rattle.versions.specs.Size.{size_out};
ghost use Rattle.versions.specs.Recent.{recent_out};
ghost use Rattle.stamp.specs.Stamp.{stamp_out};
ghost use Rattle.view.specs.View.{view_part, view_at};
ghost use Rattle.replies.specs.Replies.{format_reply, begin_reply, done_reply, assign_reply, weave_reply, publish_reply, windows_reply, branch_reply, size_reply, version_reply, view_reply};

use register::Record;
use replies::{
    AssignReply, BeginReply, BranchReply, FormatReply, PublishReply, SizeReply, VersionReply,
    ViewReply, WeaveReply, WindowsReply,
};
use versions::Store;
use windows::Windows;

// FORMAT.
#[unsafe(no_mangle)]
pub extern "C" fn pit_format(
    size: u64,
    page_count: u64,
    node_count: u64,
    updates: u64,
    pages: &mut [u8],
    nodes: &mut [u32],
    register: &mut [Record],
) -> FormatReply
    ensures { let a = areas_of pages.old nodes.old register.old in
        let s = fresh size page_count node_count updates in
        (result ≡ format_reply (format_answer s a))
        × (pages.new ≡ (format_areas s a).pages)
        × (nodes.new ≡ (format_areas s a).nodes)
        × (register.new ≡ (format_areas s a).register) }
{
    exports::pit_format(
        size, page_count, node_count, updates, pages, nodes, register,
    )
}

// BEGIN.
#[unsafe(no_mangle)]
pub extern "C" fn pit_begin(
    s: Store,
    pages: &[u8],
    nodes: &[u32],
    register: &mut [Record],
    n: u64,
) -> BeginReply
    ensures { let a = areas_of pages.now nodes.now register.old in
        (result ≡ begin_reply (begin_out s a n)) × (register.new ≡ begin_register s a n) }
{
    exports::pit_begin(s, pages, nodes, register, n)
}

// PUT: the number of the refusal, or 0.
#[unsafe(no_mangle)]
pub extern "C" fn pit_put(
    s: Store,
    pages: &mut [u8],
    nodes: &[u32],
    register: &mut [Record],
    ticket: u64,
    i: u64,
    bytes: &[u8],
) -> u64
    ensures { let a = areas_of pages.old nodes.now register.old in
        (result ≡ done_reply (put_out s a ticket i bytes.now))
        × (pages.new ≡ put_pages s a ticket i bytes.now)
        × (register.new ≡ put_register s a ticket i bytes.now) }
{
    exports::pit_put(s, pages, nodes, register, ticket, i, bytes)
}

// ASSIGN as a write at page f.
#[unsafe(no_mangle)]
pub extern "C" fn pit_write(
    s: Store,
    pages: &[u8],
    nodes: &[u32],
    register: &mut [Record],
    line: u64,
    ticket: u64,
    f: u64,
) -> AssignReply
    ensures { let a = areas_of pages.now nodes.now register.old in
        (result ≡ assign_reply (assign_out s a line ticket f)) × (register.new ≡ assign_register s a line ticket f) }
{
    exports::pit_write(s, pages, nodes, register, line, ticket, f)
}

// ASSIGN as an append.
#[unsafe(no_mangle)]
pub extern "C" fn pit_append(
    s: Store,
    pages: &[u8],
    nodes: &[u32],
    register: &mut [Record],
    line: u64,
    ticket: u64,
) -> AssignReply
    ensures { let a = areas_of pages.now nodes.now register.old in
        let f = (line_in s line).blob in
        (result ≡ assign_reply (assign_out s a line ticket f)) × (register.new ≡ assign_register s a line ticket f) }
{
    exports::pit_append(s, pages, nodes, register, line, ticket)
}

// WEAVE.
#[unsafe(no_mangle)]
pub extern "C" fn pit_weave(
    s: Store,
    pages: &[u8],
    nodes: &mut [u32],
    register: &mut [Record],
    ticket: u64,
) -> WeaveReply
    ensures { let a = areas_of pages.now nodes.old register.old in
        (result ≡ weave_reply (weave_out s a ticket)) × (nodes.new ≡ weave_nodes s a ticket) × (register.new ≡ weave_register s a ticket) }
{
    exports::pit_weave(s, pages, nodes, register, ticket)
}

// PUBLISH.
#[unsafe(no_mangle)]
pub extern "C" fn pit_publish(
    s: Store,
    w: Windows,
    pages: &[u8],
    nodes: &[u32],
    register: &[Record],
    line: u64,
    minute: u64,
) -> PublishReply
    ensures { let a = areas_of pages.now nodes.now register.now in
        result ≡ publish_reply (publish_out s w a line minute) }
{
    exports::pit_publish(s, w, pages, nodes, register, line, minute)
}

// SETWINDOWS.
#[unsafe(no_mangle)]
pub extern "C" fn pit_set_windows(
    s: Store,
    w: Windows,
    pages: &[u8],
    nodes: &[u32],
    register: &[Record],
    text: &[u8],
) -> WindowsReply
    ensures { let a = areas_of pages.now nodes.now register.now in
        result ≡ windows_reply (set_out s w a text.now) }
{
    exports::pit_set_windows(s, w, pages, nodes, register, text)
}

// BRANCH.
#[unsafe(no_mangle)]
pub extern "C" fn pit_branch(
    s: Store,
    pages: &[u8],
    nodes: &[u32],
    register: &[Record],
    line: u64,
    version: u64,
) -> BranchReply
    ensures { let a = areas_of pages.now nodes.now register.now in
        result ≡ branch_reply (branch_out s a line version) }
{
    exports::pit_branch(s, pages, nodes, register, line, version)
}

// READ: the number of the refusal, or 0.
#[unsafe(no_mangle)]
pub extern "C" fn pit_read(
    s: Store,
    pages: &[u8],
    nodes: &[u32],
    register: &[Record],
    line: u64,
    version: u64,
    offset: u64,
    len: u64,
    buffer: &mut [u8],
) -> u64
    ensures { let a = areas_of pages.now nodes.now register.now in
        (result ≡ done_reply (read_out s a line version offset len buffer.old))
        × (buffer.new ≡ read_buffer s a line version offset len buffer.old) }
{
    exports::pit_read(
        s, pages, nodes, register, line, version, offset, len, buffer,
    )
}

// SIZE.
#[unsafe(no_mangle)]
pub extern "C" fn pit_size(
    s: Store,
    pages: &[u8],
    nodes: &[u32],
    register: &[Record],
    line: u64,
    version: u64,
) -> SizeReply
    ensures { let a = areas_of pages.now nodes.now register.now in
        result ≡ size_reply (size_out s a line version) }
{
    exports::pit_size(s, pages, nodes, register, line, version)
}

// RECENT.
#[unsafe(no_mangle)]
pub extern "C" fn pit_recent(
    s: Store,
    pages: &[u8],
    nodes: &[u32],
    register: &[Record],
    line: u64,
) -> VersionReply
    ensures { let a = areas_of pages.now nodes.now register.now in
        result ≡ version_reply (recent_out s a line) }
{
    exports::pit_recent(s, pages, nodes, register, line)
}

// STAMP.
#[unsafe(no_mangle)]
pub extern "C" fn pit_stamp(
    s: Store,
    pages: &[u8],
    nodes: &[u32],
    register: &[Record],
    line: u64,
    version: u64,
    page: u64,
) -> VersionReply
    ensures { let a = areas_of pages.now nodes.now register.now in
        result ≡ version_reply (stamp_out s a line version page) }
{
    exports::pit_stamp(s, pages, nodes, register, line, version, page)
}

// VIEW: an exported function hands out no part of an area, so this says where the part begins.
#[unsafe(no_mangle)]
pub extern "C" fn pit_view(
    s: Store,
    pages: &[u8],
    nodes: &[u32],
    register: &[Record],
    line: u64,
    version: u64,
    page: u64,
) -> ViewReply
    ensures { let a = areas_of pages.now nodes.now register.now in
        (result ≡ view_reply s.size (view_at s a line version page)) × (part pages.now result.begin result.length ≡ view_part s a line version page) }
{
    exports::pit_view(s, pages, nodes, register, line, version, page)
}
