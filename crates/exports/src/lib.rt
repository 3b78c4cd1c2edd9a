// The store for C: every call on plain numbers, structs of numbers by value, and areas as pointer and length.
// A reply begins with the number of the refusal, 0 where the call was accepted. No function has a `requires`; C must keep what references say in Rattle:
// no pointer is null, and the areas of one call do not overlap. `exports_c` has each call once more, under its name in C: a crate is a library or a
// static library. Where a call takes `Areas`, the literal stands at it and says which slice is which.
#![tactic(auto)]

ghost use Rattle.std.specs.Prelude.{◌≡◌};
ghost use Rattle.pages.specs.Pages.{part};
ghost use Rattle.versions.specs.Store.{areas_of, line_in};
ghost use Rattle.format.specs.Format.{fresh, format_answer, format_areas};
ghost use Rattle.begin.specs.Begin.{begin_out, begin_register};
ghost use Rattle.put.specs.Put.{put_out, put_pages, put_register};
ghost use Rattle.assign.specs.Assign.{assign_out, assign_register};
ghost use Rattle.weave.specs.Weave.{weave_out, weave_nodes, weave_register};
ghost use Rattle.publish.specs.Publish.{publish_out};
ghost use Rattle.branch.specs.Branch.{branch_out};
ghost use Rattle.set_windows.specs.SetWindows.{set_out};
ghost use Rattle.read.specs.Read.{read_out, read_buffer};
ghost use Rattle.versions.specs.Size.{size_out};
ghost use Rattle.versions.specs.Recent.{recent_out};
ghost use Rattle.stamp.specs.Stamp.{stamp_out};
ghost use Rattle.view.specs.View.{view_part, view_at};
ghost use Rattle.replies.specs.Replies.{format_reply, begin_reply, done_reply, assign_reply, weave_reply, publish_reply, windows_reply, branch_reply, size_reply, version_reply, view_reply};

use lines::Line;
use register::{Areas, Record};
use replies::{
    AssignReply, BeginReply, BranchReply, FormatReply, PublishReply, SizeReply, VersionReply,
    ViewReply, WeaveReply, WindowsReply, assign_reply, begin_reply, branch_reply, done_reply,
    format_reply, publish_reply, size_reply, version_reply, view_reply, weave_reply, windows_reply,
};
use tree::{PageIndex, Ticket, Version};
use versions::{ByteOffset, Store};
use windows::Windows;

// FORMAT.
pub fn pit_format(
    size: u64,
    page_count: u64,
    node_count: u64,
    updates: u64,
    pages: &mut [u8],
    nodes: &mut [u32],
    register: &mut [Record],
) -> FormatReply
    ensures { let a = areas_of pages.old nodes.old register.old in
        let s = fresh size page_count node_count updates in
        (result ≡ format_reply (format_answer s a))
        × (pages.new ≡ (format_areas s a).pages)
        × (nodes.new ≡ (format_areas s a).nodes)
        × (register.new ≡ (format_areas s a).register) }
{
    format_reply(format::format(
        size, page_count, node_count, updates, pages, nodes, register,
    ))
}

// BEGIN.
pub fn pit_begin(
    s: Store,
    pages: &[u8],
    nodes: &[u32],
    register: &mut [Record],
    n: u64,
) -> BeginReply
    ensures { let a = areas_of pages.now nodes.now register.old in
        (result ≡ begin_reply (begin_out s a n)) × (register.new ≡ begin_register s a n) }
{
    let mut store = s;
    let out = begin::begin(&mut store, pages, nodes, register, n);
    begin_reply(store, out)
}

// PUT: the number of the refusal, or 0.
pub fn pit_put(
    s: Store,
    pages: &mut [u8],
    nodes: &[u32],
    register: &mut [Record],
    ticket: u64,
    i: u64,
    bytes: &[u8],
) -> u64
    ensures { let a = areas_of pages.old nodes.now register.old in
        (result ≡ done_reply (put_out s a ticket i bytes.now))
        × (pages.new ≡ put_pages s a ticket i bytes.now)
        × (register.new ≡ put_register s a ticket i bytes.now) }
{
    done_reply(put::put(&s, pages, nodes, register, Ticket(ticket), i, bytes))
}

// ASSIGN as a write at page f.
pub fn pit_write(
    s: Store,
    pages: &[u8],
    nodes: &[u32],
    register: &mut [Record],
    line: u64,
    ticket: u64,
    f: u64,
) -> AssignReply
    ensures { let a = areas_of pages.now nodes.now register.old in
        (result ≡ assign_reply (assign_out s a line ticket f)) × (register.new ≡ assign_register s a line ticket f) }
{
    let mut store = s;
    let out = assign::write(
        &mut store,
        pages,
        nodes,
        register,
        Line(line),
        Ticket(ticket),
        PageIndex(f),
    );
    assign_reply(store, out)
}

// ASSIGN as an append.
pub fn pit_append(
    s: Store,
    pages: &[u8],
    nodes: &[u32],
    register: &mut [Record],
    line: u64,
    ticket: u64,
) -> AssignReply
    ensures { let a = areas_of pages.now nodes.now register.old in
        let f = (line_in s line).blob in
        (result ≡ assign_reply (assign_out s a line ticket f)) × (register.new ≡ assign_register s a line ticket f) }
{
    let mut store = s;
    let out = assign::append(
        &mut store,
        pages,
        nodes,
        register,
        Line(line),
        Ticket(ticket),
    );
    assign_reply(store, out)
}

// WEAVE.
pub fn pit_weave(
    s: Store,
    pages: &[u8],
    nodes: &mut [u32],
    register: &mut [Record],
    ticket: u64,
) -> WeaveReply
    ensures { let a = areas_of pages.now nodes.old register.old in
        (result ≡ weave_reply (weave_out s a ticket)) × (nodes.new ≡ weave_nodes s a ticket) × (register.new ≡ weave_register s a ticket) }
{
    weave_reply(weave::weave(&s, pages, nodes, register, Ticket(ticket)))
}

// PUBLISH.
pub fn pit_publish(
    s: Store,
    w: Windows,
    pages: &[u8],
    nodes: &[u32],
    register: &[Record],
    line: u64,
    minute: u64,
) -> PublishReply
    ensures { let a = areas_of pages.now nodes.now register.now in
        result ≡ publish_reply (publish_out s w a line minute) }
{
    let mut store = s;
    let areas = Areas {
        pages,
        nodes,
        register,
    };
    let out = publish::publish(&mut store, &w, &areas, Line(line), minute);
    publish_reply(store, out)
}

// SETWINDOWS.
pub fn pit_set_windows(
    s: Store,
    w: Windows,
    pages: &[u8],
    nodes: &[u32],
    register: &[Record],
    text: &[u8],
) -> WindowsReply
    ensures { let a = areas_of pages.now nodes.now register.now in
        result ≡ windows_reply (set_out s w a text.now) }
{
    let mut windows = w;
    let areas = Areas {
        pages,
        nodes,
        register,
    };
    let out = set_windows::set_windows(&s, &mut windows, &areas, text);
    windows_reply(windows, out)
}

// BRANCH.
pub fn pit_branch(
    s: Store,
    pages: &[u8],
    nodes: &[u32],
    register: &[Record],
    line: u64,
    version: u64,
) -> BranchReply
    ensures { let a = areas_of pages.now nodes.now register.now in
        result ≡ branch_reply (branch_out s a line version) }
{
    let mut store = s;
    let areas = Areas {
        pages,
        nodes,
        register,
    };
    let out = branch::branch(&mut store, &areas, Line(line), Version(version));
    branch_reply(store, out)
}

// READ: the number of the refusal, or 0.
pub fn pit_read(
    s: Store,
    pages: &[u8],
    nodes: &[u32],
    register: &[Record],
    line: u64,
    version: u64,
    offset: u64,
    len: u64,
    buffer: &mut [u8],
) -> u64
    ensures { let a = areas_of pages.now nodes.now register.now in
        (result ≡ done_reply (read_out s a line version offset len buffer.old))
        × (buffer.new ≡ read_buffer s a line version offset len buffer.old) }
{
    let areas = Areas {
        pages,
        nodes,
        register,
    };
    let from = ByteOffset(offset);
    done_reply(read::read(&s, &areas, Line(line), Version(version), from, len, buffer))
}

// SIZE.
pub fn pit_size(
    s: Store,
    pages: &[u8],
    nodes: &[u32],
    register: &[Record],
    line: u64,
    version: u64,
) -> SizeReply
    ensures { let a = areas_of pages.now nodes.now register.now in
        result ≡ size_reply (size_out s a line version) }
{
    let areas = Areas {
        pages,
        nodes,
        register,
    };
    size_reply(versions::size(&s, &areas, Line(line), Version(version)))
}

// RECENT.
pub fn pit_recent(
    s: Store,
    pages: &[u8],
    nodes: &[u32],
    register: &[Record],
    line: u64,
) -> VersionReply
    ensures { let a = areas_of pages.now nodes.now register.now in
        result ≡ version_reply (recent_out s a line) }
{
    let areas = Areas {
        pages,
        nodes,
        register,
    };
    version_reply(versions::recent(&s, &areas, Line(line)))
}

// STAMP.
pub fn pit_stamp(
    s: Store,
    pages: &[u8],
    nodes: &[u32],
    register: &[Record],
    line: u64,
    version: u64,
    page: u64,
) -> VersionReply
    ensures { let a = areas_of pages.now nodes.now register.now in
        result ≡ version_reply (stamp_out s a line version page) }
{
    let areas = Areas {
        pages,
        nodes,
        register,
    };
    version_reply(stamp::stamp(&s, &areas, Line(line), Version(version), PageIndex(page)))
}

// VIEW: an exported function hands out no part of an area, so this says where the part begins.
pub fn pit_view(
    s: Store,
    pages: &[u8],
    nodes: &[u32],
    register: &[Record],
    line: u64,
    version: u64,
    page: u64,
) -> ViewReply
    ensures { let a = areas_of pages.now nodes.now register.now in
        (result ≡ view_reply s.size (view_at s a line version page)) × (part pages.now result.begin result.length ≡ view_part s a line version page) }
{
    let areas = Areas {
        pages,
        nodes,
        register,
    };
    let out = view::view_at(&s, &areas, Line(line), Version(version), PageIndex(page));
    view_reply(s.size, out)
}
