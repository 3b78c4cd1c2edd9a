// READ: a range of a version's bytes, copied to the front of a buffer.
#![tactic(auto)]

ghost use Rattle.std.specs.Prelude.{◌≡◌, ◌+◌, ◌*◌, ◌^◌, ◌<◌, ltb, length};
ghost use Rattle.register.specs.Register.{version_part};
ghost use Rattle.table.specs.Refused.{numbered};
ghost use Rattle.versions.specs.Store.{lent};
ghost use Rattle.walk.specs.FindPage.{page_number_of, or_zero};
ghost use Rattle.read.specs.Range.{bytes_there, range_out, found_out, first_out, Ranged, touched, Readable};
ghost use Rattle.read.specs.Read.{some_lost, bytes_from, read_out, read_buffer};

use lines::Line;
use pages::copy_page;
use register::{Areas, version_part};
use table::Refusal;
use tree::{PageIndex, Version};
use versions::{ByteOffset, Store, bytes_by, lengths_in, opened_number, pages_by};
use walk::{find_page, number_within};

// The pages that a range of bytes touches: the first, the range's first byte within it, and how many.
#[derive(Clone, Copy)]
struct Pages {
    first: PageIndex,
    from: u64,
    count: u64,
}

// Whether len bytes from an offset on run past a total. A sum of the two could wrap, and no sum is made.
fn runs_past(total: u64, offset: ByteOffset, len: u64) -> bool
    ensures { result ≡ ltb total (offset.0 + len) }
{
    total < offset.0 || total - offset.0 < len
}

// The bytes of version v, numbered c; none where its record is not there. Both come from the call, which finds the number once.
#[tactic(auto, unfolding(crate::specs::Range::bytes_there))]
fn bytes_there(s: &Store, areas: &Areas, c: u64, v: Version) -> Option<u64>
    ensures { result ≡ bytes_there s.now.size (version_part (lent areas.now).register c) c v.0 }
{
    let q = version_part(areas.register, c);
    if q.name != c {
        return None;
    }
    Some(bytes_by(s.size, pages_by(v, q)))
}

// The refusal of READ past the rows up to 16, but for the walks to its pages, by the version's bytes.
#[tactic(auto, unfolding(crate::specs::Range::range_out, table::specs::Table::first_refusal, table::specs::Table::holds))]
fn range_refusal(
    total: Option<u64>,
    offset: ByteOffset,
    len: u64,
    room: usize,
) -> Result<(), Refusal>
    ensures { numbered result ≡ range_out total offset.0 len room }
{
    match total {
        Some(total) if runs_past(total, offset, len) => Err(Refusal::OutsideSnapshot),
        _ if (room as u64) < len => Err(Refusal::BufferTooShort),
        Some(_) => Ok(()),
        None => Err(Refusal::Damaged),
    }
}

// The pages that a range touches.
fn touched(size: u64, offset: ByteOffset, len: u64) -> Pages
    requires { Ranged size offset.0 len }
    ensures { result ≡ touched size offset.0 len }
{
    let first = offset.0 / size;
    let last = (offset.0 + (len - 1)) / size;
    Pages {
        first: PageIndex(first),
        from: offset.0 % size,
        count: last - first + 1,
    }
}

// The number of a page of the version numbered c; refused where the walk to it is lost.
#[tactic(auto, unfolding(walk::specs::FindPage::page_number_of))]
fn page_number(s: &Store, areas: &Areas, c: u64, page: PageIndex) -> Result<u64, Refusal>
    ensures { numbered result ≡ found_out (page_number_of s.now.pages (lent areas.now) c page.0) }
{
    number_within(s.pages, find_page(areas, c, page)).ok_or(Refusal::Damaged)
}

// The number of the first of n pages of the version numbered c, once all of them are found.
#[tactic(auto, using(crate::proofs::Lost::walks))]
fn first_number(s: &Store, areas: &Areas, c: u64, first: PageIndex, n: u64) -> Result<u64, Refusal>
    requires { (0 < n) × (first.0 + n < 2 ^ 64) }
    ensures { numbered result ≡ first_out s.now.pages (lent areas.now) c first.0 n }
{
    let number = page_number(s, areas, c, first)?;
    for i in 1..n {
        page_number(s, areas, c, PageIndex(first.0 + i))?;
    }
    Ok(number)
}

// Fills the buffer with bytes of the version numbered c, page by page. The first page's number is given, so that for a range within one page one walk is made.
// What `copy_page` says of the room is known: all bytes fit. So is what `unwrap` asks: `first_number` has found every page.
fn copy_pages(s: &Store, areas: &Areas, c: u64, t: Pages, number: u64, buffer: &mut [u8])
    requires { Readable s.now (lent areas.now) c t number (length buffer.old) }
    ensures { buffer.new ≡ bytes_from s.now.size s.now.pages (lent areas.now) c (t.first.0 * s.now.size + t.from) (length buffer.old) }
{
    let len = buffer.len() as u64;
    copy_page(
        areas.pages,
        s.size,
        number,
        t.from,
        len.min(s.size - t.from),
        buffer,
        0,
    );
    for i in 1..t.count {
        let done = s.size * i - t.from;
        let next = page_number(s, areas, c, PageIndex(t.first.0 + i)).unwrap();
        copy_page(
            areas.pages,
            s.size,
            next,
            0,
            s.size.min(len - done),
            buffer,
            done,
        );
    }
}

// READ line, v, offset, len: fills the front of the buffer with a range of the version's bytes. It finds every page of the range before it copies any.
// Store, areas and buffer are lent, and the four others are READ's own, as C hands them in.
#[tactic(auto, using(crate::proofs::Ranges::closed))]
pub fn read(
    s: &Store,
    areas: &Areas,
    l: Line,
    v: Version,
    offset: ByteOffset,
    len: u64,
    buffer: &mut [u8],
) -> Result<(), Refusal>
    ensures { let a = lent areas.now in
        (numbered result ≡ read_out s.now a l.0 v.0 offset.0 len buffer.old)
        × (buffer.new ≡ read_buffer s.now a l.0 v.0 offset.0 len buffer.old) }
{
    let c = opened_number(s, lengths_in(areas), l, v)?;
    range_refusal(bytes_there(s, areas, c, v), offset, len, buffer.len())?;
    if len == 0 {
        return Ok(());
    }
    let t = touched(s.size, offset, len);
    let number = first_number(s, areas, c, t.first, t.count)?;
    copy_pages(s, areas, c, t, number, &mut buffer[..len as usize]);
    Ok(())
}
