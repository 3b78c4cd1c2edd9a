// The page area: a lent run of bytes in which page `number` of `size` bytes begins at size * number.
// No public function has a `requires`: what runs past the area or a buffer is neither stored nor handed out, and what was to be written is left as it was.
// So a bool says whether bytes were stored, and a part that is not there is the empty one: `fits` and `part` have it so, and a part for C has no none.
// Pages and page size stay two parameters: C lends the bytes, and the store has the size.
#![tactic(auto)]

ghost use Rattle.std.specs.Prelude.{◌≡◌, ◌-◌, ◌*◌, ◌^◌, ◌≤◌, min, length};
ghost use Rattle.text.specs.Text.{same};
ghost use Rattle.pages.specs.Pages.{over, fits, put, part};

// The copier: copies src over the front of dst.
fn copy_in(dst: &mut [u8], src: &[u8])
    requires { length src.now ≤ length dst.old }
    ensures { dst.new ≡ over dst.old src.now }
{
    dst[..src.len()].copy_from_slice(src);
}

// Where page `number` begins. A product that would wrap answers the largest number, which lies past any area.
fn begins(size: u64, number: u64) -> usize
    ensures { result ≡ min (size * number) (2 ^ 64 - 1) }
{
    size.saturating_mul(number) as usize
}

// Stores bytes from index at on: the part from there on is handed to the copier. Answers whether they lie within the area. The lengths are compared,
// here and below: at + n could wrap.
fn put_at(area: &mut [u8], at: usize, bytes: &[u8]) -> bool
    ensures { (result ≡ fits (length area.old) at (length bytes.now)) × (area.new ≡ put area.old at bytes.now) }
{
    if at > area.len() || bytes.len() > area.len() - at {
        return false;
    }
    copy_in(&mut area[at..], bytes);
    true
}

// The n bytes from index at on, as a part of the area; the empty part where they run past its end.
fn part_at(area: &[u8], at: usize, n: usize) -> &[u8]
    ensures { result.now ≡ part area.now at n }
{
    if at > area.len() || n > area.len() - at {
        return &area[..0];
    }
    &area[at..at + n]
}

// Stores bytes as page `number`, and answers whether they lie within the area.
pub fn put_page(pages: &mut [u8], size: u64, number: u64, bytes: &[u8]) -> bool
    ensures { (result ≡ fits (length pages.old) (size * number) (length bytes.now))
        × (pages.new ≡ put pages.old (size * number) bytes.now) }
{
    put_at(pages, begins(size, number), bytes)
}

// Page `number`, as a part of the area; the empty part where it runs past the area.
pub fn view_page(pages: &[u8], size: u64, number: u64) -> &[u8]
    ensures { result.now ≡ part pages.now (size * number) size }
{
    part_at(pages, begins(size, number), size as usize)
}

// Copies the n bytes of page `number` from its index `from` on to buf, from index `to` on, and answers whether they lie within buf.
// Where they run past the page, or the page past the area, none are copied: the answer then only says whether `to` is within buf or at its end.
pub fn copy_page(
    pages: &[u8],
    size: u64,
    number: u64,
    from: u64,
    n: u64,
    buf: &mut [u8],
    to: u64,
) -> bool
    ensures { let bytes = part (part pages.now (size * number) size) from n in
        (result ≡ fits (length buf.old) to (length bytes)) × (buf.new ≡ put buf.old to bytes) }
{
    let page = view_page(pages, size, number);
    put_at(buf, to as usize, part_at(page, from as usize, n as usize))
}

// Whether pages m and n have the same bytes. One that runs past the area has none. The `==` has a function of its own, whose promise says `same`.
#[tactic(auto, using(crate::proofs::Equal::equal_same))]
pub fn same_page(pages: &[u8], size: u64, m: u64, n: u64) -> bool
    ensures { let area = pages.now in
        result ≡ same (part area (size * m) size) (part area (size * n) size) }
{
    view_page(pages, size, m) == view_page(pages, size, n)
}
