// The step program's text, written: the line of an answer. No public function has a `requires`.
#![tactic(auto)]

ghost use Rattle.std.specs.Prelude.{◌≡◌, ◌+◌, ◌≤◌, ◌<◌, length};
ghost use Rattle.print.specs.Print.{decimal, line_of, reply_line, bytes_line, hex_digit};
ghost use Rattle.text.specs.Buffer.{put_at, front, wrote};

// An answer but that of READ. `Refused` holds the number that is printed, 0 too, which no row of the table has, so that it is no `table::Refusal`.
// No `Display`: a formatter writes piece by piece, and a line is written whole or not at all, to a buffer that is lent.
#[derive(Clone, Copy)]
pub enum Reply {
    Ok,
    Ticket(u64),
    Put,
    Version(u64, u64),
    Node(u64, u64, u64, u64, u64, u64),
    Published(u64),
    Waiting,
    Held,
    Line(u64),
    Size(u64),
    Recent(u64),
    Stamp(u64),
    Worst(u64),
    Refused(u64),
}

// The byte that ends a line.
const LINE_FEED: u8 = b'\n';

// How many decimal digits a number has.
#[tactic(auto, using(crate::proofs::Decimal::length_by_power))]
fn number_length(n: u64) -> usize
    ensures { result ≡ length (decimal n) }
{
    n.max(1).ilog10() as usize + 1
}

// A digit's byte.
fn digit(n: u64) -> u8
    requires { n < 10 }
    ensures { result ≡ 48 + n }
{
    b'0' + n as u8
}

// Writes a number from index at on, its last digit first, and answers the index after it: the line is put together in the buffer that is lent.
fn put_number(out: &mut [u8], at: usize, n: u64) -> usize
    requires { at + length (decimal n) ≤ length out.old }
    ensures { (result ≡ at + length (decimal n)) × (out.new ≡ put_at at (decimal n) out.old) }
{
    let end = at + number_length(n);
    let mut rest = n;
    for i in (at..end).rev() {
        out[i] = digit(rest % 10);
        rest /= 10;
    }
    end
}

// Writes a word from the front on, and answers the index after it.
#[tactic(auto, unfolding(text::specs::Buffer::put_at))]
fn put_word(out: &mut [u8], word: &[u8]) -> usize
    requires { length word.now ≤ length out.old }
    ensures { (result ≡ length word.now) × (out.new ≡ put_at 0 word.now out.old) }
{
    let n = word.len();
    out[..n].copy_from_slice(word);
    n
}

// The length of the line of a word and numbers, which comes first, as a line is written whole or not at all. The longest word is "published", and no
// answer has more than 6 numbers.
#[tactic(auto, using(crate::proofs::Answering::line_steps))]
fn line_length(word: &[u8], numbers: &[u64]) -> usize
    requires { (length word.now ≤ 9) × (length numbers.now ≤ 6) }
    ensures { result ≡ length (line_of word.now numbers.now) }
{
    let mut length = word.len() + 1;
    for n in numbers {
        length += 1 + number_length(*n);
    }
    length
}

// Writes the line of a word and numbers to the front of out, and answers its length; nothing and 0 where it does not fit, as in `write_reply`.
#[tactic(auto, using(crate::proofs::Answering::line_steps))]
fn write_line(word: &[u8], numbers: &[u64], out: &mut [u8]) -> usize
    requires { (length word.now ≤ 9) × (length numbers.now ≤ 6) }
    ensures { (result ≡ wrote (line_of word.now numbers.now) out.old) × (out.new ≡ front (line_of word.now numbers.now) out.old) }
{
    let n = line_length(word, numbers);
    if n > out.len() {
        return 0;
    }
    let mut at = put_word(out, word);
    for number in numbers {
        out[at] = b',';
        at = put_number(out, at + 1, *number);
    }
    out[at] = LINE_FEED;
    n
}

// Writes the line of a reply to the front of out, and answers its length; nothing and 0 where it does not fit.
// No `Option`: 0 is how many bytes were written then, and no line is that short.
#[tactic(auto, unfolding(crate::specs::Print::reply_line))]
pub fn write_reply(r: Reply, out: &mut [u8]) -> usize
    ensures { (result ≡ wrote (reply_line r) out.old) × (out.new ≡ front (reply_line r) out.old) }
{
    match r {
        Reply::Ok => write_line(b"ok", &[], out),
        Reply::Ticket(t) => write_line(b"ticket", &[t], out),
        Reply::Put => write_line(b"put", &[], out),
        Reply::Version(v, n) => write_line(b"version", &[v, n], out),
        Reply::Node(v, f, s, l, r, n) => write_line(b"node", &[v, f, s, l, r, n], out),
        Reply::Published(v) => write_line(b"published", &[v], out),
        Reply::Waiting => write_line(b"waiting", &[], out),
        Reply::Held => write_line(b"held", &[], out),
        Reply::Line(l) => write_line(b"line", &[l], out),
        Reply::Size(n) => write_line(b"size", &[n], out),
        Reply::Recent(v) => write_line(b"recent", &[v], out),
        Reply::Stamp(v) => write_line(b"stamp", &[v], out),
        Reply::Worst(n) => write_line(b"worst", &[n], out),
        Reply::Refused(n) => write_line(b"refused", &[n], out),
    }
}

// The lowercase hexadecimal digit of a number below 16. A table of the sixteen bytes would be no shorter.
fn hex_digit(n: u8) -> u8
    requires { n < 16 }
    ensures { result ≡ hex_digit n }
{
    if n < 10 { b'0' + n } else { b'a' + (n - 10) }
}

// Writes the line of the bytes that were read to the front of out, and answers its length; nothing and 0 where it does not fit, as in `write_reply`.
// The place is counted by hand, since that of the line feed is asked after the loop.
pub fn write_bytes(bytes: &[u8], out: &mut [u8]) -> usize
    ensures { (result ≡ wrote (bytes_line bytes.now) out.old) × (out.new ≡ front (bytes_line bytes.now) out.old) }
{
    if out.len() < 7 {
        return 0;
    }
    if bytes.len() > (out.len() - 7) / 2 {
        return 0;
    }
    let mut at = put_word(out, b"bytes,");
    for b in bytes {
        out[at] = hex_digit(*b / 16);
        out[at + 1] = hex_digit(*b % 16);
        at += 2;
    }
    out[at] = LINE_FEED;
    at + 1
}
