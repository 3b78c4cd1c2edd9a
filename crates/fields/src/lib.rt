// The fields of a line of text: what stands between its commas, a field's number, and page bytes in hexadecimal. No public function has a `requires`.
#![tactic(auto)]

ghost use Rattle.std.specs.Prelude.{◌≡◌, ◌<◌, true, [], length, get_or, ltb};
ghost use Rattle.text.specs.Text.{same};
ghost use Rattle.text.specs.Buffer.{front};
ghost use Rattle.fields.specs.Fields.{fields_of, starts_plain, field_number, hex_value, is_hex, unhex, decoded_in};

// Whether a field is this word. The `==` has a function of its own, whose promise says `same`, which `parse` cites.
#[tactic(auto, using(crate::proofs::Words::same_pointwise))]
pub fn word_is(w: &[u8], word: &[u8]) -> bool
    ensures { result ≡ same w.now word.now }
{
    w == word
}

// How many fields a line has: one more than its commas.
pub fn field_count(line: &[u8]) -> usize
    ensures { result ≡ length (fields_of line.now) }
{
    line.split(|b| *b == b',').count()
}

// Field k of a line, from 0; the empty part where there is none. No `Option`: a caller goes by how many fields there are, and would unwrap each one.
pub fn field(line: &[u8], k: usize) -> &[u8]
    ensures { result.now ≡ get_or (fields_of line.now) k [] }
{
    line.split(|b| *b == b',').nth(k).unwrap_or(&[])
}

// Whether a field has a first byte that is not a 0 with more after it.
fn starts_plain(f: &[u8]) -> bool
    ensures { result ≡ starts_plain f.now }
{
    match f {
        [] => false,
        [_] => true,
        [first, ..] => *first != b'0',
    }
}

// The number that a field is. `str::parse` would take a plus sign and leading zeros too.
#[tactic(auto, using(crate::proofs::Numbers::digit_past), unfolding(crate::specs::Fields::field_number))]
pub fn number_in(f: &[u8]) -> Option<u64>
    ensures { result ≡ field_number f.now }
{
    if !starts_plain(f) {
        return None;
    }
    let mut v: u64 = 0;
    for b in f {
        if !b.is_ascii_digit() {
            return None;
        }
        v = v.checked_mul(10)?.checked_add(u64::from(*b - b'0'))?;
    }
    Some(v)
}

// Whether a byte is a lowercase hexadecimal digit: `to_digit(16)` and `from_str_radix` would take uppercase letters too.
#[tactic(auto, unfolding(crate::specs::Fields::hex_value))]
fn is_hex_digit(b: u8) -> bool
    ensures { result ≡ ltb (hex_value b) 16 }
{
    matches!(b, b'0'..=b'9' | b'a'..=b'f')
}

// The value of such a digit.
#[tactic(auto, unfolding(crate::specs::Fields::hex_value))]
fn digit_value(b: u8) -> u8
    requires { hex_value b < 16 }
    ensures { result ≡ hex_value b }
{
    if b <= b'9' { b - b'0' } else { b - b'a' + 10 }
}

// Whether a field is hexadecimal, two digits a byte.
fn is_hex(f: &[u8]) -> bool
    ensures { result ≡ is_hex f.now }
{
    f.len() % 2 == 0 && f.iter().all(|b| is_hex_digit(*b))
}

// Puts the bytes of a hexadecimal field at the front of a buffer; leaves a buffer that is too short.
#[tactic(auto, using(crate::proofs::Hex::put_hex_steps), unfolding(text::specs::Buffer::front))]
fn put_hex(f: &[u8], bytes: &mut [u8])
    requires { is_hex f.now ≡ true }
    ensures { bytes.new ≡ front (unhex f.now) bytes.old }
{
    let n = f.len() / 2;
    if n > bytes.len() {
        return;
    }
    for i in 0..n {
        bytes[i] = digit_value(f[2 * i]) * 16 + digit_value(f[2 * i + 1]);
    }
}

// Puts the bytes that a field is at the front of a buffer, and says whether it is hexadecimal; leaves the buffer where it is not, or is too short.
// How many bytes they are is half the field's length, so that a bool is the whole answer.
pub fn decode(f: &[u8], bytes: &mut [u8]) -> bool
    ensures { (result ≡ is_hex f.now) × (bytes.new ≡ decoded_in f.now bytes.old) }
{
    if !is_hex(f) {
        return false;
    }
    put_hex(f, bytes);
    true
}
