// Fields and numbers of a text in ASCII, read from slices and written over them.
//
// Every function is defined for all bytes and lengths. What is not what it should be is `None`; what has no
// room is not written, not even in part.
#![tactic(auto)]

mod table;

ghost use Rattle.std.specs.Prelude.{◌≡◌, ◌+◌, length, nat_le};
ghost use Rattle.octets.specs.Octets.{same as same_bytes};
ghost use Rattle.text.specs.Text.{before, number_at, word_in, decimal as decimal_of, written, end as end_of};

use crate::table::DIGITS;

// How many bytes stand before the first that is `byte`; all do if none is. No Option: a caller takes the bytes
// before it, whether or not it is found.
pub fn find(byte: u8, text: &[u8]) -> usize
    ensures { result ≡ before byte text.now }
{
    text.iter().position(|b| *b == byte).unwrap_or(text.len())
}

// Whether the two have the same bytes.
pub fn same(a: &[u8], b: &[u8]) -> bool
    ensures { result ≡ same_bytes a.now b.now }
{
    a == b
}

// The plain number (R15.4) of at most `limit` that starts at index `at` of the text, and the index at which
// the next field starts.
pub fn number_at(limit: u32, text: &[u8], at: usize) -> Option<(u32, usize)>
    ensures { result ≡ number_at limit text.now at }
{
    let (value, next) = first_number(limit, text.get(at..)?)?;
    Some((value, at + next))
}

// The same at the start of the text.
fn first_number(limit: u32, text: &[u8]) -> Option<(u32, usize)>
    ensures { result ≡ number_at limit text.now 0 }
{
    let mut value: u64 = 0;
    let mut len = text.len();
    for (i, byte) in text.iter().enumerate() {
        if *byte == b' ' {
            len = i;
            break;
        }
        if !byte.is_ascii_digit() {
            return None;
        }
        value = value * 10 + u64::from(*byte - b'0');
        if u64::from(limit) < value {
            return None;
        }
    }
    if len == 0 || (1 < len && text[0] == b'0') {
        return None;
    }
    Some((value as u32, len + 1))
}

// The word that sixteen hexadecimal digits with small letters (R15.9) write.
pub fn hex(text: &[u8]) -> Option<u64>
    ensures { result ≡ word_in text.now }
{
    if text.len() != 16 {
        return None;
    }
    // A copy, made once: each index into the constant itself would make one.
    let digits = DIGITS;
    let mut value: u64 = 0;
    for byte in text {
        let digit = digits[usize::from(*byte)];
        if 16 <= digit {
            return None;
        }
        value = value * 16 + u64::from(digit);
    }
    Some(value)
}

// Whether `out` has room for n bytes from index `at` on.
pub fn has_room(n: usize, at: usize, out: &[u8]) -> bool
    ensures { result ≡ nat_le (at + n) (length out.now) }
{
    at <= out.len() && n <= out.len() - at
}

// Writes `text` over `out` from index `at` on, and answers where it ends. Where there is no room for the
// whole of it, nothing is written, and the answer is `at`: no Option, since what prints goes on from there.
pub fn put(text: &[u8], at: usize, out: &mut [u8]) -> usize
    ensures value { result ≡ end_of at text.now out.old }
    ensures out_after { out.new ≡ written at text.now out.old }
{
    if !has_room(text.len(), at, out) {
        return at;
    }
    let end = at + text.len();
    out[at..end].copy_from_slice(text);
    end
}

// Writes n as a plain number, as `put` writes a text.
pub fn decimal(n: u64, at: usize, out: &mut [u8]) -> usize
    ensures value { result ≡ end_of at (decimal_of n) out.old }
    ensures out_after { out.new ≡ written at (decimal_of n) out.old }
{
    let k = digits(n);
    if !has_room(k, at, out) {
        return at;
    }
    let end = at + k;
    spell(n, &mut out[at..end]);
    end
}

// How many digits n has.
fn digits(n: u64) -> usize
    ensures { result ≡ length (decimal_of n) }
{
    n.max(1).ilog10() as usize + 1
}

// Writes n over a slice of as many bytes as it has digits, the last digit first.
fn spell(n: u64, out: &mut [u8])
    requires { length out.old ≡ length (decimal_of n) }
    ensures { out.new ≡ decimal_of n }
{
    let mut rest = n;
    // By the index: after `iter_mut().rev()` a proof knows nothing of what the slice holds.
    for i in (0..out.len()).rev() {
        out[i] = b'0' + (rest % 10) as u8;
        rest /= 10;
    }
}
