// Runs of bytes of one kind, gaps of blanks and comments, and the number that digits write.

ghost use Rattle.std.specs.Prelude.{◌≡◌, ℕ, ◌+◌, ◌≤◌, true, false, not, length, drop};
ghost use Rattle.std.specs.List.{prefix_len};
ghost use Rattle.text_bytes.specs.Bytes.{of_kind, gap, number};
ghost use Rattle.text_bytes.specs.Position.{feed};

use crate::kinds::{ByteKind, is_blank, is_of_kind};

// How many bytes are left of a comment in front of its line feed, which is a blank, or of the end.
fn comment_len(bytes: &[u8]) -> usize
    ensures value { result ≡ prefix_len (λ b. not (feed b)) bytes.now }
    ensures behind { gap true bytes.now ≡ result + gap false (drop result bytes.now) }
    ensures within { result ≤ length bytes.now }
{
    for (i, b) in bytes.iter().enumerate() {
        if *b == b'\n' {
            return i;
        }
    }
    bytes.len()
}

// Where the blanks and comments that begin at `from` end. A comment ends behind its line feed.
pub fn gap_end(text: &[u8], from: usize) -> usize
    ensures value { result ≡ from + gap false (drop from text.now) }
    ensures bound { from ≤ length text.now → result ≤ length text.now }
{
    let Some(mut rest) = text.get(from..) else {
        return from;
    };
    loop {
        rest = match rest {
            [b'#', behind @ ..] => &behind[comment_len(behind)..],
            [b, behind @ ..] if is_blank(*b) => behind,
            _ => return text.len() - rest.len(),
        };
    }
}

// How many bytes of a kind stand in front.
fn run_len(bytes: &[u8], kind: ByteKind) -> usize
    ensures value { result ≡ prefix_len (of_kind kind) bytes.now }
    ensures within { result ≤ length bytes.now }
{
    bytes.iter().take_while(|b| is_of_kind(kind, **b)).count()
}

// Where the bytes of a kind that begin at `from` end.
pub fn run_end(text: &[u8], from: usize, kind: ByteKind) -> usize
    ensures value { result ≡ from + prefix_len (of_kind kind) (drop from text.now) }
    ensures bound { from ≤ length text.now → result ≤ length text.now }
{
    let Some(rest) = text.get(from..) else {
        return from;
    };
    from + run_len(rest, kind)
}

// The largest value that a number of a plan text may have.
pub const LARGEST: u32 = 2147483647;

// The number that the digits write, unless it is too large.
pub fn number_of(digits: &[u8]) -> Option<u32>
    ensures { result ≡ number digits.now }
{
    let mut value: u32 = 0;
    for d in digits {
        let next = u64::from(value) * 10 + u64::from(d.saturating_sub(b'0'));
        if next > u64::from(LARGEST) {
            return None;
        }
        value = next as u32;
    }
    Some(value)
}
