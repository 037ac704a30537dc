// The line and column by which an editor finds a place.

ghost use Rattle.std.specs.Prelude.{◌≡◌, ℕ, ◌+◌, ◌≤◌, not, length, count_by};
ghost use Rattle.std.specs.List.{suffix_len};
ghost use Rattle.text_bytes.specs.Position.{feed, line_at, column_at};

use std::fmt;

// Both count from 1; the column counts bytes.
#[derive(Clone, Copy)]
pub struct Position {
    pub line: usize,
    pub column: usize,
}

impl fmt::Display for Position {
    fn fmt<W: fmt::Write>(&self, f: &mut fmt::Formatter<W>) -> fmt::Result {
        let line = self.line;
        let column = self.column;
        write!(f, "{line}:{column}")
    }
}

// How many bytes stand behind the last line feed.
fn since_feed(front: &[u8]) -> usize
    ensures value { result ≡ suffix_len (λ b. not (feed b)) front.now }
    ensures within { result ≤ length front.now }
{
    front.iter().rev().take_while(|b| **b != b'\n').count()
}

// The position behind these bytes.
fn position_behind(front: &[u8]) -> Position
    ensures line { result.line ≡ 1 + count_by feed front.now }
    ensures column { result.column ≡ 1 + suffix_len (λ b. not (feed b)) front.now }
{
    Position {
        line: 1 + front.iter().filter(|b| **b == b'\n').count(),
        column: 1 + since_feed(front),
    }
}

// The position of a place of the text; a place past the text has that of its end.
pub fn position_of(text: &[u8], place: usize) -> Position
    ensures line { result.line ≡ line_at text.now place }
    ensures column { result.column ≡ column_at text.now place }
{
    position_behind(text.get(..place).unwrap_or(text))
}
