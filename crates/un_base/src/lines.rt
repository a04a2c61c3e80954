//! The lines of a text, lent, and a text cut at a byte.

ghost use Rattle.std.specs.Prelude.{◌≡◌, ◌≢◌, ◌+◌, ◌<◌, ◌≤◌, All, IfSome, IfNone, length, drop};
ghost use Rattle.std.specs.List.{position, position_or_len};
ghost use Rattle.std.specs.Iterator.{item_count, YieldsFirstBy};
ghost use Rattle.un_base.specs.Lines.{is_line_feed, lines_of, joined_lines, with_last_feed, HasNoFeed, IsCut};
ghost use Rattle.un_base.specs.LinesLeft.{lines_left};

/// The lines of a text that are left, each a slice of it.
#[derive(Drop)]
pub struct LineIter<'a> {
    rest: &'a [u8],
}

/// Lends the lines of `text` in order, each a slice of it without its line feed. A carriage return stays. A last line
/// may lack its line feed, and the empty text has no line. It takes no memory.
pub fn lines(text: &[u8]) -> LineIter<'_>
    ensures left { lines_left result ≡ lines_of text.now }
    ensures joined { joined_lines (lines_of text.now) ≡ with_last_feed text.now }
    ensures no_feed { All HasNoFeed (lines_of text.now) }
{
    LineIter { rest: text }
}

/// The place of the first line feed.
fn first_feed(text: &[u8]) -> Option<usize>
    ensures place { result ≡ position is_line_feed text.now }
    ensures bound { IfSome result (λ i. i < length text.now) }
{
    text.iter().position(|b| *b == b'\n')
}

/// Where the first line ends: the place of the first line feed, or the length where there is none.
fn line_end(text: &[u8]) -> usize
    ensures end { result ≡ position_or_len is_line_feed text.now }
    ensures bound { result ≤ length text.now }
{
    match first_feed(text) {
        Some(end) => end,
        None => text.len(),
    }
}

/// What stands after the byte at `end`.
fn after(text: &[u8], end: usize) -> &[u8]
    ensures { result.now ≡ drop (end + 1) text.now }
{
    if end < text.len() {
        &text[end + 1..]
    } else {
        &[]
    }
}

impl<'a> Iterator for LineIter<'a> {
    type Item = &'a [u8];

    ghost next_gives = { YieldsFirstBy (λ line. line.now) lines_left };

    ghost remaining = { item_count lines_left };

    fn next(&mut self) -> Option<&'a [u8]> {
        if self.rest.is_empty() {
            return None;
        }
        let end = line_end(self.rest);
        let line = &self.rest[..end];
        self.rest = after(self.rest, end);
        Some(line)
    }
}

/// What stands before the first byte `b`, and what stands behind it. `None` exactly where `b` is not in the text. It takes no memory.
pub fn cut(text: &[u8], b: u8) -> Option<(&[u8], &[u8])>
    ensures some { IfSome result (λ parts. IsCut text.now b parts.0.now parts.1.now) }
    ensures none { IfNone result (All (λ y. y ≢ b) text.now) }
{
    for (i, y) in text.iter().enumerate() {
        if *y == b {
            return Some((&text[..i], &text[i + 1..]));
        }
    }
    None
}
