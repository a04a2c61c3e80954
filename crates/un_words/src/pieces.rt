//! A text's lines, cut off one by one.

ghost use Rattle.std.specs.Prelude.{◌≡◌, ◌+◌, ◌-◌, ◌<◌, ◌≤◌, ◌∷◌, ◌==◌, length, take, drop};
ghost use Rattle.std.specs.List.{before_first, position_or_len};
ghost use Rattle.un_base.specs.Lines.{is_line_feed, pieces_of};
ghost use Rattle.un_words.specs.Pieces.{ends_with, without_last, without_end, without_comment};

/// Whether the last byte is `b`.
fn ends_with(bytes: &[u8], b: u8) -> bool
    ensures { result ≡ ends_with b bytes.now }
{
    !bytes.is_empty() && bytes[bytes.len() - 1] == b
}

/// The bytes without a last byte `b`.
fn without_last(bytes: &[u8], b: u8) -> &[u8]
    ensures { result.now ≡ without_last b bytes.now }
{
    if ends_with(bytes, b) {
        &bytes[..bytes.len() - 1]
    } else {
        bytes
    }
}

/// A line without its line feed and a carriage return before that.
fn without_end(piece: &[u8]) -> &[u8]
    ensures { result.now ≡ without_end piece.now }
{
    if ends_with(piece, b'\n') {
        without_last(&piece[..piece.len() - 1], b'\r')
    } else {
        piece
    }
}

/// The place of the first semicolon, or the length where there is none.
fn comment_start(line: &[u8]) -> usize
    ensures place { result ≡ position_or_len (λ b. b == 59) line.now }
    ensures bound { result ≤ length line.now }
{
    for (i, b) in line.iter().enumerate() {
        if *b == b';' {
            return i;
        }
    }
    line.len()
}

/// A line of a text without its end and its comment.
pub fn content(piece: &[u8]) -> &[u8]
    ensures { result.now ≡ without_comment (without_end piece.now) }
{
    let line = without_end(piece);
    &line[..comment_start(line)]
}

/// The length of the first line, with its line feed where it has one.
#[tactic(auto, using(crate::proofs::PieceLaws::first_piece, crate::proofs::PieceLaws::feed_here))]
pub fn first_len(text: &[u8]) -> usize
    requires { 0 < length text.now }
    ensures some { 0 < result }
    ensures bound { result ≤ length text.now }
    ensures cut { pieces_of text.now ≡ take result text.now ∷ pieces_of (drop result text.now) }
{
    for (i, b) in text.iter().enumerate() {
        if *b == b'\n' {
            return i + 1;
        }
    }
    text.len()
}
