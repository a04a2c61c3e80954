//! Places in texts.

/// A text in two parts.
#[derive(Clone, Copy)]
pub struct Halves<'a> {
    pub front: &'a [u8],
    pub behind: &'a [u8],
}

/// A text parted at a place, or at its end.
pub fn parted(text: &[u8], place: usize) -> Halves<'_> {
    let (front, behind) = text.split_at(place.min(text.len()));
    Halves { front, behind }
}

/// Whether a byte parts words.
pub fn is_blank(b: u8) -> bool {
    b == b' ' || b == b'\t' || b == b'\r' || b == b'\n'
}

/// Where the last byte that is no blank ends.
fn last_end(text: &[u8]) -> usize {
    let mut end: usize = 0;
    for (place, b) in text.iter().enumerate() {
        if !is_blank(*b) {
            end = place.saturating_add(1);
        }
    }
    end
}

/// A text without blanks at its ends.
pub(crate) fn trimmed(text: &[u8]) -> &[u8] {
    let front = text
        .iter()
        .position(|b| !is_blank(*b))
        .unwrap_or(text.len());
    let rest = parted(text, front).behind;
    parted(rest, last_end(rest)).front
}

/// Where a word stands first in a text.
pub fn find(text: &[u8], word: &[u8]) -> Option<usize> {
    for place in 0..text.len() {
        if parted(text, place).behind.starts_with(word) {
            return Some(place);
        }
    }
    None
}

/// What stands before the first place of a word, and behind it.
pub fn around<'a>(text: &'a [u8], word: &[u8]) -> Option<Halves<'a>> {
    let place = find(text, word)?;
    let front = parted(text, place).front;
    let behind = parted(text, place.saturating_add(word.len())).behind;
    Some(Halves { front, behind })
}

/// What stands before a byte, and behind it; all of the text, and nothing, where it does not stand there.
pub fn cut(text: &[u8], byte: u8) -> Halves<'_> {
    let place = text.iter().position(|b| *b == byte).unwrap_or(text.len());
    let front = parted(text, place).front;
    let behind = parted(text, place.saturating_add(1)).behind;
    Halves { front, behind }
}

/// What stands before the first line `---` of a text, and behind it.
pub fn at_rule(text: &[u8]) -> Option<Halves<'_>> {
    let mut place: usize = 0;
    for line in text.split(|b| *b == b'\n') {
        let end = place.saturating_add(line.len()).saturating_add(1);
        if trimmed(line) == b"---".as_slice() {
            let front = parted(text, place).front;
            let behind = parted(text, end).behind;
            return Some(Halves { front, behind });
        }
        place = end;
    }
    None
}
