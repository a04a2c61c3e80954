//! The first words of the lines of a start.

ghost use Rattle.std.specs.Prelude.{◌≡◌, ◌≢◌, IfSome, IfNone};
ghost use Rattle.un_start.specs.declared.word.Word.{Word};
ghost use Rattle.un_start.specs.Lines.{word_text};

/// The kinds of lines.
#[derive(Clone, Copy)]
pub enum Word {
    Reg,
    Mem,
    Reply,
    Set,
    Junk,
    Blocks,
}

/// The word that a text is.
pub(crate) fn word_of(text: &[u8]) -> Option<Word>
    ensures some { IfSome result (λ w. text.now ≡ word_text w) }
    ensures none { IfNone result ((w : Word) → text.now ≢ word_text w) }
{
    if text == b"reg".as_slice() {
        Some(Word::Reg)
    } else if text == b"mem".as_slice() {
        Some(Word::Mem)
    } else if text == b"reply".as_slice() {
        Some(Word::Reply)
    } else if text == b"set".as_slice() {
        Some(Word::Set)
    } else if text == b"junk".as_slice() {
        Some(Word::Junk)
    } else if text == b"blocks".as_slice() {
        Some(Word::Blocks)
    } else {
        None
    }
}
