//! The parts of an input.

ghost use Rattle.std.specs.Prelude.{◌≡◌};
ghost use Rattle.un_runs.specs.Inputs.{is_rule, first_part, second_part, middle_part, last_part};

use un_words::pieces::first_len;

/// The two parts of an input, which the first line `---` parts.
#[derive(Clone, Copy)]
pub struct Parts<'a> {
    /// What stands before that line; the whole input where there is none.
    pub first: &'a [u8],
    /// What stands behind that line; nothing where there is none.
    pub second: &'a [u8],
}

/// The three parts of an input, which the first two lines `---` part.
#[derive(Clone, Copy)]
pub struct ThreeParts<'a> {
    /// What stands before the first such line; the whole input where there is none.
    pub first: &'a [u8],
    /// What stands between it and the second; all behind it where there is no second, and nothing where there is no first.
    pub middle: &'a [u8],
    /// What stands behind the second; nothing where there is none.
    pub last: &'a [u8],
}

/// Whether a line, with its line feed, parts an input.
fn is_rule(line: &[u8]) -> bool
    ensures { result ≡ is_rule line.now }
{
    line == b"---\n".as_slice() || line == b"---\r\n".as_slice() || line == b"---".as_slice()
}

/// The two parts of an input. It takes no memory.
pub fn split(input: &[u8]) -> Parts<'_>
    ensures first { result.first.now ≡ first_part input.now }
    ensures second { result.second.now ≡ second_part input.now }
{
    let mut rest = input;
    while !rest.is_empty() {
        let (line, behind) = rest.split_at(first_len(rest));
        if is_rule(line) {
            return Parts {
                first: &input[..input.len() - rest.len()],
                second: behind,
            };
        }
        rest = behind;
    }
    Parts {
        first: input,
        second: rest,
    }
}

/// The three parts of an input. It takes no memory.
pub fn split_three(input: &[u8]) -> ThreeParts<'_>
    ensures first { result.first.now ≡ first_part input.now }
    ensures middle { result.middle.now ≡ middle_part input.now }
    ensures last { result.last.now ≡ last_part input.now }
{
    let outer = split(input);
    let inner = split(outer.second);
    ThreeParts {
        first: outer.first,
        middle: inner.first,
        last: inner.second,
    }
}
