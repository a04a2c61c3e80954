//! The words behind `sweep`.

ghost use Rattle.std.specs.Prelude.{◌≤◌, ◌<◌, ◌^◌, IfOk, IfSome};

use crate::request::number_at;
use un_commands::command::MOST_NODES;
use un_isa::reg::SLOTS;
use un_outside::words::Word;

/// The options so far, each once.
#[derive(Clone, Copy)]
pub struct Swept {
    /// How many nodes a search has for each number of registers; None where it is left out.
    pub nodes: Option<u32>,
    /// How many frame slots there are; None where it is left out.
    pub slots: Option<u32>,
}

/// The options with the one at a place of the words, and its number behind it.
///
/// # Errors
/// The place at which no accepted list of words goes on so.
fn with_option(words: &[Word], place: u32, given: Swept) -> Result<Swept, u32>
    requires place { place < 2 ^ 31 }
    requires slots { IfSome given.slots (λ n. n ≤ SLOTS) }
    ensures slots { IfOk result (λ g. IfSome g.slots (λ n. n ≤ SLOTS)) }
{
    match words.get(place as usize) {
        Some(word) if word.is(b"--nodes") && given.nodes.is_none() => {
            let nodes = number_at(words, place + 1, 1, MOST_NODES)?;
            Ok(Swept {
                nodes: Some(nodes),
                slots: given.slots,
            })
        }
        Some(word) if word.is(b"--slots") && given.slots.is_none() => {
            let slots = number_at(words, place + 1, 0, SLOTS)?;
            Ok(Swept {
                nodes: given.nodes,
                slots: Some(slots),
            })
        }
        _ => Err(place),
    }
}

/// The options that the words behind the first give: two pairs of words at most.
///
/// # Errors
/// The least place at which no accepted list of words begins so.
pub(crate) fn sweep_options(words: &[Word]) -> Result<Swept, u32>
    ensures { IfOk result (λ g. IfSome g.slots (λ n. n ≤ SLOTS)) }
{
    let mut given = Swept {
        nodes: None,
        slots: None,
    };
    for pair in 0..3u32 {
        let place = 1 + 2 * pair;
        if words.len() <= place as usize {
            return Ok(given);
        }
        given = with_option(words, place, given)?;
    }
    Err(5)
}
