//! The words of the commands that search: settings behind other words, and `alloc` and `improve`, which have them at once; `alloc` has the
//! flag `--table` among them too.

ghost use Rattle.std.specs.Prelude.{◌≡◌, ◌↔◌, ◌+◌, ◌<◌, ◌≤◌, ◌^◌, IfOk, IfErr, IsTrue, codes, length, take, true};
ghost use Rattle.un_commands.specs.Alloc.{IsOpening, HasSettings};
ghost use Rattle.un_commands.specs.Commands.{IsCommand, IsBadWord};
ghost use Rattle.un_commands.specs.Places.{StandsAt, IsNext, IsBadSetting, MayAsk};

use crate::command::{Command, MOST_NODES, ReadingCommand, SearchOptions};
use crate::place::number_within;
use crate::setting::{Given, Setting};
use un_isa::reg::SLOTS;
use un_model::model::ASSIGNABLE;
use un_outside::words::Word;

/// The setting that a word and the next one spell, of an option that is not given yet.
///
/// # Errors
/// The place of the first of the two that is bad.
fn read_setting(words: &[Word], place: u32, flag: &Word, given: &Given) -> Result<Setting, u32>
    requires flag { StandsAt words.now place flag.now }
    requires small { place + 1 < 2 ^ 32 }
    ensures ok { IfOk result (IsNext words.now place given.now) }
    ensures bad { IfErr result (IsBadSetting words.now place given.now) }
{
    if flag.is(b"--nodes") && given.nodes.is_none() {
        let nodes = number_within(words, place + 1, 1, MOST_NODES)?;
        Ok(Setting::Nodes(nodes))
    } else if flag.is(b"--regs") && given.regs.is_none() {
        let regs = number_within(words, place + 1, 1, ASSIGNABLE)?;
        Ok(Setting::Regs(regs))
    } else if flag.is(b"--slots") && given.slots.is_none() {
        let slots = number_within(words, place + 1, 0, SLOTS)?;
        Ok(Setting::Slots(slots))
    } else {
        Err(place)
    }
}

/// Whether a word is the flag `--table`, where that may stand and is not given yet.
fn asks_table(flag: &Word, takes: bool, table: bool) -> bool
    ensures { IsTrue result ↔ (MayAsk takes table × (flag.now ≡ codes "--table")) }
{
    takes && !table && flag.is(b"--table")
}

/// Whether the flag `--table` stands among the settings from a place on, where it may, and the options that these spell, each once.
///
/// # Errors
/// The first place that is bad.
pub(crate) fn read_settings(
    words: &[Word],
    from: u32,
    takes: bool,
) -> Result<(bool, SearchOptions), u32>
    requires opened { IsOpening (take from words.now) takes }
    requires within { from ≤ length words.now }
    ensures ok { IfOk result (λ asked. HasSettings (take from words.now) words.now asked.0 asked.1) }
    ensures may { IfOk result (λ asked. asked.0 ≡ true → takes ≡ true) }
    ensures bad { IfErr result (IsBadWord words.now) }
{
    let mut given = Given::nothing();
    let mut table = false;
    let mut place = from;
    while let Some(flag) = words.get(place as usize) {
        if asks_table(flag, takes, table) {
            table = true;
            place += 1;
            continue;
        }
        let setting = read_setting(words, place, flag, &given)?;
        given = given.with(setting);
        place += 2;
    }
    Ok((table, given.options()))
}

/// The command of words that begin with `alloc`.
///
/// # Errors
/// The first place that is bad.
#[tactic(auto, using(crate::proofs::Openers::with_flag, crate::proofs::Openers::without_flag, crate::proofs::Openers::alloc_opens))]
pub(crate) fn read_alloc(words: &[Word]) -> Result<Command, u32>
    requires { StandsAt words.now 0 (codes "alloc") }
    ensures ok { IfOk result (IsCommand words.now) }
    ensures bad { IfErr result (IsBadWord words.now) }
{
    let (table, options) = read_settings(words, 1, true)?;
    if table {
        Ok(Command::Reads(ReadingCommand::AllocTable(options)))
    } else {
        Ok(Command::Reads(ReadingCommand::Alloc(options)))
    }
}

/// The command of words that begin with `improve`.
///
/// # Errors
/// The first place that is bad.
#[tactic(auto, using(crate::proofs::Openers::improves, crate::proofs::Openers::improve_opens))]
pub(crate) fn read_improve(words: &[Word]) -> Result<Command, u32>
    requires { StandsAt words.now 0 (codes "improve") }
    ensures ok { IfOk result (IsCommand words.now) }
    ensures bad { IfErr result (IsBadWord words.now) }
{
    let (_, options) = read_settings(words, 1, false)?;
    Ok(Command::Reads(ReadingCommand::Improve(options)))
}
