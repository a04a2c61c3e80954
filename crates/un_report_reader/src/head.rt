//! The lines before the answer, read.

ghost use Rattle.std.specs.Prelude.{◌≡◌, ◌≢◌, ℕ, List, ◌++◌, Option, IfOk, IfErr, IfSome, IfNone, codes};
ghost use Rattle.un_commands.specs.Settings.{IsCountOfNodes};
ghost use Rattle.un_model.specs.Options.{IsCountOfRegisters};
ghost use Rattle.un_report.specs.Reports.{regs_text, model_text};
ghost use Rattle.un_report_reader.specs.Errors.{IsErrorAt, IsRead};
ghost use Rattle.un_report_reader.specs.FirstBad.{IsBadLine, InVersion};
ghost use Rattle.un_report_reader.specs.Heads.{IsHead, head_of, head_text, three, settings_of};
ghost use Rattle.un_report_reader.specs.Limits.{AreSmall};
ghost use Rattle.un_report_reader.specs.Lines.{one, number_text, IsName, function_text, AreSettings, settings_text};
ghost use Rattle.un_report_reader.specs.Parts.{IsWithin};

use crate::cut::{field, number};
use crate::error::ReportError;
use crate::limits::{Limits, limits_of};
use crate::place::{Place, bad_line, behind};
use un_base::decimal::read_decimal;
use un_base::name::Name;
use un_commands::command::MOST_NODES;
use un_isa::table::LAST;
use un_model::model::{ASSIGNABLE, Options};

/// The options of a model and how many nodes a search was given.
#[derive(Clone, Copy)]
pub(crate) struct Settings {
    pub(crate) options: Options,
    pub(crate) nodes: u32,
}

/// What stands before the answer: the version, the name of the function, and the settings.
#[derive(Clone, Copy)]
pub(crate) struct Head<'a> {
    pub(crate) version: u8,
    pub(crate) name: &'a [u8],
    pub(crate) settings: Settings,
}

/// The number from `least` to `most` behind the word of a line.
pub fn number_line<'a>(
    at: Place<'a>,
    word: &[u8],
    least: u64,
    most: u64,
) -> Result<(u64, Place<'a>), ReportError>
    ensures ok { IfOk result (λ p. IsRead (IsWithin least most) (number_text word.now) one at.entry p.0 p.1) }
    ensures bad { IfErr result (IsErrorAt (IsBadLine (IsWithin least most) (number_text word.now)) at.entry) }
{
    match number(at.rest, word, b'\n', least, most) {
        Some((n, rest)) => Ok((n, behind(at, rest, 1)?)),
        None => Err(bad_line(at, 1)),
    }
}

/// The name that stands behind the word of a line, and what is left behind that.
fn name_of(text: &[u8]) -> Option<(&[u8], &[u8])>
    ensures some { IfSome result (λ p. IsName p.0.now × (text.now ≡ function_text p.0.now ++ p.1.now)) }
    ensures none { IfNone result ((name rest : List ℕ) → IsName name → text.now ≢ function_text name ++ rest) }
{
    let (name, rest) = field(text, b"function ", b'\n')?;
    match Name::from_bytes(name) {
        Some(_) => Some((name, rest)),
        None => None,
    }
}

/// The line of the function's name.
pub fn name_line<'a>(at: Place<'a>) -> Result<(&'a [u8], Place<'a>), ReportError>
    ensures ok { IfOk result (λ p. IsRead IsName function_text one at.entry p.0.now p.1) }
    ensures bad { IfErr result (IsErrorAt (IsBadLine IsName function_text) at.entry) }
{
    match name_of(at.rest) {
        Some((name, rest)) => Ok((name, behind(at, rest, 1)?)),
        None => Err(bad_line(at, 1)),
    }
}

/// How many registers a text tells.
pub fn regs_of(word: &[u8]) -> Option<Option<u32>>
    ensures some { IfSome result (λ r. IfSome r IsCountOfRegisters × (word.now ≡ regs_text r)) }
    ensures none { IfNone result ((r : Option ℕ) → IfSome r IsCountOfRegisters → word.now ≢ regs_text r) }
{
    if word == b"all".as_slice() {
        return Some(None);
    }
    match u32::try_from(read_decimal(word)?) {
        Ok(n) if 1 <= n && n <= ASSIGNABLE => Some(Some(n)),
        _ => None,
    }
}

/// The settings with which a text begins, and what is left behind their line.
fn settings_in(text: &[u8], limits: Limits) -> Option<(Settings, &[u8])>
    requires { AreSmall limits }
    ensures some { IfSome result (λ p. AreSettings limits (settings_of p.0) × (text.now ≡ settings_text (settings_of p.0) ++ p.1.now)) }
    ensures none { IfNone result ((s : Options × ℕ) (rest : List ℕ) → AreSettings limits s → text.now ≢ settings_text s ++ rest) }
{
    let (word, rest) = field(text, b"model regs ", b' ')?;
    let regs = regs_of(word)?;
    let (slots, rest) = number(rest, b"slots ", b' ', 0, limits.slots as u64)?;
    let (nodes, rest) = number(rest, b"nodes ", b'\n', 1, MOST_NODES as u64)?;
    let options = Options {
        regs,
        slots: slots as u32,
    };
    let nodes = nodes as u32;
    Some((Settings { options, nodes }, rest))
}

/// The line of the settings.
fn settings_line(at: Place, limits: Limits) -> Result<(Settings, Place), ReportError>
    requires { AreSmall limits }
    ensures ok { IfOk result (λ p. IsRead (AreSettings limits) settings_text one at.entry (settings_of p.0) p.1) }
    ensures bad { IfErr result (IsErrorAt (IsBadLine (AreSettings limits) settings_text) at.entry) }
{
    match settings_in(at.rest, limits) {
        Some((settings, rest)) => Ok((settings, behind(at, rest, 1)?)),
        None => Err(bad_line(at, 1)),
    }
}

/// The lines before the answer.
pub(crate) fn read_head(at: Place) -> Result<(Head, Place), ReportError>
    ensures ok { IfOk result (λ p. IsRead IsHead head_text three at.entry (head_of p.0) p.1) }
    ensures bad { IfErr result (IsErrorAt InVersion at.entry) }
{
    let (version, at) = number_line(at, b"unison ", 1, LAST as u64)?;
    let version = version as u8;
    let (name, at) = name_line(at)?;
    let (settings, at) = settings_line(at, limits_of(version))?;
    let head = Head {
        version,
        name,
        settings,
    };
    Ok((head, at))
}
