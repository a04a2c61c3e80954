//! The line of the options of a model, read.

ghost use Rattle.std.specs.Prelude.{◌≡◌, ◌≢◌, ℕ, List, ◌++◌, IfOk, IfErr, IfSome, IfNone};
ghost use Rattle.un_model.specs.declared.model.Options.{Options};
ghost use Rattle.un_model.specs.Options.{AreOptions};
ghost use Rattle.un_report_reader.specs.Errors.{IsErrorAt, IsRead};
ghost use Rattle.un_report_reader.specs.FirstBad.{IsBadLine};
ghost use Rattle.un_report_reader.specs.Lines.{one};
ghost use Rattle.un_refutation.specs.Refutations.{options_text};

use un_isa::reg::SLOTS;
use un_model::model::Options;
use un_report_reader::cut::{field, number};
use un_report_reader::error::ReportError;
use un_report_reader::head::regs_of;
use un_report_reader::place::{Place, bad_line, behind};

/// The options with whose line a text begins, and what is left behind that.
fn options_in(text: &[u8]) -> Option<(Options, &[u8])>
    ensures some { IfSome result (λ p. AreOptions p.0 × (text.now ≡ options_text p.0 ++ p.1.now)) }
    ensures none { IfNone result ((o : Options) (rest : List ℕ) → AreOptions o → text.now ≢ options_text o ++ rest) }
{
    let (word, rest) = field(text, b"model regs ", b' ')?;
    let regs = regs_of(word)?;
    let (slots, rest) = number(rest, b"slots ", b'\n', 0, SLOTS as u64)?;
    let options = Options {
        regs,
        slots: slots as u32,
    };
    Some((options, rest))
}

/// The options of the model, from their line.
pub(crate) fn read_options(at: Place) -> Result<(Options, Place), ReportError>
    ensures ok { IfOk result (λ p. IsRead AreOptions options_text one at.entry p.0 p.1) }
    ensures bad { IfErr result (IsErrorAt (IsBadLine AreOptions options_text) at.entry) }
{
    match options_in(at.rest) {
        Some((options, rest)) => Ok((options, behind(at, rest, 1)?)),
        None => Err(bad_line(at, 1)),
    }
}
