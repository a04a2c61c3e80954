//! What `alloc` and `check` have to do with each other, as contracts of functions that do nothing.

ghost use Rattle.std.specs.Prelude.{◌≡◌, ℕ, List};
ghost use Rattle.un_isa.specs.Versions.{table_of};
ghost use Rattle.un_isa.specs.declared.table.TheConstants.{LAST};
ghost use Rattle.un_model.specs.declared.model.Options.{Options};
ghost use Rattle.un_outside.specs.declared.status.Status.{Status};
ghost use Rattle.un_reader.specs.Read.{IsRead};
ghost use Rattle.un_ir.specs.declared.function.Function.{Function};
ghost use Rattle.un_runs.specs.Inputs.{first_part, second_part};
ghost use Rattle.un_top.specs.Checks.{check_text, IsCheck, IsCheckInput, IsOfLines};
ghost use Rattle.un_top.specs.Reports.{IsReportOf};

/// An input of a function's text and what `alloc` prints of it is a function and a report, and its check accepts it.
pub fn accepts_report(input: &[u8])
    ensures input { (options : Options) (nodes : ℕ) (status : Status)
        → IsReportOf (table_of LAST) options nodes (first_part input.now) status (second_part input.now) → IsCheckInput input.now }
    ensures accepted { (options : Options) (nodes : ℕ) (status : Status)
        → IsReportOf (table_of LAST) options nodes (first_part input.now) status (second_part input.now)
        → (told : Status) (line : List ℕ) → IsCheck input.now told line → told ≡ Status.Done }
{
    let _ = input;
}

/// A function's text, a line `---` and any text behind it are an input of those two.
pub fn parts_of_check(text: &[u8], report: &[u8])
    requires lines { IsOfLines text.now }
    ensures first { (f : Function) → IsRead text.now f → first_part (check_text text.now report.now) ≡ text.now }
    ensures second { (f : Function) → IsRead text.now f → second_part (check_text text.now report.now) ≡ report.now }
{
    let _ = text;
    let _ = report;
}
