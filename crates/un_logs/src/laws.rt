//! Laws of rounds. The functions do nothing.

ghost use Rattle.std.specs.Prelude.{ℕ, Contains, Option};
ghost use Rattle.un_domains.specs.Sets.{Sets};
ghost use Rattle.un_steps.specs.Allowed.{MayGo};
ghost use Rattle.un_steps.specs.declared.step.Rule.{Rule};
ghost use Rattle.un_logs.specs.Vars.{vars_at};

use un_model::model::Model;

/// A rule takes values of no other variables than those that are gone over. It does nothing.
pub fn all_vars(m: &Model, limit: Option<u64>)
    ensures { (rule : Rule) (s : Sets) (o v y : ℕ) → MayGo rule m.now limit s o v y → Contains (vars_at rule m.now o) v }
{
    let _ = m;
    let _ = limit;
}
