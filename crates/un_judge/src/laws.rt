//! A step log comes to one verdict. The function does nothing.

ghost use Rattle.std.specs.Prelude.{◌≡◌, ℕ};
ghost use Rattle.un_judge.specs.Judged.{IsJudged};
ghost use Rattle.un_judge.specs.declared.verdict.StepVerdict.{StepVerdict};

use un_model::model::Model;
use un_tree::node::Tree;

/// Two verdicts of one log are one. It does nothing.
pub fn one_judgement(m: &Model, limit: Option<u64>, t: &Tree, log: &[u8])
    ensures { (rules : ℕ) (v w : StepVerdict) → IsJudged rules m.now limit t.now.nodes.items log.now v
        → IsJudged rules m.now limit t.now.nodes.items log.now w → v ≡ w }
{
    let _ = m;
    let _ = limit;
    let _ = t;
    let _ = log;
}
