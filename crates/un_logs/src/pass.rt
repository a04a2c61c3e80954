//! What turns come to.

ghost use Rattle.std.specs.Prelude.{◌≡◌, ◌↔◌, IsTrue};
ghost use Rattle.un_logs.specs.Goods.{joined};

/// What turns come to.
#[derive(Clone, Copy)]
pub enum Pass {
    /// Some set is empty.
    Emptied,
    /// Values went.
    Taken,
    /// Nothing went.
    Same,
}

/// What turns come to, and others behind them.
pub(crate) fn joined(done: Pass, next: Pass) -> Pass
    ensures { result ≡ joined done next }
{
    match done {
        Pass::Emptied => Pass::Emptied,
        Pass::Same => next,
        Pass::Taken => match next {
            Pass::Emptied => Pass::Emptied,
            Pass::Taken => Pass::Taken,
            Pass::Same => Pass::Taken,
        },
    }
}
