//! How far apart instructions of a block are: accesses to memory, and uses of the frame.

ghost use Rattle.std.specs.Prelude.{◌≡◌};
ghost use Rattle.un_model.specs.Solutions.{after_write, after_load, memory_distance, after_enter, before_leave, frame_distance};

use un_isa::op::Op;

/// How far after a Store or Call an instruction issues.
fn after_write(later: Option<Op>) -> Option<u32>
    ensures { result ≡ after_write later }
{
    match later {
        Some(Op::Load) | Some(Op::Store) | Some(Op::Call) => Some(1),
        _ => None,
    }
}

/// How far after a Load an instruction issues.
fn after_load(later: Option<Op>) -> Option<u32>
    ensures { result ≡ after_load later }
{
    match later {
        Some(Op::Store) => Some(0),
        Some(Op::Call) => Some(1),
        _ => None,
    }
}

/// How far after an access to memory an instruction issues.
pub fn memory_distance(earlier: Option<Op>, later: Option<Op>) -> Option<u32>
    ensures { result ≡ memory_distance earlier later }
{
    match earlier {
        Some(Op::Load) => after_load(later),
        Some(Op::Store) | Some(Op::Call) => after_write(later),
        _ => None,
    }
}

/// How far after Enter an instruction issues.
fn after_enter(later: Option<Op>) -> Option<u32>
    ensures { result ≡ after_enter later }
{
    match later {
        Some(Op::Spill) | Some(Op::Reload) | Some(Op::Call) | Some(Op::Leave) => Some(1),
        _ => None,
    }
}

/// How far before Leave an instruction issues that issues `n` cycles before it.
fn before_leave(n: u32, later: Option<Op>) -> Option<u32>
    ensures { result ≡ before_leave n later }
{
    match later {
        Some(Op::Leave) => Some(n),
        _ => None,
    }
}

/// How far after a use of the frame an instruction issues.
pub fn frame_distance(earlier: Option<Op>, later: Option<Op>) -> Option<u32>
    ensures { result ≡ frame_distance earlier later }
{
    match earlier {
        Some(Op::Enter) => after_enter(later),
        Some(Op::Spill) | Some(Op::Reload) => before_leave(0, later),
        Some(Op::Call) => before_leave(1, later),
        _ => None,
    }
}
