//! Which options leave room for each name of a function in a frame slot of its own.

ghost use Rattle.std.specs.Prelude.{◌↔◌, IsTrue};
ghost use Rattle.un_baseline.specs.RoomyOptions.{AreRoomyFor};

use un_ir::function::{Function, PARAMS};
use un_model::model::Options;

/// Whether every name of a function can be spilled under these options: the registers of all arguments may be assigned, and there are
/// more slots than names.
pub fn is_roomy(f: &Function, options: &Options) -> bool
    ensures { IsTrue result ↔ AreRoomyFor f.now options.now }
{
    let registers = match options.regs {
        None => true,
        Some(n) => n >= PARAMS,
    };
    registers && f.names.len() < options.slots as usize
}
