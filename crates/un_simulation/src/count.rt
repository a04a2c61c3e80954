//! The cost of code.

ghost use Rattle.std.specs.Prelude.{◌≡◌, ◌<◌, ◌≤◌, ◌^◌, ◌*◌, nat_eq};
ghost use Rattle.std.specs.List.{find};
ghost use Rattle.std.specs.Cmp.Lexicographic.{pointwise};
ghost use Rattle.un_simulation.specs.Count.{count_of, packets_in, packets_under};

use un_base::name::Name;
use un_ir::function::Function;
use un_packet::code::{Code, CodeBlock};

/// How many packets stand under a label, 0 where the label is not there.
fn packets_under(blocks: &[CodeBlock], label: Name) -> usize
    ensures { result ≡ packets_under blocks.now label }
{
    for block in blocks {
        if block.label.as_bytes() == label.as_bytes() {
            return block.packets.len();
        }
    }
    0
}

/// The cost of code for a function: the sum over the function's blocks of the block's frequency times the number of
/// packets under its label, that is, the cycles of the code's packets weighted by how often they run.
pub fn count(f: &Function, code: &Code) -> u64
    requires { count_of f.now code.now < 2 ^ 64 }
    ensures { result ≡ count_of f.now code.now }
{
    let mut total = 0;
    for block in f.blocks.as_slice() {
        let packets = packets_under(code.blocks.as_slice(), block.label);
        total += u64::from(block.freq) * packets as u64;
    }
    total
}
