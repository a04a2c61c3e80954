//! A function by way of its text.

ghost use Rattle.std.specs.Prelude.{◌≡◌, IfOk};
ghost use Rattle.un_ir.specs.Text.{function_text};
ghost use Rattle.un_reader.specs.Read.{IsRead};

use std::alloc::Global;
use un_base::memory_error::NoMemory;
use un_ir::function::Function;
use un_ir::print::print_function;
use un_reader::error::ReadError;
use un_reader::read::read_function;

/// Prints a function and reads it again, which gives the same function: what is printed is read as the function.
///
/// # Errors
/// `NoMemory` where there is no memory for the text or for what is read of it.
pub fn read_back(alloc: Global, f: &Function) -> Result<Function, NoMemory>
    ensures read { IsRead (function_text f.now) f.now }
    ensures same { IfOk result (λ g. g ≡ f.now) }
{
    let text = print_function(alloc, f)?;
    match read_function(alloc, text.as_slice()) {
        Ok(function) => Ok(function),
        Err(ReadError::NoMemory) => Err(NoMemory),
        Err(ReadError::TextFault { .. }) => unreachable!(),
    }
}
