//! A function of LLVM's in the input language.

use std::alloc::Global;
use un_answers::answer::Answer;
use un_imported::import::{Imported, import};
use un_outside::status::Status;

/// The code of a line that is in no form of its language.
const BAD_LINE: u8 = 2;

/// The function of this name in LLVM's text, the first one where there is none; or what is missing.
pub fn imported(alloc: Global, input: &[u8], name: Option<&[u8]>) -> Answer {
    match import(alloc, input, name) {
        Ok(Imported::Function(text)) => Answer::done(alloc, text),
        Ok(Imported::Refused(told)) => {
            let status = Status::TextFault {
                line: 0,
                code: BAD_LINE,
            };
            Answer::told(alloc, told, status)
        }
        Err(_) => Answer::failed(alloc, Status::NoMemory),
    }
}
