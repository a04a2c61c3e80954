//! Pieces of texts. Each function appends one to a text, and answers `NoMemory` where there is no memory for it. Then the
//! text is unchanged.

ghost use Rattle.std.specs.Prelude.{◌≡◌, ◌++◌, OnOk, OnErr};
ghost use Rattle.std.specs.Fmt.{decimal, signed_decimal};

use itoa::Buffer;
use un_base::decimal::write_decimal;
use un_base::memory_error::NoMemory;

/// Appends a text.
pub fn put_text(out: &mut Vec<u8>, text: &[u8]) -> Result<(), NoMemory>
    ensures ok { OnOk result (out.new.items ≡ out.old.items ++ text.now) }
    ensures err { OnErr result (out.new.items ≡ out.old.items) }
{
    out.extend_from_slice(text)?;
    Ok(())
}

/// Appends a number in decimal, without leading zeros.
pub fn put_number(out: &mut Vec<u8>, n: u64) -> Result<(), NoMemory>
    ensures ok { OnOk result (out.new.items ≡ out.old.items ++ decimal n) }
    ensures err { OnErr result (out.new.items ≡ out.old.items) }
{
    let alloc = *out.allocator();
    write_decimal(alloc, out, n)
}

/// Appends a number in decimal, with `-` before a negative one.
pub fn put_signed_number(out: &mut Vec<u8>, n: i32) -> Result<(), NoMemory>
    ensures ok { OnOk result (out.new.items ≡ out.old.items ++ signed_decimal n) }
    ensures err { OnErr result (out.new.items ≡ out.old.items) }
{
    let mut buffer = Buffer::new();
    put_text(out, buffer.format(n).as_bytes())
}
