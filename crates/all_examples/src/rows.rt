//! What the examples return and leave in memory from some starts, as `bench/twins.c` prints it.

/// How many numbers a row has.
pub const NUMBERS: usize = 21;

/// A run of an example: its three arguments, the eight words of memory from byte 256 on before it, what it returns, or 0 where
/// it returns nothing, the words after it, and how many calls it makes.
pub type Row = [u32; NUMBERS];

/// The rows, a line each: the name of the example, and the numbers.
pub static ROWS: &str = "\
absolute 5 0 0 2 3 5 7 11 13 17 19 5 2 3 5 7 11 13 17 19 0
absolute 4294967291 0 0 2 3 5 7 11 13 17 19 5 2 3 5 7 11 13 17 19 0
absolute 2147483648 0 0 2 3 5 7 11 13 17 19 2147483648 2 3 5 7 11 13 17 19 0
checksum 256 8 0 9 4294967295 65536 7 3 65537 0 5 74548813 9 4294967295 65536 7 3 65537 0 5 0
checksum 256 0 0 9 4294967295 65536 7 3 65537 0 5 4294967295 9 4294967295 65536 7 3 65537 0 5 0
copy 256 272 4 9 4294967295 65536 7 3 65537 0 5 272 3 65537 0 5 3 65537 0 5 0
copy 260 256 3 2 3 5 7 11 13 17 19 272 2 2 2 2 11 13 17 19 0
copy 256 272 4294967295 2 3 5 7 11 13 17 19 256 2 3 5 7 11 13 17 19 0
dot 256 272 4 9 4294967295 65536 7 3 65537 0 5 4294901821 9 4294967295 65536 7 3 65537 0 5 0
dot 256 260 0 2 3 5 7 11 13 17 19 6 2 3 5 7 11 13 17 19 0
gcd 12 18 0 2 3 5 7 11 13 17 19 6 2 3 5 7 11 13 17 19 0
gcd 7 7 0 2 3 5 7 11 13 17 19 7 2 3 5 7 11 13 17 19 0
gcd 35 64 0 2 3 5 7 11 13 17 19 1 2 3 5 7 11 13 17 19 0
grade 100 0 0 2 3 5 7 11 13 17 19 1 2 3 5 7 11 13 17 19 0
grade 89 0 0 2 3 5 7 11 13 17 19 2 2 3 5 7 11 13 17 19 0
grade 50 0 0 2 3 5 7 11 13 17 19 3 2 3 5 7 11 13 17 19 0
grade 4294967295 0 0 2 3 5 7 11 13 17 19 4 2 3 5 7 11 13 17 19 0
maximum 1 2 0 2 3 5 7 11 13 17 19 2 2 3 5 7 11 13 17 19 0
maximum 2 4294967295 0 2 3 5 7 11 13 17 19 2 2 3 5 7 11 13 17 19 0
pass 256 8 0 9 4294967295 65536 7 3 65537 0 5 0 4294967295 9 7 3 65536 0 5 65537 0
pass 256 1 0 9 4294967295 65536 7 3 65537 0 5 0 9 4294967295 65536 7 3 65537 0 5 0
population 0 0 0 2 3 5 7 11 13 17 19 0 2 3 5 7 11 13 17 19 0
population 4294967295 0 0 2 3 5 7 11 13 17 19 32 2 3 5 7 11 13 17 19 0
population 305419896 0 0 2 3 5 7 11 13 17 19 13 2 3 5 7 11 13 17 19 0
search 256 8 13 2 3 5 7 11 13 17 19 5 2 3 5 7 11 13 17 19 0
search 256 8 2 2 3 5 7 11 13 17 19 0 2 3 5 7 11 13 17 19 0
search 256 8 18 2 3 5 7 11 13 17 19 4294967295 2 3 5 7 11 13 17 19 0
sum 0 0 0 2 3 5 7 11 13 17 19 3 2 3 5 7 11 13 17 19 0
total 256 3 0 2 3 5 7 11 13 17 19 39 2 3 5 7 11 13 17 19 3
total 256 0 0 2 3 5 7 11 13 17 19 0 2 3 5 7 11 13 17 19 0
";

/// The row that numbers between blanks are.
fn row_of(numbers: &[u8]) -> Row {
    let mut row = [0u32; NUMBERS];
    let mut at: usize = 0;
    for byte in numbers {
        if *byte == b' ' {
            at = at.saturating_add(1);
        } else if at < NUMBERS {
            let digit = u32::from(byte.wrapping_sub(b'0'));
            row[at] = row[at].wrapping_mul(10).wrapping_add(digit);
        }
    }
    row
}

/// The row of a line, where it is one of the example of this name.
pub(crate) fn row_for(line: &[u8], name: &[u8]) -> Option<Row> {
    let numbers = line.strip_prefix(name)?.strip_prefix(b" ")?;
    Some(row_of(numbers))
}
