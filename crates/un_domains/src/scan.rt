//! Bits in words of 64: bit `i` of a list of words is bit `i % 64` of word `i / 64`.

ghost use Rattle.std.specs.Prelude.{◌≡◌, ℕ, ◌+◌, ◌-◌, ◌*◌, ◌%◌, ◌^◌, ◌<◌, ◌≤◌, List, length, true, false};
ghost use Rattle.std.specs.Int.Count.{ones};
ghost use Rattle.un_domains.specs.Bits.{bit, members};

/// How many bits a word has.
pub(crate) const WORD: usize = 64;

/// Whether bit `i` is set.
pub fn test(words: &[u64], i: usize) -> bool
    requires { i < 64 * length words.now }
    ensures { result ≡ bit words.now i }
{
    (words[i / WORD] >> (i % WORD)) & 1 == 1
}

/// The `width` low bits of a word.
fn low_bits(word: u64, width: usize) -> u64
    requires { width ≤ 64 }
    ensures { result ≡ word % 2 ^ width }
{
    if width < WORD {
        word & ((1 << width) - 1)
    } else {
        word
    }
}

/// The first bit that is set from `from` on, or `end`. It passes a word at a time.
pub fn next_set(words: &[u64], from: usize, end: usize) -> usize
    requires within { end ≤ 64 * length words.now }
    requires order { from ≤ end }
    requires small { end ≤ 2 ^ 32 }
    ensures low { from ≤ result }
    ensures high { result ≤ end }
    ensures passed { (i : ℕ) → from ≤ i → i < result → bit words.now i ≡ false }
    ensures found { result < end → bit words.now result ≡ true }
{
    let mut at = from;
    while at < end {
        let rest = words[at / WORD] >> (at % WORD);
        if rest != 0 {
            let place = at + rest.trailing_zeros() as usize;
            return place.min(end);
        }
        at = (at / WORD + 1) * WORD;
    }
    end
}

/// One more than the last bit that is set before `from`, or `lo`. It passes a word at a time.
pub(crate) fn last_set(words: &[u64], lo: usize, from: usize) -> usize
    requires within { from ≤ 64 * length words.now }
    requires order { lo ≤ from }
    ensures low { lo ≤ result }
    ensures high { result ≤ from }
    ensures passed { (i : ℕ) → result ≤ i → i < from → bit words.now i ≡ false }
    ensures found { lo < result → bit words.now (result - 1) ≡ true }
{
    let mut at = from;
    while lo < at {
        let last = at - 1;
        let start = last / WORD * WORD;
        let rest = low_bits(words[last / WORD], last % WORD + 1);
        if rest != 0 {
            let place = start + (WORD - rest.leading_zeros() as usize);
            return place.max(lo);
        }
        at = start;
    }
    lo
}

/// How many bits are set from `lo` to `end`, word by word.
pub fn count(words: &[u64], lo: usize, end: usize) -> usize
    requires within { end ≤ 64 * length words.now }
    requires order { lo ≤ end }
    requires small { end ≤ 2 ^ 32 }
    ensures { result ≡ length (members words.now lo end) }
{
    let mut at = lo;
    let mut total = 0;
    while at < end {
        let next = ((at / WORD + 1) * WORD).min(end);
        let rest = words[at / WORD] >> (at % WORD);
        total += low_bits(rest, next - at).count_ones() as usize;
        at = next;
    }
    total
}
