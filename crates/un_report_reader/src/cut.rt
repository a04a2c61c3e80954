//! Words and numbers at the front of a text.

ghost use Rattle.std.specs.Prelude.{◌≡◌, ◌≢◌, ℕ, ◌<◌, List, ◌∷◌, ◌++◌, IfSome, IfNone, IsTrue, ◌↔◌};
ghost use Rattle.un_report_reader.specs.Parts.{IsField, IsWithin, IsNumber};

use un_base::decimal::read_decimal;
use un_base::lines::cut;

/// What stands behind these first bytes.
pub(crate) fn after<'a>(text: &'a [u8], start: &[u8]) -> Option<&'a [u8]>
    ensures some { IfSome result (λ rest. text.now ≡ start.now ++ rest.now) }
    ensures none { IfNone result ((rest : List ℕ) → text.now ≢ start.now ++ rest) }
{
    text.strip_prefix(start)
}

/// What stands between these first bytes and the first byte `end` behind them, and what stands behind that.
pub fn field<'a>(text: &'a [u8], start: &[u8], end: u8) -> Option<(&'a [u8], &'a [u8])>
    ensures some { IfSome result (λ p. IsField text.now start.now end p.0.now p.1.now) }
    ensures none { IfNone result ((word rest : List ℕ) → text.now ≢ start.now ++ (word ++ end ∷ rest)) }
{
    let rest = after(text, start)?;
    let (word, left) = cut(rest, end)?;
    Some((word, left))
}

/// Whether a number is from `least` to `most`.
fn within(n: u64, least: u64, most: u64) -> bool
    ensures { IsTrue result ↔ IsWithin least most n }
{
    least <= n && n <= most
}

/// The number from `least` to `most` between these first bytes and the byte `end`, and what stands behind that.
pub fn number<'a>(
    text: &'a [u8],
    start: &[u8],
    end: u8,
    least: u64,
    most: u64,
) -> Option<(u64, &'a [u8])>
    requires { end < 48 }
    ensures some { IfSome result (λ p. IsWithin least most p.0 × IsNumber text.now start.now end p.0 p.1.now) }
    ensures none { IfNone result ((n : ℕ) (rest : List ℕ) → IsWithin least most n → ¬ IsNumber text.now start.now end n rest) }
{
    let (word, rest) = field(text, start, end)?;
    let n = read_decimal(word)?;
    if !within(n, least, most) {
        return None;
    }
    Some((n, rest))
}
