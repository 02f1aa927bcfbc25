// Integers: decimal digits read and written. They are written into `out` from `at` on, since the writer, which keeps both, stands above.
#![tactic(auto)]

ghost use Rattle.std.specs.Prelude.{◌≡◌, ◌+◌, ◌≤◌, length};
ghost use Rattle.std.proofs.lemmas.List.Edits.{sets};
ghost use Rattle.item.specs.Encode.{signed};
ghost use Rattle.number.specs.Integers.{zero_first, digits, integer, decimal_of, int_text};
ghost use Rattle.number.specs.Code.{int_of, number_of, at_most, bounded, minused};

use item::Integer;

// Whether a text is several bytes, of which the first is a zero.
#[tactic(auto, using(crate::proofs::Laws::zeros))]
fn zero_first(t: &[u8]) -> bool
    ensures { result ≡ zero_first t.now }
{
    matches!(t, [b'0', _, ..])
}

// The number that digits make, one or several of which the first is no zero, if it is at most `limit`.
fn digits(t: &[u8], limit: u64) -> Option<u64>
    ensures { number_of result ≡ at_most limit (digits t.now) }
{
    if t.is_empty() || zero_first(t) {
        return None;
    }
    let mut number: u64 = 0;
    for &b in t {
        if !b.is_ascii_digit() {
            return None;
        }
        number = number.checked_mul(10)?.checked_add(u64::from(b - b'0'))?;
    }
    (number <= limit).then_some(number)
}

// Whether a text has a minus, the digits behind it, and the most that they may make.
fn sign_of(t: &[u8]) -> (bool, &[u8], u64)
    ensures { integer t.now ≡ bounded result.0 result.2 (digits result.1.now) }
{
    match t {
        [b'-', digits @ ..] => (true, digits, i64::MIN.unsigned_abs()),
        _ => (false, t, i64::MAX.unsigned_abs()),
    }
}

/// The integer that a text says by an optional minus and decimal digits, if it has 64 bits. A first zero before other digits makes it
/// none, as does a plus; `-0` is one.
#[tactic(auto, using(crate::proofs::Laws::none_signed, crate::proofs::Laws::some_signed))]
pub fn integer(t: &[u8]) -> Option<Integer>
    ensures { int_of result ≡ integer t.now }
{
    let (negative, number, limit) = sign_of(t);
    let magnitude = digits(number, limit)?;
    Some(Integer {
        negative,
        magnitude,
    })
}

// How many decimal digits a number has; 0 has one.
fn decimal_len(n: u64) -> usize
    ensures length { result ≡ length (decimal_of 20 n) }
    ensures at_most { result ≤ 20 }
{
    n.max(1).ilog10() as usize + 1
}

// A number's decimal digits, from the last to the first; by index, since what is written through an iterator from the end is not known
// afterwards.
#[tactic(auto, using(crate::proofs::Laws::digits_ahead))]
fn put_decimal(out: &mut [u8], at: usize, n: u64)
    requires { at + length (decimal_of 20 n) ≤ length out.old }
    ensures { out.new ≡ sets out.old at (decimal_of 20 n) }
{
    let mut left = n;
    for i in (at..at + decimal_len(n)).rev() {
        out[i] = b'0' + (left % 10) as u8;
        left /= 10;
    }
}

// Whether an integer's text has a minus: that of `-0` has none.
fn shows_minus(n: Integer) -> bool
    ensures { int_text (signed n.negative n.magnitude) ≡ minused result (decimal_of 20 n.magnitude) }
{
    n.negative && n.magnitude != 0
}

/// How many bytes the text has that `put_int_text` writes.
pub fn int_len(n: Integer) -> usize
    ensures length { result ≡ length (int_text (signed n.negative n.magnitude)) }
    ensures at_most { result ≤ 21 }
{
    usize::from(shows_minus(n)) + decimal_len(n.magnitude)
}

/// Writes an integer's decimal digits at `at`, with a minus before them if it is below 0.
pub fn put_int_text(out: &mut [u8], at: usize, n: Integer)
    requires { at + length (int_text (signed n.negative n.magnitude)) ≤ length out.old }
    ensures { out.new ≡ sets out.old at (int_text (signed n.negative n.magnitude)) }
{
    if shows_minus(n) {
        out[at] = b'-';
        put_decimal(out, at + 1, n.magnitude);
    } else {
        put_decimal(out, at, n.magnitude);
    }
}
