// The search for a key's end: the first colon outside quotes and brackets that is last or stands before a space.
ghost use Rattle.std.specs.Prelude.{◌≡◌, ℕ, Option, ◌≤◌, ◌<◌, ◌^◌, length, drop};
ghost use Rattle.scalar.specs.Key.{quote_after, depth_after, qualifies, key_end_from, key_end};
ghost use Rattle.scalar.specs.Code.{found_of, byte_of, open_of};

use super::Quote;
use item::Found;
use utf8::first_place;

impl Quote {
    // The byte that opens a string and closes it.
    fn byte(self) -> u8
        ensures { result ≡ byte_of self }
    {
        match self {
            Quote::Single => b'\'',
            Quote::Double => b'"',
        }
    }
}

// The quote that is open behind the byte `b`. A quote opens anywhere, and `\` hides none.
#[tactic(auto, unfolding(crate::specs::Key::quote_after))]
fn quote_after(quote: Option<Quote>, b: u8) -> Option<Quote>
    ensures { open_of result ≡ quote_after (open_of quote) b }
{
    match quote {
        None => match b {
            b'\'' => Some(Quote::Single),
            b'"' => Some(Quote::Double),
            _ => None,
        },
        Some(q) => {
            let closes = b == q.byte();
            if closes { None } else { quote }
        }
    }
}

// How many brackets are open behind the byte `b`. Either closer ends either bracket, and one too many does nothing.
#[tactic(auto, unfolding(crate::specs::Key::depth_after, crate::specs::Key::opens, crate::specs::Key::closes))]
fn depth_after(quote: Option<Quote>, depth: usize, b: u8) -> usize
    requires { depth < 2 ^ 16 }
    ensures { result ≡ depth_after (open_of quote) depth b }
{
    if quote.is_some() {
        return depth;
    }
    match b {
        b'{' | b'[' => depth + 1,
        b'}' | b']' => depth.saturating_sub(1),
        _ => depth,
    }
}

// Whether a colon that qualifies stands at `i`.
#[tactic(auto, using(crate::proofs::KeyLaws::colons))]
fn colon_at(s: &[u8], quote: Option<Quote>, depth: usize, i: usize) -> bool
    requires { i < length s.now }
    ensures { result ≡ qualifies (open_of quote) depth (drop i s.now) }
{
    if quote.is_some() || s[i] != b':' || depth != 0 {
        return false;
    }
    i + 1 == s.len() || s[i + 1] == b' '
}

// Where the next byte stands at which the search does something, a colon, a quote or a bracket, or the text's end.
fn skip_passed(s: &[u8], from: usize) -> usize
    requires { from ≤ length s.now }
    ensures in_range { (from ≤ result) × (result ≤ length s.now) }
    ensures same { (quote : Option Quote) (depth : ℕ)
        → key_end_from (open_of quote) depth result (drop result s.now) ≡ key_end_from (open_of quote) depth from (drop from s.now) }
{
    first_place(from, s.len(), |i| {
        matches!(s[i], b':' | b'\'' | b'"' | b'{' | b'}' | b'[' | b']')
    })
}

/// Where the colon stands that ends a key: the first outside quotes and brackets that is last or stands before a space.
// A loop that yields the place by `break`: it carries the quote and the depth from mark to mark.
pub fn key_end(s: &[u8]) -> Found
    requires { length s.now ≤ 65535 }
    ensures { result ≡ found_of (key_end s.now) }
{
    let mut quote = None;
    let mut depth: usize = 0;
    let mut i: usize = 0;
    loop {
        i = skip_passed(s, i);
        if i >= s.len() {
            break Found::Nothing;
        }
        if colon_at(s, quote, depth, i) {
            break Found::At(i);
        }
        let b = s[i];
        depth = depth_after(quote, depth, b);
        quote = quote_after(quote, b);
        i += 1;
    }
}
