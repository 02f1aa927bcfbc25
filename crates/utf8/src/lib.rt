// UTF-8 as RFC 3629 has it, and white space in it. A text is any bytes, and a part of one runs from a place up to another.
#![tactic(auto)]

ghost use Rattle.std.specs.Prelude.{◌≡◌, ℕ, true, false, [], ◌+◌, ◌≤◌, ◌<◌, length};
ghost use Rattle.utf8.specs.Utf8.{is_utf8};
ghost use Rattle.utf8.specs.White.{white1, white2, white3, in2000, white_len, leading, trim_end, trim};
ghost use Rattle.utf8.specs.Part.{part};
ghost use Rattle.utf8.specs.Places.{First};
ghost use Rattle.utf8.specs.Contract.{due_of, Follows, Ends};

// What must still come of a character: how many bytes, and where the next of them lies. Those behind it may be any tail.
#[derive(Clone, Copy)]
struct Due {
    left: u8,
    low: u8,
    high: u8,
}

// What must come behind a first byte; none where no character begins so.
#[tactic(auto, using(crate::proofs::Rows::firsts))]
fn first(b: u8) -> Option<Due>
    ensures { Follows [] b result }
{
    let (left, low, high) = match b {
        0x00..=0x7f => (0, 0x80, 0xbf),
        0xc2..=0xdf => (1, 0x80, 0xbf),
        // E0 leaves out what two bytes can say.
        0xe0 => (2, 0xa0, 0xbf),
        0xe1..=0xec => (2, 0x80, 0xbf),
        // ED leaves out the surrogates.
        0xed => (2, 0x80, 0x9f),
        0xee..=0xef => (2, 0x80, 0xbf),
        0xf0 => (3, 0x90, 0xbf),
        0xf1..=0xf3 => (3, 0x80, 0xbf),
        0xf4 => (3, 0x80, 0x8f),
        _ => return None,
    };
    Some(Due { left, low, high })
}

impl Due {
    // What must come behind one more byte; none where that byte may not come.
    #[tactic(auto, using(crate::proofs::Rows::nexts))]
    fn next(self, b: u8) -> Option<Due>
        ensures { Follows (due_of self.left self.low self.high) b result }
    {
        if self.left == 0 {
            return first(b);
        }
        if !(self.low..=self.high).contains(&b) {
            return None;
        }
        Some(Due {
            left: self.left - 1,
            low: 0x80,
            high: 0xbf,
        })
    }
}

/// Whether a text is UTF-8 as RFC 3629 has it, which leaves out surrogates and longer forms than a character needs.
// Most are ASCII, and the others are read byte by byte: std's `from_utf8` takes from three to ten times the instructions.
#[tactic(auto, using(crate::proofs::Rows::ended), unfolding(crate::specs::Utf8::is_utf8))]
pub fn is_utf8(text: &[u8]) -> bool
    ensures { result ≡ is_utf8 text.now }
{
    if text.is_ascii() {
        return true;
    }
    let mut due = Due {
        left: 0,
        low: 0x80,
        high: 0xbf,
    };
    for &b in text {
        let Some(then) = due.next(b) else {
            return false;
        };
        due = then;
    }
    due.left == 0
}

// Bytes that neither begin a white space character nor end one: most that are looked at for one.
fn visible(b: u8) -> bool
    ensures { result ≡ true → (0x20 < b) × (b < 0x80) }
{
    matches!(b, 0x21..=0x7f)
}

// White space characters of one byte, of two and of three.
#[tactic(auto, unfolding(crate::specs::White::white1, crate::specs::Utf8::within))]
fn one_byte(a: u8) -> bool
    ensures { result ≡ white1 a }
{
    matches!(a, 0x09..=0x0d | 0x20)
}

#[tactic(auto, unfolding(crate::specs::White::white2))]
fn two_bytes(a: u8, b: u8) -> bool
    ensures { result ≡ white2 a b }
{
    a == 0xc2 && matches!(b, 0x85 | 0xa0)
}

#[tactic(auto, unfolding(crate::specs::White::white3))]
fn three_bytes(a: u8, b: u8, c: u8) -> bool
    ensures { result ≡ white3 a b c }
{
    match a {
        0xe1 => b == 0x9a && c == 0x80,
        0xe2 => (b == 0x80 && in_2000(c)) || (b == 0x81 && c == 0x9f),
        0xe3 => b == 0x80 && c == 0x80,
        _ => false,
    }
}

// 2000 to 200A, 2028, 2029, 202F, by the last byte.
#[tactic(auto, unfolding(crate::specs::White::in2000, crate::specs::Utf8::within))]
fn in_2000(c: u8) -> bool
    ensures { result ≡ in2000 c }
{
    // A test by itself: in one pattern with the others it costs a fifth more instructions a character.
    if c <= 0x8a {
        return 0x80 <= c;
    }
    matches!(c, 0xa8 | 0xa9 | 0xaf)
}

/// How many bytes the white space character has that stands at `at`, in the part up to `to`; 0 where none does.
// A number, and no Option, as the definition tells it. From here on a part is a text and two places, and no slice: rows name places of the whole
// text, and places are what is answered. A slice would be made anew for each call, and its places counted back.
#[tactic(auto, using(crate::proofs::Turns::whites))]
pub fn white_at(s: &[u8], at: usize, to: usize) -> usize
    requires { (at ≤ to) × (to ≤ length s.now) }
    ensures value { result ≡ white_len (part s.now at to) }
    ensures within { at + result ≤ to }
{
    match &s[at..to] {
        [a, ..] if one_byte(*a) => 1,
        [a, b, ..] if two_bytes(*a, *b) => 2,
        [a, b, c, ..] if three_bytes(*a, *b, *c) => 3,
        _ => 0,
    }
}

// How many bytes the white space character has that ends at `to` and begins at `from` or later; 0 where none does, as before one. Its own bytes
// show it, whatever stands before them: none of its first bytes stands inside another white space character.
fn white_before(s: &[u8], from: usize, to: usize) -> usize
    requires { (from ≤ to) × (to ≤ length s.now) }
    ensures { Ends s.now from to result }
{
    (1..4)
        .find(|&n| n <= to - from && white_at(s, to - n, to) == n)
        .unwrap_or(0)
}

/// Where the leading white space of a part ends.
// A loop, as each character has one to three bytes; std trims texts alone, and these are any bytes.
pub fn trim_start(s: &[u8], from: usize, to: usize) -> usize
    requires { (from ≤ to) × (to ≤ length s.now) }
    ensures value { result ≡ from + leading (part s.now from to) }
    ensures within { (from ≤ result) × (result ≤ to) }
{
    let mut at = from;
    while at < to {
        if visible(s[at]) {
            break;
        }
        let n = white_at(s, at, to);
        if n == 0 {
            break;
        }
        at += n;
    }
    at
}

/// Where a part ends without the white space at its end. It goes back from `to`, so that a long part costs only what is trimmed.
// A loop, as `trim_start`.
pub fn trim_end(s: &[u8], from: usize, to: usize) -> usize
    requires { (from ≤ to) × (to ≤ length s.now) }
    ensures value { result ≡ from + length (trim_end (part s.now from to)) }
    ensures within { (from ≤ result) × (result ≤ to) }
{
    let mut end = to;
    while end > from {
        if visible(s[end - 1]) {
            break;
        }
        let n = white_before(s, from, end);
        if n == 0 {
            break;
        }
        end -= n;
    }
    end
}

/// The first place from `from` on and before `to` that passes a test, or `to`.
// A `while`: std's `find` over a range takes two instructions more for each place. Scans of lines, scalars and flow collections stand on this
// one and would miss their bars of speed.
pub fn first_place<F: Fn(usize) -> bool>(from: usize, to: usize, test: F) -> usize
    requires order { from ≤ to }
    requires callable { (k : ℕ) → from ≤ k → k < to → F.pre test k }
    ensures { First (λ k. F.post test k true) (λ k. F.post test k false) from to result }
{
    let mut place = from;
    while place < to {
        let passes = test(place);
        if passes {
            break;
        }
        place += 1;
    }
    place
}

/// A text without the white space at both ends, lent from the text itself.
pub fn trimmed(s: &[u8]) -> &[u8]
    ensures result_value { result.now ≡ trim s.now }
    ensures within { length result.now ≤ length s.now }
{
    let from = trim_start(s, 0, s.len());
    let to = trim_end(s, from, s.len());
    &s[from..to]
}
