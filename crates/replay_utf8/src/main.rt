// Runs utf8 over every code point, over sequences of boundary bytes, and over the parts of sequences of white and other pieces,
// and prints what it finds: where answers change, how many are accepted, and hashes of all answers.
#![tactic(auto)]

ghost use Rattle.std.specs.Prelude.{◌≤◌, length};

use std::io;

// Beyond the last code point.
const TOP: u32 = 0x120000;

// Bytes at which RFC 3629's ranges begin and end, with their neighbours.
const EDGES: [u8; 24] = [
    0x00, 0x7f, 0x80, 0x8f, 0x90, 0x9f, 0xa0, 0xbf, 0xc0, 0xc1, 0xc2, 0xdf, 0xe0, 0xe1, 0xec, 0xed,
    0xee, 0xef, 0xf0, 0xf1, 0xf3, 0xf4, 0xf5, 0xff,
];

// How many sequences of boundary bytes there are, by their length.
const SEQUENCES: [usize; 5] = [1, 24, 576, 13824, 331776];

// White space, other characters, and characters that are cut off.
const PIECES: [&[u8]; 17] = [
    b"a",
    b" ",
    b"\t",
    b"\xc2\xa0",
    b"\xc2\x85",
    b"\xe1\x9a\x80",
    b"\xe2\x80\x80",
    b"\xe2\x80\xa8",
    b"\xe2\x81\x9f",
    b"\xe3\x80\x80",
    b"\xc3\xa9",
    b"\xe2\x80\x8b",
    b"\xc2",
    b"\xe2",
    b"\xe2\x80",
    b"\x80",
    b"\xa0",
];

// A code point's bytes, and zeros behind them.
#[derive(Clone, Copy)]
struct Encoded {
    bytes: [u8; 4],
    len: usize,
    ghost fits: { len ≤ 4 },
}

fn low(number: u32) -> u8 {
    (number % 256) as u8
}

fn tail(code_point: u32) -> u8 {
    low(0x80 + code_point % 64)
}

impl Encoded {
    // By the bit layout of RFC 3629, section 3, surrogates and numbers above 10FFFF too.
    fn of(code_point: u32) -> Encoded {
        match code_point {
            0..=0x7f => Encoded {
                bytes: [low(code_point), 0, 0, 0],
                len: 1,
            },
            0x80..=0x7ff => Encoded {
                bytes: [low(0xc0 + code_point / 64), tail(code_point), 0, 0],
                len: 2,
            },
            0x800..=0xffff => Encoded {
                bytes: [
                    low(0xe0 + code_point / 4096),
                    tail(code_point / 64),
                    tail(code_point),
                    0,
                ],
                len: 3,
            },
            _ => Encoded {
                bytes: [
                    low(0xf0 + code_point / 262144 % 8),
                    tail(code_point / 4096),
                    tail(code_point / 64),
                    tail(code_point),
                ],
                len: 4,
            },
        }
    }

    fn as_bytes(&self) -> &[u8] {
        &self.bytes[..self.len]
    }
}

fn is_white(bytes: &[u8]) -> bool {
    utf8::white_at(bytes, 0, bytes.len()) == bytes.len()
}

// Prints where the answers change. How many code points are accepted.
fn print_runs(rt: &impl Print) -> io::Result<u32> {
    let mut accepted = 0;
    let mut before = false;
    for code_point in 0..TOP {
        let now = utf8::is_utf8(Encoded::of(code_point).as_bytes());
        if now && !before {
            println!(rt; "accepted from {code_point:04x}")?;
        }
        if before && !now {
            println!(rt; "refused from {code_point:04x}")?;
        }
        accepted += u32::from(now);
        before = now;
    }
    Ok(accepted)
}

fn print_whites(rt: &impl Print) -> io::Result<()> {
    for code_point in (0..TOP).filter(|&code_point| is_white(Encoded::of(code_point).as_bytes())) {
        println!(rt; "white {code_point:04x}")?;
    }
    Ok(())
}

fn edge(number: usize) -> u8 {
    EDGES[number % EDGES.len()]
}

// Whether the sequence of `len` boundary bytes is accepted that has this number, the first byte counting fastest.
fn edges_accepted(number: usize, len: usize) -> bool
    requires { len ≤ 4 }
{
    let bytes = [
        edge(number),
        edge(number / SEQUENCES[1]),
        edge(number / SEQUENCES[2]),
        edge(number / SEQUENCES[3]),
    ];
    utf8::is_utf8(&bytes[..len])
}

fn mix(hash: u32, answer: u32) -> u32 {
    hash.wrapping_mul(31).wrapping_add(answer)
}

fn print_edges(rt: &impl Print, len: usize, total: usize) -> io::Result<()>
    requires { len ≤ 4 }
{
    let mut accepted = 0;
    let mut hash = 0;
    for number in 0..total {
        let answer = edges_accepted(number, len);
        accepted += usize::from(answer);
        hash = mix(hash, u32::from(answer));
    }
    println!(rt; "sequences of boundary bytes accepted {accepted}")?;
    println!(rt; "hash {hash}")
}

// The two places of a trimmed part, in one number.
fn places(bytes: &[u8], from: usize, to: usize) -> u32
    requires { (to ≤ 16) × (to ≤ length bytes.now) }
{
    if from > to {
        return 0;
    }
    let start = utf8::trim_start(bytes, from, to);
    let end = utf8::trim_end(bytes, from, to);
    (start * 256 + end) as u32
}

// Every part of the bytes, also one that cuts a character off.
fn hash_parts(bytes: &[u8; 16], mut hash: u32) -> u32 {
    for from in 0..=16 {
        for to in 0..=16 {
            hash = mix(hash, places(bytes, from, to));
        }
    }
    hash
}

fn piece(number: usize) -> &'static [u8] {
    PIECES[number % PIECES.len()]
}

// Three pieces in a row, by the number of the sequence, and zeros behind them.
fn pieces(number: usize) -> [u8; 16] {
    let mut bytes = [0; 16];
    let three = [
        piece(number),
        piece(number / PIECES.len()),
        piece(number / PIECES.len().pow(2)),
    ];
    for (place, &byte) in bytes.iter_mut().zip(three.iter().copied().flatten()) {
        *place = byte;
    }
    bytes
}

fn main(rt: HostRuntime) -> io::Result<()> {
    println!(rt; "accepted {}", print_runs(&rt)?)?;
    print_whites(&rt)?;
    for (len, &total) in SEQUENCES.iter().enumerate() {
        print_edges(&rt, len, total)?;
    }
    let sequences = PIECES.len().pow(3);
    let hash = (0..sequences).fold(0, |hash, number| hash_parts(&pieces(number), hash));
    println!(rt; "trims, hash {hash}")
}
