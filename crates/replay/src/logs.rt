// A hammer log against a microphone log.
ghost use Rattle.std.specs.Prelude.{◌≤◌};

use crate::print::{Spaced, front, mark_others};
use crate::stream::{number_at, put_numbers};
use console::Numbers;
use pair_logs::{PairAnswer, pair_logs};
use std::io;
use std::io::Write;

// More times than a log may have, and more places than a list can need.
const MOST: usize = 8256;

// So many numbers were written over sevens; those behind them must stay.
fn print_list(out: &mut impl Write, list: &[u32], count: usize) -> io::Result<()> {
    write!(out, " |{}", Spaced(front(list, count)))?;
    mark_others(out, list, count, 7)
}

fn print_answer(
    out: &mut impl Write,
    answer: PairAnswer,
    pairs: &[u32],
    lone_hammers: &[u32],
    lone_sounds: &[u32],
) -> io::Result<()> {
    match answer {
        PairAnswer::Paired {
            pairs: paired,
            lone_hammers: hammers,
            lone_sounds: sounds,
        } => {
            write!(out, "ok {paired} {hammers} {sounds}")?;
            print_list(out, pairs, paired.saturating_mul(2))?;
            print_list(out, lone_hammers, hammers)?;
            print_list(out, lone_sounds, sounds)
        }
        PairAnswer::Refused(e) => {
            write!(out, "refused {}", Numbers(e))?;
            mark_others(out, pairs, 0, 0)?;
            mark_others(out, lone_hammers, 0, 0)?;
            mark_others(out, lone_sounds, 0, 0)
        }
    }
}

// One of the numbers in front, or the most that there can be.
fn count_at(text: &[u8], at: usize) -> usize
    ensures { result ≤ 8256 }
{
    MOST.min(number_at(text, at) as usize)
}

// Of the numbers in front, the first two are how many hammers and sounds there are, the others how many places are lent.
pub(crate) fn print_logs(out: &mut impl Write, text: &[u8]) -> io::Result<()> {
    let mut hammers = [0u32; MOST];
    let mut sounds = [0u32; MOST];
    let mut pairs = [7u32; MOST];
    let mut lone_hammers = [7u32; MOST];
    let mut lone_sounds = [7u32; MOST];
    let hammers = &mut hammers[..count_at(text, 0)];
    let sounds = &mut sounds[..count_at(text, 4)];
    let pairs = &mut pairs[..count_at(text, 8)];
    let lone_hammers = &mut lone_hammers[..count_at(text, 12)];
    let lone_sounds = &mut lone_sounds[..count_at(text, 16)];
    put_numbers(text, 20, hammers);
    put_numbers(text, 20 + 4 * hammers.len(), sounds);
    let answer = pair_logs(hammers, sounds, pairs, lone_hammers, lone_sounds);
    print_answer(out, answer, pairs, lone_hammers, lone_sounds)
}
