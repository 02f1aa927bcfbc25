// The lines of steps, among the lines of a text (document 01, section 4).
#![tactic(auto)]

ghost use Rattle.std.specs.Prelude.{◌≡◌, ◌+◌, ◌≤◌, ◌<◌, length, drop, MatchOption};
ghost use Rattle.lines.specs.Table.{line_at};
ghost use Rattle.step_lines.specs.StepLines.{is_steps, behind_steps};
ghost use Rattle.step_lines.specs.Contract.{Begins, Next};

use item::same_bytes;
use lines::Lines;

/// Where the steps begin: the line, and its indentation; the line behind the last, and 0, where there are none.
// No Option: `next_dash` from there on finds none, so a caller need not ask.
#[derive(Clone, Copy, Debug, PartialEq, Eq)]
pub struct Dashes {
    pub at: usize,
    pub indent: usize,
}

/// The number of a step's line in the text, and the line behind its dash. The number is 0 if it has none, as answers have it.
#[derive(Clone, Copy, Debug, PartialEq, Eq)]
pub struct StepLine {
    pub line: u32,
    pub next: usize,
}

// Whether a line is exactly `steps:` at indentation 0.
#[tactic(auto, using(crate::proofs::Laws::are_steps), unfolding(crate::specs::StepLines::is_steps, refusal::specs::Base::bytes))]
fn is_steps(lines: &Lines<'_, '_>, i: usize) -> bool
    requires { i < length lines.now }
    ensures { result ≡ is_steps (line_at lines.now i) }
{
    lines.indent(i) == 0 && same_bytes(lines.text(i), b"steps:")
}

// The first that is, if there is one.
fn steps_line(lines: &Lines<'_, '_>) -> Option<usize>
    ensures { MatchOption result (drop (length lines.now) lines.now ≡ behind_steps lines.now)
        (λ i. (i < length lines.now) × (drop (i + 1) lines.now ≡ behind_steps lines.now)) }
{
    (0..lines.len()).find(|&i| is_steps(lines, i))
}

// The line behind it.
fn behind_steps(lines: &Lines<'_, '_>) -> usize
    ensures { (drop result lines.now ≡ behind_steps lines.now) × (result ≤ length lines.now) }
{
    let count = lines.len();
    match steps_line(lines) {
        Some(i) => i + 1,
        None => count,
    }
}

/// Where the dashes of the steps stand, if there are any: behind the line `steps:`, at the indentation of the line there.
pub fn first_dash(lines: &Lines<'_, '_>) -> Dashes
    ensures { Begins lines.now (length lines.now) result }
{
    let at = behind_steps(lines);
    if at == lines.len() {
        return Dashes { at, indent: 0 };
    }
    Dashes {
        at,
        indent: lines.indent(at),
    }
}

/// The line of the next dash from line `i` on; 0 where none comes before a line less indented.
pub fn next_dash(lines: &Lines<'_, '_>, i: usize, indent: usize) -> StepLine
    requires { i ≤ length lines.now }
    ensures { Next lines.now (length lines.now) indent i result }
{
    let count = lines.len();
    let dash = (i..count)
        .take_while(|&d| lines.indent(d) >= indent)
        .find(|&d| lines.dash_at(d, indent));
    match dash {
        Some(d) => StepLine {
            line: lines.number(d),
            next: d + 1,
        },
        None => StepLine {
            line: 0,
            next: count,
        },
    }
}
