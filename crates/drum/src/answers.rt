// What the answer of each job is in five numbers.
#![tactic(auto, unfolding(crate::specs::Numbers::numbers, crate::specs::Numbers::of_none, crate::specs::Numbers::of_one, crate::specs::Numbers::of_three, crate::specs::Numbers::of_four, crate::specs::Numbers::of_found))]

ghost use Rattle.std.specs.Prelude.{◌≡◌, ℕ, ◌<◌, ◌^◌, List, [], ◌∷◌};
ghost use Rattle.refusal.specs.Told.{told_of};
ghost use Rattle.tree.specs.Tree as trees;
ghost use Rattle.scenario.specs.Scenario as scenarios;
ghost use Rattle.record.specs.Jobs as records;
ghost use Rattle.check_steps.specs.CheckSteps as checks;
ghost use Rattle.lookups.specs.Lookups as lookups;
ghost use Rattle.share.specs.Share as shares;
ghost use Rattle.pair_logs.specs.PairLogs as pairings;
ghost use Rattle.panel.specs.Jobs as panels;
ghost use Rattle.drum.specs.Numbers.{numbers, of_none, of_one, of_three, of_four, of_found, first_of};

use check_steps::StepsAnswer;
use lookups::TimesAnswer;
use pair_logs::PairAnswer;
use panel::{PanelName, PanelStep};
use record::{Lookup, RecordAnswer};
use refusal::Refusal;
use scenario::ScenarioAnswer;
use share::ShareAnswer;
use tree::TreeAnswer;

// How a job ended: the first number of an answer.
#[derive(Clone, Copy)]
enum State {
    Accepted = 0,
    Refused = 1,
    Nothing = 2,
}

/// The answer of a job, which is told in five numbers.
pub trait Answer {
    ghost as_told: { Self → List ℕ };

    /// Those numbers; the first is the result too.
    fn numbers(self) -> [u64; 5]
        ensures told { result ≡ as_told self }
        ensures first { first_of result < 2 ^ 32 };
}

// What a job gives, in up to four numbers.
fn accepted(a: usize, b: usize, c: usize, d: usize) -> [u64; 5]
    ensures { result ≡ 0 ∷ a ∷ b ∷ c ∷ d ∷ [] }
{
    [
        State::Accepted as u64,
        a as u64,
        b as u64,
        c as u64,
        d as u64,
    ]
}

// A refusal in five numbers, of any job.
fn refused(e: Refusal) -> [u64; 5]
    ensures { result ≡ 1 ∷ (told_of e).number ∷ (told_of e).line ∷ (told_of e).step ∷ 0 ∷ [] }
{
    let told = e.told();
    [
        State::Refused as u64,
        u64::from(told.number),
        u64::from(told.line),
        u64::from(told.step),
        0,
    ]
}

impl Answer for TreeAnswer {
    ghost as_told = { λ a. numbers of_one (trees.answer_of a) };

    fn numbers(self) -> [u64; 5] {
        match self {
            TreeAnswer::Read { bytes } => accepted(bytes, 0, 0, 0),
            TreeAnswer::Refused(e) => refused(e),
        }
    }
}

impl Answer for ScenarioAnswer {
    ghost as_told = { λ a. numbers of_four (scenarios.answer_of a) };

    fn numbers(self) -> [u64; 5] {
        match self {
            ScenarioAnswer::Read {
                tree_bytes,
                record_bytes,
                line_bytes,
                steps,
            } => accepted(tree_bytes, record_bytes, line_bytes, steps),
            ScenarioAnswer::Refused(e) => refused(e),
        }
    }
}

impl Answer for RecordAnswer {
    ghost as_told = { λ a. numbers of_one (records.answer_of a) };

    fn numbers(self) -> [u64; 5] {
        match self {
            RecordAnswer::Good { steps } => accepted(steps, 0, 0, 0),
            RecordAnswer::Refused(e) => refused(e),
        }
    }
}

impl Answer for StepsAnswer {
    ghost as_told = { λ a. numbers of_one (checks.answer_of a) };

    fn numbers(self) -> [u64; 5] {
        match self {
            StepsAnswer::Good { steps } => accepted(steps, 0, 0, 0),
            StepsAnswer::Refused(e) => refused(e),
        }
    }
}

impl Answer for Lookup {
    ghost as_told = { λ a. numbers of_found (records.lookup_of a) };

    fn numbers(self) -> [u64; 5] {
        match self {
            Lookup::Found { start, end } => accepted(start, end, 0, 0),
            Lookup::Nothing => [State::Nothing as u64, 0, 0, 0, 0],
            Lookup::Refused(e) => refused(e),
        }
    }
}

impl Answer for TimesAnswer {
    ghost as_told = { λ a. numbers of_one (lookups.times_of a) };

    fn numbers(self) -> [u64; 5] {
        match self {
            TimesAnswer::Times(n) => accepted(n as usize, 0, 0, 0),
            TimesAnswer::Refused(e) => refused(e),
        }
    }
}

// The eight strokes are no part of what is told, so none stand here.
impl Answer for ShareAnswer {
    ghost as_told = { λ a. numbers of_none (shares.answer_of a []) };

    fn numbers(self) -> [u64; 5] {
        match self {
            ShareAnswer::Given => accepted(0, 0, 0, 0),
            ShareAnswer::Refused(e) => refused(e),
        }
    }
}

impl Answer for PairAnswer {
    ghost as_told = { λ a. numbers of_three (pairings.answer_of a) };

    fn numbers(self) -> [u64; 5] {
        match self {
            PairAnswer::Paired {
                pairs,
                lone_hammers,
                lone_sounds,
            } => accepted(pairs, lone_hammers, lone_sounds, 0),
            PairAnswer::Refused(e) => refused(e),
        }
    }
}

impl Answer for PanelName {
    ghost as_told = { λ a. numbers of_three (panels.name_of a) };

    fn numbers(self) -> [u64; 5] {
        match self {
            PanelName::Named { start, end, steps } => accepted(start, end, steps, 0),
            PanelName::Refused(e) => refused(e),
        }
    }
}

impl Answer for PanelStep {
    ghost as_told = { λ a. numbers of_four (panels.step_of a) };

    fn numbers(self) -> [u64; 5] {
        match self {
            PanelStep::Found {
                name_start,
                name_end,
                id_start,
                id_end,
            } => accepted(name_start, name_end, id_start, id_end),
            PanelStep::Refused(e) => refused(e),
        }
    }
}
