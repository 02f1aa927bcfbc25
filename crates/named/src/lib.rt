// Which lines and steps the answers name (document 01, "Answers"): the same of every job, proved from the contracts of the jobs alone. Each
// function is a statement about one job, so none stands for another.
#![tactic(auto, using(crate::proofs::Named::jobs))]

ghost use Rattle.tree.specs.Tree as trees;
ghost use Rattle.scenario.specs.Scenario as scenarios;
ghost use Rattle.record.specs.Jobs.{answer_of, lookup_of};
ghost use Rattle.check_steps.specs.CheckSteps as steps;
ghost use Rattle.lookups.specs.Lookups.{times_of};
ghost use Rattle.named.specs.Named.{Names};

use check_steps::{StepsAnswer, check_steps};
use lookups::{TimesAnswer, step_by_id, times, value_by_key};
use record::{Lookup, RecordAnswer, check_record, field, step};
use scenario::{ScenarioAnswer, read_scenario};
use tree::{TreeAnswer, read_tree};

/// What reading a tree names.
pub fn of_tree(text: &[u8], work: &mut [u8]) -> TreeAnswer
    ensures { Names (trees.answer_of result) }
{
    read_tree(text, work)
}

/// What reading a scenario names.
pub fn of_scenario(
    text: &[u8],
    work: &mut [u8],
    record: &mut [u8],
    lines: &mut [u32],
) -> ScenarioAnswer
    ensures { Names (scenarios.answer_of result) }
{
    read_scenario(text, work, record, lines)
}

/// What checking a record names.
pub fn of_check_record(record: &[u8]) -> RecordAnswer
    ensures { Names (answer_of result) }
{
    check_record(record)
}

/// What checking a record's steps names.
pub fn of_check_steps(record: &[u8], lines: &[u32], names: &[u8]) -> StepsAnswer
    ensures { Names (steps.answer_of result) }
{
    check_steps(record, lines, names)
}

/// What looking up a field names.
pub fn of_field(record: &[u8], place: usize) -> Lookup
    ensures { Names (lookup_of result) }
{
    field(record, place)
}

/// What looking up a step names.
pub fn of_step(record: &[u8], number: usize) -> Lookup
    ensures { Names (lookup_of result) }
{
    step(record, number)
}

/// What looking up a step by its id names.
pub fn of_step_by_id(record: &[u8], id: &[u8]) -> Lookup
    ensures { Names (lookup_of result) }
{
    step_by_id(record, id)
}

/// What looking up a value by its key names.
pub fn of_value_by_key(record: &[u8], number: usize, key: &[u8]) -> Lookup
    ensures { Names (lookup_of result) }
{
    value_by_key(record, number, key)
}

/// What looking up a step's times names.
pub fn of_times(record: &[u8], number: usize) -> TimesAnswer
    ensures { Names (times_of result) }
{
    times(record, number)
}
