// The jobs of document 01, and of P11 and P12 of document 02, as `drum_c` exports them to programs in C and Rust: every answer is five
// numbers, told as far as there are places for them, of which the first is the result too. include/drum.h says this to C.
#![tactic(auto)]

ghost use Rattle.std.specs.Prelude.{◌≡◌, length};
ghost use Rattle.tree.specs.Tree.{tree, size_of, left};
ghost use Rattle.scenario.specs.Scenario.{scenario_of, sizes_of, output, tree_bytes, record_bytes, step_numbers};
ghost use Rattle.record.specs.Jobs as definition;
ghost use Rattle.check_steps.specs.CheckSteps.{check_steps};
ghost use Rattle.lookups.specs.Lookups as lookup;
ghost use Rattle.pair_logs.specs.PairLogs as logs;
ghost use Rattle.pair_logs.specs.PairLogs.{pair_logs, counts_of, pair_numbers, hammer_numbers, sound_numbers};
ghost use Rattle.panel.specs.Jobs as panels;
ghost use Rattle.share.specs.Share as shared;
ghost use Rattle.share.specs.Share.{numbers_of};
ghost use Rattle.drum.specs.Numbers.{numbers, of_none, of_one, of_three, of_four, of_found, first_of, told};

mod answers;

use answers::Answer;
use share::Shares;

// Stores numbers as far as there are places for them.
// By index, since what is written through `iter_mut` beside a second iterator is not known afterwards.
fn store(answer: &mut [u64], numbers: [u64; 5])
    ensures { answer.new ≡ told numbers answer.old }
{
    for (i, number) in numbers.iter().enumerate() {
        if i < answer.len() {
            answer[i] = *number;
        }
    }
}

// Tells an answer; its first number is the result.
fn tell<A: Answer>(outcome: A, answer: &mut [u64]) -> u32
    ensures result { result ≡ first_of (A.as_told outcome) }
    ensures places { answer.new ≡ told (A.as_told outcome) answer.old }
{
    let numbers = outcome.numbers();
    store(answer, numbers);
    numbers[0] as u32
}

/// The tree of a text: its bytes.
pub fn drum_read_tree(text: &[u8], work: &mut [u8], answer: &mut [u64]) -> u32
    ensures result { result ≡ first_of (numbers of_one (size_of (tree (length work.old) text.now))) }
    ensures answer { answer.new ≡ told (numbers of_one (size_of (tree (length work.old) text.now)))
        answer.old }
    ensures bytes { work.new ≡ left (tree (length work.old) text.now) work.old }
{
    tell(tree::read_tree(text, work), answer)
}

/// The scenario of a text: the bytes of its tree, of its record and of its step lines, and how many steps there are.
pub fn drum_read_scenario(
    text: &[u8],
    work: &mut [u8],
    record: &mut [u8],
    lines: &mut [u32],
    answer: &mut [u64],
) -> u32
    ensures result { result ≡ first_of (numbers of_four (sizes_of (scenario_of work.old «record».old
        lines.old text.now))) }
    ensures answer { answer.new ≡ told (numbers of_four (sizes_of (scenario_of work.old
        «record».old lines.old text.now))) answer.old }
    ensures tree { work.new ≡ output tree_bytes
        (scenario_of work.old «record».old lines.old text.now) work.old }
    ensures bytes { «record».new ≡ output record_bytes
        (scenario_of work.old «record».old lines.old text.now) «record».old }
    ensures numbers { lines.new ≡ output step_numbers
        (scenario_of work.old «record».old lines.old text.now) lines.old }
{
    tell(scenario::read_scenario(text, work, record, lines), answer)
}

/// Whether the bytes are a record: how many steps it has.
pub fn drum_check_record(record: &[u8], answer: &mut [u64]) -> u32
    ensures result { result ≡ first_of (numbers of_one (definition.check_record «record».now)) }
    ensures answer { answer.new ≡ told (numbers of_one (definition.check_record «record».now))
        answer.old }
{
    tell(record::check_record(record), answer)
}

/// Whether the drum has the commands of a record's steps; `names` is a list of those that are not built in. A step beyond the lines has
/// none. It tells how many steps the record has.
pub fn drum_check_steps(record: &[u8], lines: &[u32], names: &[u8], answer: &mut [u64]) -> u32
    ensures result { result ≡ first_of (numbers of_one (check_steps «record».now lines.now
        names.now)) }
    ensures answer { answer.new ≡ told (numbers of_one (check_steps «record».now lines.now
        names.now)) answer.old }
{
    tell(check_steps::check_steps(record, lines, names), answer)
}

/// The field at this place, from 1 to 8: where its item begins and ends in the record.
pub fn drum_field(record: &[u8], place: usize, answer: &mut [u64]) -> u32
    ensures result { result ≡ first_of (numbers of_found (definition.field «record».now place)) }
    ensures answer { answer.new ≡ told (numbers of_found (definition.field «record».now place))
        answer.old }
{
    tell(record::field(record, place), answer)
}

/// The step with this number, from 1 on: where its item begins and ends in the record.
pub fn drum_step(record: &[u8], number: usize, answer: &mut [u64]) -> u32
    ensures result { result ≡ first_of (numbers of_found (definition.step «record».now number)) }
    ensures answer { answer.new ≡ told (numbers of_found (definition.step «record».now number))
        answer.old }
{
    tell(record::step(record, number), answer)
}

/// The first step with this id: where its item begins and ends in the record.
pub fn drum_step_by_id(record: &[u8], id: &[u8], answer: &mut [u64]) -> u32
    ensures result { result ≡ first_of (numbers of_found (lookup.step_by_id «record».now id.now)) }
    ensures answer { answer.new ≡ told (numbers of_found (lookup.step_by_id «record».now id.now))
        answer.old }
{
    tell(lookups::step_by_id(record, id), answer)
}

/// The value beside a key, in the mapping beside the command of the step with this number: where its item begins and ends in the record.
pub fn drum_value_by_key(record: &[u8], number: usize, key: &[u8], answer: &mut [u64]) -> u32
    ensures result { result ≡ first_of (numbers of_found (lookup.value_by_key «record».now number key.now)) }
    ensures answer { answer.new ≡ told (numbers of_found (lookup.value_by_key «record».now number
        key.now)) answer.old }
{
    tell(lookups::value_by_key(record, number, key), answer)
}

/// How often the step with this number is repeated.
pub fn drum_times(record: &[u8], number: usize, answer: &mut [u64]) -> u32
    ensures result { result ≡ first_of (numbers of_one (lookup.times «record».now number)) }
    ensures answer { answer.new ≡ told (numbers of_one (lookup.times «record».now number))
        answer.old }
{
    tell(lookups::times(record, number), answer)
}

/// What each of several drums on one supply gets in a beat, eight numbers in their order; the answer has no numbers.
// Eight, as the C header says; the constant in `share` is its own.
pub fn drum_share(wishes: &[u32], allowed: u32, strokes: &mut [u32; 8], answer: &mut [u64]) -> u32
    ensures result { result ≡ first_of (numbers of_none (shared.share wishes.now allowed)) }
    ensures answer { answer.new ≡ told (numbers of_none (shared.share wishes.now allowed))
        answer.old }
    ensures strokes { strokes.new ≡ numbers_of (shared.share wishes.now allowed) }
{
    let Shares {
        answer: outcome,
        strokes: given,
    } = share::share(wishes, allowed);
    *strokes = given;
    tell(outcome, answer)
}

/// A hammer log against a microphone log: how many pairs, lone hammers and lone sounds there are.
pub fn drum_pair_logs(
    hammers: &[u32],
    sounds: &[u32],
    pairs: &mut [u32],
    lone_hammers: &mut [u32],
    lone_sounds: &mut [u32],
    answer: &mut [u64],
) -> u32
    ensures result { result ≡ first_of (numbers of_three (counts_of (pair_logs hammers.now sounds.now
        pairs.old lone_hammers.old lone_sounds.old))) }
    ensures answer { answer.new ≡ told (numbers of_three (counts_of (pair_logs hammers.now sounds.now
        pairs.old lone_hammers.old lone_sounds.old))) answer.old }
    ensures pairs { pairs.new ≡ logs.output pair_numbers (pair_logs hammers.now sounds.now
        pairs.old lone_hammers.old lone_sounds.old) pairs.old }
    ensures hammers { lone_hammers.new ≡ logs.output hammer_numbers (pair_logs hammers.now
        sounds.now pairs.old lone_hammers.old lone_sounds.old)
        lone_hammers.old }
    ensures sounds { lone_sounds.new ≡ logs.output sound_numbers (pair_logs hammers.now
        sounds.now pairs.old lone_hammers.old lone_sounds.old)
        lone_sounds.old }
{
    tell(
        pair_logs::pair_logs(hammers, sounds, pairs, lone_hammers, lone_sounds),
        answer,
    )
}

/// What a panel shows of a programme: where the item of its name begins and ends in the record, and how many steps there are.
pub fn drum_panel_name(record: &[u8], answer: &mut [u64]) -> u32
    ensures result { result ≡ first_of (numbers of_three (panels.panel_name «record».now)) }
    ensures answer { answer.new ≡ told (numbers of_three (panels.panel_name «record».now))
        answer.old }
{
    tell(panel::panel_name(record), answer)
}

/// What a panel shows of the step with this number: where the items of its name and of its id begin and end in the record.
pub fn drum_panel_step(record: &[u8], number: usize, answer: &mut [u64]) -> u32
    ensures result { result ≡ first_of (numbers of_four (panels.panel_step «record».now number)) }
    ensures answer { answer.new ≡ told (numbers of_four (panels.panel_step «record».now number))
        answer.old }
{
    tell(panel::panel_step(record, number), answer)
}
