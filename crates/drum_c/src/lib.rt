// The jobs for programs in C and Rust. A name for C is a function of the crate that is linked, so each calls the function of `drum` with its
// name, and states its clauses again. What is lent comes as a pointer and a length, but for the eight numbers of a share. include/drum.h says
// this to C.
#![tactic(auto)]

ghost use Rattle.std.specs.Prelude.{◌≡◌, length};
ghost use Rattle.tree.specs.Tree.{tree, size_of, left};
ghost use Rattle.scenario.specs.Scenario.{scenario_of, sizes_of, output, tree_bytes, record_bytes, step_numbers};
ghost use Rattle.record.specs.Jobs as definition;
ghost use Rattle.check_steps.specs.CheckSteps.{check_steps};
ghost use Rattle.lookups.specs.Lookups as lookup;
ghost use Rattle.pair_logs.specs.PairLogs as logs;
ghost use Rattle.pair_logs.specs.PairLogs.{pair_logs, counts_of, pair_numbers, hammer_numbers, sound_numbers};
ghost use Rattle.panel.specs.Jobs as panels;
ghost use Rattle.share.specs.Share as shared;
ghost use Rattle.share.specs.Share.{numbers_of};
ghost use Rattle.drum.specs.Numbers.{numbers, of_none, of_one, of_three, of_four, of_found, first_of, told};

/// The tree of a text: its bytes.
#[unsafe(no_mangle)]
pub extern "C" fn drum_read_tree(text: &[u8], work: &mut [u8], answer: &mut [u64]) -> u32
    ensures result { result ≡ first_of (numbers of_one (size_of (tree (length work.old) text.now))) }
    ensures answer { answer.new ≡ told (numbers of_one (size_of (tree (length work.old) text.now)))
        answer.old }
    ensures bytes { work.new ≡ left (tree (length work.old) text.now) work.old }
{
    drum::drum_read_tree(text, work, answer)
}

/// The scenario of a text: the bytes of its tree, of its record and of its step lines, and how many steps there are.
#[unsafe(no_mangle)]
pub extern "C" fn drum_read_scenario(
    text: &[u8],
    work: &mut [u8],
    record: &mut [u8],
    lines: &mut [u32],
    answer: &mut [u64],
) -> u32
    ensures result { result ≡ first_of (numbers of_four (sizes_of (scenario_of work.old «record».old
        lines.old text.now))) }
    ensures answer { answer.new ≡ told (numbers of_four (sizes_of (scenario_of work.old
        «record».old lines.old text.now))) answer.old }
    ensures tree { work.new ≡ output tree_bytes
        (scenario_of work.old «record».old lines.old text.now) work.old }
    ensures bytes { «record».new ≡ output record_bytes
        (scenario_of work.old «record».old lines.old text.now) «record».old }
    ensures numbers { lines.new ≡ output step_numbers
        (scenario_of work.old «record».old lines.old text.now) lines.old }
{
    drum::drum_read_scenario(text, work, record, lines, answer)
}

/// Whether the bytes are a record: how many steps it has.
#[unsafe(no_mangle)]
pub extern "C" fn drum_check_record(record: &[u8], answer: &mut [u64]) -> u32
    ensures result { result ≡ first_of (numbers of_one (definition.check_record «record».now)) }
    ensures answer { answer.new ≡ told (numbers of_one (definition.check_record «record».now))
        answer.old }
{
    drum::drum_check_record(record, answer)
}

/// Whether the drum has the commands of a record's steps; `names` is a list of those that are not built in. A step beyond the lines has
/// none. It tells how many steps the record has.
#[unsafe(no_mangle)]
pub extern "C" fn drum_check_steps(
    record: &[u8],
    lines: &[u32],
    names: &[u8],
    answer: &mut [u64],
) -> u32
    ensures result { result ≡ first_of (numbers of_one (check_steps «record».now lines.now
        names.now)) }
    ensures answer { answer.new ≡ told (numbers of_one (check_steps «record».now lines.now
        names.now)) answer.old }
{
    drum::drum_check_steps(record, lines, names, answer)
}

/// The field at this place, from 1 to 8: where its item begins and ends in the record.
#[unsafe(no_mangle)]
pub extern "C" fn drum_field(record: &[u8], place: usize, answer: &mut [u64]) -> u32
    ensures result { result ≡ first_of (numbers of_found (definition.field «record».now place)) }
    ensures answer { answer.new ≡ told (numbers of_found (definition.field «record».now place))
        answer.old }
{
    drum::drum_field(record, place, answer)
}

/// The step with this number, from 1 on: where its item begins and ends in the record.
#[unsafe(no_mangle)]
pub extern "C" fn drum_step(record: &[u8], number: usize, answer: &mut [u64]) -> u32
    ensures result { result ≡ first_of (numbers of_found (definition.step «record».now number)) }
    ensures answer { answer.new ≡ told (numbers of_found (definition.step «record».now number))
        answer.old }
{
    drum::drum_step(record, number, answer)
}

/// The first step with this id: where its item begins and ends in the record.
#[unsafe(no_mangle)]
pub extern "C" fn drum_step_by_id(record: &[u8], id: &[u8], answer: &mut [u64]) -> u32
    ensures result { result ≡ first_of (numbers of_found (lookup.step_by_id «record».now id.now)) }
    ensures answer { answer.new ≡ told (numbers of_found (lookup.step_by_id «record».now id.now))
        answer.old }
{
    drum::drum_step_by_id(record, id, answer)
}

/// The value beside a key, in the mapping beside the command of the step with this number: where its item begins and ends in the record.
#[unsafe(no_mangle)]
pub extern "C" fn drum_value_by_key(
    record: &[u8],
    number: usize,
    key: &[u8],
    answer: &mut [u64],
) -> u32
    ensures result { result ≡ first_of (numbers of_found (lookup.value_by_key «record».now number key.now)) }
    ensures answer { answer.new ≡ told (numbers of_found (lookup.value_by_key «record».now number
        key.now)) answer.old }
{
    drum::drum_value_by_key(record, number, key, answer)
}

/// How often the step with this number is repeated.
#[unsafe(no_mangle)]
pub extern "C" fn drum_times(record: &[u8], number: usize, answer: &mut [u64]) -> u32
    ensures result { result ≡ first_of (numbers of_one (lookup.times «record».now number)) }
    ensures answer { answer.new ≡ told (numbers of_one (lookup.times «record».now number))
        answer.old }
{
    drum::drum_times(record, number, answer)
}

/// What each of several drums on one supply gets in a beat, eight numbers in their order; the answer has no numbers.
// Eight, as the C header says; the constant in `share` is its own.
#[unsafe(no_mangle)]
pub extern "C" fn drum_share(
    wishes: &[u32],
    allowed: u32,
    strokes: &mut [u32; 8],
    answer: &mut [u64],
) -> u32
    ensures result { result ≡ first_of (numbers of_none (shared.share wishes.now allowed)) }
    ensures answer { answer.new ≡ told (numbers of_none (shared.share wishes.now allowed))
        answer.old }
    ensures strokes { strokes.new ≡ numbers_of (shared.share wishes.now allowed) }
{
    drum::drum_share(wishes, allowed, strokes, answer)
}

/// A hammer log against a microphone log: how many pairs, lone hammers and lone sounds there are.
#[unsafe(no_mangle)]
pub extern "C" fn drum_pair_logs(
    hammers: &[u32],
    sounds: &[u32],
    pairs: &mut [u32],
    lone_hammers: &mut [u32],
    lone_sounds: &mut [u32],
    answer: &mut [u64],
) -> u32
    ensures result { result ≡ first_of (numbers of_three (counts_of (pair_logs hammers.now sounds.now
        pairs.old lone_hammers.old lone_sounds.old))) }
    ensures answer { answer.new ≡ told (numbers of_three (counts_of (pair_logs hammers.now sounds.now
        pairs.old lone_hammers.old lone_sounds.old))) answer.old }
    ensures pairs { pairs.new ≡ logs.output pair_numbers (pair_logs hammers.now sounds.now
        pairs.old lone_hammers.old lone_sounds.old) pairs.old }
    ensures hammers { lone_hammers.new ≡ logs.output hammer_numbers (pair_logs hammers.now
        sounds.now pairs.old lone_hammers.old lone_sounds.old)
        lone_hammers.old }
    ensures sounds { lone_sounds.new ≡ logs.output sound_numbers (pair_logs hammers.now
        sounds.now pairs.old lone_hammers.old lone_sounds.old)
        lone_sounds.old }
{
    drum::drum_pair_logs(hammers, sounds, pairs, lone_hammers, lone_sounds, answer)
}

/// What a panel shows of a programme: where the item of its name begins and ends in the record, and how many steps there are.
#[unsafe(no_mangle)]
pub extern "C" fn drum_panel_name(record: &[u8], answer: &mut [u64]) -> u32
    ensures result { result ≡ first_of (numbers of_three (panels.panel_name «record».now)) }
    ensures answer { answer.new ≡ told (numbers of_three (panels.panel_name «record».now))
        answer.old }
{
    drum::drum_panel_name(record, answer)
}

/// What a panel shows of the step with this number: where the items of its name and of its id begin and end in the record.
#[unsafe(no_mangle)]
pub extern "C" fn drum_panel_step(record: &[u8], number: usize, answer: &mut [u64]) -> u32
    ensures result { result ≡ first_of (numbers of_four (panels.panel_step «record».now number)) }
    ensures answer { answer.new ≡ told (numbers of_four (panels.panel_step «record».now number))
        answer.old }
{
    drum::drum_panel_step(record, number, answer)
}
