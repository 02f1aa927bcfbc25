// A hammer log against a microphone log: which hammer makes a pair with which sound, and which are alone. The lists are written as far as
// they have places and counted beyond that, so that one walk serves.
#![tactic(auto)]

ghost use Rattle.std.specs.Prelude.{◌≡◌, ◌+◌, ◌≤◌, ◌<◌, length, set, IsTrue, ◌↔◌, MatchResult};
ghost use Rattle.pair_logs.specs.PairLogs as definition;
ghost use Rattle.pair_logs.specs.PairLogs.{pair_logs, output, pair_numbers, hammer_numbers, sound_numbers, answer_of, counts_of};
ghost use Rattle.pair_logs.specs.Contract.{Turns, Below, Walks, Rests, Falls, FallsFrom, Places, Fit, AgreesAll, Refuses};

use refusal::Refusal;

// In a log.
const MOST_TIMES: usize = 4096;

// Milliseconds between a hammer and its sound.
const MOST_APART: u32 = 40;

/// How many pairs, lone hammers and lone sounds the lists hold; a pair takes two places.
// An enum of its own, as each public job answers: what it tells has names, and the definitions name its cases.
#[derive(Clone, Copy, Debug, PartialEq, Eq)]
pub enum PairAnswer {
    Paired {
        pairs: usize,
        lone_hammers: usize,
        lone_sounds: usize,
    },
    Refused(Refusal),
}

// The logs, neither with more times than one may have.
#[derive(Clone, Copy)]
struct Logs<'a> {
    hammers: &'a [u32],
    sounds: &'a [u32],
    ghost short: { (length hammers.now ≤ 4096) × (length sounds.now ≤ 4096) },
}

// The lists that are lent.
#[derive(Drop)]
struct Lists<'a> {
    pairs: &'a mut [u32],
    lone_hammers: &'a mut [u32],
    lone_sounds: &'a mut [u32],
}

// How many of each there are. The same three as in `PairAnswer::Paired`, since a case of an enum is no type that `?` could hand on.
#[derive(Clone, Copy)]
struct Counts {
    pairs: usize,
    lone_hammers: usize,
    lone_sounds: usize,
}

impl Lists<'_> {
    // Whether they have places for so many.
    fn hold(&self, counts: Counts) -> bool
        ensures { IsTrue result
            ↔ Fit (length self.now.pairs.now) (length self.now.lone_hammers.now)
            (length self.now.lone_sounds.now) counts }
    {
        counts.pairs <= self.pairs.len() / 2
            && counts.lone_hammers <= self.lone_hammers.len()
            && counts.lone_sounds <= self.lone_sounds.len()
    }
}

// What becomes of the first unplaced of each log.
#[derive(Clone, Copy)]
enum Turn {
    Pair,
    LoneHammer,
    LoneSound,
}

// What is not placed yet of a log: the position of its first time, and the time before that.
#[derive(Clone, Copy)]
struct Unplaced {
    from: usize,
    before: u32,
}

impl Unplaced {
    const ALL: Unplaced = Unplaced { from: 0, before: 0 };

    // Without its first time.
    fn behind(self, time: u32) -> Unplaced
        requires { self.from < 4096 }
        ensures { result ≡ record { from = self.from + 1; before = time } }
    {
        Unplaced {
            from: self.from + 1,
            before: time,
        }
    }
}

// What is not placed of each log, and the pairs so far.
#[derive(Clone, Copy)]
struct Walked {
    hammers: Unplaced,
    sounds: Unplaced,
    pairs: usize,
}

#[tactic(auto, unfolding(crate::specs::PairLogs::near))]
fn near(hammer: u32, sound: u32) -> bool
    ensures { result ≡ definition.near hammer sound }
{
    hammer.abs_diff(sound) <= MOST_APART
}

// Refused where a time is below the one before it.
fn turn_of(before_hammer: u32, hammer: u32, before_sound: u32, sound: u32) -> Result<Turn, Refusal>
    ensures { MatchResult result (Turns before_hammer hammer before_sound sound)
        (Below before_hammer hammer before_sound sound) }
{
    if hammer < before_hammer || sound < before_sound {
        return Err(Refusal::LogFalls);
    }
    if near(hammer, sound) {
        return Ok(Turn::Pair);
    }
    Ok(if hammer < sound {
        Turn::LoneHammer
    } else {
        Turn::LoneSound
    })
}

// Stores a number if there is a place for it, by index, since what is written through `get_mut` is not known afterwards. `scenario` has such a
// function; below both lies no crate of lists of numbers, and one for it alone would be no plainer.
#[tactic(auto, using(std::proofs::lemmas::List::set_past))]
fn store(list: &mut [u32], i: usize, n: u32)
    ensures { list.new ≡ set list.old i n }
{
    if i < list.len() {
        list[i] = n;
    }
}

// From the first of each log to the end of one, each turn places one time or two. A `while`, as the two places go on separately.
#[tactic(auto, using(crate::proofs::Turns::turns))]
fn walk(logs: Logs<'_>, lists: &mut Lists<'_>) -> Result<Walked, Refusal>
    ensures { MatchResult result
        (Walks logs.entry.hammers.now logs.entry.sounds.now lists.old lists.new)
        (Falls logs.entry.hammers.now logs.entry.sounds.now) }
{
    let mut hammers = Unplaced::ALL;
    let mut sounds = Unplaced::ALL;
    let mut pairs = 0;
    while hammers.from < logs.hammers.len() && sounds.from < logs.sounds.len() {
        let hammer = logs.hammers[hammers.from];
        let sound = logs.sounds[sounds.from];
        match turn_of(hammers.before, hammer, sounds.before, sound)? {
            Turn::Pair => {
                store(lists.pairs, 2 * pairs, hammers.from as u32);
                store(lists.pairs, 2 * pairs + 1, sounds.from as u32);
                pairs += 1;
                hammers = hammers.behind(hammer);
                sounds = sounds.behind(sound);
            }
            Turn::LoneHammer => {
                store(
                    lists.lone_hammers,
                    hammers.from - pairs,
                    hammers.from as u32,
                );
                hammers = hammers.behind(hammer);
            }
            Turn::LoneSound => {
                store(lists.lone_sounds, sounds.from - pairs, sounds.from as u32);
                sounds = sounds.behind(sound);
            }
        }
    }
    Ok(Walked {
        hammers,
        sounds,
        pairs,
    })
}

// What is left of a log, all alone, written behind the lone ones so far, which are those before it that are not in pairs. Refused where a
// time is below the one before it.
#[tactic(auto, using(crate::proofs::Turns::rests))]
fn rest(times: &[u32], left: Unplaced, pairs: usize, list: &mut [u32]) -> Result<(), Refusal>
    requires { (pairs ≤ left.from) × (left.from ≤ length times.now) × (length times.now ≤ 4096) }
    ensures { MatchResult result (λ _. Rests times.now left.from left.before pairs list.old list.new)
        (FallsFrom times.now left.from left.before) }
{
    let mut last = left.before;
    // By position, which is what is written: under `enumerate` and `skip` each time takes an instruction more, and the invariant would tell of
    // a walk that has yet to skip and of one that has.
    for i in left.from..times.len() {
        let time = times[i];
        if time < last {
            return Err(Refusal::LogFalls);
        }
        store(list, i - pairs, i as u32);
        last = time;
    }
    Ok(())
}

// All times of both logs: the walk, and what is left of the log that it did not come to the end of.
#[tactic(auto, using(crate::proofs::Turns::all_placed))]
fn place(logs: Logs<'_>, lists: &mut Lists<'_>) -> Result<Counts, Refusal>
    ensures { MatchResult result
        (Places logs.entry.hammers.now logs.entry.sounds.now lists.old lists.new)
        (Falls logs.entry.hammers.now logs.entry.sounds.now) }
{
    let walked = walk(logs, lists)?;
    let pairs = walked.pairs;
    rest(logs.hammers, walked.hammers, pairs, lists.lone_hammers)?;
    rest(logs.sounds, walked.sounds, pairs, lists.lone_sounds)?;
    Ok(Counts {
        pairs,
        lone_hammers: logs.hammers.len() - pairs,
        lone_sounds: logs.sounds.len() - pairs,
    })
}

// A refusal may leave lists partly written.
#[tactic(auto, using(crate::proofs::Answers::cases))]
fn pair(hammers: &[u32], sounds: &[u32], lists: &mut Lists<'_>) -> Result<Counts, Refusal>
    ensures { let answer = pair_logs hammers.now sounds.now lists.old.pairs.now
        lists.old.lone_hammers.now lists.old.lone_sounds.now in
        MatchResult result (AgreesAll answer lists.old lists.new) (Refuses answer) }
{
    if hammers.len() > MOST_TIMES || sounds.len() > MOST_TIMES {
        return Err(Refusal::LogTooLong);
    }
    let counts = place(Logs { hammers, sounds }, lists)?;
    if !lists.hold(counts) {
        return Err(Refusal::ListTooShort);
    }
    Ok(counts)
}

/// The positions of pairs, a hammer's and its sound's in turn, from the front of `pairs`; those of lone hammers and lone sounds from the
/// front of their lists. Times are milliseconds that never fall. A refusal leaves zeros in all three: 64 for a log of more than 4,096 times,
/// then 63 for a time below the one before it, then 65 for a list that is too short.
#[tactic(auto, using(crate::proofs::Answers::told))]
pub fn pair_logs(
    hammers: &[u32],
    sounds: &[u32],
    pairs: &mut [u32],
    lone_hammers: &mut [u32],
    lone_sounds: &mut [u32],
) -> PairAnswer
    ensures answer { answer_of result ≡ counts_of (pair_logs hammers.now sounds.now pairs.old
        lone_hammers.old lone_sounds.old) }
    ensures pairs { pairs.new ≡ output pair_numbers (pair_logs hammers.now sounds.now
        pairs.old lone_hammers.old lone_sounds.old) pairs.old }
    ensures hammers { lone_hammers.new ≡ output hammer_numbers (pair_logs hammers.now sounds.now
        pairs.old lone_hammers.old lone_sounds.old) lone_hammers.old }
    ensures sounds { lone_sounds.new ≡ output sound_numbers (pair_logs hammers.now sounds.now
        pairs.old lone_hammers.old lone_sounds.old) lone_sounds.old }
{
    let mut lists = Lists {
        pairs,
        lone_hammers,
        lone_sounds,
    };
    match pair(hammers, sounds, &mut lists) {
        Ok(counts) => PairAnswer::Paired {
            pairs: counts.pairs,
            lone_hammers: counts.lone_hammers,
            lone_sounds: counts.lone_sounds,
        },
        Err(e) => {
            pairs.fill(0);
            lone_hammers.fill(0);
            lone_sounds.fill(0);
            PairAnswer::Refused(e)
        }
    }
}
