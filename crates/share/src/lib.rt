// Several drums on one supply: the strokes that each gets of what the supply allows in a beat.
#![tactic(auto)]

ghost use Rattle.std.specs.Prelude.{◌≡◌, ◌≤◌, ◌↔◌, length, IsSome, IfSome, MatchResult};
ghost use Rattle.refusal.specs.Base.{good};
ghost use Rattle.refusal.specs.Told.{refusal};
ghost use Rattle.share.specs.Share as definition;
ghost use Rattle.share.specs.Share.{gots, sum, up_to, round, eight, greatest, numbers_of, answer_of};
ghost use Rattle.share.specs.Contract.{Whole};

use refusal::Refusal;

// On one supply.
const MOST_DRUMS: usize = 8;

// That a drum may wish for in a beat.
const MOST_STROKES: u32 = 255;

/// Whether strokes are given, or why not.
// An enum of its own, as each public job answers: what it tells has names, and the definitions name its cases.
#[derive(Clone, Copy, Debug, PartialEq, Eq)]
pub enum ShareAnswer {
    Given,
    Refused(Refusal),
}

/// What eight drums get, in their order: 0 for those that are not there, and for all on a refusal.
// The numbers stand beside the answer and not in `Given`, since C has eight of them written on a refusal too.
#[derive(Clone, Copy, Debug, PartialEq, Eq)]
pub struct Shares {
    pub answer: ShareAnswer,
    pub strokes: [u32; MOST_DRUMS],
}

// What drums wish for, of which there are not too many.
#[derive(Clone, Copy)]
struct Wishes<'a> {
    each: &'a [u32],
    ghost few: { length each.now ≤ 8 },
}

// Whole rounds, and what is left for one that is not whole.
#[derive(Clone, Copy)]
struct Rounds {
    whole: u32,
    rest: u32,
}

// None where there is no drum.
fn greatest_of(wishes: &[u32]) -> Option<u32>
    ensures is_some { IsSome result ↔ (1 ≤ length wishes.now) }
    ensures is_greatest { IfSome result (λ most. most ≡ greatest wishes.now) }
{
    wishes.iter().copied().max()
}

// The strokes of so many rounds, in each of which every drum that still wants gets one.
fn strokes_of(wishes: Wishes<'_>, rounds: u32) -> u32
    requires { rounds ≤ 255 }
    ensures { result ≡ sum (gots (up_to rounds wishes.entry.each.now)) }
{
    wishes.each.iter().map(|&wish| wish.min(rounds)).sum()
}

// As many whole rounds as the supply allows, of those that the drum with the greatest wish wants, found by halving. The first shares are
// whole rounds too, so these are counted from nothing. A `while`, as there is no list to search.
#[tactic(auto, using(crate::proofs::Laws::up_to_none))]
fn whole_rounds(wishes: Wishes<'_>, most: u32, allowed: u32) -> Rounds
    requires is_greatest { most ≡ greatest wishes.each.now }
    requires small { most ≤ 255 }
    ensures { Whole wishes.entry.each.now allowed result.whole result.rest }
{
    let mut whole = 0;
    let mut rest = allowed;
    let mut too_many = most + 1;
    while too_many - whole > 1 {
        let middle = (whole + too_many) / 2;
        let strokes = strokes_of(wishes, middle);
        if strokes <= allowed {
            whole = middle;
            rest = allowed - strokes;
        } else {
            too_many = middle;
        }
    }
    Rounds { whole, rest }
}

// A stroke for a drum that still wants one, if any are left.
#[tactic(auto, using(crate::proofs::Laws::stroke_is))]
fn stroke(wish: u32, got: u32, left: u32) -> u32
    ensures { result ≡ definition.stroke left (record { wish = wish; got = got }) }
{
    if got < wish { left.min(1) } else { 0 }
}

// What the drums have after the whole rounds and one with the rest. By index, since what is written through `iter_mut` beside a second iterator
// is not known afterwards.
#[tactic(auto, using(crate::proofs::Turns::turns))]
fn last_round(wishes: Wishes<'_>, rounds: Rounds) -> [u32; MOST_DRUMS]
    requires { rounds.whole ≤ 255 }
    ensures { result ≡ eight (gots (round rounds.rest (up_to rounds.whole wishes.entry.each.now))) }
{
    let mut left = rounds.rest;
    let mut strokes = [0; MOST_DRUMS];
    for (i, &wish) in wishes.each.iter().enumerate() {
        let got = wish.min(rounds.whole);
        let more = stroke(wish, got, left);
        strokes[i] = got + more;
        left -= more;
    }
    strokes
}

#[tactic(auto, using(crate::proofs::Laws::answers))]
fn strokes_given(wishes: &[u32], allowed: u32) -> Result<[u32; MOST_DRUMS], Refusal>
    ensures { MatchResult result (λ strokes. definition.share wishes.now allowed ≡ good strokes)
        (λ e. definition.share wishes.now allowed ≡ refusal e) }
{
    if wishes.len() > MOST_DRUMS {
        return Err(Refusal::WishesOutOfRange);
    }
    let most = greatest_of(wishes).ok_or(Refusal::WishesOutOfRange)?;
    if most > MOST_STROKES {
        return Err(Refusal::WishesOutOfRange);
    }
    if (allowed as usize) < wishes.len() {
        return Err(Refusal::SupplyTooSmall);
    }
    let wishes = Wishes { each: wishes };
    Ok(last_round(wishes, whole_rounds(wishes, most, allowed)))
}

/// Shares what one supply allows in a beat among at most eight drums, each of which wishes for at most 255 strokes. Refused with 61 where there
/// is no drum, or more drums or strokes; then with 62 where the supply allows less than a stroke for each drum.
#[tactic(auto, unfolding(crate::specs::Share::numbers_of))]
pub fn share(wishes: &[u32], allowed: u32) -> Shares
    ensures answer { answer_of result.answer result.strokes ≡ definition.share wishes.now allowed }
    ensures strokes { result.strokes ≡ numbers_of (definition.share wishes.now allowed) }
{
    match strokes_given(wishes, allowed) {
        Ok(strokes) => Shares {
            answer: ShareAnswer::Given,
            strokes,
        },
        Err(e) => Shares {
            answer: ShareAnswer::Refused(e),
            strokes: [0; MOST_DRUMS],
        },
    }
}
