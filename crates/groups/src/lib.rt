//! Groups: who is joined by partnership favours the two halves in turn. An even count is never settled.
#![tactic(auto)]

ghost use Rattle.std.specs.Prelude.{◌≡◌, replicate};
ghost use Rattle.rules.specs.Flows.{inputs, links};
ghost use Rattle.planes.specs.Tables.{tabled, end_of, across};
ghost use Rattle.planes.specs.Favours.{favour_number, favour_numbers};
ghost use Rattle.groups.specs.Steps.{Reaches, ReachesBoth, ReachesAll, stepped, Walks, Next, Settles, SettledBy, larger_half};

use planes::ends::End;
use planes::favours::Favour;
use planes::{ENDS, POSITIONS};

// Settles who is joined to a count that favours the first half, by the mates at the two ends in turn, and answers how many steps that
// took. A single count is its own partner, so a walk stops at a settled count and at nothing else.
fn walk(start: usize, from: End, mates: &[u16; ENDS], favoured: &mut [Favour; POSITIONS]) -> usize
    requires { Reaches (tabled mates.now (end_of from)) (tabled mates.now (across (end_of from))) start }
    ensures { Walks (tabled mates.now (end_of from)) (tabled mates.now (across (end_of from))) start
        (favour_numbers favoured.old) result (favour_numbers favoured.new) }
{
    let near = from.first();
    let far = from.other().first();
    let mut steps: usize = 0;
    let mut p = start;
    // No range counts the steps: a settled count ends the walk, in the middle of a turn or at its end.
    loop {
        let q = usize::from(mates[near + p]);
        if favoured[q].is_settled() {
            return steps;
        }
        favoured[q] = Favour::Second;
        steps += 1;
        p = usize::from(mates[far + q]);
        if favoured[p].is_settled() {
            return steps;
        }
        favoured[p] = Favour::First;
        steps += 1;
    }
}

// Goes the steps of a walk again, whose start favours the second half now: each count that it comes to is flipped.
fn flip_walk(
    start: usize,
    from: End,
    steps: usize,
    mates: &[u16; ENDS],
    favoured: &mut [Favour; POSITIONS],
)
    requires { Reaches (tabled mates.now (end_of from)) (tabled mates.now (across (end_of from))) start }
    ensures { favour_numbers favoured.new ≡ stepped (tabled mates.now (end_of from)) (tabled mates.now (across (end_of from)))
        start 2 steps (favour_numbers favoured.old) }
{
    let mut near = from.first();
    let mut far = from.other().first();
    let mut half = Favour::First;
    let mut p = start;
    for _ in 0..steps {
        p = usize::from(mates[near + p]);
        favoured[p] = half;
        half = half.other();
        (near, far) = (far, near);
    }
}

// The half with the larger share of a group of an odd number of counts, whose first count favours the first half: that half where the
// walk by inputs settles an even number.
fn larger_half(by_inputs: usize) -> Favour
    ensures { favour_number result ≡ larger_half by_inputs }
{
    if by_inputs % 2 == 0 {
        Favour::First
    } else {
        Favour::Second
    }
}

// The scan goes by rising flow number, so the count of a group that it meets first is the group's first. The next larger share goes to the
// half `next`; the answer is the half that the one after it goes to.
fn settle_group(
    p: usize,
    next: Favour,
    mates: &[u16; ENDS],
    favoured: &mut [Favour; POSITIONS],
) -> Favour
    requires { ReachesBoth mates.now p × Next (favour_number next) (favour_numbers favoured.old) }
    ensures { Settles (tabled mates.now inputs) (tabled mates.now links) p (favour_numbers favoured.old)
        (favour_number result) (favour_numbers favoured.new) }
{
    if favoured[p].is_settled() {
        return next;
    }
    favoured[p] = Favour::First;
    let by_inputs = walk(p, End::Input, mates, favoured);
    let by_links = walk(p, End::Link, mates, favoured);
    if (by_inputs + by_links) % 2 == 1 {
        return next;
    }
    if larger_half(by_inputs) == next {
        return next.other();
    }
    favoured[p] = Favour::Second;
    flip_walk(p, End::Input, by_inputs, mates, favoured);
    flip_walk(p, End::Link, by_links, mates, favoured);
    next.other()
}

// Only the odd counts are scanned; the first larger share goes to the first half.
pub fn settle(odds: &[u16], mates: &[u16; ENDS], favoured: &mut [Favour; POSITIONS])
    requires { ReachesAll mates.now odds.now × (favour_numbers favoured.old ≡ replicate 528 0) }
    ensures { SettledBy (tabled mates.now inputs) (tabled mates.now links) odds.now
        (favour_numbers favoured.old) (favour_numbers favoured.new) }
{
    let mut next = Favour::First;
    for &p in odds {
        next = settle_group(usize::from(p), next, mates, favoured);
    }
}
