// Partners: the odd counts of an input, or of a link, first with second, third with fourth, and so on; and of those that the links of an
// output leave single, by rising link, the same.
ghost use Rattle.std.specs.Prelude.{◌≡◌, ◌*◌, ◌<◌};
ghost use Rattle.rules.specs.Words.{if};
ghost use Rattle.planes.specs.Tables.{tabled, end_of, first_place};
ghost use Rattle.split.specs.Steps.{Outputs, Odds, LowEnds, Latest, paired, MatedAt, AllMated, pending_from, Joins, MatedBy};

use crate::EndTable;
use bits::{flip_digit, has_digit, ones_of};
use planes::ENDS;
use planes::ends::End;

// The count that waits for a partner at the port. Where none does, a count is its own partner until another comes. A function of its own,
// for what an `if` within the caller chose would be lost to the check at the next call.
fn pending_or_own(pending: bool, latest: u16, own: u16) -> u16
    ensures { result ≡ if pending latest own }
{
    if pending { latest } else { own }
}

// Makes two partners of each other at an end.
fn pair(end: End, p: u16, q: u16, mates: &mut [u16; ENDS])
    requires { (p < 528) × (q < 528) }
    ensures { mates.new ≡ paired (first_place (end_of end)) p q mates.old }
{
    let first = end.first();
    mates[first + usize::from(p)] = q;
    mates[first + usize::from(q)] = p;
}

// Makes a count the partner of the one that waits at its port, or of itself. The word has a digit for each port at which one waits; the
// answer is the word after that.
fn mate_at(
    end: End,
    p: u16,
    ends: &[u8; ENDS],
    pending: u64,
    latest: &mut [u16; 64],
    mates: &mut [u16; ENDS],
) -> u64
    requires { (p < 528) × (tabled ends.now (end_of end) p < 64) × Latest latest.old }
    ensures { MatedAt (first_place (end_of end)) p (tabled ends.now (end_of end) p) pending latest.old mates.old
        result latest.new mates.new }
{
    let port = usize::from(ends[end.first() + usize::from(p)]);
    let q = pending_or_own(has_digit(pending, port), latest[port], p);
    pair(end, p, q, mates);
    latest[port] = p;
    flip_digit(pending, port)
}

// At the input and at the link of each. The answer has a digit for each link at which one waits.
fn mate_all(odds: &[u16], ends: &[u8; ENDS], mates: &mut [u16; ENDS], latest: &mut [u16; 64]) -> u64
    requires { Odds odds.now × LowEnds ends.now odds.now × Latest latest.old }
    ensures { AllMated ends.now odds.now mates.old mates.new latest.new result }
{
    let mut at_inputs = [0u16; 64];
    let mut pending_at_inputs: u64 = 0;
    let mut pending: u64 = 0;
    for &p in odds {
        pending_at_inputs = mate_at(
            End::Input,
            p,
            ends,
            pending_at_inputs,
            &mut at_inputs,
            mates,
        );
        pending = mate_at(End::Link, p, ends, pending, latest, mates);
    }
    pending
}

// Those that the links of an output leave single, by rising link: two and two are made partners, and the last of an odd number is its own.
fn mate_singles(latest: &[u16; 64], pending: u64, output: usize, mates: &mut [u16; ENDS])
    requires { (output < 16) × Latest latest.now }
    ensures { Joins (pending_from latest.now pending (output * 4) 4) mates.old mates.new }
{
    let mut alone: Option<u16> = None;
    for link in output * 4..output * 4 + 4 {
        if has_digit(pending, link) {
            let p = latest[link];
            pair(End::Link, p, alone.unwrap_or(p), mates);
            alone = match alone {
                Some(_) => None,
                None => Some(p),
            };
        }
    }
}

// At each input and each link, and then at each output that has others than its first link.
pub(crate) fn mate(odds: &[u16], table: &EndTable, mates: &mut [u16; ENDS])
    requires { Odds odds.now × LowEnds table.now.ends odds.now × Outputs table.now.multi_link }
    ensures { MatedBy table.now.multi_link table.now.ends odds.now mates.old mates.new }
{
    let mut latest = [0u16; 64];
    let pending = mate_all(odds, &table.ends, mates, &mut latest);
    for o in ones_of(table.multi_link) {
        mate_singles(&latest, pending, o, mates);
    }
}
