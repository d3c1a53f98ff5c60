// Entries by words, a digit for each port that a flow has: whether any is wrong, or a port of the other side is used twice in a slot.
ghost use Rattle.std.specs.Prelude.{◌≡◌, not, ◌+◌, ◌^◌, ◌≤◌, ◌<◌, max, length, replicate};
ghost use Rattle.std.specs.List.{fold};
ghost use Rattle.std.specs.Int.Bits.{bit_or};
ghost use Rattle.calls.specs.Refusals.{none_holds};
ghost use Rattle.calls.specs.Inspect.{bad_entries};
ghost use Rattle.calls.specs.Sides.{side_of};
ghost use Rattle.entries.specs.Usable.{Denies, Words, SlotRead, OwnDigits, ColumnsOwn, FrameApart};

use crate::PORTS_MOST;
use calls::Side;
use checks::frames::{Frame, FrameOfFlows};
use checks::reservations::{Flow, Reservations};

// A word for idle entries, and one for each of 512 flows.
const WORDS: usize = 513;

// The largest entry of a frame.
fn largest(entries: &[u16]) -> u16
    ensures { result ≡ fold (λ most entry. max most entry) 0 entries.now }
{
    entries.iter().fold(0, |most, &entry| most.max(entry))
}

// The word of a flow, by its port of the other side and its port of the frame's own.
fn word_of(across: usize, own: usize) -> u32
    requires { (across < 16) × (own < 16) }
    ensures { result ≡ bit_or (2 ^ across) (2 ^ (16 + own)) }
{
    (1 << across) | (1 << (16 + own))
}

// Writes the words of all flows, where that of idle entries is 0.
fn fill_words(side: Side, of: &Reservations<'_>, words: &mut [u32; WORDS])
    requires { words.old ≡ replicate 513 0 }
    ensures { Words (side_of side) of.now.list.now words.new }
{
    for f in 0..of.flows() {
        let flow = of.flow(f);
        words[f + 1] = word_of(flow.port(side.other()), flow.port(side));
    }
}

// Two entries of a slot have a digit in common: then the sum of their words is above what their words are together. Each word is
// put into its column.
fn slot_clashes(
    frame: &FrameOfFlows<'_>,
    words: &[u32; WORDS],
    slot: usize,
    columns: &mut [u32; PORTS_MOST],
) -> bool
    requires { (slot < frame.now.frame.of.slots) × (length words.now ≡ 513) × (length columns.old ≡ 16) }
    ensures { SlotRead frame.now.frame.of.ports words.now frame.now.frame.entries.now slot columns.old columns.new result }
{
    let mut sum: u64 = 0;
    let mut seen: u32 = 0;
    for (i, &entry) in frame.frame.slot(slot).iter().enumerate() {
        let word = words[usize::from(entry)];
        columns[i] |= word;
        sum += u64::from(word);
        seen |= word;
    }
    sum != u64::from(seen)
}

// A word has a digit of another port of the frame's side than its column's.
fn is_astray(word: u32, i: usize) -> bool
    requires { i < 16 }
    ensures { Denies (OwnDigits word i) result }
{
    (word >> 16) | (1 << i) != 1 << i
}

// Some column has a word with a digit of another port of the frame's side.
fn any_astray(ports: usize, columns: &[u32; PORTS_MOST]) -> bool
    requires { (ports ≤ 16) × (length columns.now ≡ 16) }
    ensures { Denies (ColumnsOwn ports columns.now) result }
{
    (0..ports).any(|i| is_astray(columns[i], i))
}

// Two entries of some slot have a digit in common, or some entry has one of another port of the frame's side: looked for slot by slot,
// and then column by column. A loop, and not `any`: of a closure that changes the columns the proof would know no answer.
fn words_clash(frame: &FrameOfFlows<'_>, words: &[u32; WORDS]) -> bool
    requires { length words.now ≡ 513 }
    ensures { Denies (FrameApart frame.now.frame.of.ports frame.now.frame.of.slots words.now frame.now.frame.entries.now) result }
{
    let mut columns = [0u32; PORTS_MOST];
    for slot in 0..frame.frame.of.slots {
        if slot_clashes(frame, words, slot, &mut columns) {
            return true;
        }
    }
    any_astray(frame.frame.of.ports, &columns)
}

// A wrong entry, or a port of the other side used twice in a slot: refusals 14 and 16, whose condition is one.
pub fn bad_entries(side: Side, frame: &Frame<'_>) -> bool
    ensures { result ≡ not (none_holds (bad_entries 14 (side_of side) frame.now.of.ports frame.now.of.slots frame.now.of.list.now frame.now.entries.now)) }
{
    if frame.of.flows() < usize::from(largest(frame.entries)) {
        return true;
    }
    let mut words = [0u32; WORDS];
    fill_words(side, &frame.of, &mut words);
    words_clash(&FrameOfFlows { frame: *frame }, &words)
}
