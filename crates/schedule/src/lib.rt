//! Recursively balanced scheduling: the counts of a block are split between its halves, down to single slots.
#![tactic(auto)]

mod positions;
mod slots;

ghost use Rattle.std.specs.Prelude.{◌≡◌, suc, ◌*◌, ◌^◌, ◌≤◌, replicate};
ghost use Rattle.rules.specs.Flows.{counts_of};
ghost use Rattle.rules.specs.Frames.{levels};
ghost use Rattle.rules.specs.Schedule.{frame_of};
ghost use Rattle.rules.specs.OddShares.{settled};
ghost use Rattle.calls.specs.Build.{frame_for};
ghost use Rattle.planes.specs.Planes.{counts_in, BlockPlanes};
ghost use Rattle.planes.specs.Tables.{tabled};
ghost use Rattle.schedule.specs.Steps.{Fillable, Tables};

use checks::levels_of;
use checks::reservations::Reservations;
use halves::halve::halve;
use halves::mark::others;
use planes::store::store_list;
use planes::{ENDS, PLANE_WORDS, PLANES_WORDS, POSITIONS, Planes};
use split::{EndTable, Scratch, split};

// A block of 2^m slots, which are idle before: its length falls by half with each call, down to a single slot, which is written. The
// answer is how many odd counts were settled, here and in the blocks within.
fn block(
    planes: Planes<'_>,
    m: usize,
    ports: usize,
    table: &EndTable,
    lists: &mut Scratch,
    frame: &mut [u16],
) -> usize
    requires { (m ≤ 10) × Tables ports planes.positions table.now.multi_link table.now.ends
        × BlockPlanes m planes.positions planes.words.now × (frame.old ≡ replicate (2 ^ m * ports) 0) }
    ensures { (result ≡ settled m (counts_in (suc m) planes.entry.words.now planes.entry.positions))
        × (frame.new ≡ frame_of ports (tabled table.now.ends) m (counts_in (suc m) planes.entry.words.now planes.entry.positions)) }
{
    if m == 0 {
        slots::write(planes, &table.ends, frame);
        return 0;
    }
    let mut mask = [0u64; PLANE_WORDS];
    let here = split(planes, table, lists, &mut mask);
    let mut half = [0u64; PLANES_WORDS];
    let mid = frame.len() / 2;
    let positions = planes.positions;
    halve(planes, m, &mask, &mut half);
    let first = Planes {
        words: &half,
        positions,
    };
    let front = block(first, m - 1, ports, table, lists, &mut frame[..mid]);
    others(planes, &mut mask);
    halve(planes, m, &mask, &mut half);
    let second = Planes {
        words: &half,
        positions,
    };
    let back = block(second, m - 1, ports, table, lists, &mut frame[mid..]);
    here + front + back
}

// A load that fits has room in the planes: no count is above slots.
pub fn fill(of: &Reservations<'_>, frame: &mut [u16]) -> usize
    requires { Fillable of.now.ports of.now.slots of.now.list.now frame.old }
    ensures { (result ≡ settled (levels of.now.slots) (counts_of of.now.list.now))
        × (frame.new ≡ frame_for of.now.ports of.now.slots of.now.list.now) }
{
    let m = levels_of(of.slots).unwrap();
    let mut words = [0u64; PLANES_WORDS];
    store_list(of.list, &mut words);
    let mut table = EndTable {
        ends: [0; ENDS],
        multi_link: 0,
    };
    positions::tabulate(of, &mut table);
    let mut lists = Scratch {
        odds: [0; POSITIONS],
        mates: [0; ENDS],
    };
    frame.fill(0);
    let planes = Planes {
        words: &words,
        positions: of.flows(),
    };
    block(planes, m, of.ports, &table, &mut lists, frame)
}
