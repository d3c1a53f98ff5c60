//! Depth: how far from its share a flow, an input or an output can get, and how deep a buffer to order for it.
#![tactic(auto)]

ghost use Rattle.std.specs.Prelude.{◌≡◌, ◌+◌, ◌-◌, ◌*◌, ◌≤◌, ◌<◌, true, max};
ghost use Rattle.rules.specs.Flows.{load};
ghost use Rattle.rules.specs.Frames.{levels};
ghost use Rattle.strays.specs.Stray.{stray};
ghost use Rattle.calls.specs.Service.{class_of, who_within};
ghost use Rattle.calls.specs.Depth.{farthest, most_waiting, depth_numbers, depth};
ghost use Rattle.admission.specs.Overloads.{EveryLoad};
ghost use Rattle.depth.specs.Steps.{BothPeaks};

use admission::Loads;
use calls::{Bound, Refusal, Who};
use checks::reservations::{Reservations, check_list};

// The peaks of the blocks of one size: of one with fewer cells, and of one with a cell more.
#[derive(Clone, Copy)]
struct TwoPeaks {
    low: usize,
    high: usize,
}

// The peak of a block from those of its halves: that of the first, or that of the second behind what the first has above its share.
fn joined(first: usize, cells: usize, second: usize, share: usize) -> usize
    requires { (cells ≤ 4194304) × (second ≤ 4194304) }
    ensures { result ≡ max first (cells + second - share) }
{
    first.max((cells + second).saturating_sub(share))
}

// The cells of one that is asked about, where a frame of so many slots has room for them.
#[derive(Clone, Copy)]
struct Load {
    slots: usize,
    cells: usize,
    ghost power: { levels slots < 11 },
    ghost room: { cells ≤ slots },
}

impl Load {
    // The peaks of the blocks of twice the size, which have twice as many cells as their halves, one more or two more.
    fn doubled(self, size: usize, peaks: TwoPeaks) -> TwoPeaks
        requires { BothPeaks self.slots self.cells size peaks.low peaks.high × (size < self.slots) }
        ensures { BothPeaks self.slots self.cells (size * 2) result.low result.high }
    {
        let share = self.cells * size;
        let half = share / self.slots;
        let odd = joined(peaks.high, self.slots * (half + 1), peaks.low, share);
        if share * 2 / self.slots == half * 2 {
            let low = joined(peaks.low, self.slots * half, peaks.low, share);
            return TwoPeaks { low, high: odd };
        }
        let high = joined(peaks.high, self.slots * (half + 1), peaks.high, share);
        TwoPeaks { low: odd, high }
    }

    // The stray, from the blocks of one slot up.
    fn stray(self) -> usize
        ensures { result ≡ stray (levels self.slots) self.cells }
    {
        let whole = self.cells / self.slots;
        let mut peaks = TwoPeaks {
            low: 0,
            high: self.slots * (whole + 1) - self.cells,
        };
        let mut size: usize = 1;
        // No range or iterator of the library goes on by doubling.
        while size < self.slots {
            peaks = self.doubled(size, peaks);
            size *= 2;
        }
        peaks.low
    }

    // What is answered: slots - 1 parts of a cell that came early, twice the stray and the load itself, in whole cells.
    fn bound(self) -> Bound
        ensures parts { result.parts ≡ farthest self.slots self.cells }
        ensures cells { result.cells ≡ most_waiting self.slots self.cells }
    {
        let parts = 2 * self.stray();
        Bound {
            parts,
            cells: (self.slots - 1 + parts + self.cells) / self.slots,
        }
    }
}

// The load of whom is asked about: a flow's cells, or what is added up for its port.
fn load_of(of: &Reservations<'_>, who: Who, loads: &Loads) -> usize
    requires { (who_within of.now.ports of.now.list.now who ≡ true) × EveryLoad of.now.ports of.now.list.now loads.now }
    ensures { result ≡ load (class_of who) of.now.list.now }
{
    match who {
        Who::Flow(flow) => of.flow(flow - 1).cells,
        Who::Input(input) => loads.inputs[input - 1],
        Who::Output(output) => loads.outputs[output - 1],
    }
}

// Depth: 1, 2, 3, 21, 22, 23, 5, 6, 12.
pub fn depth_of(ports: usize, slots: usize, list: &[u16], who: Who) -> Result<Bound, Refusal>
    ensures { depth_numbers result ≡ depth ports slots list.now who }
{
    let of = check_list(ports, slots, list)?;
    let mut loads = Loads::new();
    admission::add_loads(&of, &mut loads);
    admission::port_overload(slots, &loads)?;
    if checks::bad_who(ports, list, who) {
        return Err(Refusal::FlowOrPort);
    }
    let load = Load {
        slots,
        cells: load_of(&of, who, &loads),
    };
    Ok(load.bound())
}
