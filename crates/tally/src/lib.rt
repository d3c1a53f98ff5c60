//! Tallies: the cells of each flow, input, output and link in a run of slots, and their total. An entry is counted by its flow alone.
#![tactic(auto)]

ghost use Rattle.std.specs.Prelude.{◌≡◌, ◌+◌, ◌≤◌, replicate};
ghost use Rattle.rules.specs.Frames.{run_of};
ghost use Rattle.tally.specs.Tally.{nothing, tally_of};

use checks::frames::FrameOfFlows;

// The cells of each flow, in the order of the list, of each input, of each output and of each link, and of all flows.
#[derive(Drop)]
pub struct Tally {
    pub flows: [u16; 512],
    pub inputs: [u16; 16],
    pub outputs: [u16; 16],
    pub links: [u16; 64],
    pub total: u16,
}

impl Tally {
    // No cell counted.
    pub fn empty() -> Tally
        ensures { result ≡ nothing }
    {
        Tally {
            flows: [0; 512],
            inputs: [0; 16],
            outputs: [0; 16],
            links: [0; 64],
            total: 0,
        }
    }
}

// Counts a run of slots inside the frame, from an empty tally. The total is kept apart, so that no entry waits for the one before it.
// The tally is lent: handed back it could be copied by memcpy, and the C library needs nothing but memset.
pub fn tally_run(frame: &FrameOfFlows<'_>, start: usize, len: usize, tally: &mut Tally)
    requires { (start + len ≤ frame.now.frame.of.slots) × (tally.old ≡ nothing) }
    ensures { tally.new ≡ tally_of frame.now.frame.of.list.now (run_of frame.now.frame.of.ports start len frame.now.frame.entries.now) }
{
    let of = &frame.frame.of;
    let from = start * of.ports;
    let end = from + len * of.ports;
    let mut total: u16 = 0;
    for &entry in &frame.frame.entries[from..end] {
        if entry != 0 {
            let f = usize::from(entry) - 1;
            let flow = of.flow(f);
            tally.flows[f] += 1;
            tally.inputs[flow.input] += 1;
            tally.outputs[flow.output] += 1;
            tally.links[flow.link] += 1;
            total += 1;
        }
    }
    tally.total = total;
}
