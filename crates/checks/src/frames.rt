// Frames that have passed the checks, with the list that they are for.
ghost use Rattle.std.specs.Prelude.{◌≡◌, [], ◌∷◌, ◌*◌, ◌<◌, ◌≤◌, length, IfOk, IfErr};
ghost use Rattle.rules.specs.Flows.{flows, inputs, links, port_of, output_of};
ghost use Rattle.rules.specs.Frames.{levels, run_of};
ghost use Rattle.calls.specs.Refusals.{refusal, report, accepted, bad_frame};
ghost use Rattle.checks.specs.Fits.{EachFlow};

use crate::bad_length;
use crate::reservations::Reservations;
use calls::Refusal;

// A frame of such a list: a power of two slots, and an entry for each port in each of them.
#[derive(Clone, Copy)]
pub struct Frame<'a> {
    pub of: Reservations<'a>,
    pub entries: &'a [u16],
    ghost power: { levels of.slots < 11 },
    ghost size: { length entries.now ≡ of.slots * of.ports },
}

impl<'a> Frame<'a> {
    // The entries of slot s, from 0.
    pub fn slot(&self, s: usize) -> &'a [u16]
        requires { s < self.now.of.slots }
        ensures run { result.now ≡ run_of self.now.of.ports s 1 self.now.entries.now }
        ensures len { length result.now ≡ self.now.of.ports }
    {
        let from = s * self.of.ports;
        let end = from + self.of.ports;
        &self.entries[from..end]
    }
}

// Such a frame whose entries are 0 or numbers of flows.
#[derive(Clone, Copy)]
pub struct FrameOfFlows<'a> {
    pub frame: Frame<'a>,
    ghost each_flow: { EachFlow frame.of.list.now frame.entries.now },
}

// Refusal 4, of the entries for a list that has passed.
pub fn check_frame<'a>(of: Reservations<'a>, entries: &'a [u16]) -> Result<Frame<'a>, Refusal>
    requires { levels of.slots < 11 }
    ensures passed { IfOk result (λ frame. (frame.of.ports ≡ of.entry.ports) × (frame.of.slots ≡ of.entry.slots) × (frame.of.list.now ≡ of.entry.list.now) × (frame.entries.now ≡ entries.now)) }
    ensures refused { IfErr result (λ r. refusal r ≡ report (bad_frame of.entry.ports of.entry.slots entries.now ∷ []) accepted) }
{
    if bad_length(entries.len(), of.slots, of.ports) {
        return Err(Refusal::FrameLength);
    }
    Ok(Frame { of, entries })
}
