// Slots: the counts of a block of one slot as entries.
ghost use Rattle.std.specs.Prelude.{◌≡◌, ◌≤◌, length, replicate};
ghost use Rattle.rules.specs.Schedule.{slot_of};
ghost use Rattle.bits.specs.Digits.{places};
ghost use Rattle.planes.specs.Planes.{counts_in};
ghost use Rattle.planes.specs.Tables.{tabled};
ghost use Rattle.schedule.specs.Steps.{InputsBelow, AtSlot, PutBy};

use bits::ones_of;
use planes::{ENDS, INPUTS, Planes};

// The entry at an input is the number of its flow, from 1.
fn put_cells(x: u64, base: usize, ends: &[u8; ENDS], slot: &mut [u16])
    requires { (base ≤ 512) × AtSlot ends.now (length slot.old) (places base 64 x) }
    ensures { PutBy ends.now (places base 64 x) slot.old slot.new }
{
    for t in ones_of(x) {
        let p = base + t;
        let input = usize::from(ends[INPUTS + p]);
        // By `as`: `try_from` would have a case that does not come.
        slot[input] = (p + 1) as u16;
    }
}

// In a block of one slot the odd counts are the cells of the slot, which is idle before.
pub(crate) fn write(planes: Planes<'_>, ends: &[u8; ENDS], slot: &mut [u16])
    requires { InputsBelow (length slot.old) planes.positions ends.now × (slot.old ≡ replicate (length slot.old) 0) }
    ensures { slot.new ≡ slot_of (length slot.old) (tabled ends.now)
        (counts_in 1 planes.entry.words.now planes.entry.positions) }
{
    for (w, &word) in planes.lowest().iter().enumerate() {
        put_cells(word, w * 64, ends, slot);
    }
}
