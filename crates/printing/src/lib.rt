//! The printing of a frame.
#![tactic(auto)]

ghost use Rattle.std.specs.Prelude.{◌≡◌, ◌<◌, ◌≤◌, ◌*◌, length, take, drop, is_some, IfSome};
ghost use Rattle.lines.specs.Lines.{Printed};
ghost use Rattle.lines.specs.Puts.{Puts, PutsIn};
ghost use Rattle.sheets.specs.Sheet.{print_cells, print_slots, print_frame};
ghost use Rattle.printing.specs.Printing.{Sized, of_size, frame_bytes, cell_of, slot_line};

use lines::Line;

// A frame of up to 16 ports and 1024 slots, with an entry for each input and slot.
#[derive(Clone, Copy)]
struct Frame<'a> {
    ports: usize,
    slots: usize,
    entries: &'a [u16],
    ghost sized: { Sized ports slots entries.now },
}

impl<'a> Frame<'a> {
    // None where the entries are of another size.
    fn new(ports: usize, slots: usize, entries: &'a [u16]) -> Option<Frame<'a>>
        ensures size { is_some result ≡ of_size ports slots (length entries.now) }
        ensures same { IfSome result (λ frame. (frame.ports ≡ ports) × (frame.slots ≡ slots) × (frame.entries.now ≡ entries.now)) }
    {
        if 16 < ports || 1024 < slots || entries.len() != slots * ports {
            return None;
        }
        Some(Frame {
            ports,
            slots,
            entries,
        })
    }

    // The entries of slot s, from 0.
    fn slot(&self, s: usize) -> &'a [u16]
        requires { s < self.now.slots }
        ensures run { result.now ≡ take self.now.ports (drop (s * self.now.ports) self.now.entries.now) }
        ensures few { length result.now ≤ 16 }
    {
        let from = s * self.ports;
        let end = from + self.ports;
        &self.entries[from..end]
    }
}

// Writes the flow that an input sends a cell of in a slot: nothing where it is idle.
#[inline]
fn put_cell(line: &mut Line<'_>, flow: usize)
    requires { line.old.at ≤ 1000000000 }
    ensures same { line.new.out.ghost_name ≡ line.old.out.ghost_name }
    ensures printed { PutsIn 21 line.old (cell_of flow) line.new }
{
    if flow == 0 {
        return;
    }
    line.put_both(b" ", flow);
}

// Writes the flows of a slot, by rising input.
fn put_cells(line: &mut Line<'_>, slot: &[u16])
    requires place { line.old.at ≤ 100000000 }
    requires few { length slot.now ≤ 16 }
    ensures same { line.new.out.ghost_name ≡ line.old.out.ghost_name }
    ensures printed { PutsIn 336 line.old (print_cells slot.now) line.new }
{
    for entry in slot {
        put_cell(line, usize::from(*entry));
    }
}

// Writes the line of a slot.
fn put_slot(line: &mut Line<'_>, number: usize, slot: &[u16])
    requires place { line.old.at ≤ 10000000 }
    requires few { length slot.now ≤ 16 }
    ensures same { line.new.out.ghost_name ≡ line.old.out.ghost_name }
    ensures printed { PutsIn 400 line.old (slot_line number slot.now) line.new }
{
    line.put_both(b"(slot ", number);
    put_cells(line, slot);
    line.put_word(b")\n");
}

// Writes the lines of the slots of a frame.
fn put_slots(line: &mut Line<'_>, frame: Frame<'_>)
    requires { line.old.at ≤ 100 }
    ensures same { line.new.out.ghost_name ≡ line.old.out.ghost_name }
    ensures printed { Puts line.old (print_slots frame.entry.ports 1 frame.entry.slots frame.entry.entries.now) line.new }
{
    // By number and not by `chunks_exact`: a frame of no ports has slots too.
    for s in 0..frame.slots {
        put_slot(line, s + 1, frame.slot(s));
    }
}

// Writes a frame; nothing where it is not of its size.
pub fn put_frame(out: &mut [u8], ports: usize, slots: usize, frame: &[u16]) -> usize
    ensures { Printed out.old 0 (frame_bytes ports slots frame.now) out.new result }
{
    let Some(frame) = Frame::new(ports, slots, frame) else {
        return 0;
    };
    let mut line = Line::new(out);
    line.put_both(b"(frame (ports ", ports);
    line.put_both(b") (slots ", slots);
    line.put_word(b"))\n");
    put_slots(&mut line, frame);
    line.at
}
