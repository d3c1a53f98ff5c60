//! The sheet: what a list of bytes asks for, and what is printed for it.
#![tactic(auto)]

ghost use Rattle.std.specs.Prelude.{◌≡◌, ◌*◌, length, take};
ghost use Rattle.rules.specs.Flows.{stride};
ghost use Rattle.sheets.specs.Sheet.{loads, overloaded, read_sheet, response};
ghost use Rattle.lines.specs.Lines.{Printed};
ghost use Rattle.sheet.specs.Response.{ReadLines, bytes_of, Printable, Answered, Whole};

use calls::Refusal;
use flows::{LIST_MOST, STRIDE};
use lines::put_refusal;
use printing::put_frame;
use reading::{Loads, read_lines};

// The bytes of the longest sheet whose lines are read.
pub const SHEET_MOST: usize = 32768;

// The bytes of the longest response to any sheet.
pub const RESPONSE_MOST: usize = 76749;

// The entries of the largest frame, 16 ports in 1,024 slots.
const FRAME_MOST: usize = 16384;

// Builds the frame of the flows read, at the front of the buffer: 5, then 6; 24 never, each link's limit being the slots.
fn build_loads(asked: Loads, list: &[u16], frame: &mut [u16]) -> Result<Loads, Refusal>
    requires { ReadLines asked.ports asked.slots asked.flows list.now frame.old }
    ensures { Answered (overloaded (loads asked.ports asked.slots (take (asked.flows * stride) list.now))) frame.new result }
{
    let Loads {
        ports,
        slots,
        flows,
    } = asked;
    let numbers = &list[..flows * STRIDE];
    let room = &mut frame[..slots * ports];
    // By `as`: `try_from` would have a case that does not come.
    let limits = [slots as u16; 64];
    build::build(ports, slots, numbers, limits, room)?;
    Ok(asked)
}

// What a sheet is answered with: 10 before all else, the lines in turn, overload last.
fn read_sheet(sheet: &[u8], frame: &mut [u16]) -> Result<Loads, Refusal>
    requires { length frame.old ≡ 16384 }
    ensures { Answered (read_sheet sheet.now) frame.new result }
{
    if SHEET_MOST < sheet.len() {
        return Err(Refusal::SheetLength);
    }
    let mut list = [0u16; LIST_MOST];
    let asked = read_lines(sheet, &mut list)?;
    build_loads(asked, &list, frame)
}

// Writes the frame or the refusal that a sheet is answered with.
fn put_answer(out: &mut [u8], answer: Result<Loads, Refusal>, frame: &[u16]) -> usize
    requires { Printable answer frame.now }
    ensures { Printed out.old 0 (bytes_of answer frame.now) out.new result }
{
    match answer {
        Ok(Loads { ports, slots, .. }) => put_frame(out, ports, slots, &frame[..slots * ports]),
        Err(refused) => put_refusal(out, refused),
    }
}

// The response to a sheet, written to the front of a buffer that holds any response.
pub fn respond(sheet: &[u8], out: &mut [u8; RESPONSE_MOST]) -> usize
    ensures { Whole (response sheet.now) out.old out.new result }
{
    let mut frame = [0u16; FRAME_MOST];
    let answer = read_sheet(sheet, &mut frame);
    put_answer(out, answer, &frame)
}
