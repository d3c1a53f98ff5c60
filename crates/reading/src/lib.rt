//! The reading of a sheet: what its lines ask for.
#![tactic(auto)]

ghost use Rattle.std.specs.Prelude.{◌≡◌, [], ◌≤◌, ◌<◌, length};
ghost use Rattle.sheets.specs.Text.{lines};
ghost use Rattle.sheets.specs.Sheet.{read_ports, read_pairs};
ghost use Rattle.reading.specs.Reading.{FormOf, PortsOf, SlotsOf, PairOf, SheetOf, Fresh, list_left};

use calls::Refusal;
use flows::{LIST_MOST, put_flow};
use text::{NumberRead, behind, number_after, one_number};

// The largest number of a sheet.
const NUMBER_MOST: usize = 65535;

// The numbers of a pair line, and the bytes behind it.
#[derive(Clone, Copy)]
struct Pair<'a> {
    input: usize,
    output: usize,
    cells: usize,
    rest: &'a [u8],
}

// What a sheet asks for, beside its list of flows, which stands in a list that the caller lends: no memory is taken for it.
#[derive(Clone, Copy, Debug, PartialEq, Eq)]
pub struct Loads {
    pub ports: usize,
    pub slots: usize,
    pub flows: usize,
}

// Reads the numbers of a pair line.
fn pair_form(bytes: &[u8]) -> Option<Pair<'_>>
    ensures { FormOf bytes.now result }
{
    let NumberRead { value: input, rest } = number_after(bytes, b"(pair (in ", NUMBER_MOST)?;
    let NumberRead {
        value: output,
        rest,
    } = number_after(rest, b") (out ", NUMBER_MOST)?;
    let NumberRead { value: cells, rest } = number_after(rest, b") (cells ", NUMBER_MOST)?;
    let rest = behind(rest, b"))\n")?;
    Some(Pair {
        input,
        output,
        cells,
        rest,
    })
}

// Line 1: 7, then 1.
fn ports_line(sheet: &[u8]) -> Result<NumberRead<'_>, Refusal>
    ensures { PortsOf sheet.now result }
{
    let read = one_number(sheet, b"(ports ", NUMBER_MOST).ok_or(Refusal::LineForm { line: 1 })?;
    if checks::outside(16, read.value) {
        return Err(Refusal::Ports);
    }
    Ok(read)
}

// Line 2: 7, then 2. Apart from line 1, since what is tested and the refusal differ: one function for both would take them as parameters.
fn slots_line(bytes: &[u8], ports: usize) -> Result<NumberRead<'_>, Refusal>
    ensures { SlotsOf ports bytes.now result }
{
    let read = one_number(bytes, b"(slots ", NUMBER_MOST).ok_or(Refusal::LineForm { line: 2 })?;
    if checks::bad_slots(read.value) {
        return Err(Refusal::Slots);
    }
    Ok(read)
}

// A pair line behind those of so many flows: 7, then 21, then 8.
fn pair_line(bytes: &[u8], ports: usize, flows: usize) -> Result<Pair<'_>, Refusal>
    requires some { 0 < length bytes.now }
    requires few { flows ≤ 512 }
    ensures { PairOf ports bytes.now flows result }
{
    let line = flows + 3;
    let pair = pair_form(bytes).ok_or(Refusal::LineForm { line })?;
    if 512 <= flows {
        return Err(Refusal::TooManyFlows);
    }
    if checks::outside(ports, pair.input) || checks::outside(ports, pair.output) {
        return Err(Refusal::LinePort { line });
    }
    Ok(pair)
}

// The pair lines in turn, each one flow more of the list, on link 1.
fn read_pairs(
    bytes: &[u8],
    ports: usize,
    slots: usize,
    list: &mut [u16; LIST_MOST],
) -> Result<Loads, Refusal>
    requires { Fresh ports slots list.old }
    ensures { SheetOf (read_pairs ports slots 3 [] (lines bytes.now)) list.new result }
{
    let mut rest = bytes;
    let mut flows: usize = 0;
    // No iterator of the library has the lines: where one ends is known when it is read.
    while !rest.is_empty() {
        let line = pair_line(rest, ports, flows);
        let Ok(
            Pair {
                input,
                output,
                cells,
                rest: behind,
            },
        ) = line
        else {
            return Err(line.unwrap_err());
        };
        put_flow(list, flows, input, output, cells);
        rest = behind;
        flows += 1;
    }
    Ok(Loads {
        ports,
        slots,
        flows,
    })
}

// Reads the lines in turn; a line's refusal is the sheet's, and the list is written where there is none.
pub fn read_lines(sheet: &[u8], list: &mut [u16; LIST_MOST]) -> Result<Loads, Refusal>
    ensures asked { SheetOf (read_ports (lines sheet.now)) list.new result }
    ensures left { list.new ≡ list_left (read_ports (lines sheet.now)) list.old }
{
    // A project rule names the form for line readings: an enum that the sheet reader takes apart by `let .. else`, passing a refusal up.
    let first = ports_line(sheet);
    let Ok(NumberRead { value: ports, rest }) = first else {
        return Err(first.unwrap_err());
    };
    let second = slots_line(rest, ports);
    let Ok(NumberRead { value: slots, rest }) = second else {
        return Err(second.unwrap_err());
    };
    let mut taken = [0u16; LIST_MOST];
    let loads = read_pairs(rest, ports, slots, &mut taken)?;
    *list = taken;
    Ok(loads)
}
