//! Document 01's number of each answer, with the values that it carries, and the side that a number means.
#![tactic(auto)]

ghost use Rattle.std.specs.Prelude.{◌≡◌};
ghost use Rattle.calls.specs.Refusals.{refusal, answered};
ghost use Rattle.calls.specs.Build.{outcome};
ghost use Rattle.calls.specs.Inspect.{inspection_numbers};
ghost use Rattle.calls.specs.Service.{served};
ghost use Rattle.calls.specs.Depth.{depth_numbers};
ghost use Rattle.calls.specs.Added.{add_numbers};
ghost use Rattle.calls.specs.Sides.{side_of};
ghost use Rattle.numbers.specs.Numbers.{Values2, Values3, Replied};
ghost use Rattle.numbers.specs.Sides.{side_numbered};

use calls::{Added, Bound, Count, Inspection, Refusal, Side};

// An answer's number and its three values, 0 where it has none.
#[derive(Clone, Copy, Debug, PartialEq, Eq)]
pub struct Numbers {
    pub number: usize,
    pub first: usize,
    pub second: usize,
    pub third: usize,
}

impl Numbers {
    // A number with its values.
    fn new(number: usize, first: usize, second: usize, third: usize) -> Numbers
        ensures number { result.number ≡ number }
        ensures first { result.first ≡ first }
        ensures second { result.second ≡ second }
        ensures third { result.third ≡ third }
    {
        Numbers {
            number,
            first,
            second,
            third,
        }
    }

    // Writes the first two values where they are asked for, and answers the number.
    pub fn put_two(self, first: &mut usize, second: &mut usize) -> usize
        ensures number { result ≡ self.number }
        ensures first { first.new ≡ self.first }
        ensures second { second.new ≡ self.second }
    {
        *first = self.first;
        *second = self.second;
        self.number
    }

    // Writes all three values, and answers the number.
    pub fn put_three(self, first: &mut usize, second: &mut usize, third: &mut usize) -> usize
        ensures number { result ≡ self.number }
        ensures first { first.new ≡ self.first }
        ensures second { second.new ≡ self.second }
        ensures third { third.new ≡ self.third }
    {
        *third = self.third;
        self.put_two(first, second)
    }
}

impl From<Refusal> for Numbers {
    ghost from_gives = { λ r n. Values3 (refusal r) n.number n.first n.second n.third };

    fn from(refused: Refusal) -> Numbers {
        match refused {
            Refusal::Ports => Numbers::new(1, 0, 0, 0),
            Refusal::Slots => Numbers::new(2, 0, 0, 0),
            Refusal::ListLength => Numbers::new(3, 0, 0, 0),
            Refusal::FrameLength => Numbers::new(4, 0, 0, 0),
            Refusal::InputLoad { port, cells } => Numbers::new(5, port, cells, 0),
            Refusal::OutputLoad { port, cells } => Numbers::new(6, port, cells, 0),
            Refusal::LineForm { line } => Numbers::new(7, line, 0, 0),
            Refusal::LinePort { line } => Numbers::new(8, line, 0, 0),
            Refusal::SheetLength => Numbers::new(10, 0, 0, 0),
            Refusal::SlotNumber => Numbers::new(11, 0, 0, 0),
            Refusal::FlowOrPort => Numbers::new(12, 0, 0, 0),
            Refusal::RunLength => Numbers::new(13, 0, 0, 0),
            Refusal::Entries => Numbers::new(14, 0, 0, 0),
            Refusal::SecondLength => Numbers::new(15, 0, 0, 0),
            Refusal::FrameEntries => Numbers::new(16, 0, 0, 0),
            Refusal::InputFull => Numbers::new(17, 0, 0, 0),
            Refusal::OutputFull => Numbers::new(18, 0, 0, 0),
            Refusal::TooManyFlows => Numbers::new(21, 0, 0, 0),
            Refusal::FlowPort => Numbers::new(22, 0, 0, 0),
            Refusal::FlowLink => Numbers::new(23, 0, 0, 0),
            Refusal::LinkLoad {
                output,
                link,
                cells,
            } => Numbers::new(24, output, link, cells),
        }
    }
}

// What Admit and Turn answer.
impl From<Result<(), Refusal>> for Numbers {
    ghost from_gives = { λ r n. Values3 (answered r) n.number n.first n.second n.third };

    fn from(answer: Result<(), Refusal>) -> Numbers {
        match answer {
            Ok(()) => Numbers::new(0, 0, 0, 0),
            Err(refusal) => Numbers::from(refusal),
        }
    }
}

// What Build answers. Each answer has a `From` of its own, since its values are its own.
impl From<Result<usize, Refusal>> for Numbers {
    ghost from_gives = { λ r n. Values3 (outcome r) n.number n.first n.second n.third };

    fn from(answer: Result<usize, Refusal>) -> Numbers {
        match answer {
            Ok(settled) => Numbers::new(0, settled, 0, 0),
            Err(refusal) => Numbers::from(refusal),
        }
    }
}

// What Inspect answers.
impl From<Result<Inspection, Refusal>> for Numbers {
    ghost from_gives = { λ r n. Values3 (inspection_numbers r) n.number n.first n.second n.third };

    fn from(answer: Result<Inspection, Refusal>) -> Numbers {
        match answer {
            Ok(Inspection::Clean) => Numbers::new(0, 0, 0, 0),
            Ok(Inspection::WrongEntry { slot, port }) => Numbers::new(101, slot, port, 0),
            Ok(Inspection::PortTwice { slot, port }) => Numbers::new(102, slot, port, 0),
            Ok(Inspection::FlowCount { flow }) => Numbers::new(103, flow, 0, 0),
            Ok(Inspection::UnbalancedBlock { slot, size }) => Numbers::new(104, slot, size, 0),
            Err(refusal) => Numbers::from(refusal),
        }
    }
}

// What Depth answers.
impl From<Result<Bound, Refusal>> for Numbers {
    ghost from_gives = { λ r n. Values3 (depth_numbers r) n.number n.first n.second n.third };

    fn from(answer: Result<Bound, Refusal>) -> Numbers {
        match answer {
            Ok(bound) => Numbers::new(0, bound.parts, bound.cells, 0),
            Err(refusal) => Numbers::from(refusal),
        }
    }
}

// What Add answers.
impl From<Result<Added, Refusal>> for Numbers {
    ghost from_gives = { λ r n. Values3 (add_numbers r) n.number n.first n.second n.third };

    fn from(answer: Result<Added, Refusal>) -> Numbers {
        match answer {
            Ok(added) => Numbers::new(0, added.slot, added.other.unwrap_or(0), added.moved),
            Err(refusal) => Numbers::from(refusal),
        }
    }
}

// A count's number, its cells and its lead, 0 where it is refused.
#[derive(Clone, Copy, Debug, PartialEq, Eq)]
pub struct CountNumbers {
    pub number: usize,
    pub cells: usize,
    pub lead: i64,
}

impl CountNumbers {
    // Writes the cells and the lead where they are asked for, and answers the number. `Numbers::put_two` does not serve: a lead is signed.
    pub fn put(self, cells: &mut usize, lead: &mut i64) -> usize
        ensures number { result ≡ self.number }
        ensures cells { cells.new ≡ self.cells }
        ensures lead { lead.new ≡ self.lead }
    {
        *cells = self.cells;
        *lead = self.lead;
        self.number
    }
}

// What Service count answers.
impl From<Result<Count, Refusal>> for CountNumbers {
    ghost from_gives = { λ r n. Replied (served r) n.number n.cells n.lead };

    fn from(answer: Result<Count, Refusal>) -> CountNumbers {
        match answer {
            Ok(Count { cells, lead }) => CountNumbers {
                number: 0,
                cells,
                lead,
            },
            Err(refusal) => {
                let numbers = Numbers::from(refusal);
                CountNumbers {
                    number: numbers.number,
                    cells: numbers.first,
                    lead: 0,
                }
            }
        }
    }
}

// The side of a frame by its number. It is no `From`, since `Side` is a type of another crate.
pub fn side_of(side: usize) -> Side
    ensures { side_of result ≡ side_numbered side }
{
    if side == 0 { Side::Input } else { Side::Output }
}
