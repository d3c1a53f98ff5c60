//! The answers that the calls share. Their numbers and values are given in specs/Refusals.antt.
#![tactic(auto)]

ghost use Rattle.std.specs.Prelude.{◌≡◌};
ghost use Rattle.rules.specs.Flows.{other};
ghost use Rattle.calls.specs.Sides.{side_of};

// A refusal, with what it carries: the error of every call. Admit and Turn answer nothing else; Build's value is how many odd counts were
// settled for the frame.
#[derive(Clone, Copy, Debug, PartialEq, Eq)]
pub enum Refusal {
    Ports,
    Slots,
    ListLength,
    FrameLength,
    InputLoad {
        port: usize,
        cells: usize,
    },
    OutputLoad {
        port: usize,
        cells: usize,
    },
    LineForm {
        line: usize,
    },
    LinePort {
        line: usize,
    },
    SheetLength,
    SlotNumber,
    FlowOrPort,
    RunLength,
    Entries,
    SecondLength,
    FrameEntries,
    InputFull,
    OutputFull,
    TooManyFlows,
    FlowPort,
    FlowLink,
    LinkLoad {
        output: usize,
        link: usize,
        cells: usize,
    },
}

// The side of a frame: a slot has one entry for each port of it.
#[derive(Clone, Copy, Debug, PartialEq, Eq)]
pub enum Side {
    Input,
    Output,
}

impl Side {
    // The side across the switch.
    pub fn other(self) -> Side
        ensures { side_of result ≡ other (side_of self) }
    {
        match self {
            Side::Input => Side::Output,
            Side::Output => Side::Input,
        }
    }
}

// What Inspect finds; slots, ports, flows and the first slot of a block are numbered from 1. A wrong entry stands at a port of the
// frame's own side, and a port that is used twice is one of the other side.
#[derive(Clone, Copy, Debug, PartialEq, Eq)]
pub enum Inspection {
    Clean,
    WrongEntry { slot: usize, port: usize },
    PortTwice { slot: usize, port: usize },
    FlowCount { flow: usize },
    UnbalancedBlock { slot: usize, size: usize },
}

// Whom Service count counts for, numbered from 1.
#[derive(Clone, Copy, Debug, PartialEq, Eq)]
pub enum Who {
    Flow(usize),
    Input(usize),
    Output(usize),
}

// What a run had of a flow or a port, and how far ahead that is: slots × cells, less the run's length × the cells of one
// whole frame, below 0 where the run is behind.
#[derive(Clone, Copy, Debug, PartialEq, Eq)]
pub struct Count {
    pub cells: usize,
    pub lead: i64,
}

// How far from its share a run can get, in parts of 1 / slots of a cell, and the cells to order for an even source.
#[derive(Clone, Copy, Debug, PartialEq, Eq)]
pub struct Bound {
    pub parts: usize,
    pub cells: usize,
}

// The slot that an added cell was put into, the other slot that changed, where there is one, and how many cells were moved.
#[derive(Clone, Copy, Debug, PartialEq, Eq)]
pub struct Added {
    pub slot: usize,
    pub other: Option<usize>,
    pub moved: usize,
}
