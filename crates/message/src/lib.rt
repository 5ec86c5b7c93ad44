// The message file: numbers, energies, calls, whole files. What is read and what is written are each other's inverse.
#![tactic(auto)]

pub mod call;
pub mod cause;
pub mod energy;
pub mod file;
pub mod number;
pub mod pass;
pub mod series;

use quantity::{Day, PointNo, Version};

// Why a file or a call is refused: 31 to 35 of the table of causes.
#[derive(Clone, Copy)]
pub enum FileCause {
    // The file ends inside a call.
    Cut,
    // A number that is not in its shortest form, or whose ninth byte has the top bit set.
    NotShortest,
    // A kind that is not one of the calls'.
    BadKind,
    // A series of more than 2,980 energies; from the writer also a number that a file cannot carry.
    TooLarge,
    // More energies than the series buffer holds; from the writer: an output that is too short.
    NoRoom,
}

// A refusal, and the offset of the refused call.
#[derive(Clone, Copy)]
pub struct FileRefusal {
    pub cause: FileCause,
    pub offset: usize,
}

// A number of the file and the offset behind it.
#[derive(Clone, Copy)]
pub struct NumberRead {
    pub value: u64,
    pub next: usize,
}

// A block of bytes: whether no byte of it makes a number that is refused, and how many have their top bit set.
#[derive(Clone, Copy)]
pub struct Block {
    pub sound: bool,
    pub more: u8,
}

// How many numbers were passed over, and the offset behind them.
#[derive(Clone, Copy)]
pub struct Reached {
    pub numbers: usize,
    pub at: usize,
}

// A call of the desk by its kind, with its fields; an opening's 17 delta groups and a submission's energies stand beside it.
#[derive(Clone, Copy)]
pub enum DeskCall {
    Open {
        quarters: u64,
        first: Day,
        clearing: Day,
        correction: Day,
    },
    Activate {
        point: PointNo,
        kind: u64,
        area: u64,
        partner: u64,
        day: Day,
    },
    Deactivate {
        point: PointNo,
        day: Day,
    },
    Submit {
        point: PointNo,
        version: Version,
        day: Day,
    },
    Notice {
        point: PointNo,
        version: Version,
        verdict: u64,
        day: Day,
    },
    Assign {
        area: u64,
        group: u64,
        day: Day,
    },
    Close {
        run: u64,
        day: Day,
    },
    Issue {
        run: u64,
        day: Day,
    },
}
