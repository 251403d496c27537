ghost use Rattle.std.specs.Prelude.{◌≡◌};
ghost use Rattle.machine.specs.Faults.{number, layer as layer_of};
ghost use Rattle.controller.specs.Views.{fault_of, layer_number, with_line, LineAt, controller_says};
ghost use Rattle.controller.specs.declared.types.TreeFault.TheVariants.{Board as OfBoard};
ghost use Rattle.controller.specs.declared.types.Fault.TheVariants.{Tree as OfTree};

use crate::types::{Fault, Layer, LineFault, TreeFault};
use board::board::Board;
use board::types::{BoardFault, Line};

impl From<LineFault> for TreeFault {
    ghost from_gives = { λ f r. r ≡ OfBoard f };

    fn from(f: LineFault) -> TreeFault {
        TreeFault::Board(f)
    }
}

impl From<TreeFault> for Fault {
    ghost from_gives = { λ f r. r ≡ OfTree f };

    fn from(f: TreeFault) -> Fault {
        Fault::Tree(f)
    }
}

impl From<Layer> for u64 {
    ghost from_gives = { λ layer n. n ≡ layer_number layer };

    fn from(layer: Layer) -> u64 {
        match layer {
            Layer::Board => 1,
            Layer::Tree => 2,
            Layer::Controller => 3,
        }
    }
}

impl LineFault {
    // The cause's number.
    fn cause(&self) -> u64
        ensures { result ≡ number (fault_of (OfTree (OfBoard self.now))).cause }
    {
        match self.fault {
            BoardFault::Absent => 3,
            BoardFault::PowerLost => 10,
        }
    }

    // The line in hand when power was lost.
    fn place(&self) -> u64
        ensures { result ≡ (fault_of (OfTree (OfBoard self.now))).place }
    {
        match self.fault {
            BoardFault::Absent => 0,
            BoardFault::PowerLost => self.line as u64,
        }
    }

    // The layer: a missing line is the controller's to report.
    fn met_by(&self) -> Layer
        ensures { layer_number result ≡ layer_of (fault_of (OfTree (OfBoard self.now))).cause }
    {
        match self.fault {
            BoardFault::Absent => Layer::Controller,
            BoardFault::PowerLost => Layer::Board,
        }
    }
}

impl TreeFault {
    // The cause's number.
    fn cause(&self) -> u64
        ensures { result ≡ number (fault_of (OfTree self.now)).cause }
    {
        match self {
            TreeFault::Board(f) => f.cause(),
            TreeFault::Corrupt(_) => 8,
            TreeFault::SumMismatch => 9,
            TreeFault::AtLimit(_) => 11,
        }
    }

    // The address concerned, or 0.
    fn place(&self) -> u64
        ensures { result ≡ (fault_of (OfTree self.now)).place }
    {
        match self {
            TreeFault::Board(f) => f.place(),
            TreeFault::Corrupt(at) | TreeFault::AtLimit(at) => *at as u64,
            TreeFault::SumMismatch => 0,
        }
    }

    // The layer that met the cause.
    fn met_by(&self) -> Layer
        ensures { layer_number result ≡ layer_of (fault_of (OfTree self.now)).cause }
    {
        match self {
            TreeFault::Board(f) => f.met_by(),
            TreeFault::Corrupt(_) | TreeFault::SumMismatch | TreeFault::AtLimit(_) => Layer::Tree,
        }
    }
}

impl Fault {
    // The number that is printed for the fault, from 1 to 11: the variants are its kinds.
    pub fn cause(&self) -> u64
        ensures { result ≡ number (fault_of self.now).cause }
    {
        match self {
            Fault::Tree(f) => f.cause(),
            Fault::NotData(_) => 1,
            Fault::BadLevels | Fault::BadSlots => 2,
            Fault::TooFewLines => 3,
            Fault::InvalidRegister => 4,
            Fault::AlreadyFormatted => 5,
            Fault::OtherSuite => 6,
            Fault::TooManyDirty => 7,
        }
    }

    // The address concerned, or 0.
    pub fn place(&self) -> u64
        ensures { result ≡ (fault_of self.now).place }
    {
        match self {
            Fault::Tree(f) => f.place(),
            Fault::NotData(at) => *at as u64,
            _ => 0,
        }
    }

    // The layer that met the cause.
    pub fn met_by(&self) -> Layer
        ensures { layer_number result ≡ layer_of (fault_of self.now).cause }
    {
        match self {
            Fault::Tree(f) => f.met_by(),
            _ => Layer::Controller,
        }
    }

    // The number of that layer: 1 the board, 2 the tree, 3 the controller.
    pub fn layer(&self) -> u64
        ensures { result ≡ layer_of (fault_of self.now).cause }
    {
        u64::from(self.met_by())
    }
}

// A board's answer, its fault with the line in hand.
pub(crate) fn at_line<T>(r: Result<T, BoardFault>, line: usize) -> Result<T, LineFault>
    ensures { result ≡ with_line r line }
{
    r.map_err(|fault| LineFault { fault, line })
}

// The line at an address.
pub(crate) fn line_of<B: Board>(board: &B, at: usize) -> Result<Line, LineFault>
    ensures { LineAt (B.Board.meaning board.now) at result }
{
    at_line(board.read_line(at), at)
}

// What the controller says of the tree's answer.
pub(crate) fn answer(r: Result<(), TreeFault>) -> Result<(), Fault>
    ensures { result ≡ controller_says r }
{
    r.map_err(Fault::from)
}
