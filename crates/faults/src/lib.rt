// What may be wrong with a sheet or a call: a fault type a layer, each carrying the layer below it whole.
#![tactic(auto)]

ghost use Rattle.std.specs.Prelude.{◌≡◌, Some};
ghost use Rattle.faults.specs.Told.{told_at, number_of, told_bytes, told_sheet, told_plan};
ghost use Rattle.faults.specs.Text.{layer_text, place_text, told_text};
ghost use Rattle.faults.specs.declared.SheetFault.TheVariants.{Bytes, Memory};
ghost use Rattle.faults.specs.declared.PlanFault.TheVariants.{Sheet};

use std::alloc::AllocError;
use std::error::Error;
use std::fmt;

// Where a fault stands: the record's number, counted through all sorts from 0, and its first byte.
#[derive(Clone, Copy, Debug, PartialEq, Eq)]
pub struct Place {
    pub record: usize,
    pub byte: usize,
}

// The layers, from the bytes up. Want of memory is the machine's, and no fault of the input.
#[derive(Clone, Copy, Debug, PartialEq, Eq)]
pub enum Layer {
    Bytes,
    Sheet,
    Plan,
    Machine,
}

// What a fault is told as.
#[derive(Clone, Copy, Debug, PartialEq, Eq)]
pub struct Told {
    pub number: u8,
    pub layer: Layer,
    pub place: Option<Place>,
}

// The bytes are no run of whole records.
#[derive(Clone, Copy, Debug, PartialEq, Eq)]
pub enum BytesFault {
    Cut(Place),
    UnknownMark(Place),
}

// What may be wrong with a whole record.
#[derive(Clone, Copy, Debug, PartialEq, Eq)]
pub enum Flaw {
    OutOfOrder,
    TooMany,
    NoChannel,
    UnknownKind,
    NumberOutside,
    NotThere,
    WrongSort,
    TooDeep,
}

// The records are no sheet.
#[derive(Clone, Copy, Debug, PartialEq, Eq)]
pub enum SheetFault {
    Bytes(BytesFault),
    Record(Flaw, Place),
    NoStation(Place),
    Memory,
}

// A call is refused.
#[derive(Clone, Copy, Debug, PartialEq, Eq)]
pub enum PlanFault {
    Sheet(SheetFault),
    TooShort,
}

// The three `From` are written by hand: a derived one has no contract, and the clauses above name the fault that a `?` makes.
impl From<BytesFault> for SheetFault {
    ghost from_gives = { λ e r. r ≡ Bytes e };

    fn from(fault: BytesFault) -> SheetFault {
        SheetFault::Bytes(fault)
    }
}

impl From<AllocError> for SheetFault {
    ghost from_gives = { λ _ r. r ≡ Memory };

    fn from(_e: AllocError) -> SheetFault {
        SheetFault::Memory
    }
}

impl From<SheetFault> for PlanFault {
    ghost from_gives = { λ e r. r ≡ Sheet e };

    fn from(fault: SheetFault) -> PlanFault {
        PlanFault::Sheet(fault)
    }
}

impl Told {
    // A fault of a layer, at a place.
    fn at(number: u8, layer: Layer, place: Place) -> Told
        ensures { result ≡ told_at number layer place }
    {
        Told {
            number,
            layer,
            place: Some(place),
        }
    }
}

impl BytesFault {
    pub fn told(&self) -> Told
        ensures { result ≡ told_bytes self.now }
    {
        match *self {
            BytesFault::Cut(place) => Told::at(1, Layer::Bytes, place),
            BytesFault::UnknownMark(place) => Told::at(2, Layer::Bytes, place),
        }
    }
}

impl Flaw {
    // The numbers are told by a `match`: as discriminants two of them could not be made the same, and no proof would be asked.
    pub fn number(&self) -> u8
        ensures { result ≡ number_of self.now }
    {
        match *self {
            Flaw::OutOfOrder => 3,
            Flaw::TooMany => 4,
            Flaw::NoChannel => 5,
            Flaw::UnknownKind => 6,
            Flaw::NumberOutside => 7,
            Flaw::NotThere => 8,
            Flaw::WrongSort => 9,
            Flaw::TooDeep => 10,
        }
    }
}

impl SheetFault {
    pub fn told(&self) -> Told
        ensures { result ≡ told_sheet self.now }
    {
        match *self {
            SheetFault::Bytes(below) => below.told(),
            SheetFault::Record(flaw, place) => Told::at(flaw.number(), Layer::Sheet, place),
            SheetFault::NoStation(place) => Told::at(11, Layer::Sheet, place),
            SheetFault::Memory => Told {
                number: 0,
                layer: Layer::Machine,
                place: None,
            },
        }
    }
}

impl PlanFault {
    pub fn told(&self) -> Told
        ensures { result ≡ told_plan self.now }
    {
        match *self {
            PlanFault::Sheet(below) => below.told(),
            PlanFault::TooShort => Told {
                number: 17,
                layer: Layer::Plan,
                place: None,
            },
        }
    }
}

impl fmt::Display for Layer {
    ghost output = { λ layer. Some (layer_text layer) };

    fn fmt<W: fmt::Write>(&self, f: &mut fmt::Formatter<W>) -> fmt::Result {
        f.write_str(match self {
            Layer::Bytes => "bytes",
            Layer::Sheet => "sheet",
            Layer::Plan => "plan",
            Layer::Machine => "machine",
        })
    }
}

impl fmt::Display for Place {
    ghost output = { λ place. Some (place_text place) };

    fn fmt<W: fmt::Write>(&self, f: &mut fmt::Formatter<W>) -> fmt::Result {
        let Place { record, byte } = *self;
        write!(f, "record {record} byte {byte}")
    }
}

impl fmt::Display for Told {
    ghost output = { λ told. Some (told_text told) };

    fn fmt<W: fmt::Write>(&self, f: &mut fmt::Formatter<W>) -> fmt::Result {
        let Told {
            number,
            layer,
            place,
        } = *self;
        match place {
            Some(place) => write!(f, "{number} layer {layer} {place}"),
            None => write!(f, "{number} layer {layer}"),
        }
    }
}

impl fmt::Display for BytesFault {
    ghost output = { λ fault. Some (told_text (told_bytes fault)) };

    fn fmt<W: fmt::Write>(&self, f: &mut fmt::Formatter<W>) -> fmt::Result {
        write!(f, "{}", self.told())
    }
}

impl fmt::Display for SheetFault {
    ghost output = { λ fault. Some (told_text (told_sheet fault)) };

    fn fmt<W: fmt::Write>(&self, f: &mut fmt::Formatter<W>) -> fmt::Result {
        match self {
            SheetFault::Bytes(below) => write!(f, "{below}"),
            fault => write!(f, "{}", fault.told()),
        }
    }
}

impl fmt::Display for PlanFault {
    ghost output = { λ fault. Some (told_text (told_plan fault)) };

    fn fmt<W: fmt::Write>(&self, f: &mut fmt::Formatter<W>) -> fmt::Result {
        match self {
            PlanFault::Sheet(below) => write!(f, "{below}"),
            fault => write!(f, "{}", fault.told()),
        }
    }
}

impl Error for BytesFault {}

impl Error for SheetFault {}

impl Error for PlanFault {}
