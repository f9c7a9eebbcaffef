// What a call refuses with: a fault of a lower layer lies whole inside that of the layer above.
#![tactic(auto)]

ghost use Rattle.std.specs.Prelude.{◌≡◌, Some};
ghost use Rattle.faults.specs.Refusals.{text_refusal, store_refusal, solver_refusal, sheet_refusal};
ghost use Rattle.faults.specs.Shown.{layer_name, refusal_text, brief_text};
ghost use Rattle.faults.specs.declared.StoreFault.TheVariants.{Text as InText};
ghost use Rattle.faults.specs.declared.SheetFault.TheVariants.{Store as InStore, Solver as InSolver};

use std::fmt;

// The first fault of a text, with the place of its first byte.
#[derive(Clone, Copy, PartialEq, Eq)]
pub enum TextFault {
    // no word, line end or end of the shape that is due there
    Shape(usize),
    // a number beyond its limit, or another than the one due there
    Limit(usize),
}

// Why the records of a text could not be laid into a store.
#[derive(Clone, Copy, PartialEq, Eq)]
pub enum StoreFault {
    Text(TextFault),
    // the store has this many records, which are fewer than the text has rules or gates
    Short(usize),
}

// What a solver refuses.
#[derive(Clone, Copy, PartialEq, Eq)]
pub enum SolverFault {
    // the literal at this place is the first that names no contact
    BadLiteral(usize),
    // 64 added rules are held
    TooManyRules,
    // 64 bars are held
    TooManyBars,
}

// What a sheet refuses.
#[derive(Clone, Copy, PartialEq, Eq)]
pub enum SheetFault {
    Store(StoreFault),
    Solver(SolverFault),
    // the number of contacts is outside 1 to 32, or does not suit the text
    WrongContacts,
    // 32 assumptions are held
    TooManyHeld,
    // 65,535 tickets were issued
    TooManyTickets,
    // no assumption with the ticket's label and number is held here
    NotHeld,
    // the buffer is too short for what may be written
    ShortBuffer,
    // no allowed setting agrees with the held assumptions
    NoneAllowed,
    // an allowed setting agrees with the held assumptions
    SomeAllowed,
    // two sheets have different numbers of contacts
    OtherContacts,
    // both sheets allow the setting of this number
    BothAllow(u32),
    // 64 terms stand and a further one is wanted
    TooManyTerms,
}

#[derive(Clone, Copy, PartialEq, Eq)]
pub enum Layer {
    Text,
    Store,
    Solver,
    Sheet,
}

// A fault as its reader sees it.
#[derive(Clone, Copy, PartialEq, Eq)]
pub struct Refusal {
    pub number: u8,
    pub place: usize,
    pub layer: Layer,
}

// A refusal that prints without its layer.
#[derive(Clone, Copy)]
pub struct Brief {
    pub refusal: Refusal,
}

impl From<TextFault> for StoreFault {
    ghost from_gives = { λ f r. r ≡ InText f };

    fn from(fault: TextFault) -> Self {
        StoreFault::Text(fault)
    }
}

impl From<StoreFault> for SheetFault {
    ghost from_gives = { λ f r. r ≡ InStore f };

    fn from(fault: StoreFault) -> Self {
        SheetFault::Store(fault)
    }
}

impl From<SolverFault> for SheetFault {
    ghost from_gives = { λ f r. r ≡ InSolver f };

    fn from(fault: SolverFault) -> Self {
        SheetFault::Solver(fault)
    }
}

fn at_layer(number: u8, place: usize, layer: Layer) -> Refusal
    ensures value { result ≡ record { number = number; place = place; layer = layer } }
{
    Refusal {
        number,
        place,
        layer,
    }
}

impl From<TextFault> for Refusal {
    ghost from_gives = { λ f r. r ≡ text_refusal f };

    fn from(fault: TextFault) -> Self {
        match fault {
            TextFault::Shape(place) => at_layer(1, place, Layer::Text),
            TextFault::Limit(place) => at_layer(2, place, Layer::Text),
        }
    }
}

impl From<StoreFault> for Refusal {
    ghost from_gives = { λ f r. r ≡ store_refusal f };

    fn from(fault: StoreFault) -> Self {
        match fault {
            StoreFault::Text(fault) => Refusal::from(fault),
            StoreFault::Short(length) => at_layer(3, length, Layer::Store),
        }
    }
}

impl From<SolverFault> for Refusal {
    ghost from_gives = { λ f r. r ≡ solver_refusal f };

    fn from(fault: SolverFault) -> Self {
        match fault {
            SolverFault::BadLiteral(place) => at_layer(5, place, Layer::Solver),
            SolverFault::TooManyRules => at_layer(6, 0, Layer::Solver),
            SolverFault::TooManyBars => at_layer(15, 0, Layer::Solver),
        }
    }
}

impl From<SheetFault> for Refusal {
    ghost from_gives = { λ f r. r ≡ sheet_refusal f };

    fn from(fault: SheetFault) -> Self {
        match fault {
            SheetFault::Store(fault) => Refusal::from(fault),
            SheetFault::Solver(fault) => Refusal::from(fault),
            SheetFault::WrongContacts => at_layer(4, 0, Layer::Sheet),
            SheetFault::TooManyHeld => at_layer(7, 0, Layer::Sheet),
            SheetFault::TooManyTickets => at_layer(8, 0, Layer::Sheet),
            SheetFault::NotHeld => at_layer(9, 0, Layer::Sheet),
            SheetFault::ShortBuffer => at_layer(10, 0, Layer::Sheet),
            SheetFault::NoneAllowed => at_layer(11, 0, Layer::Sheet),
            SheetFault::SomeAllowed => at_layer(12, 0, Layer::Sheet),
            SheetFault::OtherContacts => at_layer(13, 0, Layer::Sheet),
            SheetFault::BothAllow(setting) => at_layer(14, setting as usize, Layer::Sheet),
            SheetFault::TooManyTerms => at_layer(15, 0, Layer::Sheet),
        }
    }
}

impl Refusal {
    pub fn brief(self) -> Brief
        ensures same { result.refusal ≡ self }
    {
        Brief { refusal: self }
    }
}

impl fmt::Display for Layer {
    ghost output = { λ layer. Some (layer_name layer) };

    fn fmt<W: fmt::Write>(&self, f: &mut fmt::Formatter<W>) -> fmt::Result {
        f.write_str(match self {
            Layer::Text => "text",
            Layer::Store => "store",
            Layer::Solver => "solver",
            Layer::Sheet => "sheet",
        })
    }
}

// `refused`, the number, the place and the layer.
impl fmt::Display for Refusal {
    ghost output = { λ refusal. Some (refusal_text refusal) };

    fn fmt<W: fmt::Write>(&self, f: &mut fmt::Formatter<W>) -> fmt::Result {
        let brief = self.brief();
        write!(f, "{brief} {}", self.layer)
    }
}

// `refused`, the number and the place.
impl fmt::Display for Brief {
    ghost output = { λ brief. Some (brief_text brief) };

    fn fmt<W: fmt::Write>(&self, f: &mut fmt::Formatter<W>) -> fmt::Result {
        write!(f, "refused {} {}", self.refusal.number, self.refusal.place)
    }
}
