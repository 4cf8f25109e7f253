// The origins of data places.

ghost use Rattle.std.specs.Prelude.{◌≡◌, ◌<◌};
ghost use Rattle.row_rules.specs.PlaceRows.Locations.{location_count};
ghost use Rattle.row_rules.specs.PlaceRows.Origins.{is_open, has_data, row_of, row_at, span_row, every_row, by_place, origin_at_start};

use crate::place_rows::location::{FIRST_BYTE, LOCATIONS, Location};
use crate::place_rows::span::{EVERY, Span};
use kind_core::{Kind, Kinds, Number};

/// What made the value of a data place: the number of a node, from 1 on, or 0 of what is there at the start; and in which row.
#[derive(Copy, Clone, Debug, PartialEq, Eq)]
pub struct Origin {
    pub maker: u32,
    pub row: u32,
}

/// The origins of all data places: none where nothing is made, since the kind says by itself what the value is.
#[derive(Copy, Clone)]
pub struct Origins {
    pub places: [Option<Origin>; LOCATIONS],
}

// Whether a kind leaves a value open: a number or a place in the packet that is not known, or a pointer to an entry.
fn is_open(kind: Kind) -> bool
    ensures { result ≡ is_open kind }
{
    matches!(
        kind,
        Kind::Num(Number::Between(_, _)) | Kind::Var(_, _) | Kind::Maybe(_, _) | Kind::Entry(_, _)
    )
}

/// Whether there is data in a place.
pub fn has_data(kinds: &Kinds, place: usize) -> bool
    requires { place < location_count }
    ensures { result ≡ has_data kinds.now place }
{
    match Location::of(place) {
        Location::Register(r) => is_open(kinds.registers[r as usize]),
        Location::StackSlot(s) => is_open(kinds.slots[s as usize]),
        Location::PacketByte(_) | Location::Target | Location::PendingWrites(_) => true,
    }
}

/// The row of an origin, 0 of none.
pub fn row_of(origin: Option<Origin>) -> u32
    ensures { result ≡ row_of origin }
{
    match origin {
        Some(o) => o.row,
        None => 0,
    }
}

impl Origins {
    /// The origins at the start.
    pub fn start() -> Origins
        ensures { result.places ≡ by_place origin_at_start }
    {
        let mut places = [None; LOCATIONS];
        for place in FIRST_BYTE..LOCATIONS {
            places[place] = Some(Origin { maker: 0, row: 0 });
        }
        Origins { places }
    }

    /// The row of a place, 0 past the last.
    pub fn row_at(&self, place: usize) -> u32
        ensures { result ≡ row_at self.now.places place }
    {
        if place < LOCATIONS {
            row_of(self.places[place])
        } else {
            0
        }
    }

    /// The greatest row of some places.
    pub fn span_row(&self, span: Span) -> u32
        ensures { result ≡ span_row self.now.places span }
    {
        let mut most = 0;
        for place in span.from..span.end {
            most = most.max(self.row_at(place));
        }
        most
    }

    /// The greatest row of all places.
    pub fn every_row(&self) -> u32
        ensures { result ≡ every_row self.now.places }
    {
        self.span_row(EVERY)
    }
}
