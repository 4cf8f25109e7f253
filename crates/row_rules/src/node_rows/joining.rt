// Where edges meet.

ghost use Rattle.std.specs.Prelude.{◌≡◌, ◌<◌, length};
ghost use Rattle.row_rules.specs.PlaceRows.Locations.{location_count};
ghost use Rattle.row_rules.specs.NodeRows.Joining.{brings, edge_row, brought_row, all_bring, met, first_brings, origins_at};

use crate::place_rows::location::LOCATIONS;
use crate::place_rows::origin::{Origin, Origins, has_data, row_of};
use kind_core::Kinds;

/// An edge that leads to a node: its row, what is known on it, and the origins after the node that it leaves.
#[derive(Copy, Clone)]
pub struct Arrival {
    pub row: u32,
    pub kinds: Kinds,
    pub origins: Origins,
}

impl Arrival {
    /// The origin that an edge brings: none where there is no data on it.
    fn brings(&self, place: usize) -> Option<Origin>
        requires { place < location_count }
        ensures { result ≡ brings self.now place }
    {
        if has_data(&self.kinds, place) {
            self.origins.places[place]
        } else {
            None
        }
    }
}

/// The greatest row of edges.
pub(crate) fn edge_row(arrivals: &[Arrival]) -> u32
    ensures { result ≡ edge_row arrivals.now }
{
    let mut most = 0;
    for arrival in arrivals {
        most = most.max(arrival.row);
    }
    most
}

// The greatest row that edges bring to a place.
fn brought_row(arrivals: &[Arrival], place: usize) -> u32
    requires { place < location_count }
    ensures { result ≡ brought_row arrivals.now place }
{
    let mut most = 0;
    for arrival in arrivals {
        most = most.max(row_of(arrival.brings(place)));
    }
    most
}

// Whether all edges bring this origin.
fn all_bring(arrivals: &[Arrival], place: usize, origin: Origin) -> bool
    requires { place < location_count }
    ensures { result ≡ all_bring arrivals.now place origin }
{
    for arrival in arrivals {
        if arrival.brings(place) != Some(origin) {
            return false;
        }
    }
    true
}

// The origin where edges meet: the one that all bring, or a new one in the greatest row of these and of the edges.
fn meet(arrivals: &[Arrival], maker: u32, place: usize) -> Option<Origin>
    requires some { 0 < length arrivals.now }
    requires place { place < location_count }
    ensures { result ≡ met arrivals.now maker place (first_brings arrivals.now place) }
{
    if let Some(origin) = arrivals[0].brings(place) {
        if all_bring(arrivals, place, origin) {
            return Some(origin);
        }
    }
    let row = edge_row(arrivals).max(brought_row(arrivals, place));
    Some(Origin { maker, row })
}

/// The origins at a node, by the edges that lead to it and by what is known there: a run begins where no edge leads.
pub(crate) fn join(arrivals: &[Arrival], maker: u32, kinds: &Kinds) -> Origins
    ensures { result.places ≡ origins_at arrivals.now maker kinds.now }
{
    if arrivals.is_empty() {
        return Origins::start();
    }
    let mut places = [None; LOCATIONS];
    for place in 0..LOCATIONS {
        if has_data(kinds, place) {
            places[place] = meet(arrivals, maker, place);
        }
    }
    Origins { places }
}
