// Places, each with a copy of the loops around it.

use unfold_core::Loop;

/// The most loops of a program whose copies are counted.
pub(crate) const MOST_LOOPS: usize = 16;

/// A place and its copy of each loop, 0 of one that does not hold the place.
#[derive(Copy, Clone, PartialEq, Eq)]
pub(crate) struct Spot {
    pub place: u32,
    copies: [u16; MOST_LOOPS],
}

impl Spot {
    pub(crate) const START: Spot = Spot {
        place: 0,
        copies: [0; MOST_LOOPS],
    };
}

// Whether a loop holds two places.
fn holds_both(l: Loop, p: u32, q: u32) -> bool {
    l.head <= p && p <= l.last && l.head <= q && q <= l.last
}

/// Whether a spot comes before another one: by their copies of the loops that hold both places, outermost first, and then by place.
pub(crate) fn comes_before(loops: &[Loop], a: &Spot, b: &Spot) -> bool {
    for k in 0..MOST_LOOPS {
        if k < loops.len() && holds_both(loops[k], a.place, b.place) && a.copies[k] != b.copies[k] {
            return a.copies[k] < b.copies[k];
        }
    }
    a.place < b.place
}

// The copy of a loop at the end of an edge: a jump to the head from inside raises it.
fn next_copy(l: Loop, from: u32, to: u32, copy: u16) -> u16 {
    if !holds_both(l, from, to) {
        return 0;
    }
    if to == l.head {
        copy.saturating_add(1)
    } else {
        copy
    }
}

/// The spot at the end of an edge.
pub(crate) fn reached(loops: &[Loop], from: &Spot, to: u32) -> Spot {
    let mut copies = [0; MOST_LOOPS];
    for k in 0..MOST_LOOPS {
        if k < loops.len() {
            copies[k] = next_copy(loops[k], from.place, to, from.copies[k]);
        }
    }
    Spot { place: to, copies }
}
