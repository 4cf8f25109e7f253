//! Ways to drive a pipe.

use anyhow::Result;
use pipe_core::ports::In;
use row_plan::cell_core::program::PacketIn;
use row_plan::cell_core::xdp_state::beat_core::{Beat, beats_of};
use std::alloc::Global;

/// A beat, and what comes beside it.
#[derive(Copy, Clone)]
pub(crate) struct Offer {
    beat: Beat,
    ifindex: u32,
    time: u64,
}

/// In which clocks a beat is offered, and in which one that is shown is taken: in each of so many.
#[derive(Copy, Clone)]
pub(crate) struct Way {
    pub(crate) name: &'static str,
    pub(crate) offered: u64,
    pub(crate) taken: u64,
}

pub(crate) const WAYS: [Way; 3] = [
    Way {
        name: "always",
        offered: 1,
        taken: 1,
    },
    Way {
        name: "offered every third clock",
        offered: 3,
        taken: 1,
    },
    Way {
        name: "taken every second clock",
        offered: 1,
        taken: 2,
    },
];

/// The beats of packets.
pub(crate) fn offers_of(alloc: Global, packets: &[PacketIn]) -> Result<Vec<Offer>> {
    let mut offers = Vec::new(alloc);
    for packet in packets {
        for beat in &beats_of(alloc, &packet.frame)? {
            offers.push(Offer {
                beat: *beat,
                ifindex: packet.ifindex,
                time: packet.time,
            })?;
        }
    }
    Ok(offers)
}

// Whether something that is done every so many clocks is done in a clock.
fn is_turn(clock: u64, every: u64) -> bool {
    every <= 1 || clock % every == 0
}

impl Way {
    /// What comes in a clock, where these beats are left.
    pub(crate) fn input(self, clock: u64, left: &[Offer]) -> In {
        let take = is_turn(clock, self.taken);
        match left.first() {
            Some(offer) if is_turn(clock, self.offered) => In {
                beat: Some(offer.beat),
                ifindex: offer.ifindex,
                time: offer.time,
                take,
                host: None,
            },
            _ => In {
                beat: None,
                ifindex: 0,
                time: 0,
                take,
                host: None,
            },
        }
    }
}
