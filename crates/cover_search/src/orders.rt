// The order in which stops are laid out.

use crate::graph::{MOST_STOPS, Stop, stop_at};
use std::alloc::{AllocError, Global};

/// The most turns: each stop is left once, and entered by each of its edges.
const MOST_TURNS: usize = 4 * MOST_STOPS;

/// What is to be done about a stop.
#[derive(Copy, Clone)]
enum Turn {
    Enter(u32),
    Leave(u32),
}

/// Going over stops: which were entered, and what is still to be done, the last first.
#[derive(Drop)]
struct Tour {
    entered: Vec<bool>,
    turns: Vec<Turn>,
}

impl Tour {
    // None was entered.
    fn new(alloc: Global, stops: usize) -> Result<Tour, AllocError> {
        let entered = vec![in alloc; false; stops]?;
        Ok(Tour {
            entered,
            turns: Vec::new(alloc),
        })
    }

    // Whether a stop is entered for the first time.
    fn is_new(&mut self, n: u32) -> bool {
        if (n as usize) >= self.entered.len() || self.entered[n as usize] {
            return false;
        }
        self.entered[n as usize] = true;
        true
    }

    fn push_some(&mut self, to: Option<u32>) -> Result<(), AllocError> {
        if let Some(n) = to {
            self.turns.push(Turn::Enter(n))?;
        }
        Ok(())
    }

    // Enters a stop, if it is new: where its jump leads comes first.
    fn enter(&mut self, stops: &[Stop], n: u32) -> Result<(), AllocError> {
        if !self.is_new(n) {
            return Ok(());
        }
        self.turns.push(Turn::Leave(n))?;
        if let Some(stop) = stop_at(stops, n) {
            self.push_some(stop.next)?;
            self.push_some(stop.jump)?;
        }
        Ok(())
    }

    // From the first stop on until nothing is left to be done: adds the stops as they are left.
    fn go(&mut self, stops: &[Stop], order: &mut Vec<u32>) -> Result<(), AllocError> {
        self.turns.push(Turn::Enter(0))?;
        for _turn in 0..MOST_TURNS {
            match self.turns.pop() {
                Some(Turn::Enter(n)) => self.enter(stops, n)?,
                Some(Turn::Leave(n)) => order.push(n)?,
                None => return Ok(()),
            }
        }
        Ok(())
    }
}

/// The stops from the first on, each before those that it leads to, and with that to which it leads without a jump behind it where that has
/// no place yet: depth first, jumps first, in the order in which stops are left, from the last one.
pub(crate) fn laid_order(alloc: Global, stops: &[Stop]) -> Result<Vec<u32>, AllocError> {
    let mut order = Vec::new(alloc);
    let mut tour = Tour::new(alloc, stops.len())?;
    tour.go(stops, &mut order)?;
    order.reverse();
    Ok(order)
}
