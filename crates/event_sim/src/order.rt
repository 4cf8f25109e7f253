//! Orders of nets and of always blocks.

ghost use Rattle.std.specs.Prelude.{◌≡◌, ◌≤◌, ◌^◌, ◌↔◌, length, IfOk, IsTrue, Contains, slice_index};
ghost use Rattle.event_sim.specs.Orders.{IsOrder, rank, IsByDraws};

use std::alloc::{AllocError, Global};

/// Whether a list names each number below `count` once.
pub fn is_order(order: &[u32], count: usize) -> bool
    ensures { IsTrue result ↔ IsOrder count order.now }
{
    if order.len() != count {
        return false;
    }
    for number in 0..count {
        if !contains(order, number) {
            return false;
        }
    }
    true
}

fn contains(order: &[u32], number: usize) -> bool
    ensures { IsTrue result ↔ Contains order.now number }
{
    for named in order {
        if *named as usize == number {
            return true;
        }
    }
    false
}

/// The places of draws, by draw and then by place.
pub fn order_of(alloc: Global, draws: &[u32]) -> Result<Vec<u32>, AllocError>
    ensures order { IfOk result (λ order. IsOrder (length draws.now) order.items) }
    ensures sorted { IfOk result (λ order. IsByDraws draws.now order.items) }
{
    if draws.len() > u32::MAX as usize {
        return Err(AllocError);
    }
    let mut places = Vec::new(alloc);
    for at in 0..draws.len() {
        places.push(at as u32)?;
    }
    places.sort_by_key(|place| rank(*place, draws))?;
    Ok(places)
}

// The draw at a place, or 0.
fn draw_at(draws: &[u32], place: u32) -> u32
    ensures { result ≡ slice_index draws.now place }
{
    match draws.get(place as usize) {
        Some(draw) => *draw,
        None => 0,
    }
}

// The draw at a place, and then the place.
fn rank(place: u32, draws: &[u32]) -> u64
    ensures { result ≡ rank draws.now place }
{
    u64::from(draw_at(draws, place)) * 4294967296 + u64::from(place)
}
