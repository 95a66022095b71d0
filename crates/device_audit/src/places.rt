//! Where the cache moves of a trace begin and end.

use base::{Event, NoMemory};
use std::alloc::Global;

/// Both ends of each cache move, a memory and a byte of it, in rising order.
pub(crate) fn places_of(alloc: Global, events: &[Event]) -> Result<Vec<(u32, u32)>, NoMemory> {
    let mut places = Vec::new(alloc);
    for event in events {
        if let Event::Move(cache_move) = event {
            let range = cache_move.range;
            places.push((range.memory, range.start))?;
            places.push((range.memory, range.start.saturating_add(range.len)))?;
        }
    }
    places.sort_unstable();
    Ok(places)
}
