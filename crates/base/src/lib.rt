//! Names, shapes, operations, events and limits of frames.
#![tactic(auto)]

mod broken;
mod cache_move;
mod event;
mod fits;
mod grid;
mod in_place;
mod limit;
mod list;
mod mapped;
mod maxima;
mod memory_range;
mod name;
mod no_memory;
mod op;
mod path;
mod role;
mod room;
mod run_options;
mod runs;
mod search;
mod shape;
mod touch;
mod whole;
mod within;

pub use broken::Broken;
pub use cache_move::{CacheMove, MoveKind};
pub use event::Event;
pub use fits::op_fits;
pub use grid::Grid;
pub use in_place::op_in_place;
pub use limit::Limit;
pub use list::{List, Text};
pub use maxima::{
    MAX_EXPORTS, MAX_LAYERS, MAX_MEMORIES, MAX_MEMORY_BYTES, MAX_NODES, MAX_OPS, MAX_PASSES,
    MAX_PIECES, MAX_QUEUES, MAX_READBACKS, MAX_RECTS, MAX_RESOURCE_BYTES, MAX_SIDE, MAX_SIZE,
    MAX_UNITS,
};
pub use memory_range::MemoryRange;
pub use name::Name;
pub use no_memory::NoMemory;
pub use op::{Fun, Mix, Op, Rect};
pub use path::{Leg, Path};
pub use role::Role;
pub use room::{first_over, spend_in};
pub use run_options::RunOptions;
pub use runs::op_runs;
pub use search::first_in;
pub use shape::{Family, Shape, Texel, shape_at};
pub use touch::Touch;
pub use within::op_within;
