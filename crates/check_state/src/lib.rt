//! Whether accesses find their pieces in the layouts that they want, owned by their families, and with the other half of their
//! transfers (`StateValid`); and whether loads find bytes, stored through their own pieces (`Initialized`).
#![tactic(auto)]

mod ahead;
mod initialized;
mod load_hazard;
mod past;
mod piece_state;
mod same;
mod state_hazard;
mod state_hazard_at;
mod state_valid;
mod table;

pub use initialized::first_load_hazard;
pub use load_hazard::LoadHazard;
pub use state_hazard::StateHazard;
pub use state_hazard_at::needs_owner;
pub use state_valid::first_state_hazard;
