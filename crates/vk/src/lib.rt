//! The words of queue submissions that frames and programs share: stages, accesses, layouts, and who owns a resource.
#![tactic(auto)]

mod accesses;
mod agent;
mod families;
mod layout;
mod mask_text;
mod masks;
mod role;
mod sharing;
mod stages;
mod support;

pub use accesses::Accesses;
pub use agent::{HOST_AGENT, agents};
pub use families::{family_number, on_family};
pub use layout::{Layout, Layouts};
pub use masks::Masks;
pub use role::{layout_wanted, load_access, op_stage, role_layout, role_stage, store_access};
pub use sharing::Sharing;
pub use stages::Stages;
pub use support::supports;
