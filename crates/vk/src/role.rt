//! What each role of an operand asks: its stage, its accesses, and the layout of an image.

ghost use Rattle.std.specs.Prelude.{◌≡◌};
ghost use Rattle.std.specs.Option.{option_map};
ghost use Rattle.vk.specs.Roles.{role_stage, load_access, store_access, role_layout, layout_wanted, op_stage};

use crate::{Accesses, Layout, Stages};
use base::{Op, Role, Shape};

/// The stage in which an operation touches the operand.
pub fn role_stage(role: Role) -> Stages
    ensures { result.0 ≡ role_stage role }
{
    match role {
        Role::CopyRead | Role::CopyWrite => Stages::COPY,
        Role::ClearWrite => Stages::CLEAR,
        Role::Sampled | Role::StorageRead | Role::StorageWrite => Stages::COMPUTE_SHADER,
        Role::Attachment { .. } => Stages::COLOR_ATTACHMENT_OUTPUT,
    }
}

/// As what the operand is loaded, if it is; `whole` where its store leaves no old byte.
pub fn load_access(role: Role, whole: bool) -> Option<Accesses>
    ensures { option_map (λ a. a.0) result ≡ load_access role whole }
{
    match role {
        Role::CopyRead => Some(Accesses::TRANSFER_READ),
        Role::CopyWrite | Role::ClearWrite if whole => None,
        Role::CopyWrite | Role::ClearWrite => Some(Accesses::TRANSFER_WRITE),
        Role::Sampled => Some(Accesses::SHADER_SAMPLED_READ),
        Role::StorageRead => Some(Accesses::SHADER_STORAGE_READ),
        Role::StorageWrite => None,
        Role::Attachment { load } if load => Some(Accesses::COLOR_ATTACHMENT_READ),
        Role::Attachment { .. } => None,
    }
}

/// As what the operand is stored to, if it is.
pub fn store_access(role: Role) -> Option<Accesses>
    ensures { option_map (λ a. a.0) result ≡ store_access role }
{
    match role {
        Role::CopyRead | Role::Sampled | Role::StorageRead => None,
        Role::CopyWrite | Role::ClearWrite => Some(Accesses::TRANSFER_WRITE),
        Role::StorageWrite => Some(Accesses::SHADER_STORAGE_WRITE),
        Role::Attachment { .. } => Some(Accesses::COLOR_ATTACHMENT_WRITE),
    }
}

/// The layout that an image has to be in.
pub fn role_layout(role: Role) -> Layout
    ensures { result ≡ role_layout role }
{
    match role {
        Role::CopyRead => Layout::TransferSrc,
        Role::CopyWrite | Role::ClearWrite => Layout::TransferDst,
        Role::Sampled => Layout::ShaderReadOnly,
        Role::StorageRead | Role::StorageWrite => Layout::General,
        Role::Attachment { .. } => Layout::ColorAttachment,
    }
}

/// The layout that an operand of this shape has to be in: that of the role for an image, none for a buffer.
pub fn layout_wanted(shape: Shape, role: Role) -> Option<Layout>
    ensures { result ≡ layout_wanted shape role }
{
    if shape.is_image() {
        Some(role_layout(role))
    } else {
        None
    }
}

/// The stage in which an operation runs: that of its destination.
pub fn op_stage<R: Copy>(op: &Op<R>) -> Stages
    ensures { result.0 ≡ op_stage op.now }
{
    role_stage(op.destination_role())
}
