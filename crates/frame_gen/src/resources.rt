//! Queues and resources.

ghost use Rattle.std.specs.Prelude.{◌≡◌, ◌∷◌, [], true, IfOk, map};
ghost use Rattle.base.specs.Names.{is_name_byte};
ghost use Rattle.std.specs.List.{range_with_len};
ghost use Rattle.frame_gen.specs.Generated.{queues, resource};

use crate::names::{letter, resource_name};
use base::{Family, List, NoMemory, Shape, Texel};
use frame::{QueueDecl, Resource, Sharing};
use std::alloc::Global;

fn queue(name: u8, family: Family) -> QueueDecl
    requires { is_name_byte name ≡ true }
    ensures { result ≡ record { name = name ∷ []; family = family } }
{
    QueueDecl {
        name: letter(name),
        family,
    }
}

pub(crate) fn queues(alloc: Global) -> Result<List<QueueDecl>, NoMemory>
    ensures { IfOk result (λ all. all ≡ queues) }
{
    List::from_slice(
        alloc,
        &[
            queue(b'g', Family::Graphics),
            queue(b'c', Family::Compute),
            queue(b't', Family::Transfer),
        ],
    )
}

fn resource(i: u32) -> Resource
    ensures { result ≡ resource i }
{
    Resource {
        name: resource_name(i),
        shape: Shape::Image {
            width: 64,
            height: 64,
            texel: Texel::R32,
        },
        layers: 1,
        import: None,
        sharing: Sharing::Exclusive,
    }
}

#[tactic(auto, using(crate::proofs::Walking::entry_more))]
pub(crate) fn resources(alloc: Global, count: u32) -> Result<List<Resource>, NoMemory>
    ensures { IfOk result (λ resources. resources ≡ map resource (range_with_len 0 count)) }
{
    let mut resources = List::new(alloc);
    for i in 0..count {
        resources.push(resource(i))?;
    }
    Ok(resources)
}
