//! Memory accesses.

ghost use Rattle.std.specs.Prelude.{◌≡◌, option_map, slice_get, if◌then◌else◌};
ghost use Rattle.vk.specs.Accesses.{access_names, both_shader_reads, every_read, every_write, expand_accesses};
ghost use Rattle.vk.specs.Sets.{has};
ghost use Rattle.vk.specs.Texts.{mask_of, names_of};

use crate::mask_text::{put_name, read_mask};
use bitflags::{Flag, Flags, bitflag_items};

/// A set of kinds of memory accesses. The number of its bits is Vulkan's. A bit that no access
/// has may be in a set; no stage supports it.
#[derive(Clone, Copy, PartialEq, Eq, Debug)]
pub struct Accesses(pub u64);

bitflag_items! {
    impl Accesses: u64 {
        const SHADER_READ = 0x20;
        const SHADER_WRITE = 0x40;
        const COLOR_ATTACHMENT_READ = 0x80;
        const COLOR_ATTACHMENT_WRITE = 0x100;
        const TRANSFER_READ = 0x800;
        const TRANSFER_WRITE = 0x1000;
        const HOST_READ = 0x2000;
        const MEMORY_READ = 0x8000;
        const MEMORY_WRITE = 0x1_0000;
        const SHADER_SAMPLED_READ = 0x1_0000_0000;
        const SHADER_STORAGE_READ = 0x2_0000_0000;
        const SHADER_STORAGE_WRITE = 0x4_0000_0000;
    }
}

impl Flags for Accesses {
    ghost use Rattle.std.specs.Prelude.{⊤};

    type Bits = u64;

    ghost exact = { ⊤ };

    ghost table = { access_names };

    ghost set_of = { λ a. a.0 };

    fn flags<'a>() -> &'a [Flag<Accesses>] {
        Accesses::FLAGS
    }

    fn bits(&self) -> u64 {
        self.0
    }

    fn from_bits_retain(bits: u64) -> Accesses {
        Accesses(bits)
    }
}

fn shader_reads() -> Accesses
    ensures { result.0 ≡ both_shader_reads }
{
    Accesses::SHADER_SAMPLED_READ.union(Accesses::SHADER_STORAGE_READ)
}

fn reads() -> Accesses
    ensures { result.0 ≡ every_read }
{
    shader_reads()
        .union(Accesses::COLOR_ATTACHMENT_READ)
        .union(Accesses::TRANSFER_READ)
        .union(Accesses::HOST_READ)
}

fn writes() -> Accesses
    ensures { result.0 ≡ every_write }
{
    Accesses::SHADER_STORAGE_WRITE
        .union(Accesses::COLOR_ATTACHMENT_WRITE)
        .union(Accesses::TRANSFER_WRITE)
}

impl Accesses {
    // What an access stands for, where it is one of these.
    fn part(self, access: Accesses, stands_for: Accesses) -> Accesses
        ensures { result.0 ≡ (if has self.0 access.0 then stands_for.0 else 0) }
    {
        if self.contains(access) {
            stands_for
        } else {
            Accesses::empty()
        }
    }

    // Each of these that stands for itself.
    fn own_part(self, access: Accesses) -> Accesses
        ensures { result.0 ≡ (if has self.0 access.0 then access.0 else 0) }
    {
        self.part(access, access)
    }

    /// The accesses that these stand for: the sampled and the storage accesses for those of shaders, and for those of
    /// memory every read or write.
    pub fn expand(self) -> Accesses
        ensures { result.0 ≡ expand_accesses self.0 }
    {
        Accesses::empty()
            .union(self.part(Accesses::SHADER_READ, shader_reads()))
            .union(self.part(Accesses::SHADER_WRITE, Accesses::SHADER_STORAGE_WRITE))
            .union(self.own_part(Accesses::COLOR_ATTACHMENT_READ))
            .union(self.own_part(Accesses::COLOR_ATTACHMENT_WRITE))
            .union(self.own_part(Accesses::TRANSFER_READ))
            .union(self.own_part(Accesses::TRANSFER_WRITE))
            .union(self.own_part(Accesses::HOST_READ))
            .union(self.part(Accesses::MEMORY_READ, reads()))
            .union(self.part(Accesses::MEMORY_WRITE, writes()))
            .union(self.own_part(Accesses::SHADER_SAMPLED_READ))
            .union(self.own_part(Accesses::SHADER_STORAGE_READ))
            .union(self.own_part(Accesses::SHADER_STORAGE_WRITE))
    }

    /// The accesses that a text names: names joined by `|`, in any order; no bytes are the empty set.
    pub fn read(text: &[u8]) -> Option<Accesses>
        ensures { option_map (λ a. a.0) result ≡ mask_of access_names text.now }
    {
        read_mask(text)
    }

    /// The name with the number `k` among those of these accesses, in the order of their bits.
    pub fn put(self, k: u32) -> Option<&'static str>
        ensures { option_map (λ name. name.now) result ≡ slice_get (names_of access_names self.0) k }
    {
        put_name(&self, k)
    }
}
