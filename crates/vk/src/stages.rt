//! Pipeline stages.

ghost use Rattle.std.specs.Prelude.{◌≡◌, option_map, slice_get, if◌then◌else◌};
ghost use Rattle.vk.specs.Sets.{has};
ghost use Rattle.vk.specs.Stages.{expand, stage_names};
ghost use Rattle.vk.specs.Texts.{mask_of, names_of};

use crate::mask_text::{put_name, read_mask};
use bitflags::{Flag, Flags, bitflag_items};

/// A set of pipeline stages. The number of its bits is Vulkan's. A bit that no stage has may
/// be in a set; no family has it.
#[derive(Clone, Copy, PartialEq, Eq, Debug)]
pub struct Stages(pub u64);

bitflag_items! {
    impl Stages: u64 {
        const COLOR_ATTACHMENT_OUTPUT = 0x400;
        const COMPUTE_SHADER = 0x800;
        const ALL_TRANSFER = 0x1000;
        const HOST = 0x4000;
        const ALL_COMMANDS = 0x10000;
        const COPY = 0x1_0000_0000;
        const CLEAR = 0x8_0000_0000;
    }
}

impl Flags for Stages {
    ghost use Rattle.std.specs.Prelude.{⊤};

    type Bits = u64;

    ghost exact = { ⊤ };

    ghost table = { stage_names };

    ghost set_of = { λ s. s.0 };

    fn flags<'a>() -> &'a [Flag<Stages>] {
        Stages::FLAGS
    }

    fn bits(&self) -> u64 {
        self.0
    }

    fn from_bits_retain(bits: u64) -> Stages {
        Stages(bits)
    }
}

impl Stages {
    // What a stage stands for, where it is one of these.
    fn part(self, stage: Stages, stands_for: Stages) -> Stages
        ensures { result.0 ≡ (if has self.0 stage.0 then stands_for.0 else 0) }
    {
        if self.contains(stage) {
            stands_for
        } else {
            Stages::empty()
        }
    }

    /// The stages that these stand for: copies and clears for all transfers, and for all commands every stage of a
    /// queue, which the host's is not.
    pub fn expand(self) -> Stages
        ensures { result.0 ≡ expand self.0 }
    {
        let transfers = Stages::COPY.union(Stages::CLEAR);
        let commands = Stages::COLOR_ATTACHMENT_OUTPUT
            .union(Stages::COMPUTE_SHADER)
            .union(Stages::COPY)
            .union(Stages::CLEAR);
        Stages::empty()
            .union(self.part(
                Stages::COLOR_ATTACHMENT_OUTPUT,
                Stages::COLOR_ATTACHMENT_OUTPUT,
            ))
            .union(self.part(Stages::COMPUTE_SHADER, Stages::COMPUTE_SHADER))
            .union(self.part(Stages::ALL_TRANSFER, transfers))
            .union(self.part(Stages::HOST, Stages::HOST))
            .union(self.part(Stages::ALL_COMMANDS, commands))
            .union(self.part(Stages::COPY, Stages::COPY))
            .union(self.part(Stages::CLEAR, Stages::CLEAR))
    }

    /// The stages that a text names: names joined by `|`, in any order; no bytes are the empty set.
    pub fn read(text: &[u8]) -> Option<Stages>
        ensures { option_map (λ s. s.0) result ≡ mask_of stage_names text.now }
    {
        read_mask(text)
    }

    /// The name with the number `k` among those of these stages, in the order of their bits.
    pub fn put(self, k: u32) -> Option<&'static str>
        ensures { option_map (λ name. name.now) result ≡ slice_get (names_of stage_names self.0) k }
    {
        put_name(&self, k)
    }
}
