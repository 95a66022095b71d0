//! Sets of channels, as words.

ghost use Rattle.std.specs.Prelude.{◌≡◌, ◌≢◌, ◌<◌, ◌≤◌, ◌||◌, ℕ, length};
ghost use Rattle.base_first.specs.Bits.{bit};
ghost use Rattle.check_table.specs.Channels.{channel_at, outs_of, ins_of, left_by};

use crate::{Channel, Role};
use base_first::with;
use check_order::Node;
use vk::Stages;

// The set, with the number in it if that is so.
fn marked(set: u64, c: usize, there: bool) -> u64
    requires c { c < 64 }
    ensures own { bit result c ≡ (there || bit set c) }
    ensures others { (d : ℕ) → d ≢ c → bit result d ≡ bit set d }
{
    if there { with(set, c) } else { set }
}

/// The channels in which others wait for the node.
pub(crate) fn outs_word(channels: &[Channel], node: &Node, role: Role) -> u64
    requires few { length channels.now ≤ 64 }
    ensures { (c : ℕ) → c < length channels.now → bit result c ≡ outs_of (channel_at channels.now c) node.now role }
{
    let mut word: u64 = 0;
    for c in 0..channels.len() {
        word = marked(word, c, channels[c].outs(node, role));
    }
    word
}

/// The channels in which the node waits.
pub(crate) fn ins_word(channels: &[Channel], node: &Node, role: Role) -> u64
    requires few { length channels.now ≤ 64 }
    ensures { (c : ℕ) → c < length channels.now → bit result c ≡ ins_of (channel_at channels.now c) node.now role }
{
    let mut word: u64 = 0;
    for c in 0..channels.len() {
        word = marked(word, c, channels[c].ins(node, role));
    }
    word
}

/// The channels in which others wait for what a command does in the stage.
pub(crate) fn left_word(channels: &[Channel], stage: Stages) -> u64
    requires few { length channels.now ≤ 64 }
    ensures { (c : ℕ) → c < length channels.now → bit result c ≡ left_by (channel_at channels.now c) stage.0 }
{
    let mut word: u64 = 0;
    for c in 0..channels.len() {
        word = marked(word, c, channels[c].left_by(stage));
    }
    word
}
