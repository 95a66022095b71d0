//! The table of first points.

ghost use Rattle.std.specs.Prelude.{◌≡◌, ◌<◌, ◌≤◌, ◌+◌, ◌*◌, ◌↔◌, ℕ, length, true, IfOk, get_or};
ghost use Rattle.base_first.specs.Firsts.{first_in, Found, IsTable};
ghost use Rattle.base_first.specs.Points.{Lined};

use crate::Point;
use crate::walk::{Size, walk_all};
use base::NoMemory;
use std::alloc::Global;
use std::marker::Model;

/// Of each point, for each queue and channel, the first point of the queue that is looked for there and reached. It has as many
/// numbers as points times queues times channels.
#[derive(Debug, Drop)]
pub struct Firsts {
    count: usize,
    queues: usize,
    channels: usize,
    // Numbers in a row.
    width: usize,
    numbers: Vec<u32>,
}

impl Model for Firsts {
    ghost use Rattle.base_first.specs.Firsts.{Table};
    ghost use Rattle.base_first.specs.Internal.Tables.{table_of, IsRoomy};

    ghost Value = { Table };

    ghost view = { table_of };

    ghost invariant = { IsRoomy };
}

fn filled(alloc: Global, count: usize, number: u32) -> Result<Vec<u32>, NoMemory>
    ensures length { IfOk result (λ numbers. length numbers.items ≡ count) }
    ensures numbers { IfOk result (λ numbers. (k : ℕ) → k < count → get_or numbers.items k 0 ≡ number) }
{
    Ok(vec![in alloc; number; count]?)
}

/// The first points that are reached from each of the points.
pub fn firsts_of(
    alloc: Global,
    points: &[Point],
    queues: usize,
    channels: usize,
) -> Result<Firsts, NoMemory>
    requires few { length points.now ≤ 2097152 }
    requires queues { queues ≤ 64 }
    requires channels { channels ≤ 64 }
    requires lined { Lined points.now queues }
    ensures { IfOk result (λ firsts. IsTable points.now queues channels firsts) }
{
    let count = points.len();
    let width = queues * channels;
    let mut numbers = filled(alloc, (count + (width + width)) * width, count as u32)?;
    let mut groups = filled(alloc, queues, 0)?;
    let size = Size {
        queues,
        channels,
        width,
    };
    walk_all(&mut numbers, &mut groups, points, size);
    numbers.truncate(count * width);
    Ok(Firsts {
        count,
        queues,
        channels,
        width,
        numbers,
    })
}

impl Firsts {
    /// The first point of queue `q` that is reached from point `p` and looked for in column `c`, or the number of points.
    pub fn first(&self, p: usize, q: usize, c: usize) -> u32
        requires p { p < self.now.count }
        requires q { q < self.now.queues }
        requires c { c < self.now.channels }
        ensures { result ≡ first_in self.now p q c }
    {
        self.numbers[p * self.width + (q * self.channels + c)]
    }
}
