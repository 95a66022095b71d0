//! The bytes of all exports together.

ghost use Rattle.std.specs.Prelude.{◌≡◌, ◌<◌, ◌≤◌, ◌*◌, ℕ, length};
ghost use Rattle.std.specs.List.{sum};
ghost use Rattle.device_model.specs.Devices.{IsComplete};
ghost use Rattle.top.specs.Internal.Totals.{IsTotal};
ghost use Rattle.device_run.specs.Runs.{read_by};

use device::Device;
use device_run::bytes_of;

/// How many bytes there are, and what they come to as numbers.
#[derive(Clone, Copy)]
pub struct Total {
    pub bytes: u32,
    pub sum: u64,
}

#[tactic(auto, using(crate::proofs::Sums::sum_more))]
fn sum_of_bytes(bytes: &[u8]) -> u64
    requires { length bytes.now ≤ 16777216 }
    ensures sum { result ≡ sum bytes.now }
    ensures small { result ≤ 255 * length bytes.now }
{
    let mut sum = 0;
    for byte in bytes {
        sum += u64::from(*byte);
    }
    sum
}

// The bytes of one read-back.
fn total_at(device: &Device, k: u32) -> Total
    requires complete { IsComplete device.now }
    requires there { k < length device.now.program.readbacks }
    requires short { length (read_by device.now k) ≤ 16777216 }
    ensures bytes { result.bytes ≡ length (read_by device.now k) }
    ensures sum { result.sum ≡ sum (read_by device.now k) }
    ensures small { result.bytes ≤ 16777216 }
    ensures low { result.sum ≤ 255 * result.bytes }
{
    let bytes = bytes_of(device, k);
    Total {
        bytes: bytes.len() as u32,
        sum: sum_of_bytes(bytes),
    }
}

/// The bytes of the first read-backs of a device that has run to its end, each of which has at most 16 MiB.
pub fn total_of(device: &Device, count: u32) -> Total
    requires complete { IsComplete device.now }
    requires there { count ≤ length device.now.program.readbacks }
    requires few { count ≤ 32 }
    requires short { (k : ℕ) → k < count → length (read_by device.now k) ≤ 16777216 }
    ensures { IsTotal (read_by device.now) count result }
{
    let mut total = Total { bytes: 0, sum: 0 };
    for k in 0..count {
        let more = total_at(device, k);
        total = Total {
            bytes: total.bytes + more.bytes,
            sum: total.sum + more.sum,
        };
    }
    total
}
