//! A room of which the entries of a list spend.

ghost use Rattle.std.specs.Prelude.{◌≡◌, ℕ, Result};
ghost use Rattle.base.specs.Rooms.{spend_in, first_over, LeavesAs, SizesAs};
ghost use Rattle.base.specs.Walks.{StandsAt};

/// What the entries leave of the room, each spending of what those before it left, or what `spend` answers at the first
/// entry for which the room does not last.
pub fn spend_in<T, R: Copy, Y: Copy, F: Fn(R, usize, &T) -> Result<R, Y>>(
    entries: &[T],
    room: R,
    spend: F,
) -> Result<R, Y>
    requires { (left : R) (i : ℕ) (x : _) → StandsAt entries.now i x.now → F.pre spend left i x }
    ensures { (says : R → ℕ → T → Result R Y) → LeavesAs (F.post spend) entries.now says → result ≡ spend_in says room 0 entries.now }
{
    let mut left = room;
    for (i, entry) in entries.iter().enumerate() {
        match spend(left, i, entry) {
            Ok(rest) => left = rest,
            Err(answer) => return Err(answer),
        }
    }
    Ok(left)
}

/// The first entry with which the sizes together are more than the room.
pub fn first_over<T, F: Fn(&T) -> u128>(entries: &[T], room: u128, size: F) -> Option<usize>
    requires { F.IsAlwaysCallable size }
    ensures { (says : T → ℕ) → SizesAs (F.post size) says → result ≡ first_over says room 0 entries.now }
{
    let mut left = room;
    for (i, entry) in entries.iter().enumerate() {
        let taken = size(entry);
        if left < taken {
            return Some(i);
        }
        left -= taken;
    }
    None
}
