//! The first entry of a list at which a rule answers.

ghost use Rattle.std.specs.Prelude.{◌≡◌, ℕ, Option};
ghost use Rattle.base.specs.Walks.{first_in, StandsAt, AnswersAs};

/// The first answer that the rule gives at a place and its entry.
pub fn first_in<T, Y: Copy, F: Fn(usize, &T) -> Option<Y>>(entries: &[T], rule: F) -> Option<Y>
    requires { (i : ℕ) (x : _) → StandsAt entries.now i x.now → F.pre rule i x }
    ensures { (says : ℕ → T → Option Y) → AnswersAs (F.post rule) entries.now says → result ≡ first_in says 0 entries.now }
{
    for (i, entry) in entries.iter().enumerate() {
        if let Some(answer) = rule(i, entry) {
            return Some(answer);
        }
    }
    None
}
