ghost use Rattle.std.specs.Prelude.{◌≡◌, ℕ, ◌<◌, ◌≤◌, length, MatchBool};
ghost use Rattle.survey.specs.Names.{Known};

use super::waiting::Waiting;

// Whether one of those that wait, from one place to another, has a name.
pub fn is_known(waiting: &[Waiting], from: usize, to: usize, name: &[u8; 28]) -> bool
    requires { to ≤ length waiting.now }
    ensures { MatchBool result (Known waiting.now from to name.now) (Known waiting.now from to name.now → ⊥) }
{
    waiting[from.min(to)..to]
        .iter()
        .any(|one| one.name == *name)
}
