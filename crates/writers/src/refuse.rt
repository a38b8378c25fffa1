// A writer's refusal.
ghost use Rattle.std.specs.Prelude.{◌≡◌};

use terms::refusal::{Refusal, Why};

// At place 0, as every refusal of a writer but those of units.
pub fn refused(why: Why) -> Result<usize, Refusal>
    ensures { result ≡ Err (record { why = why; place = 0 }) }
{
    Err(Refusal { why, place: 0 })
}
