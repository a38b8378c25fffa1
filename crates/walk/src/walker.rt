// A walker opened on the bytes of a day: it remembers where it stands, and gives the next record's extent.
ghost use Rattle.std.specs.Prelude.{◌≡◌};
ghost use Rattle.terms.specs.Refusals.{reply};
ghost use Rattle.walk.specs.declared.table.State.TheVariants.{Fresh};
ghost use Rattle.walk.specs.Walk.{step_of, walk_from};
ghost use Rattle.walk.specs.Stands.{opened_on, walker_after, there, ahead_of};

use crate::step::{Extent, next};
use crate::table::State;
use terms::refusal::Refusal;

#[derive(Clone, Copy, Debug)]
pub struct Walker<'a> {
    pub bytes: &'a [u8],
    pub state: State,
    pub place: usize,
}

impl<'a> Walker<'a> {
    // The walker starts fresh, at the first byte.
    pub fn open(bytes: &'a [u8]) -> Walker<'a>
        ensures { result ≡ opened_on bytes.entry }
    {
        Walker {
            bytes,
            state: State::Fresh,
            place: 0,
        }
    }

    // What the walker replies where it stands.
    pub fn step(&self) -> Result<Option<Extent>, Refusal>
        ensures { reply result ≡ step_of self.now.bytes.now self.now.state self.now.place }
    {
        next(self.bytes, self.state, self.place)
    }

    // The same, and the walker goes past the record that it gave; a refusal or done leaves it where it stands.
    pub fn advance(&mut self) -> Result<Option<Extent>, Refusal>
        ensures reply { reply result ≡ there self.old }
        ensures stand { self.new ≡ walker_after self.old (there self.old) }
    {
        let reply = next(self.bytes, self.state, self.place)?;
        if let Some(extent) = reply {
            self.state = extent.after;
            self.place = extent.end;
        }
        Ok(reply)
    }

    // The walker goes so many steps ahead; a refusal or done leaves it where it stands.
    #[tactic(auto, using(crate::proofs::Ahead::one_ahead, crate::proofs::Ahead::none_ahead, crate::proofs::Ahead::stays))]
    pub fn ahead(&mut self, steps: usize)
        ensures { self.new ≡ ahead_of self.old steps }
    {
        for _ in 0..steps {
            let Ok(Some(_)) = self.advance() else {
                return;
            };
        }
    }
}

// What a walker opened on these bytes replies after so many steps.
pub fn walk_at(bytes: &[u8], steps: usize) -> Result<Option<Extent>, Refusal>
    ensures { reply result ≡ (walk_from bytes.now Fresh 0 steps).reply }
{
    let mut walker = Walker::open(bytes);
    walker.ahead(steps);
    walker.step()
}
