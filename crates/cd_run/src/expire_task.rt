ghost use Rattle.std.specs.Prelude.{◌≡◌};
ghost use Rattle.cd_feed.specs.declared.feed.Task.{Task};
ghost use Rattle.cd_run.specs.Runs.{Did};

use crate::outcome::Outcome;
use crate::words::end_of_expire;
use cd_base::Memory;
use cd_block::BlockId;
use cd_event::{At, Turns, Who};

/// Lets blocks expire.
pub(crate) fn do_expire<T: Turns>(turns: &mut T, who: Who, id: BlockId) -> Result<Outcome, Memory>
    requires { T.worker turns.old ≡ who.worker }
    ensures { Did T.Hash.digest_of T.worker T.faults T.made T.goes T.named who (Task.Expire id)
        turns.old turns.new result }
{
    let at = At {
        phase: who.phase,
        task: who.task,
    };
    match turns.expire(at, id) {
        Ok(gone) => Ok(Outcome::Expire { gone }),
        Err(fault) => end_of_expire(fault),
    }
}
