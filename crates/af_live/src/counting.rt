// Counts of faults, which stand still at 2^64 - 1.
ghost use Rattle.std.specs.Prelude.{◌≡◌};
ghost use Rattle.af_live.specs.Counting.{CountsOne};

use af_io::{Put, faults_after};
use af_world::{LinkGot, LinkTook, Ready, Waited};

/// Counts a read that failed.
pub(crate) fn count_got(got: LinkGot, faults: &mut u64)
    ensures { CountsOne (got ≡ LinkGot.Failed) faults.old faults.new }
{
    if got == LinkGot::Failed {
        *faults = faults_after(*faults, true);
    }
}

/// Counts a write that failed.
pub(crate) fn count_took(took: LinkTook, faults: &mut u64)
    ensures { CountsOne (took ≡ LinkTook.Failed) faults.old faults.new }
{
    if took == LinkTook::Failed {
        *faults = faults_after(*faults, true);
    }
}

/// Counts a call of a device that failed.
pub(crate) fn count_put(put: Put, faults: &mut u64)
    ensures { CountsOne (put ≡ Put.Failed) faults.old faults.new }
{
    if put == Put::Failed {
        *faults = faults_after(*faults, true);
    }
}

/// Counts a listen or an attach that failed.
pub(crate) fn count_ready(ready: Ready, faults: &mut u64)
    ensures { CountsOne (ready ≡ Ready.Failed) faults.old faults.new }
{
    if ready == Ready::Failed {
        *faults = faults_after(*faults, true);
    }
}

/// Counts a wait that failed.
pub(crate) fn count_waited(waited: Waited, faults: &mut u64)
    ensures { CountsOne (waited ≡ Waited.Failed) faults.old faults.new }
{
    if waited == Waited::Failed {
        *faults = faults_after(*faults, true);
    }
}
