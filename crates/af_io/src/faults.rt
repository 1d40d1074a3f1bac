// Counts of faults.
ghost use Rattle.std.specs.Prelude.{◌≡◌};
ghost use Rattle.af_io.specs.Observed.{faults_after};

/// The count of faults after a call, which stands still at the end of its type.
pub fn faults_after(faults: u64, failed: bool) -> u64
    ensures { result ≡ faults_after faults failed }
{
    if failed {
        faults.saturating_add(1)
    } else {
        faults
    }
}
