//! The laws of whole runs, together, and the law that a link which only listens changes nothing for all others.
#![tactic(auto)]

ghost use Rattle.std.specs.Prelude.{List};
ghost use Rattle.af_world.specs.declared.script.DeviceSpec.{DeviceSpec};
ghost use Rattle.af_world.specs.Log.{Log};
ghost use Rattle.af_isolation.specs.Isolation.{IsolatesLinks};

/// A law of the definitions alone, of isolation: a link that never had a play accepted, never set a control and never moved a
/// hook can be taken out of each run. The log without it is a run of the same configuration, in which every other link is said,
/// takes and is closed for the same, and every device captures and hands out the same.
pub fn isolation_law()
    ensures { (config : List DeviceSpec) (log : Log) → IsolatesLinks config log }
{}
