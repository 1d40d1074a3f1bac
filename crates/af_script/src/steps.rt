// The steps of a script, which contracts see as a list.
ghost use Rattle.std.specs.Prelude.{◌≡◌};

use af_world::Step;
use std::marker::Model;

/// The steps of a script.
#[derive(Drop)]
pub struct Steps {
    kept: Vec<Step>,
}

impl Model for Steps {
    ghost use Rattle.std.specs.Prelude.{List};
    ghost use Rattle.af_world.specs.declared.script.Step.{Step};

    ghost Value = { List Step };

    ghost view = { λ s. s.kept.items };
}

impl Steps {
    /// These steps.
    pub fn of(kept: Vec<Step>) -> Steps
        ensures { result ≡ kept.items }
    {
        Steps { kept }
    }

    /// The steps, in order.
    pub fn as_slice(&self) -> &[Step]
        ensures { result.now ≡ self.now }
    {
        self.kept.as_slice()
    }
}
