//! Scripts: what each caller asks for, step by step.

ghost use Rattle.std.specs.Prelude.{◌≡◌};
ghost use Rattle.cts_script.specs.Scripts.{AreWithin};

use cts_edit::Edit;
use std::marker::Model;

/// What a step asks for.
#[derive(Clone, Copy, Debug, PartialEq, Eq)]
pub enum Act {
    /// An edit of the sinks.
    Change(Edit),
    /// A tree of the sinks.
    Draw,
}

/// A step, and the number of its line.
#[derive(Clone, Copy, Debug, PartialEq, Eq)]
pub struct ScriptStep {
    pub line: u32,
    pub act: Act,
}

/// The steps of one caller in their order. Each edit is within the limits of ids, coordinates and
/// capacitances.
#[derive(Drop)]
pub struct Script {
    steps: Vec<ScriptStep>,
}

impl Model for Script {
    ghost use Rattle.std.specs.Prelude.{List};
    ghost use Rattle.cts_script.specs.declared.script.ScriptStep.{ScriptStep};
    ghost use Rattle.cts_script.specs.Scripts.{AreWithin};

    ghost Value = { List ScriptStep };

    ghost view = { λ script. script.steps.items };

    ghost invariant = { λ script. AreWithin script.steps.items };
}

impl Script {
    /// A script of these steps.
    pub fn of(steps: Vec<ScriptStep>) -> Script
        requires { AreWithin steps.items }
        ensures { result ≡ steps.items }
    {
        Script { steps }
    }

    /// The steps in order.
    pub fn steps(&self) -> &[ScriptStep]
        ensures steps { result.now ≡ self.now }
        ensures within { AreWithin result.now }
    {
        self.steps.as_slice()
    }
}
