//! The secret of the memo of a run.

use cts_edit::Edit;
use cts_instance::Instance;
use cts_memo::{Mixture, Secret};
use cts_script::{Act, Script, ScriptStep};

/// Adds the numbers of an edit.
fn add_edit(mixture: &mut Mixture, edit: Edit) {
    match edit {
        Edit::Add { id, x, y, cap } => {
            mixture.add(id as u64);
            mixture.add_place(x, y);
            mixture.add(cap);
        }
        Edit::Remove { id } => mixture.add(id as u64),
        Edit::Move { id, x, y } => {
            mixture.add(id as u64);
            mixture.add_place(x, y);
        }
        Edit::SetCap { id, cap } => {
            mixture.add(id as u64);
            mixture.add(cap);
        }
    }
}

/// Adds the edits of a script.
fn add_steps(mixture: &mut Mixture, steps: &[ScriptStep]) {
    for step in steps {
        if let Act::Change(edit) = step.act {
            add_edit(mixture, edit);
        }
    }
}

/// A secret in which all sinks of an instance have a part, and all edits of the scripts.
pub(crate) fn secret_of(instance: &Instance, scripts: &[Script]) -> Secret {
    let mut mixture = Mixture::new();
    mixture.add_sinks(instance.sinks());
    for script in scripts {
        add_steps(&mut mixture, script.steps());
    }
    mixture.secret()
}
