//! A whole script.

ghost use Rattle.std.specs.Prelude.{◌≡◌, ◌<◌, ◌≤◌, [], length, Ok, IfOk, IfErr, IfSome};
ghost use Rattle.cts_read.specs.Grammar.{Gives, Refuses, item_at, left_in};
ghost use Rattle.cts_script.specs.Scripts.{AreAsked, AreWithin, asked_at, script_of, scripts_of, step_at, steps_at, steps_of};
ghost use Rattle.cts_script.specs.Steps.{IsAct, IsCallerCount, callers_of};

use crate::script::{Script, ScriptStep};
use crate::step::{Asked, ScriptLine, callers_of, line_of};
use cts_io::Lines;
use cts_num::NoMemory;
use cts_read::{ReadStop, at_line, line_left, none_left};
use std::alloc::Global;

/// The first line, which says how many callers there are.
#[tactic(auto, unfolding(cts_read::specs::Grammar::item_at))]
fn read_callers(lines: &mut Lines<'_>) -> Result<u32, ReadStop>
    ensures read { Gives (λ x. x) result (left_in lines.new) (item_at callers_of (left_in lines.old)) }
    ensures few { IfOk result IsCallerCount }
{
    let (number, line) = line_left(lines)?;
    at_line(number, callers_of(line))
}

/// The step that a line says, with the number of the line; or none at the end.
fn asked_at(line: u32, said: ScriptLine) -> Option<Asked>
    ensures { result ≡ asked_at line said }
{
    match said {
        ScriptLine::End => None,
        ScriptLine::Step { caller, act } => Some(Asked {
            caller,
            step: ScriptStep { line, act },
        }),
    }
}

/// The next line: a step after so many others, or none at the end.
#[tactic(auto, unfolding(crate::specs::Scripts::step_at))]
fn read_step(lines: &mut Lines<'_>, callers: u32, before: u32) -> Result<Option<Asked>, ReadStop>
    ensures read { Gives (λ x. x) result (left_in lines.new) (step_at callers before (left_in lines.old)) }
    ensures room { IfOk result (λ asked. IfSome asked (λ _. before < 65536)) }
    ensures within { IfOk result (λ asked. IfSome asked (λ a. IsAct a.step.act)) }
{
    let (number, line) = line_left(lines)?;
    let said = at_line(number, line_of(callers, before, line))?;
    Ok(asked_at(number, said))
}

/// The steps up to the end of the script.
fn read_steps(alloc: Global, lines: &mut Lines<'_>, callers: u32) -> Result<Vec<Asked>, ReadStop>
    ensures read { Gives (λ v. v.items) result (left_in lines.new) (steps_at callers [] (left_in lines.old)) }
    ensures within { IfOk result (λ v. AreAsked v.items) }
{
    let mut asked = Vec::new(alloc);
    while let Some(step) = read_step(lines, callers, asked.len() as u32)? {
        asked.push(step)?;
    }
    Ok(asked)
}

/// The steps of one caller, in the order of their lines.
fn steps_of(alloc: Global, asked: &[Asked], caller: u32) -> Result<Vec<ScriptStep>, NoMemory>
    ensures { IfOk result (λ steps. steps.items ≡ steps_of caller asked.now) }
{
    let mut steps = Vec::new(alloc);
    for a in asked {
        if a.caller == caller {
            steps.push(a.step)?;
        }
    }
    Ok(steps)
}

/// The script of one caller.
#[tactic(auto, using(crate::proofs::Limits::steps_within))]
fn script_of(alloc: Global, asked: &[Asked], caller: u32) -> Result<Script, NoMemory>
    requires { AreAsked asked.now }
    ensures { IfOk result (λ script. script ≡ steps_of caller asked.now) }
{
    let steps = steps_of(alloc, asked, caller)?;
    Ok(Script::of(steps))
}

/// The script of each caller.
fn scripts_of(alloc: Global, asked: &[Asked], callers: u32) -> Result<Vec<Script>, NoMemory>
    requires asked { AreAsked asked.now }
    requires callers { callers ≤ 16 }
    ensures scripts { IfOk result (λ scripts. scripts.items ≡ scripts_of callers asked.now) }
    ensures many { IfOk result (λ scripts. length scripts.items ≡ callers) }
{
    let mut scripts = Vec::new(alloc);
    for before in 0..callers {
        let script = script_of(alloc, asked, before + 1)?;
        scripts.push(script)?;
    }
    Ok(scripts)
}

/// Reads the scripts of all callers, which are all that is left of an input after `lines` lines.
///
/// - `Ok`: exactly where the lines are those of a script, each line that is not skipped against the
///   next line of the grammar. It has the script of each caller, from the first on.
/// - `Refused`: exactly the first line that offends, counted from `lines + 1` on, with its first cause.
/// - `NoMemory`: an allocation failed.
///
/// It takes time and memory in proportion to the bytes.
#[tactic(auto, unfolding(crate::specs::Scripts::script_at))]
pub fn read_script(alloc: Global, bytes: &[u8], lines: u32) -> Result<Vec<Script>, ReadStop>
    requires bytes { length bytes.now ≤ 67108864 }
    requires lines { lines ≤ 67108864 }
    ensures read { IfOk result (λ scripts. script_of lines bytes.now ≡ Ok scripts.items) }
    ensures refused { IfErr result (λ stop. Refuses stop (script_of lines bytes.now)) }
    ensures callers { IfOk result (λ scripts. IsCallerCount (length scripts.items)) }
{
    let mut left = Lines::new(bytes, lines);
    let callers = read_callers(&mut left)?;
    let asked = read_steps(alloc, &mut left, callers)?;
    none_left(&mut left)?;
    Ok(scripts_of(alloc, &asked, callers)?)
}
