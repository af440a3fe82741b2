//! The words that the program is called with.

ghost use Rattle.std.specs.Prelude.{◌≡◌, ◌↔◌, ◌≤◌, ◌<◌, ◌^◌, ℕ, Some, codes, [], ◌∷◌};
ghost use Rattle.cts_top.specs.Words.{AreMade, AsksFor, IsForm, IsNumber, IsWorkers};

use crate::trunk_words::trunk;
use cts_num::read_decimal;

/// What the words ask for.
#[derive(Clone, Copy)]
pub enum Form {
    /// The report of the tree of the instance that the input spells, made by so many workers.
    Synth { workers: u32 },
    /// The verdict on the report that follows the instance in the input.
    Check,
    /// The history that the callers of the scripts after the instance in the input make of its sinks, and
    /// the report of the tree after it.
    Edit,
    /// The report of the tree over the nearest-pair topology of the instance that the input spells.
    Near,
    /// The changes of the instance's sinks that are done at the end of the steps after it in the input, where
    /// changes are undone and redone, and the report of the tree after them.
    Replay,
    /// The text of the instance that is made from a seed, with so many sinks.
    Make { seed: u32, sinks: u32 },
    /// The summary of the tree of that instance, made by so many workers.
    Job { seed: u32, sinks: u32, workers: u32 },
    /// The trunk, with repeaters at the multiples of a step in nm, of the tree of the instance that the
    /// input spells, and the report of that tree. The repeaters are the library's buffer of this index.
    Trunk { step: u64, buffer: u16 },
}

/// What the words ask for: `synth W`, `check`, `edit`, `make SEED N`, `job SEED N W`, `trunk STEP J`, `near` or `replay`.
pub fn form_of(words: &[String]) -> Option<Form>
    ensures { (form : Form) → (result ≡ Some form) ↔ IsForm words.now form }
{
    match words {
        [name] => one_word(name.as_bytes()),
        [name, first] => two_words(name.as_bytes(), first.as_bytes()),
        [name, first, second] => {
            three_words(name.as_bytes(), first.as_bytes(), second.as_bytes())
        }
        [name, first, second, third] => four_words(
            name.as_bytes(),
            first.as_bytes(),
            second.as_bytes(),
            third.as_bytes(),
        ),
        _ => None,
    }
}

/// The form of one word.
fn one_word(name: &[u8]) -> Option<Form>
    ensures { (form : Form) → (result ≡ Some form) ↔ AsksFor (name.now ∷ []) form }
{
    match name {
        b"check" => Some(Form::Check),
        b"edit" => Some(Form::Edit),
        b"near" => Some(Form::Near),
        b"replay" => Some(Form::Replay),
        _ => None,
    }
}

/// The form of a name and a word after it.
fn two_words(name: &[u8], first: &[u8]) -> Option<Form>
    ensures { (form : Form) → (result ≡ Some form) ↔ AsksFor (name.now ∷ first.now ∷ []) form }
{
    match name {
        b"synth" => synth(first),
        _ => None,
    }
}

/// The form of a name and two words after it.
fn three_words(name: &[u8], first: &[u8], second: &[u8]) -> Option<Form>
    ensures { (form : Form) → (result ≡ Some form) ↔ AsksFor (name.now ∷ first.now ∷ second.now ∷ []) form }
{
    match name {
        b"make" => make(first, second),
        b"trunk" => trunk(first, second),
        _ => None,
    }
}

/// The form of a name and three words after it.
fn four_words(name: &[u8], first: &[u8], second: &[u8], third: &[u8]) -> Option<Form>
    ensures { (form : Form) → (result ≡ Some form)
        ↔ AsksFor (name.now ∷ first.now ∷ second.now ∷ third.now ∷ []) form }
{
    match name {
        b"job" => job(first, second, third),
        _ => None,
    }
}

/// The synthesis by as many workers as a word says.
fn synth(workers: &[u8]) -> Option<Form>
    ensures { (form : Form) → (result ≡ Some form) ↔ AsksFor (codes "synth" ∷ workers.now ∷ []) form }
{
    let workers = workers_of(workers)?;
    Some(Form::Synth { workers })
}

/// The instance of two words.
fn make(seed: &[u8], sinks: &[u8]) -> Option<Form>
    ensures { (form : Form) → (result ≡ Some form) ↔ AsksFor (codes "make" ∷ seed.now ∷ sinks.now ∷ []) form }
{
    let (seed, sinks) = made(seed, sinks)?;
    Some(Form::Make { seed, sinks })
}

/// The job of three words.
fn job(seed: &[u8], sinks: &[u8], workers: &[u8]) -> Option<Form>
    ensures { (form : Form) → (result ≡ Some form)
        ↔ AsksFor (codes "job" ∷ seed.now ∷ sinks.now ∷ workers.now ∷ []) form }
{
    let ((seed, sinks), workers) = made(seed, sinks).zip(workers_of(workers))?;
    Some(Form::Job {
        seed,
        sinks,
        workers,
    })
}

/// A seed and a number of sinks, each within its limits.
fn made(seed: &[u8], sinks: &[u8]) -> Option<(u32, u32)>
    ensures { (s n : ℕ) → (result ≡ Some (s, n)) ↔ AreMade seed.now sinks.now s n }
{
    number(seed, 0, 2_147_483_647).zip(number(sinks, 1, 65_536))
}

/// The number of workers that a word is.
fn workers_of(word: &[u8]) -> Option<u32>
    ensures { (n : ℕ) → (result ≡ Some n) ↔ IsWorkers word.now n }
{
    number(word, 1, 64)
}

/// The number that a word is, where it is within these limits.
fn number(word: &[u8], least: u32, most: u32) -> Option<u32>
    ensures { (n : ℕ) → (result ≡ Some n) ↔ (IsNumber word.now n × (least ≤ n) × (n ≤ most)) }
{
    let number = read_decimal(word, 0).ok()?;
    if u64::from(least) <= number && number <= u64::from(most) {
        Some(number as u32)
    } else {
        None
    }
}
