//! The words of `trunk STEP J`.

ghost use Rattle.std.specs.Prelude.{◌≡◌, ◌↔◌, ℕ, Some, codes, [], ◌∷◌};
ghost use Rattle.cts_top.specs.TrunkWords.{IsBufferIndex, IsStep};
ghost use Rattle.cts_top.specs.Words.{AsksFor};

use crate::words::Form;
use cts_num::read_decimal;

/// The trunk of two words.
pub fn trunk(step: &[u8], buffer: &[u8]) -> Option<Form>
    ensures { (form : Form) → (result ≡ Some form) ↔ AsksFor (codes "trunk" ∷ step.now ∷ buffer.now ∷ []) form }
{
    let (step, buffer) = step_of(step).zip(buffer_of(buffer))?;
    Some(Form::Trunk { step, buffer })
}

/// The step in nm that a word tells in µm.
fn step_of(word: &[u8]) -> Option<u64>
    ensures { (step : ℕ) → (result ≡ Some step) ↔ IsStep word.now step }
{
    let step = read_decimal(word, 3).ok()?;
    if 1 <= step && step < 1 << 31 {
        Some(step)
    } else {
        None
    }
}

/// The index of a buffer that a word tells.
fn buffer_of(word: &[u8]) -> Option<u16>
    ensures { (index : ℕ) → (result ≡ Some index) ↔ IsBufferIndex word.now index }
{
    let index = read_decimal(word, 0).ok()?;
    if index <= 15 {
        Some(index as u16)
    } else {
        None
    }
}
