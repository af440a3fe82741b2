//! The words that a program is called with.

ghost use Rattle.std.specs.Prelude.{◌≡◌, ℕ, ◌≤◌, List, Option, Some, None, map, length, nat_lt, take, IfOk, IfSome, IfNone, IsErrOf};
ghost use Rattle.std.specs.declared.env.FillError.TheVariants.{NotPresent, TooLong};
ghost use Rattle.cts_notes.specs.Words.{AreWords, IsArgument, IsLonger};

use std::alloc::{AllocError, Global};
use std::env::FillError;
use std::marker::Model;
use std::rt::Env;

/// The arguments that a program is called with, by their numbers from 0. The first is its own name.
pub trait Arguments {
    /// The arguments, where they are told.
    ghost told: { Self → Option (List (List ℕ)) };

    /// Copies an argument to the front of `room`, and answers how long it is; or that it is longer than the
    /// room, or that there is none of this number.
    fn argument(&self, number: usize, room: &mut [u8]) -> Result<usize, FillError>
        ensures bound { IfOk result (λ count. count ≤ length room.new) }
        ensures copied { IfOk result (λ count. IsArgument (told self.now) number (Some (take count room.new))) }
        ensures none { IsErrOf result NotPresent → IsArgument (told self.now) number None }
        ensures longer { IsErrOf result TooLong → IsLonger (told self.now) number (length room.new) };
}

/// The arguments that the host calls the program with. It does not tell them.
#[derive(Drop)]
pub struct HostArguments<'a, R> {
    rt: &'a R,
}

impl<'a, R> HostArguments<'a, R> {
    /// The arguments of this host.
    pub fn new(rt: &'a R) -> HostArguments<'a, R> {
        HostArguments { rt }
    }
}

impl<'a, R: Env> Arguments for HostArguments<'a, R> {
    ghost told = { λ _. None };

    fn argument(&self, number: usize, room: &mut [u8]) -> Result<usize, FillError> {
        self.rt.arg(number, room)
    }
}

/// Arguments in memory, which tell what they are.
#[derive(Drop)]
pub struct MemArguments {
    arguments: Vec<Vec<u8>>,
}

impl Model for MemArguments {
    ghost use Rattle.std.specs.Prelude.{ℕ, List, map};

    ghost Value = { List (List ℕ) };

    ghost view = { λ s. map (λ argument. argument.items) s.arguments.items };
}

impl MemArguments {
    /// These arguments, of which the first stands for the program's own name.
    pub fn new(arguments: Vec<Vec<u8>>) -> MemArguments
        ensures { result ≡ map (λ argument. argument.items) arguments.items }
    {
        MemArguments { arguments }
    }
}

impl Arguments for MemArguments {
    ghost told = { λ s. Some s };

    fn argument(&self, number: usize, room: &mut [u8]) -> Result<usize, FillError> {
        let Some(argument) = self.arguments.get(number) else {
            return Err(FillError::NotPresent);
        };
        let count = argument.len();
        if room.len() < count {
            return Err(FillError::TooLong);
        }
        room[..count].copy_from_slice(argument);
        Ok(count)
    }
}

/// The bytes of an argument by its number, or `None` where there is none.
fn argument<A: Arguments>(
    alloc: Global,
    arguments: &A,
    number: usize,
) -> Result<Option<Vec<u8>>, AllocError>
    ensures some { IfOk result (λ answer. IfSome answer (λ bytes.
        IsArgument (A.told arguments.now) number (Some bytes.items))) }
    ensures none { IfOk result (λ answer. IfNone answer (IsArgument (A.told arguments.now) number None)) }
{
    let mut room = 64usize;
    for _ in 0..usize::BITS {
        let mut bytes = vec![in alloc; 0; room]?;
        match arguments.argument(number, &mut bytes) {
            Ok(count) => {
                bytes.truncate(count);
                return Ok(Some(bytes));
            }
            Err(FillError::NotPresent) => return Ok(None),
            Err(FillError::TooLong) => room = room.saturating_mul(2),
        }
    }
    Err(AllocError)
}

/// The words that a program is called with: all arguments but its own name, in their order, each whole. They
/// may be any bytes: what is no UTF-8 becomes U+FFFD, which no form of words has.
///
/// Where the arguments are told, the result is exactly their words. An error says that memory ran out.
pub fn words_of<A: Arguments>(alloc: Global, arguments: &A) -> Result<Vec<String>, AllocError>
    ensures { IfOk result (λ words. IfSome (A.told arguments.now) (AreWords words.items)) }
{
    let mut words = Vec::new(alloc);
    for number in 1..usize::MAX {
        match argument(alloc, arguments, number)? {
            Some(bytes) => words.push(String::from_utf8_lossy(alloc, &bytes)?)?,
            None => return Ok(words),
        }
    }
    Err(AllocError)
}

/// Whether the program is called with a word.
pub fn has_words<A: Arguments>(arguments: &A) -> bool
    ensures { IfSome (A.told arguments.now) (λ all. result ≡ nat_lt 1 (length all)) }
{
    !matches!(arguments.argument(1, &mut []), Err(FillError::NotPresent))
}
