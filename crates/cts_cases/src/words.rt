//! The words of a program, from arguments in memory.

use cts_notes::{MemArguments, has_words, words_of};
use std::alloc::{AllocError, Global};
use std::io;

/// Arguments of which the first is the program's own name: more than four words, one that is empty, one that is
/// longer than the first room for it, one that is no UTF-8, and one that stands there twice.
const ARGUMENTS: [&[u8]; 9] = [
    b"cts",
    b"job",
    b"2147483647",
    b"65536",
    b"64",
    b"",
    b"synthsynthsynthsynthsynthsynthsynthsynthsynthsynthsynthsynthsynthsynth",
    b"a\xffb",
    b"job",
];

/// The first arguments of these.
fn arguments(alloc: Global, count: usize) -> Result<MemArguments, AllocError> {
    let mut arguments = Vec::new(alloc);
    for argument in ARGUMENTS.iter().take(count) {
        arguments.push(argument.to_vec(alloc)?)?;
    }
    Ok(MemArguments::new(arguments))
}

/// Prints whether there are words, and each of them with its number of bytes.
pub(crate) fn write<R: AllocGlobal + Print>(rt: &R) -> io::Result<()> {
    for count in [0, 1, 2, 9] {
        let arguments = arguments(rt.alloc(), count)?;
        println!(rt;
            "{count} arguments: {}",
            if has_words(&arguments) {
                "words"
            } else {
                "no word"
            }
        )?;
        for word in words_of(rt.alloc(), &arguments)? {
            println!(rt; "{}: {word}", word.len())?;
        }
    }
    Ok(())
}
