//! Two pieces of work beside each other.
//!
//! `std::thread::join` starts a thread for one of them and goes on with the other. A system may leave a thread that it
//! starts on the processor of the one that starts it, behind that one, until it waits or some ms are over, though other
//! processors have nothing to do. Where a thread is behind it already, the next one is put elsewhere at once. So a layer
//! above that calls [`beside`], or [`beside_mut`] for work that it lends, starts a thread more, which does nothing; so does one
//! that calls [`threads_at_once`] for work that starts several threads by itself.
#![tactic(auto)]

mod halves;

pub use halves::{Halved, Halves, by_halves};
use std::thread::{Threads, join, join_mut};

/// Calls one in a thread of its own, or last where none can be made, and the other one in this thread.
pub fn beside<R: Threads, F: FnOnce() -> A + Send, G: FnOnce() -> B, A: Send, B>(
    rt: &R,
    f: F,
    g: G,
) -> (A, B)
    requires { F.pre f × G.pre g }
    ensures first { F.post f result.0 }
    ensures second { G.post g result.1 }
{
    let both = move || -> (A, B)
        requires { F.pre f × G.pre g }
        ensures { F.post f result.0 × G.post g result.1 }
    { join(rt, f, g) };
    let ((), results) = join(rt, || {}, both);
    results
}

/// The same for two that are lent, so that the caller learns what each leaves in its captures.
pub fn beside_mut<R: Threads, F: FnMut() -> A + Send, G: FnMut() -> B, A: Send, B>(
    rt: &R,
    f: &mut F,
    g: &mut G,
) -> (A, B)
    requires { F.pre f.old × G.pre g.old }
    ensures { F.step f.old result.0 f.new × G.step g.old result.1 g.new }
{
    let mut both = || -> (A, B)
        requires { F.pre f.now × G.pre g.now }
        ensures { F.step f.entry.now result.0 f.exit.now × G.step g.entry.now result.1 g.exit.now }
    { join_mut(rt, f, g) };
    let ((), results) = join_mut(rt, &mut || {}, &mut both);
    results
}

/// Calls one that is lent and starts threads, so that the first of them begins at once too.
pub fn threads_at_once<R: Threads, F: FnMut() -> A, A>(rt: &R, f: &mut F) -> A
    requires { F.pre f.old }
    ensures { F.step f.old result f.new }
{
    let ((), result) = join_mut(rt, &mut || {}, f);
    result
}
