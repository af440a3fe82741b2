//! What this crate's types owe to threads, as a law: the contract of a function that does nothing.

ghost use Rattle.cts_session.specs.Laws.{DeskIsShared, HandsAreSent, SessionsAreSent};

/// Threads may share a desk, and hands and sessions may go to another thread. A caller of `join` calls
/// this before, where its closures hold a desk and hands, and make their sessions of them.
pub fn desk_is_shared()
    ensures desk { DeskIsShared }
    ensures hands { HandsAreSent }
    ensures sessions { SessionsAreSent }
{}
