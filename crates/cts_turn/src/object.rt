//! What an object owes, so that threads can share it by turns.

/// An object that tells a list of entries and answers calls, one at a time.
///
/// A call leaves the list as it is, or appends one entry; one that appends nothing is a query. What
/// an object does is said by its rules, which each implementation defines: which replies its base
/// and its list allow to a call, and the list after each of them.
pub trait Object: Drop + Send {
    ghost use Rattle.std.specs.Prelude.{◌≡◌, ℕ, ◌≤◌, ◌⊎◌, ◌++◌, ◌∷◌, [], List, length};
    ghost use mathlib.Core.List.{IsPrefix};

    /// An entry of the list.
    type Entry;

    /// What is asked of the object.
    type Call;

    /// What it answers.
    type Reply;

    /// The greatest length of the list.
    const LIMIT: u64;

    ghost LIMIT: { ℕ };

    // The type of what never changes, and what it is.
    ghost Base: { Type 0 };

    ghost base: { Self → Base };

    // The list that the object tells.
    ghost told: { Self → List Self.Entry };

    // The lists that an object of this base may tell.
    ghost is_sound: { Base → List Self.Entry → Type 0 };

    // The calls that may be made at a list.
    ghost fits: { Base → List Self.Entry → Self.Call → Type 0 };

    // The replies that are allowed to a call at a list.
    ghost allows: { Base → List Self.Entry → Self.Call → Self.Reply → Type 0 };

    // The list after a reply.
    ghost after: { Base → List Self.Entry → Self.Call → Self.Reply → List Self.Entry };

    /// The length of the list.
    fn len(&self) -> u64
        ensures { result ≡ length (told self.now) };

    /// Answers a call.
    fn act(&mut self, call: Self::Call) -> Self::Reply
        requires { fits (base self.old) (told self.old) call }
        ensures base { base self.new ≡ base self.old }
        ensures reply { allows (base self.old) (told self.old) call result }
        ensures told { told self.new ≡ after (base self.old) (told self.old) call result };

    // What an implementation proves of its rules.
    ghost told_is_sound: { (object : Self) → is_sound (base object) (told object) };

    ghost told_is_short: { (object : Self) → length (told object) ≤ LIMIT };

    ghost appends_at_most_one: { (b : Base) (list : List Self.Entry) (call : Self.Call) (reply : Self.Reply) → allows b list call reply
        → (after b list call reply ≡ list) ⊎ ((entry : Self.Entry) × (after b list call reply ≡ list ++ entry ∷ [])) };

    ghost still_fits: { (b : Base) (list longer : List Self.Entry) (call : Self.Call) → fits b list call → is_sound b longer → IsPrefix list longer → fits b longer call };
}
