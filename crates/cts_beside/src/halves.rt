//! One pass over a room of places, divided among workers by halves.

ghost use Rattle.std.specs.Prelude.{◌≤◌, ◌++◌, List, length, take, drop, IfSome};
ghost use denote.Param.Send.{IsSend, IsSync};

use crate::beside_mut;
use std::thread::Threads;

/// A room with fewer places than these is made by one worker: it takes it no longer than a thread takes to start.
const FEW: usize = 4096;

/// The two halves of a part, and what stands over them. The front half has the first `middle` places, the back half those up
/// to `last`, and the rest are the part's own.
#[derive(Drop)]
pub struct Halves<P, O> {
    pub front: P,
    pub back: P,
    pub middle: usize,
    pub last: usize,
    pub over: O,
}

/// A pass over the places of a room that can be made by halves, each in a thread of its own.
pub trait Halved {
    /// Which part of the pass is made.
    type Part;
    /// A place of the room.
    type Place;
    /// What `cut` finds for `join`.
    type Over;
    /// What the pass over a part answers.
    type Answer;

    /// Whether a part can be made in a room.
    ghost ready: { Self → Self.Part → List Self.Place → Type 0 };

    /// What the halves of a part are: the places of the front, of the back and its own, the halves, and what stands over them.
    ghost cuts: { Self → Self.Part → List Self.Place → List Self.Place → List Self.Place → Self.Part → Self.Part → Self.Over → Type 0 };

    /// What a part comes to: the places before and after, and the answer.
    ghost made: { Self → Self.Part → List Self.Place → List Self.Place → Self.Answer → Type 0 };

    /// Makes a part by one worker.
    fn alone(&self, part: &Self::Part, room: &mut [Self::Place]) -> Self::Answer
        requires { ready self.now part.now room.old }
        ensures { made self.now part.now room.old room.new result };

    /// The halves of a part, where it has some.
    fn cut(&self, part: &Self::Part, room: &[Self::Place]) -> Option<Halves<Self::Part, Self::Over>>
        requires { ready self.now part.now room.now }
        ensures within { IfSome result (λ h. (h.middle ≤ h.last) × (h.last ≤ length room.now)) }
        ensures front { IfSome result (λ h. ready self.now h.front (take h.middle (take h.last room.now))) }
        ensures back { IfSome result (λ h. ready self.now h.back (drop h.middle (take h.last room.now))) }
        ensures cut { IfSome result (λ h. cuts self.now part.now (take h.middle (take h.last room.now))
            (drop h.middle (take h.last room.now)) (drop h.last room.now) h.front h.back h.over) };

    /// Makes the rest of a part whose halves are made.
    fn join(
        &self,
        part: &Self::Part,
        first: &Self::Part,
        second: &Self::Part,
        over: Self::Over,
        front: &mut [Self::Place],
        back: &mut [Self::Place],
        own: &mut [Self::Place],
        a: Self::Answer,
        b: Self::Answer,
    ) -> Self::Answer
        requires { (old_front old_back : List Self.Place) × cuts self.now part.now old_front old_back own.old first.now second.now over
            × made self.now first.now old_front front.old a × made self.now second.now old_back back.old b }
        ensures { (old_front old_back : List Self.Place) → cuts self.now part.now old_front old_back own.old first.now second.now over
            → made self.now first.now old_front front.old a → made self.now second.now old_back back.old b
            → made self.now part.now (old_front ++ old_back ++ own.old) (front.new ++ back.new ++ own.new) result };
}

/// Makes a part by at most so many workers beside each other.
#[cycle(halves)]
pub fn by_halves<
    R: Threads + Sync,
    P: Sync + Drop,
    T: Send,
    O: Send + Drop,
    A: Send + Drop,
    H: Halved<Part = P, Place = T, Over = O, Answer = A> + Sync,
>(rt: &R, workers: u32, work: &H, part: &P, room: &mut [T]) -> A
    requires ready { H.ready work.now part.now room.old }
    ensures { H.made work.now part.now room.old room.new result }
{
    if workers < 2 || room.len() < FEW {
        return work.alone(part, room);
    }
    let Some(halves) = work.cut(part, room) else {
        return work.alone(part, room);
    };
    let Halves {
        front,
        back,
        middle,
        last,
        over,
    } = halves;
    let (below, own) = room.split_at_mut(last);
    let (front_room, back_room) = below.split_at_mut(middle);
    let (a, b) = both_halves(rt, workers, work, &front, &back, front_room, back_room);
    work.join(part, &front, &back, over, front_room, back_room, own, a, b)
}

/// Makes two halves by two threads, each with half of the workers.
#[cycle(halves)]
fn both_halves<
    R: Threads + Sync,
    P: Sync + Drop,
    T: Send,
    O: Send + Drop,
    A: Send + Drop,
    H: Halved<Part = P, Place = T, Over = O, Answer = A> + Sync,
>(
    rt: &R,
    workers: u32,
    work: &H,
    front: &P,
    back: &P,
    front_room: &mut [T],
    back_room: &mut [T],
) -> (A, A)
    requires some { 2 ≤ workers }
    requires front { H.ready work.now front.now front_room.old }
    requires back { H.ready work.now back.now back_room.old }
    requires shared { IsSync R.row }
    ensures front { H.made work.now front.now front_room.old front_room.new result.0 }
    ensures back { H.made work.now back.now back_room.old back_room.new result.1 }
{
    let (here, there) = (workers - workers / 2, workers / 2);
    let mut second = || -> A
        requires { IsSync R.row × IsSync P.row × IsSend T.row × IsSend O.row × IsSend A.row × IsSync H.row × H.ready work.now back.now back_room.now }
        ensures { H.made work.entry.now back.entry.now back_room.entry.now back_room.exit.now result }
    { by_halves(rt, there, work, back, back_room) };
    let mut first = || -> A
        requires { IsSync R.row × IsSync P.row × IsSend T.row × IsSend O.row × IsSend A.row × IsSync H.row × H.ready work.now front.now front_room.now }
        ensures { H.made work.entry.now front.entry.now front_room.entry.now front_room.exit.now result }
    { by_halves(rt, here, work, front, front_room) };
    let (b, a) = beside_mut(rt, &mut second, &mut first);
    (a, b)
}
