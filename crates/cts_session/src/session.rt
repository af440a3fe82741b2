//! A caller's session at a desk.

use crate::desk::{Desk, Hands};
use crate::draw::{Drawn, TreeEnd, VersionTotals, draw_now};
use crate::finish::{TotalsAlone, WholeTree};
use cts_design::{Edit, EditReply, Entry, send_edit};
use cts_merge::Steps;
use cts_topo::Order;
use cts_work::{Gate, Past};
use std::alloc::Global;
use std::marker::Model;
use std::sync::Wait;
use std::sync::ledger::Ledger;

/// A caller at a desk: hands of its own, and the number by which the desk knows it. It keeps its last tree, with the
/// nodes that it knows, and the order of its sinks, until it is split, joined or ended.
#[derive(Drop)]
pub struct Session<'a> {
    desk: &'a Desk,
    hands: Hands,
    caller: u32,
    past: Option<Past>,
    order: Option<Order>,
}

impl<'a> Model for Session<'a> {
    ghost use Rattle.std.specs.Coded.{codes};
    ghost use Rattle.cts_session.specs.contracts.desk.Desk as desk_type;
    ghost use Rattle.cts_session.specs.contracts.desk.Hands as hands_type;
    ghost use Rattle.cts_session.specs.Desks.{AreHandsOf};
    ghost use Rattle.cts_session.specs.Sessions.{AtDesk};
    ghost use Rattle.cts_turn.specs.Passes.{seen_by};
    ghost use Rattle.cts_work.specs.Last.{MayKnow};

    ghost Value = { AtDesk };

    ghost coded = { Prim.hlevel (codes, desk_type.the_row.coded, hands_type.the_row.coded) };

    ghost view = { λ session. record { desk = session.desk.now; hands = session.hands; caller = session.caller } };

    ghost invariant = { λ session. AreHandsOf session.desk.now session.hands × MayKnow (seen_by session.hands.memo) session.past };
}

impl<'a> Session<'a> {
    ghost use Rattle.std.specs.Prelude.{◌≡◌, ◌+◌, ◌≤◌, length, IfOk, IfErr, IfSome, OnOk};
    ghost use mathlib.Core.List.{IsPrefix};
    ghost use Rattle.cts_topo.specs.Topology.{shape_of};
    ghost use Rattle.cts_memo.specs.Numbers.{missing};
    ghost use Rattle.cts_design.specs.Edits.{IsEdit};
    ghost use Rattle.cts_design.specs.Passes.{IsEdited, made_in, version_in};
    ghost use Rattle.cts_session.specs.Desks.{AreHandsOf, AreDivisible, AreJoined, base_of, known_by, greater_half, lesser_half, GoesOn};
    ghost use Rattle.cts_session.specs.Draws.{EndsDraw, IsDrawn, IsSummedUp, KnowsAtEnd, KnowsTree};
    ghost use Rattle.cts_session.specs.Sessions.{at_desk, edits_of, entries_of, entry_of, seen_version};

    /// The session of a caller with these hands of the desk.
    pub fn of(desk: &'a Desk, hands: Hands, caller: u32) -> Session<'a>
        requires own { AreHandsOf desk.now hands }
        ensures { result ≡ at_desk desk.now hands caller }
    {
        Session {
            desk,
            hands,
            caller,
            past: None,
            order: None,
        }
    }

    /// Ends the session, and gives its hands back.
    pub fn hands(self) -> Hands
        ensures same { result ≡ self.entry.hands }
        ensures own { AreHandsOf self.entry.desk result }
    {
        self.hands
    }

    /// Splits the session in two, so that one of them can go to another thread: the second is that of the
    /// caller with this number. Both have seen what the session had seen. The first keeps what it made,
    /// and the greater half of its shares.
    pub fn split(self, caller: u32) -> (Session<'a>, Session<'a>)
        requires share { AreDivisible self.hands }
        ensures desks { (result.0.desk ≡ self.entry.desk) × (result.1.desk ≡ self.entry.desk) }
        ensures callers { (result.0.caller ≡ self.entry.caller) × (result.1.caller ≡ caller) }
        ensures first { known_by result.0.hands ≡ greater_half (known_by self.entry.hands) }
        ensures second { known_by result.1.hands ≡ lesser_half (known_by self.entry.hands) }
    {
        let Session {
            desk,
            hands,
            caller: own,
            past: _,
            order: _,
        } = self;
        let (first, second) = desk.split(hands);
        (
            Session::of(desk, first, own),
            Session::of(desk, second, caller),
        )
    }

    /// Joins two sessions of one desk. This one's number stays. Of the lists that they had seen one begins
    /// the other, and the longer one stays; what they made, and their shares, add up.
    pub fn join(self, other: Session<'a>) -> Session<'a>
        requires desk { other.desk ≡ self.desk }
        ensures desk { result.desk ≡ self.entry.desk }
        ensures caller { result.caller ≡ self.entry.caller }
        ensures joined { AreJoined (known_by self.entry.hands) (known_by other.entry.hands) (known_by result.hands) }
    {
        let Session {
            desk,
            hands,
            caller,
            past: _,
            order: _,
        } = self;
        let hands = desk.join(hands, other.hands);
        Session::of(desk, hands, caller)
    }

    /// Judges an edit, once it is this call's turn, and makes it where it is accepted. It is entered with
    /// the session's number and this line.
    ///
    /// The edit is judged at a history that begins with all that the session had seen. A refusal and want
    /// of memory change nothing.
    pub fn edit<R: Wait>(&mut self, rt: &R, line: u32, edit: Edit) -> EditReply
        requires { IsEdit edit }
        ensures desk { self.new.desk ≡ self.old.desk }
        ensures caller { self.new.caller ≡ self.old.caller }
        ensures goes_on { IsPrefix (edits_of self.old) (edits_of self.new) }
        ensures edited { IsEdited (base_of self.old.desk) (edits_of self.old) (entry_of self.old.caller line edit) result (edits_of self.new) }
        ensures version { IfSome (version_in result) (λ version. version ≡ length (edits_of self.new)) }
        ensures known { known_by self.new.hands ≡ record (known_by self.old.hands) {
          edits = edits_of self.new;
          edits_made = (known_by self.old.hands).edits_made + made_in result;
        } }
    {
        let desk = self.desk;
        let entry = Entry {
            caller: self.caller,
            line,
            edit,
        };
        send_edit(&desk.design, rt, &mut self.hands.design, entry)
    }

    /// The tree of the sinks as they are when it is this call's turn, with the number of edits that were
    /// accepted so far, its version; or why there is none.
    ///
    /// The tree is that of the synthesis by one thread. The memo saves the merges of the pairs that have a
    /// number in it. It is asked only for the nodes that neither the session's last tree had nor anybody
    /// published since, as far as the session heard of it; where a draw without a tree found too much to keep,
    /// all is forgotten, and the next draw asks for all its nodes. The gate is called with the session's number
    /// where a node is made. Afterwards the memo has a number for every node of the tree, or is full; so it
    /// does where there is no tree, but for a node that is beyond in the plan. No turn is held while the tree
    /// is made.
    pub fn tree<L: Ledger, R: Wait, G: Gate>(
        &mut self,
        rt: &R,
        alloc: Global,
        gate: &G,
        steps: &mut Steps<L>,
    ) -> Result<Drawn, TreeEnd>
        ensures desk { self.new.desk ≡ self.old.desk }
        ensures caller { self.new.caller ≡ self.old.caller }
        ensures goes_on { GoesOn (known_by self.old.hands) (known_by self.new.hands) }
        ensures known { known_by self.new.hands ≡ record (known_by self.old.hands) {
          entries = entries_of self.new;
          entries_made = (known_by self.new.hands).entries_made;
          edits = edits_of self.new;
        } }
        ensures drawn { IfOk result (IsDrawn (base_of self.old.desk) (edits_of self.new)) }
        ensures ends { IfErr result (EndsDraw (base_of self.old.desk) (edits_of self.new)) }
        ensures remembered { OnOk result (KnowsTree (seen_version self.new) (entries_of self.new)) }
        ensures remembered_until { IfErr result (KnowsAtEnd (seen_version self.new) (entries_of self.new)) }
        ensures merges { let sinks = (seen_version self.new).sinks in
            steps.new ≤ steps.old + missing (entries_of self.old) sinks (shape_of sinks) }
    {
        let desk = self.desk;
        let caller = self.caller;
        let (past, order) = (&mut self.past, &mut self.order);
        draw_now(
            rt,
            alloc,
            desk,
            &mut self.hands,
            past,
            order,
            gate,
            caller,
            &WholeTree,
            steps,
        )
    }

    /// The skew and the wire of the tree that [`Session::tree`] gives, with the version; or why there is none. No
    /// list of nodes is made. All else is as there.
    pub fn totals<L: Ledger, R: Wait, G: Gate>(
        &mut self,
        rt: &R,
        alloc: Global,
        gate: &G,
        steps: &mut Steps<L>,
    ) -> Result<VersionTotals, TreeEnd>
        ensures desk { self.new.desk ≡ self.old.desk }
        ensures caller { self.new.caller ≡ self.old.caller }
        ensures goes_on { GoesOn (known_by self.old.hands) (known_by self.new.hands) }
        ensures known { known_by self.new.hands ≡ record (known_by self.old.hands) {
          entries = entries_of self.new;
          entries_made = (known_by self.new.hands).entries_made;
          edits = edits_of self.new;
        } }
        ensures summed { IfOk result (IsSummedUp (base_of self.old.desk) (edits_of self.new)) }
        ensures ends { IfErr result (EndsDraw (base_of self.old.desk) (edits_of self.new)) }
        ensures remembered { OnOk result (KnowsTree (seen_version self.new) (entries_of self.new)) }
        ensures remembered_until { IfErr result (KnowsAtEnd (seen_version self.new) (entries_of self.new)) }
        ensures merges { let sinks = (seen_version self.new).sinks in
            steps.new ≤ steps.old + missing (entries_of self.old) sinks (shape_of sinks) }
    {
        let desk = self.desk;
        let caller = self.caller;
        let (past, order) = (&mut self.past, &mut self.order);
        draw_now(
            rt,
            alloc,
            desk,
            &mut self.hands,
            past,
            order,
            gate,
            caller,
            &TotalsAlone,
            steps,
        )
    }
}
