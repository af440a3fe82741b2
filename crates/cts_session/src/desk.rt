//! A desk, and the hands that may call it.

ghost use Rattle.std.specs.Prelude.{◌≡◌, ◌+◌, [], length};
ghost use Rattle.cts_instance.specs.Validity.{IsValid, with_sinks};
ghost use Rattle.cts_turn.specs.Passes.{made_by, seen_by, share_of};
ghost use Rattle.cts_memo.specs.Passes.{params_of};
ghost use Rattle.cts_memo.specs.Passes.{IsPassOf as IsMemoPassOf};
ghost use Rattle.cts_memo.specs.Sound.{IsSound as IsTable};
ghost use Rattle.cts_memo.specs.Tables.{told_by};
ghost use Rattle.cts_memo.specs.Tables.{base_of as table_params};
ghost use Rattle.cts_design.specs.Edits.{after};
ghost use Rattle.cts_design.specs.Passes.{instance_of, opening_of};
ghost use Rattle.cts_design.specs.Passes.{IsPassOf as IsDesignPassOf};
ghost use Rattle.cts_design.specs.Sound.{IsSound as IsHistory};

use cts_design::{Design, Entry};
use cts_instance::Instance;
use cts_memo::{Memo, MemoPass, Secret, Table};
use cts_num::NoMemory;
use cts_turn::{Pass, Turn};
use cts_units::Sink;
use std::alloc::Global;

/// The whole share of a memo and of a design.
const WHOLE: u32 = 65_536;

/// An instance, the design in which its sinks are edited, and the memo of its finished subtrees.
#[derive(Drop)]
pub struct Desk {
    pub(crate) instance: Instance,
    pub(crate) memo: Memo,
    pub(crate) design: Turn<Design>,
    ghost same_params: { params_of memo ≡ instance.params },
    ghost same_base: { instance_of design ≡ instance },
    ghost unedited: { opening_of design ≡ [] },
}

/// The right to call a desk: a pass of its memo, and one of its design.
#[derive(Drop)]
pub struct Hands {
    pub(crate) memo: MemoPass,
    pub(crate) design: Pass<Design>,
}

/// A desk can't be closed while other hands are out. Desk and hands come back.
#[derive(Drop)]
pub struct DeskOut {
    pub desk: Desk,
    pub hands: Hands,
}

/// The table of a memo whose passes are all joined.
fn table_of(memo: Memo, pass: MemoPass) -> Table
    requires own { IsMemoPassOf memo pass }
    requires whole { share_of pass ≡ 65536 }
    ensures table { told_by result ≡ seen_by pass }
    ensures params { table_params result ≡ params_of memo }
    ensures sound { IsTable (params_of memo) (told_by result) }
{
    match memo.close(pass) {
        Ok(table) => table,
        Err(_) => unreachable!(),
    }
}

/// The edits and the sinks of a design whose passes are all joined.
fn lists_of(design: Turn<Design>, pass: Pass<Design>) -> (Vec<Entry>, Vec<Sink>)
    requires own { IsDesignPassOf design pass }
    requires whole { share_of pass ≡ 65536 }
    ensures edits { result.0.items ≡ seen_by pass }
    ensures count { length (seen_by pass) ≡ length (opening_of design) + made_by pass }
    ensures sinks { result.1.items ≡ after (instance_of design).sinks (seen_by pass) }
    ensures sound { IsHistory (instance_of design) (seen_by pass) }
    ensures valid { IsValid (with_sinks (instance_of design) result.1.items) }
{
    match design.close(pass) {
        Ok(design) => design.into_lists(),
        Err(_) => unreachable!(),
    }
}

impl Desk {
    ghost use Rattle.std.specs.Prelude.{◌≡◌, length, IfOk, IfErr};
    ghost use Rattle.cts_instance.specs.Validity.{IsValid, with_sinks};
    ghost use Rattle.cts_design.specs.Edits.{after};
    ghost use Rattle.cts_design.specs.Sound.{IsSound as IsHistory};
    ghost use Rattle.cts_session.specs.Desks.{AreHandsOf, AreDivisible, AreJoined, AreWhole, IsTableOf, base_of, known_by, at_start, greater_half, lesser_half};

    /// The desk of an instance without edits, and the hands with the whole share of it. The secret is that
    /// of the memo's hash; no answer depends on it. Where memory runs out the instance is dropped.
    pub fn start_seeded(
        alloc: Global,
        instance: Instance,
        secret: Secret,
    ) -> Result<(Desk, Hands), NoMemory>
        ensures base { IfOk result (λ d. base_of d.0 ≡ instance) }
        ensures own { IfOk result (λ d. AreHandsOf d.0 d.1) }
        ensures hands { IfOk result (λ d. known_by d.1 ≡ at_start) }
    {
        let (memo, memo_pass) = Memo::start_seeded(alloc, instance.params(), secret)?;
        let (design, design_pass) = Design::start(alloc, &instance)?;
        let desk = Desk {
            instance,
            memo,
            design,
        };
        let hands = Hands {
            memo: memo_pass,
            design: design_pass,
        };
        Ok((desk, hands))
    }

    /// The desk of an instance without edits, and the hands with the whole share of it. Everybody knows the
    /// secret of the memo's hash, so it is for sinks that nobody picked to do harm. Where memory runs out the
    /// instance is dropped.
    pub fn start(alloc: Global, instance: Instance) -> Result<(Desk, Hands), NoMemory>
        ensures base { IfOk result (λ d. base_of d.0 ≡ instance) }
        ensures own { IfOk result (λ d. AreHandsOf d.0 d.1) }
        ensures hands { IfOk result (λ d. known_by d.1 ≡ at_start) }
    {
        Desk::start_seeded(alloc, instance, Secret::known())
    }

    /// Splits hands in two, so that one of them can go to another thread.
    pub(crate) fn split(&self, hands: Hands) -> (Hands, Hands)
        requires own { AreHandsOf self.now hands }
        requires share { AreDivisible hands }
        ensures own { AreHandsOf self.now result.0 × AreHandsOf self.now result.1 }
        ensures first { known_by result.0 ≡ greater_half (known_by hands) }
        ensures second { known_by result.1 ≡ lesser_half (known_by hands) }
    {
        let Hands { memo, design } = hands;
        let (memo, other_memo) = self.memo.split(memo);
        let (design, other_design) = self.design.split(design);
        let first = Hands { memo, design };
        let second = Hands {
            memo: other_memo,
            design: other_design,
        };
        (first, second)
    }

    /// Joins hands.
    pub(crate) fn join(&self, a: Hands, b: Hands) -> Hands
        requires own { AreHandsOf self.now a × AreHandsOf self.now b }
        ensures own { AreHandsOf self.now result }
        ensures joined { AreJoined (known_by a) (known_by b) (known_by result) }
    {
        Hands {
            memo: self.memo.join(a.memo, b.memo),
            design: self.design.join(a.design, b.design),
        }
    }

    /// Ends a desk whose hands are all joined, and gives the instance of its start, the table of its memo,
    /// the edits that were accepted, and the sinks after them. Otherwise desk and hands come back as they
    /// were.
    pub fn close(self, hands: Hands) -> Result<(Instance, Table, Vec<Entry>, Vec<Sink>), DeskOut>
        requires own { AreHandsOf self hands }
        ensures whole { IfOk result (λ _. AreWhole hands) }
        ensures instance { IfOk result (λ closed. closed.0 ≡ base_of self) }
        ensures table { IfOk result (λ closed. IsTableOf (base_of self).params (known_by hands).entries closed.1) }
        ensures edits { IfOk result (λ closed. closed.2.items ≡ (known_by hands).edits) }
        ensures made { IfOk result (λ closed. length closed.2.items ≡ (known_by hands).edits_made) }
        ensures sound { IfOk result (λ closed. IsHistory (base_of self) closed.2.items) }
        ensures sinks { IfOk result (λ closed. closed.3.items ≡ after (base_of self).sinks closed.2.items) }
        ensures valid { IfOk result (λ closed. IsValid (with_sinks (base_of self) closed.3.items)) }
        ensures out { IfErr result (λ _. ¬ AreWhole hands) }
        ensures back { IfErr result (λ e. (e.desk ≡ self) × (e.hands ≡ hands)) }
    {
        if hands.memo.share() != WHOLE || hands.design.share() != WHOLE {
            return Err(DeskOut { desk: self, hands });
        }
        let Desk {
            instance,
            memo,
            design,
        } = self;
        let table = table_of(memo, hands.memo);
        let (edits, sinks) = lists_of(design, hands.design);
        Ok((instance, table, edits, sinks))
    }
}
