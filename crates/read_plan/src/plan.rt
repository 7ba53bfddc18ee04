//! The plan itself.
ghost use Rattle.std.specs.Prelude.{◌≡◌, ◌+◌, ◌-◌, ◌*◌, ◌^◌, ◌<◌, ◌≤◌, ◌↔◌, min, max};
ghost use Rattle.std.specs.Prelude.{[], ◌∷◌, None, IsTrue, IfSome};
ghost use Rattle.std.specs.Option.{option_to_list};
ghost use Rattle.read_plan.specs.OfferAnswer.{Offers, RunsCoverBlocks, IfFlush, flushed_runs};
ghost use Rattle.read_plan.specs.Plans.{IsSoundPlan, MayLookAhead, new_plan, raised_plan};
ghost use Rattle.read_plan.specs.Runs.{AreRuns, IsRun, IsWithin};

use crate::runs::{Offer, Run};
use std::marker::Model;

/// The plan of one read stream: what contracts see of it is a `PlanView`.
#[derive(Drop)]
pub struct Plan {
    combine: u32,
    max_ios: u32,
    limit: u32,
    segment: u32,
    distance: u32,
    blocks_ahead: u32,
    ios_in_progress: u32,
    pending: Option<Run>,
}

impl Model for Plan {
    ghost use Rattle.read_plan.specs.Plans.{PlanView};

    ghost Value = { PlanView };

    ghost use Rattle.read_plan.specs.PlanInvariant.{plan_view, PlanInvariant};

    ghost view = { plan_view };

    ghost invariant = { PlanInvariant };
}

impl Plan {
    /// A plan that combines up to `combine` blocks into a run, keeps up to `max_ios` I/Os in
    /// progress, and looks up to `limit` blocks ahead: at first 1 block, or with `full` as many as
    /// one run may have (`READ_STREAM_FULL`). No run crosses a multiple of `segment`, the blocks
    /// of one segment of the relation (`RELSEG_SIZE`).
    pub fn new(combine: u32, max_ios: u32, limit: u32, full: bool, segment: u32) -> Plan
        requires combine { (1 ≤ combine) × (combine ≤ 128) }
        requires max_ios { (1 ≤ max_ios) × (max_ios ≤ 64) }
        requires limit { (1 ≤ limit) × (limit ≤ 16384) }
        requires segment { 1 ≤ segment }
        ensures plan { result ≡ new_plan combine max_ios limit full segment }
        ensures sound { IsSoundPlan result }
        ensures runs { AreRuns combine segment (option_to_list result.pending) [] }
    {
        Plan {
            combine,
            max_ios,
            limit,
            segment,
            distance: if full { limit.min(combine) } else { 1 },
            blocks_ahead: 0,
            ios_in_progress: 0,
            pending: None,
        }
    }

    /// Before its first block: the distance is to be at least `to` blocks, as far as the limit
    /// allows. It does not fall.
    pub fn raise_distance(&mut self, to: u32)
        ensures { self.new ≡ raised_plan self.old to }
    {
        self.distance = self.distance.max(to.min(self.limit));
    }

    /// Adds the block to the pending run, or begins another one with it.
    pub fn offer(&mut self, block: u32) -> Offer
        ensures answer { Offers self.old.combine self.old.segment self.old.pending block result
            self.new.pending }
        ensures rest { self.new ≡ record self.old { pending = self.new.pending } }
        ensures runs { RunsCoverBlocks self.old self.new (block ∷ []) (flushed_runs result) }

        ensures flushed { IfFlush result (IsRun self.old.combine) }
        ensures pending { IfSome self.new.pending (IsRun self.old.combine) }
        ensures within { IfFlush result (IsWithin self.old.segment)
            × IfSome self.new.pending (IsWithin self.old.segment) }
    {
        let Some(run) = self.pending else {
            self.pending = Some(Run::one(block));
            return Offer::Start;
        };
        let begins_segment = block % self.segment == 0;
        if run.count < self.combine && run.ends_before(block) && !begins_segment {
            self.pending = Some(Run {
                first: run.first,
                count: run.count + 1,
            });
            Offer::Extended
        } else {
            self.pending = Some(Run::one(block));
            Offer::Flush(run)
        }
    }

    /// Hands out the pending run.
    pub fn take_pending(&mut self) -> Option<Run>
        ensures run { result ≡ self.old.pending }
        ensures rest { self.new ≡ record self.old { pending = None } }
        ensures runs { RunsCoverBlocks self.old self.new [] (option_to_list result) }
        ensures each { IfSome result (IsRun self.old.combine) }
        ensures within { IfSome result (IsWithin self.old.segment) }
    {
        self.pending.take()
    }

    /// The pending run.
    pub fn pending(&self) -> Option<Run>
        ensures run { result ≡ self.now.pending }
        ensures each { IfSome result (IsRun self.now.combine) }
        ensures within { IfSome result (IsWithin self.now.segment) }
    {
        self.pending
    }

    /// A block was taken from the source.
    pub fn taken(&mut self)
        requires { self.old.blocks_ahead < 2 ^ 32 - 1 }
        ensures { self.new ≡ record self.old { blocks_ahead = self.old.blocks_ahead + 1 } }
    {
        self.blocks_ahead += 1;
    }

    /// A block that was taken was given to the caller.
    pub fn given(&mut self)
        requires { 0 < self.old.blocks_ahead }
        ensures { self.new ≡ record self.old { blocks_ahead = self.old.blocks_ahead - 1 } }
    {
        self.blocks_ahead -= 1;
    }

    /// A run was started by an I/O.
    pub fn started(&mut self)
        requires { self.old.ios_in_progress < 2 ^ 32 - 1 }
        ensures { self.new ≡ record self.old { ios_in_progress = self.old.ios_in_progress + 1 } }
    {
        self.ios_in_progress += 1;
    }

    /// The record of an I/O that was started is free again.
    pub fn finished(&mut self)
        requires { 0 < self.old.ios_in_progress }
        ensures { self.new ≡ record self.old { ios_in_progress = self.old.ios_in_progress - 1 } }
    {
        self.ios_in_progress -= 1;
    }

    /// A block was in the pool already: the distance falls by one, but not below 1.
    pub fn hit(&mut self)
        ensures { self.new ≡ record self.old { distance = max 1 (self.old.distance - 1) } }
    {
        if self.distance > 1 {
            self.distance -= 1;
        }
    }

    /// An I/O had to be waited for: the distance doubles, but not above the limit.
    pub fn waited(&mut self)
        ensures { self.new
            ≡ record self.old { distance = min self.old.limit (2 * self.old.distance) } }
    {
        self.distance = self.limit.min(2 * self.distance);
    }

    /// How many blocks the plan wants ahead, in blocks from 1 to the limit.
    pub fn distance(&self) -> u32
        ensures distance { result ≡ self.now.distance }
        ensures sound { IsSoundPlan self.now }
    {
        self.distance
    }

    /// Whether another block may be taken from the source.
    pub fn may_look_ahead(&self) -> bool
        ensures room { IsTrue result ↔ MayLookAhead self.now }
        ensures sound { IsSoundPlan self.now }
        // Where nothing is ahead and no I/O is in progress.
        ensures idle { self.now.blocks_ahead ≡ 0 → self.now.ios_in_progress ≡ 0 → IsTrue result }
    {
        self.blocks_ahead < self.distance && self.ios_in_progress < self.max_ios
    }
}
