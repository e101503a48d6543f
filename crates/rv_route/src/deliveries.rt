//! The deliveries to each CPU, as they come.
ghost use Rattle.std.specs.Prelude.{ℕ, ◌≡◌, ◌<◌, ◌≤◌, true, [], map, length, slice_index_or, IfOk, IfErr, OnOk};
ghost use Rattle.rv_bind.specs.declared.limits.TheConstants.{MAX_RULES};
ghost use Rattle.rv_bind.specs.RuleValues.{OnValue};
ghost use Rattle.rv_text.specs.declared.refusals.Refused.TheVariants.{Memory};
ghost use Rattle.rv_route.specs.LineByLine.{GivesRoutes, answer, deliver, delivered, no_routes};
ghost use Rattle.rv_route.specs.Listing.{no_target, target_of};
ghost use Rattle.rv_route.specs.inner.Gathering.{IsTarget, GathersLine};

use crate::asking::Ask;
use crate::lanes::CpuScript;
use crate::listing::{Listed, Target, targets_of};
use rv_bind::On;
use rv_model::Delivery;
use rv_slots::{TaskFault, Tasks};
use rv_text::{NO_PID, Refusal, Refused, TOO_MANY_DELIVERIES, TOO_MANY_TASKS};
use rv_trace::TraceLine;
use std::alloc::{AllocError, Global};
use std::marker::Model;

/// The most deliveries of a trace.
pub const MAX_DELIVERIES: u32 = 4_000_000;

/// What has been routed so far. Deliveries go to the script of their CPU, or, where `listed` is on, to one list.
#[derive(Drop)]
pub(crate) struct Deliveries {
    pub(crate) tasks: Tasks,
    pub(crate) targets: Vec<Target>,
    pub(crate) lanes: Vec<CpuScript>,
    pub(crate) items: Vec<Listed>,
    listed: bool,
    count: u32,
}

impl Model for Deliveries {
    ghost use Rattle.std.specs.Prelude.{◌≡◌, ◌<◌, ◌≤◌, true, length, All, if◌then◌else◌};
    ghost use Rattle.rv_bind.specs.declared.limits.TheConstants.{MAX_RULES};
    ghost use Rattle.rv_route.specs.Listing.{lanes_listed, listed_from};
    ghost use Rattle.rv_route.specs.inner.Gathering.{Gathered};

    ghost Value = { Gathered };

    ghost view = { λ r. record { routes = record { tasks = r.tasks; lanes = if r.listed then lanes_listed (listed_from r.targets.items 0 r.items.items) else r.lanes.items; count = r.count }; targets = r.targets.items; listed = r.listed; list = listed_from r.targets.items 0 r.items.items } };

    ghost invariant = { λ r. (length r.lanes.items ≡ 64) × (r.count ≤ 4000000) × All (λ lane. length lane.deliveries ≤ r.count) r.lanes.items × (length r.targets.items ≤ MAX_RULES) × (r.listed ≡ true → length r.items.items ≡ r.count) × All (λ item. item.rule < length r.targets.items) r.items.items };
}

impl Deliveries {
    /// Appends a delivery to the list.
    #[inline(always)]
    fn list(&mut self, line: &TraceLine, place: usize, instance: u32) -> Result<(), Refused>
        requires cpu { line.now.cpu < 64 }
        requires listed { self.old.listed ≡ true }
        requires room { self.old.routes.count < 4000000 }
        requires place { place < length self.old.targets }
        requires instance { instance < 65536 }
        ensures added { OnOk result ((rule : OnValue) → slice_index_or self.old.targets place no_target ≡ target_of rule → self.new.routes ≡ delivered self.old.routes line.now rule instance) }
        ensures refused { IfErr result (λ refused. refused ≡ Memory) }
        ensures kept { GathersLine line.now.number self.old self.new }
    {
        self.items.push(Listed {
            line: line.number,
            instance: instance as u16,
            rule: place as u8,
            cpu: line.cpu,
        })?;
        self.count += 1;
        Ok(())
    }

    /// Appends a delivery to its CPU's, or to the list. The rule stands at this place.
    #[inline(always)]
    fn deliver(
        &mut self,
        line: &TraceLine,
        rule: &On,
        place: usize,
        instance: u32,
    ) -> Result<(), Refused>
        requires cpu { line.now.cpu < 64 }
        requires target { IsTarget self.old.targets place rule.now }
        requires instance { instance < 65536 }
        ensures gives { GivesRoutes result self.new.routes (deliver self.old.routes line.now rule.now instance) }
        ensures kept { GathersLine line.now.number self.old self.new }
    {
        if self.count >= MAX_DELIVERIES {
            return Err(Refused::Because(Refusal {
                number: TOO_MANY_DELIVERIES,
                line: line.number,
            }));
        }
        if self.listed {
            return self.list(line, place, instance);
        }
        let delivery = Delivery {
            order: self.count,
            monitor: rule.monitor,
            instance,
            hit: rule.hit,
        };
        // counted first, so that no lane ever has more than the count
        self.count += 1;
        self.lanes[line.cpu as usize].add(line.number, delivery)?;
        Ok(())
    }

    /// Does what a rule that asks so does, which stands at this place.
    #[inline(always)]
    pub(crate) fn answer(
        &mut self,
        line: &TraceLine,
        rule: &On,
        place: usize,
        ask: Ask,
    ) -> Result<(), Refused>
        requires cpu { line.now.cpu < 64 }
        requires target { IsTarget self.old.targets place rule.now }
        requires instance { (instance : ℕ) → ask ≡ Ask.Instance instance → instance < 64 }
        ensures gives { GivesRoutes result self.new.routes (answer self.old.routes line.now rule.now ask) }
        ensures kept { GathersLine line.now.number self.old self.new }
    {
        match ask {
            Ask::Quiet => Ok(()),
            Ask::Instance(instance) => self.deliver(line, rule, place, instance),
            Ask::NoPid => Err(Refused::Because(Refusal {
                number: NO_PID,
                line: line.number,
            })),
            Ask::Pid(pid) => match self.tasks.number(pid, line.cpu) {
                Ok(number) => {
                    // no number is above the last task's
                    self.tasks.len();
                    self.deliver(line, rule, place, number)
                }
                Err(TaskFault::Full) => Err(Refused::Because(Refusal {
                    number: TOO_MANY_TASKS,
                    line: line.number,
                })),
                Err(TaskFault::Memory) => Err(Refused::Memory),
            },
        }
    }

    /// Nothing is routed yet. Deliveries go to one list, or to the scripts of their CPUs.
    pub(crate) fn new(alloc: Global, rules: &[On], listed: bool) -> Result<Deliveries, AllocError>
        requires { length rules.now ≤ MAX_RULES }
        ensures routes { IfOk result (λ deliveries. deliveries.routes ≡ no_routes) }
        ensures targets { IfOk result (λ deliveries. deliveries.targets ≡ map target_of rules.now) }
        ensures listed { IfOk result (λ deliveries. deliveries.listed ≡ listed) }
        ensures list { IfOk result (λ deliveries. deliveries.list ≡ []) }
    {
        let mut lanes = Vec::new(alloc);
        for cpu in 0..64usize {
            let _ = cpu;
            lanes.push(CpuScript::new(alloc))?;
        }
        let targets = targets_of(alloc, rules)?;
        Ok(Deliveries {
            tasks: Tasks::new(alloc),
            targets,
            lanes,
            items: Vec::new(alloc),
            listed,
            count: 0,
        })
    }
}
