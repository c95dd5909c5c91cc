//! Steps that are drawn.

use crate::lines::{drawn_line, long_line};
use crate::world::{Next, World};
use crate::wrong::Wrong;
use std::alloc::Global;
use std::sync::Wait;

impl World<'_> {
    /// Does so many drawn steps as the plan says.
    pub(crate) fn run<R: Wait>(&mut self, rt: &R, alloc: Global) -> Result<(), Wrong> {
        for _call in 0..self.plan.before {
            self.step_ask(rt, alloc)?;
        }
        for way in 0..self.ways.len() {
            if self.draws.hits(2) {
                self.raise(rt, alloc, way)?;
            }
        }
        for _step in 0..self.plan.steps {
            self.step(rt, alloc)?;
        }
        Ok(())
    }

    /// Does a drawn step.
    fn step<R: Wait>(&mut self, rt: &R, alloc: Global) -> Result<(), Wrong> {
        let number = self.draws.below(100);
        if number < self.plan.asks {
            return self.step_ask(rt, alloc);
        }
        match number {
            0..=61 => self.step_deliver(rt, alloc),
            62..=83 => self.step_push(rt, alloc),
            84..=88 => {
                let place = self.drawn_site();
                self.beat(rt, alloc, place)
            }
            89..=93 => {
                let way = self.draws.below(self.ways.len());
                self.raise(rt, alloc, way)
            }
            94..=96 => {
                let way = self.draws.below(self.ways.len());
                self.cut(rt, alloc, way)
            }
            97 => {
                self.lower_late(rt, alloc)?;
                Ok(())
            }
            98 => {
                let place = self.drawn_site();
                self.judge_site(rt, alloc, place)
            }
            _ => self.step_kill(rt, alloc),
        }
    }

    /// A client of a drawn site asks a drawn line.
    fn step_ask<R: Wait>(&mut self, rt: &R, alloc: Global) -> Result<(), Wrong> {
        let place = self.drawn_site();
        let is_long = self.plan.is_busy && self.draws.hits(10);
        let line = if is_long {
            long_line(alloc, &mut self.draws, &self.plan)?
        } else {
            drawn_line(alloc, &mut self.draws, &self.plan)?
        };
        self.ask(rt, alloc, place, &line)
    }

    /// A frame of a drawn link comes, or is lost, doubled or overtaken where the world is hostile.
    fn step_deliver<R: Wait>(&mut self, rt: &R, alloc: Global) -> Result<(), Wrong> {
        let busy = self.busy();
        let number = self.draws.below(busy);
        let Some(way) = self.busy_way(number) else {
            return Ok(());
        };
        let next = self.drawn_next(way);
        self.deliver(rt, alloc, way, next)
    }

    /// Which frame of a way comes next.
    fn drawn_next(&mut self, way: usize) -> Next {
        if !self.plan.is_hostile || !self.draws.hits(5) {
            return Next::First;
        }
        let waiting = match self.ways.get(way) {
            Some(way) => way.frames.len(),
            None => 0,
        };
        match self.draws.below(3) {
            0 => Next::Lost,
            1 => Next::Doubled,
            _ => Next::Overtakes(self.draws.below(waiting)),
        }
    }

    /// A drawn site puts what was made into its logs, and pushes.
    fn step_push<R: Wait>(&mut self, rt: &R, alloc: Global) -> Result<(), Wrong> {
        let place = self.drawn_site();
        if !self.draws.hits(4) {
            self.drain(rt, alloc, place)?;
        }
        let to_all = self.draws.hits(3);
        self.push(rt, alloc, place, to_all)?;
        Ok(())
    }

    /// A drawn site dies, where the plan lets one die.
    fn step_kill<R: Wait>(&mut self, rt: &R, alloc: Global) -> Result<(), Wrong> {
        if self.plan.is_deadly {
            self.kill(rt, alloc)?;
        }
        Ok(())
    }
}
