//! An operation is planned.
ghost use Rattle.std.specs.Prelude.{◌≡◌, ◌<◌, ◌≤◌, ℕ, All, length, map, true, IfOk};
ghost use Rattle.graph_lib.specs.Laws.{AreMissing, IsPlannable};
ghost use Rattle.graph_lib.specs.Library.{library};
ghost use Rattle.graph_mean.specs.Task.{HasUnitBelow, IsMapOf, missing_of, task_of};
ghost use Rattle.eng_cols.specs.Cols.{IsFor};
ghost use Rattle.eng_cols.specs.Lost.{NotLost};
ghost use Rattle.eng_plan.specs.Asked.{IsInside, IsOpSplit};
ghost use Rattle.eng_world.specs.Planning.{missing_for};
ghost use Rattle.top_plan.specs.Sketched.{IsSketch};

use blk_plain::{Op, limits};
use eng_cols::Cols;
use eng_plan::{kind_of, list_missing, split_op};
use graph_lib::{plan, spans_are_plannable};
use graph_mean::{Graph, Kind, Memory, Task};
use lay_core::{Layout, StripeMap};
use std::alloc::Global;
use std::marker::Model;

/// Room in which operations are planned, one after another.
#[derive(Drop)]
pub struct Planner {
    touched: StripeMap,
    missing: Vec<Option<u8>>,
    task: Task,
    graph: Graph,
}

impl Model for Planner {
    ghost use Rattle.std.specs.Prelude.{◌≡◌, ◌≤◌, vec_capacity};
    ghost use Rattle.top_plan.specs.Sketched.{Sketch};

    ghost Value = { Sketch };

    ghost view = { λ p. record {
      touched = p.touched;
      missing = p.missing.items;
      task = p.task;
      graph = p.graph;
    } };

    ghost invariant = { λ p. record {
      missing : 16 ≤ vec_capacity p.missing;
      graph : (p.graph.node_room ≡ 2048) × (p.graph.buf_room ≡ 2048) × (p.graph.edge_room ≡ 16384);
    } };
}

// No memory for the room of a map.
fn map_of(alloc: Global) -> Result<StripeMap, Memory> {
    match StripeMap::with_room(alloc) {
        Ok(map) => Ok(map),
        Err(lay_core::Memory) => Err(Memory),
    }
}

impl Planner {
    /// Room for any operation. The only error is want of memory.
    pub fn open(alloc: Global) -> Result<Planner, Memory> {
        Ok(Planner {
            touched: map_of(alloc)?,
            missing: Vec::with_capacity(alloc, limits::TASK_STRIPES as usize)?,
            task: Task::with_room(alloc)?,
            graph: Graph::with_room(alloc, limits::NODES, limits::BUFFERS, limits::EDGES)?,
        })
    }

    // Its stripes and their touched parts.
    fn cut<L: Layout>(&mut self, layout: &L, op: &Op)
        requires { IsInside (L.shape layout.now) op.now }
        ensures split { IsOpSplit (L.shape layout.now) op.now self.new.touched }
        ensures rest { self.new ≡ record self.old { touched = self.new.touched } }
    {
        split_op(layout, op, &mut self.touched);
    }

    // The units of its stripes that count as missing.
    fn miss<L: Layout>(&mut self, layout: &L, cols: &Cols, op: &Op)
        requires fit { IsFor (L.shape layout.now) cols.now }
        requires stripes { All (λ s. s < cols.now.stripes) self.old.touched.stripes }
        requires few { length self.old.touched.stripes ≤ 16 }
        ensures { self.new ≡ record self.old {
          missing = map
              (missing_for (L.shape layout.now) cols.now.states op.now) self.old.touched.stripes;
        } }
    {
        list_missing(layout, cols, op, self.touched.stripes(), &mut self.missing);
    }

    // Its task.
    fn aim<L: Layout>(&mut self, layout: &L, kind: Kind)
        requires map { IsMapOf (L.shape layout.now) self.old.touched }
        requires unit { HasUnitBelow (L.shape layout.now).width kind }
        ensures { self.new
            ≡ record self.old { task = task_of (L.shape layout.now) kind self.old.touched } }
    {
        self.task.set(layout, kind, &self.touched);
    }

    // Its graph.
    fn draw(&mut self)
        requires missing { length self.old.missing ≡ self.old.task.stripes }
        requires gone { AreMissing self.old.task (missing_of self.old.missing) }
        requires task { IsPlannable self.old.task }
        ensures { self.new ≡ record self.old {
          graph = record self.old.graph
              { drawn = library self.old.task (missing_of self.old.missing) true };
        } }
    {
        plan(&self.task, &self.missing, true, &mut self.graph);
    }

    /// Plans an operation, while the columns stand like this.
    pub fn plan<L: Layout>(&mut self, layout: &L, cols: &Cols, op: &Op)
        requires fit { IsFor (L.shape layout.now) cols.now }
        requires op { IsInside (L.shape layout.now) op.now }
        requires kept { NotLost (L.shape layout.now) cols.now.states }
        ensures { IsSketch (L.shape layout.now) cols.now.states op.now self.new }
    {
        self.cut(layout, op);
        self.miss(layout, cols, op);
        self.aim(layout, kind_of(layout, cols, op));
        spans_are_plannable();
        self.draw();
    }

    /// The graph that was made last.
    pub fn graph(&self) -> &Graph
        ensures { result.now ≡ self.now.graph }
    {
        &self.graph
    }
}
