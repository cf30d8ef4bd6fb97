//! A client's operation is planned.
ghost use Rattle.std.specs.Prelude.{◌≡◌, ◌<◌, ◌≤◌, ℕ, All, Some, None, true, length, map, OnOk, IfErr};
ghost use Rattle.graph_mean.specs.Task.{HasUnitBelow, IsMapOf, task_of, missing_of};
ghost use Rattle.graph_mean.specs.Refused.{IsRefused};
ghost use Rattle.graph_lib.specs.Library.{library};
ghost use Rattle.graph_lib.specs.Laws.{AreMissing, IsPlannable};
ghost use Rattle.eng_cols.specs.Cols.{IsFor};
ghost use Rattle.eng_cols.specs.Lost.{NotLost};
ghost use Rattle.eng_world.specs.Planning.{missing_for};
ghost use Rattle.eng_clients.specs.Desk.{graph_of};
ghost use Rattle.eng_plan.specs.Asked.{IsInside, IsOpSplit};
ghost use Rattle.eng_clients.specs.Planned.{IsDrawn, IsPlanned, CanRun, IsRefusedFor};

use crate::client::Client;
use blk_plain::Op;
use eng_cols::Cols;
use eng_plan::{kind_of, list_missing, split_op};
use graph_check::{Scratch, check};
use graph_lib::{plan, spans_are_plannable};
use graph_mean::{Graph, Kind, Refusal};
use lay_core::Layout;

/// What a client asks for: an operation, and the number of the graph of the file that it names, if it names one.
#[derive(Clone, Copy)]
pub struct Asked<'a> {
    pub op: &'a Op,
    pub file: Option<u32>,
}

impl Client {
    // Its operation's stripes and their touched parts.
    fn cut<L: Layout>(&mut self, layout: &L, op: &Op)
        requires { IsInside (L.shape layout.now) op.now }
        ensures split { IsOpSplit (L.shape layout.now) op.now self.new.map }
        ensures rest { self.new ≡ record self.old { map = self.new.map } }
    {
        split_op(layout, op, &mut self.map);
    }

    // The units of its stripes that count as missing.
    fn miss<L: Layout>(&mut self, layout: &L, cols: &Cols, op: &Op)
        requires fit { IsFor (L.shape layout.now) cols.now }
        requires stripes { All (λ s. s < cols.now.stripes) self.old.map.stripes }
        requires few { length self.old.map.stripes ≤ 16 }
        ensures { self.new ≡ record self.old {
          missing = map
              (missing_for (L.shape layout.now) cols.now.states op.now) self.old.map.stripes;
        } }
    {
        list_missing(layout, cols, op, self.map.stripes(), &mut self.missing);
    }

    // Its task.
    fn aim<L: Layout>(&mut self, layout: &L, kind: Kind)
        requires map { IsMapOf (L.shape layout.now) self.old.map }
        requires unit { HasUnitBelow (L.shape layout.now).width kind }
        ensures { self.new
            ≡ record self.old { task = task_of (L.shape layout.now) kind self.old.map } }
    {
        self.task.set(layout, kind, &self.map);
    }

    // The library's graph.
    fn draw(&mut self, graphs: &[Graph])
        requires missing { length self.old.missing ≡ self.old.task.stripes }
        requires gone { AreMissing self.old.task (missing_of self.old.missing) }
        requires task { IsPlannable self.old.task }
        ensures drawn { self.new ≡ record self.old {
          file = None;
          graph = record self.old.graph
              { drawn = library self.old.task (missing_of self.old.missing) true };
        } }
        ensures passes { CanRun graphs.now self.new }
    {
        let _ = graphs;
        plan(&self.task, &self.missing, true, &mut self.graph);
        self.file = None;
    }

    // The graph of the file of this number, if the checker takes it.
    fn choose(&mut self, file: u32, graphs: &[Graph], scratch: &mut Scratch) -> Result<(), Refusal>
        requires { file < length graphs.now }
        ensures chosen { self.new ≡ record self.old { file = Some file } }
        ensures passes { OnOk result (CanRun graphs.now self.new) }
        ensures refused { IfErr result (λ cause. IsRefused (graph_of graphs.now self.new)
            self.new.task (missing_of self.new.missing) cause) }
    {
        self.file = Some(file);
        check(&graphs[file as usize], &self.task, &self.missing, scratch)?;
        Ok(())
    }

    // Its graph, if it may be run.
    fn pick(
        &mut self,
        file: Option<u32>,
        graphs: &[Graph],
        scratch: &mut Scratch,
    ) -> Result<(), Refusal>
        requires file { (n : ℕ) → file ≡ Some n → n < length graphs.now }
        requires missing { length self.old.missing ≡ self.old.task.stripes }
        requires gone { AreMissing self.old.task (missing_of self.old.missing) }
        requires task { IsPlannable self.old.task }
        ensures is_file { self.new.file ≡ file }
        ensures drawn { IsDrawn graphs.now file self.new }
        ensures rest { self.new ≡ record self.old { file = file; graph = self.new.graph } }
        ensures passes { OnOk result (CanRun graphs.now self.new) }
        ensures refused { IfErr result (λ cause. IsRefusedFor graphs.now file self.new cause) }
    {
        match file {
            None => {
                self.draw(graphs);
                Ok(())
            }
            Some(file) => self.choose(file, graphs, scratch),
        }
    }

    /// Its operation is planned while the columns stand like this. The cause for which the checker refuses a graph of
    /// the file is the answer, where it does.
    pub fn plan<L: Layout>(
        &mut self,
        layout: &L,
        cols: &Cols,
        asked: Asked<'_>,
        graphs: &[Graph],
        scratch: &mut Scratch,
    ) -> Result<(), Refusal>
        requires fit { IsFor (L.shape layout.now) cols.now }
        requires op { IsInside (L.shape layout.now) asked.op.now }
        requires kept { NotLost (L.shape layout.now) cols.now.states }
        requires file { (n : ℕ) → asked.file ≡ Some n → n < length graphs.now }
        ensures planned { IsPlanned (L.shape layout.now) graphs.now cols.now.states
            asked.entry.op.now
            asked.entry.file self.new }
        ensures rest { self.new ≡ record self.old {
          map = self.new.map;
          missing = self.new.missing;
          task = self.new.task;
          graph = self.new.graph;
          file = asked.entry.file;
        } }
        ensures passes { OnOk result (CanRun graphs.now self.new) }
        ensures refused { IfErr result
            (λ cause. IsRefusedFor graphs.now asked.entry.file self.new cause) }
    {
        let Asked { op, file } = asked;
        self.cut(layout, op);
        self.miss(layout, cols, op);
        self.aim(layout, kind_of(layout, cols, op));
        spans_are_plannable();
        self.pick(file, graphs, scratch)
    }
}
