//! What is so of join lines and of what comes of them. These functions do nothing.
ghost use Rattle.std.specs.Prelude.{◌≡◌, ℕ, List, Ok, All, Result, length};
ghost use Rattle.blk_plain.specs.declared.op.Span.{Span};
ghost use Rattle.lay_core.specs.Layout.{Shape, IsLayout};
ghost use Rattle.lay_core.specs.Touched.{Touched};
ghost use Rattle.graph_mean.specs.declared.task.Kind.TheVariants.{Write};
ghost use Rattle.graph_mean.specs.Atomic.{Atomic};
ghost use Rattle.graph_mean.specs.Graph.{View};
ghost use Rattle.graph_mean.specs.Ordered.{Accepted};
ghost use Rattle.graph_mean.specs.Task.{Missing, task_of};
ghost use Rattle.graph_text.specs.Format.{Named};
ghost use Rattle.text_steps.specs.declared.at.At.{At};
ghost use Rattle.raid_script.specs.declared.join.Join.{Join};
ghost use Rattle.raid_script.specs.Asked.{Asked};
ghost use Rattle.top_bound.specs.Laws.{IsSmall};
ghost use Rattle.top_join.specs.Both.{AreAcceptedAlone, AreWritten};
ghost use Rattle.top_join.specs.Joining.{AreJoined};
ghost use Rattle.top_join.specs.Steps.{IsLine, graph_at};
ghost use Rattle.top_join.specs.Lines.{LinesHaveTheirItems};

/// One thing alone comes of join lines: these graphs, or this refusal.
pub fn joining_has_one_end()
    ensures { (y : Shape) (book : List Named) (clients : List (List Asked)) (n : ℕ)
        (joins : List Join) (r other : Result (List View) At)
        → AreJoined y book clients n joins r → AreJoined y book clients n joins other → r ≡ other }
{}

/// There is a joined graph for each line, and it has no more buffers than the pool.
pub fn joined_graphs_fit_the_pool()
    ensures count { (y : Shape) (book : List Named) (clients : List (List Asked)) (n : ℕ)
        (joins : List Join) (views : List View)
        → AreJoined y book clients n joins (Ok views) → length views ≡ length joins }
    ensures small { (y : Shape) (book : List Named) (clients : List (List Asked)) (n : ℕ)
        (joins : List Join) (views : List View)
        → AreJoined y book clients n joins (Ok views) → All IsSmall views }
{}

/// Each join line of a script that is read has an item of its own, which writes two spans by the graph of its number; and
/// these are the spans over which this graph is joined.
pub fn lines_have_their_items()
    ensures { LinesHaveTheirItems }
{}

/// The graph of a line is one for the write of both spans: where the two that it is joined of are accepted, the one for a
/// write of the first span alone and the other for one of the second, it is accepted for the write of both, with the same
/// units missing. So it is atomic as one operation.
pub fn joined_graph_writes_both_spans()
    ensures accepted { (y : Shape) (book : List Named) (clients : List (List Asked)) (n : ℕ)
        → (join : Join) (p q : Span) (a b both : Touched) (missing : Missing) (out : View)
        → IsLayout y → AreWritten y clients n p q a b both → IsLine y book clients n join (Ok out)
        → AreAcceptedAlone y (graph_at book join.first) (graph_at book join.second) a b missing
        → Accepted out (task_of y Write both) missing }
    ensures atomic { (y : Shape) (book : List Named) (clients : List (List Asked)) (n : ℕ)
        → (join : Join) (p q : Span) (a b both : Touched) (missing : Missing) (out : View)
        → IsLayout y → AreWritten y clients n p q a b both → IsLine y book clients n join (Ok out)
        → AreAcceptedAlone y (graph_at book join.first) (graph_at book join.second) a b missing
        → Atomic out (task_of y Write both) missing }
{}
