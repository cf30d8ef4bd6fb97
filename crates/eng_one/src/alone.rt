//! What follows from a graph's being accepted, where it is run alone. These functions do nothing:
//! what they ensure is so of every graph.
ghost use Rattle.std.specs.Prelude.{◌≡◌, ◌⊎◌, ℕ, List, All};
ghost use Rattle.graph_mean.specs.declared.step.Phase.TheVariants.{Ended};
ghost use Rattle.graph_mean.specs.Graph.{View};
ghost use Rattle.graph_mean.specs.Task.{Aim, Missing, Values};
ghost use Rattle.graph_mean.specs.Steps.{State, Act, Run};
ghost use Rattle.graph_mean.specs.Atomic.{IsInStep, Starts};
ghost use Rattle.graph_mean.specs.Ordered.{Accepted};
ghost use Rattle.eng_one.specs.Alone.{NoneMissing, IsGoodAct, RunsWell, HasEffect, GoesOn};

/// In whatever order its nodes are fired, an accepted graph that is run alone with no unit missing
/// and without a failure has exactly its task's effect once it has ended.
pub fn alone_has_its_effect()
    ensures { (g : View) (t : Aim) (missing : Missing) (old new : Values)
        (acts : List Act) (x y : State)
        → NoneMissing missing → Accepted g t missing → IsInStep t missing old
        → Starts g t missing old new x
        → Run g x acts y → All IsGoodAct acts → y.phase ≡ Ended
        → HasEffect g t old new y.buf y.cell }
{}

/// And it never comes to a stop before it has ended: some node can be fired, or is out.
pub fn alone_goes_on()
    ensures { (g : View) (t : Aim) (missing : Missing) (acts : List Act) (x y : State)
        → Accepted g t missing → RunsWell g x acts y → (y.phase ≡ Ended) ⊎ GoesOn g y }
{}
