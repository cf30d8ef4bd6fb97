//! What is so of every joined graph, and of the task that it is for. These functions do nothing.
ghost use Rattle.std.specs.Prelude.{◌≡◌, ℕ, ◌++◌, ◌∷◌, [], List, Option, length};
ghost use Rattle.blk_plain.specs.declared.op.Span.{Span};
ghost use Rattle.lay_core.specs.Layout.{Shape, IsLayout};
ghost use Rattle.lay_core.specs.Touched.{Touched, IsJointSplit, IsSpanSplit};
ghost use Rattle.graph_mean.specs.declared.task.Kind.{Kind};
ghost use Rattle.graph_mean.specs.Graph.{View};
ghost use Rattle.graph_mean.specs.Task.{Aim, Missing, missing_of, task_of};
ghost use Rattle.graph_mean.specs.Atomic.{Atomic};
ghost use Rattle.graph_mean.specs.Ordered.{Accepted};
ghost use Rattle.graph_mean.specs.Refused.{IsFree};
ghost use Rattle.graph_merge.specs.Form.{IsInLimits};
ghost use Rattle.graph_merge.specs.Joined.{IsJoined};
ghost use Rattle.graph_merge.specs.Tasks.{AreInTurn, IsInOrder, IsPair, followed, map_followed, missing_followed};

/// Two graphs and a shift have one joined graph at most.
pub fn joined_is_unique()
    ensures { (a b : View) (shift : ℕ) (out other : View)
        → IsJoined a b shift out → IsJoined a b shift other → out ≡ other }
{}

/// A joined graph is no larger than an operation may have it, whether or not it is accepted.
pub fn joined_is_small()
    ensures { (a b out : View) (shift : ℕ) → IsJoined a b shift out → IsInLimits out }
{}

/// Where two graphs are in order for tasks of one kind and shape, and the shift is the number of the first one's
/// stripes, the joined graph is in order for the two tasks together.
pub fn joined_is_in_order()
    ensures { (a b out : View) (shift : ℕ) (t u : Aim) (m k : Missing)
        → IsJoined a b shift out → IsPair t u shift → IsInOrder a t m → IsInOrder b u k
        → IsInOrder out (followed t u) (missing_followed t m k) }
{}

/// Where they are accepted for such tasks, the joined graph is accepted for the two tasks together: the checker has no
/// cause to refuse it. So it is atomic as one operation: until the one commit has ended both spans are as they were, and
/// from then on both can only be written.
pub fn joined_is_accepted()
    ensures accepted { (a b out : View) (shift : ℕ) (t u : Aim) (m k : Missing)
        → IsJoined a b shift out → IsPair t u shift → Accepted a t m → Accepted b u k
        → Accepted out (followed t u) (missing_followed t m k) }
    ensures free { (a b out : View) (shift : ℕ) (t u : Aim) (m k : Missing)
        → IsJoined a b shift out → IsPair t u shift → Accepted a t m → Accepted b u k
        → IsFree out (followed t u) (missing_followed t m k) }
    ensures atomic { (a b out : View) (shift : ℕ) (t u : Aim) (m k : Missing)
        → IsJoined a b shift out → IsPair t u shift → Accepted a t m → Accepted b u k
        → Atomic out (followed t u) (missing_followed t m k) }
{}

/// Where one span ends in a stripe below the one in which another begins, the stripes and parts of both together are
/// those of the first and then those of the second, and their task is the first one's followed by the second's. Missing
/// units that are listed for the first one's stripes and then for the second's are those of the one followed by those of
/// the other. So a graph that is joined of two that are accepted for a span each is accepted for the write of both.
pub fn spans_in_turn_follow()
    ensures map { (y : Shape) (p q : Span) (a b both : Touched)
        → IsLayout y → AreInTurn y p q → IsSpanSplit y p a → IsSpanSplit y q b
        → IsJointSplit y (p ∷ q ∷ []) both → both ≡ map_followed a b }
    ensures task { (y : Shape) (kind : Kind) (a b : Touched)
        → task_of y kind (map_followed a b) ≡ followed (task_of y kind a) (task_of y kind b) }
    ensures missing { (t : Aim) (m k : List (Option ℕ))
        → length m ≡ t.stripes
        → missing_of (m ++ k) ≡ missing_followed t (missing_of m) (missing_of k) }
{}
