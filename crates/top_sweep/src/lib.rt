//! Clients that work beside one another in blocks of their own. Each sees what its own operations do, and no more, so
//! that what they reply and leave behind doesn't depend on the order in which the clients come.
//!
//! There is no code here: the functions do nothing, and what they ensure is so of every legal history.
#![tactic(auto)]

ghost use Rattle.std.specs.Prelude.{◌≡◌, ◌<◌, ◌≤◌, ◌+◌, ◌*◌, ◌-◌, ◌/◌, ◌%◌, ℕ, List, [], length, take, min, true};
ghost use Rattle.blk_plain.specs.declared.op.Op.{Op};
ghost use Rattle.blk_plain.specs.declared.op.OpId.{OpId};
ghost use Rattle.blk_plain.specs.declared.op.Span.{Span};
ghost use Rattle.lay_core.specs.Layout.{Blocks};
ghost use Rattle.blk_plain.specs.Plain.{is_in};
ghost use Rattle.eng_world.specs.declared.item.Reply.TheVariants.{Data};
ghost use Rattle.eng_world.specs.Plain.{replay};
ghost use Rattle.eng_world.specs.World.{World};
ghost use Rattle.eng_world.specs.Legal.{AreOps, IsLegal, IsReadAt, RepliesFit, ReplyOf};
ghost use Rattle.top_sweep.specs.Apart.{IsApart, in_turn};

/// Whatever the history, each block holds what its own client's operations make, one after another.
pub fn blocks_are_their_clients()
    ensures { (w : World) (start : Blocks) (own : ℕ → List Op) (owner : ℕ → ℕ) (ops : List Op)
        → IsApart w own owner → IsLegal w → AreOps w w.history ops
        → (b k : ℕ) → replay start ops b k ≡ replay start (own (owner b)) b k }
{}

/// And each read hands out what its own client's earlier operations make.
pub fn reads_see_their_client()
    ensures { (w : World) (start : Blocks) (own : ℕ → List Op) (owner : ℕ → ℕ)
        → IsApart w own owner → IsLegal w → RepliesFit start w
        → (id : OpId) (span : Span) (n : ℕ) (ops : List Op)
        → ReplyOf w id Data → IsReadAt w id span n ops
        → (j k : ℕ) → j < span.count → k < 512
        → (w.clients id.client).handed id.index j k
        ≡ replay start (take id.index (own id.client)) (span.first + j) k }
{}

/// So two histories of the same clients leave the same blocks.
pub fn every_order_leaves_the_same_blocks()
    ensures { (w z : World) (start : Blocks) (own : ℕ → List Op) (owner : ℕ → ℕ)
        (ops others : List Op)
        → IsApart w own owner → IsLegal w → AreOps w w.history ops
        → IsApart z own owner → IsLegal z → AreOps z z.history others
        → (b k : ℕ) → replay start ops b k ≡ replay start others b k }
{}

/// As if the first `n` clients, which are all that have operations, came one after another: their
/// operations, client after client, leave the same blocks; and each read hands out what those before
/// it make.
pub fn clients_may_come_one_after_another()
    ensures leaves { (w : World) (start : Blocks) (own : ℕ → List Op) (owner : ℕ → ℕ)
        (ops : List Op) (n : ℕ)
        → IsApart w own owner → IsLegal w → AreOps w w.history ops → ((c : ℕ) → n ≤ c → own c ≡ [])
        → (b k : ℕ) → replay start ops b k ≡ replay start (in_turn own n) b k }
    ensures reads { (w : World) (start : Blocks) (own : ℕ → List Op) (owner : ℕ → ℕ) (n : ℕ)
        → IsApart w own owner → IsLegal w → RepliesFit start w
        → (id : OpId) (span : Span) (at : ℕ) (ops : List Op)
        → ReplyOf w id Data → IsReadAt w id span at ops → id.client < n
        → (j k : ℕ) → j < span.count → k < 512
        → (w.clients id.client).handed id.index j k
        ≡ replay start (take (length (in_turn own id.client) + id.index) (in_turn own n))
        (span.first + j) k }
{}

/// The spans that are drawn for a client lie in its share of the blocks: `wide` blocks from `client * wide` on.
pub fn drawn_spans_are_their_clients()
    ensures { (client wide a p b : ℕ) → 0 < wide
        → let length = 1 + p % min 8 wide in
        let first = client * wide + a % (wide - length + 1) in
        first ≤ b → b < first + length → b / wide ≡ client }
{}
