//! The core's rule for a turn.
use blk_disk::Disk;
use eng_array::{Core, Job};
use eng_turn::TurnRule;
use lay_core::Layout;
use std::marker::PhantomData;

/// The core lies in a box, so that a turn moves a word and not the core.
///
/// A ticket is the job of a node that is out, as it left; the empty ticket is none.
///
/// Core and tickets fit where the core came of the opening by events of clients, is steady, and has out exactly the
/// jobs of the tickets, each once. One turn makes any number of events, each of which the rule sees: a job that leaves
/// becomes the pass's ticket, and one that comes home is the pass's own.
pub struct CrewRule<L, D> {
    layouts: PhantomData<L>,
    disks: PhantomData<D>,
}

impl<L: Layout + Drop, D: Disk + Drop> TurnRule for CrewRule<L, D> {
    ghost use Rattle.std.specs.Prelude.{None};
    ghost use Rattle.eng_crew.specs.Laws.{BoxFits, BoxTurns, BoxAfter, box_comes, box_goes, box_itself, box_later, box_step};

    type Value = Box<Core<L, D>>;

    type Ticket = Option<Job<D>>;

    ghost empty = { None };

    ghost fits = { BoxFits L.Layout D.Disk };

    ghost step = { BoxTurns L.Layout D.Disk };

    ghost after = { BoxAfter L.Layout D.Disk };

    ghost empty_comes = { box_comes L.Layout D.Disk };

    ghost empty_goes = { box_goes L.Layout D.Disk };

    ghost after_itself = { box_itself L.Layout D.Disk };

    ghost after_later = { box_later L.Layout D.Disk };

    ghost after_step = { box_step L.Layout D.Disk };
}
