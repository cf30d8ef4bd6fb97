//! A text is put by pages.
ghost use Rattle.std.specs.Prelude.{◌≡◌, ◌≤◌, is_ok, OnErr};
ghost use Rattle.blk_disk.specs.Disk.{Rose};
ghost use Rattle.raid_bay.specs.Sink.{Puts};

use crate::page::{Lent, Page, Room, Start};
use blk_disk::Failed;
use raid_bay::Sink;
use std::marker::{Brand, PhantomData};

/// What can be put into any sink.
pub trait Prints {
    ghost use Rattle.std.specs.Prelude.{ℕ, List};

    /// Whether it can be put.
    ghost ready: { Self → Type 0 };

    /// Its text.
    ghost text: { Self → List ℕ };

    /// Puts the whole text. Failed, only where the sink's count of faults rose, has put a front of it.
    fn put_into<K: Sink>(&self, out: &mut K) -> Result<(), Failed>
        requires { ready self.now }
        ensures output { K.tells
            → Puts (is_ok result) (K.output out.old) (text self.now) (K.output out.new) }
        ensures later { K.faults out.old ≤ K.faults out.new }
        ensures cause { OnErr result (Rose (K.faults out.old) (K.faults out.new)) };
}

// Puts the text into a page before the sink, which then has it all, and hands the sink back.
fn put_paged<'a, P: Prints, K: Sink, N: Start>(
    what: &P,
    room: Room,
    lent: Lent<'a, K>,
) -> (Result<(), Failed>, Lent<'a, K>)
    requires ready { P.ready what.now }
    requires name { lent.sink.ghost_name ≡ N.sink }
    requires start { K.output lent.sink.now ≡ N.output }
    requires faults { K.faults lent.sink.now ≡ N.faults }
    ensures output { K.tells
        → Puts (is_ok result.0) N.output (P.text what.now) (K.output result.1.sink.now) }
    ensures later { N.faults ≤ K.faults result.1.sink.now }
    ensures cause { OnErr result.0 (Rose N.faults (K.faults result.1.sink.now)) }
    ensures name { result.1.sink.ghost_name ≡ N.sink }
{
    let Room { bytes } = room;
    let mut page = Page::<K, N> {
        lent,
        bytes,
        before: None,
        refused: 0,
        of: PhantomData,
    };
    let printed = what.put_into(&mut page);
    let finished = page.finish(printed);
    let Page {
        lent,
        bytes: _,
        before: _,
        refused: _,
        of: _,
    } = page;
    (finished, lent)
}

/// Puts the text by pages, where there is room for one; else as it comes. The sink gets full pages of 65,536 bytes, and the
/// rest at the end.
///
/// Failed, only where the sink's count of faults rose, has put a front of the text.
pub fn put_by_pages<P: Prints, K: Sink>(
    what: &P,
    room: Option<Room>,
    out: &mut K,
) -> Result<(), Failed>
    requires ready { P.ready what.now }
    ensures output { K.tells
        → Puts (is_ok result) (K.output out.old) (P.text what.now) (K.output out.new) }
    ensures later { K.faults out.old ≤ K.faults out.new }
    ensures cause { OnErr result (Rose (K.faults out.old) (K.faults out.new)) }
{
    match room {
        Some(room) => put_paged::<P, K, Brand>(what, room, Lent { sink: out }).0,
        None => what.put_into(out),
    }
}
