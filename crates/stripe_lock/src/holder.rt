//! Who holds one stripe.
ghost use Rattle.std.specs.Prelude.{◌≡◌, ◌↔◌, false, IsTrue};
ghost use Rattle.stripe_lock.specs.Holder.{is_in, bit_of, added, removed, only, joined, left, is_held, IsInTheWay};

use crate::mode::Mode;

/// The owners of one stripe.
#[derive(Clone, Copy)]
pub(crate) enum Holder {
    /// These owners share it: owner k does where bit k is 1.
    Sharers(u32),
    /// This owner has it alone.
    Excluder(u32),
}

// The set of this owner alone; no owner where a set has no bit for it.
fn bit(owner: u32) -> u32
    ensures { result ≡ bit_of owner }
{
    if owner < 32 { 1 << owner } else { 0 }
}

fn with(owners: u32, owner: u32) -> u32
    ensures { result ≡ added owners owner }
{
    owners | bit(owner)
}

fn without(owners: u32, owner: u32) -> u32
    ensures set { result ≡ removed owners owner }
    ensures own { is_in result owner ≡ false }
{
    let bit = bit(owner);
    (owners | bit) ^ bit
}

impl Holder {
    pub(crate) fn nobody() -> Holder
        ensures { result ≡ Holder.Sharers 0 }
    {
        Holder::Sharers(0)
    }

    pub(crate) fn only(owner: u32, mode: Mode) -> Holder
        ensures { result ≡ only owner mode }
    {
        match mode {
            Mode::Share => Holder::Sharers(bit(owner)),
            Mode::Exclude => Holder::Excluder(owner),
        }
    }

    /// With this owner, where no other is in its way.
    pub(crate) fn with(self, owner: u32, mode: Mode) -> Holder
        ensures { result ≡ joined self owner mode }
    {
        match (self, mode) {
            (Holder::Sharers(owners), Mode::Share) => Holder::Sharers(with(owners, owner)),
            _ => Holder::only(owner, mode),
        }
    }

    pub(crate) fn without(self, owner: u32) -> Holder
        ensures { result ≡ left self owner }
    {
        match self {
            Holder::Sharers(owners) => Holder::Sharers(without(owners, owner)),
            Holder::Excluder(one) if one == owner => Holder::nobody(),
            Holder::Excluder(one) => Holder::Excluder(one),
        }
    }

    pub(crate) fn is_held(self) -> bool
        ensures { result ≡ is_held self }
    {
        match self {
            Holder::Sharers(owners) => owners != 0,
            Holder::Excluder(_) => true,
        }
    }

    /// Whether another owner keeps this one from the stripe.
    pub(crate) fn is_in_the_way(self, owner: u32, mode: Mode) -> bool
        ensures { IsTrue result ↔ IsInTheWay self owner mode }
    {
        match self {
            Holder::Sharers(owners) => mode == Mode::Exclude && without(owners, owner) != 0,
            Holder::Excluder(one) => one != owner,
        }
    }
}
