//! What an action is: one table, with a row for each.
ghost use Rattle.std.specs.Prelude.{◌≡◌, false, if◌then◌else◌, option_map};
ghost use Rattle.top_words.specs.Asked.{beside_of, profile_of, row};
ghost use Rattle.top_words.specs.Profiled.{profile_seen};
ghost use Rattle.top_words.specs.Views.{action_seen, beside_seen};

use crate::command::{Action, Beside};

/// What an action makes of the array of its configuration.
#[derive(Clone, Copy, Debug, PartialEq, Eq)]
pub enum Kind {
    /// It is opened, and something is done with it.
    Array,
    /// It is opened and shown.
    Shown,
    /// The label of one device is shown.
    Label,
    /// The configuration is printed.
    Conf,
}

/// What is done with an array.
#[derive(Clone, Copy, Debug, PartialEq, Eq)]
pub enum Deed {
    /// Nothing: it is only looked at.
    Looks,
    /// Clients are served over it.
    Serves,
    /// Its stripes are tested.
    Checks,
    /// The check unit of each stripe is rewritten.
    Inits,
    /// The check units of those stripes are rewritten that aren't in sync.
    Rewrites,
    /// A column is failed.
    Kills,
    /// Its devices get their first labels.
    Labels { serial: u32 },
}

/// The component that an action names.
#[derive(Clone, Copy)]
pub enum Component<'a> {
    /// It names none.
    Nameless,
    /// One of the columns' disks, by which its column is meant.
    Column { name: &'a str },
    /// Any device, which may be a spare.
    Device { name: &'a str },
}

/// How a column is rebuilt.
#[derive(Clone, Copy, Debug, PartialEq, Eq)]
pub enum Rebuilding {
    /// Onto a spare, or into the spare places.
    Elsewhere,
    /// Onto its own disk.
    InPlace,
    /// On from where it stands.
    Further,
}

/// Clients that are drawn from a number.
#[derive(Clone, Copy, Debug, PartialEq, Eq)]
pub struct Drawing {
    /// The number.
    pub seed: u32,
    /// How many clients, 1 to 16.
    pub clients: u32,
    /// How many operations each of them has, at most 2,048.
    pub ops: u32,
}

/// What an action is.
#[derive(Clone, Copy)]
pub struct Profile<'a> {
    /// What it makes of the array.
    pub kind: Kind,
    /// The component that it names.
    pub component: Component<'a>,
    /// What it does with the array.
    pub deed: Deed,
    /// Sector 0 of the devices is read.
    pub reads: bool,
    /// The array is opened as one without labels.
    pub plain: bool,
    /// The array has to have labels.
    pub labels: bool,
    /// Labels are written, where the array has any.
    pub writes: bool,
    /// How a column is rebuilt, if one is: that of its component, or the one that is being rebuilt.
    pub rebuild: Option<Rebuilding>,
    /// How many of the column's stripes are rebuilt at most.
    pub limit: Option<u32>,
    /// The script that goes with it.
    pub beside: Option<Beside<'a>>,
    /// The clients that are drawn.
    pub drawn: Option<Drawing>,
    /// With how many workers clients are served, the caller among them: at most 16, and 0 where it
    /// does all.
    pub workers: u32,
    /// A parity map is kept while clients are served, or it is what is shown of the array. For both
    /// that has to have labels.
    pub map: bool,
}

// The array is looked at, and nothing else is asked.
fn looking<'a>(kind: Kind) -> Profile<'a>
    ensures { profile_seen result ≡ row kind Deed.Looks false }
{
    Profile {
        kind,
        component: Component::Nameless,
        deed: Deed::Looks,
        reads: true,
        plain: false,
        labels: false,
        writes: false,
        rebuild: None,
        limit: None,
        beside: None,
        drawn: None,
        workers: 0,
        map: false,
    }
}

// Something is done with the array.
fn doing<'a>(deed: Deed, writes: bool) -> Profile<'a>
    ensures { profile_seen result ≡ row Kind.Array deed writes }
{
    Profile {
        deed,
        writes,
        ..looking(Kind::Array)
    }
}

fn onto(in_place: bool) -> Rebuilding
    ensures { result ≡ (if in_place then Rebuilding.InPlace else Rebuilding.Elsewhere) }
{
    if in_place {
        Rebuilding::InPlace
    } else {
        Rebuilding::Elsewhere
    }
}

impl<'a> Action<'a> {
    /// What it is.
    pub fn profile(self) -> Profile<'a>
        ensures { profile_seen result ≡ profile_of (action_seen self.entry) }
    {
        match self {
            Action::Io {
                beside,
                workers,
                map,
            } => Profile {
                labels: map,
                beside: Some(beside),
                workers,
                map,
                ..doing(Deed::Serves, true)
            },
            Action::Sweep {
                seed,
                clients,
                ops,
                workers,
                map,
            } => Profile {
                labels: map,
                drawn: Some(Drawing { seed, clients, ops }),
                workers,
                map,
                ..doing(Deed::Serves, true)
            },
            Action::Show => looking(Kind::Shown),
            Action::ShowMap => Profile {
                labels: true,
                map: true,
                ..looking(Kind::Shown)
            },
            Action::Init => doing(Deed::Inits, true),
            Action::Check => doing(Deed::Checks, false),
            Action::Rewrite => doing(Deed::Rewrites, true),
            Action::Print => Profile {
                reads: false,
                ..looking(Kind::Conf)
            },
            Action::Fail { comp } => Profile {
                component: Component::Column { name: comp },
                labels: true,
                ..doing(Deed::Kills, true)
            },
            Action::ShowLabel { comp } => Profile {
                component: Component::Device { name: comp },
                ..looking(Kind::Label)
            },
            Action::Label { serial } => Profile {
                reads: false,
                plain: true,
                ..doing(Deed::Labels { serial }, false)
            },
            Action::Rebuild {
                in_place,
                comp,
                limit,
                beside,
                workers,
                map,
            } => Profile {
                component: Component::Column { name: comp },
                labels: true,
                rebuild: Some(onto(in_place)),
                limit,
                beside,
                workers,
                map,
                ..doing(Deed::Serves, true)
            },
            Action::Resume {
                limit,
                beside,
                workers,
                map,
            } => Profile {
                labels: true,
                rebuild: Some(Rebuilding::Further),
                limit,
                beside,
                workers,
                map,
                ..doing(Deed::Serves, true)
            },
        }
    }

    /// The script that goes with it, if one does.
    pub fn beside(self) -> Option<Beside<'a>>
        ensures { option_map beside_seen result ≡ beside_of (action_seen self.entry) }
    {
        self.profile().beside
    }
}
