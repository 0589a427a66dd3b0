//! What lies on the two copies of a live table, and the rule over it.

ghost use Rattle.std.specs.Prelude.{◌≡◌};

use crate::current::Current;
use atomic_table::{Join, Split};
use crossbeam_utils::rule::{Outcome, Protocol};
use left_right::Absorb;
use left_right::reader::Reader;
use left_right::writer::Writer;
use std::alloc::AllocError;

/// Empty until the first publish, since a rule begins before there is a table to name.
#[derive(Drop)]
pub(crate) struct LiveCopy {
    pub(crate) current: Option<Current>,
}

/// A table goes onto a copy as a whole, so no operation is ever logged.
impl Absorb<()> for LiveCopy {
    type State = ();

    ghost state = { λ s. tt };

    ghost applied = { λ s o. tt };

    ghost never_fails = { Unit {0} };

    fn absorb_first(&mut self, _operation: &(), _other: &LiveCopy) -> Result<(), AllocError> {
        Ok(())
    }
}

/// What a seat knows is nothing, or a prefix of the list in force.
pub(crate) struct OneList;

impl Protocol<LiveCopy, Option<Current>> for OneList {
    ghost use Rattle.std.specs.Prelude.{None};
    ghost use Rattle.live_table.specs.inside.LiveProtocol.{AllBegin};

    ghost holds = { λ copy views. AllBegin copy.current views };

    ghost first = { None };
}

/// Who looks knows the list in force, which begins with what was known.
pub(crate) struct Sees;

impl Outcome<LiveCopy, Option<Current>> for Sees {
    ghost use Rattle.std.specs.Prelude.{◌≡◌};
    ghost use Rattle.live_table.specs.inside.LiveProtocol.{Begins};

    ghost then = { λ v x y w. Begins v y.current × (w ≡ y.current) };
}

/// The publisher passes on all that it knows, and keeps it.
pub(crate) struct Tells;

impl Split<Option<Current>> for Tells {
    ghost left = { λ v. v };

    ghost right = { λ v. v };
}

impl Join<Option<Current>> for Tells {
    ghost use Rattle.std.specs.Prelude.{None};

    ghost both = { λ v w. w };

    ghost spent = { None };
}

pub(crate) type CopyReader = Reader<LiveCopy, Option<Current>, OneList>;

pub(crate) type CopyWriter = Writer<LiveCopy, (), Option<Current>, OneList>;
