ghost use Rattle.std.specs.Prelude.{◌≡◌, MatchResult};
ghost use Rattle.left_right.specs.Sides.{view as known};
ghost use Rattle.live_table.specs.Publishes.{Answers, longer_list};
ghost use Rattle.live_table.specs.inside.LiveProtocol.{Looked};

use crate::copy::{CopyReader, Sees};
use crate::live_fault::LiveFault;
use crate::prefix::Prefix;
use crate::told::Told;
use core::mem::replace_with;
use grid_quantiser::Point;
use std::marker::Model;

/// What the table in force chooses, and how many tables had been published by then.
#[derive(Clone, Copy, PartialEq, Eq)]
pub struct Answered {
    pub number: u32,
    pub choice: Option<u32>,
}

/// Answers by the table in force, waits for nobody, and may go to another thread.
///
/// Seen as the opening, the tables that it has seen and the tables that it was told of.
#[derive(Drop)]
pub struct Reader {
    pub(crate) copies: CopyReader,
    pub(crate) seen: Prefix,
    pub(crate) told: Prefix,
}

impl Model for Reader {
    ghost use Rattle.std.specs.Coded.{codes};
    ghost use Rattle.fixed_expr.specs.inside.Postfix.{expression_code};
    ghost use Rattle.std.specs.Prelude.{◌≡◌};
    ghost use Rattle.left_right.specs.Sides.{view as known};
    ghost use Rattle.live_table.specs.Publishes.{Listener};
    ghost use Rattle.live_table.specs.inside.LiveProtocol.{Covers};

    ghost Value = { Listener };

    ghost coded = { Prim.hlevel (codes, expression_code) };

    ghost view = { λ r. record { opening = r.seen.opening; seen = r.seen.list; told = r.told.list } };

    ghost invariant = { λ r. Covers (known r.copies.place) r.seen × Covers (known r.copies.place) r.told };
}

impl Reader {
    /// The input to apply at a state. It is refused once the publisher is closed.
    pub fn choice(&mut self, x: &Point) -> Result<Answered, LiveFault>
        ensures answer { MatchResult result (λ a. Answers self.old self.new x.now a.number a.choice) (λ _. self.new ≡ self.old) }
        ensures same { (self.new.told ≡ self.old.told) × (self.new.opening ≡ self.old.opening) }
    {
        let (answer, prefix) = replace_with(&mut self.copies, x, look)?;
        self.seen = prefix;
        Ok(answer)
    }

    /// From now on each answer's list begins with what was told.
    pub fn learn(&mut self, told: Told)
        requires { told.opening ≡ self.old.opening }
        ensures { self.new ≡ record self.old { told = longer_list self.old.told told.list } }
    {
        let Told { copies, prefix } = told;
        if self.seen.begins(&prefix) && self.told.begins(&prefix) {
            self.copies = copies;
        }
        if self.told.count() < prefix.count() {
            self.told = prefix;
        }
    }
}

/// What is in force.
fn look(copies: CopyReader, x: &Point) -> (CopyReader, Result<(Answered, Prefix), LiveFault>)
    ensures { Looked (known copies.place) (known result.0.place) x.now result.1 }
{
    match copies.enter_as::<Sees>() {
        Ok(reading) => {
            let seen = match &reading.get().current {
                Some(current) => {
                    let prefix = current.prefix();
                    let number = prefix.count();
                    let choice = current.choice(x);
                    Ok((Answered { number, choice }, prefix))
                }
                None => Err(LiveFault::Refused),
            };
            (reading.leave(), seen)
        }
        Err(copies) => (copies, Err(LiveFault::Refused)),
    }
}
