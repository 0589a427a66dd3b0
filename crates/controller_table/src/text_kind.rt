ghost use Rattle.std.specs.Prelude.{◌≡◌, ◌↔◌, ◌++◌, ℕ, List, IsTrue};
ghost use Rattle.row_reading.specs.Found.{Finds};
ghost use Rattle.controller_table.specs.TextKinds.{first_line, most_bytes, rules_of, stay_rules, patrol_rules, turn_rules, HasFewTurnsFor};

use crate::goal_format::format_of;
use base::limits::{TABLE_LIMIT, TURNS_LIMIT};
use plant_record::{GoalKind, Plant};
use row_reading::{RowRules, TurnHead, TurnRules, after_prefix};
use row_runs::{RowFormat, TableVersion};

/// Bytes of a patrol text: at the limit on turns 4,194,304 lines of at most 29 bytes, and the plant's text.
pub const PATROL_LIMIT: usize = 134_217_728;

/// Which text it is.
#[derive(Clone, Copy)]
pub enum TextKind {
    /// A table, of this version.
    Table(TableVersion),
    /// A stay text.
    Stay,
    /// A patrol text.
    Patrol,
}

impl TextKind {
    /// The first line of its texts.
    pub fn first_line(self) -> &'static [u8]
        ensures { result.now ≡ first_line self }
    {
        match self {
            TextKind::Table(TableVersion::First) => b"table 1\n",
            TextKind::Table(TableVersion::Second) => b"table 2\n",
            TextKind::Stay => b"stay 1\n",
            TextKind::Patrol => b"patrol 1\n",
        }
    }

    /// What stands after the first line of its texts, with which the bytes begin.
    pub fn take_first_line(self, bytes: &[u8]) -> Option<&[u8]>
        ensures { Finds (λ r. r.now) (λ (rest : List ℕ). bytes.now ≡ first_line self ++ rest) result }
    {
        after_prefix(bytes, self.first_line())
    }

    /// How many bytes its texts may have.
    pub fn most_bytes(self) -> usize
        ensures { result ≡ most_bytes self }
    {
        match self {
            TextKind::Table(_) | TextKind::Stay => TABLE_LIMIT,
            TextKind::Patrol => PATROL_LIMIT,
        }
    }

    /// The rules of the rows of a plant's text: a patrol has a turn for each target, another text has one.
    pub fn rules(self, p: &Plant) -> TurnRules
        ensures { result ≡ turn_rules self p.now }
    {
        match self {
            TextKind::Table(version) => TurnRules {
                rows: rules_of(version, p),
                turns: 1,
                head: TurnHead::Count,
            },
            TextKind::Stay => TurnRules {
                rows: stay_rules(p),
                turns: 1,
                head: TurnHead::Count,
            },
            TextKind::Patrol => TurnRules {
                rows: patrol_rules(p),
                turns: p.targets(),
                head: TurnHead::Numbered,
            },
        }
    }

    /// Whether a plant has as few turns as the text may have.
    pub fn has_few_turns(self, p: &Plant) -> bool
        ensures { IsTrue result ↔ HasFewTurnsFor self p.now }
    {
        match self {
            TextKind::Table(_) | TextKind::Stay => true,
            TextKind::Patrol => u64::from(p.grid().cells()) * u64::from(p.targets()) <= TURNS_LIMIT,
        }
    }
}

/// The kind whose first line the bytes begin with, and what stands after it.
pub fn take_kind(bytes: &[u8]) -> Option<(TextKind, &[u8])>
    ensures { Finds (λ r. (r.0, r.1.now)) (λ (found : TextKind × List ℕ). bytes.now ≡ first_line found.0 ++ found.1) result }
{
    let second = TextKind::Table(TableVersion::Second);
    if let Some(rest) = second.take_first_line(bytes) {
        return Some((second, rest));
    }
    let first = TextKind::Table(TableVersion::First);
    if let Some(rest) = first.take_first_line(bytes) {
        return Some((first, rest));
    }
    if let Some(rest) = TextKind::Stay.take_first_line(bytes) {
        return Some((TextKind::Stay, rest));
    }
    let rest = TextKind::Patrol.take_first_line(bytes)?;
    Some((TextKind::Patrol, rest))
}

/// The rules of the rows of a plant's table.
fn rules_of(version: TableVersion, p: &Plant) -> RowRules
    ensures { result ≡ rules_of version p.now }
{
    let cells = p.grid().cells();
    let goal = p.goal();
    RowRules {
        version,
        format: format_of(goal),
        cells,
        vectors: p.vectors(),
        least_rank: 0,
        most_rank: match goal {
            GoalKind::Reach => cells.saturating_sub(1),
            GoalKind::Keep => 0,
        },
    }
}

/// The rules of the rows of a plant's stay text.
fn stay_rules(p: &Plant) -> RowRules
    ensures { result ≡ stay_rules p.now }
{
    let cells = p.grid().cells();
    RowRules {
        version: TableVersion::Second,
        format: RowFormat::Both,
        cells,
        vectors: p.vectors(),
        least_rank: 0,
        most_rank: cells.saturating_sub(1),
    }
}

/// The rules of the rows of a plant's patrol text.
fn patrol_rules(p: &Plant) -> RowRules
    ensures { result ≡ patrol_rules p.now }
{
    let cells = p.grid().cells();
    RowRules {
        version: TableVersion::Second,
        format: RowFormat::Both,
        cells,
        vectors: p.vectors(),
        least_rank: 1,
        most_rank: cells,
    }
}
