//! The rule of the table below a sweep. It has one word an item, and a view lists the items that its seat claimed.
use atomic_table::{Join, Play, Split, TableRule};
use std::collections::LinkedList;

/// The items that one seat claimed, in order. No value of it is made.
pub struct ClaimList {
    pub items: LinkedList<u32>,
}

/// What the caller or a member knows. No value of it is made.
pub struct SeatView {
    /// Of the caller how many seats were made, its own among them.
    pub made: u64,
    /// Of a member its list, and of the caller its own and then those that were collected.
    pub claim_lists: LinkedList<ClaimList>,
}

/// Each item is claimed at most once. The table is given the number of items.
pub struct Once;

impl TableRule<(), SeatView, u32> for Once {
    ghost use Rattle.frontier_pool.specs.inside.ClaimProtocol.{Keeps, first_view};

    ghost holds = { Keeps };

    ghost first = { λ items. first_view };
}

pub struct SeatSplit;

impl Split<SeatView> for SeatSplit {
    ghost use Rattle.frontier_pool.specs.inside.ClaimProtocol.{with_member, member_view};

    ghost left = { with_member };

    ghost right = { λ caller. member_view };
}

pub struct SeatJoin;

impl Join<SeatView> for SeatJoin {
    ghost use Rattle.frontier_pool.specs.inside.ClaimProtocol.{joined_view, empty_view};

    ghost both = { joined_view };

    ghost spent = { empty_view };
}

pub struct Claiming;

impl Play<(), SeatView> for Claiming {
    ghost use Rattle.frontier_pool.specs.inside.ClaimProtocol.{Claims};

    ghost then = { Claims };
}

pub struct FinalClaim;

impl Play<(), SeatView> for FinalClaim {
    ghost use Rattle.frontier_pool.specs.inside.ClaimProtocol.{MakesFinalClaim};

    ghost then = { MakesFinalClaim };
}
