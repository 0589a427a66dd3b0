//! The rule of the table below a board. Its words are the counters, the minima, the tail of the log and the slots
//! of the log, in this order, and a view is what the root or a hand knows.
use crate::account::Account;
use crate::numbers::Numbers;
use atomic_table::{Join, Play, Split, TableRule};
use std::collections::LinkedList;
use std::marker::{Brand, PhantomData};

/// The numbers with which the counters and the minima began, and how many slots the log has. No value of it is made.
pub struct Setup {
    pub starts: LinkedList<u64>,
    pub least: LinkedList<u64>,
    pub slots: u32,
}

/// What the root or a hand knows. No value of it is made.
pub struct View {
    pub began: Setup,
    /// How many hands the root has made.
    pub made: u64,
    /// Of a hand its account, and of the root those that were taken in.
    pub accounts: LinkedList<Account>,
    /// The slot of the log that was drawn and is still to be stored.
    pub awaits: Option<u64>,
}

/// What a table is given when it is made: its counters and then its minima, and how many slots its log has.
#[derive(Drop)]
pub struct Beginning {
    pub words: Numbers,
    pub counters: usize,
    pub slots: u32,
}

pub struct Lawful;

impl TableRule<(), View, Beginning> for Lawful {
    ghost use Rattle.cell_counters.specs.inside.BoardProtocol.{Keeps, setup_of, root_of};

    ghost holds = { λ b s. Keeps (setup_of b) s };

    ghost first = { root_of };
}

pub struct HandSplit;

impl Split<View> for HandSplit {
    ghost use Rattle.cell_counters.specs.inside.BoardProtocol.{one_more, new_hand};

    ghost left = { one_more };

    ghost right = { new_hand };
}

pub struct HandJoin;

impl Join<View> for HandJoin {
    ghost use Rattle.cell_counters.specs.inside.BoardProtocol.{joined_view, empty_view};

    ghost both = { joined_view };

    ghost spent = { empty_view };
}

pub struct Cutting;

impl Play<(), View> for Cutting {
    ghost use Rattle.cell_counters.specs.inside.BoardProtocol.{Cuts};

    ghost then = { Cuts };
}

pub struct Offering;

impl Play<(), View> for Offering {
    ghost use Rattle.cell_counters.specs.inside.BoardProtocol.{Offers};

    ghost then = { Offers };
}

/// The item that a step is to enter into the account, which is no operand of the step.
pub trait Item {
    ghost use Rattle.std.specs.Prelude.{ℕ};

    ghost item: { ℕ };
}

impl Item for Brand {
    ghost item = { 0 };
}

pub struct Noting<I: Item> {
    of: PhantomData<I>,
}

impl<I: Item> Play<(), View> for Noting<I> {
    ghost use Rattle.cell_counters.specs.inside.BoardProtocol.{Notes};

    ghost then = { Notes I.item };
}

/// Draws a number of the log for the item.
pub struct Drawing<I: Item> {
    of: PhantomData<I>,
}

impl<I: Item> Play<(), View> for Drawing<I> {
    ghost use Rattle.cell_counters.specs.inside.BoardProtocol.{Draws};

    ghost then = { Draws I.item };
}

pub struct Storing;

impl Play<(), View> for Storing {
    ghost use Rattle.cell_counters.specs.inside.BoardProtocol.{Stores};

    ghost then = { Stores };
}

pub struct Looking;

impl Play<(), View> for Looking {
    ghost use Rattle.cell_counters.specs.inside.BoardProtocol.{Looks};

    ghost then = { Looks };
}
