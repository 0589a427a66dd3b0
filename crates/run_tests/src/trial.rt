//! Runs over devices in memory, some of which fail.

use std::alloc::Global;
use std::test::Fail;
use std::thread::Threads;
use synth_run::{Gate, MemorySink, MemorySource, run};

/// Which calls fail, by their numbers from 1, for how many bytes there is room, and how many are taken at once.
#[derive(Clone, Copy)]
pub struct Devices<'a> {
    pub failing_reads: &'a [u64],
    pub failing_writes: &'a [u64],
    pub at_once: usize,
    pub capacity: usize,
    pub capacity_for_line: usize,
}

/// No call fails, and the text is written in several pieces.
pub const CLEAN: Devices = Devices {
    failing_reads: &[],
    failing_writes: &[],
    at_once: 7,
    capacity: 300,
    capacity_for_line: 200,
};

/// What a run did, and whether it left a board.
#[derive(Drop)]
pub struct Trial {
    pub status: u8,
    pub out: MemorySink,
    pub err: MemorySink,
    pub has_board: bool,
}

impl Trial {
    /// Whether it ended so, and wrote so much.
    pub fn gave(&self, status: u8, out: &[u8], err: &[u8]) -> bool {
        self.status == status && self.out.got() == out && self.err.got() == err
    }
}

/// Runs what some arguments request on a text, past a gate.
pub fn run_on<R: Threads + Sync, G: Gate>(
    rt: &R,
    alloc: Global,
    arguments: &[&str],
    text: &[u8],
    devices: &Devices,
    gate: &G,
) -> Result<Trial, Fail> {
    let failing_reads = Vec::from_slice(alloc, devices.failing_reads)?;
    let failing_writes = Vec::from_slice(alloc, devices.failing_writes)?;
    let mut source = MemorySource::new(Vec::from_slice(alloc, text)?, failing_reads);
    let mut out = MemorySink::new(alloc, devices.capacity, devices.at_once, failing_writes)?;
    let mut err = MemorySink::new(alloc, devices.capacity_for_line, 200, Vec::new(alloc))?;
    let mut played = None;
    let status = run(
        rt,
        alloc,
        arguments,
        &mut source,
        &mut out,
        &mut err,
        gate,
        &mut played,
    );
    Ok(Trial {
        status,
        out,
        err,
        has_board: played.is_some(),
    })
}
