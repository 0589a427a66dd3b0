//! Devices in memory.

ghost use Rattle.std.specs.Prelude.{◌≡◌, ◌<◌, ◌≤◌, ◌+◌, ◌-◌, ◌^◌, ◌↔◌, [], true, Some, None, Ok, length, take, min, max, IsTrue, IsOk, IfOk, IfSome, IsErr, OnOk, OnErr};
ghost use Rattle.std.specs.Io.KnownBytes.{Keeps};
ghost use Rattle.std.specs.List.{Contains};
ghost use Rattle.run_devices.specs.Devices.{next_count, Takes, Gains};
ghost use Rattle.run_devices.specs.Memory.{MemoryLeft, MemoryTaken, is_none_listed, sure_capacity, uncalled_sink, FailsAt, HasSameLimits};

use crate::devices::{Failed, Sink, Source};
use base::NoMemory;
use std::alloc::Global;
use std::marker::Model;

/// A source over bytes in memory, of which no call fails. Seen as the bytes that are left.
#[derive(Drop)]
pub struct CleanSource {
    bytes: Vec<u8>,
    at: usize,
}

impl Model for CleanSource {
    ghost use Rattle.std.specs.Prelude.{ℕ, List, length, drop, ◌≤◌};

    ghost Value = { List ℕ };

    ghost view = { λ s. drop s.at s.bytes.items };

    ghost invariant = { λ s. s.at ≤ length s.bytes.items };
}

impl CleanSource {
    /// A source of which all these bytes are left.
    pub fn new(bytes: Vec<u8>) -> CleanSource
        ensures { result ≡ bytes.items }
    {
        CleanSource { bytes, at: 0 }
    }
}

impl Source for CleanSource {
    ghost left = { λ s. Some s };

    ghost faults = { λ _. 0 };

    ghost is_sound = { λ _. true };

    fn read(&mut self, buf: &mut [u8]) -> Result<usize, Failed> {
        let left = &self.bytes[self.at..];
        let n = left.len().min(buf.len());
        buf[..n].copy_from_slice(&left[..n]);
        self.at += n;
        Ok(n)
    }
}

/// A source over bytes in memory, of which chosen calls fail.
#[derive(Drop)]
pub struct MemorySource {
    source: CleanSource,
    calls: u64,
    fails: Vec<u64>,
    faults: u64,
}

impl Model for MemorySource {
    ghost use Rattle.run_devices.specs.Memory.{MemoryLeft};

    ghost Value = { MemoryLeft };

    ghost view = { λ s. record { left = s.source; calls = s.calls; fails = s.fails.items; faults = s.faults } };
}

impl MemorySource {
    /// The calls whose numbers, from 1, stand in `fails` fail.
    pub fn new(bytes: Vec<u8>, fails: Vec<u64>) -> MemorySource
        ensures { result ≡ record { left = bytes.items; calls = 0; fails = fails.items; faults = 0 } }
    {
        MemorySource {
            source: CleanSource::new(bytes),
            calls: 0,
            fails,
            faults: 0,
        }
    }
}

impl Source for MemorySource {
    ghost left = { λ s. Some s.left };

    ghost faults = { λ s. s.faults };

    ghost is_sound = { λ s. is_none_listed s.fails };

    fn read(&mut self, buf: &mut [u8]) -> Result<usize, Failed>
        ensures bound { IfOk result (λ n. n ≤ length buf.old) }
        ensures taken { IfOk result (λ n. Takes (Some self.old.left) (Some self.new.left) n buf.new) }
        ensures at_end { result ≡ Ok 0 → 0 < length buf.old → IfSome (Some self.old.left) (λ bytes. bytes ≡ []) }
        ensures kept { OnErr result (Keeps (Some self.old.left) (Some self.new.left)) }
        ensures counted { OnOk result (self.new.faults ≡ self.old.faults) }
        ensures failed { OnErr result (self.new.faults ≡ next_count self.old.faults) }
        ensures never_falls { self.old.faults ≤ self.new.faults }
        ensures sound { IsTrue (is_none_listed self.old.fails) → IsOk result }
        ensures stays_sound { IsTrue (is_none_listed self.old.fails) → IsTrue (is_none_listed self.new.fails) }

        ensures calls { self.new.calls ≡ next_count self.old.calls }
        ensures fails { self.new.fails ≡ self.old.fails }
        ensures chosen { IsErr result ↔ Contains self.old.fails self.new.calls }
        ensures untouched { OnErr result (buf.new ≡ buf.old) }
    {
        self.calls = self.calls.saturating_add(1);
        if self.fails.contains(&self.calls) {
            self.faults = self.faults.saturating_add(1);
            return Err(Failed);
        }
        self.source.read(buf)
    }
}

/// A sink into memory with capacity for so many bytes, of which chosen calls fail.
#[derive(Drop)]
pub struct MemorySink {
    got: Vec<u8>,
    capacity: usize,
    at_once: usize,
    calls: u64,
    fails: Vec<u64>,
    faults: u64,
}

impl Model for MemorySink {
    ghost use Rattle.std.specs.Prelude.{length, ◌≤◌, vec_capacity};
    ghost use Rattle.run_devices.specs.Memory.{MemoryTaken};

    ghost Value = { MemoryTaken };

    ghost view = { λ s. record { got = s.got.items; capacity = s.capacity; at_once = s.at_once; calls = s.calls; fails = s.fails.items; faults = s.faults } };

    ghost invariant = { λ s. (length s.got.items ≤ s.capacity) × (s.capacity ≤ vec_capacity s.got) };
}

impl MemorySink {
    /// Takes all its memory here. A call takes at most `at_once` bytes, but at least one; the calls
    /// whose numbers, from 1, stand in `fails` fail, and those that find no capacity left.
    pub fn new(
        alloc: Global,
        capacity: usize,
        at_once: usize,
        fails: Vec<u64>,
    ) -> Result<MemorySink, NoMemory>
        ensures { IfOk result (λ s. s ≡ uncalled_sink capacity at_once fails.items) }
    {
        Ok(MemorySink {
            got: Vec::with_capacity(alloc, capacity)?,
            capacity,
            at_once,
            calls: 0,
            fails,
            faults: 0,
        })
    }

    /// What was taken.
    pub fn got(&self) -> &[u8]
        ensures { result.now ≡ self.now.got }
    {
        &self.got
    }
}

impl Sink for MemorySink {
    ghost got = { λ s. Some s.got };

    ghost faults = { λ s. s.faults };

    ghost capacity = { λ s. sure_capacity s };

    fn write(&mut self, piece: &[u8]) -> Result<usize, Failed>
        ensures bound { IfOk result (λ n. n ≤ length piece.now) }
        ensures some { IfOk result (λ n. 0 < length piece.now → 0 < n) }
        ensures gained { IfOk result (λ n. Gains (Some self.old.got) (Some self.new.got) (take n piece.now)) }
        ensures kept { OnErr result (Keeps (Some self.old.got) (Some self.new.got)) }
        ensures counted { OnOk result (self.new.faults ≡ self.old.faults) }
        ensures failed { OnErr result (self.new.faults ≡ next_count self.old.faults) }
        ensures never_falls { self.old.faults ≤ self.new.faults }
        ensures capacity { 0 < length piece.now → length piece.now ≤ sure_capacity self.old → IsOk result }
        ensures capacity_left { IfOk result (λ n. sure_capacity self.old ≤ sure_capacity self.new + n) }

        ensures at_once { IfOk result (λ n. n ≤ max self.old.at_once 1) }
        ensures calls { self.new.calls ≡ next_count self.old.calls }
        ensures same { HasSameLimits self.old self.new }
        ensures chosen { IsErr result ↔ FailsAt self.old self.new.calls }
    {
        self.calls = self.calls.saturating_add(1);
        if self.fails.contains(&self.calls) || self.capacity <= self.got.len() {
            self.faults = self.faults.saturating_add(1);
            return Err(Failed);
        }
        let n = piece
            .len()
            .min(self.at_once.max(1))
            .min(self.capacity - self.got.len());
        match self.got.extend_from_slice(&piece[..n]) {
            Ok(()) => Ok(n),
            Err(_) => unreachable!(),
        }
    }
}

/// A sink that keeps nothing but how many bytes it took, and of which no call fails. Seen as that number.
#[derive(Drop)]
pub struct CountSink {
    count: u64,
}

impl Model for CountSink {
    ghost use Rattle.std.specs.Prelude.{ℕ};

    ghost Value = { ℕ };

    ghost view = { λ s. s.count };
}

impl CountSink {
    /// A sink that took no byte yet.
    pub fn new() -> CountSink
        ensures { result ≡ 0 }
    {
        CountSink { count: 0 }
    }

    /// How many bytes were taken, up to the greatest number of 64 bits.
    pub fn count(&self) -> u64
        ensures { result ≡ self.now }
    {
        self.count
    }
}

impl Sink for CountSink {
    ghost got = { λ _. None };

    ghost faults = { λ _. 0 };

    ghost capacity = { λ _. 2 ^ 64 - 1 };

    fn write(&mut self, piece: &[u8]) -> Result<usize, Failed>
        ensures whole { result ≡ Ok (length piece.now) }
        ensures count { self.new ≡ min (self.old + length piece.now) (2 ^ 64 - 1) }
    {
        self.count = self.count.saturating_add(piece.len() as u64);
        Ok(piece.len())
    }
}
