//! The top call on devices that fail.

use crate::plants::{PLANT, TABLE};
use crate::trial::{CLEAN, Devices, run_on};
use std::alloc::Global;
use std::test::Fail;
use std::thread::Threads;
use synth_run::{CleanSource, CountSink, MemorySource, Open, Source, run};

/// The status of `synth 1` on a source, and how many bytes its line has.
fn synthesised<R: Threads + Sync, S: Source>(
    rt: &R,
    alloc: Global,
    source: &mut S,
    out: &mut CountSink,
) -> (u8, u64) {
    let mut err = CountSink::new();
    let arguments = ["synth", "1"];
    let status = run(
        rt, alloc, &arguments, source, out, &mut err, &Open, &mut None,
    );
    (status, err.count())
}

/// A sink that counts takes the 138 bytes of the table, in however many calls.
#[test]
fn clean_devices_take_the_whole_table(rt: HostRuntime) -> Result<(), Fail> {
    let mut source = CleanSource::new(Vec::from_slice(rt.alloc(), PLANT)?);
    let mut out = CountSink::new();
    let told = synthesised(&rt, rt.alloc(), &mut source, &mut out);
    assert!(rt; told == (0, 0) && out.count() == 138);
    Ok(())
}

/// A read that fails ends the reading: what it didn't take is still there. The line is `read fault`.
#[test]
fn nothing_is_read_after_a_failed_read(rt: HostRuntime) -> Result<(), Fail> {
    let fails = Vec::from_slice(rt.alloc(), &[1])?;
    let mut source = MemorySource::new(Vec::from_slice(rt.alloc(), PLANT)?, fails);
    let told = synthesised(&rt, rt.alloc(), &mut source, &mut CountSink::new());
    let mut left = [0; 200];
    let count = source.read(&mut left).map_err(|_| "a second fault")?;
    assert!(rt; told == (6, 11) && count == PLANT.len());
    Ok(())
}

/// Whether `synth 1` of a text ends so on some devices, and writes this.
fn gives<R: Threads + Sync>(
    rt: &R,
    alloc: Global,
    text: &[u8],
    devices: &Devices,
    status: u8,
    out: &[u8],
    err: &[u8],
) -> Result<bool, Fail> {
    let tried = run_on(rt, alloc, &["synth", "1"], text, devices, &Open)?;
    Ok(tried.gave(status, out, err))
}

#[test]
fn line_without_capacity_is_cut(rt: HostRuntime) -> Result<(), Fail> {
    let devices = Devices {
        capacity_for_line: 5,
        ..CLEAN
    };
    assert!(rt; gives(&rt, rt.alloc(), b"", &devices, 3, b"", b"malfo")?);
    Ok(())
}

/// Whether one failing call is a read fault: the first takes the plant whole, the second finds the end, and there is no third.
fn are_read_faults<R: Threads + Sync>(rt: &R, alloc: Global) -> Result<bool, Fail> {
    let fault: &[u8] = b"read fault\n";
    let calls: [(&[u64], u8, &[u8], &[u8]); 3] = [
        (&[1], 6, b"", fault),
        (&[2], 6, b"", fault),
        (&[3], 0, TABLE, b""),
    ];
    let mut good = true;
    for (failing_reads, status, out, err) in calls {
        let devices = Devices {
            failing_reads,
            ..CLEAN
        };
        good = good && gives(rt, alloc, PLANT, &devices, status, out, err)?;
    }
    Ok(good)
}

#[test]
fn read_that_fails_is_a_read_fault(rt: HostRuntime) -> Result<(), Fail> {
    assert!(rt; are_read_faults(&rt, rt.alloc())?);
    Ok(())
}

/// One byte for each of 39 calls: the bytes end in `input u `.
#[test]
fn write_that_fails_leaves_the_front_of_the_table(rt: HostRuntime) -> Result<(), Fail> {
    let devices = Devices {
        at_once: 1,
        failing_writes: &[40],
        ..CLEAN
    };
    assert!(rt; gives(&rt, rt.alloc(), PLANT, &devices, 7, &TABLE[..39], b"")?);
    Ok(())
}

/// One byte a call, into room for fewer bytes than the table has: the first bytes of it that fit.
fn is_cut_at<R: Threads + Sync>(rt: &R, alloc: Global, capacity: usize) -> Result<bool, Fail> {
    let devices = Devices {
        at_once: 1,
        capacity,
        ..CLEAN
    };
    let status = if capacity < TABLE.len() { 7 } else { 0 };
    let front = TABLE.get(..capacity).ok_or("past the end of the table")?;
    gives(rt, alloc, PLANT, &devices, status, front, b"")
}

#[test]
fn table_without_capacity_is_cut(rt: HostRuntime) -> Result<(), Fail> {
    let mut good = true;
    for capacity in 0..TABLE.len() + 1 {
        good = good && is_cut_at(&rt, rt.alloc(), capacity)?;
    }
    assert!(rt; good);
    Ok(())
}
