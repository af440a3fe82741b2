//! Trees as deep as a list, of another maker: a check that goes down by calls, or that sums on past a limit, is seen.

use crate::alike;
use std::fmt::Write;
use std::io;
use std::sync::Wait;
use std::thread::Threads;

/// The greatest number of sinks.
const SINKS: u32 = 65_536;

/// The line `wire` of an instance, and the length of every wire of its tree.
const WIRES: [(&str, &str); 3] = [
    // No wire at all, and so no delay: a right report.
    ("1 1", "0.000"),
    // The loads pass 2^56 zF at the 17th pair from below: 34 wires of 2,147,483,647,000,000 zF.
    ("0.001 1000", "2147483.647"),
    // The delays pass 2^104 at the 1,483rd pair, where the loads still fit 2^56.
    ("1000 0.001", "2147483.647"),
];

/// The last lines of a report.
const FIGURES: &str = "\
delay greatest 0.0000000000000000
delay least 0.0000000000000000
skew 0.0000000000000000
bound 0.0000000000000000
load met yes
slew met yes
end
";

/// Prints the verdicts on reports of trees in which every pair but the lowest has a leaf on its right.
pub(crate) fn check<R: AllocGlobal + Threads + Wait + Sync + Print>(rt: &R) -> io::Result<()> {
    for (wire, length) in WIRES {
        let mut text = String::new(rt.alloc());
        write_instance(&mut text, wire)?;
        write_report(&mut text, length)?;
        alike::verdict(rt, text.as_bytes())?;
    }
    Ok(())
}

/// An instance with all of its sinks at the source.
fn write_instance(text: &mut String, wire: &str) -> io::Result<()> {
    text.push_str("cts 1\ndie 0 0 100 100\nsource 0 0 0\n")?;
    writeln!(
        text,
        "wire {wire}\nlimits 1 1000000 1\nbuffers 0\nsinks {SINKS}"
    )?;
    for id in 0..SINKS {
        writeln!(text, "sink {id} 0 0 1")?;
    }
    text.push_str("blocks 0\nend\n")?;
    Ok(())
}

/// A report whose figures are right where no wire has a length.
fn write_report(text: &mut String, length: &str) -> io::Result<()> {
    writeln!(text, "cts report 1\nnodes {}", 2 * SINKS - 1)?;
    for id in 0..SINKS {
        let leaf = (2 * id).saturating_sub(1);
        write_leaf(text, leaf, id, length)?;
        if id > 0 {
            write_pair(text, leaf + 1, (leaf - 1, leaf), id + 1)?;
            write_delays(text, length)?;
        }
    }
    write_figures(text)
}

fn write_leaf(text: &mut String, node: u32, id: u32, length: &str) -> io::Result<()> {
    write!(text, "node {node} leaf {id} at 0.0000 0.0000 load 1.000000")?;
    write_delays(text, length)
}

/// The node of a pair up to its delays, with so many sinks below it.
fn write_pair(text: &mut String, node: u32, pair: (u32, u32), sinks: u32) -> io::Result<()> {
    let (left, right) = pair;
    write!(
        text,
        "node {node} pair {left} {right} at 0.0000 0.0000 buffer none"
    )?;
    write!(text, " load {sinks}.000000 residue 0.0000000000000000")?;
    Ok(())
}

fn write_figures(text: &mut String) -> io::Result<()> {
    writeln!(text, "source load {SINKS}.000000\nwire total 0.000")?;
    text.push_str(FIGURES)?;
    Ok(())
}

fn write_delays(text: &mut String, length: &str) -> io::Result<()> {
    writeln!(
        text,
        " delay 0.0000000000000000 slew 0.0000000000000000 wire {length} via 0"
    )?;
    Ok(())
}
