// Example E10 of the paper: an object that may hold data claims slot 1,999, and then slot 2,000, of an absent file. Prints the class of the object and
// what a run that adopts makes of it: at index 1,999 a parent of 2,000 slots is made for it, at 2,000 its place can't be had.
#![tactic(auto)]

use capi_run::REPORT_SIZE;
use fid::Fid;
use layout::{MAX_SLOTS, PLAIN_HEADER, SLOT_SIZE};
use std::io;
use tables::rows::{PARENT_SIZE, ROOM_AT};
use wire::Little;

// The bytes of a layout of version 1 with all slots that there may be.
const WIDEST: usize = PLAIN_HEADER + SLOT_SIZE * MAX_SLOTS;

fn print_class(rt: &impl Print, class: u64) -> io::Result<()> {
    if class == 10 {
        return rt.write_all(b"ORPHAN\n");
    }
    if class == 11 {
        return rt.write_all(b"CONFLICT\n");
    }
    rt.write_all(b"another class\n")
}

fn print_number(rt: &impl Print, name: &str, n: u64) -> io::Result<()> {
    print!(rt; "{name}{n}")
}

// Object A.
fn object_name() -> Fid {
    Fid {
        seq: 0x2_4000_0400,
        oid: 0x10,
        ver: 0,
    }
}

// A claim on slot `index` of file P.
fn claim_on(index: u32) -> Fid {
    Fid {
        seq: 0x2_0000_0401,
        oid: 1,
        ver: index,
    }
}

// The run from the start, with adopt: its answer, the steps done and the objects adopted.
fn show_run(rt: &impl Print, parents: &mut [u8], objects: &mut [u8]) -> io::Result<()> {
    let reserve = [0u8; 0];
    let mut position = [0u64; 3];
    let mut report = [0u64; REPORT_SIZE];
    let started = capi::input::lfsck_start(parents, objects, &mut position);
    let answer = capi::runs::lfsck_run(
        parents,
        objects,
        &reserve,
        2,
        100,
        &mut position,
        &mut report,
    );
    print_number(rt, "start ", started as u64)?;
    print_number(rt, ", run ", answer as u64)?;
    print_number(rt, ", steps ", report[0])?;
    print_number(rt, ", adopted ", report[8])
}

// The slots of a layout.
fn show_layout(rt: &impl Print, layout: &[u8]) -> io::Result<()> {
    let mut fields = [0u64; 8];
    let answer = capi::layouts::lfsck_layout_read(layout, &mut fields);
    print_number(rt, "; layout ", answer as u64)?;
    print_number(rt, ", slots ", fields[5])?;
    rt.write_all(b"\n")
}

// One unused parent row, and object A with its claim.
fn show(rt: &impl Print, index: u32) -> io::Result<()> {
    let mut parents = [0u8; PARENT_SIZE];
    let mut objects = [0u8; 46];
    let mut out = [0u64; 4];
    objects[0] = 1;
    fid::write_fid(&mut objects, 1, object_name());
    wire::put::<u32, Little>(&mut objects, 17, 3);
    fid::write_fid(&mut objects, 29, claim_on(index));
    let answer = capi::classes::lfsck_class(&parents, &objects, 2, 0, 0, &mut out);
    print_number(rt, "index ", index as u64)?;
    print_number(rt, ": answer ", answer as u64)?;
    rt.write_all(b", ")?;
    print_class(rt, out[0])?;
    show_run(rt, &mut parents, &mut objects)?;
    show_layout(rt, &parents[ROOM_AT..ROOM_AT + WIDEST])
}

fn main(rt: HostRuntime) -> io::Result<()> {
    show(&rt, 1999)?;
    show(&rt, 2000)
}
