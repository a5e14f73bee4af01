// A linkEA of two records, opened by the reader that keeps the lent bytes: prints the first name, the place and parent of the second record, and what a linkEA cut
// short gives.
#![tactic(auto)]

use linkea::Found;
use refusals::Refusal;
use std::io;

fn show_record(rt: &impl Print, x: Found) -> io::Result<()> {
    let parent = x.parent.0;
    println!(rt;
        "record: parent {} {}, name at {}, of {}, next {}",
        parent.seq, parent.oid, x.start, x.size, x.next
    )
}

fn show_step(rt: &impl Print, step: Result<Option<Found>, Refusal>) -> io::Result<()> {
    match step {
        Ok(Some(x)) => show_record(rt, x),
        Ok(None) => rt.write_all(b"end\n"),
        Err(_) => rt.write_all(b"bad\n"),
    }
}

// The first name, and what stands behind it.
fn show(rt: &impl Print, link: &[u8]) -> io::Result<()> {
    rt.write_all(b"first name: ")?;
    rt.write_all(linkea_walk::first_name(link))?;
    rt.write_all(b"\n")?;
    show_step(rt, linkea_walk::second(link))
}

// All of it, and all but the last byte.
fn show_both(rt: &impl Print, link: &[u8]) -> io::Result<()> {
    show(rt, link)?;
    match link.split_last() {
        Some((_, rest)) => show(rt, rest),
        None => Ok(()),
    }
}

fn main(rt: HostRuntime) -> io::Result<()> {
    show_both(
        &rt,
        b"\xdf\xf1\xea\x11\x02\0\0\0\x42\0\0\0\0\0\0\0\x05\0\0\0\x06\0\0\0\0\x13\0\0\0\x02\0\0\x04\x01\0\0\0\x01\0\0\0\0a\0\x17\0\0\0\x02\0\0\x04\x02\0\0\0\x07\0\0\0\0notes",
    )
}
