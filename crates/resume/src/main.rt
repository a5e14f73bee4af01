// Example E8 of the paper by `engine::run_on`, which changes the lent position in place: once in several calls, each handed the position as the
// last one left it, and once in one call. Prints what each call answers, the steps done, the position and the repairs, and then the tables.
#![tactic(auto)]

ghost use Rattle.std.specs.Prelude.{◌≡◌};
ghost use Rattle.engine.specs.RunBytes.{run_bytes};

use fid::Fid;
use layout::Header;
use rules::Report;
use std::io;
use tables::Position;
use tables::rows::{PARENT_SIZE, ROOM_AT};
use wire::Little;

// What a call reports, and the position that it was lent, after it.
#[derive(Clone, Copy)]
struct Resumed {
    report: Report,
    position: Position,
}

fn with_position(report: Report, position: Position) -> Resumed
    ensures { result ≡ record { report = report; position = position } }
{
    Resumed { report, position }
}

// A run from a position: a copy of it is lent to `run_on`.
fn go_on(
    parents: &mut [u8],
    objects: &mut [u8],
    reserve: &[u8],
    policy: u64,
    most: u64,
    at: Position,
) -> Resumed
    ensures { (result.report ≡ (run_bytes parents.old objects.old reserve.now policy most at).report)
        × (result.position ≡ (run_bytes parents.old objects.old reserve.now policy most at).report.position)
        × (parents.new ≡ (run_bytes parents.old objects.old reserve.now policy most at).parents)
        × (objects.new ≡ (run_bytes parents.old objects.old reserve.now policy most at).objects) }
{
    let mut position = at;
    let report = engine::run_on(parents, objects, reserve, policy, most, &mut position);
    with_position(report, position)
}

fn print(rt: &impl Print, text: &str) -> io::Result<()> {
    print!(rt; "{text}")
}

fn print_number(rt: &impl Print, name: &str, n: u64) -> io::Result<()> {
    print!(rt; "{name}{n}")
}

fn print_position(rt: &impl Print, name: &str, at: Position) -> io::Result<()> {
    print_number(rt, name, at.stage)?;
    print_number(rt, ",", at.row)?;
    print_number(rt, ",", at.part)
}

// The repairs of E8's two classes.
fn print_repairs(rt: &impl Print, report: Report) -> io::Result<()> {
    let counts = report.counts;
    let of = counts.of;
    print_number(rt, "; DANGLING ", of[2])?;
    print_number(rt, ", ORPHAN ", of[7])
}

// One call of at most so many steps, without reserve; where it leaves the position.
fn call(
    rt: &impl Print,
    parents: &mut [u8],
    objects: &mut [u8],
    policy: u64,
    most: u64,
    at: Position,
) -> io::Result<Position> {
    let reserve = [0u8; 0];
    let done = go_on(parents, objects, &reserve, policy, most, at);
    let report = done.report;
    let position = done.position;
    print_number(rt, "  policy ", policy)?;
    print_number(rt, ", at most ", most)?;
    print_position(rt, " from ", at)?;
    print_number(rt, ": answer ", report.answer as u64)?;
    print_number(rt, ", steps ", report.steps)?;
    print_position(rt, ", position ", position)?;
    print_repairs(rt, report)?;
    print(rt, "\n")?;
    Ok(position)
}

// File P.
fn file_name() -> Fid {
    Fid {
        seq: 0x2_0000_0401,
        oid: 1,
        ver: 0,
    }
}

// Object A has the id 16, object C 18.
fn object_name(oid: u32) -> Fid {
    Fid {
        seq: 0x2_4000_0400,
        oid,
        ver: 0,
    }
}

// The one parent row: file P, whose one slot names A on OST 3.
fn one_file() -> [u8; PARENT_SIZE] {
    let mut parents = [0u8; PARENT_SIZE];
    let pool = [0u8; 0];
    let slots: [u64; 5] = [1, 0x2_4000_0400, 16, 0, 3];
    let header = Header {
        magic: 0x0bd1_0bd0,
        pattern: 1,
        oid: 1,
        seq: 0x2_0000_0401,
        stripe: 1048576,
        generation: 0,
    };
    parents[0] = 1;
    fid::write_fid(&mut parents, 1, file_name());
    wire::put::<u16, Little>(&mut parents, 25, 56);
    let _ = layout_write::write(header, 1, &pool, &slots, &mut parents[ROOM_AT..PARENT_SIZE]);
    parents
}

// Two object rows: an unused one, and C, which may hold data and claims slot 0 of P. A is absent.
fn two_objects() -> [u8; 92] {
    let mut objects = [0u8; 92];
    objects[46] = 1;
    fid::write_fid(&mut objects, 47, object_name(18));
    wire::put::<u32, Little>(&mut objects, 63, 3);
    fid::write_fid(&mut objects, 75, file_name());
    objects
}

fn wide(x: u8) -> u64 {
    x as u64
}

// Which object the slot names, and the used marks of the object rows.
fn show_tables(rt: &impl Print, parents: &[u8; PARENT_SIZE], objects: &[u8; 92]) -> io::Result<()> {
    let named = fid::read_fid(parents, 59);
    print_number(rt, "  slot 0 names ", named.oid as u64)?;
    print_number(rt, "; object rows used: ", wide(objects[0]))?;
    print_number(rt, " ", wide(objects[46]))?;
    print(rt, "\n")
}

// In parts: one step, none, a refused call, two steps, more than are left, and a call at the end.
fn main(rt: HostRuntime) -> io::Result<()> {
    let start = Position {
        stage: 1,
        row: 0,
        part: 0,
    };
    let mut parents = one_file();
    let mut objects = two_objects();
    print(&rt, "In parts:\n")?;
    let first = call(&rt, &mut parents, &mut objects, 3, 1, start)?;
    let second = call(&rt, &mut parents, &mut objects, 3, 0, first)?;
    let third = call(&rt, &mut parents, &mut objects, 4, 9, second)?;
    let fourth = call(&rt, &mut parents, &mut objects, 3, 2, third)?;
    let fifth = call(&rt, &mut parents, &mut objects, 3, 9, fourth)?;
    call(&rt, &mut parents, &mut objects, 3, 9, fifth)?;
    show_tables(&rt, &parents, &objects)?;
    let mut whole_parents = one_file();
    let mut whole_objects = two_objects();
    print(&rt, "Uncut:\n")?;
    call(&rt, &mut whole_parents, &mut whole_objects, 3, 9, start)?;
    show_tables(&rt, &whole_parents, &whole_objects)?;
    if parents == whole_parents && objects == whole_objects {
        print(&rt, "The tables are the same, byte for byte.\n")?;
    }
    Ok(())
}
