//! A node step by step: taken apart into its public fields and made anew, and interrupted at each step of a guard.

ghost use Rattle.std.specs.Prelude.{◌≡◌, IfOk};
ghost use Rattle.node_model.specs.Nodes.{IsSoundNode};
ghost use Rattle.retos_node.specs.Parts.{parts};
ghost use Rattle.trace_print.specs.Named.{has_name};

use crate::test_support::add_source;
use item_lists::lists::Bytes;
use retos_node::{Node, ObjectList, Show};
use std::alloc::Global;
use std::test::Fail;
use trace_model::records::Record;
use trace_print::text;

/// A line of each step is shown; none is printed here.
const SHOW: Show = Show {
    all: true,
    tail: false,
};

/// A node made of the fields of another one. Where the type has a further field, this doesn't compile.
fn made_anew(node: Node) -> Node
    ensures { result ≡ node }
{
    let owner = node.owner;
    Node {
        mem: node.mem,
        regs: node.regs,
        steps: node.steps,
        owner,
        show: node.show,
        tail: node.tail,
    }
}

/// A node after one more step, if it may make one, and the record of that step.
fn stepped(node: Node, raised: u16, objects: &ObjectList) -> Result<(Node, Record), Fail>
    requires { IsSoundNode (parts node) objects.now }
    ensures { IfOk result (λ x. IsSoundNode (parts x.0) objects.now) }
{
    let mut node = made_anew(node);
    if node.steps >= 10_000_000 {
        return Err(Fail::from("one more step"));
    }
    let record = node.step(raised, None, objects);
    Ok((node, record))
}

/// Whether a record of this entry has a line: it has one where the entry has a name.
fn is_named(entry: u16) -> bool
    ensures { result ≡ has_name entry }
{
    matches!(
        entry,
        0xF004
            | 0xF006
            | 0xF00A
            | 0xF00C
            | 0xF00E
            | 0xF010
            | 0xF012
            | 0xF014
            | 0xF016
            | 0xF018
            | 0xF01A
            | 0xF01C
            | 0xF01E
            | 0xF020
            | 0xF022
            | 0xF026
    )
}

/// Appends a record's line, if it has one.
fn add_line(lines: &mut Bytes, record: &Record) -> Result<(), Fail> {
    if let Record::Entry { entry, .. } = record {
        if !is_named(*entry) {
            return Err(Fail::from("a named entry"));
        }
    }
    Ok(lines.extend_from_slice(text(record).as_slice())?)
}

/// Thread 1 overwrites the return address of thread 0 with the address of a unit of its own code.
const MOVED: &[u8] =
    b".app 32 2\n.entry main\nmain: MOV #evil,R12\nMOV #3,R13\nCALL #0xF00A\nCALL #f\n\
stay: JMP stay\nf: CALL #0xF00C\nRET\nevil: MOV #LO,R6\nMOV #stay2,30(R6)\nCALL #0xF00C\nstay2: JMP stay2\n";

/// Emits 5 and exits.
const EMITS: &[u8] =
    b".app 16 1\n.entry main\nmain: MOV #5,R12\nCALL #0xF024\nCALL #0xF008\nstay: JMP stay\n";

/// The lines of so many steps of a node, which is taken apart and made anew before each.
fn lines_of(alloc: Global, objects: &ObjectList, steps: u32) -> Result<Bytes, Fail> {
    let mut node = Node::boot(alloc, objects, SHOW)?;
    let mut lines = Bytes::new(alloc);
    for _ in 0..steps {
        let (next, record) = stepped(node, 0, objects)?;
        add_line(&mut lines, &record)?;
        node = next;
    }
    Ok(lines)
}

/// The records are those of a model of the node that was written from its description, apart from this program.
#[test]
fn a_node_is_no_more_than_its_fields(rt: HostRuntime) -> Result<(), Fail> {
    let mut objects = ObjectList::new(rt.alloc());
    add_source(rt.alloc(), &mut objects, MOVED)?;
    add_source(rt.alloc(), &mut objects, EMITS)?;
    let lines = lines_of(rt.alloc(), &objects, 60)?;
    let expected =
        "1 a0.t0 6000 403C\n2 a0.t0 6004 403D\n3 a0.t0 6008 4205\n4 a0.t0 600A 9211\n5 a0.t0 600E 2C02\n\
6 a0.t0 6014 4502\n7 a0.t0 6016 12B0 201E:1A 201F:60\n8 a0.t0 entry spawn\n9 a0.t0 601A 4205\n\
10 a0.t0 601C 9211\n11 a0.t0 6020 2C02\n12 a0.t0 6026 4502\n13 a0.t0 6028 12B0 201E:2C 201F:60\n\
14 a0.t0 6030 4205\n15 a0.t0 6032 9211\n16 a0.t0 6036 2C02\n17 a0.t0 603C 4502\n\
18 a0.t0 603E 12B0 201C:42 201D:60\n19 a0.t0 entry yield\n20 a1.t0 6090 403C\n21 a1.t0 6094 4205\n\
22 a1.t0 6096 9211\n23 a1.t0 609A 2C02\n24 a1.t0 60A0 4502\n25 a1.t0 60A2 12B0 204E:A6 204F:60\n\
26 a1.t0 emit 0005\n27 a1.t0 60A6 4205\n28 a1.t0 60A8 9211\n29 a1.t0 60AC 2C02\n30 a1.t0 60B2 4502\n\
31 a1.t0 60B4 12B0 204E:B8 204F:60\n32 a1.t0 exit last\n33 a0.t1 6056 4036\n34 a0.t1 605A 4205\n\
35 a0.t1 605C 4604\n36 a0.t1 605E 5034\n37 a0.t1 6062 9034\n38 a0.t1 6066 2803\n39 a0.t1 6068 9034\n\
40 a0.t1 606C 2802\n41 a0.t1 6072 4502\n42 a0.t1 6074 40B4 201E:8C 201F:60\n43 a0.t1 607A 4205\n\
44 a0.t1 607C 9211\n45 a0.t1 6080 2C02\n46 a0.t1 6086 4502\n47 a0.t1 6088 12B0 203E:8C 203F:60\n\
48 a0.t1 entry yield\n49 a0.t0 6042 4205\n50 a0.t0 6044 9182\n51 a0.t0 6048 2002\n52 a0.t0 604E 4502\n\
53 a0.t0 6050 4134\n54 a0.t0 6052 4030\n55 a0.t0 entry jump\n56 a0.t0 608C 4030\n57 a0.t0 608C 4030\n\
58 a0.t0 608C 4030\n59 a0.t0 608C 4030\n60 a0.t0 608C 4030\n";
    assert_eq!(rt; lines.as_slice(), expected.as_bytes());
    Ok(())
}

/// Stores FFFF at the region's lower end, behind a guard.
const STORES: &[u8] = b".app 16 1\n.entry main\nmain: MOV #LO,R6\nMOV #-1,0(R6)\nstay: JMP stay\n";

/// A node after 13 steps, with line 1 at one of them.
fn interrupted(alloc: Global, objects: &ObjectList, at: u32) -> Result<Node, Fail> {
    let mut node = Node::boot(alloc, objects, SHOW)?;
    for step in 1..14u32 {
        let raised = if step == at { 2 } else { 0 };
        let (next, _) = stepped(node, raised, objects)?;
        node = next;
    }
    Ok(node)
}

/// The interrupt pushes SR and PC in the region's upper four bytes. The flags are C and Z after the comparison with the lower end,
/// N after the one with the upper end, and none again at the store.
#[test]
fn an_interrupt_in_a_guard_leaves_its_four_bytes_alone(rt: HostRuntime) -> Result<(), Fail> {
    let mut objects = ObjectList::new(rt.alloc());
    add_source(rt.alloc(), &mut objects, STORES)?;
    let rows: [(u32, u16, u16); 9] = [
        (2, 0x0008, 0x6004),
        (3, 0x0008, 0x6006),
        (4, 0x0008, 0x6008),
        (5, 0x0008, 0x600C),
        (6, 0x000B, 0x6010),
        (7, 0x000B, 0x6012),
        (8, 0x000C, 0x6016),
        (9, 0x000C, 0x601C),
        (10, 0x0008, 0x601E),
    ];
    for (at, flags, pc) in rows {
        let node = interrupted(rt.alloc(), &objects, at)?;
        let words = [0xFFFF, 0, 0, 0, 0, 0, flags, pc];
        for (place, word) in words.iter().enumerate() {
            let address = 0x2000 + 2 * place as u16;
            let found = node.mem.word(address);
            assert_eq!(rt; found, *word, "{address} with the line at {at}");
        }
    }
    Ok(())
}
