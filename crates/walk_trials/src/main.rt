// The loop counter walked along each of its paths, and its second table beside it; the printed lines are compared with the stored output.
// (The host's handle is lent to each call.)
#![tactic(auto)]

ghost use Rattle.std.specs.Prelude.{◌+◌, ◌<◌, ◌≤◌};
ghost use Rattle.workspace.specs.Layout.{slot_count};

use domain::word::Word;
use forms::Term;
use machine::accepted::{State, Table};
use samples::{COUNTER, test_name, zero_terms};
use std::io;
use walk::fault::WalkFault;
use walk::known::{KnownTests, none_known};
use walk::order::check_order;
use walk::outputs::Outputs;
use walk::path::{follow, follow_settled};
use walk::side::Side;
use workspace::layout::{
    FIRST_OUTPUTS, FIRST_REGISTERS, KNOWN, ROOM, SECOND_OUTPUTS, SECOND_REGISTERS,
};
use workspace::{Group, Slots};

// The loop counter with 3 stored in register 1 before the loop
const SECOND: [u32; 31] = [
    0x00020301, 0x30000000, 0x10000000, 0x60000001, 0x10000009, 0x80000000, 0x90000000, 0x10000000,
    0x70000000, 0x10000003, 0x70000001, 0x10000000, 0x70000002, 0x90000001, 0x30000000, 0x20000002,
    0x60000001, 0x20000000, 0x20000001, 0x50000000, 0x80000000, 0x90000000, 0x20000000, 0x20000002,
    0x50000000, 0x70000000, 0x20000002, 0x10000001, 0x50000000, 0x70000002, 0x90000001,
];

const FIRST_SIDE: Side = Side {
    registers: Group {
        first: FIRST_REGISTERS,
        count: 3,
    },
    outputs: FIRST_OUTPUTS,
};

const SECOND_SIDE: Side = Side {
    registers: Group {
        first: SECOND_REGISTERS,
        count: 3,
    },
    outputs: SECOND_OUTPUTS,
};

// A path of one step, from a state.
// (A turn is a bool: yes or no is the value itself.)
#[derive(Clone, Copy)]
struct Way {
    state: u32,
    turn: bool,
}

// Symbols 0 and 2 in registers 0 and 2; register 1 has symbol 1 in state 0, and 3 elsewhere.
fn begin(slots: &mut Slots<'_, Word>, first: usize, state: u32)
    requires { first + 3 ≤ slot_count }
{
    slots.variable(1, first);
    if state == 0 {
        slots.variable(2, first + 1);
    } else {
        slots.constant(3, first + 1);
    }
    slots.variable(3, first + 2);
}

fn print_term(rt: &HostRuntime, term: Term<Word>) -> io::Result<()> {
    let (monomial, coefficient) = (term.monomial.0, term.coefficient.bits);
    println!(rt; "    {monomial:08x}: {coefficient}")
}

fn print_form(rt: &HostRuntime, slots: &Slots<'_, Word>, what: &str, k: usize) -> io::Result<()>
    requires { k < slot_count }
{
    println!(rt; "  {what} {k}")?;
    let count = slots.lens.of[k] as usize;
    for term in &slots.row[16 * k..16 * k + count] {
        print_term(rt, *term)?;
    }
    Ok(())
}

// The forms of a side: registers, then outputs.
// (Registers by number: their slots stand one behind the other.)
fn print_side(rt: &HostRuntime, slots: &Slots<'_, Word>, outputs: &Outputs) -> io::Result<()> {
    for r in 0..3 {
        print_form(rt, slots, "register slot", FIRST_REGISTERS + r)?;
    }
    for (j, port) in outputs.as_slice().iter().enumerate() {
        println!(rt; "  port {port}")?;
        print_form(rt, slots, "output slot", FIRST_OUTPUTS + j)?;
    }
    Ok(())
}

fn print_known(rt: &HostRuntime, slots: &Slots<'_, Word>, known: &KnownTests) -> io::Result<()> {
    for (j, noted) in known.as_slice().iter().enumerate() {
        let says = noted.says;
        let name = test_name(noted.test);
        println!(rt; "  known: {name}, {says}")?;
        print_form(rt, slots, "left slot", KNOWN + 2 * j)?;
        print_form(rt, slots, "right slot", KNOWN + 2 * j + 1)?;
    }
    Ok(())
}

// The second table's path beside the first's.
fn print_second(
    rt: &HostRuntime,
    slots: &mut Slots<'_, Word>,
    known: &KnownTests,
    way: Way,
) -> io::Result<()> {
    let Ok(table) = Table::read(&SECOND) else {
        return println!(rt; "  second: no table");
    };
    let Some(start) = table.state(way.state) else {
        return println!(rt; "  second: not walked");
    };
    begin(slots, SECOND_REGISTERS, way.state);
    let mut outputs = Outputs::empty(0);
    match follow_settled(slots, SECOND_SIDE, start, &[way.turn], known, &mut outputs) {
        Ok(State { number, .. }) => println!(rt; "  second: settled, state {number}"),
        Err(WalkFault::Unsettled(step)) => println!(rt; "  second: not settled at step {step}"),
        Err(WalkFault::OverLimits) => println!(rt; "  second: over the limits"),
    }
}

// The first table's path, and both turns of the second beside it.
fn print_first(rt: &HostRuntime, row: &mut [Term<Word>], way: Way) -> io::Result<()> {
    let (start, turn) = (way.state, way.turn);
    println!(rt; "state {start}, turn {turn}")?;
    let Ok(table) = Table::read(&COUNTER) else {
        return println!(rt; "  no table");
    };
    let Some(from) = table.state(start) else {
        return println!(rt; "  not walked");
    };
    if row.len() < ROOM {
        return println!(rt; "  not walked");
    }
    if check_order(from, &[turn]).is_err() {
        return println!(rt; "  impossible");
    }
    let mut slots = Slots::empty(row);
    begin(&mut slots, FIRST_REGISTERS, start);
    let mut known = none_known();
    let mut outputs = Outputs::empty(0);
    match follow(
        &mut slots,
        FIRST_SIDE,
        from,
        &[turn],
        &mut known,
        &mut outputs,
    ) {
        Ok(State { number, .. }) => println!(rt; "  to state {number}")?,
        Err(_) => return println!(rt; "  over the limits"),
    }
    print_side(rt, &slots, &outputs)?;
    print_known(rt, &slots, &known)?;
    for turn in [true, false] {
        print_second(rt, &mut slots, &known, Way { state: start, turn })?;
    }
    Ok(())
}

// From each state by its number.
fn run(rt: &HostRuntime) -> anyhow::Result<()> {
    let mut row = zero_terms(rt.alloc(), ROOM)?;
    for state in 0..2 {
        for turn in [true, false] {
            print_first(rt, row.as_mut_slice(), Way { state, turn })?;
        }
    }
    Ok(())
}

fn main(rt: HostRuntime) -> anyhow::Result<()> {
    run(&rt)
}
