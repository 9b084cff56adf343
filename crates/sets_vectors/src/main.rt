// Prints what the set operations and the solver give on chosen inputs, one to a line: what was asked, and the answer. Where to print goes beside what is
// printed, which is another thing each time, and an order beside the edges that it goes over.
#![tactic(auto)]

use solver::Order;
use std::fmt::Display;
use std::io;

// Prints the label, the number and a line feed.
fn number(rt: &impl Print, label: &[u8], n: impl Display + Drop) -> io::Result<()> {
    rt.write_all(label)?;
    println!(rt; "{n}")
}

// Prints the label, 1 or 0, and a line feed.
fn truth(rt: &impl Print, label: &[u8], b: bool) -> io::Result<()> {
    number(rt, label, u8::from(b))
}

// Prints the label, the element or the word nothing, and a line feed.
fn which(rt: &impl Print, label: &[u8], w: Option<usize>) -> io::Result<()> {
    match w {
        Some(i) => number(rt, label, i),
        None => {
            rt.write_all(label)?;
            rt.write_all(b"nothing\n")
        }
    }
}

// Prints a space and the number.
fn spaced(rt: &impl Print, n: u64) -> io::Result<()> {
    print!(rt; " {n}")
}

// Prints a line feed.
fn line_end(rt: &impl Print) -> io::Result<()> {
    rt.write_all(b"\n")
}

// Prints the label, each number after a space, and a line feed.
fn list(rt: &impl Print, label: &[u8], s: &[u64]) -> io::Result<()> {
    rt.write_all(label)?;
    for n in s {
        spaced(rt, *n)?;
    }
    line_end(rt)
}

fn membership(rt: &impl Print) -> io::Result<()> {
    truth(rt, b"has 1 0: ", sets::has(1, 0))?;
    truth(rt, b"has 2^63 63: ", sets::has(1 << 63, 63))?;
    truth(rt, b"has 2^63 62: ", sets::has(1 << 63, 62))?;
    truth(rt, b"has all 64: ", sets::has(u64::MAX, 64))?;
    number(rt, b"empty: ", sets::empty())
}

fn first_elements(rt: &impl Print) -> io::Result<()> {
    number(rt, b"firsts 0: ", sets::firsts(0))?;
    number(rt, b"firsts 1: ", sets::firsts(1))?;
    number(rt, b"firsts 63: ", sets::firsts(63))?;
    number(rt, b"firsts 64: ", sets::firsts(64))?;
    number(rt, b"firsts 65: ", sets::firsts(65))
}

fn single_elements(rt: &impl Print) -> io::Result<()> {
    number(rt, b"one 0: ", sets::one(0))?;
    number(rt, b"one 63: ", sets::one(63))?;
    number(rt, b"one 64: ", sets::one(64))?;
    number(rt, b"with 5 1: ", sets::with_element(5, 1))?;
    number(rt, b"with 5 0: ", sets::with_element(5, 0))?;
    number(rt, b"with 5 64: ", sets::with_element(5, 64))
}

fn operations(rt: &impl Print) -> io::Result<()> {
    number(rt, b"union 12 10: ", sets::union(12, 10))?;
    number(rt, b"intersection 12 10: ", sets::intersection(12, 10))?;
    number(rt, b"difference 12 10: ", sets::difference(12, 10))?;
    number(rt, b"difference 10 12: ", sets::difference(10, 12))
}

fn inclusions(rt: &impl Print) -> io::Result<()> {
    truth(rt, b"subset 8 12: ", sets::subset(8, 12))?;
    truth(rt, b"subset 12 8: ", sets::subset(12, 8))?;
    truth(rt, b"subset 0 0: ", sets::subset(0, 0))?;
    truth(rt, b"is_empty 0: ", sets::is_empty(0))?;
    truth(rt, b"is_empty 1: ", sets::is_empty(1))
}

fn counts(rt: &impl Print) -> io::Result<()> {
    number(rt, b"count 0: ", sets::count(0))?;
    number(rt, b"count 2^63: ", sets::count(1 << 63))?;
    number(rt, b"count all: ", sets::count(u64::MAX))?;
    truth(rt, b"is_single 0: ", sets::is_single(0))?;
    truth(rt, b"is_single 4: ", sets::is_single(4))?;
    truth(rt, b"is_single 6: ", sets::is_single(6))
}

fn found(rt: &impl Print) -> io::Result<()> {
    which(rt, b"only 0: ", sets::only(0))?;
    which(rt, b"only 4: ", sets::only(4))?;
    which(rt, b"only 6: ", sets::only(6))?;
    which(rt, b"only 2^63: ", sets::only(1 << 63))?;
    which(rt, b"lowest 0: ", sets::lowest(0))?;
    which(rt, b"lowest 12: ", sets::lowest(12))
}

// Solves the sets, and prints the label and what they have become.
fn solved(
    rt: &impl Print,
    label: &[u8],
    s: &mut [u64],
    edges: &[u32],
    order: Order,
) -> io::Result<()> {
    solver::solve_plain(s, edges, order);
    list(rt, label, s)
}

fn no_edges(rt: &impl Print, order: Order) -> io::Result<()> {
    let mut s = [1u64, 2, 4];
    let edges = [0u32; 0];
    solved(rt, b"no edges:", &mut s, &edges, order)
}

// Four places with one element each, by these edges.
fn four_places(rt: &impl Print, label: &[u8], edges: &[u32], order: Order) -> io::Result<()> {
    let mut s = [1u64, 2, 4, 8];
    solved(rt, label, &mut s, edges, order)
}

fn cycle_and_chains(rt: &impl Print, order: Order) -> io::Result<()> {
    // 0 to 1, 1 to 2, 2 to 0
    four_places(rt, b"a cycle:", &[1, 65538, 131072], order)?;
    // 2 to 3, 1 to 2, 0 to 1
    four_places(rt, b"a chain listed backwards:", &[131075, 65538, 1], order)?;
    // 0 to 1, 1 to 2, 2 to 3
    four_places(rt, b"a chain listed forwards:", &[1, 65538, 131075], order)
}

fn to_itself(rt: &impl Print, order: Order) -> io::Result<()> {
    let mut s = [1u64, 2];
    // 1 to 1
    let edges = [65537u32];
    solved(rt, b"an edge to itself:", &mut s, &edges, order)
}

fn past_the_end(rt: &impl Print, order: Order) -> io::Result<()> {
    let mut s = [1u64, 2];
    // 5 to 0, 0 to 5, 0 to 1
    let edges = [327680u32, 5, 1];
    solved(rt, b"edges past the end:", &mut s, &edges, order)
}

fn into_one(rt: &impl Print, order: Order) -> io::Result<()> {
    let mut s = [1u64, 2, 0];
    // 0 to 2, 1 to 2
    let edges = [2u32, 65538];
    solved(rt, b"two edges into one place:", &mut s, &edges, order)
}

fn solver(rt: &impl Print, order: Order) -> io::Result<()> {
    no_edges(rt, order)?;
    cycle_and_chains(rt, order)?;
    to_itself(rt, order)?;
    past_the_end(rt, order)?;
    into_one(rt, order)
}

fn main(rt: HostRuntime) -> io::Result<()> {
    membership(&rt)?;
    first_elements(&rt)?;
    single_elements(&rt)?;
    operations(&rt)?;
    inclusions(&rt)?;
    counts(&rt)?;
    found(&rt)?;
    rt.write_all(b"from the first edge to the last\n")?;
    solver(&rt, Order::FirstToLast)?;
    rt.write_all(b"from the last edge to the first\n")?;
    solver(&rt, Order::LastToFirst)
}
