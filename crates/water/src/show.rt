// Answers, in words.
use crate::kinds::Fault;
use reach::answer::{Answer, Refusal, Refused, Volumes};
use std::io;
use sums::Water;

fn show_refusal(rt: &impl Print, refusal: Refusal) -> io::Result<()> {
    print!(rt; " refused {}", u32::from(refusal))
}

// The length of a reach and the number of its fault, 0 for none.
pub fn show_reach(rt: &impl Print, n: usize, fault: Option<Fault>) -> io::Result<()> {
    let number = fault.map_or(0, |fault| fault as u32);
    print!(rt; "{n} cells, fault {number}:")
}

pub fn show_made(rt: &impl Print, made: Result<(), Refusal>) -> io::Result<()> {
    match made {
        Ok(()) => print!(rt; " made"),
        Err(refusal) => show_refusal(rt, refusal),
    }
}

// A question and its answer: the water, and how many cells and blocks were read.
pub fn show_between(
    rt: &impl Print,
    a: u32,
    b: u32,
    water: Result<Water, Refusal>,
) -> io::Result<()> {
    print!(rt; "; {a} to {b}")?;
    match water {
        Ok(
            Water {
                depth,
                cells,
                blocks,
            },
        ) => print!(rt; " {depth} by {cells} and {blocks}"),
        Err(refusal) => show_refusal(rt, refusal),
    }
}

pub fn show_step(rt: &impl Print, answer: Answer) -> io::Result<()> {
    print!(rt; "; step")?;
    match answer {
        Ok(Volumes { first, last }) => print!(rt; " accepted {first} {last}"),
        Err(Refused { refusal, place }) => {
            show_refusal(rt, refusal)?;
            print!(rt; " at {place}")
        }
    }
}

// The running sum, at the end of a line.
pub fn show_sum(rt: &impl Print, sum: u64) -> io::Result<()> {
    println!(rt; "; {sum:016x}")
}
