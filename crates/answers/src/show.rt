// An answer and what `next` holds, in one line.
use crate::read::field;
use reach::answer::{Answer, Refused, Volumes};
use std::io;
use std::io::Write;

fn show_answer(rt: &impl Print, answer: Answer) -> io::Result<()> {
    match answer {
        Ok(Volumes { first, last }) => print!(rt; " accepted {first} {last}"),
        Err(Refused { refusal, place }) => {
            print!(rt; " refused {} at {place}", u32::from(refusal))
        }
    }
}

// The numbers of a short table, and the sum of the sizes of those of one too long to be shown.
fn show_next(rt: &impl Print, next: &[i32]) -> io::Result<()> {
    if next.len() < 17 {
        print!(rt; ", next")?;
        for x in next {
            print!(rt; " {x}")?;
        }
        return Ok(());
    }
    let mut sum = 0u64;
    for x in next {
        sum = sum.wrapping_add(u64::from(x.unsigned_abs()));
    }
    print!(rt; ", sum of next {sum}")
}

// The name of a case with its colon, and what came of it.
pub fn line_of(rt: &impl Print, case: &[u8], answer: Answer, next: &[i32]) -> io::Result<()> {
    let n = field(case, 1);
    io::writer(rt).write_all(&case[..n])?;
    show_answer(rt, answer)?;
    show_next(rt, next)?;
    println!(rt; "")
}
