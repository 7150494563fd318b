// A line for each case: the test's number in the book, the case and what it answers.
use std::io;

pub fn line(rt: &impl Print, test: u64, case: &str, answer: u64) -> io::Result<()> {
    println!(rt; "test={test} case={case} answer={answer}")
}
