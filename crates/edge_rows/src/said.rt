// Questions about lines: those of threads, of refused files, and of generated images.
use crate::texts::{parted, text_behind, text_of};
use anyhow::{Context, Result, bail, ensure};
use report_text::{
    MOST_GROUPS, MOST_NUMBERS, Offered, Subject, generated_bytes, generated_lines, offer,
    refused_line, report,
};
use row_tally::{Given, five_fields, longword, number, pairs, pieces, three_fields, two_fields};
use std::alloc::Global;
use vax_driven::End;
use vax_form::{Exception, Pending, VaxState};
use vt_outside::MemorySink;

/// The longest text that a sink of a question takes.
const SINK_ROOM: usize = 512;

/// How a thread ended, its shown state, and its count of retired instructions.
type Processor = (End, VaxState, u64);

fn access_violation(address: u32, write: bool) -> Exception {
    Exception::AccessViolation { address, write }
}

fn trap_of(number: u32) -> Result<Exception> {
    Ok(Exception::Arithmetic(u8::try_from(number)?))
}

fn exception_of(word: &str, number: u32) -> Result<Exception> {
    match word {
        "reserved-instruction" => Ok(Exception::ReservedInstruction),
        "reserved-operand" => Ok(Exception::ReservedOperand),
        "reserved-mode" => Ok(Exception::ReservedMode),
        "breakpoint" => Ok(Exception::Breakpoint),
        "read" => Ok(access_violation(number, false)),
        "write" => Ok(access_violation(number, true)),
        "trap" => trap_of(number),
        _ => bail!("no end"),
    }
}

/// An end is a word, with a number behind `=` where it has one.
fn end_of(text: &str) -> Result<End> {
    let (word, argument) = text.split_once('=').unwrap_or((text, "0"));
    let number = longword(argument)?;
    match word {
        "exit" => Ok(End::Exit(number)),
        "spent" => Ok(End::Spent),
        _ => Ok(End::Raised(exception_of(word, number)?)),
    }
}

fn set_registers(registers: &mut [u32; 15], values: &[(u32, u32)]) -> Result<()> {
    for (number, value) in values {
        *registers.get_mut(*number as usize).context("a register")? = *value;
    }
    Ok(())
}

/// The registers that are not 0 are NUMBER=VALUE with commas between.
fn registers_of(alloc: Global, text: &str) -> Result<[u32; 15]> {
    let mut registers = [0; 15];
    set_registers(&mut registers, &pairs(alloc, text)?)?;
    Ok(registers)
}

fn state_of(alloc: Global, pc: &str, psw: &str, registers: &str) -> Result<VaxState> {
    Ok(VaxState {
        r: registers_of(alloc, registers)?,
        pc: longword(pc)?,
        psw: u16::try_from(longword(psw)?)?,
        handler: 0,
        pending: Pending::Nothing,
    })
}

/// Reads END PC PSW REGISTERS RETIRED.
fn processor_of(alloc: Global, text: &str) -> Result<Processor> {
    let (end, pc, psw, registers, retired) = five_fields(text)?;
    let (end, retired) = (end_of(end)?, number(retired)?);
    Ok((end, state_of(alloc, pc, psw, registers)?, retired))
}

fn push_processors(alloc: Global, processors: &mut Vec<Processor>, threads: &str) -> Result<()> {
    for thread in threads.split("; ") {
        processors.push(processor_of(alloc, thread)?)?;
    }
    Ok(())
}

fn report_text(alloc: Global, processors: &[Processor]) -> Result<String> {
    match report(alloc, processors) {
        Ok(lines) => text_of(alloc, &lines),
        Err(_) => bail!("no memory"),
    }
}

/// Answers `report THREAD; THREAD ..`.
fn report_answer(alloc: Global, threads: &str) -> Result<String> {
    let mut processors = Vec::new(alloc);
    push_processors(alloc, &mut processors, threads)?;
    report_text(alloc, &processors)
}

fn push_numbers(numbers: &mut Vec<u64>, pieces: &[&str]) -> Result<()> {
    for piece in pieces {
        numbers.push(number(piece)?)?;
    }
    Ok(())
}

fn numbers(alloc: Global, text: &str) -> Result<Vec<u64>> {
    let mut numbers = Vec::new(alloc);
    push_numbers(&mut numbers, &pieces(alloc, text)?)?;
    Ok(numbers)
}

/// A sink that takes at most so many bytes a call, and fails at these calls.
fn sink_of(alloc: Global, most: u32, fails: &str) -> Result<MemorySink> {
    ensure!(most >= 1, "no bytes a call");
    let room = Vec::with_capacity(alloc, SINK_ROOM)?;
    Ok(MemorySink::slow(room, numbers(alloc, fails)?, most as usize))
}

/// What the sink answers to a thread's line.
fn offered(sink: &mut MemorySink, thread: u8, processor: &Processor) -> &'static str {
    let (end, state, retired) = processor;
    match offer(thread, *end, state, *retired, sink) {
        Offered::Written => "written ",
        Offered::Failed => "failed ",
    }
}

/// Offers the line that NUMBER THREAD spells.
fn offer_thread(alloc: Global, sink: &mut MemorySink, rest: &str) -> Result<&'static str> {
    let (thread, rest) = parted(rest, ' ')?;
    let thread = u8::try_from(longword(thread)?)?;
    Ok(offered(sink, thread, &processor_of(alloc, rest)?))
}

/// Answers `offer MOST FAILS NUMBER THREAD` by what the sink answers, and what it has taken.
fn offer_answer(alloc: Global, rest: &str) -> Result<String> {
    let (most, rest) = parted(rest, ' ')?;
    let (fails, rest) = parted(rest, ' ')?;
    let mut sink = sink_of(alloc, longword(most)?, fails)?;
    let answer = offer_thread(alloc, &mut sink, rest)?;
    text_behind(alloc, answer, sink.bytes())
}

fn subject_of(word: &str) -> Result<Subject> {
    match word {
        "image" => Ok(Subject::Image),
        "translated" => Ok(Subject::Translated),
        "flow" => Ok(Subject::Flow),
        "order" => Ok(Subject::Order),
        "hints" => Ok(Subject::Hints),
        "live" => Ok(Subject::Live),
        _ => bail!("no subject"),
    }
}

fn refused_text(alloc: Global, subject: Subject, told: &[u64]) -> Result<String> {
    ensure!(told.len() <= MOST_NUMBERS, "too many numbers");
    text_of(alloc, refused_line(subject, told).as_slice())
}

/// Answers `refused SUBJECT NUMBERS`.
fn refused_answer(alloc: Global, rest: &str) -> Result<String> {
    let (subject, told) = two_fields(rest)?;
    refused_text(alloc, subject_of(subject)?, &numbers(alloc, told)?)
}

/// Answers `generated NUMBER MAPPED MEMORY`, with the bytes of the file that the number says.
fn generated_answer(alloc: Global, rest: &str) -> Result<String> {
    let (image, mapped, memory) = three_fields(rest)?;
    let (image, mapped, memory) = (longword(image)?, number(mapped)?, longword(memory)?);
    ensure!(image <= MOST_GROUPS, "no generated image");
    let line = generated_lines(image, generated_bytes(image), mapped, memory);
    text_of(alloc, line.as_slice())
}

/// Answers a question by its first word.
pub fn answer(alloc: Global, _given: &Given<'_>, question: &str) -> Result<String> {
    let (kind, rest) = parted(question, ' ')?;
    match kind {
        "report" => report_answer(alloc, rest),
        "offer" => offer_answer(alloc, rest),
        "refused" => refused_answer(alloc, rest),
        "generated" => generated_answer(alloc, rest),
        _ => bail!("no question"),
    }
}
