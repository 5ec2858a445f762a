// Ways through the rows of a file: each row is checked by itself, or asks a question whose answer is text.
use crate::reading::is_row;
use crate::{Families, Tally};
use anyhow::{Context, Result};
use std::alloc::Global;
use std::fmt::Debug;
use std::fs::{self, Files};

fn check_each<R: Print + AllocGlobal, F: Fn(&R, &mut Tally, &str) -> Result<()>>(
    rt: &R,
    table: &str,
    check: F,
) -> Result<Tally>
    requires { F.IsAlwaysCallable check }
{
    let mut tally = Tally::NONE;
    for row in table.lines().filter(|line| is_row(line)) {
        check(rt, &mut tally, row)?;
    }
    Ok(tally)
}

/// Checks each row of a file, and prints under the name how many agree.
pub fn check_rows<R: Files + Print + AllocGlobal, F: Fn(&R, &mut Tally, &str) -> Result<()>>(
    rt: &R,
    name: &str,
    file: &str,
    check: F,
) -> Result<Tally>
    requires { F.IsAlwaysCallable check }
{
    let table = fs::read_to_string(rt, file).context(file)?;
    let tally = check_each(rt, table.as_str(), check)?;
    tally.print(rt, name)?;
    Ok(tally)
}

/// Checks cases, each with what was found and what is wanted, and prints under the name how many agree.
pub fn check_cases<T: PartialEq + Debug>(
    rt: &impl Print,
    name: &str,
    cases: &[(&str, T, T)],
) -> Result<Tally> {
    let mut tally = Tally::NONE;
    for (case, found, wanted) in cases {
        tally.check(rt, case, found, wanted)?;
    }
    tally.print(rt, name)?;
    Ok(tally)
}

/// What the rows before a question give it: the texts of the last row `sample` and of the last row `beside`.
#[derive(Clone, Copy)]
pub struct Given<'a> {
    pub sample: &'a str,
    pub beside: &'a str,
}

/// Whether the answer to the question of a row is the row's; another is printed.
fn agrees<R: Print + AllocGlobal, F: Fn(Global, &Given<'_>, &str) -> Result<String>>(
    rt: &R,
    given: &Given<'_>,
    row: &str,
    answer: &F,
) -> Result<bool>
    requires { F.IsAlwaysCallable answer.now }
{
    let (question, wanted) = row.split_once(": ").context("an answer")?;
    let found = answer(rt.alloc(), given, question).context(format_args!("{question}"))?;
    let agrees = found.as_str() == wanted;
    if !agrees {
        println!(rt; "{question}: it is {found}, not {wanted}")?;
    }
    Ok(agrees)
}

fn ask_each<R: Print + AllocGlobal, F: Fn(Global, &Given<'_>, &str) -> Result<String>>(
    rt: &R,
    table: &str,
    answer: F,
) -> Result<Tally>
    requires { F.IsAlwaysCallable answer }
{
    let mut families = Families::NONE;
    let mut given = Given {
        sample: "",
        beside: "",
    };
    for row in table.lines().filter(|line| is_row(line)) {
        if let Some(name) = row.strip_prefix("family ") {
            families.begin(rt, name)?;
        } else if let Some(text) = row.strip_prefix("sample ") {
            given.sample = text;
        } else if let Some(text) = row.strip_prefix("beside ") {
            given.beside = text;
        } else {
            families.count(agrees(rt, &given, row, &answer)?);
        }
    }
    families.begin(rt, "")?;
    Ok(families.before)
}

/// Asks the questions of a file, each behind a colon with its answer, and prints for each family how many agree.
pub fn ask_rows<R: Files + Print + AllocGlobal, F: Fn(Global, &Given<'_>, &str) -> Result<String>>(
    rt: &R,
    file: &str,
    answer: F,
) -> Result<Tally>
    requires { F.IsAlwaysCallable answer }
{
    let table = fs::read_to_string(rt, file).context(file)?;
    ask_each(rt, table.as_str(), answer)
}
