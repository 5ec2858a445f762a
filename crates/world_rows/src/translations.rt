// What translations have: the rules of condition codes at the mapped addresses.
use crate::images::code_alone;
use crate::programs::translated;
use crate::report::Report;
use anyhow::{Result, ensure};
use exception_records::{CodeRule, Points, Rules};
use row_tally::{Given, bytes};
use std::alloc::{AllocError, Global};
use system_model::Translation;
use translate::Target;
use vax_form::Size;

/// The translation of a code for a target.
fn translation_of(alloc: Global, question: &str, target: Target) -> Result<Translation> {
    let code = bytes(alloc, question)?;
    let image = code_alone(alloc, &code)?;
    translated(alloc, &image, target)
}

fn size_text(size: Size) -> &'static str {
    match size {
        Size::Byte => "byte",
        Size::Word => "word",
        Size::Long => "long",
        Size::Quad => "quad",
    }
}

fn put_sized(report: &mut Report, rule: &str, size: Size) {
    report.put(rule);
    report.put(size_text(size));
}

fn put_rule(report: &mut Report, rule: CodeRule) {
    match rule {
        CodeRule::Ready => report.put(" ready"),
        CodeRule::Zero => report.put(" zero"),
        CodeRule::Result { size } => put_sized(report, " result-", size),
        CodeRule::Add { size } => put_sized(report, " add-", size),
        CodeRule::Sub { size } => put_sized(report, " sub-", size),
        CodeRule::Compare { size } => put_sized(report, " compare-", size),
    }
}

/// The rules of N, Z, V and C, each behind a space.
fn put_rules(report: &mut Report, rules: Rules) {
    put_rule(report, rules.n);
    put_rule(report, rules.z);
    put_rule(report, rules.v);
    put_rule(report, rules.c);
}

/// The rules at an address, whose block begins at a word.
fn put_rules_at(report: &mut Report, points: &Points, address: u32, word: u32) {
    report.digits(address);
    match points.find(word) {
        Some(point) => put_rules(report, point.rules),
        None => report.put(" no point"),
    }
}

fn rules_text(alloc: Global, translation: &Translation) -> Result<String, AllocError> {
    let mut report = Report::new(alloc);
    for (place, (address, word)) in translation.map.pairs().iter().enumerate() {
        if place > 0 {
            report.put("; ");
        }
        put_rules_at(&mut report, &translation.points, *address, *word);
    }
    report.end()
}

fn rules_for(alloc: Global, question: &str, target: Target) -> Result<String> {
    let translation = translation_of(alloc, question, target)?;
    Ok(rules_text(alloc, &translation)?)
}

/// The rules of N, Z, V and C at each mapped address of a code, which are the same for both targets.
pub fn rules(alloc: Global, _given: &Given<'_>, question: &str) -> Result<String> {
    let rules = rules_for(alloc, question, Target::Original)?;
    let other = rules_for(alloc, question, Target::ByteWord)?;
    ensure!(
        other.as_str() == rules.as_str(),
        "other rules for the byte-word extension"
    );
    Ok(rules)
}
