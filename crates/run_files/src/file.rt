//! What an order file has.
use std::marker::Model;
use vax_form::Pick;

/// A run's input, how many instructions each thread retired and whether it ended Spent, and the order of references,
/// oldest first.
#[derive(Debug, Drop)]
pub struct OrderFile {
    pub input: Vec<u8>,
    pub counts: Vec<u64>,
    pub spent: Vec<bool>,
    pub picks: Vec<Pick>,
}

impl Model for OrderFile {
    ghost use Rattle.run_files.specs.Values.{OrderValue};

    ghost Value = { OrderValue };

    ghost view = { λ f. record { input = f.input.items; counts = f.counts.items; spent = f.spent.items; picks = f.picks.items } };
}
