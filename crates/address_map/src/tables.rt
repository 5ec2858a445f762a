//! What stands beside a number in a rising list, found at one look.
ghost use Rattle.std.specs.Prelude.{◌≡◌, ◌<◌, ◌≤◌, ◌+◌, ◌-◌, ◌*◌, ◌/◌, ◌^◌, ◌++◌, ◌∷◌, [], ℕ, None, length, take, replicate, slice_index, List, IfOk, OnOk};
ghost use Rattle.address_map.specs.Pairs.{Pair, word_at};
ghost use Rattle.address_map.specs.Tables.{first_page, end_page, page_span, tables, opened, HasTables, AreTablesOf};
ghost use Rattle.rising_lists.specs.Rising.{KeysRise};

use std::alloc::Global;
use std::marker::Model;
use vax_form::WantOfMemory;

/// The numbers of a page.
pub const PAGE: usize = 512;

/// An upper word for each page from the lowest number's to the highest's, and a lower table for each page that has a
/// number. An upper word is 0 where its page has none, else one more than the number of its lower table.
#[derive(Debug, Drop)]
pub struct Tables {
    first: u32,
    upper: Vec<u32>,
    lower: Vec<Option<u32>>,
}

impl Model for Tables {
    ghost use Rattle.address_map.specs.Tables.{TablesValue};

    ghost Value = { TablesValue };

    ghost view = { λ t. record { first = t.first; upper = t.upper.items; lower = t.lower.items } };
}

impl Tables {
    /// The tables of pairs that rise in their first number.
    pub fn new(alloc: Global, pairs: &[(u32, u32)]) -> Result<Tables, WantOfMemory>
        requires { KeysRise (λ (p : Pair). p.0) pairs.now }
        ensures { IfOk result (λ tables. AreTablesOf tables pairs.now) }
    {
        let first = first_page(pairs);
        let mut upper = vec![in alloc; 0; page_span(pairs)]?;
        let mut lower = Vec::new(alloc);
        for place in 0..pairs.len() {
            enter(first, &mut upper, &mut lower, pairs, place)?;
        }
        Ok(Tables {
            first,
            upper,
            lower,
        })
    }

    /// What stands beside the number.
    pub fn find(&self, number: u32) -> Option<u32>
        ensures { (pairs : List Pair) → AreTablesOf self.now pairs → result ≡ word_at pairs number }
    {
        found_in(self.first, &self.upper, &self.lower, number)
    }

    /// The page of the first upper word.
    pub fn first_page(&self) -> u32
        ensures { result ≡ self.now.first }
    {
        self.first
    }

    /// The upper words.
    pub fn upper(&self) -> &[u32]
        ensures { result.now ≡ self.now.upper }
    {
        self.upper.as_slice()
    }

    /// The lower tables, one behind the other.
    pub fn lower(&self) -> &[Option<u32>]
        ensures { result.now ≡ self.now.lower }
    {
        self.lower.as_slice()
    }
}

// Enters the pair at the place, behind those before it.
fn enter(
    first: u32,
    upper: &mut [u32],
    lower: &mut Vec<Option<u32>>,
    pairs: &[(u32, u32)],
    place: usize,
) -> Result<(), WantOfMemory>
    requires within { place < length pairs.now }
    requires rise { KeysRise (λ (p : Pair). p.0) pairs.now }
    requires first { first ≡ first_page pairs.now }
    requires span { length upper.old ≡ page_span pairs.now }
    requires low { first + length upper.old ≤ 2 ^ 23 }
    requires before { HasTables (tables first upper.old lower.old.items) (take place pairs.now) }
    ensures { OnOk result (HasTables (tables first upper.new lower.new.items) (take (place + 1) pairs.now)) }
{
    let (number, value) = pairs[place];
    let table = table_for(upper, lower, (number / PAGE as u32 - first) as usize)?;
    lower[PAGE * table + number as usize % PAGE] = Some(value);
    Ok(())
}

// The number of the page's lower table, which is added where there is none.
fn table_for(
    upper: &mut [u32],
    lower: &mut Vec<Option<u32>>,
    page: usize,
) -> Result<usize, WantOfMemory>
    requires within { page < length upper.old }
    requires few { length lower.old.items ≤ 2 ^ 32 }
    ensures upper { OnOk result (upper.new ≡ (opened page upper.old lower.old.items).0) }
    ensures lower { OnOk result (lower.new.items ≡ (opened page upper.old lower.old.items).1) }
    ensures table { IfOk result (λ table. table ≡ slice_index upper.new page - 1) }
{
    if upper[page] == 0 {
        let end = lower.len();
        lower.resize(end + PAGE, None)?;
        upper[page] = (end / PAGE) as u32 + 1;
    }
    Ok(upper[page] as usize - 1)
}

fn found_in(first: u32, upper: &[u32], lower: &[Option<u32>], number: u32) -> Option<u32>
    ensures { (pairs : List Pair) → AreTablesOf (tables first upper.now lower.now) pairs → result ≡ word_at pairs number }
{
    let page = number / PAGE as u32;
    if page < first {
        return None;
    }
    let place = (page - first) as usize;
    if place >= upper.len() || upper[place] == 0 {
        return None;
    }
    let table = upper[place] as usize - 1;
    match lower.get(PAGE * table + number as usize % PAGE) {
        Some(value) => *value,
        None => None,
    }
}

fn first_page(pairs: &[(u32, u32)]) -> u32
    ensures { result ≡ first_page pairs.now }
{
    match pairs.first() {
        Some(pair) => pair.0 / PAGE as u32,
        None => 0,
    }
}

fn end_page(pairs: &[(u32, u32)]) -> u32
    ensures value { result ≡ end_page pairs.now }
    ensures low { result ≤ 2 ^ 23 }
{
    match pairs.len() {
        0 => 0,
        len => pairs[len - 1].0 / PAGE as u32 + 1,
    }
}

fn page_span(pairs: &[(u32, u32)]) -> usize
    requires { KeysRise (λ (p : Pair). p.0) pairs.now }
    ensures value { result ≡ page_span pairs.now }
    ensures low { first_page pairs.now + result ≤ 2 ^ 23 }
{
    (end_page(pairs) - first_page(pairs)) as usize
}
