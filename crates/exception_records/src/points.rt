// Points: what a word of Alpha code tells of its VAX instruction.
ghost use Rattle.std.specs.Prelude.{◌≡◌, IfErr, IfOk, OnOk};

use crate::rules::Rules;
use rising_lists::numbers_told;
use std::alloc::Global;
use std::marker::Model;
use vax_form::{Exception, WantOfMemory};

/// What is known of a word: the first of a block, or one that calls the PALcode.
#[derive(Clone, Copy, Debug, PartialEq, Eq)]
pub struct Point {
    /// The address of the instruction.
    pub vax_pc: u32,
    /// 1 where the instruction is done at this word, as at a trap; else 0.
    pub done: u8,
    /// How many bytes a probe checks.
    pub count: u8,
    /// Whether it checks them for writing.
    pub write: bool,
    /// The vector offset of the exception that the word raises; 0 where it raises none.
    pub raises: u8,
    /// At the boundary before the instruction, or behind it where it is done.
    pub rules: Rules,
}

impl Point {
    ghost use Rattle.exception_records.specs.Points.{raised_at};

    /// The exception that the word raises.
    pub fn exception(&self) -> Option<Exception>
        ensures { result ≡ raised_at self.now.raises }
    {
        match self.raises {
            0x10 => Some(Exception::ReservedInstruction),
            0x18 => Some(Exception::ReservedOperand),
            0x1C => Some(Exception::ReservedMode),
            0x2C => Some(Exception::Breakpoint),
            _ => None,
        }
    }
}

/// Why a list of points is refused.
#[derive(Clone, Copy, Debug, PartialEq, Eq)]
pub enum PointRefusal {
    /// The pair at this place, counted from 0, is the first whose word isn't above its predecessor's.
    OutOfOrder { place: usize },
}

impl PointRefusal {
    ghost use Rattle.exception_records.specs.Points.{number_of};

    /// The number of the refusal.
    pub fn number(&self) -> u8
        ensures { result ≡ number_of self.now }
    {
        match *self {
            PointRefusal::OutOfOrder { .. } => 1,
        }
    }
}

/// The points of translated code by the numbers of their words, which rise.
#[derive(Debug, Drop)]
pub struct Points {
    points: Vec<(u32, Point)>,
    // What is told of each word, once that was prepared: the place of its point.
    places: Option<Vec<Option<u32>>>,
}

impl Model for Points {
    ghost use Rattle.std.specs.Prelude.{List};
    ghost use Rattle.std.specs.Option.{ForSome};
    ghost use Rattle.exception_records.specs.Points.{ArePlacesOf, Entry, WordsRise};

    ghost Value = { List Entry };

    ghost view = { λ p. p.points.items };

    ghost invariant = { λ p. WordsRise p.points.items × ForSome p.places (λ places. ArePlacesOf places.items p.points.items) };
}

impl Points {
    ghost use Rattle.std.specs.Prelude.{option_copied};
    ghost use Rattle.exception_records.specs.Points.{point_at};

    /// Prepares that points are found at one look; else they are searched for. It changes nothing else, nor anything
    /// where memory runs out.
    pub fn prepare(&mut self, alloc: Global) -> Result<(), WantOfMemory>
        ensures { self.new ≡ self.old }
    {
        self.places = Some(places_of(alloc, &self.points)?);
        Ok(())
    }

    /// The point of a word; None where the word has none.
    pub fn find(&self, alpha: u32) -> Option<&Point>
        ensures { option_copied result ≡ point_at self.now alpha }
    {
        match &self.places {
            Some(places) => point_by(places, &self.points, alpha),
            None => point_in(&self.points, alpha),
        }
    }
}

ghost use Rattle.std.specs.Prelude.{option_copied};
ghost use Rattle.exception_records.specs.Points.{ArePlacesOf, point_at};

// By what is told of the word.
fn point_by<'a>(places: &[Option<u32>], points: &'a [(u32, Point)], alpha: u32) -> Option<&'a Point>
    requires rising { WordsRise points.now }
    requires places { ArePlacesOf places.now points.now }
    ensures { option_copied result ≡ point_at points.now alpha }
{
    match places.get(alpha as usize) {
        Some(Some(place)) => Some(&points[*place as usize].1),
        Some(None) => None,
        None => point_in(points, alpha),
    }
}

// By a search.
fn point_in(points: &[(u32, Point)], alpha: u32) -> Option<&Point>
    requires { WordsRise points.now }
    ensures { option_copied result ≡ point_at points.now alpha }
{
    match points.binary_search_by_key(&alpha, |point| point.0) {
        Ok(place) => Some(&points[place].1),
        Err(_) => None,
    }
}

fn places_of(alloc: Global, points: &[(u32, Point)]) -> Result<Vec<Option<u32>>, WantOfMemory>
    requires { WordsRise points.now }
    ensures { IfOk result (λ places. ArePlacesOf places.items points.now) }
{
    let mut places = vec![in alloc; None; numbers_told(points.last().map(|point| point.0))]?;
    for place in 0..points.len() {
        let word = points[place].0 as usize;
        if word < places.len() {
            places[word] = Some(place as u32);
        }
    }
    Ok(places)
}

ghost use Rattle.exception_records.specs.Points.{WordsRise, HasFlaw};

// Looks at each pair beside its predecessor.
fn check_order(points: &[(u32, Point)]) -> Result<(), PointRefusal>
    ensures rising { OnOk result (WordsRise points.now) }
    ensures refused { IfErr result (HasFlaw points.now) }
{
    for place in 1..points.len() {
        if points[place].0 <= points[place - 1].0 {
            return Err(PointRefusal::OutOfOrder { place });
        }
    }
    Ok(())
}

/// The points in a list of pairs of a word and its point. It is refused at the first pair whose word isn't above its
/// predecessor's.
pub fn build(points: Vec<(u32, Point)>) -> Result<Points, PointRefusal>
    ensures points { IfOk result (λ p. p ≡ points.items) }
    ensures rising { OnOk result (WordsRise points.items) }
    ensures refused { IfErr result (HasFlaw points.items) }
{
    check_order(&points)?;
    Ok(Points {
        points,
        places: None,
    })
}
