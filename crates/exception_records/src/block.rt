// The block of an instruction before it is laid out.
use crate::points::Point;
use alpha_encode::AlphaInstr;
use std::marker::Model;

/// The Alpha code of one VAX instruction. Word numbers count from the block's first word.
#[derive(Debug, Drop)]
pub struct Block {
    pub words: Vec<AlphaInstr>,
    /// Words from which the code leaves, with the VAX addresses to which it goes.
    pub exits: Vec<(u32, u32)>,
    pub points: Vec<(u32, Point)>,
}

impl Model for Block {
    ghost use Rattle.exception_records.specs.Blocks.{BlockValue};

    ghost Value = { BlockValue };

    ghost view = { λ b. record { words = b.words.items; exits = b.exits.items; points = b.points.items } };
}
