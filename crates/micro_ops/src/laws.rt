// What holds of operands in parts, and of programs in pieces.
ghost use Rattle.micro_ops.specs.Laws.{ReadsInOne, ReadsInTwo, WritesInOne, WritesInTwo, WalksJoined, NoneLeftOut, WordsJoined, WordsOfPiece, PieceKeepsLow};

/// The laws of operands in memory: one within an aligned quadword is one reference, and one that crosses is two.
#[tactic(auto, using(crate::proofs::Parts::reads_in_one, crate::proofs::Parts::reads_in_two, crate::proofs::Parts::writes_in_one, crate::proofs::Parts::writes_in_two))]
pub fn part_laws()
    ensures read_one { ReadsInOne }
    ensures read_two { ReadsInTwo }
    ensures write_one { WritesInOne }
    ensures write_two { WritesInTwo }
{}

/// The laws of programs in pieces: the walk over two lists joined, and the words of a piece over the temporaries 0 to 5.
#[tactic(auto, using(crate::proofs::Walks::walks_joined, crate::proofs::Walks::none_left_out, crate::proofs::Walks::words_joined, crate::proofs::Walks::words_of_piece, crate::proofs::Walks::piece_keeps_low))]
pub fn piece_laws()
    ensures walks_joined { WalksJoined }
    ensures none_left_out { NoneLeftOut }
    ensures words_joined { WordsJoined }
    ensures words_of_piece { WordsOfPiece }
    ensures keeps_low { PieceKeepsLow }
{}
