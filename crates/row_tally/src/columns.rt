// The fields of a row of so many, which have one space between, and the first fields of a row.
ghost use Rattle.std.specs.Prelude.{◌≡◌, ◌≢◌, ◌≤◌, [], ◌∷◌, ◌++◌, map, length, IfOk, IfErr};
ghost use Rattle.std.specs.Option.{MatchOption};
ghost use Rattle.row_tally.specs.Rows.{fields_of};

use crate::fault::RowFault;

/// The first field of a row, and what is behind it, if that is more than nothing.
fn cut(row: &str) -> Option<(&str, &str)>
    ensures { MatchOption result (fields_of row.now ≡ row.now ∷ []) (λ cut. (fields_of row.now ≡ cut.0.now ∷ fields_of cut.1.now) × (1 ≤ length (fields_of cut.1.now))) }
{
    row.split_once(' ')
}

/// The first field of a row of more than one, and what is behind it.
fn first_field(row: &str) -> Result<(&str, &str), RowFault>
    ensures fields { IfOk result (λ cut. (fields_of row.now ≡ cut.0.now ∷ fields_of cut.1.now) × (1 ≤ length (fields_of cut.1.now))) }
    ensures refused { IfErr result (λ _. length (fields_of row.now) ≡ 1) }
{
    cut(row).ok_or(RowFault::OtherCount)
}

pub fn two_fields(row: &str) -> Result<(&str, &str), RowFault>
    ensures fields { IfOk result (λ f. fields_of row.now ≡ f.0.now ∷ f.1.now ∷ []) }
    ensures refused { IfErr result (λ _. length (fields_of row.now) ≢ 2) }
{
    let (first, second) = first_field(row)?;
    match cut(second) {
        None => Ok((first, second)),
        Some(_) => Err(RowFault::OtherCount),
    }
}

pub fn three_fields(row: &str) -> Result<(&str, &str, &str), RowFault>
    ensures fields { IfOk result (λ f. fields_of row.now ≡ f.0.now ∷ f.1.now ∷ f.2.now ∷ []) }
    ensures refused { IfErr result (λ _. length (fields_of row.now) ≢ 3) }
{
    let (first, rest) = first_field(row)?;
    let (second, third) = two_fields(rest)?;
    Ok((first, second, third))
}

pub fn four_fields(row: &str) -> Result<(&str, &str, &str, &str), RowFault>
    ensures fields { IfOk result (λ f. fields_of row.now ≡ f.0.now ∷ f.1.now ∷ f.2.now ∷ f.3.now ∷ []) }
    ensures refused { IfErr result (λ _. length (fields_of row.now) ≢ 4) }
{
    let (first, rest) = first_field(row)?;
    let (second, third, fourth) = three_fields(rest)?;
    Ok((first, second, third, fourth))
}

pub fn five_fields(row: &str) -> Result<(&str, &str, &str, &str, &str), RowFault>
    ensures fields { IfOk result (λ f. fields_of row.now ≡ f.0.now ∷ f.1.now ∷ f.2.now ∷ f.3.now ∷ f.4.now ∷ []) }
    ensures refused { IfErr result (λ _. length (fields_of row.now) ≢ 5) }
{
    let (first, rest) = first_field(row)?;
    let (second, third, fourth, fifth) = four_fields(rest)?;
    Ok((first, second, third, fourth, fifth))
}

/// The first five fields of a row, and what is behind them.
pub fn five_fields_and_rest(row: &str) -> Result<([&str; 5], &str), RowFault>
    ensures fields { IfOk result (λ f. fields_of row.now ≡ map (λ field. field.now) f.0 ++ fields_of f.1.now) }
    ensures refused { IfErr result (λ _. length (fields_of row.now) ≤ 5) }
{
    let (first, rest) = first_field(row)?;
    let (second, rest) = first_field(rest)?;
    let (third, rest) = first_field(rest)?;
    let (fourth, rest) = first_field(rest)?;
    let (fifth, rest) = first_field(rest)?;
    Ok(([first, second, third, fourth, fifth], rest))
}
