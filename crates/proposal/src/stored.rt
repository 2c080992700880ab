// Expressions of a proposal, each ended by a store of the number that is due.
// The words stay and the place goes on, so they are handed on apart.
ghost use Rattle.std.specs.Prelude.{◌≡◌, ℕ, ◌^◌, ◌<◌, ◌≤◌, length, IfOk};
ghost use Rattle.proposal.specs.Reading.{stored, all_stored, bits, due, count_from};
ghost use Rattle.proposal.specs.Places.{told_as, behind};

use expression::kind::Kind;
use expression::shape::is_expression;
use expression::words::number_of;
use machine::words::{Reader, WordFault};

// The place behind the expression at `from`, which a store of `due` ends.
pub fn stored_at(reader: &Reader<'_>, due: u32, from: usize) -> Result<usize, WordFault>
    ensures reads { (refusal : ℕ) → told_as refusal result ≡ behind (stored refusal reader.now.limits due reader.now.words.now from) }
    ensures within { IfOk result (λ q. (from < q) × (q ≤ length reader.now.words.now)) }
{
    let words = reader.words;
    let end = reader.ending_at(from)?;
    let store = words[end];
    if is_expression(&words[from..end]) && Kind::Store.is_of(store) && number_of(store) == due {
        return Ok(end + 1);
    }
    Err(WordFault::Forbidden(end))
}

// The place behind one expression for each symbol below `symbols`, rising.
// By number: it is the symbol that is due, and where an expression begins is told by the one before it.
pub fn substitution_end(reader: &Reader<'_>, symbols: u32, from: usize) -> Result<usize, WordFault>
    ensures reads { told_as 7 result ≡ behind (all_stored 7 reader.now.limits (count_from 0 symbols) reader.now.words.now from) }
{
    let mut place = from;
    for symbol in 0..symbols {
        place = stored_at(reader, symbol, place)?;
    }
    Ok(place)
}

// The place behind one expression for each one in `mask`, registers rising.
// A turn for each bit: where an expression begins is told by the one before it.
pub fn masked_end(reader: &Reader<'_>, mask: u32, from: usize) -> Result<usize, WordFault>
    ensures { (n : ℕ) → mask < 2 ^ n → told_as 6 result ≡ behind (all_stored 6 reader.now.limits (due (bits n mask) 0) reader.now.words.now from) }
{
    let mut left = mask;
    let mut place = from;
    for i in 0..mask.count_ones() {
        let register = left.trailing_zeros();
        place = stored_at(reader, register, place)?;
        left &= left - 1;
    }
    Ok(place)
}
