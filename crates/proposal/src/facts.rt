// Facts of a pair: two expressions and a test each.
// The words stay and the place goes on, so they are handed on apart.
ghost use Rattle.std.specs.Prelude.{◌≡◌};
ghost use Rattle.proposal.specs.Reading.{read_fact, read_facts};
ghost use Rattle.proposal.specs.Places.{told_as, behind};

use expression::kind::Kind;
use expression::shape::split_of;
use machine::words::{Reader, WordFault};

// The place behind the fact at `from`.
fn fact_end(reader: &Reader<'_>, from: usize) -> Result<usize, WordFault>
    ensures { told_as 6 result ≡ behind (read_fact reader.now.limits reader.now.words.now from) }
{
    let words = reader.words;
    let end = reader.ending_at(from)?;
    if !Kind::Test.is_of(words[end]) || split_of(&words[from..end]).is_none() {
        return Err(WordFault::Forbidden(end));
    }
    Ok(end + 1)
}

// The place behind this many facts.
// By number: where a fact begins is told by the one before it. Not one with `rows_end`: what is read and its fault are others.
pub fn facts_end(reader: &Reader<'_>, facts: u32, from: usize) -> Result<usize, WordFault>
    ensures { told_as 6 result ≡ behind (read_facts reader.now.limits facts reader.now.words.now from) }
{
    let mut place = from;
    for i in 0..facts {
        place = fact_end(reader, place)?;
    }
    Ok(place)
}
