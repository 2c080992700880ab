// A file taken apart.
ghost use Rattle.std.specs.Prelude.{◌≡◌, vec_items};
ghost use Rattle.records.specs.Records.{mark};
ghost use Rattle.records.specs.Files.{Reads, words_of, body, next, parts_of, start_of, layout_of, file_of, seen, seen_part, seen_parts, seen_body, seen_next};

use crate::file::{File, FileFault, Part, Values};
use crate::record::RecordType;
use std::alloc::Global;

// The bytes of the longest file: 16,384 words of four.
pub const LONGEST: usize = 65536;

// The words of the bytes, big-endian.
// (The heap is lent to each call.)
fn words_of(heap: Global, bytes: &[u8]) -> Result<Vec<u32>, FileFault>
    ensures { Reads vec_items result (words_of bytes.now) }
{
    let (words, rest) = bytes.as_chunks::<4>();
    if !rest.is_empty() {
        return Err(FileFault::BadFile);
    }
    Ok(
        words
            .iter()
            .map(|word| u32::from_be_bytes(*word))
            .collect(heap)?,
    )
}

// The words that a record counts, and what stands behind them.
#[derive(Clone, Copy)]
struct Body<'a> {
    words: &'a [u32],
    rest: &'a [u32],
}

// The domain of the values, and how many registers are shared.
#[derive(Clone, Copy)]
struct Start {
    values: Values,
    shared: u32,
}

// The record of this type at the front of the words.
fn body_of(words: &[u32], wanted: RecordType) -> Option<Body<'_>>
    ensures { seen_body result ≡ body (mark wanted) words.now }
{
    let (head, more) = words.split_first()?;
    let count = (head % 65536) as usize;
    if head / 65536 != wanted.mark() || count > more.len() {
        return None;
    }
    let (words, rest) = more.split_at(count);
    Some(Body { words, rest })
}

// A part of the proposal, and what stands behind it.
#[derive(Drop)]
struct Next<'a> {
    part: Part,
    rest: &'a [u32],
}

// The pair or claim at the front of the words.
fn next_of(heap: Global, words: &[u32]) -> Result<Next<'_>, FileFault>
    ensures { Reads seen_next result (next words.now) }
{
    if let Some(body) = body_of(words, RecordType::Pair) {
        let part = Part::Pair(Vec::from_slice(heap, body.words)?);
        return Ok(Next {
            part,
            rest: body.rest,
        });
    }
    let body = body_of(words, RecordType::Claim).ok_or(FileFault::BadFile)?;
    let part = Part::Claim(Vec::from_slice(heap, body.words)?);
    Ok(Next {
        part,
        rest: body.rest,
    })
}

// The pairs and claims that the words consist of. No iterator: each takes memory, and its words tell where the next begins.
fn parts_of(heap: Global, words: &[u32]) -> Result<Vec<Part>, FileFault>
    ensures { Reads seen_parts result (parts_of words.now) }
{
    let mut parts = Vec::new(heap);
    let mut rest = words;
    while !rest.is_empty() {
        let Next { part, rest: behind } = next_of(heap, rest)?;
        parts.push(part)?;
        rest = behind;
    }
    Ok(parts)
}

// The start of a file: the domain of the values, and how many registers are shared.
fn start_of(word: u32) -> Option<Start>
    ensures { result ≡ start_of word }
{
    if word / 65536 != RecordType::Start.mark() {
        return None;
    }
    Some(Start {
        values: Values::try_from(word % 256).ok()?,
        shared: word / 256 % 256,
    })
}

// The start, the two tables and the parts, in this order.
fn layout_of(heap: Global, words: &[u32]) -> Result<File, FileFault>
    ensures { Reads seen result (layout_of words.now) }
{
    let (word, tables) = words.split_first().ok_or(FileFault::BadFile)?;
    let Start { values, shared } = start_of(*word).ok_or(FileFault::BadFile)?;
    let first = body_of(tables, RecordType::FirstTable).ok_or(FileFault::BadFile)?;
    let second = body_of(first.rest, RecordType::SecondTable).ok_or(FileFault::BadFile)?;
    let parts = parts_of(heap, second.rest)?;
    let first = Vec::from_slice(heap, first.words)?;
    let second = Vec::from_slice(heap, second.words)?;
    Ok(File {
        values,
        shared,
        first,
        second,
        parts,
    })
}

// What the bytes of a file hold, or that they are no file.
pub fn read(heap: Global, bytes: &[u8]) -> Result<File, FileFault>
    ensures { Reads seen result (file_of bytes.now) }
{
    if bytes.len() > LONGEST {
        return Err(FileFault::BadFile);
    }
    let words = words_of(heap, bytes)?;
    layout_of(heap, &words)
}
