// When words are an expression: 1 to 24 items in postfix that leave one value, with at most eight on the way.
ghost use Rattle.std.specs.Prelude.{◌≡◌, ◌≤◌, ◌&&◌, true, false, map, length, take, drop, IfSome, IfNone};
ghost use Rattle.expression.specs.Words.{item_of};
ghost use Rattle.expression.specs.Shape.{is_expression, split, OneSplit, HasValue};

use crate::item::Item;
use domain::Domain;

const LONGEST: usize = 24;

const DEEPEST: usize = 8;

pub fn is_expression(words: &[u32]) -> bool
    ensures { result ≡ is_expression (map item_of words.now) }
{
    if words.len() > LONGEST {
        return false;
    }
    let mut depth = 0;
    for w in words {
        let t = Item::from(*w).taken();
        if t > depth || depth - t >= DEEPEST {
            return false;
        }
        depth = depth - t + 1;
    }
    depth == 1
}

// Words that are an expression.
#[derive(Clone, Copy)]
pub struct Expression<'a> {
    pub words: &'a [u32],
    ghost is: { is_expression (map item_of words.now) ≡ true },
}

impl<'a> Expression<'a> {
    // These words, if they are an expression.
    // No `TryFrom`: words that are none have no error to tell.
    pub fn of(words: &'a [u32]) -> Option<Expression<'a>>
        ensures some { IfSome result (λ e. e.words.now ≡ words.now) }
        ensures none { IfNone result (is_expression (map item_of words.now) ≡ false) }
    {
        if is_expression(words) {
            Some(Expression { words })
        } else {
            None
        }
    }
}

// Whether both sides of `k` are expressions.
fn splits_at(words: &[u32], k: usize) -> bool
    requires { k ≤ length words.now }
    ensures { result ≡ (is_expression (map item_of (take k words.now)) && is_expression (map item_of (drop k words.now))) }
{
    let (left, right) = words.split_at(k);
    is_expression(left) && is_expression(right)
}

// Where the second of two expressions, one behind the other, begins.
// It is the last one, so it begins at the first place from the end back from which no value is wanted: each word leaves a value and wants those that it takes.
pub fn split_of(words: &[u32]) -> Option<usize>
    ensures { result ≡ split words.now }
{
    let mut wanted: usize = 1;
    for k in (0..words.len()).rev() {
        wanted = wanted + Item::from(words[k]).taken() - 1;
        if wanted == 0 {
            return splits_at(words, k).then_some(k);
        }
    }
    None
}

// Two expressions one behind the other can be split in one way only.
pub fn splits_once()
    ensures { OneSplit }
{}

// Every expression has a value, whatever its leaves hold.
pub fn has_value<D: Domain>()
    ensures { HasValue D.ops }
{}
