// A call's list as one number that tells where in the slots its values come from, so that a call takes all its arguments at once. A list is read when a run
// first comes to it; its number is kept.
#![tactic(auto)]

ghost use Rattle.std.specs.Prelude.{◌≡◌, ◌<◌, ◌≤◌, ◌/◌, ◌%◌};
ghost use Rattle.run_lists.specs.Inner.Lists.{code_by, valued_at, next_from, head_by, told_of, values_of, Right};

use plan_operands::tags;
use run_term_words::words;

// What the count of values is worth, and the list with it.
const COUNT: usize = 281474976710656;

const LIST: usize = 4503599627370496;

// What comes next in a list.
#[derive(Clone, Copy)]
pub struct Item {
    pub code: usize,
    pub rest: usize,
    pub one: usize,
}

// From which bit of the slots a value comes, whose word this is; 40, past all slots, where it is null.
fn code(word: usize) -> usize
    ensures { (result ≡ code_by word) × (result < 64) }
{
    if plan_operands::tag(word) == tags::VARIABLE {
        let slot = plan_operands::slot_of(word);
        if slot < 8 {
            return slot * 5;
        }
    }
    40
}

// Whether a list has a value next.
fn valued(words: &[usize; 1024], list: usize) -> bool
    ensures { result ≡ valued_at words.now list }
{
    let word = words::word(words, list);
    plan_operands::tag(word) == tags::LIST
        && plan_operands::tag(words::word(words, plan_operands::first(word))) < 2
}

// The value that comes next in a list: its code, the list behind it, and one for it; where none comes, 40, the list itself, and none.
fn next(words: &[usize; 1024], list: usize) -> Item
    ensures { (result ≡ next_from words.now list) × (result.code < 64) × (result.one ≤ 1) }
{
    if valued(words, list) {
        let word = words::word(words, list);
        return Item {
            code: code(words::word(words, plan_operands::first(word))),
            rest: plan_operands::second(word),
            one: 1,
        };
    }
    Item {
        code: 40,
        rest: list,
        one: 0,
    }
}

// A list and how many values it has, once they are read up to the rest; 15 where more than values come.
fn head(words: &[usize; 1024], list: usize, rest: usize, count: usize) -> usize
    requires { (list < 1024) × (count ≤ 8) }
    ensures { (result ≡ head_by words.now list rest count) × (result < 16416) }
{
    if plan_operands::tag(words::word(words, rest)) == tags::LIST {
        return (list + 1) * 16 + 15;
    }
    (list + 1) * 16 + count
}

// Reads a list.
fn read(words: &[usize; 1024], list: usize) -> usize
    requires { list < 1024 }
    ensures { result ≡ told_of words.now list }
{
    let mut at = list;
    let mut codes: usize = 0;
    let mut count: usize = 0;
    for place in 0..8usize {
        let next = next(words, at);
        codes += next.code << (place * 6);
        count += next.one;
        at = next.rest;
    }
    codes + head(words, list, at, count) * COUNT
}

// The number of a list, read at most once.
pub fn told(words: &[usize; 1024], lists: &mut [usize; 32], list: usize) -> usize
    requires { (list < 1024) × Right words.now lists.old }
    ensures { (result ≡ told_of words.now list) × Right words.now lists.new }
{
    let kept = lists[list % 32];
    if kept / LIST == list + 1 {
        return kept;
    }
    let told = read(words, list);
    lists[list % 32] = told;
    told
}

// How many values a list's number tells of.
pub fn count_of(told: usize) -> usize
    ensures { result ≡ told / 281474976710656 % 16 }
{
    told / COUNT % 16
}

// The values that a list's number tells, of these slots, each in its place.
pub fn values(environment: usize, told: usize) -> usize
    ensures { result ≡ values_of 8 environment told }
{
    let slots = environment % 1099511627776;
    let mut codes = told;
    let mut values: usize = 0;
    for place in 0..8usize {
        values += ((slots >> (codes % 64)) % 32) << (place * 5);
        codes /= 64;
    }
    values
}
